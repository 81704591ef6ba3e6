//! Which positions of one sender are finished, and up to which number all are.
#![tactic(auto)]

mod edges;
mod finished;
mod laws;

pub use finished::Finished;
pub use laws::low_water_laws;
