//! A pass of several appliers, which leaves the site that a pass of one leaves.
#![tactic(auto)]

mod applier;
mod apply;
mod claim;
mod claims;
mod crew;
mod seat;
mod turns;
mod workers;

pub use apply::apply_crew;
pub use claims::MOST_APPLIERS;
pub use workers::{Workers, beside_workers};
