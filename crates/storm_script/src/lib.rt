//! The script of a storm as commands: an opening, rounds that are drawn from a seed, and a closing.
#![tactic(auto)]

mod declarations;
mod draws;
mod first;
mod last;
mod laws;
mod rounds;
mod ways;
mod words;

pub use draws::Draws;
pub use first::opening;
pub use last::closing;
pub use laws::storm_laws;
pub use ways::{Way, first_site, sites};
