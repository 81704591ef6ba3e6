//! Where a script stands, why a command isn't for now, and which of its names stands for nothing.
#![tactic(auto)]

mod cause;
mod flow;
mod names;
mod spots;

pub use cause::Cause;
pub use flow::Flow;
pub use names::{Named, unknown};
pub use spots::{Spots, column_of, first_word};
