//! What a live part prints at its end.
#![tactic(auto)]

mod laws;
mod order;
mod parts;
mod turns;

pub use laws::printed_parts_are_known;
pub use parts::part_lines;
