//! Live parts: turns of origins and sessions at one site, what a run of them is, and laws over every such run.
#![tactic(auto)]

mod laws;
mod turn;

pub use laws::{
    full_runs_exist, full_runs_finish_the_same, positions_are_applied_in_order,
    printed_turns_are_known, turns_are_events, turns_are_journalled,
};
pub use turn::{Block, LiveTurn, Reply, Session};
