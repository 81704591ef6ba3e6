//! Words about what happened at sites: of a push what became of its positions, and of an error the values of the call that failed.
#![tactic(auto)]

mod cells;
mod errors;
mod failed;
mod pushes;
mod states;
mod texts;
mod ways;

pub use errors::{add_call_error, add_row_error};
pub use pushes::{Plan, Pushed, plan_push};
pub use texts::{LineText, add_marked, add_note};
pub use ways::Ways;
