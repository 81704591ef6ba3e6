//! What is wrong with a line that gives no command: the rule that it breaks, where, and what was expected there.
#![tactic(auto)]

mod bytes;
mod fronts;
mod hint;
mod mistake;
mod near;
mod reading;

pub use hint::Hint;
pub use mistake::{LineError, Mistake};
pub use reading::read_line;
