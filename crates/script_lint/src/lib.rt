//! A script read to its end, and all that is found in it.
#![tactic(auto)]

mod ending;
mod error;
mod findings;
mod laws;
mod linter;
mod whole;

pub use error::ErrorFound;
pub use findings::Findings;
pub use laws::malformed_lines_end_runs;
pub use lint_words::{Advice, AdviceFound, Level, Why};
pub use whole::lint;
