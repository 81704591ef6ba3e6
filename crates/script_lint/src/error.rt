//! Lines that the engine doesn't do.

use lint_words::Why;
use script_steps::Answer;

/// A line that the engine doesn't do.
#[derive(Drop)]
pub struct ErrorFound {
    /// What the engine says.
    pub answer: Answer,
    /// From 1; None for the line as a whole.
    pub column: Option<usize>,
    pub why: Why,
    /// The place of the error of which it is a consequence, if it is one.
    pub cause: Option<usize>,
}
