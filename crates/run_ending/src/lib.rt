//! What there is at the end of a run: the errors that stand, how far the streams are, and the tables.
#![tactic(auto)]

mod ending;
mod marks;
mod standing;
mod tables;
mod words;

pub use ending::ending_of;
pub use words::error_words;
