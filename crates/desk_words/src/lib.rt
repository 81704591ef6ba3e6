//! What refusals, errors and rules say in words, and what to do about each.
#![tactic(auto)]

mod errors;
mod limits;
mod refusals;

pub use errors::{ErrorNote, Stream};
pub use refusals::RefusalNote;
