//! What a transaction touches, and on which earlier position of a stream it depends.
#![tactic(auto)]

mod hashing;
mod index;
mod laws;
mod places;
mod stream;
mod streams;
mod token;
mod touched;

pub use index::Index;
pub use laws::dependency_laws;
pub use token::{Token, Tokens};
pub use touched::{has_unique_token, key_named, tokens_of};
