//! What a receiver does with all that came by a push, at one site: its passes, whoever makes them, and the errors that they
//! brought.
#![tactic(auto)]

mod entries;
mod errors;
mod journalled;
mod passed;
mod passing;
mod rounds;

pub use entries::finished_by_newest;
pub use errors::add_new_errors;
pub use journalled::Journalled;
pub use passing::{By, Passing, Serial};
pub use rounds::apply_until_quiet;
