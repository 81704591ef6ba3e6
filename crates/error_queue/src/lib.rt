//! The error queue of a site: the errors that stand, by origin as declared, then by position.
#![tactic(auto)]

mod entry;
mod errors;
mod origin_errors;

pub use entry::ErrorEntry;
pub use errors::Errors;
pub use origin_errors::OriginErrors;
