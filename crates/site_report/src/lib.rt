//! What the show commands print of a site.
#![tactic(auto)]

mod errors;
mod journal;
mod log;
mod marks;
mod queue;

pub use errors::add_errors;
pub use journal::add_journal;
pub use log::add_log;
pub use marks::add_marks;
pub use queue::add_queue;
