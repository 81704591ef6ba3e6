//! What a site is, as definitions: what it keeps, what is computed from that, and what each of its calls does and answers.
#![tactic(auto)]

mod answers;
mod arrival;
mod entry;
mod rows;

pub use answers::{Accepted, Applied, PassCount, RefreshCount, Why};
pub use arrival::Arrival;
pub use entry::Entry;
pub use rows::TableRows;
