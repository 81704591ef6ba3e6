//! The order of a journal: which of two positions comes first, and its newest entries in rising order of position.
#![tactic(auto)]

mod laws;
mod sort;

pub use laws::sorting_changes_no_more;
pub use sort::sort_from;
