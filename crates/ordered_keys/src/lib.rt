//! Entries with a key and a moment, in a list to which each place is near.
#![tactic(auto)]

mod change;
mod join;
mod list;
mod noted;
mod read;
mod tree;

pub use list::TreeList;
pub use noted::Noted;
