//! The rows of snapshots by their rules, which may ask for a parent: picked of a whole table, or made anew by keys.
#![tactic(auto)]

mod fast;
mod full;
mod laws;
mod looking;
mod placed;
mod rows;
mod rule;
mod search;
mod view;

pub use fast::rows_fast;
pub use full::rows_full;
pub use laws::subquery_laws;
pub use rule::Rule;
pub use view::{ChildView, CountedRows};
