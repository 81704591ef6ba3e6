//! What the lines of a script do to a world, pushes apart.
#![tactic(auto)]

mod blocks;
mod joins;
mod links;
mod refreshing;
mod ruled;
mod setup;
mod shown;
mod sites;
mod snapshots;

pub use blocks::{abandon, add_statement, commit, open_block};
pub use joins::join;
pub use links::{add_fates, clear_fates, set_link};
pub use refreshing::{purge_log, refresh};
pub use setup::{add_row, declare, resume, suspend};
pub use shown::show;
pub use sites::{drop_error, execute, purge, set_clock};
pub use snapshots::add_snapshot;
