//! Snapshots and their queries: which of its master's rows a snapshot shows.
#![tactic(auto)]

mod parent;
mod query;
mod snapshot;

pub use parent::Parent;
pub use query::{Op, Query, Test};
pub use snapshot::Snapshot;
