//! Snapshots that are declared.

use rep_values::SiteName;
use snapshot_query::{Parent, Query};

/// A snapshot as it is declared: its site, the place of its table, its query, and the parent by which it shows rows, if it has
/// one.
#[derive(Drop)]
pub struct DeclaredSnapshot {
    pub site: SiteName,
    pub table: u32,
    pub query: Query,
    pub parent: Option<Parent>,
}
