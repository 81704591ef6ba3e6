//! A snapshot of a table at its site.

use crate::{Parent, Query};
use rep_lists::Items;
use rep_values::Key;

/// The snapshot of one table: its query, the parent by which it shows rows, the master's moment at its last refresh, and
/// the keys of the rows that were changed here since then. No snapshot is made with a parent yet, and refreshes go by the
/// query alone.
#[derive(Drop)]
pub struct Snapshot {
    pub table: u32,
    pub query: Query,
    pub parent: Option<Parent>,
    pub mark: u64,
    pub touched: Items<Key>,
}
