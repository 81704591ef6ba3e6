//! Rows that a snapshot site is handed.

use rep_lists::Items;
use rep_values::Row;

/// The rows of one table, in rising order of key.
#[derive(Drop)]
pub struct TableRows {
    pub table: u32,
    pub rows: Items<Row>,
}
