//! Tables.

use crate::Look;
use rep_lists::Items;

/// A cell of a table.
#[derive(Drop)]
pub struct Cell {
    pub look: Look,
    pub words: Items<u8>,
}

/// A table: its caption, the heads of its columns, and its rows from the top down.
#[derive(Drop)]
pub struct Table {
    pub caption: Items<u8>,
    pub columns: Items<Items<u8>>,
    pub rows: Items<Items<Cell>>,
}
