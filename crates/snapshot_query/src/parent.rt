//! The rows of another table by which a snapshot shows its rows.

use crate::Query;
use rep_lists::{Copies, Items, NoMemory};
use std::alloc::Global;

/// Where the parents of a snapshot's rows stand: a row's parent is the row of this table under the key that these columns
/// of the row hold, in that order. With a parent a snapshot shows those of its table's rows whose parent is there and
/// passes these tests.
#[derive(Drop)]
pub struct Parent {
    pub table: u32,
    pub columns: Items<u32>,
    pub tests: Query,
}

impl Copies for Parent {
    fn copy(&self, alloc: Global) -> Result<Parent, NoMemory> {
        Ok(Parent {
            table: self.table,
            columns: self.columns.copy(alloc)?,
            tests: self.tests.copy(alloc)?,
        })
    }
}
