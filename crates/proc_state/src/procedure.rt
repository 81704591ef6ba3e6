//! Procedures: each of them does one thing to one table.

use rep_lists::{Copies, NoMemory};
use rep_values::Name;
use snapshot_query::Query;
use std::alloc::Global;

/// A procedure of a table, which is named by its place.
#[derive(Drop)]
pub struct Procedure {
    pub name: Name,
    pub table: u32,
    pub action: Action,
}

/// What a procedure does to its table. A column is named by its place.
#[derive(Drop)]
pub enum Action {
    /// Puts a row, in place of the one with its key.
    Put,
    /// Adds an amount in a NUMBER column outside the key, in each row that passes the tests.
    Add { column: u32, tests: Query },
    /// Takes each row that passes the tests.
    Drop { tests: Query },
}

impl Copies for Procedure {
    fn copy(&self, alloc: Global) -> Result<Procedure, NoMemory> {
        Ok(Procedure {
            name: self.name,
            table: self.table,
            action: self.action.copy(alloc)?,
        })
    }
}

impl Copies for Action {
    fn copy(&self, alloc: Global) -> Result<Action, NoMemory> {
        match self {
            Action::Put => Ok(Action::Put),
            Action::Add { column, tests } => Ok(Action::Add {
                column: *column,
                tests: tests.copy(alloc)?,
            }),
            Action::Drop { tests } => Ok(Action::Drop {
                tests: tests.copy(alloc)?,
            }),
        }
    }
}
