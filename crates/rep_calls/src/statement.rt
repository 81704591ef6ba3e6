//! What a script asks of one row.

use rep_lists::{Copies, Items, NoMemory};
use rep_values::{Literal, Name, TableName};
use std::alloc::Global;

/// A statement of a transaction block, with its names and literals as the script gives them.
#[derive(Drop)]
pub enum Statement {
    /// A literal for each column that the site doesn't fill, in column order.
    Insert {
        table: TableName,
        values: Items<Literal>,
    },
    /// A literal for each key column, and the columns to set.
    Update {
        table: TableName,
        key: Items<Literal>,
        sets: Items<Set>,
    },
    /// A literal for each key column.
    Delete {
        table: TableName,
        key: Items<Literal>,
    },
}

/// A column, and what becomes of its value.
#[derive(Clone, Copy)]
pub struct Set {
    pub column: Name,
    pub how: How,
}

/// The new value, or an amount to be added to the old one.
#[derive(Clone, Copy)]
pub enum How {
    To(Literal),
    Add(i64),
}

impl Copies for Statement {
    fn copy(&self, alloc: Global) -> Result<Statement, NoMemory> {
        match self {
            Statement::Insert { table, values } => Ok(Statement::Insert {
                table: *table,
                values: values.copy(alloc)?,
            }),
            Statement::Update { table, key, sets } => Ok(Statement::Update {
                table: *table,
                key: key.copy(alloc)?,
                sets: sets.copy(alloc)?,
            }),
            Statement::Delete { table, key } => Ok(Statement::Delete {
                table: *table,
                key: key.copy(alloc)?,
            }),
        }
    }
}

impl Copies for Set {
    fn copy(&self, _alloc: Global) -> Result<Set, NoMemory> {
        Ok(*self)
    }
}
