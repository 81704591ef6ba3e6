//! What a line about procedures asks for.

use crate::TestWords;
use net_plan::Fate;
use rep_lists::{Copies, Items, NoMemory};
use rep_schema::Column;
use rep_values::{Literal, Name, SiteName, TableName};
use std::alloc::Global;

/// A line about procedures, with the parts of its form in their order.
#[derive(Drop)]
pub enum ProcLine {
    /// `proctable NAME COLUMN+`, without STAMP and SITE columns
    Table {
        table: TableName,
        columns: Items<Column>,
    },
    /// `procedure NAME NAME ACTION`
    Procedure {
        procedure: Name,
        table: TableName,
        action: ActionWords,
    },
    /// `calls NAME`
    Calls {
        site: SiteName,
    },
    /// `call NAME [VALUE]..`
    Call(CallWords),
    /// `send [NAME]..`
    Send {
        to: Items<SiteName>,
    },
    /// `push-calls NAME NAME`
    Push {
        from: SiteName,
        to: SiteName,
    },
    /// `fate-calls NAME NAME FATE+`
    Fates {
        from: SiteName,
        to: SiteName,
        fates: Items<Fate>,
    },
    /// `execute-calls NAME NAME WHOLE`
    Execute {
        site: SiteName,
        origin: SiteName,
        position: u64,
    },
}

/// What a procedure does, with the names of its columns.
#[derive(Drop)]
pub enum ActionWords {
    /// `put`
    Put,
    /// `add NAME [where TEST [and TEST]..]`
    Add {
        column: Name,
        tests: Option<Items<TestWords>>,
    },
    /// `drop [where TEST [and TEST]..]`
    Drop {
        tests: Option<Items<TestWords>>,
    },
}

/// A call: the name of a procedure, and the values that it is given.
#[derive(Drop)]
pub struct CallWords {
    pub procedure: Name,
    pub values: Items<Literal>,
}

impl Copies for CallWords {
    fn copy(&self, alloc: Global) -> Result<CallWords, NoMemory> {
        Ok(CallWords {
            procedure: self.procedure,
            values: self.values.copy(alloc)?,
        })
    }
}
