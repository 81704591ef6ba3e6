//! What a local transaction is given, and what comes of it.
ghost use Rattle.std.specs.Prelude.{◌≡◌};
ghost use Rattle.rep_values.specs.declared.refusal.Refusal.TheVariants.{Memory};

use rep_calls::Txn;
use rep_schema::{Changes, TableSet};
use rep_values::{Refusal, SiteName};
use thiserror::Error;

/// The site that runs a transaction, and the tables that it holds.
#[derive(Clone, Copy)]
pub struct Here {
    pub site: SiteName,
    pub is_master: bool,
    pub tables: TableSet,
}

/// A site's clock, and the last stamp that it gave.
#[derive(Clone, Copy)]
pub struct Stamps {
    pub clock: u64,
    pub last: u64,
}

/// A transaction, and the rows before and after each of its calls.
#[derive(Drop)]
pub struct Local {
    pub txn: Txn,
    pub changes: Changes,
}

/// The first refused statement, from 1, and why it is refused. Want of memory has statement 0.
#[derive(Clone, Copy, Debug, PartialEq, Eq, Error)]
#[error("statement {statement} is refused: {refusal}")]
pub struct LocalStop {
    pub statement: u32,
    pub refusal: Refusal,
}

impl LocalStop {
    /// Want of memory.
    pub fn memory() -> LocalStop
        ensures { result ≡ record { statement = 0; refusal = Memory } }
    {
        LocalStop {
            statement: 0,
            refusal: Refusal::Memory,
        }
    }
}
