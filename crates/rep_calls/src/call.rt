//! What travels from site to site: row changes with their old and new values.
ghost use Rattle.std.specs.Prelude.{◌≡◌, IfOk};

use rep_lists::{Copies, Items, NoMemory, Shared};
use rep_values::{Key, Row, Value};
use std::alloc::Global;

/// One row change. Tables and groups are named by their place, the shadow group by 255.
#[derive(Drop)]
pub enum Call {
    /// The whole new row.
    Insert {
        table: u32,
        row: Row,
    },
    /// A part for each group in which a column changed, named groups in declared order, the shadow group last.
    Update {
        table: u32,
        key: Key,
        parts: Items<Part>,
    },
    /// The whole old row.
    Delete {
        table: u32,
        row: Row,
    },
}

/// The old and new values of all columns of one group, in column order.
#[derive(Drop)]
pub struct Part {
    pub group: u8,
    pub old: Items<Value>,
    pub new: Items<Value>,
}

/// A transaction: its calls in order, 1 to 1,000 of them where it is queued. They stand in memory once, however many
/// queues, journals and packets hold the transaction.
#[derive(Drop)]
pub struct Txn {
    pub calls: Shared<Call>,
}

impl Txn {
    /// The transaction of these calls, which are taken over as they are.
    pub fn of(alloc: Global, calls: Items<Call>) -> Result<Txn, NoMemory>
        ensures { IfOk result (λ txn. txn.calls ≡ calls) }
    {
        Ok(Txn {
            calls: Shared::new(alloc, calls.into_vec())?,
        })
    }

    /// The same transaction for one more holder, at no memory: it is refused only where 2^63 hold it.
    pub fn share(&self) -> Result<Txn, NoMemory>
        ensures { IfOk result (λ txn. txn ≡ self.now) }
    {
        Ok(Txn {
            calls: self.calls.share()?,
        })
    }
}

impl Copies for Call {
    fn copy(&self, alloc: Global) -> Result<Call, NoMemory> {
        match self {
            Call::Insert { table, row } => Ok(Call::Insert {
                table: *table,
                row: row.copy(alloc)?,
            }),
            Call::Update { table, key, parts } => Ok(Call::Update {
                table: *table,
                key: *key,
                parts: parts.copy(alloc)?,
            }),
            Call::Delete { table, row } => Ok(Call::Delete {
                table: *table,
                row: row.copy(alloc)?,
            }),
        }
    }
}

impl Copies for Part {
    fn copy(&self, alloc: Global) -> Result<Part, NoMemory> {
        Ok(Part {
            group: self.group,
            old: self.old.copy(alloc)?,
            new: self.new.copy(alloc)?,
        })
    }
}

impl Copies for Txn {
    fn copy(&self, _alloc: Global) -> Result<Txn, NoMemory> {
        self.share()
    }
}
