//! Where a block stands beside the rows of a store.
ghost use Rattle.std.specs.Prelude.{◌≡◌, ◌<◌, length};
ghost use Rattle.local_txn.specs.Running.{progress_after};

use crate::convergent::side_of;
use rep_schema::Schema;
use txn_effects::{Here, Side, Stamps};

/// The site that a block runs at, the site's stamps so far, and which tables the block's statements are on so far.
#[derive(Clone, Copy)]
pub(crate) struct BlockProgress {
    pub here: Here,
    pub stamps: Stamps,
    /// None before the first statement.
    pub side: Option<Side>,
}

impl BlockProgress {
    /// Goes on behind a statement on a table, which leaves this last stamp.
    pub(crate) fn go_on(&mut self, schema: &Schema, table: u32, last: u64)
        requires { table < length schema.now.tables }
        ensures { self.new ≡ progress_after schema.now table last self.old }
    {
        self.stamps.last = last;
        self.side = Some(side_of(schema, table));
    }
}
