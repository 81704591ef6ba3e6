//! What a line of a script asks for.

use crate::ProcLine;
use net_plan::Fate;
use rep_calls::Statement;
use rep_declare::Declare;
use rep_lists::Items;
use rep_schema::Rel;
use rep_values::{Literal, Name, SiteName, TableName};

/// A line of a script, with the parts of its form in their order.
#[derive(Drop)]
pub enum Command {
    /// A line that is passed over.
    Nothing,
    /// A line that adds to the schema.
    Declare(Declare),
    /// `snapshot NAME NAME [where TEST [and TEST]..]`, or
    /// `subsnapshot NAME NAME parent NAME by NAME+ [where TEST [and TEST]..]`, whose tests are of the rows of the parents' table
    Snapshot {
        site: SiteName,
        table: TableName,
        parent: Option<ParentWords>,
        tests: Option<Items<TestWords>>,
    },
    /// `row NAME VALUE+`
    Row {
        table: TableName,
        values: Items<Literal>,
    },
    /// `resume`
    Resume,
    /// `insert NAME VALUE+`, `update NAME VALUE+ : SET [, SET]..` or `delete NAME VALUE+`
    Statement(Statement),
    /// `txn NAME`
    Txn {
        site: SiteName,
    },
    /// `commit`
    Commit,
    /// `abandon`
    Abandon,
    /// `push NAME NAME [count WHOLE]`
    Push {
        from: SiteName,
        to: SiteName,
        count: Option<u64>,
    },
    /// `fate NAME NAME FATE+`
    Fates {
        from: SiteName,
        to: SiteName,
        fates: Items<Fate>,
    },
    /// `fate NAME NAME clear`
    ClearFates {
        from: SiteName,
        to: SiteName,
    },
    /// `link NAME NAME up|down`
    Link {
        from: SiteName,
        to: SiteName,
        link: Link,
    },
    /// `clock NAME WHOLE`
    Clock {
        site: SiteName,
        time: u64,
    },
    /// `purge NAME`
    Purge {
        site: SiteName,
    },
    /// `execute NAME NAME WHOLE`
    Execute {
        site: SiteName,
        origin: SiteName,
        position: u64,
    },
    /// `drop-error NAME NAME WHOLE`
    DropError {
        site: SiteName,
        origin: SiteName,
        position: u64,
    },
    /// `refresh NAME fast|complete|force`
    Refresh {
        site: SiteName,
        how: Refresh,
    },
    /// `purge-log NAME NAME`
    PurgeLog {
        master: SiteName,
        table: TableName,
    },
    /// `suspend`
    Suspend,
    /// `join NAME NAME`
    Join {
        site: SiteName,
        source: SiteName,
    },
    /// `show tables|queue|errors|marks|journal|log|calls NAME`
    Show {
        what: Shown,
        site: SiteName,
    },
    /// A line about procedures.
    Procedures(ProcLine),
}

/// `parent NAME by NAME+`: the table of a snapshot's parents, and the columns of its own table that hold their keys.
#[derive(Drop)]
pub struct ParentWords {
    pub table: TableName,
    pub columns: Items<Name>,
}

/// `NAME OP VALUE`, a test of a snapshot's rows.
#[derive(Clone, Copy)]
pub struct TestWords {
    pub column: Name,
    pub rel: Rel,
    pub value: Literal,
}

/// Whether packets of a direction can go.
#[derive(Clone, Copy, Debug, PartialEq, Eq)]
pub enum Link {
    Up,
    Down,
}

/// How snapshots are refreshed: by the log, by their queries, or by the log where that is possible.
#[derive(Clone, Copy, Debug, PartialEq, Eq)]
pub enum Refresh {
    Fast,
    Complete,
    Force,
}

/// What of a site is shown.
#[derive(Clone, Copy, Debug, PartialEq, Eq)]
pub enum Shown {
    Tables,
    Queue,
    Errors,
    Marks,
    Journal,
    Log,
    Calls,
}
