//! Why a command isn't for now.

use rep_values::TableName;
use std::fmt;

/// Why a command is refused with `WrongPhase`. A number is that of a line.
#[derive(Clone, Copy, PartialEq, Eq)]
pub enum Cause {
    /// A block of statements is open from this line on.
    Block(u32),
    /// A block of calls is open from this line on.
    CallBlock(u32),
    /// No block of statements is open.
    NoBlock,
    /// No block of calls is open.
    NoCallBlock,
    /// The declarations haven't ended.
    Declaring,
    /// They ended at this line.
    Declared(u32),
    /// The table has a row from this line on.
    Rows { table: TableName, line: u32 },
    /// All is suspended already, from this line on.
    Suspended(u32),
    /// Nothing is suspended.
    Running,
}

/// What hinders the command, and what to do, without a full stop.
impl fmt::Display for Cause {
    fn fmt<W: fmt::Write>(&self, f: &mut fmt::Formatter<W>) -> fmt::Result {
        match self {
            Cause::Block(line) => write!(
                f,
                "the block of line {line} is open: say `commit` or `abandon` first"
            ),
            Cause::CallBlock(line) => write!(
                f,
                "the block of calls of line {line} is open: say `send` first"
            ),
            Cause::NoBlock => f.write_str("no block is open: say `txn S` first"),
            Cause::NoCallBlock => f.write_str("no block of calls is open: say `calls S` first"),
            Cause::Declaring => {
                f.write_str("the declarations haven't ended: say `resume` first")
            }
            Cause::Declared(line) => write!(
                f,
                "`resume` of line {line} has ended the declarations: put this line above it"
            ),
            Cause::Rows { table, line } => write!(
                f,
                "{} has a row from line {line} on, and isn't shaped any more: put this line above that",
                table.0
            ),
            Cause::Suspended(line) => {
                write!(
                    f,
                    "all is suspended from line {line} on: say `resume` first"
                )
            }
            Cause::Running => f.write_str("nothing is suspended: say `suspend` first"),
        }
    }
}
