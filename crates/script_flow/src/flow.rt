//! Where a script stands, as far as its lines were done.

use crate::Cause;
use rep_declare::table_shaped;
use rep_lists::NoMemory;
use rep_values::TableName;
use script_parse::{Command, ProcLine};
use std::alloc::Global;

/// A block that is open, by its line.
#[derive(Clone, Copy, Debug, PartialEq, Eq)]
enum Block {
    Statements(u32),
    Calls(u32),
}

/// Where a script stands: its phase, its open block, and from which line on each table has rows.
#[derive(Drop)]
pub struct Flow {
    resumed: Option<u32>,
    suspended: Option<u32>,
    block: Option<Block>,
    rows: Vec<(TableName, u32)>,
    /// The last line that was to open a block, where it was refused or malformed.
    unopened: Option<u32>,
    /// The last line that was to end the declarations, where it was refused or malformed.
    unresumed: Option<u32>,
}

/// When a command may stand.
enum Place {
    Anywhere,
    Setup,
    Resume,
    Statements,
    Calls,
    Behind,
}

/// When a line about procedures may stand.
fn place_of_proc(line: &ProcLine) -> Place {
    match line {
        ProcLine::Table { .. } | ProcLine::Procedure { .. } => Place::Setup,
        ProcLine::Call(_) | ProcLine::Send { .. } => Place::Calls,
        ProcLine::Calls { .. }
        | ProcLine::Push { .. }
        | ProcLine::Fates { .. }
        | ProcLine::Execute { .. } => Place::Behind,
    }
}

/// When a command may stand.
fn place_of(command: &Command) -> Place {
    match command {
        Command::Nothing => Place::Anywhere,
        Command::Declare(_) | Command::Snapshot { .. } | Command::Row { .. } => Place::Setup,
        Command::Resume => Place::Resume,
        Command::Statement(_) | Command::Commit | Command::Abandon => Place::Statements,
        Command::Txn { .. }
        | Command::Push { .. }
        | Command::Fates { .. }
        | Command::ClearFates { .. }
        | Command::Link { .. }
        | Command::Clock { .. }
        | Command::Purge { .. }
        | Command::Execute { .. }
        | Command::DropError { .. }
        | Command::Refresh { .. }
        | Command::PurgeLog { .. }
        | Command::Suspend
        | Command::Join { .. }
        | Command::Show { .. } => Place::Behind,
        Command::Procedures(line) => place_of_proc(line),
    }
}

/// The table whose shape a command would change.
fn shaped(command: &Command) -> Option<TableName> {
    if let Command::Declare(declaration) = command {
        return table_shaped(declaration);
    }
    None
}

impl Flow {
    /// The beginning of a script.
    pub fn new(alloc: Global) -> Flow {
        Flow {
            resumed: None,
            suspended: None,
            block: None,
            rows: Vec::new(alloc),
            unopened: None,
            unresumed: None,
        }
    }

    /// The line of the open block, if one is open.
    pub fn open_block(&self) -> Option<u32> {
        match self.block {
            Some(Block::Statements(line)) | Some(Block::Calls(line)) => Some(line),
            None => None,
        }
    }

    /// Whether the declarations have ended.
    pub fn is_resumed(&self) -> bool {
        self.resumed.is_some()
    }

    /// The line from which on a table has rows.
    fn first_row(&self, table: &TableName) -> Option<u32> {
        for (name, line) in self.rows.as_slice() {
            if name.is_same(table) {
                return Some(*line);
            }
        }
        None
    }

    /// What the open block hinders.
    fn block_cause(&self) -> Option<Cause> {
        match self.block {
            Some(Block::Statements(line)) => Some(Cause::Block(line)),
            Some(Block::Calls(line)) => Some(Cause::CallBlock(line)),
            None => None,
        }
    }

    /// What hinders a declaration, a base row, or what stands with them.
    fn setup_cause(&self, command: &Command) -> Option<Cause> {
        if let Some(line) = self.resumed {
            return Some(Cause::Declared(line));
        }
        let table = shaped(command)?;
        let line = self.first_row(&table)?;
        Some(Cause::Rows { table, line })
    }

    /// What hinders what stands behind the declarations and outside of blocks.
    fn behind_cause(&self, command: &Command) -> Option<Cause> {
        if self.resumed.is_none() {
            return Some(Cause::Declaring);
        }
        if let Some(cause) = self.block_cause() {
            return Some(cause);
        }
        if let Command::Join { .. } = command {
            return Some(Cause::Running);
        }
        let line = self.suspended?;
        Some(Cause::Suspended(line))
    }

    /// What hinders a command that is refused with `WrongPhase`, if that is known.
    pub fn cause(&self, command: &Command) -> Option<Cause> {
        match place_of(command) {
            Place::Anywhere => None,
            Place::Setup => self.setup_cause(command),
            Place::Resume => Some(self.block_cause().unwrap_or(Cause::Running)),
            Place::Statements => Some(self.block_cause().unwrap_or(Cause::NoBlock)),
            Place::Calls => Some(self.block_cause().unwrap_or(Cause::NoCallBlock)),
            Place::Behind => self.behind_cause(command),
        }
    }

    /// The line that was refused or malformed and has this cause as its consequence, if there is one.
    pub fn first_cause(&self, cause: Cause) -> Option<u32> {
        match cause {
            Cause::NoBlock | Cause::NoCallBlock => self.unopened,
            Cause::Declaring => self.unresumed,
            Cause::Block(_)
            | Cause::CallBlock(_)
            | Cause::Declared(_)
            | Cause::Rows { .. }
            | Cause::Suspended(_)
            | Cause::Running => None,
        }
    }

    /// A line that was to open a block doesn't.
    pub fn fail_block(&mut self, line: u32) {
        self.unopened = Some(line);
    }

    /// A line that was to end the declarations doesn't.
    pub fn fail_resume(&mut self, line: u32) {
        self.unresumed = Some(line);
    }

    /// A command was done.
    pub fn done(&mut self, line: u32, command: &Command) -> Result<(), NoMemory> {
        if let Command::Row { table, .. } = command {
            if self.first_row(table).is_none() {
                self.rows.push((*table, line))?;
            }
        }
        if let Command::Resume = command {
            self.resumed = Some(self.resumed.unwrap_or(line));
            self.suspended = None;
        }
        if let Command::Suspend = command {
            self.suspended = Some(line);
        }
        self.follow_block(line, command);
        Ok(())
    }

    /// What a command that was done makes of the block.
    fn follow_block(&mut self, line: u32, command: &Command) {
        if let Command::Txn { .. } = command {
            self.open(Block::Statements(line));
        }
        if let Command::Procedures(ProcLine::Calls { .. }) = command {
            self.open(Block::Calls(line));
        }
        if let Command::Commit
        | Command::Abandon
        | Command::Procedures(ProcLine::Send { .. }) = command
        {
            self.block = None;
        }
    }

    fn open(&mut self, block: Block) {
        self.block = Some(block);
        self.unopened = None;
    }

    /// A command was refused: a commit and a send close their block all the same.
    pub fn refused(&mut self, line: u32, command: &Command) {
        if let Command::Commit | Command::Procedures(ProcLine::Send { .. }) = command {
            self.block = None;
        }
        if let Command::Txn { .. } | Command::Procedures(ProcLine::Calls { .. }) = command {
            self.fail_block(line);
        }
        if let Command::Resume = command {
            self.fail_resume(line);
        }
    }
}
