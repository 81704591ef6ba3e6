//! What errors are told by: where the script stands, what it declares, and the errors so far.

use crate::Why;
use crate::tally::{Further, Tally};
use rep_lists::NoMemory;
use rep_schema::Schema;
use rep_values::{Refusal, SiteName};
use script_flow::{Cause, Flow, Named, Spots, column_of, first_word, unknown};
use script_parse::{Command, ProcLine};
use std::alloc::Global;

/// A statement or a call of the open block.
#[derive(Drop)]
struct Pending {
    line: u32,
    command: Command,
}

/// A push that was done.
#[derive(Clone, Copy)]
struct Push {
    from: SiteName,
    to: SiteName,
}

/// What is told of a refused command.
#[derive(Drop)]
pub struct Note {
    /// From 1; None for the line as a whole.
    pub column: Option<usize>,
    pub why: Why,
    /// The place of the error of which it is a consequence, if it is one.
    pub cause: Option<usize>,
}

/// What errors are told by.
#[derive(Drop)]
pub struct Trail {
    flow: Flow,
    spots: Spots,
    block: Vec<Pending>,
    tally: Tally,
    pushes: Vec<Push>,
    shows: bool,
}

/// Whether a command closes the open block, where it is done and where it is refused.
fn closes_block(command: &Command) -> bool {
    if let Command::Commit | Command::Procedures(ProcLine::Send { .. }) = command {
        return true;
    }
    false
}

/// Whether a line about procedures is a call of a block.
fn is_call(line: &ProcLine) -> bool {
    if let ProcLine::Call(_) = line {
        return true;
    }
    false
}

/// Whether a command is a statement or a call of a block.
fn is_of_block(command: &Command) -> bool {
    if let Command::Procedures(line) = command {
        return is_call(line);
    }
    if let Command::Statement(_) = command {
        return true;
    }
    false
}

impl Push {
    /// Whether it is one from the first of these sites to the second.
    fn is_between(&self, from: &SiteName, to: &SiteName) -> bool {
        self.from.is_same(from) && self.to.is_same(to)
    }
}

impl Note {
    /// A consequence of the error at a place, or an error of its own.
    fn of(why: Why, cause: Option<usize>) -> Note {
        Note {
            column: None,
            why,
            cause,
        }
    }

    /// An error of its own: the command is refused.
    fn refused(command: Command, refusal: &Refusal) -> Note {
        let refusal = *refusal;
        Note::of(Why::Refused { command, refusal }, None)
    }
}

impl Trail {
    /// Nothing was read.
    pub fn new(alloc: Global) -> Trail {
        Trail {
            flow: Flow::new(alloc),
            spots: Spots::new(alloc),
            block: Vec::new(alloc),
            tally: Tally::new(alloc),
            pushes: Vec::new(alloc),
            shows: false,
        }
    }

    /// Where the script stands.
    pub(crate) fn flow(&self) -> &Flow {
        &self.flow
    }

    /// The lines of declarations.
    pub(crate) fn spots(&self) -> &Spots {
        &self.spots
    }

    /// Whether something was shown.
    pub(crate) fn shows(&self) -> bool {
        self.shows
    }

    /// Whether a push from one site to the other was done.
    pub(crate) fn is_pushed(&self, from: &SiteName, to: &SiteName) -> bool {
        self.pushes.iter().any(|push| push.is_between(from, to))
    }

    /// Whether the declarations have ended.
    pub fn is_resumed(&self) -> bool {
        self.flow.is_resumed()
    }

    /// How many further lines have the same cause as the error at a place.
    pub fn further(&self, place: usize) -> Further {
        self.tally.further(place)
    }

    /// Follows a malformed line.
    pub fn malformed(&mut self, number: u32, line: &[u8]) -> Result<(), NoMemory> {
        self.follow_malformed(number, line)?;
        self.tally.count_own(number)
    }

    /// What a malformed line was to do isn't done.
    fn follow_malformed(&mut self, number: u32, line: &[u8]) -> Result<(), NoMemory> {
        match first_word(line) {
            Some(b"txn") | Some(b"calls") => {
                self.flow.fail_block(number);
                Ok(())
            }
            Some(b"resume") => {
                self.flow.fail_resume(number);
                Ok(())
            }
            Some(_) | None => self.spots.keep_malformed(number, line),
        }
    }

    /// Follows a line that is one too many.
    pub fn too_many(&mut self, number: u32) -> Result<(), NoMemory> {
        self.tally.count_own(number)
    }

    /// Follows a command that was done.
    pub fn done(&mut self, number: u32, command: Command) -> Result<(), NoMemory> {
        self.follow_done(number, &command)?;
        self.keep_pending(number, command)
    }

    /// What a command that was done makes of the flow, of the declarations and of the block.
    fn follow_done(&mut self, number: u32, command: &Command) -> Result<(), NoMemory> {
        self.flow.done(number, command)?;
        self.spots.keep_done(number, command)?;
        self.keep_use(command)?;
        if closes_block(command) || self.flow.open_block().is_none() {
            self.block.clear();
        }
        Ok(())
    }

    /// Keeps that a push between two sites was done.
    fn keep_push(&mut self, from: &SiteName, to: &SiteName) -> Result<(), NoMemory> {
        self.pushes.push(Push {
            from: *from,
            to: *to,
        })?;
        Ok(())
    }

    /// Keeps that a push or something to show was done.
    fn keep_use(&mut self, command: &Command) -> Result<(), NoMemory> {
        if let Command::Push { from, to, .. } = command {
            return self.keep_push(from, to);
        }
        if let Command::Show { .. } = command {
            self.shows = true;
        }
        Ok(())
    }

    /// Keeps a statement or a call, since the line that closes the block may be refused for it.
    fn keep_pending(&mut self, line: u32, command: Command) -> Result<(), NoMemory> {
        if is_of_block(&command) {
            self.block.push(Pending { line, command })?;
        }
        Ok(())
    }

    /// Takes the statement or the call of a line out of the block.
    fn take_pending(&mut self, line: u32) -> Option<Command> {
        let place = self.block.iter().position(|pending| pending.line == line)?;
        let Pending { command, .. } = self.block.swap_remove(place);
        Some(command)
    }

    /// The statement or the call for which a line that closes the block is refused, if it is for one. The block is let go.
    fn blamed_of_block(&mut self, line: u32) -> Option<Command> {
        let blamed = self.take_pending(line);
        self.block.clear();
        blamed
    }

    /// The command that a refusal is about: the statement or the call of the block that was refused, or the line's own.
    fn blamed(&mut self, line: u32, command: Command) -> Command {
        if !closes_block(&command) {
            return command;
        }
        self.blamed_of_block(line).unwrap_or(command)
    }

    /// The place of the error that a cause goes back to: the line that brought it about, or the first that it hindered.
    fn first_of(&self, cause: &Cause) -> Option<usize> {
        let failed = match self.flow.first_cause(*cause) {
            Some(line) => self.tally.error_at(line),
            None => None,
        };
        failed.or(self.tally.told_cause(cause))
    }

    /// What is told of a command that a cause hinders.
    fn hindered(&mut self, cause: &Cause) -> Result<Note, NoMemory> {
        let first = self.first_of(cause);
        if first.is_none() {
            self.tally.tell_cause(cause)?;
        }
        Ok(Note::of(Why::NotNow(*cause), first))
    }

    /// What is told of a command that isn't for now.
    fn not_now(&mut self, cause: &Option<Cause>, command: Command) -> Result<Note, NoMemory> {
        match cause {
            Some(cause) => self.hindered(cause),
            None => Ok(Note::refused(command, &Refusal::WrongPhase)),
        }
    }

    /// The place of the error that kept a name from being declared, if there is one.
    fn undeclared(&self, named: &Named) -> Option<usize> {
        match self.spots.failed_line_of(named.of, &named.name) {
            Some(line) => self.tally.error_at(line),
            None => None,
        }
    }

    /// What is told of a name of a line that stands for nothing.
    fn unknown_name(&self, line: &[u8], named: &Named) -> Note {
        Note {
            column: column_of(line, &named.name),
            why: Why::Unknown(*named),
            cause: self.undeclared(named),
        }
    }

    /// What is told of a command with a name that stands for nothing.
    fn unknown(&self, schema: &Schema, line: &[u8], command: Command) -> Note {
        match unknown(schema, &command) {
            Some(named) => self.unknown_name(line, &named),
            None => Note::refused(command, &Refusal::UnknownName),
        }
    }

    /// What is told of a refused command, which a cause may hinder.
    fn told(
        &mut self,
        schema: &Schema,
        line: &[u8],
        command: Command,
        cause: &Option<Cause>,
        refusal: &Refusal,
    ) -> Result<Note, NoMemory> {
        match refusal {
            Refusal::WrongPhase => self.not_now(cause, command),
            Refusal::UnknownName => Ok(self.unknown(schema, line, command)),
            refusal => Ok(Note::refused(command, refusal)),
        }
    }

    /// Counts an error that was found at a line, which may be a consequence of the one at a place.
    fn count(&mut self, line: u32, cause: Option<usize>) -> Result<(), NoMemory> {
        match cause {
            Some(place) => self.tally.count_further(line, place),
            None => self.tally.count_own(line),
        }
    }

    /// Follows a command that was refused.
    fn follow_refused(&mut self, number: u32, command: &Command) -> Result<(), NoMemory> {
        self.flow.refused(number, command);
        self.spots.keep_refused(number, command)
    }

    /// Follows the command of the line of a number that was refused, for what stands at the line that is told, and tells of it.
    pub fn refused(
        &mut self,
        number: u32,
        line: &[u8],
        schema: &Schema,
        command: Command,
        told: u32,
        refusal: &Refusal,
    ) -> Result<Note, NoMemory> {
        let cause = self.flow.cause(&command);
        self.follow_refused(number, &command)?;
        let command = self.blamed(told, command);
        let note = self.told(schema, line, command, &cause, refusal)?;
        self.count(number, note.cause)?;
        Ok(note)
    }
}
