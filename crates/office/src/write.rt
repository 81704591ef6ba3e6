//! Blocks of statements.
ghost use Rattle.std.specs.Prelude.{◌≡◌, ◌++◌, true, false, Ok, IfOk, IfErr, OnOk, OnErr, option_to_list};
ghost use Rattle.script_parse.specs.Parsed.{parsed};
ghost use Rattle.site_state.specs.Commits.{site_commit, commit_answer};
ghost use Rattle.office.specs.Blocks.{is_of_block, statement_in, statements_in, IsOfBlock, AreOfBlock};
ghost use Rattle.office.specs.Lines.{lines_of};
ghost use Rattle.office.specs.Stops.{BlockLineStops, BlockTextStops, WriteStops, WriteTextStops};

use crate::desk::Office;
use crate::error::{OfficeError, statement_refused};
use crate::founding::stop_at_line;
use crate::lines::split_line;
use rep_calls::Statement;
use script_parse::{Command, parse_line};
use std::alloc::Global;

/// The statement that a command is, None where a line is passed over.
fn statement_in(number: u64, command: Command) -> Result<Option<Statement>, OfficeError>
    ensures ok { IfOk result (λ statement. statement ≡ statement_in (Ok command)) }
    ensures taken { OnOk result (is_of_block command ≡ true) }
    ensures err { IfErr result (λ why. (why ≡ OfficeError.NotTaken number) × (is_of_block command ≡ false)) }
{
    match command {
        Command::Nothing => Ok(None),
        Command::Statement(statement) => Ok(Some(statement)),
        Command::Declare(_)
        | Command::Snapshot { .. }
        | Command::Row { .. }
        | Command::Resume
        | Command::Txn { .. }
        | Command::Commit
        | Command::Abandon
        | Command::Push { .. }
        | Command::Fates { .. }
        | Command::ClearFates { .. }
        | Command::Link { .. }
        | Command::Clock { .. }
        | Command::Purge { .. }
        | Command::Execute { .. }
        | Command::DropError { .. }
        | Command::Refresh { .. }
        | Command::PurgeLog { .. }
        | Command::Suspend
        | Command::Join { .. }
        | Command::Show { .. }
        | Command::Procedures(_) => Err(OfficeError::NotTaken { line: number }),
    }
}

/// The statement that a line is, None where it is passed over.
fn statement_of(alloc: Global, number: u64, line: &[u8]) -> Result<Option<Statement>, OfficeError>
    ensures ok { IfOk result (λ statement. statement ≡ statement_in (parsed line.now)) }
    ensures taken { OnOk result (IsOfBlock (parsed line.now)) }
    ensures err { IfErr result (λ why. BlockLineStops why number line.now) }
{
    match parse_line(alloc, line) {
        Ok(command) => statement_in(number, command),
        Err(stop) => Err(stop_at_line(number, stop)),
    }
}

/// Puts a statement, where there is one, behind others.
fn push_statement(
    statements: &mut Vec<Statement>,
    statement: Option<Statement>,
) -> Result<(), OfficeError>
    ensures ok { OnOk result (statements.new.items ≡ statements.old.items ++ option_to_list statement) }
    ensures err { IfErr result (λ why. why ≡ OfficeError.Memory) }
{
    if let Some(statement) = statement {
        statements.push(statement)?;
    }
    Ok(())
}

/// The statements that the lines of a text are, or the first line that is none, and why.
fn block_of(alloc: Global, text: &[u8]) -> Result<Vec<Statement>, OfficeError>
    ensures ok { IfOk result (λ statements. statements.items ≡ statements_in (lines_of text.now)) }
    ensures taken { OnOk result (AreOfBlock (lines_of text.now)) }
    ensures err { IfErr result (λ why. BlockTextStops why text.now) }
{
    let mut statements = Vec::new(alloc);
    let mut left = text;
    let mut number = 0;
    while !left.is_empty() {
        let (line, rest) = split_line(left);
        number += 1;
        let statement = statement_of(alloc, number, line)?;
        push_statement(&mut statements, statement)?;
        left = rest;
    }
    Ok(statements)
}

impl Office {
    /// Commits a block of statements as one transaction of the office's own, and answers its number, 0 where no row changed and
    /// nothing happened. Where a statement is refused, it is told with its number in the block, from 1.
    pub fn write(&mut self, alloc: Global, statements: &[Statement]) -> Result<u64, OfficeError>
        ensures ok { OnOk result (self.new ≡ site_commit statements.now self.old) }
        ensures number { IfOk result (λ number. commit_answer statements.now self.old ≡ Ok number) }
        ensures err { IfErr result (λ why. WriteStops why statements.now self.old) }
        ensures kept { OnErr result (self.new ≡ self.old) }
    {
        if self.site.moment() == u64::MAX {
            return Err(OfficeError::Exhausted);
        }
        match self.site.commit(alloc, statements) {
            Ok(number) => Ok(number),
            Err(stop) => Err(statement_refused(stop)),
        }
    }

    /// The same with a text, each of whose lines is a statement, empty or a comment.
    pub fn write_text(&mut self, alloc: Global, text: &str) -> Result<u64, OfficeError>
        ensures ok { OnOk result (self.new ≡ site_commit (statements_in (lines_of text.now)) self.old) }
        ensures number { IfOk result (λ number. commit_answer (statements_in (lines_of text.now)) self.old ≡ Ok number) }
        ensures taken { OnOk result (AreOfBlock (lines_of text.now)) }
        ensures err { IfErr result (λ why. WriteTextStops why text.now self.old) }
        ensures kept { OnErr result (self.new ≡ self.old) }
    {
        let statements = block_of(alloc, text.as_bytes())?;
        let number = self.write(alloc, &statements)?;
        Ok(number)
    }
}
