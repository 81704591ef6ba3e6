//! What is told behind a refusal.
ghost use Rattle.std.specs.Prelude.{◌≡◌, ◌++◌, IfOk, OnOk};
ghost use Rattle.report_text.specs.Refusals.{refused_text};

use crate::Explainer;
use crate::explainer::Refusing;
use crate::lines::line_at;
use crate::reasons::{
    add_block, add_broken, add_new_cause, add_refusal, add_same_cause, add_unknown,
};
use crate::told::Told;
use desk_words::Stream;
use rep_lists::NoMemory;
use rep_values::Refusal;
use report_text::{Lines, MOST_LINE, refused_line};
use script_flow::Cause;
use script_parse::{Command, ProcLine};
use site_words::{LineText, add_note};
use std::alloc::{AllocError, Global};
use world_state::Refused;

/// Whether a command is to open a block.
fn opens_block(command: &Command) -> bool {
    if let Command::Txn { .. } | Command::Procedures(ProcLine::Calls { .. }) = command {
        return true;
    }
    false
}

/// The line of a refusal.
fn refused_lines(alloc: Global, refused: &Refused) -> Result<Lines, NoMemory>
    ensures { IfOk result (λ lines. lines.bytes ≡ refused_text refused.now.line refused.now.refusal) }
{
    let mut lines = Lines::make(alloc);
    lines.reserve(MOST_LINE)?;
    refused_line(&mut lines, refused.line, &refused.refusal);
    Ok(lines)
}

/// Tells the line of a refusal.
fn tell_line(alloc: Global, refused: &Refused, told: &mut Told) -> Result<(), NoMemory>
    ensures { OnOk result (told.new ≡ told.old ++ refused_text refused.now.line refused.now.refusal) }
{
    let lines = refused_lines(alloc, refused)?;
    told.add_report(alloc, lines.bytes())
}

/// Appends the line of the script that a refusal tells, and, where that isn't the line of this number, that its block isn't done.
fn add_line(
    text: &mut String,
    script: &[u8],
    number: u32,
    refused: &Refused,
) -> Result<(), AllocError> {
    add_note(text, &LineText(line_at(script, refused.line)))?;
    if refused.line == number {
        return Ok(());
    }
    add_block(text, number)
}

impl Explainer {
    /// Tells of a refusal: the line of the script that it tells, and its words.
    pub(crate) fn tell_refused(
        &mut self,
        alloc: Global,
        script: &[u8],
        number: u32,
        command: &Command,
        refused: &Refused,
        told: &mut Told,
    ) -> Result<(), NoMemory>
        ensures world { self.new ≡ self.old }
        ensures told { OnOk result (told.new ≡ told.old ++ refused_text refused.now.line refused.now.refusal) }
    {
        tell_line(alloc, refused, told)?;
        let words = self.refused_words(alloc, script, number, command, refused)?;
        told.add_words(words)
    }

    /// The words of a refusal.
    fn refused_words(
        &mut self,
        alloc: Global,
        script: &[u8],
        number: u32,
        command: &Command,
        refused: &Refused,
    ) -> Result<String, NoMemory>
        ensures { self.new ≡ self.old }
    {
        let mut text = String::new(alloc);
        self.add_words(alloc, &mut text, script, number, command, refused)?;
        Ok(text)
    }

    /// Appends the words of a refusal.
    fn add_words(
        &mut self,
        alloc: Global,
        text: &mut String,
        script: &[u8],
        number: u32,
        command: &Command,
        refused: &Refused,
    ) -> Result<(), NoMemory>
        ensures { self.new ≡ self.old }
    {
        let cause = self.followed(number, command);
        add_line(text, script, number, refused)?;
        self.add_reason(alloc, text, command, refused, &cause)
    }

    /// Follows a refused command, and answers why it isn't for now, if that is known.
    fn followed(&mut self, number: u32, command: &Command) -> Option<Cause>
        ensures { self.new ≡ self.old }
    {
        let cause = self.flow.cause(command);
        if self.flow.open_block().is_none() || !opens_block(command) {
            self.flow.refused(number, command);
        }
        cause
    }

    /// Appends why a command was refused, and what to do.
    fn add_reason(
        &mut self,
        alloc: Global,
        text: &mut String,
        command: &Command,
        refused: &Refused,
        cause: &Option<Cause>,
    ) -> Result<(), NoMemory>
        ensures { self.new ≡ self.old }
    {
        match &refused.refusal {
            Refusal::WrongPhase => Ok(self.add_phase(text, command, refused, cause)?),
            Refusal::UnknownName => Ok(add_unknown(text, self.steps.schema(), command)?),
            Refusal::StillFails(_) => self.add_failing(alloc, text, command, refused),
            Refusal::SchemaRule(rule) => self.add_rule(alloc, text, command, *rule),
            refusal => Ok(add_refusal(text, command, refusal)?),
        }
    }

    /// Appends why a command isn't for now.
    fn add_phase(
        &mut self,
        text: &mut String,
        command: &Command,
        refused: &Refused,
        cause: &Option<Cause>,
    ) -> Result<(), AllocError>
        ensures { self.new ≡ self.old }
    {
        match cause {
            Some(cause) => self.add_cause(text, refused.line, cause),
            None => add_refusal(text, command, &Refusal::WrongPhase),
        }
    }

    /// The line of the refusal that was told last, where it was for the same cause.
    fn same_cause(&self, cause: &Cause, first: Option<u32>) -> Option<u32> {
        let Some(told) = &self.told else {
            return None;
        };
        if told.is_for(cause, first) {
            Some(told.line)
        } else {
            None
        }
    }

    /// Appends why a command isn't for now; where the line before that was refused so has the same cause, that line's number.
    fn add_cause(&mut self, text: &mut String, line: u32, cause: &Cause) -> Result<(), AllocError>
        ensures { self.new ≡ self.old }
    {
        let first = self.flow.first_cause(*cause);
        if let Some(told) = self.same_cause(cause, first) {
            return add_same_cause(text, told);
        }
        self.told = Some(Refusing {
            cause: *cause,
            first,
            line,
        });
        add_new_cause(text, cause, first)
    }

    /// Appends which tables and groups break rules of schemas, where a command was refused for one.
    fn add_rule(
        &self,
        alloc: Global,
        text: &mut String,
        command: &Command,
        rule: u8,
    ) -> Result<(), NoMemory> {
        add_refusal(text, command, &Refusal::SchemaRule(rule))?;
        add_broken(alloc, text, self.steps.schema(), rule)
    }

    /// Appends why an error that was executed stays.
    fn add_failing(
        &self,
        alloc: Global,
        text: &mut String,
        command: &Command,
        refused: &Refused,
    ) -> Result<(), NoMemory> {
        add_refusal(text, command, &refused.refusal)?;
        self.add_executed(alloc, text, command)
    }

    /// Appends the words of the error that a command was to execute.
    fn add_executed(
        &self,
        alloc: Global,
        text: &mut String,
        command: &Command,
    ) -> Result<(), NoMemory> {
        if let Command::Execute {
            site,
            origin,
            position,
        } = command
        {
            return self.add_error(alloc, text, Stream::Rows, site, origin, *position);
        }
        if let Command::Procedures(
            ProcLine::Execute {
                site,
                origin,
                position,
            },
        ) = command
        {
            return self.add_error(alloc, text, Stream::Calls, site, origin, *position);
        }
        Ok(())
    }
}
