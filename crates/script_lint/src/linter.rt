//! A script that is looked at line by line.
ghost use Rattle.std.specs.Prelude.{◌≡◌, Some, IfOk, OnOk};
ghost use Rattle.script_steps.specs.Lines.{lines_of};
ghost use Rattle.script_steps.specs.Saying.{malformed_at, refused_so};
ghost use Rattle.script_lint.specs.Checking.{is_for_rule, parts_beside, with_said, checked, checked_from, nothing_checked};
ghost use Rattle.script_steps.specs.Coming.{said_of};
ghost use Rattle.script_lint.specs.Adding.{with_answer, with_parts};

use crate::{ErrorFound, Why};
use line_advice::Mistake;
use lint_words::{Note, Trail};
use rep_lists::NoMemory;
use rep_values::Refusal;
use schema_advice::{BrokenPart, broken_parts};
use script_parse::Command;
use script_steps::{Answer, Came, Steps, Verdict, split_line};
use std::alloc::Global;
use std::marker::Model;
use world_state::Refused;

/// The greatest number of lines of a script.
const MOST_LINES: u32 = 200_000;

/// The rule that a script has so many lines at most.
const LINES_RULE: u8 = 2;

/// Whether a line is refused for a rule of schemas.
fn is_for_rule(refusal: &Refusal) -> bool
    ensures { result ≡ is_for_rule refusal.now }
{
    if let Refusal::SchemaRule(_) = refusal {
        return true;
    }
    false
}

/// The lines of a script so far, and what was found in them.
#[derive(Drop)]
pub(crate) struct Linter {
    pub(crate) steps: Steps,
    pub(crate) trail: Trail,
    pub(crate) errors: Vec<ErrorFound>,
    pub(crate) parts: Vec<BrokenPart>,
}

impl Model for Linter {
    ghost use Rattle.std.specs.Prelude.{map};
    ghost use Rattle.script_lint.specs.Checking.{Checked};
    ghost use Rattle.script_lint.specs.Adding.{answer_of};

    ghost Value = { Checked };

    ghost view = { λ l. record { world = l.steps; answers = map answer_of l.errors.items; parts = l.parts.items } };
}

impl Linter {
    /// No line yet.
    pub(crate) fn make(alloc: Global) -> Result<Linter, NoMemory>
        ensures { IfOk result (λ linter. linter ≡ nothing_checked) }
    {
        Ok(Linter {
            steps: Steps::make(alloc)?,
            trail: Trail::new(alloc),
            errors: Vec::new(alloc),
            parts: Vec::new(alloc),
        })
    }

    /// Keeps an error.
    fn add_error(&mut self, error: ErrorFound) -> Result<(), NoMemory>
        ensures { OnOk result (self.new ≡ with_answer error.answer self.old) }
    {
        self.errors.push(error)?;
        Ok(())
    }

    /// Keeps the parts of the schema that break a rule, where a line was refused for one.
    fn add_parts(&mut self, alloc: Global, refusal: &Refusal) -> Result<(), NoMemory>
        ensures { OnOk result (self.new ≡ with_parts (parts_beside refusal.now self.old.world.schema) self.old) }
    {
        if is_for_rule(refusal) {
            let parts = broken_parts(alloc, self.steps.schema())?;
            self.parts.extend_from_slice(&parts)?;
        }
        Ok(())
    }

    /// Keeps what is wrong with a malformed line.
    #[tactic(auto, using(crate::proofs::Lines::added_facts))]
    fn malformed(&mut self, number: u32, line: &[u8], mistake: &Mistake) -> Result<(), NoMemory>
        ensures { OnOk result (self.new ≡ with_said (Some (malformed_at number mistake.now.rule)) self.old) }
    {
        self.trail.malformed(number, line)?;
        self.add_error(ErrorFound {
            answer: Answer {
                line: number,
                verdict: Verdict::Malformed(mistake.rule),
            },
            column: Some(mistake.column),
            why: Why::Malformed(mistake.hint),
            cause: None,
        })
    }

    /// Keeps what is told of a refused command.
    fn add_note(&mut self, refused: &Refused, note: Note) -> Result<(), NoMemory>
        ensures { OnOk result (self.new ≡ with_answer (record { line = refused.now.line; verdict = Verdict.Refused refused.now.refusal }) self.old) }
    {
        self.add_error(ErrorFound {
            answer: Answer {
                line: refused.line,
                verdict: Verdict::Refused(refused.refusal),
            },
            column: note.column,
            why: note.why,
            cause: note.cause,
        })
    }

    /// What is told of a refused command.
    fn note(
        &mut self,
        number: u32,
        line: &[u8],
        command: Command,
        refused: &Refused,
    ) -> Result<Note, NoMemory>
        ensures { self.new ≡ self.old }
    {
        self.trail.refused(
            number,
            line,
            self.steps.schema(),
            command,
            refused.line,
            &refused.refusal,
        )
    }

    /// Keeps why a command was refused.
    #[tactic(auto, using(crate::proofs::Lines::added_facts))]
    fn refused(
        &mut self,
        alloc: Global,
        number: u32,
        line: &[u8],
        command: Command,
        refused: &Refused,
    ) -> Result<(), NoMemory>
        ensures { OnOk result (self.new ≡ with_said (refused_so (Some refused.now)) self.old) }
    {
        let note = self.note(number, line, command, refused)?;
        self.add_note(refused, note)?;
        self.add_parts(alloc, &refused.refusal)
    }

    /// Keeps what came of the line of a number.
    fn add(&mut self, alloc: Global, number: u32, line: &[u8], came: Came) -> Result<(), NoMemory>
        ensures { OnOk result (self.new ≡ with_said (said_of number came) self.old) }
    {
        match came {
            Came::Done(command, _) => self.trail.done(number, command),
            Came::Malformed(mistake) => self.malformed(number, line, &mistake),
            Came::Refused(command, refused) => {
                self.refused(alloc, number, line, command, &refused)
            }
        }
    }

    /// Looks at the line of a number.
    fn take_line(&mut self, alloc: Global, number: u32, line: &[u8]) -> Result<(), NoMemory>
        ensures { OnOk result (self.new ≡ checked number line.now self.old) }
    {
        let came = self.steps.take(alloc, number, line)?;
        self.add(alloc, number, line, came)
    }

    /// Keeps that a line is one too many.
    #[tactic(auto, using(crate::proofs::Lines::added_facts))]
    fn too_many(&mut self, number: u32) -> Result<(), NoMemory>
        ensures { OnOk result (self.new ≡ with_said (Some (malformed_at number 2)) self.old) }
    {
        self.trail.too_many(number)?;
        self.add_error(ErrorFound {
            answer: Answer {
                line: number,
                verdict: Verdict::Malformed(LINES_RULE),
            },
            column: None,
            why: Why::TooManyLines,
            cause: None,
        })
    }

    /// Looks at all lines of a script.
    #[tactic(auto, using(crate::proofs::Lines::left_facts))]
    pub(crate) fn take_script(&mut self, alloc: Global, script: &[u8]) -> Result<(), NoMemory>
        ensures { OnOk result (self.new ≡ checked_from 1 (lines_of script.now) self.old) }
    {
        let mut left = script;
        let mut number = 1u32;
        while !left.is_empty() {
            let (line, behind) = split_line(left);
            if number > MOST_LINES {
                return self.too_many(number);
            }
            self.take_line(alloc, number, line)?;
            number += 1;
            left = behind;
        }
        Ok(())
    }
}
