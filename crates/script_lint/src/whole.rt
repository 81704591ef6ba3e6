//! A whole script, looked at to its end.
ghost use Rattle.std.specs.Prelude.{◌≡◌, map, IfOk};
ghost use Rattle.script_steps.specs.Lines.{lines_of};
ghost use Rattle.script_lint.specs.Checking.{checked_from, script_checked};
ghost use Rattle.script_lint.specs.Adding.{answer_of};

use crate::linter::Linter;
use crate::{AdviceFound, Findings};
use lint_words::Trail;
use rep_lists::{Copies, NoMemory};
use rep_schema::Schema;
use std::alloc::Global;
use std::mem;

impl Linter {
    /// What is left at the end of the script: what may be meant otherwise, and what is declared.
    fn left(&self, alloc: Global) -> Result<(Vec<AdviceFound>, Schema), NoMemory> {
        let advice = self.advice(alloc)?;
        let schema = self.steps.schema().copy(alloc)?;
        Ok((advice, schema))
    }

    /// Takes all that is found out of the linter, with what is left.
    fn take_findings(&mut self, alloc: Global, advice: Vec<AdviceFound>, schema: Schema) -> Findings
        ensures errors { map answer_of result.errors.items ≡ self.old.answers }
        ensures parts { result.parts.items ≡ self.old.parts }
    {
        let errors = mem::replace(&mut self.errors, Vec::new(alloc));
        let parts = mem::replace(&mut self.parts, Vec::new(alloc));
        let trail = mem::replace(&mut self.trail, Trail::new(alloc));
        Findings::make(errors, parts, advice, trail, schema)
    }

    /// All that is found, at the end of the script.
    fn finish(&mut self, alloc: Global) -> Result<Findings, NoMemory>
        ensures errors { IfOk result (λ found. map answer_of found.errors.items ≡ self.old.answers) }
        ensures parts { IfOk result (λ found. found.parts.items ≡ self.old.parts) }
    {
        let (advice, schema) = self.left(alloc)?;
        Ok(self.take_findings(alloc, advice, schema))
    }

    /// Looks at all lines of a script, and answers all that is found.
    fn findings(&mut self, alloc: Global, script: &[u8]) -> Result<Findings, NoMemory>
        ensures errors { IfOk result (λ found. map answer_of found.errors.items ≡ (checked_from 1 (lines_of script.now) self.old).answers) }
        ensures parts { IfOk result (λ found. found.parts.items ≡ (checked_from 1 (lines_of script.now) self.old).parts) }
    {
        self.take_script(alloc, script)?;
        self.finish(alloc)
    }
}

/// Looks at each line of a script, at one that is malformed or refused too, and at what is left at its end.
///
/// The errors are what the engine says of the script's lines, in their order: a line that is malformed by the rule that the parser
/// tells, and one that is refused as the world behind the lines before it refuses it, where malformed ones are passed over.
pub fn lint(alloc: Global, script: &[u8]) -> Result<Findings, NoMemory>
    ensures errors { IfOk result (λ found. map answer_of found.errors.items ≡ (script_checked script.now).answers) }
    ensures parts { IfOk result (λ found. found.parts.items ≡ (script_checked script.now).parts) }
{
    let mut linter = Linter::make(alloc)?;
    linter.findings(alloc, script)
}
