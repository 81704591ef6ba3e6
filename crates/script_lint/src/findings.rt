//! All that is found in a script.
ghost use Rattle.std.specs.Prelude.{◌≡◌, length, nat_lt};

use crate::{AdviceFound, ErrorFound};
use lint_words::{AdviceLine, ErrorLine, PartLine, Trail};
use rep_schema::Schema;
use schema_advice::BrokenPart;
use std::fmt;

/// All that is found in a script. Its `Display` has a line for each finding, `LINE:COLUMN level sentence`, with `-` for the script as a
/// whole and no column for a line as a whole.
#[derive(Drop)]
pub struct Findings {
    /// The lines that the engine doesn't do, in the order in which it says so.
    pub errors: Vec<ErrorFound>,
    /// The tables and groups of the schema that break a rule, each time that a line was refused for one.
    pub parts: Vec<BrokenPart>,
    pub advice: Vec<AdviceFound>,
    trail: Trail,
    schema: Schema,
}

impl Findings {
    /// All that is found, and what it is told by: the lines of declarations and of errors, and what is declared.
    pub(crate) fn make(
        errors: Vec<ErrorFound>,
        parts: Vec<BrokenPart>,
        advice: Vec<AdviceFound>,
        trail: Trail,
        schema: Schema,
    ) -> Findings
        ensures errors { result.errors ≡ errors }
        ensures parts { result.parts ≡ parts }
    {
        Findings {
            errors,
            parts,
            advice,
            trail,
            schema,
        }
    }

    /// Whether there is an error: a line that the engine doesn't do.
    pub fn has_error(&self) -> bool
        ensures { result ≡ nat_lt 0 (length self.now.errors.items) }
    {
        !self.errors.is_empty()
    }

    /// The error at a place, where it is no consequence.
    fn put_error<W: fmt::Write>(
        &self,
        f: &mut fmt::Formatter<W>,
        place: usize,
        error: &ErrorFound,
    ) -> fmt::Result {
        if error.cause.is_some() {
            return Ok(());
        }
        let line = ErrorLine {
            line: error.answer.line,
            column: error.column,
            why: &error.why,
            further: self.trail.further(place),
        };
        writeln!(f, "{line}")
    }

    /// The errors that are no consequences.
    fn put_errors<W: fmt::Write>(&self, f: &mut fmt::Formatter<W>) -> fmt::Result {
        for (place, error) in self.errors.iter().enumerate() {
            self.put_error(f, place, error)?;
        }
        Ok(())
    }

    /// A table or a group that breaks a rule.
    fn put_part<W: fmt::Write>(&self, f: &mut fmt::Formatter<W>, part: &BrokenPart) -> fmt::Result {
        let line = self.trail.line_of(part);
        writeln!(f, "{}", PartLine { line, part })
    }

    /// The tables and groups that break rules.
    fn put_parts<W: fmt::Write>(&self, f: &mut fmt::Formatter<W>) -> fmt::Result {
        for part in self.parts.as_slice() {
            self.put_part(f, part)?;
        }
        Ok(())
    }

    /// What may be meant otherwise.
    fn put_advice<W: fmt::Write>(&self, f: &mut fmt::Formatter<W>) -> fmt::Result {
        let schema = &self.schema;
        for found in self.advice.as_slice() {
            writeln!(f, "{}", AdviceLine { found, schema })?;
        }
        Ok(())
    }
}

impl fmt::Display for Findings {
    fn fmt<W: fmt::Write>(&self, f: &mut fmt::Formatter<W>) -> fmt::Result {
        self.put_errors(f)?;
        self.put_parts(f)?;
        self.put_advice(f)
    }
}
