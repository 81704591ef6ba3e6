//! Findings as lines, `LINE:COLUMN level sentence`: with `-` for the script as a whole, and no column for a line as a whole.

use crate::{Advice, AdviceFound, Further, Level, Why};
use rep_schema::{Schema, TableEntry};
use schema_advice::{BrokenPart, RemarkText, rule_text};
use std::fmt;

/// The column of a finding behind its line.
fn put_column<W: fmt::Write>(f: &mut fmt::Formatter<W>, column: usize) -> fmt::Result {
    f.write_char(':')?;
    fmt::Display::fmt(&column, f)
}

/// The line and the column of a finding in a line.
fn put_line<W: fmt::Write>(
    f: &mut fmt::Formatter<W>,
    line: u32,
    column: Option<usize>,
) -> fmt::Result {
    fmt::Display::fmt(&line, f)?;
    match column {
        Some(column) => put_column(f, column),
        None => Ok(()),
    }
}

/// The line and the column of a finding.
fn put_spot<W: fmt::Write>(
    f: &mut fmt::Formatter<W>,
    line: Option<u32>,
    column: Option<usize>,
) -> fmt::Result {
    match line {
        Some(line) => put_line(f, line, column),
        None => f.write_char('-'),
    }
}

/// The place of a finding, and its level.
fn put_place<W: fmt::Write>(
    f: &mut fmt::Formatter<W>,
    line: Option<u32>,
    column: Option<usize>,
    level: Level,
) -> fmt::Result {
    put_spot(f, line, column)?;
    write!(f, " {level} ")
}

/// A line that the engine doesn't do, with the column, why, and how many further lines have the same cause.
#[derive(Clone, Copy)]
pub struct ErrorLine<'a> {
    pub line: u32,
    pub column: Option<usize>,
    pub why: &'a Why,
    pub further: Further,
}

impl<'a> fmt::Display for ErrorLine<'a> {
    fn fmt<W: fmt::Write>(&self, f: &mut fmt::Formatter<W>) -> fmt::Result {
        put_place(f, Some(self.line), self.column, Level::Error)?;
        write!(f, "{}{}", self.why, self.further)
    }
}

/// A table or a group that breaks a rule, and the line that declares it.
#[derive(Clone, Copy)]
pub struct PartLine<'a> {
    pub line: Option<u32>,
    pub part: &'a BrokenPart,
}

/// What breaks which rule.
fn put_part<W: fmt::Write>(f: &mut fmt::Formatter<W>, part: &BrokenPart) -> fmt::Result {
    match &part.group {
        Some(group) => write!(
            f,
            "{} broken by group {group} of {}: ",
            part.rule, part.table.0
        ),
        None => write!(f, "{} broken by {}: ", part.rule, part.table.0),
    }
}

impl<'a> fmt::Display for PartLine<'a> {
    fn fmt<W: fmt::Write>(&self, f: &mut fmt::Formatter<W>) -> fmt::Result {
        put_place(f, self.line, None, Level::Rule)?;
        put_part(f, self.part)?;
        f.write_str(rule_text(self.part.rule).unwrap_or("there is none of this number"))
    }
}

/// What may be meant otherwise in a script of this schema.
#[derive(Clone, Copy)]
pub struct AdviceLine<'a> {
    pub found: &'a AdviceFound,
    pub schema: &'a Schema,
}

impl<'a> AdviceLine<'a> {
    /// The table that something is remarked of.
    fn table(&self) -> Option<&TableEntry> {
        match &self.found.advice {
            Advice::Table { place, .. } => self.schema.tables.as_slice().get(*place),
            Advice::OpenBlock
            | Advice::NoResume
            | Advice::NoShow
            | Advice::NeverPushed { .. }
            | Advice::Unfinished { .. }
            | Advice::Errors { .. } => None,
        }
    }
}

/// The sentence of an advice; of what is remarked of a table by that table, if it is there.
fn put_advice<W: fmt::Write>(
    f: &mut fmt::Formatter<W>,
    advice: &Advice,
    table: Option<&TableEntry>,
) -> fmt::Result {
    if let (Advice::Table { remark, .. }, Some(table)) = (advice, table) {
        let remark = *remark;
        return fmt::Display::fmt(&RemarkText { table, remark }, f);
    }
    fmt::Display::fmt(advice, f)
}

impl<'a> fmt::Display for AdviceLine<'a> {
    fn fmt<W: fmt::Write>(&self, f: &mut fmt::Formatter<W>) -> fmt::Result {
        put_place(f, self.found.line, None, Level::Advice)?;
        put_advice(f, &self.found.advice, self.table())
    }
}
