//! Where things stand in a script: the lines of declarations, and the column of a word.
ghost use Rattle.std.specs.Prelude.{◌≤◌, length};

use command_forms::NameOf;
use rep_declare::Declare;
use rep_lists::NoMemory;
use rep_values::{Name, TableName};
use script_parse::Command;
use std::alloc::Global;

/// Where something was declared, or was to be: its name, the table that it belongs to, its line, and whether the line was done.
#[derive(Clone, Copy)]
struct Spot {
    of: NameOf,
    table: Option<TableName>,
    name: Name,
    line: u32,
    done: bool,
}

/// The lines of declarations.
#[derive(Drop)]
pub struct Spots {
    spots: Vec<Spot>,
}

/// Whether both are the same table, or none.
fn same_table(one: &Option<TableName>, other: &Option<TableName>) -> bool {
    match (one, other) {
        (None, None) => true,
        (Some(one), Some(other)) => one.is_same(other),
        (None, Some(_)) | (Some(_), None) => false,
    }
}

impl Spot {
    /// Whether it is where something of this name was declared, or was to be.
    fn is_named(&self, of: NameOf, name: &Name) -> bool {
        self.of == of && self.name.is_same(name)
    }
}

/// What a declaration names: what it is, the table that it belongs to, and its name.
fn declared(declaration: &Declare) -> Option<(NameOf, Option<TableName>, Name)> {
    match declaration {
        Declare::Site { name } | Declare::LateSite { name } | Declare::SnapSite { name, .. } => {
            Some((NameOf::Site, None, name.0))
        }
        Declare::Table { name, .. } => Some((NameOf::Table, None, name.0)),
        Declare::Group { table, group, .. } => Some((NameOf::Group, Some(*table), *group)),
        Declare::Unique {
            table,
            constraint,
            ..
        } => Some((NameOf::Constraint, Some(*table), *constraint)),
        Declare::Check { table, check, .. } => Some((NameOf::Check, Some(*table), *check)),
        Declare::Method { .. }
        | Declare::Priority { .. }
        | Declare::SiteLevel { .. }
        | Declare::UniqueMethod { .. }
        | Declare::Convergent { .. } => None,
    }
}

impl Spots {
    /// No lines.
    pub fn new(alloc: Global) -> Spots {
        Spots {
            spots: Vec::new(alloc),
        }
    }

    /// Keeps the line of what a command declares, if it does.
    fn keep(&mut self, line: u32, command: &Command, done: bool) -> Result<(), NoMemory> {
        if let Command::Declare(declaration) = command {
            if let Some((of, table, name)) = declared(declaration) {
                self.spots.push(Spot {
                    of,
                    table,
                    name,
                    line,
                    done,
                })?;
            }
        }
        Ok(())
    }

    /// Keeps the line of what a command has declared.
    pub fn keep_done(&mut self, line: u32, command: &Command) -> Result<(), NoMemory> {
        self.keep(line, command, true)
    }

    /// Keeps the line of what a refused command was to declare.
    pub fn keep_refused(&mut self, line: u32, command: &Command) -> Result<(), NoMemory> {
        self.keep(line, command, false)
    }

    /// Keeps the line of a site or a table that a malformed line was to declare.
    pub fn keep_malformed(&mut self, line: u32, bytes: &[u8]) -> Result<(), NoMemory> {
        let Some((word, name)) = two_words(bytes) else {
            return Ok(());
        };
        let of = match word {
            b"site" | b"latesite" | b"snapsite" => NameOf::Site,
            b"table" | b"proctable" => NameOf::Table,
            _ => return Ok(()),
        };
        if let Some(name) = Name::of(name) {
            self.spots.push(Spot {
                of,
                table: None,
                name,
                line,
                done: false,
            })?;
        }
        Ok(())
    }

    /// The line that declared something.
    pub fn line_of(&self, of: NameOf, table: Option<TableName>, name: &Name) -> Option<u32> {
        for spot in self.spots.as_slice() {
            if spot.done && spot.is_named(of, name) && same_table(&spot.table, &table) {
                return Some(spot.line);
            }
        }
        None
    }

    /// The first line that was to declare something of this name, whatever table it belongs to, and was refused or malformed.
    pub fn failed_line_of(&self, of: NameOf, name: &Name) -> Option<u32> {
        for spot in self.spots.as_slice() {
            if !spot.done && spot.is_named(of, name) {
                return Some(spot.line);
            }
        }
        None
    }
}

/// How many bytes in front are spaces, or are none.
fn run_of(bytes: &[u8], space: bool) -> usize
    ensures { result ≤ length bytes.now }
{
    bytes
        .iter()
        .take_while(|byte| (**byte == b' ') == space)
        .count()
}

/// The first word between spaces, and what stands behind it.
fn word_in(bytes: &[u8]) -> Option<(&[u8], &[u8])> {
    let (_, rest) = bytes.split_at(run_of(bytes, true));
    let (word, behind) = rest.split_at(run_of(rest, false));
    if word.is_empty() {
        None
    } else {
        Some((word, behind))
    }
}

/// The first two words between spaces.
fn two_words(bytes: &[u8]) -> Option<(&[u8], &[u8])> {
    let (first, behind) = word_in(bytes)?;
    let (second, _) = word_in(behind)?;
    Some((first, second))
}

/// The first word between spaces.
pub fn first_word(bytes: &[u8]) -> Option<&[u8]> {
    let (first, _) = word_in(bytes)?;
    Some(first)
}

/// Whether a byte may stand in a name.
fn is_name_byte(byte: u8) -> bool {
    byte.is_ascii_alphanumeric() || byte == b'_'
}

/// The column, from 1, at which a name stands in a line as a whole, behind the line's first word.
pub fn column_of(line: &[u8], name: &Name) -> Option<usize> {
    let written = name.bytes();
    let first = run_of(line, true) + 1;
    for place in first..line.len() {
        let (before, rest) = line.split_at(place);
        if !rest.starts_with(written) {
            continue;
        }
        let (_, behind) = rest.split_at(written.len());
        let starts = !before.last().is_some_and(|byte| is_name_byte(*byte));
        let ends = !behind.first().is_some_and(|byte| is_name_byte(*byte));
        if starts && ends {
            return Some(place + 1);
        }
    }
    None
}
