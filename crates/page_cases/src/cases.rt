//! What is declared so far, both stores, and the outcomes of lines.
ghost use Rattle.rep_schema.specs.Shape.{HasShape};

use crate::applied::applied;
use crate::calls::{changed, found, held, put, reserved, rows_shown, taken, text};
use crate::detected::detected;
use crate::families::picked;
use crate::logged::last_moment;
use crate::refreshed::{refreshed_and_back, refreshed_by_key};
use crate::renewed::renewed;
use crate::series::{put_series, take_series};
use crate::undone::undone;
use case_reader::{CaseStop, Words, read_declaration};
use page_tables::PageTables;
use rep_declare::add_declaration;
use rep_lists::Copies;
use rep_schema::{RowStore, Schema};
use row_tables::ListTables;
use script_lex::lex;
use std::alloc::Global;
use std::marker::Model;

/// A store of either kind, of one schema.
#[derive(Drop)]
struct Both {
    lists: ListTables,
    pages: PageTables,
}

/// A schema, and the stores once they are made.
#[derive(Drop)]
pub struct Cases {
    schema: Schema,
    both: Option<Both>,
}

impl Model for Cases {
    ghost use Rattle.rep_schema.specs.declared.schema.Schema.{Schema as SchemaValue};
    ghost use Rattle.rep_schema.specs.Shape.{HasShape};

    ghost Value = { SchemaValue };

    ghost view = { λ c. c.schema };

    ghost invariant = { λ c. HasShape c.schema };
}

fn declared(alloc: Global, schema: &mut Schema, words: &mut Words) -> Result<String, CaseStop>
    requires { HasShape schema.old }
    ensures { HasShape schema.new }
{
    let declaration = read_declaration(alloc, words)?;
    match add_declaration(schema, alloc, &declaration) {
        Ok(()) => text(alloc, "added"),
        Err(_) => text(alloc, "refused"),
    }
}

fn lists_of(alloc: Global, schema: &Schema) -> Result<ListTables, CaseStop> {
    Ok(ListTables::make(alloc, schema.copy(alloc)?)?)
}

fn pages_of(alloc: Global, schema: &Schema) -> Result<PageTables, CaseStop> {
    Ok(PageTables::make(alloc, schema.copy(alloc)?)?)
}

fn both_of(alloc: Global, schema: &Schema) -> Result<Both, CaseStop> {
    let lists = lists_of(alloc, schema)?;
    let pages = pages_of(alloc, schema)?;
    Ok(Both { lists, pages })
}

/// What a line shows of a store.
fn shown<R: RowStore>(
    alloc: Global,
    store: &R,
    kind: &[u8],
    words: &mut Words,
) -> Result<String, CaseStop> {
    match kind {
        b"get" => found(alloc, store, words),
        b"holds" => held(alloc, store, words),
        b"rows" => rows_shown(alloc, store, words),
        b"picked" => picked(alloc, store, words),
        b"renewed" => renewed(alloc, store, words),
        _ => Err(CaseStop::NoCase),
    }
}

/// The outcome of a call on one store.
fn called<R: RowStore>(
    alloc: Global,
    store: &mut R,
    kind: &[u8],
    words: &mut Words,
) -> Result<String, CaseStop> {
    match kind {
        b"put" => put(alloc, store, words),
        b"change" => changed(alloc, store, words),
        b"puts" => put_series(alloc, store, words),
        b"take" => taken(alloc, store, words),
        b"takes" => take_series(alloc, store, words),
        b"reserve" => reserved(alloc, store, words),
        b"undo" => undone(alloc, store, words),
        b"only" => refreshed_by_key(alloc, store, words),
        b"try" => refreshed_and_back(alloc, store, words),
        _ => shown(alloc, store, kind, words),
    }
}

fn difference(alloc: Global, lists: &str, pages: &str) -> Result<String, CaseStop> {
    Ok(format!(in alloc; "in lists {lists}, in pages {pages}")?)
}

/// The outcome that both stores have, or both outcomes where they differ.
fn common(alloc: Global, lists: String, pages: String) -> Result<String, CaseStop> {
    if lists == pages {
        return Ok(pages);
    }
    difference(alloc, &lists, &pages)
}

/// The outcome on both stores, or both outcomes where they differ.
fn compared(
    alloc: Global,
    both: &mut Both,
    kind: &[u8],
    words: &Words,
) -> Result<String, CaseStop> {
    let mut first = *words;
    let mut second = *words;
    let lists = called(alloc, &mut both.lists, kind, &mut first)?;
    let pages = called(alloc, &mut both.pages, kind, &mut second)?;
    common(alloc, lists, pages)
}

impl Cases {
    /// Nothing is declared.
    pub fn new(alloc: Global) -> Cases {
        Cases {
            schema: Schema::empty(alloc),
            both: None,
        }
    }

    /// Makes both stores of the schema.
    fn make(&mut self, alloc: Global) -> Result<String, CaseStop> {
        let both = both_of(alloc, &self.schema)?;
        self.both = Some(both);
        text(alloc, "made")
    }

    /// The outcome of a call on both stores.
    fn called(&mut self, alloc: Global, kind: &[u8], words: &Words) -> Result<String, CaseStop> {
        match &mut self.both {
            Some(both) => compared(alloc, both, kind, words),
            None => Err(CaseStop::NoCase),
        }
    }

    /// The outcome of a line of this kind.
    fn outcome_of(
        &mut self,
        alloc: Global,
        kind: &[u8],
        words: &mut Words,
    ) -> Result<String, CaseStop> {
        match kind {
            b"declare" => declared(alloc, &mut self.schema, words),
            b"make" => self.make(alloc),
            b"moment" => last_moment(alloc, words),
            b"detect" => detected(alloc, &self.schema, words),
            b"apply" => applied(alloc, &self.schema, words),
            _ => self.called(alloc, kind, words),
        }
    }

    /// The outcome of a line.
    pub fn outcome(&mut self, alloc: Global, line: &str) -> Result<String, CaseStop> {
        let tokens = lex(alloc, line.as_bytes())?;
        let mut words = Words::of(tokens.as_slice());
        let kind = words.word()?;
        self.outcome_of(alloc, kind, &mut words)
    }
}
