//! Cases of the tokens of transactions, and of the lines of their calls.
ghost use Rattle.std.specs.Prelude.{◌↔◌, IsTrue};
ghost use Rattle.std.specs.List.{AllByRecursion};
ghost use Rattle.rep_schema.specs.Tables.{IsKeyed};
ghost use Rattle.rep_schema.specs.Shape.{HasShape};
ghost use Rattle.conflict_detect.specs.KeysNamed.{HasKeys};

use crate::told::text;
use case_reader::{CaseStop, Words, declare, push_number, push_values, read_call};
use conflict_detect::fits;
use dependency_index::{Token, Tokens, has_unique_token, tokens_of};
use rep_calls::{Call, Txn};
use rep_lists::{Items, NoMemory};
use rep_schema::{Schema, TableEntry, is_keyed};
use rep_values::{ApplyError, Key, Refusal};
use report_text::{Lines, add_calls};
use std::alloc::Global;
use std::marker::Model;
use std::{mem, str};

/// A schema, and the calls that are kept.
#[derive(Drop)]
pub struct Declared {
    schema: Schema,
    calls: Vec<Call>,
}

impl Model for Declared {
    ghost use Rattle.rep_schema.specs.declared.schema.Schema.{Schema as SchemaValue};
    ghost use Rattle.rep_schema.specs.Shape.{HasShape};

    ghost Value = { SchemaValue };

    ghost view = { λ d. d.schema };

    ghost invariant = { λ d. HasShape d.schema };
}

impl Declared {
    /// Nothing is declared or kept.
    pub fn new(alloc: Global) -> Declared {
        Declared {
            schema: Schema::empty(alloc),
            calls: Vec::new(alloc),
        }
    }
}

/// Whether each of these tables has its 1 to 4 key columns.
fn are_keyed(tables: &[TableEntry]) -> bool
    ensures { IsTrue result ↔ AllByRecursion (λ entry. IsKeyed entry.columns) tables.now }
{
    for entry in tables {
        if !is_keyed(entry.columns.as_slice()) {
            return false;
        }
    }
    true
}

/// Whether each table of the schema has its 1 to 4 key columns.
fn has_keys(schema: &Schema) -> bool
    ensures { IsTrue result → HasKeys schema.now }
{
    are_keyed(schema.tables.as_slice())
}

fn push_row(out: &mut String, alloc: Global, table: u32, key: &Key) -> Result<(), NoMemory> {
    out.push_str(" row")?;
    push_number(out, alloc, i64::from(table))?;
    push_values(out, alloc, key.values())
}

fn push_unique(out: &mut String, alloc: Global, table: u32) -> Result<(), NoMemory> {
    out.push_str(" unique")?;
    push_number(out, alloc, i64::from(table))
}

fn push_token(out: &mut String, alloc: Global, token: &Token) -> Result<(), NoMemory> {
    match token {
        Token::Key { table, key } => push_row(out, alloc, *table, key),
        Token::Unique { table } => push_unique(out, alloc, *table),
    }
}

/// Each token, and then whether one is of constraints.
fn push_tokens(
    out: &mut String,
    alloc: Global,
    tokens: &[Token],
    has_unique: bool,
) -> Result<(), NoMemory> {
    for token in tokens {
        push_token(out, alloc, token)?;
    }
    if has_unique {
        out.push_str(", of constraints too")?;
    }
    Ok(())
}

fn tokens_text(alloc: Global, tokens: &Tokens, has_unique: bool) -> Result<String, CaseStop> {
    let mut out = text(alloc, "tokens")?;
    push_tokens(&mut out, alloc, tokens.list.as_slice(), has_unique)?;
    Ok(out)
}

/// The tokens of the transaction, where it fits the schema; then whether one is of constraints.
fn shown(alloc: Global, schema: &Schema, txn: &Txn) -> Result<String, CaseStop>
    requires shape { HasShape schema.now }
{
    if !has_keys(schema) || !fits(schema, txn) {
        return text(alloc, "no fit");
    }
    let tokens = tokens_of(alloc, schema, txn)?;
    tokens_text(alloc, &tokens, has_unique_token(schema, txn))
}

/// Each line of a text behind a line end.
fn push_lines(out: &mut String, lines: &str) -> Result<(), NoMemory> {
    for line in lines.lines() {
        out.push('\n')?;
        out.push_str(line)?;
    }
    Ok(())
}

fn lines_text(alloc: Global, lines: &Lines) -> Result<String, CaseStop> {
    let mut out = text(alloc, "lines")?;
    push_lines(&mut out, str::from_utf8(lines.bytes()).unwrap_or("?"))?;
    Ok(out)
}

/// The lines of the transaction's calls.
fn listed(alloc: Global, schema: &Schema, txn: &Txn) -> Result<String, CaseStop> {
    let mut lines = Lines::make(alloc);
    add_calls(&mut lines, schema, txn)?;
    lines_text(alloc, &lines)
}

/// Whether the declaration that a line is was added.
fn is_declared(alloc: Global, schema: &mut Schema, words: &mut Words) -> Result<bool, CaseStop>
    requires { HasShape schema.old }
    ensures { HasShape schema.new }
{
    let refused: Option<Refusal> = declare(alloc, schema, words)?;
    // No declaration has this refusal; the check of this function asks that the error's type is named.
    if let Some(Refusal::StillFails(ApplyError::NoRow)) = refused {
        return Ok(false);
    }
    Ok(refused.is_none())
}

/// Begins with nothing declared or kept.
fn begin(
    alloc: Global,
    declared: &mut Declared,
    words: &Words,
) -> Result<Option<String>, CaseStop> {
    words.end()?;
    *declared = Declared::new(alloc);
    Ok(None)
}

/// Adds a declaration, and tells where it is refused.
fn add(
    alloc: Global,
    declared: &mut Declared,
    words: &mut Words,
) -> Result<Option<String>, CaseStop> {
    if is_declared(alloc, &mut declared.schema, words)? {
        return Ok(None);
    }
    text(alloc, "refused").map(Some)
}

/// Keeps a call.
fn keep(
    alloc: Global,
    declared: &mut Declared,
    words: &mut Words,
) -> Result<Option<String>, CaseStop> {
    let call = read_call(alloc, words)?;
    declared.calls.push(call)?;
    Ok(None)
}

/// The transaction of the calls that were kept, which are forgotten.
fn take_txn(alloc: Global, declared: &mut Declared) -> Result<Txn, CaseStop> {
    let calls = mem::replace(&mut declared.calls, Vec::new(alloc));
    Ok(Txn::of(alloc, Items::from_vec(calls))?)
}

/// The lines of the calls that were kept, or their tokens.
fn txn_shown(
    alloc: Global,
    declared: &mut Declared,
    kind: &[u8],
    words: &Words,
) -> Result<String, CaseStop> {
    words.end()?;
    let txn = take_txn(alloc, declared)?;
    match kind {
        b"lines" => listed(alloc, &declared.schema, &txn),
        _ => shown(alloc, &declared.schema, &txn),
    }
}

/// The outcome of a line of this kind.
pub fn outcome(
    alloc: Global,
    declared: &mut Declared,
    kind: &[u8],
    words: &mut Words,
) -> Result<Option<String>, CaseStop> {
    match kind {
        b"schema" => begin(alloc, declared, words),
        b"declare" => add(alloc, declared, words),
        b"call" => keep(alloc, declared, words),
        _ => txn_shown(alloc, declared, kind, words).map(Some),
    }
}
