//! A script's literals beside columns, and the rows and keys that they give.
ghost use Rattle.std.specs.Prelude.{◌≡◌, [], length, slice_get, filter, IfOk};
ghost use Rattle.std.specs.List.{list_any};
ghost use Rattle.rep_values.specs.Number.{IsKeyLen, IsRowLen};
ghost use Rattle.rep_values.specs.Name.{same_bytes};
ghost use Rattle.txn_effects.specs.Filled.{blank_value, written_columns, row_written};
ghost use Rattle.txn_effects.specs.Literals.{names_site, literal_fits, literal_there, literals_fit, is_given, key_literals_fit, values_of};

use rep_lists::{Items, NoMemory};
use rep_schema::{Column, Schema, SiteEntry, is_of_kind};
use rep_values::{Key, Literal, Row, Text, Value};
use std::alloc::Global;
use txn_effects::Given;

fn has_site(sites: &[SiteEntry], name: &Text) -> bool
    ensures { result ≡ list_any (λ site. same_bytes site.name.0 name.now) sites.now }
{
    sites.iter().any(|site| site.name.0.bytes() == name.bytes())
}

fn names_site(schema: &Schema, literal: &Literal) -> bool
    ensures { result ≡ names_site schema.now literal.now }
{
    match literal {
        Literal::Num(_) => false,
        Literal::Words(name) => has_site(schema.sites.as_slice(), name),
    }
}

fn literal_fits(schema: &Schema, column: &Column, literal: &Literal) -> bool
    ensures { result ≡ literal_fits schema.now column.now literal.now }
{
    is_of_kind(column.kind, literal)
        && (!(column.key && column.kind.is_site_kind()) || names_site(schema, literal))
}

/// Whether a literal is at a place, and fits a column.
fn fits_there(schema: &Schema, column: &Column, literals: &[Literal], place: usize) -> bool
    ensures { result ≡ literal_there schema.now column.now (slice_get literals.now place) }
{
    match literals.get(place) {
        Some(literal) => literal_fits(schema, column, literal),
        None => false,
    }
}

fn is_given(given: Given, column: &Column) -> bool
    ensures { result ≡ is_given given column.now }
{
    match given {
        Given::Written => !column.is_filled(),
        Given::Key => column.key,
    }
}

fn literals_fit(schema: &Schema, given: Given, columns: &[Column], literals: &[Literal]) -> bool
    ensures { result ≡ literals_fit schema.now (filter (is_given given) columns.now) literals.now }
{
    let mut read = 0;
    for column in columns {
        if is_given(given, column) {
            if !fits_there(schema, column, literals, read) {
                return false;
            }
            read += 1;
        }
    }
    read == literals.len()
}

/// Whether there is a literal for each column that a script writes, and each fits.
pub(crate) fn written_fit(schema: &Schema, columns: &[Column], literals: &[Literal]) -> bool
    ensures { result ≡ literals_fit schema.now (written_columns columns.now) literals.now }
{
    literals_fit(schema, Given::Written, columns, literals)
}

/// Whether there is a literal for each key column, and each fits.
pub(crate) fn key_literals_fit(schema: &Schema, columns: &[Column], literals: &[Literal]) -> bool
    ensures { result ≡ key_literals_fit schema.now columns.now literals.now }
{
    literals_fit(schema, Given::Key, columns, literals)
}

fn empty_text() -> Text
    ensures { result ≡ [] }
{
    match Text::of(b"") {
        Some(text) => text,
        None => unreachable!(),
    }
}

/// What a filled column holds before it is filled.
fn blank_value(column: &Column) -> Value
    ensures { result ≡ blank_value column.now }
{
    if column.kind.is_stamp() {
        Value::Num(0)
    } else {
        Value::Words(empty_text())
    }
}

/// The row of literals, blank in the columns that the site fills.
pub(crate) fn row_written(
    alloc: Global,
    columns: &[Column],
    literals: &[Literal],
) -> Result<Row, NoMemory>
    requires some { IsRowLen (length columns.now) }
    requires long { length (written_columns columns.now) ≡ length literals.now }
    ensures { IfOk result (λ row. row ≡ row_written columns.now (values_of literals.now)) }
{
    let mut cells = Items::with_capacity(alloc, columns.len())?;
    let mut read = 0;
    for column in columns {
        if column.is_filled() {
            cells.push(blank_value(column))?;
        } else {
            cells.push(literals[read].value())?;
            read += 1;
        }
    }
    match Row::from_items(cells) {
        Some(row) => Ok(row),
        None => unreachable!(),
    }
}

/// The key of literals. It is built in place, since a key is large.
#[inline(always)]
pub(crate) fn key_of_literals(literals: &[Literal]) -> Key
    requires { IsKeyLen (length literals.now) }
    ensures { result ≡ values_of literals.now }
{
    let mut key = Key::first(literals[0].value());
    for i in 1..literals.len() {
        key.push(literals[i].value());
    }
    key
}
