//! Calls on a store, with the tests that they leave to their callers.
ghost use Rattle.std.specs.Prelude.{◌≡◌, ◌<◌, length, IfOk, OnOk};
ghost use Rattle.rep_schema.specs.Tables.{columns_of, rows_of, IsKeyed, RowFits, IsUniqueRow};

use case_reader::{CaseStop, Words, push_row};
use rep_schema::{
    RowStore, columns_of, constraint_count, constraints_of, is_keyed, is_unique, put_if_changed,
    row_fits,
};
use rep_values::{Key, Name, Row};
use schema_names::table_place;
use std::alloc::Global;

/// How a put ended.
#[derive(Drop)]
pub enum PutEnding {
    New,
    Replaced(Row),
    Unfit,
    Held,
}

impl PutEnding {
    /// The ending of a put that found this row with the row's key.
    fn of(before: Option<Row>) -> PutEnding {
        match before {
            Some(before) => PutEnding::Replaced(before),
            None => PutEnding::New,
        }
    }
}

/// Why a row isn't put.
#[derive(Clone, Copy)]
pub enum PutStop {
    NoCase,
    Unfit,
    Held,
}

/// These words as an outcome.
pub fn text(alloc: Global, words: &str) -> Result<String, CaseStop> {
    let mut out = String::new(alloc);
    out.push_str(words)?;
    Ok(out)
}

/// The number of the table that comes next.
pub fn table_in<R: RowStore>(store: &R, words: &mut Words) -> Result<u32, CaseStop>
    ensures { IfOk result (λ table. table < length (R.schema store.now).tables) }
{
    let name = words.table()?;
    match table_place(store.schema().tables.as_slice(), &name) {
        Some(place) if place < 32 => Ok(place as u32),
        Some(_) | None => Err(CaseStop::NoCase),
    }
}

/// The row that the line ends with.
fn last_row(alloc: Global, words: &mut Words) -> Result<Row, CaseStop> {
    let row = words.row(alloc)?;
    words.end()?;
    Ok(row)
}

/// The key that the line ends with.
pub fn last_key(alloc: Global, words: &mut Words) -> Result<Key, CaseStop> {
    let key = words.key(alloc)?;
    words.end()?;
    Ok(key)
}

/// Whether a row can be put: it fits and is unique.
pub fn test_put<R: RowStore>(store: &R, table: u32, row: &Row) -> Result<(), PutStop>
    requires { table < length (R.schema store.now).tables }
    ensures keyed { OnOk result (IsKeyed (columns_of (R.schema store.now) table)) }
    ensures fits { OnOk result (RowFits (columns_of (R.schema store.now) table) row.now) }
    ensures unique { OnOk result (IsUniqueRow (R.schema store.now) table row.now (rows_of (R.tables store.now) table)) }
{
    if !is_keyed(columns_of(store.schema(), table)) {
        return Err(PutStop::NoCase);
    }
    if !row_fits(columns_of(store.schema(), table), row.values()) {
        return Err(PutStop::Unfit);
    }
    if constraint_count(store.schema(), table) > 8 {
        return Err(PutStop::NoCase);
    }
    if !is_unique(store, table, row) {
        return Err(PutStop::Held);
    }
    Ok(())
}

/// Puts a row where there is such a table, it fits and is unique.
pub fn put_row<R: RowStore>(store: &mut R, table: u32, row: Row) -> Result<PutEnding, CaseStop>
    ensures { R.schema store.new ≡ R.schema store.old }
{
    if table as usize >= store.schema().tables.len() {
        return Err(CaseStop::NoCase);
    }
    store.reserve(table, 1)?;
    match test_put(store, table, &row) {
        Ok(()) => Ok(PutEnding::of(store.put(table, row))),
        Err(PutStop::NoCase) => Err(CaseStop::NoCase),
        Err(PutStop::Unfit) => Ok(PutEnding::Unfit),
        Err(PutStop::Held) => Ok(PutEnding::Held),
    }
}

fn row_text(alloc: Global, row: &Row) -> Result<String, CaseStop> {
    let mut out = text(alloc, "row")?;
    push_row(&mut out, alloc, row)?;
    Ok(out)
}

/// A row that was found, or none.
fn row_shown(alloc: Global, row: Option<&Row>) -> Result<String, CaseStop> {
    match row {
        Some(row) => row_text(alloc, row),
        None => text(alloc, "none"),
    }
}

fn ending_shown(alloc: Global, ending: &PutEnding) -> Result<String, CaseStop> {
    match ending {
        PutEnding::New => text(alloc, "none"),
        PutEnding::Replaced(before) => row_text(alloc, before),
        PutEnding::Unfit => text(alloc, "doesn't fit"),
        PutEnding::Held => text(alloc, "not unique"),
    }
}

/// Puts a row, and shows the row with its key before.
pub fn put<R: RowStore>(
    alloc: Global,
    store: &mut R,
    words: &mut Words,
) -> Result<String, CaseStop> {
    let table = table_in(store, words)?;
    let row = last_row(alloc, words)?;
    let ending = put_row(store, table, row)?;
    ending_shown(alloc, &ending)
}

/// Puts a row where it isn't there yet, and shows the row with its key before.
pub fn changed<R: RowStore>(
    alloc: Global,
    store: &mut R,
    words: &mut Words,
) -> Result<String, CaseStop> {
    let table = table_in(store, words)?;
    let row = last_row(alloc, words)?;
    store.reserve(table, 1)?;
    if test_put(store, table, &row).is_err() {
        return Err(CaseStop::NoCase);
    }
    match put_if_changed(alloc, store, table, row)? {
        Some(change) => row_shown(alloc, change.before.as_ref()),
        None => text(alloc, "unchanged"),
    }
}

/// The row with a key.
pub fn found<R: RowStore>(alloc: Global, store: &R, words: &mut Words) -> Result<String, CaseStop> {
    let table = table_in(store, words)?;
    let key = last_key(alloc, words)?;
    row_shown(alloc, store.get(table, &key))
}

/// Takes the row with a key away, where there is such a table.
pub fn take_key<R: RowStore>(
    store: &mut R,
    table: u32,
    key: &Key,
) -> Result<Option<Row>, CaseStop> {
    if table as usize >= store.schema().tables.len() {
        return Err(CaseStop::NoCase);
    }
    Ok(store.take(table, key))
}

/// Takes the row with a key away, and shows it.
pub fn taken<R: RowStore>(
    alloc: Global,
    store: &mut R,
    words: &mut Words,
) -> Result<String, CaseStop> {
    let table = table_in(store, words)?;
    let key = last_key(alloc, words)?;
    let row = take_key(store, table, &key)?;
    row_shown(alloc, row.as_ref())
}

fn constraint_place<R: RowStore>(store: &R, table: u32, name: &Name) -> Option<usize>
    requires { table < length (R.schema store.now).tables }
{
    constraints_of(store.schema(), table)
        .iter()
        .position(|constraint| constraint.name.is_same(name))
}

/// Whether a row with another key has a row's values in the constraint of a name.
fn is_held<R: RowStore>(store: &R, table: u32, name: &Name, row: &Row) -> Result<bool, CaseStop>
    requires { table < length (R.schema store.now).tables }
{
    let Some(place) = constraint_place(store, table, name) else {
        return Err(CaseStop::NoCase);
    };
    if place >= constraint_count(store.schema(), table) || place >= 8 {
        return Err(CaseStop::NoCase);
    }
    if !is_keyed(columns_of(store.schema(), table)) {
        return Err(CaseStop::NoCase);
    }
    if !row_fits(columns_of(store.schema(), table), row.values()) {
        return Err(CaseStop::NoCase);
    }
    Ok(store.holds_unique(table, place as u32, row))
}

/// Whether a row with another key has the row's values in a constraint.
pub fn held<R: RowStore>(alloc: Global, store: &R, words: &mut Words) -> Result<String, CaseStop> {
    let table = table_in(store, words)?;
    let name = words.name()?;
    let row = last_row(alloc, words)?;
    if is_held(store, table, &name, &row)? {
        text(alloc, "held")
    } else {
        text(alloc, "free")
    }
}

/// The row at a place of a table, where there is one.
fn push_row_at<R: RowStore>(
    out: &mut String,
    alloc: Global,
    store: &R,
    table: u32,
    place: u64,
) -> Result<(), CaseStop>
    requires { table < length (R.schema store.now).tables }
{
    if let Some(row) = store.row_in_order(table, place) {
        out.push_str(" :")?;
        push_row(out, alloc, row)?;
    }
    Ok(())
}

/// Each so manieth row of a table behind a colon, in their order, and the last one.
fn push_rows<R: RowStore>(
    out: &mut String,
    alloc: Global,
    store: &R,
    table: u32,
    every: u64,
) -> Result<(), CaseStop>
    requires { table < length (R.schema store.now).tables }
{
    let count = store.count(table);
    let every = every.max(1);
    for place in 0..count {
        if place % every == 0 || place + 1 == count {
            push_row_at(out, alloc, store, table, place)?;
        }
    }
    if store.row_in_order(table, count).is_some() {
        out.push_str(" and more")?;
    }
    Ok(())
}

/// So many rows.
pub fn count_text(alloc: Global, count: u64) -> Result<String, CaseStop> {
    Ok(format!(in alloc; "{count} rows")?)
}

/// Reserves room for so many rows more, and shows how many there are.
pub fn reserved<R: RowStore>(
    alloc: Global,
    store: &mut R,
    words: &mut Words,
) -> Result<String, CaseStop> {
    let table = table_in(store, words)?;
    let rows = words.whole()?;
    words.end()?;
    store.reserve(table, rows)?;
    count_text(alloc, store.count(table))
}

/// Each so manieth row of a table, in their order, and the last one.
pub fn rows_shown<R: RowStore>(
    alloc: Global,
    store: &R,
    words: &mut Words,
) -> Result<String, CaseStop> {
    let table = table_in(store, words)?;
    let every = words.whole()?;
    words.end()?;
    let mut out = count_text(alloc, store.count(table))?;
    push_rows(&mut out, alloc, store, table, every)?;
    Ok(out)
}
