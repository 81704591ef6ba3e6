//! Changes of all kinds in the first table, taken back.
ghost use Rattle.std.specs.Prelude.{◌≡◌, ◌+◌, ◌<◌, ◌≤◌, [], ◌∷◌, length, slice_index, IfOk, OnOk};
ghost use Rattle.rep_schema.specs.Changes.{IsChange, LeadsTo, after_change};

use crate::calls::{last_key, test_put, text};
use case_reader::{CaseStop, Words};
use rep_lists::{Copies, Items};
use rep_schema::{Change, Changes, RowStore, columns_of, is_keyed, undo};
use rep_values::{Key, Row};
use script_lex::Symbol;
use std::alloc::Global;

// Puts a row, and answers the change.
fn put_row<R: RowStore>(alloc: Global, store: &mut R, row: Row) -> Result<Change, CaseStop>
    requires table { 0 < length (R.schema store.old).tables }
    requires room { 1 ≤ slice_index (R.spare store.old) 0 }
    ensures table { IfOk result (λ change. change.table ≡ 0) }
    ensures is { IfOk result (λ change. IsChange (R.schema store.old) change (R.tables store.old)) }
    ensures made { IfOk result (λ change. R.tables store.new ≡ after_change (R.schema store.old) change (R.tables store.old)) }
    ensures schema { R.schema store.new ≡ R.schema store.old }
    ensures room { slice_index (R.spare store.old) 0 ≤ slice_index (R.spare store.new) 0 + 1 }
{
    let kept = row.copy(alloc)?;
    if test_put(store, 0, &row).is_err() {
        return Err(CaseStop::NoCase);
    }
    let before = store.put(0, row);
    Ok(Change {
        table: 0,
        before,
        after: Some(kept),
    })
}

// Takes the row with a key away, and answers the change.
fn take_row<R: RowStore>(store: &mut R, key: &Key) -> Result<Change, CaseStop>
    requires { 0 < length (R.schema store.old).tables }
    ensures table { IfOk result (λ change. change.table ≡ 0) }
    ensures is { IfOk result (λ change. IsChange (R.schema store.old) change (R.tables store.old)) }
    ensures made { IfOk result (λ change. R.tables store.new ≡ after_change (R.schema store.old) change (R.tables store.old)) }
    ensures schema { R.schema store.new ≡ R.schema store.old }
    ensures room { slice_index (R.spare store.old) 0 ≤ slice_index (R.spare store.new) 0 }
{
    if !is_keyed(columns_of(store.schema(), 0)) {
        return Err(CaseStop::NoCase);
    }
    let before = store.take(0, key);
    Ok(Change {
        table: 0,
        before,
        after: None,
    })
}

// Puts two rows, and answers the changes.
fn put_rows<R: RowStore>(
    alloc: Global,
    store: &mut R,
    first: Row,
    second: Row,
) -> Result<(Change, Change), CaseStop>
    requires table { 0 < length (R.schema store.old).tables }
    requires room { 2 ≤ slice_index (R.spare store.old) 0 }
    ensures table { IfOk result (λ changes. (changes.0.table ≡ 0) × (changes.1.table ≡ 0)) }
    ensures lead { IfOk result (λ changes. LeadsTo (R.schema store.old) (changes.0 ∷ changes.1 ∷ []) (R.tables store.old) (R.tables store.new)) }
    ensures schema { R.schema store.new ≡ R.schema store.old }
    ensures room { slice_index (R.spare store.old) 0 ≤ slice_index (R.spare store.new) 0 + 2 }
{
    let first = put_row(alloc, store, first)?;
    let second = put_row(alloc, store, second)?;
    Ok((first, second))
}

// Takes the rows with two keys away, and answers the changes.
fn take_rows<R: RowStore>(store: &mut R, keys: &(Key, Key)) -> Result<(Change, Change), CaseStop>
    requires { 0 < length (R.schema store.old).tables }
    ensures table { IfOk result (λ changes. (changes.0.table ≡ 0) × (changes.1.table ≡ 0)) }
    ensures lead { IfOk result (λ changes. LeadsTo (R.schema store.old) (changes.0 ∷ changes.1 ∷ []) (R.tables store.old) (R.tables store.new)) }
    ensures schema { R.schema store.new ≡ R.schema store.old }
    ensures room { slice_index (R.spare store.old) 0 ≤ slice_index (R.spare store.new) 0 }
{
    let first = take_row(store, &keys.0)?;
    let second = take_row(store, &keys.1)?;
    Ok((first, second))
}

// Puts two rows, takes the rows with two keys away, and takes it all back.
fn change_and_undo<R: RowStore>(
    alloc: Global,
    store: &mut R,
    rows: (Row, Row),
    keys: &(Key, Key),
) -> Result<(), CaseStop>
    requires { 0 < length (R.schema store.old).tables }
    ensures { OnOk result (R.tables store.new ≡ R.tables store.old) }
{
    if store.schema().tables.is_empty() {
        return Err(CaseStop::NoCase);
    }
    store.reserve(0, 6)?;
    let (first, second) = put_rows(alloc, store, rows.0, rows.1)?;
    let (third, fourth) = take_rows(store, keys)?;
    let rows = vec![in alloc; first, second, third, fourth]?;
    undo(
        store,
        Changes {
            rows: Items::from_vec(rows),
        },
    );
    Ok(())
}

/// A row before a comma.
fn read_row(alloc: Global, words: &mut Words) -> Result<Row, CaseStop> {
    let row = words.row(alloc)?;
    words.symbol(Symbol::Comma)?;
    Ok(row)
}

/// Two rows, each before a comma.
fn read_rows(alloc: Global, words: &mut Words) -> Result<(Row, Row), CaseStop> {
    let first = read_row(alloc, words)?;
    let second = read_row(alloc, words)?;
    Ok((first, second))
}

/// The two keys that the line ends with, parted by a comma.
fn read_keys(alloc: Global, words: &mut Words) -> Result<(Key, Key), CaseStop> {
    let first = words.key(alloc)?;
    words.symbol(Symbol::Comma)?;
    let second = last_key(alloc, words)?;
    Ok((first, second))
}

/// Two rows and two keys, each behind a comma: the rows are put, the keys taken, and all is taken back.
pub fn undone<R: RowStore>(
    alloc: Global,
    store: &mut R,
    words: &mut Words,
) -> Result<String, CaseStop> {
    let rows = read_rows(alloc, words)?;
    let keys = read_keys(alloc, words)?;
    if store.schema().tables.len() == 0 {
        return Err(CaseStop::NoCase);
    }
    change_and_undo(alloc, store, rows, &keys)?;
    text(alloc, "undone")
}
