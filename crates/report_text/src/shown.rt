//! What the show commands print, which takes memory.
ghost use Rattle.std.specs.Prelude.{◌≡◌, ◌≤◌, ◌<◌, ◌+◌, ◌*◌, [], ◌∷◌, ◌++◌, cond, length, drop, map, OnOk, OnErr};
ghost use Rattle.std.specs.List.{flat_map};
ghost use Rattle.rep_values.specs.Number.{IsRowLen};
ghost use Rattle.rep_schema.specs.Tables.{rows_of};
ghost use Rattle.rep_schema.specs.Sites.{has_table};
ghost use Rattle.report_text.specs.Sheet.{Appends, StandBefore, spaced, most_value};
ghost use Rattle.report_text.specs.Texts.{value_text, row_text, logged_key_text, table_text, tables_text, proc_tables_text};

use crate::lines::MOST_LINE;
use crate::{Lines, Word};
use rep_lists::NoMemory;
use rep_schema::{RowStore, TableSet};
use rep_values::{Key, Row, SiteName, TableName, Value};

/// The most bytes of a row's line: its word, 32 values of at most 67 bytes with their spaces, and its end.
const MOST_ROW: u64 = 2_148;

/// The most bytes of a logged key's line: its words, 4 values of at most 67 bytes with their spaces, a moment, and its end.
const MOST_KEY: u64 = 300;

/// Each value behind a space.
pub(crate) fn put_values(lines: &mut Lines, values: &[Value])
    requires { most_value * length values.now ≤ lines.old.room }
    ensures text { Appends lines.old lines.new (spaced (map value_text values.now)) }
    ensures room { lines.old.room ≤ lines.new.room + most_value * length values.now }
{
    for value in values {
        match *value {
            Value::Num(number) => lines.put_words(&[Word::Signed(number)]),
            Value::Words(text) => lines.put_words(&[Word::Quoted(text)]),
        }
    }
}

/// `row VALUES`
fn add_row(lines: &mut Lines, values: &[Value]) -> Result<(), NoMemory>
    requires { IsRowLen (length values.now) }
    ensures ok { OnOk result (lines.new.bytes ≡ lines.old.bytes ++ row_text values.now) }
    ensures err { OnErr result (lines.new.bytes ≡ lines.old.bytes) }
{
    lines.reserve(MOST_ROW)?;
    lines.put(b"row");
    put_values(lines, values);
    lines.put(b"\n");
    Ok(())
}

/// `key VALUES moment M`
pub fn add_logged_key(lines: &mut Lines, key: &Key, moment: u64) -> Result<(), NoMemory>
    ensures ok { OnOk result (lines.new.bytes ≡ lines.old.bytes ++ logged_key_text key.now moment) }
    ensures err { OnErr result (lines.new.bytes ≡ lines.old.bytes) }
{
    lines.reserve(MOST_KEY)?;
    lines.put(b"key");
    put_values(lines, key.values());
    lines.put_words(&[Word::Plain(b"moment"), Word::Number(moment)]);
    lines.put(b"\n");
    Ok(())
}

/// The row at a place that has one.
fn row_at<R: RowStore>(store: &R, table: u32, place: u64) -> &Row
    requires table { table < length (R.schema store.now).tables }
    requires place { place < length (rows_of (R.tables store.now) table) }
    ensures { drop place (rows_of (R.tables store.now) table) ≡ result.now ∷ drop (place + 1) (rows_of (R.tables store.now) table) }
{
    match store.row_in_order(table, place) {
        Some(row) => row,
        None => unreachable!(),
    }
}

/// `table T COUNT`, and a line for each row in rising order of key.
fn add_table<R: RowStore>(
    lines: &mut Lines,
    name: TableName,
    store: &R,
    table: u32,
) -> Result<(), NoMemory>
    requires { table < length (R.schema store.now).tables }
    ensures ok { OnOk result (lines.new.bytes ≡ lines.old.bytes ++ table_text name.0 (rows_of (R.tables store.now) table)) }
    ensures err { OnErr result (StandBefore lines.old.bytes lines.new.bytes) }
{
    let count = store.count(table);
    lines.reserve(MOST_LINE)?;
    lines.put_line(b"table", &[Word::Name(name.0), Word::Number(count)]);
    for place in 0..count {
        add_row(lines, row_at(store, table, place).values())?;
    }
    Ok(())
}

/// The lines of a table, where it is held.
fn add_held<R: RowStore>(
    lines: &mut Lines,
    held: &TableSet,
    name: TableName,
    store: &R,
    table: u32,
) -> Result<(), NoMemory>
    requires { table < length (R.schema store.now).tables }
    ensures ok { OnOk result (lines.new.bytes ≡ lines.old.bytes ++ cond (has_table held.now table) (table_text name.0 (rows_of (R.tables store.now) table)) []) }
    ensures err { OnErr result (StandBefore lines.old.bytes lines.new.bytes) }
{
    if !held.has(table) {
        return Ok(());
    }
    add_table(lines, name, store, table)
}

/// What `show tables` prints of a site: its name, and each table that it holds in declared order with its rows. Where there
/// is no memory, what stood in the lines still stands in front, and part of this may stand behind it.
pub fn add_tables<R: RowStore>(
    lines: &mut Lines,
    site: SiteName,
    held: &TableSet,
    store: &R,
) -> Result<(), NoMemory>
    requires { length (R.schema store.now).tables ≤ 32 }
    ensures ok { OnOk result (lines.new.bytes ≡ lines.old.bytes ++ tables_text site.0 held.now (R.schema store.now) (R.tables store.now)) }
    ensures err { OnErr result (StandBefore lines.old.bytes lines.new.bytes) }
{
    lines.reserve(MOST_LINE)?;
    lines.put_line(b"tables", &[Word::Name(site.0)]);
    let schema = store.schema();
    for table in 0..schema.tables.len() {
        add_held(
            lines,
            held,
            schema.tables.at(table).name,
            store,
            table as u32,
        )?;
    }
    Ok(())
}

/// What `show calls` prints of a site: its name, and each table that procedures write in declared order with its rows. Where there
/// is no memory, what stood in the lines still stands in front, and part of this may stand behind it.
pub fn add_proc_tables<R: RowStore>(
    lines: &mut Lines,
    site: SiteName,
    store: &R,
) -> Result<(), NoMemory>
    requires { length (R.schema store.now).tables ≤ 32 }
    ensures ok { OnOk result (lines.new.bytes ≡ lines.old.bytes ++ proc_tables_text site.0 (R.schema store.now) (R.tables store.now)) }
    ensures err { OnErr result (StandBefore lines.old.bytes lines.new.bytes) }
{
    lines.reserve(MOST_LINE)?;
    lines.put_line(b"calls", &[Word::Name(site.0)]);
    let schema = store.schema();
    for table in 0..schema.tables.len() {
        add_table(lines, schema.tables.at(table).name, store, table as u32)?;
    }
    Ok(())
}
