//! The lines of calls, which take memory.
ghost use Rattle.std.specs.Prelude.{◌≡◌, ◌≤◌, ◌++◌, map, OnOk, OnErr};
ghost use Rattle.std.specs.List.{flat_map};
ghost use Rattle.report_text.specs.Sheet.{StandBefore, spaced, word_text, most_of};
ghost use Rattle.report_text.specs.Texts.{value_text};
ghost use Rattle.rep_schema.specs.Named.{group_name};
ghost use Rattle.report_text.specs.Calls.{table_name, part_words, call_words, call_text, calls_from, calls_text};

use crate::lines::MOST_LINE;
use crate::shown::put_values;
use crate::{Lines, Word};
use rep_calls::{Call, Part, Txn};
use rep_lists::NoMemory;
use rep_schema::{Schema, shadow_name};
use rep_values::{Name, Value};
use schema_names::group_name;

/// The most bytes of a value behind a space.
const MOST_VALUE: u64 = 67;

/// Values, each behind a space.
fn add_values(lines: &mut Lines, values: &[Value]) -> Result<(), NoMemory>
    ensures ok { OnOk result (lines.new.bytes ≡ lines.old.bytes ++ spaced (map value_text values.now)) }
    ensures err { OnErr result (StandBefore lines.old.bytes lines.new.bytes) }
{
    for value in values {
        lines.reserve(MOST_VALUE)?;
        put_values(lines, &[*value]);
    }
    Ok(())
}

/// The name of a table; no bytes where the schema has none at the place.
fn name_of(schema: &Schema, table: u32) -> Word<'_>
    ensures text { word_text result ≡ table_name schema.now table }
    ensures short { most_of result ≤ 30 }
{
    match schema.tables.as_slice().get(table as usize) {
        Some(entry) => Word::Name(entry.name.0),
        None => Word::Plain(b""),
    }
}

/// The name of a table's group.
fn group_of(schema: &Schema, table: u32, group: u8) -> Name
    ensures { result ≡ group_name schema.now table group }
{
    if (table as usize) < schema.tables.len() {
        group_name(schema, table, group)
    } else {
        shadow_name()
    }
}

/// `group G old VALUES new VALUES`, behind a space
fn add_part(lines: &mut Lines, schema: &Schema, table: u32, part: &Part) -> Result<(), NoMemory>
    ensures ok { OnOk result (lines.new.bytes ≡ lines.old.bytes ++ spaced (part_words schema.now table part.now)) }
    ensures err { OnErr result (StandBefore lines.old.bytes lines.new.bytes) }
{
    lines.reserve(MOST_LINE)?;
    lines.put_words(&[
        Word::Plain(b"group"),
        Word::Name(group_of(schema, table, part.group)),
        Word::Plain(b"old"),
    ]);
    add_values(lines, part.old.as_slice())?;
    lines.reserve(MOST_LINE)?;
    lines.put_words(&[Word::Plain(b"new")]);
    add_values(lines, part.new.as_slice())?;
    Ok(())
}

fn add_parts(lines: &mut Lines, schema: &Schema, table: u32, parts: &[Part]) -> Result<(), NoMemory>
    ensures ok { OnOk result (lines.new.bytes ≡ lines.old.bytes ++ spaced (flat_map (part_words schema.now table) parts.now)) }
    ensures err { OnErr result (StandBefore lines.old.bytes lines.new.bytes) }
{
    for part in parts {
        add_part(lines, schema, table, part)?;
    }
    Ok(())
}

/// What a call does, each word behind a space.
fn add_words(lines: &mut Lines, schema: &Schema, call: &Call) -> Result<(), NoMemory>
    ensures ok { OnOk result (lines.new.bytes ≡ lines.old.bytes ++ spaced (call_words schema.now call.now)) }
    ensures err { OnErr result (StandBefore lines.old.bytes lines.new.bytes) }
{
    lines.reserve(MOST_LINE)?;
    match call {
        Call::Insert { table, row } => {
            let name = name_of(schema, *table);
            lines.put_words(&[Word::Plain(b"insert"), name]);
            add_values(lines, row.values())?;
        }
        Call::Update { table, key, parts } => {
            let name = name_of(schema, *table);
            lines.put_words(&[Word::Plain(b"update"), name]);
            add_values(lines, key.values())?;
            add_parts(lines, schema, *table, parts.as_slice())?;
        }
        Call::Delete { table, row } => {
            let name = name_of(schema, *table);
            lines.put_words(&[Word::Plain(b"delete"), name]);
            add_values(lines, row.values())?;
        }
    }
    Ok(())
}

/// `call I`, and what the call does.
fn add_call(lines: &mut Lines, schema: &Schema, number: u64, call: &Call) -> Result<(), NoMemory>
    ensures ok { OnOk result (lines.new.bytes ≡ lines.old.bytes ++ call_text schema.now number call.now) }
    ensures err { OnErr result (StandBefore lines.old.bytes lines.new.bytes) }
{
    lines.reserve(MOST_LINE)?;
    lines.put(b"call");
    lines.put_words(&[Word::Number(number)]);
    add_words(lines, schema, call)?;
    lines.reserve(MOST_LINE)?;
    lines.put(b"\n");
    Ok(())
}

/// A line for each call of a transaction; they count from 1. Where there is no memory, what stood in the lines still
/// stands in front, and part of this may stand behind it.
pub fn add_calls(lines: &mut Lines, schema: &Schema, txn: &Txn) -> Result<(), NoMemory>
    ensures ok { OnOk result (lines.new.bytes ≡ lines.old.bytes ++ calls_text schema.now txn.now.calls) }
    ensures err { OnErr result (StandBefore lines.old.bytes lines.new.bytes) }
{
    let calls = txn.calls.as_slice();
    for place in 0..calls.len() {
        add_call(lines, schema, place as u64 + 1, &calls[place])?;
    }
    Ok(())
}
