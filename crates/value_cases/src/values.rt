//! Texts, names, keys, rows, literals and refusals.

use case_reader::{CaseStop, Words, push_name, push_number, push_row, push_value, push_values};
use rep_lists::{Copies, NoMemory};
use rep_values::{
    ApplyError, Key, Limit, Literal, Name, Refusal, Row, SiteName, Text, Value, is_digit, is_letter,
};
use script_lex::Symbol;
use std::alloc::Global;

fn read_byte(words: &mut Words) -> Result<u8, CaseStop> {
    u8::try_from(words.whole()?).map_err(|_| CaseStop::NoCase)
}

/// `COUNT BYTE`: the byte so many times.
fn push_run(bytes: &mut Vec<u8>, words: &mut Words) -> Result<(), CaseStop> {
    let count = words.whole()?;
    let byte = read_byte(words)?;
    for _ in 0..count {
        bytes.push(byte)?;
    }
    Ok(())
}

/// Bytes as pairs of numbers: how often, and which byte.
fn read_runs(alloc: Global, words: &mut Words) -> Result<Vec<u8>, CaseStop> {
    let mut bytes = Vec::new(alloc);
    for _ in 0..u64::MAX {
        if words.is_done() {
            break;
        }
        push_run(&mut bytes, words)?;
    }
    Ok(bytes)
}

fn push_none(out: &mut String) -> Result<(), NoMemory> {
    out.push_str(" none")?;
    Ok(())
}

fn push_text(out: &mut String, alloc: Global, text: Option<Text>) -> Result<(), NoMemory> {
    match text {
        Some(text) => push_value(out, alloc, &Value::Words(text)),
        None => push_none(out),
    }
}

/// The text of some bytes.
pub fn text_case(out: &mut String, alloc: Global, words: &mut Words) -> Result<(), CaseStop> {
    let bytes = read_runs(alloc, words)?;
    push_text(out, alloc, Text::of(&bytes))?;
    Ok(())
}

/// A name, and that name as a text.
fn push_both(out: &mut String, alloc: Global, name: &Name) -> Result<(), NoMemory> {
    push_name(out, name)?;
    push_value(out, alloc, &Value::Words(name.text()))
}

fn push_named(out: &mut String, alloc: Global, name: Option<Name>) -> Result<(), NoMemory> {
    match name {
        Some(name) => push_both(out, alloc, &name),
        None => push_none(out),
    }
}

/// The name of some bytes, and that name as a text.
pub fn name_case(out: &mut String, alloc: Global, words: &mut Words) -> Result<(), CaseStop> {
    let bytes = read_runs(alloc, words)?;
    push_named(out, alloc, Name::of(&bytes))?;
    Ok(())
}

/// Which kind a byte has.
pub fn byte_case(out: &mut String, words: &mut Words) -> Result<(), CaseStop> {
    let byte = read_byte(words)?;
    if is_letter(byte) {
        out.push_str(" letter")?;
    }
    if is_digit(byte) {
        out.push_str(" digit")?;
    }
    Ok(())
}

fn push_literal(out: &mut String, alloc: Global, literal: &Literal) -> Result<(), NoMemory> {
    push_value(out, alloc, &literal.value())
}

/// The value of a literal, and of its copy.
pub fn literal_case(out: &mut String, alloc: Global, words: &mut Words) -> Result<(), CaseStop> {
    let literal = words.literal()?;
    push_literal(out, alloc, &literal)?;
    push_literal(out, alloc, &literal.copy(alloc)?)?;
    Ok(())
}

/// The values of a key, and of its copy.
fn push_key(out: &mut String, alloc: Global, key: &Key) -> Result<(), NoMemory> {
    push_values(out, alloc, key.values())?;
    out.push_str(" copy")?;
    push_values(out, alloc, key.copy(alloc)?.values())
}

fn push_key_found(out: &mut String, alloc: Global, key: Option<Key>) -> Result<(), NoMemory> {
    match key {
        Some(key) => push_key(out, alloc, &key),
        None => push_none(out),
    }
}

/// The key of some values, and its copy.
pub fn key_case(out: &mut String, alloc: Global, words: &mut Words) -> Result<(), CaseStop> {
    let values = words.values(alloc)?;
    push_key_found(out, alloc, Key::of(values.as_slice()))?;
    Ok(())
}

fn push_found(out: &mut String, alloc: Global, row: &Option<Row>) -> Result<(), NoMemory> {
    match row {
        Some(row) => push_row(out, alloc, row),
        None => push_none(out),
    }
}

/// The copy of a row.
fn push_copied(out: &mut String, alloc: Global, row: &Row) -> Result<(), NoMemory> {
    let copy = row.copy(alloc)?;
    push_row(out, alloc, &copy)?;
    out.push_str(" copied,")?;
    Ok(())
}

/// The row of some values, if they are one: its copy, and itself.
fn push_row_of(out: &mut String, alloc: Global, values: &[Value]) -> Result<(), NoMemory> {
    let row = Row::of(alloc, values)?;
    if let Some(row) = &row {
        push_copied(out, alloc, row)?;
    }
    push_found(out, alloc, &row)
}

/// The row of some values: from a slice, a copy of it, and from the list.
pub fn row_case(out: &mut String, alloc: Global, words: &mut Words) -> Result<(), CaseStop> {
    let values = words.values(alloc)?;
    push_row_of(out, alloc, values.as_slice())?;
    out.push_str(" taken over")?;
    push_found(out, alloc, &Row::from_items(values))?;
    Ok(())
}

/// A row with another value in a place.
fn set_row(row: &mut Row, place: u64, value: Value) -> Result<(), CaseStop> {
    if place >= row.values().len() as u64 {
        return Err(CaseStop::NoCase);
    }
    row.set(place as usize, value);
    Ok(())
}

/// `PLACE VALUE :`
fn read_place_and_value(words: &mut Words) -> Result<(u64, Value), CaseStop> {
    let place = words.whole()?;
    let value = words.value()?;
    words.symbol(Symbol::Colon)?;
    Ok((place, value))
}

/// A row after a value was put in a place: `PLACE VALUE : ROW`.
pub fn set_case(out: &mut String, alloc: Global, words: &mut Words) -> Result<(), CaseStop> {
    let (place, value) = read_place_and_value(words)?;
    let mut row = words.row(alloc)?;
    set_row(&mut row, place, value)?;
    push_row(out, alloc, &row)?;
    Ok(())
}

const REFUSALS: [Refusal; 17] = [
    Refusal::UnknownName,
    Refusal::NameTaken,
    Refusal::WrongPhase,
    Refusal::RowShape,
    Refusal::KeyTaken,
    Refusal::NoRow,
    Refusal::ValueRange,
    Refusal::KeyNotOwn,
    Refusal::Barred,
    Refusal::FilledBySite,
    Refusal::LinkDown,
    Refusal::NoSuchError,
    Refusal::StillFails(ApplyError::NoRow),
    Refusal::LogTooYoung(3, 4),
    Refusal::Suspended,
    Refusal::LimitReached(Limit::Tables),
    Refusal::SchemaRule(1),
];

/// The number of each refusal.
fn push_refusals(out: &mut String, alloc: Global, refusals: &[Refusal]) -> Result<(), NoMemory> {
    for refusal in refusals {
        push_number(out, alloc, i64::from(refusal.number()))?;
    }
    Ok(())
}

/// The refusals that name something, and those of a count and of want of memory.
fn refusals_of(name: Name) -> [Refusal; 6] {
    [
        Refusal::UniqueTaken(name),
        Refusal::RuleBroken(name),
        Refusal::QueueNotEmpty(2),
        Refusal::CheckFailed(name),
        Refusal::NotQuiet(SiteName(name), 3),
        Refusal::from(NoMemory),
    ]
}

/// The numbers of the refusals in their order: those of a name, a count and want of memory come last.
pub fn refusals_case(out: &mut String, alloc: Global, words: &mut Words) -> Result<(), CaseStop> {
    let name = words.name()?;
    push_refusals(out, alloc, &REFUSALS)?;
    push_refusals(out, alloc, &refusals_of(name))?;
    Ok(())
}
