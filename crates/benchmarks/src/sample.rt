//! The packets of the benchmark. `NoCase` stands where a value has no form, which none lacks.

use case_reader::CaseStop;
use packet_code::Packet;
use rep_calls::{Call, Part, Txn};
use rep_lists::{Items, NoMemory};
use rep_values::{Key, Name, Row, SiteName, Text, Value};
use std::alloc::Global;

fn words(bytes: &[u8]) -> Result<Value, CaseStop> {
    let text = Text::of(bytes).ok_or(CaseStop::NoCase)?;
    Ok(Value::Words(text))
}

/// A number and a text, behind other values.
fn push_two(values: &mut Items<Value>, number: i64, bytes: &[u8]) -> Result<(), CaseStop> {
    values.push(Value::Num(number))?;
    values.push(words(bytes)?)?;
    Ok(())
}

/// Four numbers and four texts.
fn push_eight(values: &mut Items<Value>) -> Result<(), CaseStop> {
    push_two(values, 1, b"NYC")?;
    push_two(values, -250, b"ten pieces")?;
    push_two(values, 1_000_000_000_000_000, b"")?;
    push_two(
        values,
        0,
        b"the longest text that a row may hold: it has sixty-four bytes ..",
    )
}

/// A row of eight columns.
fn eight_columns(alloc: Global) -> Result<Row, CaseStop> {
    let mut values = Items::new(alloc);
    push_eight(&mut values)?;
    Row::of(alloc, values.as_slice())?.ok_or(CaseStop::NoCase)
}

fn one<T: Drop>(alloc: Global, value: T) -> Result<Items<T>, NoMemory> {
    let mut items = Items::new(alloc);
    items.push(value)?;
    Ok(items)
}

fn site(bytes: &[u8]) -> Result<SiteName, CaseStop> {
    let name = Name::of(bytes).ok_or(CaseStop::NoCase)?;
    Ok(SiteName(name))
}

fn txn_of(alloc: Global, call: Call) -> Result<Txn, NoMemory> {
    let calls = one(alloc, call)?;
    Txn::of(alloc, calls)
}

/// The transaction, on its way between sites of these names, with an empty past.
fn carried(alloc: Global, from: &[u8], to: &[u8], txn: Txn) -> Result<Packet, CaseStop> {
    let from = site(from)?;
    let to = site(to)?;
    Ok(Packet::Carry {
        from,
        to,
        number: 1_000,
        position: 900,
        dep: 899,
        past: Items::new(alloc),
        txn,
    })
}

/// A transaction of one insert of a row of eight columns.
pub fn insert_packet(alloc: Global) -> Result<Packet, CaseStop> {
    let row = eight_columns(alloc)?;
    let txn = txn_of(alloc, Call::Insert { table: 3, row })?;
    carried(alloc, b"NYC", b"LON", txn)
}

/// A part of one column, behind other parts.
fn push_part(
    parts: &mut Items<Part>,
    alloc: Global,
    group: u8,
    old: Value,
    new: Value,
) -> Result<(), NoMemory> {
    let old = one(alloc, old)?;
    let new = one(alloc, new)?;
    parts.push(Part { group, old, new })
}

/// A part of a text, behind other parts.
fn push_text(
    parts: &mut Items<Part>,
    alloc: Global,
    group: u8,
    old: &[u8],
    new: &[u8],
) -> Result<(), CaseStop> {
    let old = words(old)?;
    let new = words(new)?;
    Ok(push_part(parts, alloc, group, old, new)?)
}

/// A part of a number, a part of a greater one, and a part of a text.
fn three_parts(alloc: Global) -> Result<Items<Part>, CaseStop> {
    let mut parts = Items::new(alloc);
    push_part(&mut parts, alloc, 0, Value::Num(1_000), Value::Num(1_003))?;
    push_part(&mut parts, alloc, 1, Value::Num(12_344), Value::Num(12_345))?;
    push_text(&mut parts, alloc, 2, b"base", b"n12345")?;
    Ok(parts)
}

/// A key of two values.
fn two_values() -> Result<Key, CaseStop> {
    let home = words(b"A")?;
    Key::of(&[home, Value::Num(42)]).ok_or(CaseStop::NoCase)
}

/// An update of a row under a key of two values.
fn update(alloc: Global) -> Result<Call, CaseStop> {
    let parts = three_parts(alloc)?;
    let key = two_values()?;
    Ok(Call::Update {
        table: 0,
        key,
        parts,
    })
}

/// A transaction of one update of the storm, without its stamps: a column of each of three groups changes, under a key
/// of two values.
pub fn update_packet(alloc: Global) -> Result<Packet, CaseStop> {
    let call = update(alloc)?;
    let txn = txn_of(alloc, call)?;
    carried(alloc, b"A", b"B", txn)
}
