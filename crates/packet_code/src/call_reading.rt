//! Parts, calls and transactions, read from bytes.
ghost use Rattle.std.specs.Prelude.{◌≡◌, ◌+◌, ◌<◌, vec_len, vec_capacity, OnOk};
ghost use Rattle.rep_schema.specs.Groups.{are_same};
ghost use Rattle.packet_code.specs.Forms.{part, parts, insert, update, delete, call, txn};
ghost use Rattle.packet_code.specs.Readers.{Reads, Adds};

use crate::limits::{groups_rise, is_group_number};
use crate::reader::Reader;
use crate::repeated::{Piece, limited, times};
use crate::stop::Stop;
use crate::value_reading::{key_into, row, row_values};
use rep_calls::{Call, Part, Txn};
use rep_lists::Items;
use rep_values::{Key, Value};
use std::alloc::Global;

fn are_same(a: &[Value], b: &[Value]) -> bool
    ensures { result ≡ are_same a.now b.now }
{
    a == b
}

/// A group, its old values, and as many new ones.
#[tactic(auto, unfolding(crate::specs::Forms::part))]
fn part(alloc: Global, bytes: &mut Reader<'_>) -> Result<Part, Stop>
    ensures { Reads part result bytes.old bytes.new }
{
    let group = bytes.byte()?;
    let old = row_values(alloc, bytes)?;
    let new = times::<Value>(alloc, bytes, old.len())?;
    if !is_group_number(group) {
        return Err(Stop::Form);
    }
    if are_same(old.as_slice(), new.as_slice()) {
        return Err(Stop::Form);
    }
    Ok(Part { group, old, new })
}

impl Piece for Part {
    ghost reading = { part };

    fn add(alloc: Global, bytes: &mut Reader<'_>, found: &mut Vec<Part>) -> Result<(), Stop> {
        found.push_reserved(part(alloc, bytes)?);
        Ok(())
    }
}

/// A count, and so many parts.
#[tactic(auto, unfolding(crate::specs::Forms::parts))]
fn parts(alloc: Global, bytes: &mut Reader<'_>) -> Result<Items<Part>, Stop>
    ensures { Reads parts result bytes.old bytes.new }
{
    let count = bytes.byte()?;
    let parts = limited::<Part>(alloc, bytes, 33, count as usize)?;
    if !groups_rise(parts.as_slice()) {
        return Err(Stop::Form);
    }
    Ok(parts)
}

fn add_insert(alloc: Global, bytes: &mut Reader<'_>, found: &mut Vec<Call>) -> Result<(), Stop>
    requires { vec_len found.old < vec_capacity found.old }
    ensures added { Adds insert result bytes.old bytes.new found.old.items found.new.items }
    ensures number { OnOk result (vec_len found.new ≡ vec_len found.old + 1) }
    ensures room { OnOk result (vec_capacity found.new ≡ vec_capacity found.old) }
{
    let table = bytes.u16_number()? as u32;
    let row = row(alloc, bytes)?;
    found.push_reserved(Call::Insert { table, row });
    Ok(())
}

fn add_update(alloc: Global, bytes: &mut Reader<'_>, found: &mut Vec<Call>) -> Result<(), Stop>
    requires { vec_len found.old < vec_capacity found.old }
    ensures added { Adds update result bytes.old bytes.new found.old.items found.new.items }
    ensures number { OnOk result (vec_len found.new ≡ vec_len found.old + 1) }
    ensures room { OnOk result (vec_capacity found.new ≡ vec_capacity found.old) }
{
    let table = bytes.u16_number()? as u32;
    // The key is read over this one, since it is large and would be moved with each answer.
    let mut key = Key::first(Value::Num(0));
    key_into(bytes, &mut key)?;
    let parts = parts(alloc, bytes)?;
    found.push_reserved(Call::Update { table, key, parts });
    Ok(())
}

fn add_delete(alloc: Global, bytes: &mut Reader<'_>, found: &mut Vec<Call>) -> Result<(), Stop>
    requires { vec_len found.old < vec_capacity found.old }
    ensures added { Adds delete result bytes.old bytes.new found.old.items found.new.items }
    ensures number { OnOk result (vec_len found.new ≡ vec_len found.old + 1) }
    ensures room { OnOk result (vec_capacity found.new ≡ vec_capacity found.old) }
{
    let table = bytes.u16_number()? as u32;
    let row = row(alloc, bytes)?;
    found.push_reserved(Call::Delete { table, row });
    Ok(())
}

/// An insert, an update or a delete. A key is large, so a call is put where it stays as soon as it is read.
#[tactic(auto, unfolding(crate::specs::Forms::call), using(crate::proofs::Behind::add_behind))]
fn add_call(alloc: Global, bytes: &mut Reader<'_>, found: &mut Vec<Call>) -> Result<(), Stop>
    requires { vec_len found.old < vec_capacity found.old }
    ensures added { Adds call result bytes.old bytes.new found.old.items found.new.items }
    ensures number { OnOk result (vec_len found.new ≡ vec_len found.old + 1) }
    ensures room { OnOk result (vec_capacity found.new ≡ vec_capacity found.old) }
{
    let kind = bytes.byte()?;
    match kind {
        1 => add_insert(alloc, bytes, found),
        2 => add_update(alloc, bytes, found),
        3 => add_delete(alloc, bytes, found),
        _ => Err(Stop::Form),
    }
}

impl Piece for Call {
    ghost reading = { call };

    fn add(alloc: Global, bytes: &mut Reader<'_>, found: &mut Vec<Call>) -> Result<(), Stop> {
        add_call(alloc, bytes, found)
    }
}

/// A count, and so many calls. The count is tested before memory is taken.
#[tactic(auto, unfolding(crate::specs::Forms::txn))]
pub fn txn(alloc: Global, bytes: &mut Reader<'_>) -> Result<Txn, Stop>
    ensures { Reads txn result bytes.old bytes.new }
{
    let count = bytes.u32_number()?;
    let calls = limited::<Call>(alloc, bytes, 1000, count as usize)?;
    Ok(Txn::of(alloc, calls)?)
}
