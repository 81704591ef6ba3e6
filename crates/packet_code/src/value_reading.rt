//! Names, values, rows and keys, read from bytes.
ghost use Rattle.std.specs.Prelude.{◌≡◌, ◌+◌, ◌<◌, ◌≤◌, vec_len, vec_capacity, OnOk, IfErr};
ghost use Rattle.rep_schema.specs.Fitting.{is_in_range};
ghost use Rattle.packet_code.specs.declared.stop.Stop.TheVariants.{Form};
ghost use Rattle.packet_code.specs.Forms.{site, number_value, text_value, value, values, row, key};
ghost use Rattle.packet_code.specs.Reading.{times};
ghost use Rattle.packet_code.specs.Readers.{Reads, ReadsInto, Adds};

use crate::reader::Reader;
use crate::repeated::{Piece, limited};
use crate::stop::Stop;
use rep_lists::Items;
use rep_values::{Key, Name, Row, SiteName, Text, Value};
use std::alloc::Global;

/// The name of a site.
pub fn site(bytes: &mut Reader<'_>) -> Result<SiteName, Stop>
    ensures read { Reads site result bytes.old bytes.new }
    ensures form { IfErr result (λ stop. stop ≡ Form) }
{
    match Name::of(bytes.sized()?) {
        Some(name) => Ok(SiteName(name)),
        None => Err(Stop::Form),
    }
}

fn is_in_range(number: i64) -> bool
    ensures { result ≡ is_in_range number }
{
    rep_schema::is_in_range(number)
}

fn number_value(bytes: &mut Reader<'_>) -> Result<Value, Stop>
    ensures { Reads number_value result bytes.old bytes.new }
{
    let number = bytes.u64_number()?.cast_signed();
    if !is_in_range(number) {
        return Err(Stop::Form);
    }
    Ok(Value::Num(number))
}

fn text_value(bytes: &mut Reader<'_>) -> Result<Value, Stop>
    ensures { Reads text_value result bytes.old bytes.new }
{
    match Text::of(bytes.sized()?) {
        Some(text) => Ok(Value::Words(text)),
        None => Err(Stop::Form),
    }
}

#[inline(always)]
#[tactic(auto, unfolding(crate::specs::Forms::value), using(crate::proofs::Behind::read_behind))]
fn value(bytes: &mut Reader<'_>) -> Result<Value, Stop>
    ensures { Reads value result bytes.old bytes.new }
{
    let kind = bytes.byte()?;
    match kind {
        1 => number_value(bytes),
        2 => text_value(bytes),
        _ => Err(Stop::Form),
    }
}

fn add_number(bytes: &mut Reader<'_>, found: &mut Vec<Value>) -> Result<(), Stop>
    requires { vec_len found.old < vec_capacity found.old }
    ensures added { Adds number_value result bytes.old bytes.new found.old.items found.new.items }
    ensures number { OnOk result (vec_len found.new ≡ vec_len found.old + 1) }
    ensures room { OnOk result (vec_capacity found.new ≡ vec_capacity found.old) }
{
    found.push_reserved(number_value(bytes)?);
    Ok(())
}

fn add_text(bytes: &mut Reader<'_>, found: &mut Vec<Value>) -> Result<(), Stop>
    requires { vec_len found.old < vec_capacity found.old }
    ensures added { Adds text_value result bytes.old bytes.new found.old.items found.new.items }
    ensures number { OnOk result (vec_len found.new ≡ vec_len found.old + 1) }
    ensures room { OnOk result (vec_capacity found.new ≡ vec_capacity found.old) }
{
    found.push_reserved(text_value(bytes)?);
    Ok(())
}

/// Each kind is put where it stays on its own, so that a number moves no bytes of a text.
#[inline(always)]
#[tactic(auto, unfolding(crate::specs::Forms::value), using(crate::proofs::Behind::add_behind))]
fn add_value(bytes: &mut Reader<'_>, found: &mut Vec<Value>) -> Result<(), Stop>
    requires { vec_len found.old < vec_capacity found.old }
    ensures added { Adds value result bytes.old bytes.new found.old.items found.new.items }
    ensures number { OnOk result (vec_len found.new ≡ vec_len found.old + 1) }
    ensures room { OnOk result (vec_capacity found.new ≡ vec_capacity found.old) }
{
    let kind = bytes.byte()?;
    match kind {
        1 => add_number(bytes, found),
        2 => add_text(bytes, found),
        _ => Err(Stop::Form),
    }
}

impl Piece for Value {
    ghost reading = { value };

    fn add(_alloc: Global, bytes: &mut Reader<'_>, found: &mut Vec<Value>) -> Result<(), Stop> {
        add_value(bytes, found)
    }
}

/// A count, and so many values, at most this many.
fn values(alloc: Global, bytes: &mut Reader<'_>, most: usize) -> Result<Items<Value>, Stop>
    ensures { Reads (values most) result bytes.old bytes.new }
{
    let count = bytes.byte()?;
    limited::<Value>(alloc, bytes, most, count as usize)
}

/// The values of a row.
#[tactic(auto, unfolding(crate::specs::Forms::row))]
pub fn row_values(alloc: Global, bytes: &mut Reader<'_>) -> Result<Items<Value>, Stop>
    ensures { Reads row result bytes.old bytes.new }
{
    values(alloc, bytes, 32)
}

/// A row.
#[tactic(auto, using(crate::proofs::Lengths::row_length))]
pub fn row(alloc: Global, bytes: &mut Reader<'_>) -> Result<Row, Stop>
    ensures { Reads row result bytes.old bytes.new }
{
    let values = row_values(alloc, bytes)?;
    match Row::from_items(values) {
        Some(row) => Ok(row),
        None => Err(Stop::Form),
    }
}

/// A key of so many values, read into its place.
fn key_values(bytes: &mut Reader<'_>, count: usize, into: &mut Key) -> Result<(), Stop>
    requires some { 1 ≤ count }
    requires most { count ≤ 4 }
    ensures { ReadsInto (times count value) result bytes.old bytes.new into.new }
{
    *into = Key::first(value(bytes)?);
    for _ in 1..count {
        into.push(value(bytes)?);
    }
    Ok(())
}

/// A key, read into its place, since it is large. It takes no memory.
#[tactic(auto, unfolding(crate::specs::Forms::key))]
pub fn key_into(bytes: &mut Reader<'_>, into: &mut Key) -> Result<(), Stop>
    ensures { ReadsInto key result bytes.old bytes.new into.new }
{
    let count = bytes.byte()? as usize;
    if count < 1 || count > 4 {
        return Err(Stop::Form);
    }
    key_values(bytes, count, into)
}
