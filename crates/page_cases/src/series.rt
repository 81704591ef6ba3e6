//! Many rows put or taken by one line.
ghost use Rattle.std.specs.Prelude.{◌≡◌, ◌<◌, ◌≤◌, length, IfOk, IsOk};

use crate::calls::{PutEnding, put_row, table_in, take_key};
use case_reader::{CaseStop, Words};
use rep_schema::{RowStore, columns_of};
use rep_values::{Key, Row, Value};
use std::alloc::Global;

/// Keys that are numbers, which begin again at a number.
#[derive(Clone, Copy)]
struct Series {
    first: u32,
    step: u32,
    count: u32,
    wrap: u32,
}

/// A number below 20,000, so that no sum of such numbers is too large.
fn small(words: &mut Words) -> Result<u32, CaseStop>
    ensures { IfOk result (λ number. number < 20000) }
{
    let number = words.whole()?;
    if number < 20_000 {
        Ok(number as u32)
    } else {
        Err(CaseStop::NoCase)
    }
}

impl Series {
    fn read(words: &mut Words) -> Result<Series, CaseStop>
        ensures { IfOk result (λ s. (s.first < 20000) × (s.step < 20000) × (s.count < 20000) × (s.wrap < 20000)) }
    {
        Ok(Series {
            first: small(words)?,
            step: small(words)?,
            count: small(words)?,
            wrap: small(words)?,
        })
    }

    fn key(&self, number: u32) -> i64
        requires first { self.now.first < 20000 }
        requires step { self.now.step < 20000 }
        requires number { number < 20000 }
    {
        let key = self.first + number * self.step;
        i64::from(key % self.wrap.max(1))
    }
}

/// A row of so many numbers, of which the first is the key and the others are greater by a number.
fn row_of(alloc: Global, width: usize, key: i64, added: i64) -> Result<Row, CaseStop> {
    let mut values = Vec::with_capacity(alloc, width)?;
    for place in 0..width {
        let number = if place == 0 {
            key
        } else {
            key.saturating_add(added)
        };
        values.push(Value::Num(number))?;
    }
    Row::of(alloc, values.as_slice())?.ok_or(CaseStop::NoCase)
}

/// How many puts ended in each way.
#[derive(Clone, Copy)]
struct Counts {
    new: u32,
    replaced: u32,
    refused: u32,
}

impl Counts {
    /// Counts one more put.
    fn add(&mut self, ending: &PutEnding) {
        match ending {
            PutEnding::New => self.new = self.new.saturating_add(1),
            PutEnding::Replaced(_) => self.replaced = self.replaced.saturating_add(1),
            PutEnding::Unfit | PutEnding::Held => self.refused = self.refused.saturating_add(1),
        }
    }

    fn text(&self, alloc: Global) -> Result<String, CaseStop> {
        let (new, replaced, refused) = (self.new, self.replaced, self.refused);
        Ok(format!(in alloc; "{new} new, {replaced} replaced, {refused} refused")?)
    }
}

/// Puts a row of so many numbers, and tells how that ends.
fn put_numbers<R: RowStore>(
    alloc: Global,
    store: &mut R,
    table: u32,
    width: usize,
    key: i64,
    added: i64,
) -> Result<PutEnding, CaseStop> {
    let row = row_of(alloc, width, key, added)?;
    put_row(store, table, row)
}

/// Puts the rows of a series, and counts how the puts end.
fn put_each<R: RowStore>(
    alloc: Global,
    store: &mut R,
    table: u32,
    series: &Series,
    added: i64,
) -> Result<Counts, CaseStop>
    requires table { table < length (R.schema store.old).tables }
    requires first { series.now.first < 20000 }
    requires step { series.now.step < 20000 }
    requires count { series.now.count < 20000 }
{
    let width = columns_of(store.schema(), table).len();
    let mut counts = Counts {
        new: 0,
        replaced: 0,
        refused: 0,
    };
    for number in 0..series.count {
        let ending = put_numbers(alloc, store, table, width, series.key(number), added)?;
        counts.add(&ending);
    }
    Ok(counts)
}

/// Puts the rows of a series, and shows how many puts ended in each way.
pub fn put_series<R: RowStore>(
    alloc: Global,
    store: &mut R,
    words: &mut Words,
) -> Result<String, CaseStop> {
    let table = table_in(store, words)?;
    let series = Series::read(words)?;
    let added = words.number()?;
    words.end()?;
    let counts = put_each(alloc, store, table, &series, added)?;
    counts.text(alloc)
}

/// Whether there was a row with this number as its key; it is taken.
fn take_number<R: RowStore>(store: &mut R, table: u32, number: i64) -> Result<bool, CaseStop> {
    match Key::of(&[Value::Num(number)]) {
        Some(key) => Ok(take_key(store, table, &key)?.is_some()),
        None => Err(CaseStop::NoCase),
    }
}

/// Takes the keys of a series, and counts those that there were.
fn take_each<R: RowStore>(store: &mut R, table: u32, series: &Series) -> Result<u32, CaseStop>
    requires first { series.now.first < 20000 }
    requires step { series.now.step < 20000 }
    requires count { series.now.count < 20000 }
{
    let mut taken = 0u32;
    for number in 0..series.count {
        if take_number(store, table, series.key(number))? {
            taken = taken.saturating_add(1);
        }
    }
    Ok(taken)
}

fn taken_text(alloc: Global, taken: u32) -> Result<String, CaseStop> {
    Ok(format!(in alloc; "{taken} taken")?)
}

/// Takes the keys of a series, and shows how many there were.
pub fn take_series<R: RowStore>(
    alloc: Global,
    store: &mut R,
    words: &mut Words,
) -> Result<String, CaseStop> {
    let table = table_in(store, words)?;
    let series = Series::read(words)?;
    words.end()?;
    let taken = take_each(store, table, &series)?;
    taken_text(alloc, taken)
}
