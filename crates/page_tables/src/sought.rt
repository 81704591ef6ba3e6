//! What is looked for among slots, and where the rows that they name stand beside it.
ghost use Rattle.std.specs.Prelude.{◌≡◌, ℕ, slice_get, option_copied};
ghost use Rattle.std.specs.declared.cmp.Ordering.{Ordering as Stand};
ghost use Rattle.std.specs.Option.{option_cmp};
ghost use Rattle.std.specs.Ordering.{nat_cmp};
ghost use Rattle.std.specs.Cmp.Lexicographic.{slice_cmp};
ghost use Rattle.rep_values.specs.Order.{value_cmp};
ghost use Rattle.rep_schema.specs.Tables.{row_beside, row_cmp, picked};
ghost use Rattle.page_tables.specs.Slots.{slot_row, row_in};
ghost use Rattle.page_tables.specs.Index.{picked_cmp};

use rep_schema::{Column, compare_rows};
use rep_values::{Row, Value, compare_values};
use std::cmp::Ordering;

/// Texts of at most so many bytes are compared byte by byte.
const FEW_BYTES: usize = 8;

/// A place in an order of rows, which are named by their slots.
pub(crate) trait Sought {
    ghost at: { Self → ℕ → Stand };

    /// Where the row of a slot stands: before the place, at it or behind it.
    fn beside(&self, slot: u32) -> Ordering
        ensures { result ≡ at self.now slot };
}

/// The row of a slot.
pub(crate) fn row_at(rows: &[Option<Row>], slot: u32) -> Option<&Row>
    ensures { option_copied result ≡ slot_row rows.now slot }
{
    match rows.get(slot as usize) {
        Some(Some(row)) => Some(row),
        Some(None) | None => None,
    }
}

/// The values of the row of a slot; none where it has no row.
pub(crate) fn row_in(rows: &[Option<Row>], slot: u32) -> &[Value]
    ensures { result.now ≡ row_in rows.now slot }
{
    match rows.get(slot as usize) {
        Some(Some(row)) => row.values(),
        Some(None) | None => &[],
    }
}

/// Long texts are compared out of line, which keeps a search small.
#[inline(never)]
fn compare_with_text(a: &Value, b: &Value) -> Ordering
    ensures { result ≡ value_cmp a.now b.now }
{
    compare_values(a, b)
}

/// Where bytes stand beside others. They are few, and are compared one by one.
#[inline(always)]
fn compare_bytes(a: &[u8], b: &[u8]) -> Ordering
    ensures { result ≡ slice_cmp nat_cmp a.now b.now }
{
    let mut a_left = a;
    let mut b_left = b;
    while let [x, xs @ ..] = a_left {
        let [y, ys @ ..] = b_left else {
            return Ordering::Greater;
        };
        if x < y {
            return Ordering::Less;
        }
        if x > y {
            return Ordering::Greater;
        }
        a_left = xs;
        b_left = ys;
    }
    if b_left.is_empty() {
        Ordering::Equal
    } else {
        Ordering::Less
    }
}

/// Where a value stands beside another one. Texts of a few bytes, as names of sites mostly are, need no call.
#[inline(always)]
fn compare_in_place(a: &Value, b: &Value) -> Ordering
    ensures { result ≡ value_cmp a.now b.now }
{
    match (a, b) {
        (Value::Num(x), Value::Num(y)) if x < y => Ordering::Less,
        (Value::Num(x), Value::Num(y)) if x > y => Ordering::Greater,
        (Value::Num(_), Value::Num(_)) => Ordering::Equal,
        (Value::Words(x), Value::Words(y)) if x.bytes().len() <= FEW_BYTES => {
            compare_bytes(x.bytes(), y.bytes())
        }
        (Value::Num(_), Value::Words(_)) | (Value::Words(_), _) => compare_with_text(a, b),
    }
}

/// Where a row stands beside a key. It is `compare_row`, in place, since a search makes it at each step.
#[inline(always)]
fn compare_key(columns: &[Column], key: &[Value], row: &[Value]) -> Ordering
    ensures { result ≡ row_beside columns.now key.now row.now }
{
    let mut columns_left = columns;
    let mut key_left = key;
    let mut row_left = row;
    while let [column, columns @ ..] = columns_left {
        let [value, values @ ..] = row_left else {
            break;
        };
        if column.key {
            let [sought, rest @ ..] = key_left else {
                return Ordering::Greater;
            };
            match compare_in_place(value, sought) {
                Ordering::Equal => key_left = rest,
                Ordering::Less => return Ordering::Less,
                Ordering::Greater => return Ordering::Greater,
            }
        }
        columns_left = columns;
        row_left = values;
    }
    if key_left.is_empty() {
        Ordering::Equal
    } else {
        Ordering::Less
    }
}

/// Where a row stands beside another one in the order of keys. It is `compare_rows`, in place.
#[inline(always)]
fn compare_by_key(columns: &[Column], a: &[Value], b: &[Value]) -> Ordering
    ensures { result ≡ row_cmp columns.now a.now b.now }
{
    let mut columns_left = columns;
    let mut a_left = a;
    let mut b_left = b;
    while let [column, columns @ ..] = columns_left {
        let [x, xs @ ..] = a_left else {
            return compare_rows(columns_left, a_left, b_left);
        };
        let [y, ys @ ..] = b_left else {
            return compare_rows(columns_left, a_left, b_left);
        };
        if column.key {
            match compare_in_place(x, y) {
                Ordering::Equal => {}
                Ordering::Less => return Ordering::Less,
                Ordering::Greater => return Ordering::Greater,
            }
        }
        columns_left = columns;
        a_left = xs;
        b_left = ys;
    }
    Ordering::Equal
}

fn compare_cell(a: &[Value], b: &[Value], place: u32) -> Ordering
    ensures { result ≡ option_cmp value_cmp (slice_get a.now place) (slice_get b.now place) }
{
    match (a.get(place as usize), b.get(place as usize)) {
        (Some(x), Some(y)) => compare_values(x, y),
        (None, None) => Ordering::Equal,
        (None, Some(_)) => Ordering::Less,
        (Some(_), None) => Ordering::Greater,
    }
}

/// Where a row stands beside another one by the values at these places.
pub(crate) fn compare_picked(places: &[u32], a: &[Value], b: &[Value]) -> Ordering
    ensures { result ≡ picked_cmp (picked places.now a.now) (picked places.now b.now) }
{
    for place in places {
        match compare_cell(a, b, *place) {
            Ordering::Equal => {}
            Ordering::Less => return Ordering::Less,
            Ordering::Greater => return Ordering::Greater,
        }
    }
    Ordering::Equal
}

/// The row with a key.
#[derive(Clone, Copy)]
pub(crate) struct ByKey<'a> {
    pub rows: &'a [Option<Row>],
    pub columns: &'a [Column],
    pub key: &'a [Value],
}

impl<'a> Sought for ByKey<'a> {
    ghost at = { λ s slot. row_beside s.columns.now s.key.now (row_in s.rows.now slot) };

    #[inline(always)]
    fn beside(&self, slot: u32) -> Ordering {
        compare_key(self.columns, self.key, row_in(self.rows, slot))
    }
}

/// The row with another row's key.
#[derive(Clone, Copy)]
pub(crate) struct ByRow<'a> {
    pub rows: &'a [Option<Row>],
    pub columns: &'a [Column],
    pub row: &'a [Value],
}

impl<'a> Sought for ByRow<'a> {
    ghost at = { λ s slot. row_cmp s.columns.now (row_in s.rows.now slot) s.row.now };

    #[inline(always)]
    fn beside(&self, slot: u32) -> Ordering {
        compare_by_key(self.columns, row_in(self.rows, slot), self.row)
    }
}

/// The row with another row's values at some places.
#[derive(Clone, Copy)]
pub(crate) struct ByValues<'a> {
    pub rows: &'a [Option<Row>],
    pub places: &'a [u32],
    pub row: &'a [Value],
}

impl<'a> Sought for ByValues<'a> {
    ghost at = { λ s slot. picked_cmp (picked s.places.now (row_in s.rows.now slot)) (picked s.places.now s.row.now) };

    fn beside(&self, slot: u32) -> Ordering {
        compare_picked(self.places, row_in(self.rows, slot), self.row)
    }
}
