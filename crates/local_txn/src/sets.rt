//! What an update sets.
ghost use Rattle.std.specs.Prelude.{◌≡◌, ◌<◌, ◌≤◌, length, map, option_copied, true, pos, Some, IfOk, IfErr};
ghost use Rattle.std.specs.List.{position};
ghost use Rattle.std.specs.Ordering.{int_cmp};
ghost use Rattle.rep_values.specs.Order.{value_cmp};
ghost use Rattle.rep_schema.specs.Limits.{most_columns};
ghost use Rattle.rep_schema.specs.Shape.{AreDistinct};
ghost use Rattle.rep_schema.specs.Named.{is_column};
ghost use Rattle.rep_schema.specs.Kinds.{row_in_range};
ghost use Rattle.txn_effects.specs.Sets.{names_columns, takes_how, takes_set, value_after, value_by};
ghost use Rattle.txn_effects.specs.ByColumn.{set_at, takes_each, fills_some, row_by, where_in_range, row_where_in_range, AreSets, names_refusal};

use rep_calls::{How, Set};
use rep_schema::{Column, is_of_kind, value_in_range};
use rep_values::{Name, Refusal, Row, Value, compare_values};
use schema_names::{column_place, has_column};
use std::cmp::Ordering;
use std::marker::Model;

/// What is set of each column of a table. It is kept in place and takes no memory.
#[derive(Drop)]
pub(crate) struct SetsByColumn<'a> {
    sets: &'a [Set],
    cells: [Option<u8>; 32],
    len: usize,
}

impl<'a> Model for SetsByColumn<'a> {
    ghost use Rattle.std.specs.Prelude.{ℕ, ◌≤◌, List, Option, map, take};
    ghost use Rattle.rep_calls.specs.declared.statement.Set.{Set as SetValue};
    ghost use Rattle.txn_effects.specs.ByColumn.{set_of};

    ghost Value = { List (Option SetValue) };

    ghost view = { λ s. map (set_of s.sets.now) (take s.len s.cells) };

    ghost invariant = { λ s. s.len ≤ 32 };
}

/// The place of the column of a name, which is looked for at one place first.
fn place_near(columns: &[Column], name: &Name, near: usize) -> Option<usize>
    requires { AreDistinct (map (λ c. c.name) columns.now) }
    ensures { result ≡ position (is_column name.now) columns.now }
{
    if near < columns.len() && columns[near].name.is_same(name) {
        return Some(near);
    }
    column_place(columns, name)
}

/// Whether each set names a column.
fn names_columns(columns: &[Column], sets: &[Set]) -> bool
    ensures { result ≡ names_columns columns.now sets.now }
{
    sets.iter().all(|set| has_column(columns, &set.column))
}

/// Why more sets than a table has columns are refused: one names no column, or two name the same one.
fn many_refusal(columns: &[Column], sets: &[Set]) -> Refusal
    requires { length columns.now < length sets.now }
    ensures { names_refusal columns.now sets.now ≡ Some result }
{
    if names_columns(columns, sets) {
        Refusal::RowShape
    } else {
        Refusal::UnknownName
    }
}

impl<'a> SetsByColumn<'a> {
    /// What these sets set of each column. Else a name is unknown, or a column is named twice.
    pub(crate) fn of(columns: &[Column], sets: &'a [Set]) -> Result<SetsByColumn<'a>, Refusal>
        requires few { length columns.now ≤ most_columns }
        requires apart { AreDistinct (map (λ c. c.name) columns.now) }
        ensures ok { IfOk result (AreSets columns.now sets.now) }
        ensures err { IfErr result (λ why. names_refusal columns.now sets.now ≡ Some why) }
    {
        // A number has 8 bits, which keeps the cells small.
        if sets.len() > 32 {
            return Err(many_refusal(columns, sets));
        }
        let mut cells = [None; 32];
        let mut twice = false;
        // Sets are mostly in the order of the columns.
        let mut near = columns.len().saturating_sub(1);
        for i in (0..sets.len()).rev() {
            let set = &sets[i];
            let Some(place) = place_near(columns, &set.column, near) else {
                return Err(Refusal::UnknownName);
            };
            near = place.saturating_sub(1);
            twice = twice || cells[place].is_some();
            cells[place] = Some(i as u8);
        }
        if twice {
            return Err(Refusal::RowShape);
        }
        Ok(SetsByColumn {
            sets,
            cells,
            len: columns.len(),
        })
    }

    /// What is set of the column at a place.
    pub(crate) fn at(&self, place: usize) -> Option<&'a Set>
        ensures { option_copied result ≡ set_at self.now place }
    {
        if place >= self.len {
            return None;
        }
        match self.cells[place] {
            Some(number) => self.sets.get(number as usize),
            None => None,
        }
    }
}

fn takes_how(column: &Column, how: &How) -> bool
    ensures { result ≡ takes_how column.now how.now }
{
    match how {
        How::To(literal) => is_of_kind(column.kind, literal),
        How::Add(_) => column.kind.takes_amounts(),
    }
}

fn takes_set(column: &Column, set: Option<&Set>) -> bool
    ensures { result ≡ takes_set column.now (option_copied set.entry) }
{
    match set {
        None => true,
        Some(set) => !column.key && takes_how(column, &set.how),
    }
}

/// Whether each column takes what is set of it.
pub(crate) fn takes_each(columns: &[Column], sets: &SetsByColumn) -> bool
    ensures { result ≡ takes_each columns.now sets.now }
{
    for i in 0..columns.len() {
        if !takes_set(&columns[i], sets.at(i)) {
            return false;
        }
    }
    true
}

/// Whether something is set of a column that the site fills.
pub(crate) fn fills_some(columns: &[Column], sets: &SetsByColumn) -> bool
    ensures { result ≡ fills_some columns.now sets.now }
{
    for i in 0..columns.len() {
        if columns[i].is_filled() && sets.at(i).is_some() {
            return true;
        }
    }
    false
}

fn where_in_range(value: Value) -> Option<Value>
    ensures { result ≡ where_in_range value }
{
    if value_in_range(&value) {
        Some(value)
    } else {
        None
    }
}

/// A value after what is done to it; None where a number leaves its range.
fn value_after(how: &How, old: &Value) -> Option<Value>
    ensures { result ≡ where_in_range (value_after how.now old.now) }
{
    match (how, old) {
        (How::To(literal), Value::Num(_) | Value::Words(_)) => where_in_range(literal.value()),
        (How::Add(amount), Value::Num(number)) => {
            where_in_range(Value::Num(number.checked_add(*amount)?))
        }
        (How::Add(_), Value::Words(_)) => Some(*old),
    }
}

/// The row with what is set of its columns; None where a number leaves its range.
pub(crate) fn set_row(sets: &SetsByColumn, row: Row) -> Option<Row>
    requires { row_in_range row ≡ true }
    ensures { result ≡ row_where_in_range (row_by sets.now row) }
{
    let mut row = row;
    for i in 0..row.values().len() {
        if let Some(set) = sets.at(i) {
            let value = value_after(&set.how, &row.values()[i])?;
            row.set(i, value);
        }
    }
    Some(row)
}

/// How a number stands to another one plus it.
fn order_of_amount(amount: i64) -> Ordering
    ensures { result ≡ int_cmp amount (pos 0) }
{
    amount.cmp(&0)
}

/// How a value after what is set of it stands to the value before.
pub(crate) fn order_after(set: Option<&Set>, old: &Value) -> Ordering
    ensures { result ≡ value_cmp (value_by (option_copied set.entry) old.now) old.now }
{
    match set {
        None => Ordering::Equal,
        Some(set) => order_of(&set.how, old),
    }
}

fn order_of(how: &How, old: &Value) -> Ordering
    ensures { result ≡ value_cmp (value_after how.now old.now) old.now }
{
    match (how, old) {
        (How::To(literal), Value::Num(_) | Value::Words(_)) => {
            compare_values(&literal.value(), old)
        }
        (How::Add(amount), Value::Num(_)) => order_of_amount(*amount),
        (How::Add(_), Value::Words(_)) => Ordering::Equal,
    }
}
