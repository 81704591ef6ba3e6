//! The methods of a violated constraint, tried in sequence.
ghost use Rattle.std.specs.Prelude.{◌≡◌, ℕ, List, ◌∷◌, ◌<◌, length, true, false, Some, None, IsSomeAnd, decimal, option_copied, slice_get, slice_set, if◌then◌else◌};
ghost use Rattle.std.specs.List.{list_all};
ghost use Rattle.rep_values.specs.Text.{is_text_byte};
ghost use Rattle.rep_schema.specs.declared.schema.Constraint.{Constraint as ConstraintValue};
ghost use Rattle.rep_schema.specs.declared.schema.UniqueMethod.{UniqueMethod as MethodValue};
ghost use Rattle.rep_schema.specs.Tables.{columns_of, constraints_of, constraint_columns_of, rows_of, picked};
ghost use Rattle.unique_resolve.specs.Appending.{appended};
ghost use Rattle.unique_resolve.specs.Settling.{is_held, helping, settled_by, settled_one, settled_each};
ghost use Rattle.unique_resolve.specs.Trying.{IsAsked, IsTestable, HasBefore, tried_by, followed};

use crate::Settled;
use crate::appending::value_appended;
use itoa::Buffer;
use rep_schema::{
    Constraint, RowStore, UniqueMethod, columns_of, constraint_columns, constraint_count,
    constraints_of, same_picked,
};
use rep_values::{Row, SiteName, Value};

/// A secondary constraint of a table, both by their places.
#[derive(Clone, Copy)]
pub struct ConstraintPlace {
    pub table: u32,
    pub place: u32,
}

/// What came of one method.
#[derive(Clone, Copy)]
pub(crate) enum Tried {
    Helps,
    GivesUp,
    Fails,
}

/// Whether a row with another key has the row's values in a constraint.
fn is_held<R: RowStore>(store: &R, at: ConstraintPlace, row: &Row) -> bool
    requires { IsTestable (R.schema store.now) (R.tables store.now) at.table at.place row.now }
    ensures { result ≡ is_held (columns_of (R.schema store.now) at.table) (constraint_columns_of (R.schema store.now) at.table at.place) (rows_of (R.tables store.now) at.table) row.now }
{
    store.holds_unique(at.table, at.place, row)
}

/// Whether the row before has a row's values at these places.
fn is_kept(places: &[u32], before: Option<&Row>, row: &Row) -> bool
    ensures { result ≡ true → IsSomeAnd (option_copied before.entry) (λ before. picked places.now before ≡ picked places.now row.now) }
{
    match before {
        Some(before) => same_picked(places, before.values(), row.values()),
        None => false,
    }
}

/// Whether a row violates a secondary constraint: a row with another key has its values there. The row before is the one
/// with its key, if it is given. Where the row has what that one has there, it is as unique, and no other row is looked at.
pub fn is_violated<R: RowStore>(
    store: &R,
    at: ConstraintPlace,
    before: Option<&Row>,
    row: &Row,
) -> bool
    requires testable { IsTestable (R.schema store.now) (R.tables store.now) at.table at.place row.now }
    requires before { HasBefore (R.schema store.now) (R.tables store.now) at.table (option_copied before) row.now }
    ensures { result ≡ is_held (columns_of (R.schema store.now) at.table) (constraint_columns_of (R.schema store.now) at.table at.place) (rows_of (R.tables store.now) at.table) row.now }
{
    let places = constraint_columns(store.schema(), at.table, at.place);
    !is_kept(places, before, row) && is_held(store, at, row)
}

/// Puts a value into a row, and hands back the one that was there.
fn replace(row: &mut Row, place: usize, value: Value) -> Value
    requires { place < length row.old }
    ensures row { row.new ≡ slice_set row.old place value }
    ensures before { slice_set row.new place result ≡ row.old }
{
    let before = row.values()[place];
    row.set(place, value);
    before
}

fn tried_by(helps: bool) -> Tried
    ensures { result ≡ tried_by helps }
{
    if helps { Tried::Helps } else { Tried::Fails }
}

/// A constraint of a store's table in which a row from an origin is settled.
#[derive(Drop)]
struct Settling<'a, R> {
    store: &'a R,
    at: ConstraintPlace,
    origin: &'a SiteName,
}

impl<'a, R: RowStore> Settling<'a, R> {
    /// Puts bytes behind the text in a column where that helps. Else the row stays as it is.
    fn append_helps(&self, column: u32, bytes: &[u8], row: &mut Row) -> bool
        requires testable { IsTestable (R.schema self.now.store.now) (R.tables self.now.store.now) self.now.at.table self.now.at.place row.old }
        requires bytes { list_all is_text_byte bytes.now ≡ true }
        ensures helped { helping (columns_of (R.schema self.now.store.now) self.now.at.table) (constraint_columns_of (R.schema self.now.store.now) self.now.at.table self.now.at.place) (rows_of (R.tables self.now.store.now) self.now.at.table)
            (appended (columns_of (R.schema self.now.store.now) self.now.at.table) (constraint_columns_of (R.schema self.now.store.now) self.now.at.table self.now.at.place) column bytes.now row.old)
            ≡ (if result then Some row.new else None) }
        ensures kept { result ≡ false → row.new ≡ row.old }
        ensures testable { IsTestable (R.schema self.now.store.now) (R.tables self.now.store.now) self.now.at.table self.now.at.place row.new }
    {
        let columns = columns_of(self.store.schema(), self.at.table);
        let places = constraint_columns(self.store.schema(), self.at.table, self.at.place);
        let Some(longer) = value_appended(columns, places, column, bytes, row.values()) else {
            return false;
        };
        let before = replace(row, column as usize, longer);
        if is_held(self.store, self.at, row) {
            row.set(column as usize, before);
            return false;
        }
        true
    }

    /// Puts the origin's name behind the text in a column where that helps.
    fn append_name(&self, column: u32, row: &mut Row) -> bool
        requires { IsTestable (R.schema self.now.store.now) (R.tables self.now.store.now) self.now.at.table self.now.at.place row.old }
        ensures helped { helping (columns_of (R.schema self.now.store.now) self.now.at.table) (constraint_columns_of (R.schema self.now.store.now) self.now.at.table self.now.at.place) (rows_of (R.tables self.now.store.now) self.now.at.table)
            (appended (columns_of (R.schema self.now.store.now) self.now.at.table) (constraint_columns_of (R.schema self.now.store.now) self.now.at.table self.now.at.place) column self.now.origin.now.0 row.old)
            ≡ (if result then Some row.new else None) }
        ensures kept { result ≡ false → row.new ≡ row.old }
        ensures testable { IsTestable (R.schema self.now.store.now) (R.tables self.now.store.now) self.now.at.table self.now.at.place row.new }
    {
        self.append_helps(column, self.origin.0.bytes(), row)
    }

    /// Puts a number in decimal behind the text in a column where that helps.
    fn append_number(&self, column: u32, number: u64, row: &mut Row) -> bool
        requires { IsTestable (R.schema self.now.store.now) (R.tables self.now.store.now) self.now.at.table self.now.at.place row.old }
        ensures helped { helping (columns_of (R.schema self.now.store.now) self.now.at.table) (constraint_columns_of (R.schema self.now.store.now) self.now.at.table self.now.at.place) (rows_of (R.tables self.now.store.now) self.now.at.table)
            (appended (columns_of (R.schema self.now.store.now) self.now.at.table) (constraint_columns_of (R.schema self.now.store.now) self.now.at.table self.now.at.place) column (decimal number) row.old)
            ≡ (if result then Some row.new else None) }
        ensures kept { result ≡ false → row.new ≡ row.old }
        ensures testable { IsTestable (R.schema self.now.store.now) (R.tables self.now.store.now) self.now.at.table self.now.at.place row.new }
    {
        let mut buffer = Buffer::new();
        self.append_helps(column, buffer.format(number).as_bytes(), row)
    }

    /// Tries one method of a violated constraint. Where it fails, the row stays as it is.
    fn try_method(&self, method: &UniqueMethod, row: &mut Row, number: &mut u64) -> Tried
        requires { IsTestable (R.schema self.now.store.now) (R.tables self.now.store.now) self.now.at.table self.now.at.place row.old }
        ensures step { (constraint : ConstraintValue) (methods : List MethodValue) → slice_get (constraints_of (R.schema self.now.store.now) self.now.at.table) self.now.at.place ≡ Some constraint
            → settled_by (columns_of (R.schema self.now.store.now) self.now.at.table) constraint (rows_of (R.tables self.now.store.now) self.now.at.table) self.now.origin.now (method.now ∷ methods) row.old number.old
            ≡ followed result row.new number.new (settled_by (columns_of (R.schema self.now.store.now) self.now.at.table) constraint (rows_of (R.tables self.now.store.now) self.now.at.table) self.now.origin.now methods row.new number.new) }
        ensures testable { IsTestable (R.schema self.now.store.now) (R.tables self.now.store.now) self.now.at.table self.now.at.place row.new }
    {
        match method {
            UniqueMethod::AppendSite(column) => tried_by(self.append_name(*column, row)),
            UniqueMethod::AppendSequence(column) => {
                *number = number.saturating_add(1);
                tried_by(self.append_number(*column, *number, row))
            }
            UniqueMethod::Discard => Tried::GivesUp,
        }
    }

    /// Tries the methods of the constraint, which is violated, in sequence.
    fn settle_by(&self, constraint: &Constraint, mut row: Row, number: &mut u64) -> Settled
        requires testable { IsTestable (R.schema self.now.store.now) (R.tables self.now.store.now) self.now.at.table self.now.at.place row }
        requires constraint { slice_get (constraints_of (R.schema self.now.store.now) self.now.at.table) self.now.at.place ≡ Some constraint.now }
        ensures { settled_by (columns_of (R.schema self.now.store.now) self.now.at.table) constraint.now (rows_of (R.tables self.now.store.now) self.now.at.table) self.now.origin.now constraint.now.methods row number.old
            ≡ record { settled = result; number = number.new } }
    {
        for method in constraint.methods.as_slice() {
            match self.try_method(method, &mut row, number) {
                Tried::Helps => return Settled::Fits(row),
                Tried::GivesUp => return Settled::Dropped,
                Tried::Fails => {}
            }
        }
        Settled::Conflict(constraint.name)
    }

    /// Settles a row in the constraint. One that doesn't violate it fits.
    fn settle_one(&self, before: Option<&Row>, row: Row, number: &mut u64) -> Settled
        requires testable { IsTestable (R.schema self.now.store.now) (R.tables self.now.store.now) self.now.at.table self.now.at.place row }
        requires before { HasBefore (R.schema self.now.store.now) (R.tables self.now.store.now) self.now.at.table (option_copied before) row }
        ensures { (constraint : ConstraintValue) → slice_get (constraints_of (R.schema self.now.store.now) self.now.at.table) self.now.at.place ≡ Some constraint
            → settled_one (columns_of (R.schema self.now.store.now) self.now.at.table) (rows_of (R.tables self.now.store.now) self.now.at.table) self.now.origin.now constraint row number.old
            ≡ record { settled = result; number = number.new } }
    {
        if !is_violated(self.store, self.at, before, &row) {
            return Settled::Fits(row);
        }
        let constraints = constraints_of(self.store.schema(), self.at.table);
        self.settle_by(&constraints[self.at.place as usize], row, number)
    }
}

/// Settles one constraint after another, each with its number. The first one that isn't settled ends it.
pub(crate) fn settle_each<R: RowStore>(
    store: &R,
    table: u32,
    before: Option<&Row>,
    mut row: Row,
    origin: &SiteName,
    numbers: &mut [u64],
) -> Settled
    requires asked { IsAsked (R.schema store.now) table row }
    requires before { HasBefore (R.schema store.now) (R.tables store.now) table (option_copied before) row }
    requires numbers { length numbers.old ≡ length (constraints_of (R.schema store.now) table) }
    ensures { settled_each (columns_of (R.schema store.now) table) (rows_of (R.tables store.now) table) origin.now (constraints_of (R.schema store.now) table) numbers.old row
        ≡ record { settled = result; numbers = numbers.new } }
{
    for place in 0..constraint_count(store.schema(), table) {
        let settling = Settling {
            store,
            at: ConstraintPlace {
                table,
                place: place as u32,
            },
            origin,
        };
        match settling.settle_one(before, row, &mut numbers[place]) {
            Settled::Fits(next) => row = next,
            Settled::Dropped => return Settled::Dropped,
            Settled::Conflict(name) => return Settled::Conflict(name),
        }
    }
    Settled::Fits(row)
}
