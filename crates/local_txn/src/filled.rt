//! The columns that a site fills, and the stamps that it fills in.
ghost use Rattle.std.specs.Prelude.{◌≡◌, ℕ, ◌≤◌, ◌<◌, ◌||◌, ◌&&◌, length, pos, max, false};
ghost use Rattle.std.specs.List.{list_any, AllByRecursion};
ghost use Rattle.rep_values.specs.declared.value.Value.TheVariants.{Num};
ghost use Rattle.rep_schema.specs.Groups.{group_columns_of};
ghost use Rattle.rep_schema.specs.Limits.{most_columns};
ghost use Rattle.rep_schema.specs.Shape.{HasShape};
ghost use Rattle.rep_schema.specs.Tables.{columns_of};
ghost use Rattle.rep_schema.specs.Kinds.{is_filled, is_stamp, has_place};
ghost use Rattle.txn_effects.specs.Filled.{filling_value, filled_from, filled_row, everywhere, is_modified, above_value, bound_from, has_stamp_from, next_stamp, made_with};
ghost use Rattle.txn_effects.specs.Stamps.{capped, first_outside};
ghost use Rattle.txn_effects.specs.Chosen.{chosen_at, is_modified_in};

use rep_schema::{
    Column, SHADOW, Schema, columns_of, group_columns, groups_of, named_columns, same_values_at,
};
use rep_values::{Row, SiteName, Value};
use txn_effects::{RowMade, Stamps, stamp_above};

/// Whether a site fills one of the columns.
pub(crate) fn has_filled(columns: &[Column]) -> bool
    ensures { result ≡ list_any is_filled columns.now }
{
    columns.iter().any(|column| column.is_filled())
}

fn is_chosen(chosen: &[bool], place: usize) -> bool
    ensures { result ≡ chosen_at chosen.now place }
{
    match chosen.get(place) {
        Some(mark) => *mark,
        None => false,
    }
}

/// Whether a column at a place is a STAMP that is filled in.
fn gets_stamp(column: &Column, chosen: &[bool], place: usize) -> bool
    ensures { result ≡ (chosen_at chosen.now place && is_stamp column.now.kind) }
{
    is_chosen(chosen, place) && column.kind.is_stamp()
}

/// Whether a column at a place is filled in.
fn gets_filled(column: &Column, chosen: &[bool], place: usize) -> bool
    ensures { result ≡ (chosen_at chosen.now place && is_filled column.now) }
{
    is_chosen(chosen, place) && column.is_filled()
}

fn choose(places: &[u32], chosen: &mut [bool; 32])
    requires { AllByRecursion (λ place. place < 32) places.now }
    ensures { (place : ℕ) → chosen_at chosen.new place ≡ (chosen_at chosen.old place || has_place places.now place) }
{
    for place in places {
        chosen[*place as usize] = true;
    }
}

/// Marks the columns at these places of a group, where two rows differ in them.
fn choose_differing(
    schema: &Schema,
    table: u32,
    group: u8,
    columns: &[u32],
    before: &[Value],
    after: &[Value],
    chosen: &mut [bool; 32],
)
    requires table { table < length schema.now.tables }
    requires shape { HasShape schema.now }
    requires columns { columns.now ≡ group_columns_of schema.now table group }
    requires long { length before.now ≡ length after.now }
    ensures { (place : ℕ) → chosen_at chosen.new place ≡ (chosen_at chosen.old place || is_modified_in schema.now table before.now after.now group place) }
{
    if !same_values_at(columns, before, after) {
        choose(columns, chosen);
    }
}

/// Marks the columns of a group in which two rows differ.
fn choose_modified(
    schema: &Schema,
    table: u32,
    group: u8,
    before: &[Value],
    after: &[Value],
    chosen: &mut [bool; 32],
)
    requires table { table < length schema.now.tables }
    requires shape { HasShape schema.now }
    requires long { length before.now ≡ length after.now }
    ensures { (place : ℕ) → chosen_at chosen.new place ≡ (chosen_at chosen.old place || is_modified_in schema.now table before.now after.now group place) }
{
    if group == SHADOW {
        let columns = group_columns(schema, table, group);
        choose_differing(
            schema,
            table,
            group,
            columns.as_slice(),
            before,
            after,
            chosen,
        );
    } else {
        let columns = named_columns(groups_of(schema, table), group);
        choose_differing(schema, table, group, columns, before, after, chosen);
    }
}

/// The columns of the groups in which two rows differ.
fn modified_places(schema: &Schema, table: u32, before: &[Value], after: &[Value]) -> [bool; 32]
    requires table { table < length schema.now.tables }
    requires shape { HasShape schema.now }
    requires long { length before.now ≡ length after.now }
    ensures { (place : ℕ) → chosen_at result place ≡ is_modified schema.now table before.now after.now place }
{
    let named = groups_of(schema, table).len() as u8;
    let mut chosen = [false; 32];
    for group in 0..named {
        choose_modified(schema, table, group, before, after, &mut chosen);
    }
    choose_modified(schema, table, SHADOW, before, after, &mut chosen);
    chosen
}

/// The least number above a stamp, which is never below 0.
fn above_value(value: &Value) -> u64
    ensures { result ≡ above_value value.now }
{
    match value {
        Value::Num(number) => { if *number >= 0 { *number as u64 + 1 } else { 0 } }
        Value::Words(_) => 0,
    }
}

/// The least number above each stamp that a row has at the chosen places.
fn bound(columns: &[Column], chosen: &[bool], row: &[Value]) -> u64
    requires { length columns.now ≡ length row.now }
    ensures { result ≡ bound_from (chosen_at chosen.now) 0 columns.now row.now }
{
    let mut bound = 0;
    for i in 0..columns.len() {
        if gets_stamp(&columns[i], chosen, i) {
            bound = bound.max(above_value(&row[i]));
        }
    }
    bound
}

/// Whether one of the columns at the chosen places is a STAMP.
fn has_stamp(columns: &[Column], chosen: &[bool]) -> bool
    ensures { result ≡ has_stamp_from (chosen_at chosen.now) 0 columns.now }
{
    for i in 0..columns.len() {
        if gets_stamp(&columns[i], chosen, i) {
            return true;
        }
    }
    false
}

fn filling_value(column: &Column, stamp: u64, site: &SiteName) -> Value
    requires { stamp ≤ first_outside }
    ensures { result ≡ filling_value (record { stamp = stamp; site = site.now }) column.now }
{
    if column.kind.is_stamp() {
        Value::Num(stamp as i64)
    } else {
        Value::Words(site.0.text())
    }
}

/// Fills the columns at the chosen places of a row in.
fn fill(columns: &[Column], chosen: &[bool], stamp: u64, site: &SiteName, row: &mut Row)
    requires stamp { stamp ≤ first_outside }
    requires long { length columns.now ≡ length row.old }
    ensures { row.new ≡ filled_from (record { stamp = stamp; site = site.now }) (chosen_at chosen.now) 0 columns.now row.old }
{
    for i in 0..columns.len() {
        let column = &columns[i];
        if gets_filled(column, chosen, i) {
            row.set(i, filling_value(column, stamp, site));
        }
    }
}

/// Fills all filled columns of a base row in, with stamp 0 and a site's name.
pub(crate) fn fill_everywhere(columns: &[Column], site: &SiteName, row: &mut Row)
    requires few { length columns.now ≤ most_columns }
    requires long { length columns.now ≡ length row.old }
    ensures { row.new ≡ filled_row (record { stamp = 0; site = site.now }) columns.now row.old }
{
    fill(columns, &[true; 32], 0, site, row);
}

/// A row with the columns at the chosen places filled in, with the next stamp above a bound.
fn made_with(
    columns: &[Column],
    stamps: &Stamps,
    site: &SiteName,
    chosen: &[bool],
    bound: u64,
    row: Row,
) -> RowMade
    requires { length columns.now ≡ length row }
    ensures { result ≡ made_with columns.now site.now stamps.now.last (chosen_at chosen.now) (capped (next_stamp stamps.now bound)) row }
{
    let stamp = stamp_above(stamps.clock, stamps.last, bound);
    let mut row = row;
    fill(columns, chosen, stamp, site, &mut row);
    RowMade {
        row,
        last: if has_stamp(columns, chosen) {
            stamp
        } else {
            stamps.last
        },
    }
}

/// A new row, filled in everywhere. The stamp is one that no row may have where it isn't in range.
pub(crate) fn inserted(columns: &[Column], stamps: &Stamps, site: &SiteName, row: Row) -> RowMade
    requires few { length columns.now ≤ most_columns }
    requires long { length columns.now ≡ length row }
    ensures { result ≡ made_with columns.now site.now stamps.now.last everywhere (capped (next_stamp stamps.now 0)) row }
{
    if !has_filled(columns) {
        return RowMade {
            row,
            last: stamps.last,
        };
    }
    made_with(columns, stamps, site, &[true; 32], 0, row)
}

/// A row that takes another's place, filled in in the groups that are modified. The stamp is one that no row may have
/// where it isn't in range.
pub(crate) fn updated(
    schema: &Schema,
    table: u32,
    stamps: &Stamps,
    site: &SiteName,
    before: &[Value],
    row: Row,
) -> RowMade
    requires table { table < length schema.now.tables }
    requires shape { HasShape schema.now }
    requires before { length (columns_of schema.now table) ≡ length before.now }
    requires long { length (columns_of schema.now table) ≡ length row }
    ensures { result ≡ made_with (columns_of schema.now table) site.now stamps.now.last (is_modified schema.now table before.now row)
        (capped (next_stamp stamps.now (bound_from (is_modified schema.now table before.now row) 0 (columns_of schema.now table) before.now))) row }
{
    let columns = columns_of(schema, table);
    if !has_filled(columns) {
        return RowMade {
            row,
            last: stamps.last,
        };
    }
    let chosen = modified_places(schema, table, before, row.values());
    let bound = bound(columns, &chosen, before);
    made_with(columns, stamps, site, &chosen, bound, row)
}
