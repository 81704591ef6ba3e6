//! Whether a transaction fits a schema.
ghost use Rattle.std.specs.Prelude.{◌≡◌, ◌<◌, ◌↔◌, length, map, slice_get, IsTrue};
ghost use Rattle.std.specs.List.{AllByRecursion};
ghost use Rattle.std.specs.List.Sorted.{IsStrictlyIncreasing};
ghost use Rattle.rep_schema.specs.Tables.{key_columns, RowFits};
ghost use Rattle.rep_schema.specs.Shape.{HasShape};
ghost use Rattle.rep_schema.specs.Groups.{values_at};
ghost use Rattle.conflict_detect.specs.Fits.{table_of, FitsThere, IsGroupOf, ValuesFit, PartFits, UpdateFits, CallFits, TxnFits};
ghost use Rattle.conflict_detect.specs.FitTests.{txn_fits};

use rep_calls::{Call, Part, Txn};
use rep_schema::{
    Column, Kind, SHADOW, Schema, columns_of, fits_kind, group_columns, groups_of, named_columns,
    row_fits,
};
use rep_values::{Key, Value, same_values};

/// Whether a column of this kind may hold the value at a place, and there is one.
fn fits_there(kind: Kind, values: &[Value], place: usize) -> bool
    ensures { IsTrue result ↔ FitsThere kind (slice_get values.now place) }
{
    match values.get(place) {
        Some(value) => fits_kind(kind, value),
        None => false,
    }
}

/// Whether values fit the columns at these places.
fn values_fit(columns: &[Column], places: &[u32], values: &[Value]) -> bool
    requires { AllByRecursion (λ place. place < length columns.now) places.now }
    ensures { IsTrue result ↔ RowFits (values_at places.now columns.now) values.now }
{
    for i in 0..places.len() {
        if !fits_there(columns[places[i] as usize].kind, values, i) {
            return false;
        }
    }
    places.len() == values.len()
}

/// Whether values fit the key columns.
fn key_fits(columns: &[Column], key: &[Value]) -> bool
    ensures { IsTrue result ↔ RowFits (key_columns columns.now) key.now }
{
    let mut read = 0;
    for column in columns {
        if column.key {
            if !fits_there(column.kind, key, read) {
                return false;
            }
            read += 1;
        }
    }
    read == key.len()
}

fn is_group_of(schema: &Schema, table: u32, group: u8) -> bool
    requires { table < length schema.now.tables }
    ensures { IsTrue result ↔ IsGroupOf schema.now table group }
{
    (group as usize) < groups_of(schema, table).len() || group == SHADOW
}

/// Whether a part's values fit the columns at these places, and differ.
fn part_fits_at(columns: &[Column], places: &[u32], part: &Part) -> bool
    requires { AllByRecursion (λ place. place < length columns.now) places.now }
    ensures { IsTrue result ↔ ValuesFit (values_at places.now columns.now) part.now }
{
    if !values_fit(columns, places, part.old.as_slice()) {
        return false;
    }
    if !values_fit(columns, places, part.new.as_slice()) {
        return false;
    }
    !same_values(part.old.as_slice(), part.new.as_slice())
}

fn part_fits(schema: &Schema, table: u32, part: &Part) -> bool
    requires table { table < length schema.now.tables }
    requires shape { HasShape schema.now }
    ensures { IsTrue result ↔ PartFits schema.now table part.now }
{
    if !is_group_of(schema, table, part.group) {
        return false;
    }
    let columns = columns_of(schema, table);
    if part.group == SHADOW {
        let group = group_columns(schema, table, part.group);
        return part_fits_at(columns, group.as_slice(), part);
    }
    part_fits_at(
        columns,
        named_columns(groups_of(schema, table), part.group),
        part,
    )
}

fn each_part_fits(schema: &Schema, table: u32, parts: &[Part]) -> bool
    requires table { table < length schema.now.tables }
    requires shape { HasShape schema.now }
    ensures { IsTrue result ↔ AllByRecursion (PartFits schema.now table) parts.now }
{
    for part in parts {
        if !part_fits(schema, table, part) {
            return false;
        }
    }
    true
}

/// Whether each part's group is above the one before it.
fn groups_rise(parts: &[Part]) -> bool
    ensures { IsTrue result ↔ IsStrictlyIncreasing (map (λ part. part.group) parts.now) }
{
    for i in 1..parts.len() {
        if parts[i].group <= parts[i - 1].group {
            return false;
        }
    }
    true
}

fn update_fits(schema: &Schema, table: u32, key: &Key, parts: &[Part]) -> bool
    requires table { table < length schema.now.tables }
    requires shape { HasShape schema.now }
    ensures { IsTrue result ↔ UpdateFits schema.now table key.now parts.now }
{
    if parts.is_empty() {
        return false;
    }
    if !key_fits(columns_of(schema, table), key.values()) {
        return false;
    }
    if !each_part_fits(schema, table, parts) {
        return false;
    }
    groups_rise(parts)
}

/// The table that a call names.
pub fn table_of(call: &Call) -> u32
    ensures { result ≡ table_of call.now }
{
    match call {
        Call::Insert { table, .. } | Call::Update { table, .. } | Call::Delete { table, .. } =>
            *table,
    }
}

/// Whether a call fits the schema, as `fits` says it of each call of a transaction. It takes no memory.
pub fn call_fits(schema: &Schema, call: &Call) -> bool
    requires { HasShape schema.now }
    ensures { IsTrue result ↔ CallFits schema.now call.now }
{
    if table_of(call) as usize >= schema.tables.len() {
        return false;
    }
    match call {
        Call::Insert { table, row } | Call::Delete { table, row } => {
            row_fits(columns_of(schema, *table), row.values())
        }
        Call::Update { table, key, parts } => update_fits(schema, *table, key, parts.as_slice()),
    }
}

fn each_call_fits(schema: &Schema, calls: &[Call]) -> bool
    requires { HasShape schema.now }
    ensures { IsTrue result ↔ AllByRecursion (CallFits schema.now) calls.now }
{
    for call in calls {
        if !call_fits(schema, call) {
            return false;
        }
    }
    true
}

/// Whether each call's table is the schema's, each row has its table's columns in number and kind, each key the key
/// columns, and each update at least one part, whose groups are the table's and rise, whose values match the group's
/// columns and whose old and new values differ; and every number lies within ±10^15. It takes no memory.
pub fn fits(schema: &Schema, txn: &Txn) -> bool
    requires { HasShape schema.now }
    ensures value { result ≡ txn_fits schema.now txn.now }
    ensures meaning { IsTrue result ↔ TxnFits schema.now txn.now }
{
    each_call_fits(schema, txn.calls.as_slice())
}
