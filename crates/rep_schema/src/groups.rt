//! The columns of a table's groups, and a row's values there.
ghost use Rattle.std.specs.Prelude.{◌≡◌, ◌<◌, ◌≤◌, ◌↔◌, [], ◌∷◌, ◌++◌, ◌==◌, length, slice_get, option_copied, Some, IsTrue, IfOk};
ghost use Rattle.std.specs.List.{list_any};
ghost use Rattle.rep_schema.specs.Limits.{most_columns};
ghost use Rattle.rep_schema.specs.Tables.{columns_of};
ghost use Rattle.rep_schema.specs.Shape.{HasShape};
ghost use Rattle.rep_schema.specs.Groups.{groups_of, is_grouped, shadow_from, named_columns, group_columns_of, values_at, group_values};

use crate::{Column, Group, Schema, columns_of, same_picked};
use rep_lists::{Items, NoMemory};
use rep_values::{Value, same_value};
use std::alloc::Global;
use std::marker::Model;

/// The number of the shadow group. A named group's number is its place.
pub const SHADOW: u8 = 255;

/// The columns of a shadow group. They are kept in place.
#[derive(Drop)]
struct ShadowColumns {
    cells: [u32; 32],
    len: usize,
}

impl Model for ShadowColumns {
    ghost use Rattle.std.specs.Prelude.{ℕ, ◌≤◌, List, take};

    ghost Value = { List ℕ };

    ghost view = { λ g. take g.len g.cells };

    ghost invariant = { λ g. g.len ≤ 32 };
}

impl ShadowColumns {
    fn empty() -> ShadowColumns
        ensures { result ≡ [] }
    {
        ShadowColumns {
            cells: [0; 32],
            len: 0,
        }
    }

    fn add(&mut self, column: u32)
        requires { length self.old < 32 }
        ensures { self.new ≡ self.old ++ column ∷ [] }
    {
        self.cells[self.len] = column;
        self.len += 1;
    }

    fn as_slice(&self) -> &[u32]
        ensures { result.now ≡ self.now }
    {
        &self.cells[..self.len]
    }
}

/// The columns of one group of a table: those of a named group where they stand in the schema, those of the shadow
/// group computed. They take no memory.
#[derive(Drop)]
pub struct GroupColumns<'a> {
    named: &'a [u32],
    shadow: Option<ShadowColumns>,
}

impl<'a> Model for GroupColumns<'a> {
    ghost use Rattle.std.specs.Prelude.{ℕ, List};
    ghost use Rattle.rep_schema.specs.Groups.{held_columns};

    ghost Value = { List ℕ };

    ghost view = { λ g. held_columns g.shadow g.named.now };
}

impl<'a> GroupColumns<'a> {
    fn of_named(named: &'a [u32]) -> GroupColumns<'a>
        ensures { result ≡ named.now }
    {
        GroupColumns {
            named,
            shadow: None,
        }
    }

    fn of_shadow(shadow: ShadowColumns) -> GroupColumns<'a>
        ensures { result ≡ shadow }
    {
        GroupColumns {
            named: &[],
            shadow: Some(shadow),
        }
    }

    /// The places of the columns.
    pub fn as_slice(&self) -> &[u32]
        ensures { result.now ≡ self.now }
    {
        match &self.shadow {
            Some(shadow) => shadow.as_slice(),
            None => self.named,
        }
    }
}

/// The named groups of a table of the schema.
pub fn groups_of(schema: &Schema, table: u32) -> &[Group]
    requires { table < length schema.now.tables }
    ensures { result.now ≡ groups_of schema.now table }
{
    schema.tables.at(table as usize).groups.as_slice()
}

/// Whether a column stands among these.
pub fn has_place(columns: &[u32], place: usize) -> bool
    ensures { result ≡ list_any (λ c. c == place) columns.now }
{
    columns.iter().any(|column| *column as usize == place)
}

/// Whether a column stands in a named group.
pub fn is_grouped(groups: &[Group], column: usize) -> bool
    ensures { result ≡ is_grouped groups.now column }
{
    groups
        .iter()
        .any(|group| has_place(group.columns.as_slice(), column))
}

/// The columns that are no key columns and in no named group.
fn shadow_columns(groups: &[Group], columns: &[Column]) -> ShadowColumns
    requires { length columns.now ≤ most_columns }
    ensures { result ≡ shadow_from groups.now 0 columns.now }
{
    let mut shadow = ShadowColumns::empty();
    for i in 0..columns.len() {
        if !(columns[i].key || is_grouped(groups, i)) {
            shadow.add(i as u32);
        }
    }
    shadow
}

/// The columns of a named group, by its number, where they stand in the schema; none where no group has the number.
pub fn named_columns(groups: &[Group], group: u8) -> &[u32]
    ensures { result.now ≡ named_columns (slice_get groups.now group) }
{
    match groups.get(group as usize) {
        Some(named) => named.columns.as_slice(),
        None => &[],
    }
}

/// The columns of a table's group, by the group's number; none where the table has no such group. The shadow group's
/// are computed at each call, so a caller passes them on.
pub fn group_columns(schema: &Schema, table: u32, group: u8) -> GroupColumns<'_>
    requires table { table < length schema.now.tables }
    requires shape { HasShape schema.now }
    ensures { result ≡ group_columns_of schema.now table group }
{
    if group == SHADOW {
        GroupColumns::of_shadow(shadow_columns(groups_of(schema, table), columns_of(schema, table)))
    } else {
        GroupColumns::of_named(named_columns(groups_of(schema, table), group))
    }
}

/// The value at a place of a row, or none where the row ends before it.
pub fn value_at(row: &[Value], place: u32) -> Option<&Value>
    ensures { option_copied result ≡ slice_get row.now place }
{
    row.get(place as usize)
}

/// A row's values at these places, in their order. It may want memory.
pub fn values_at(alloc: Global, places: &[u32], row: &[Value]) -> Result<Items<Value>, NoMemory>
    ensures { IfOk result (λ values. values ≡ values_at places.now row.now) }
{
    let mut values = Vec::with_capacity(alloc, places.len())?;
    for place in places {
        if let Some(value) = value_at(row, *place) {
            values.push_reserved(*value);
        }
    }
    Ok(Items::from_vec(values))
}

/// Whether a value stands at a place.
fn is_at(values: &[Value], place: usize, value: &Value) -> bool
    ensures { IsTrue result ↔ (slice_get values.now place ≡ Some value.now) }
{
    match values.get(place) {
        Some(found) => same_value(found, value),
        None => false,
    }
}

/// Whether a row has these values at these places.
pub fn has_values(places: &[u32], values: &[Value], row: &[Value]) -> bool
    ensures { IsTrue result ↔ (values_at places.now row.now ≡ values.now) }
{
    let mut read = 0;
    for place in places {
        if let Some(value) = value_at(row, *place) {
            if !is_at(values, read, value) {
                return false;
            }
            read += 1;
        }
    }
    read == values.len()
}

/// Whether two rows of one length have the same values at these places.
pub fn same_values_at(places: &[u32], a: &[Value], b: &[Value]) -> bool
    requires { length a.now ≡ length b.now }
    ensures { IsTrue result ↔ (values_at places.now a.now ≡ values_at places.now b.now) }
{
    same_picked(places, a, b)
}

/// Whether two rows of one length have the same values in a group. A named group is looked at where it stands in the
/// schema.
pub fn same_in_group(schema: &Schema, table: u32, group: u8, a: &[Value], b: &[Value]) -> bool
    requires table { table < length schema.now.tables }
    requires shape { HasShape schema.now }
    requires long { length a.now ≡ length b.now }
    ensures { IsTrue result ↔ (group_values schema.now table group a.now ≡ group_values schema.now table group b.now) }
{
    let groups = groups_of(schema, table);
    if group == SHADOW {
        let shadow = shadow_columns(groups, columns_of(schema, table));
        same_values_at(shadow.as_slice(), a, b)
    } else {
        same_values_at(named_columns(groups, group), a, b)
    }
}
