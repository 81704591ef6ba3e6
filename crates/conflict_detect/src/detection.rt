//! Where a call's old values differ from a row.
ghost use Rattle.std.specs.Prelude.{◌≡◌, ◌<◌, ◌≤◌, length, option_copied, IfSome};
ghost use Rattle.rep_schema.specs.Tables.{columns_of, RowFits};
ghost use Rattle.rep_schema.specs.Shape.{HasShape};
ghost use Rattle.rep_schema.specs.Groups.{values_at, are_same, differ_in, differing_groups};
ghost use Rattle.conflict_detect.specs.Fits.{table_of, CallFits};
ghost use Rattle.conflict_detect.specs.Differing.{is_matched, unmatched_groups, groups_unlike, found_in, found_of};

use crate::GroupSet;
use rep_calls::{Call, Part};
use rep_schema::{
    SHADOW, Schema, group_columns, groups_of, has_values, named_columns, same_in_group,
};
use rep_values::{Row, Value};

/// What detection finds of the row that an update or a delete names.
#[derive(Clone, Copy)]
pub enum Found {
    /// No row has the key.
    NoRow,
    /// No group differs.
    Matches,
    /// These groups differ.
    Differs(GroupSet),
}

/// Whether two rows differ in a group.
fn differ_in(schema: &Schema, table: u32, group: u8, a: &[Value], b: &[Value]) -> bool
    requires table { table < length schema.now.tables }
    requires shape { HasShape schema.now }
    requires long { length a.now ≡ length b.now }
    ensures { result ≡ differ_in schema.now table a.now b.now group }
{
    !same_in_group(schema, table, group, a, b)
}

/// The groups in which two rows of one length differ.
pub(crate) fn differing_groups(schema: &Schema, table: u32, a: &[Value], b: &[Value]) -> GroupSet
    requires table { table < length schema.now.tables }
    requires shape { HasShape schema.now }
    requires long { length a.now ≡ length b.now }
    ensures { result ≡ differing_groups schema.now table a.now b.now }
{
    let named = groups_of(schema, table).len() as u8;
    let mut groups = GroupSet::empty();
    for group in 0..named {
        if differ_in(schema, table, group, a, b) {
            groups.add(group);
        }
    }
    if differ_in(schema, table, SHADOW, a, b) {
        groups.add(SHADOW);
    }
    groups
}

/// Whether a row has a part's old values, at the places of the part's group. A caller that has the places at hand saves
/// looking them up.
pub fn has_old_values(places: &[u32], part: &Part, row: &[Value]) -> bool
    ensures { result ≡ are_same (values_at places.now row.now) part.now.old }
{
    has_values(places, part.old.as_slice(), row)
}

/// Whether a row has a part's old values.
fn is_matched(schema: &Schema, table: u32, row: &[Value], part: &Part) -> bool
    requires table { table < length schema.now.tables }
    requires shape { HasShape schema.now }
    ensures { result ≡ is_matched schema.now table row.now part.now }
{
    if part.group == SHADOW {
        let columns = group_columns(schema, table, part.group);
        return has_old_values(columns.as_slice(), part, row);
    }
    let columns = named_columns(groups_of(schema, table), part.group);
    has_old_values(columns, part, row)
}

/// The groups of the parts whose old values a row hasn't.
fn unmatched_groups(schema: &Schema, table: u32, row: &[Value], parts: &[Part]) -> GroupSet
    requires table { table < length schema.now.tables }
    requires shape { HasShape schema.now }
    requires few { length parts.now ≤ 33 }
    ensures { result ≡ unmatched_groups schema.now table row.now parts.now }
{
    let mut groups = GroupSet::empty();
    for part in parts {
        if !is_matched(schema, table, row, part) {
            groups.add(part.group);
        }
    }
    groups
}

/// The groups in which a call's old values differ from a row.
fn groups_unlike(schema: &Schema, call: &Call, row: &[Value]) -> GroupSet
    requires shape { HasShape schema.now }
    requires fits { CallFits schema.now call.now }
    requires row { RowFits (columns_of schema.now (table_of call.now)) row.now }
    ensures { result ≡ groups_unlike schema.now call.now row.now }
{
    match call {
        Call::Insert { .. } => GroupSet::empty(),
        Call::Update { table, parts, .. } => unmatched_groups(
            schema,
            *table,
            row,
            parts.as_slice(),
        ),
        Call::Delete { table, row: old } => differing_groups(schema, *table, row, old.values()),
    }
}

fn found_in(groups: GroupSet) -> Found
    ensures { result ≡ found_in groups }
{
    if groups.is_empty() {
        Found::Matches
    } else {
        Found::Differs(groups)
    }
}

/// What is found of the row that a call names: no row, exactly where none is given; else the groups in which the
/// call's old values differ from the row, of its parts for an update and of all groups for a delete, where there are
/// any. An insert has no old values. It takes no memory.
pub fn detect(row: Option<&Row>, schema: &Schema, call: &Call) -> Found
    requires shape { HasShape schema.now }
    requires fits { CallFits schema.now call.now }
    requires row { IfSome (option_copied row) (λ row. RowFits (columns_of schema.now (table_of call.now)) row) }
    ensures { result ≡ found_of schema.now call.now (option_copied row.entry) }
{
    match row {
        Some(row) => found_in(groups_unlike(schema, call, row.values())),
        None => Found::NoRow,
    }
}
