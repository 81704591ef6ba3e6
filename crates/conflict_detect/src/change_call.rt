//! The calls that changed rows are sent as.
ghost use Rattle.std.specs.Prelude.{◌≡◌, ◌<◌, length, map, IfOk};
ghost use Rattle.std.specs.List.{AllByRecursion};
ghost use Rattle.rep_schema.specs.Tables.{columns_of, key_of, RowFits, IsKeyed};
ghost use Rattle.rep_schema.specs.Shape.{HasShape};
ghost use Rattle.rep_schema.specs.Groups.{values_at};
ghost use Rattle.rep_schema.specs.Changes.{ChangeFits};
ghost use Rattle.rep_calls.specs.declared.call.Call.TheVariants.{Update};
ghost use Rattle.conflict_detect.specs.ChangeCalls.{part_between, parts_between, call_of};

use crate::detection::differing_groups;
use rep_calls::{Call, Part, Txn};
use rep_lists::{Copies, Items, NoMemory};
use rep_schema::{
    Change, SHADOW, Schema, columns_of, group_columns, groups_of, key_of, named_columns, values_at,
};
use rep_values::{Row, Value};
use std::alloc::Global;

/// What two rows have at the places of a group's columns, old and new.
fn part_at(
    alloc: Global,
    group: u8,
    places: &[u32],
    before: &[Value],
    after: &[Value],
) -> Result<Part, NoMemory>
    ensures { IfOk result (λ part. part ≡ record { group = group; old = values_at places.now before.now; new = values_at places.now after.now }) }
{
    Ok(Part {
        group,
        old: values_at(alloc, places, before)?,
        new: values_at(alloc, places, after)?,
    })
}

/// All values of a group, old and new.
fn part_between(
    alloc: Global,
    schema: &Schema,
    table: u32,
    before: &[Value],
    after: &[Value],
    group: u8,
) -> Result<Part, NoMemory>
    requires table { table < length schema.now.tables }
    requires shape { HasShape schema.now }
    ensures { IfOk result (λ part. part ≡ part_between schema.now table before.now after.now group) }
{
    if group == SHADOW {
        let columns = group_columns(schema, table, group);
        return part_at(alloc, group, columns.as_slice(), before, after);
    }
    let columns = named_columns(groups_of(schema, table), group);
    part_at(alloc, group, columns, before, after)
}

/// A part for each group in which two rows of one length differ.
fn parts_between(
    alloc: Global,
    schema: &Schema,
    table: u32,
    before: &[Value],
    after: &[Value],
) -> Result<Items<Part>, NoMemory>
    requires table { table < length schema.now.tables }
    requires shape { HasShape schema.now }
    requires long { length before.now ≡ length after.now }
    ensures { IfOk result (λ parts. parts ≡ parts_between schema.now table before.now after.now) }
{
    let groups = differing_groups(schema, table, before, after);
    let mut parts = Vec::with_capacity(alloc, groups.as_slice().len())?;
    for group in groups.as_slice() {
        parts.push_reserved(part_between(alloc, schema, table, before, after, *group)?);
    }
    Ok(Items::from_vec(parts))
}

/// The update of a row that another one with its key takes the place of.
fn update_between(
    alloc: Global,
    schema: &Schema,
    table: u32,
    before: &Row,
    after: &Row,
) -> Result<Call, NoMemory>
    requires table { table < length schema.now.tables }
    requires shape { HasShape schema.now }
    requires keyed { IsKeyed (columns_of schema.now table) }
    requires before { RowFits (columns_of schema.now table) before.now }
    requires after { RowFits (columns_of schema.now table) after.now }
    ensures { IfOk result (λ call. call
        ≡ Update table (key_of (columns_of schema.now table) before.now) (parts_between schema.now table before.now after.now)) }
{
    Ok(Call::Update {
        table,
        key: key_of(columns_of(schema, table), before.values()),
        parts: parts_between(alloc, schema, table, before.values(), after.values())?,
    })
}

/// The call of a changed row: an insert, a delete, or an update with the parts of the changed groups, each with all
/// columns of its group, named groups in declared order and the shadow group last. It may want memory.
pub fn call_of(alloc: Global, schema: &Schema, change: &Change) -> Result<Call, NoMemory>
    requires shape { HasShape schema.now }
    requires fits { ChangeFits schema.now change.now }
    ensures { IfOk result (λ call. call ≡ call_of schema.now change.now) }
{
    let table = change.table;
    match (&change.before, &change.after) {
        (Some(before), Some(after)) => update_between(alloc, schema, table, before, after),
        (Some(before), None) => Ok(Call::Delete {
            table,
            row: before.copy(alloc)?,
        }),
        (None, Some(after)) => Ok(Call::Insert {
            table,
            row: after.copy(alloc)?,
        }),
        (None, None) => unreachable!(),
    }
}

/// The transaction of changed rows: the call of each, in order. It may want memory.
pub fn txn_of(alloc: Global, schema: &Schema, changes: &[Change]) -> Result<Txn, NoMemory>
    requires shape { HasShape schema.now }
    requires fits { AllByRecursion (ChangeFits schema.now) changes.now }
    ensures { IfOk result (λ txn. txn.calls ≡ map (call_of schema.now) changes.now) }
{
    let mut calls = Vec::with_capacity(alloc, changes.len())?;
    for change in changes {
        calls.push_reserved(call_of(alloc, schema, change)?);
    }
    Txn::of(alloc, Items::from_vec(calls))
}
