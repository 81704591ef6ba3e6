//! What convergent tables bar.
ghost use Rattle.std.specs.Prelude.{◌≡◌, ◌<◌, ◌&&◌, true, false, not, cond, length, slice_get, option_copied};
ghost use Rattle.std.specs.Ordering.{is_lt};
ghost use Rattle.std.specs.List.{find};
ghost use Rattle.rep_values.specs.declared.value.Value.TheVariants.{Words};
ghost use Rattle.rep_values.specs.declared.refusal.Refusal.TheVariants.{KeyNotOwn};
ghost use Rattle.rep_values.specs.RefusalSteps.{refused};
ghost use Rattle.rep_schema.specs.Tables.{cell_cmp, columns_of};
ghost use Rattle.rep_schema.specs.Groups.{groups_of};
ghost use Rattle.schema_rules.specs.Forms.{form_of};
ghost use Rattle.txn_effects.specs.Convergent.{is_convergent, side_of, is_other, mixes, barred, begins_with, breaks, broken_group, rule_step};
ghost use Rattle.txn_effects.specs.ByColumn.{row_by};

use crate::progress::BlockProgress;
use crate::sets::{SetsByColumn, order_after};
use rep_schema::{Column, Group, Schema, columns_of, groups_of, value_at};
use rep_values::{Refusal, SiteName, Value};
use schema_rules::{Form, form_of};
use std::cmp::Ordering;
use txn_effects::Side;

/// Whether a table is convergent.
fn is_convergent(schema: &Schema, table: u32) -> bool
    requires { table < length schema.now.tables }
    ensures { result ≡ is_convergent schema.now table }
{
    schema.tables.at(table as usize).convergent
}

/// Which tables a statement on a table is on.
pub(crate) fn side_of(schema: &Schema, table: u32) -> Side
    requires { table < length schema.now.tables }
    ensures { result ≡ side_of schema.now table }
{
    if is_convergent(schema, table) {
        Side::Convergent
    } else {
        Side::Ordinary
    }
}

fn is_other(before: Side, side: Side) -> bool
    ensures { result ≡ is_other before side }
{
    match (before, side) {
        (Side::Convergent, Side::Convergent) | (Side::Ordinary, Side::Ordinary) => false,
        (Side::Convergent, Side::Ordinary) | (Side::Ordinary, Side::Convergent) => true,
    }
}

/// Whether the statements before are on the other tables.
fn mixes(before: Option<Side>, side: Side) -> bool
    ensures { result ≡ mixes before side }
{
    match before {
        None => false,
        Some(before) => is_other(before, side),
    }
}

/// Why a statement that convergent tables don't bar is barred on a table, if it is: by the tables of the statements before.
pub(crate) fn mix_refusal(schema: &Schema, side: Option<Side>, table: u32) -> Option<Refusal>
    requires { table < length schema.now.tables }
    ensures { result ≡ barred schema.now side table false }
{
    if mixes(side, side_of(schema, table)) {
        return Some(Refusal::Barred);
    }
    None
}

/// Why a statement that convergent tables bar is barred on a table, if it is: by the table, or by the tables of the
/// statements before.
pub(crate) fn bar_refusal(schema: &Schema, side: Option<Side>, table: u32) -> Option<Refusal>
    requires { table < length schema.now.tables }
    ensures { result ≡ barred schema.now side table true }
{
    if is_convergent(schema, table) {
        return Some(Refusal::Barred);
    }
    mix_refusal(schema, side, table)
}

/// Why a new row is barred in a table, if it is. Convergent tables bar new rows where the site is no master.
pub(crate) fn insert_refusal(
    schema: &Schema,
    footing: &BlockProgress,
    table: u32,
) -> Option<Refusal>
    requires { table < length schema.now.tables }
    ensures { result ≡ barred schema.now footing.now.side table (not footing.now.here.is_master) }
{
    if footing.here.is_master {
        mix_refusal(schema, footing.side, table)
    } else {
        bar_refusal(schema, footing.side, table)
    }
}

/// Whether a key begins with a site's name.
fn begins_with(site: &SiteName, key: &[Value]) -> bool
    ensures { result ≡ begins_with (Words site.now.0) key.now }
{
    match key.first() {
        Some(Value::Words(text)) => text.bytes() == site.0.bytes(),
        Some(Value::Num(_)) | None => false,
    }
}

/// Why a new row in a convergent table may not have its key, if it may not.
pub(crate) fn own_key_refusal(
    schema: &Schema,
    site: &SiteName,
    table: u32,
    key: &[Value],
) -> Option<Refusal>
    requires { table < length schema.now.tables }
    ensures { result ≡ refused (is_convergent schema.now table && not (begins_with (Words site.now.0) key.now)) KeyNotOwn }
{
    if is_convergent(schema, table) && !begins_with(site, key) {
        return Some(Refusal::KeyNotOwn);
    }
    None
}

/// How the value of a column after what is set of it stands to the value before.
fn order_at(before: &[Value], sets: &SetsByColumn, column: u32) -> Ordering
    ensures { result ≡ cell_cmp (slice_get (row_by sets.now before.now) column) (slice_get before.now column) }
{
    match value_at(before, column) {
        Some(value) => order_after(sets.at(column as usize), value),
        None => Ordering::Equal,
    }
}

fn falls(before: &[Value], sets: &SetsByColumn, column: u32) -> bool
    ensures { result ≡ is_lt (cell_cmp (slice_get (row_by sets.now before.now) column) (slice_get before.now column)) }
{
    order_at(before, sets, column) == Ordering::Less
}

fn grows(before: &[Value], sets: &SetsByColumn, column: u32) -> bool
    ensures { result ≡ is_lt (cell_cmp (slice_get before.now column) (slice_get (row_by sets.now before.now) column)) }
{
    order_at(before, sets, column) == Ordering::Greater
}

/// Whether a number that only grows becomes less, or one that only becomes less grows.
fn breaks(form: Option<Form>, before: &[Value], sets: &SetsByColumn) -> bool
    ensures { result ≡ breaks form before.now (row_by sets.now before.now) }
{
    match form {
        Some(Form::Greatest(column)) => falls(before, sets, column),
        Some(Form::Least(column)) => grows(before, sets, column),
        None | Some(Form::Sum) | Some(Form::Latest { .. }) => false,
    }
}

fn breaks_group(columns: &[Column], group: &Group, before: &[Value], sets: &SetsByColumn) -> bool
    ensures { result ≡ breaks (form_of columns.now group.now) before.now (row_by sets.now before.now) }
{
    breaks(form_of(columns, group), before, sets)
}

/// The first group of a table whose form an update breaks.
fn broken_group<'a>(
    columns: &[Column],
    groups: &'a [Group],
    before: &[Value],
    sets: &SetsByColumn,
) -> Option<&'a Group>
    ensures { option_copied result ≡ find (λ group. breaks (form_of columns.now group) before.now (row_by sets.now before.now)) groups.now }
{
    groups
        .iter()
        .find(|group| breaks_group(columns, group, before, sets))
}

/// Why an update breaks the forms of a convergent table's groups, if it does.
pub(crate) fn rule_refusal(
    schema: &Schema,
    table: u32,
    before: &[Value],
    sets: &SetsByColumn,
) -> Option<Refusal>
    requires { table < length schema.now.tables }
    ensures { result ≡ rule_step schema.now table before.now (row_by sets.now before.now) }
{
    if !is_convergent(schema, table) {
        return None;
    }
    match broken_group(
        columns_of(schema, table),
        groups_of(schema, table),
        before,
        sets,
    ) {
        Some(group) => Some(Refusal::RuleBroken(group.name)),
        None => None,
    }
}
