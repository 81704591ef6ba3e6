//! The parts of an update, settled against the row that is there.
ghost use Rattle.std.specs.Prelude.{◌≡◌, ◌<◌, cond, length, Ok, Err, IfErr, OnOk};
ghost use Rattle.std.specs.List.{AllByRecursion};
ghost use Rattle.rep_schema.specs.Tables.{columns_of, RowFits};
ghost use Rattle.rep_schema.specs.Shape.{HasShape};
ghost use Rattle.rep_schema.specs.Groups.{group_columns_of, with_values};
ghost use Rattle.conflict_detect.specs.Fits.{PartFits};
ghost use Rattle.conflict_detect.specs.Differing.{is_matched};
ghost use Rattle.resolve_methods.specs.declared.decision.Decision.TheVariants.{TakeNew};
ghost use Rattle.resolve_methods.specs.Decide.{decision_of};
ghost use Rattle.txn_effects.specs.Parts.{settled_part, settled_parts};

use conflict_detect::has_old_values;
use rep_calls::Part;
use rep_schema::{SHADOW, Schema, group_columns, groups_of, named_columns};
use rep_values::{ApplyError, Row, Value};
use resolve_methods::{Decision, decide};
use schema_names::group_name;

/// Puts values at these places of a row.
fn set_values(places: &[u32], values: &[Value], row: &mut Row)
    requires { AllByRecursion (λ place. place < length row.old) places.now }
    ensures { row.new ≡ with_values places.now values.now row.old }
{
    for i in 0..places.len().min(values.len()) {
        row.set(places[i] as usize, values[i]);
    }
}

/// What is to be taken for a part of a group with these columns: the new values where the row has the old ones; else the
/// group's methods decide.
fn decision_for(schema: &Schema, table: u32, columns: &[u32], part: &Part, row: &Row) -> Decision
    requires table { table < length schema.now.tables }
    requires shape { HasShape schema.now }
    requires columns { columns.now ≡ group_columns_of schema.now table part.now.group }
    requires part { PartFits schema.now table part.now }
    requires row { RowFits (columns_of schema.now table) row.now }
    ensures { result ≡ cond (is_matched schema.now table row.now part.now) TakeNew (decision_of schema.now table part.now row.now) }
{
    if has_old_values(columns, part, row.values()) {
        return Decision::TakeNew;
    }
    decide(schema, table, part, row)
}

/// Settles a part of a group with these columns against a row.
fn settle_part_at(
    schema: &Schema,
    table: u32,
    columns: &[u32],
    part: &Part,
    row: &mut Row,
) -> Result<(), ApplyError>
    requires table { table < length schema.now.tables }
    requires shape { HasShape schema.now }
    requires columns { columns.now ≡ group_columns_of schema.now table part.now.group }
    requires part { PartFits schema.now table part.now }
    requires row { RowFits (columns_of schema.now table) row.old }
    ensures ok { OnOk result (settled_part schema.now table part.now row.old ≡ Ok row.new) }
    ensures err { IfErr result (λ error. settled_part schema.now table part.now row.old ≡ Err error) }
{
    match decision_for(schema, table, columns, part, row) {
        Decision::TakeNew => {
            set_values(columns, part.new.as_slice(), row);
            Ok(())
        }
        Decision::TakeNumber(number) => {
            set_values(columns, &[Value::Num(number)], row);
            Ok(())
        }
        Decision::Keep => Ok(()),
        Decision::Undecided => Err(ApplyError::UpdateConflict(group_name(
            schema, table, part.group,
        ))),
        Decision::Range => Err(ApplyError::ValueRange),
    }
}

/// Settles a part against a row.
fn settle_part(schema: &Schema, table: u32, part: &Part, row: &mut Row) -> Result<(), ApplyError>
    requires table { table < length schema.now.tables }
    requires shape { HasShape schema.now }
    requires part { PartFits schema.now table part.now }
    requires row { RowFits (columns_of schema.now table) row.old }
    ensures ok { OnOk result (settled_part schema.now table part.now row.old ≡ Ok row.new) }
    ensures err { IfErr result (λ error. settled_part schema.now table part.now row.old ≡ Err error) }
{
    if part.group == SHADOW {
        let columns = group_columns(schema, table, part.group);
        return settle_part_at(schema, table, columns.as_slice(), part, row);
    }
    let columns = named_columns(groups_of(schema, table), part.group);
    settle_part_at(schema, table, columns, part, row)
}

/// Settles the parts in order, up to the first that can't be settled.
pub(crate) fn settle_parts(
    schema: &Schema,
    table: u32,
    parts: &[Part],
    row: &mut Row,
) -> Result<(), ApplyError>
    requires table { table < length schema.now.tables }
    requires shape { HasShape schema.now }
    requires parts { AllByRecursion (PartFits schema.now table) parts.now }
    requires row { RowFits (columns_of schema.now table) row.old }
    ensures ok { OnOk result (settled_parts schema.now table parts.now row.old ≡ Ok row.new) }
    ensures err { IfErr result (λ error. settled_parts schema.now table parts.now row.old ≡ Err error) }
{
    for part in parts {
        settle_part(schema, table, part, row)?;
    }
    Ok(())
}
