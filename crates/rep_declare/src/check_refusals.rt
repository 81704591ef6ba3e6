//! Why a check is refused: its names, then the limit, then the kind of its value, then the value's range.
ghost use Rattle.std.specs.Prelude.{◌≡◌};
ghost use Rattle.rep_schema.specs.declared.check.Rel.{Rel};
ghost use Rattle.rep_values.specs.RefusalSteps.{first_refusal};
ghost use Rattle.rep_declare.specs.declared.declaration.Declare.{Declare};
ghost use Rattle.rep_declare.specs.Refusals.{declare_refusal};

use crate::limits::MOST_CHECKS;
use crate::refusals::value_is_in_range;
use rep_schema::{Schema, is_of_kind};
use rep_values::{Limit, Literal, Name, Refusal, TableName};
use schema_names::{find_check, find_column, find_table};

/// Why a check of a table is refused, whatever its relation is.
pub fn check_refusal(
    schema: &Schema,
    table: &TableName,
    check: &Name,
    column: &Name,
    value: &Literal,
) -> Option<Refusal>
    ensures { (rel : Rel) → result ≡ declare_refusal schema.now (Declare.Check table.now check.now column.now rel value.now) }
{
    let Some(table) = find_table(schema.tables.as_slice(), table) else {
        return Some(Refusal::UnknownName);
    };
    if find_check(table.checks.as_slice(), check).is_some() {
        return Some(Refusal::NameTaken);
    }
    let Some(column) = find_column(table.columns.as_slice(), column) else {
        return Some(Refusal::UnknownName);
    };
    if table.checks.len() >= MOST_CHECKS {
        return Some(Refusal::LimitReached(Limit::Checks));
    }
    if !is_of_kind(column.kind, value) {
        return Some(Refusal::RowShape);
    }
    if !value_is_in_range(value) {
        return Some(Refusal::ValueRange);
    }
    None
}
