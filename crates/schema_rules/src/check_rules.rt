//! The rules of checks.
ghost use Rattle.std.specs.Prelude.{◌≡◌, ◌==◌, ◌||◌, not, length};
ghost use Rattle.std.specs.List.{list_all};
ghost use Rattle.schema_rules.specs.CheckRules.{each_check, tests_plain_column, is_unchecked};
ghost use Rattle.schema_rules.specs.ConvergentRules.{each_convergent};

use crate::columns::is_plain_at;
use rep_schema::{Schema, TableEntry};

fn test_plain_columns(table: &TableEntry) -> bool
    ensures { result ≡ list_all (tests_plain_column table.now.columns) table.now.checks }
{
    let columns = table.columns.as_slice();
    table
        .checks
        .iter()
        .all(|check| is_plain_at(columns, check.column))
}

/// Whether the column of each check is a NUMBER, TEXT or DATE.
pub(crate) fn each_tests_plain_column(schema: &Schema) -> bool
    ensures { result ≡ each_check tests_plain_column schema.now }
{
    schema.tables.iter().all(|table| test_plain_columns(table))
}

fn is_unchecked(table: &TableEntry) -> bool
    ensures { result ≡ is_unchecked table.now }
{
    table.checks.len() == 0
}

/// Whether a convergent table has no check.
pub(crate) fn each_is_unchecked(schema: &Schema) -> bool
    ensures { result ≡ each_convergent is_unchecked schema.now }
{
    schema
        .tables
        .iter()
        .all(|table| !table.convergent || is_unchecked(table))
}
