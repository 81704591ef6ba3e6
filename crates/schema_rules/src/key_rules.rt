//! The rules of keys.
ghost use Rattle.std.specs.Prelude.{◌≡◌, ◌&&◌, not};
ghost use Rattle.std.specs.List.{list_all};
ghost use Rattle.rep_schema.specs.Kinds.{is_stamp};
ghost use Rattle.schema_rules.specs.KeyRules.{is_well_keyed, is_off_the_key};
ghost use Rattle.schema_rules.specs.MethodRules.{each_group};

use rep_schema::{Column, Group, Schema, TableEntry, is_key_at, key_count};

fn has_no_stamp_key(columns: &[Column]) -> bool
    ensures { result ≡ list_all (λ column. not (column.key && is_stamp column.kind)) columns.now }
{
    columns
        .iter()
        .all(|column| !(column.key && column.kind.is_stamp()))
}

fn is_well_keyed(table: &TableEntry) -> bool
    ensures { result ≡ is_well_keyed table.now }
{
    if key_count(table.columns.as_slice()) < 1 {
        return false;
    }
    has_no_stamp_key(table.columns.as_slice())
}

/// Whether every table has a key column, and no key column is a STAMP.
pub(crate) fn are_well_keyed(tables: &[TableEntry]) -> bool
    ensures { result ≡ list_all is_well_keyed tables.now }
{
    tables.iter().all(|table| is_well_keyed(table))
}

fn is_off_the_key(columns: &[Column], group: &Group) -> bool
    ensures { result ≡ is_off_the_key columns.now group.now }
{
    group
        .columns
        .iter()
        .all(|place| !is_key_at(columns, *place))
}

fn are_off_the_key(table: &TableEntry) -> bool
    ensures { result ≡ list_all (is_off_the_key table.now.columns) table.now.groups }
{
    let columns = table.columns.as_slice();
    table
        .groups
        .iter()
        .all(|group| is_off_the_key(columns, group))
}

/// Whether no column of a named group is a key column.
pub(crate) fn each_off_the_key(schema: &Schema) -> bool
    ensures { result ≡ each_group is_off_the_key schema.now }
{
    schema.tables.iter().all(|table| are_off_the_key(table))
}
