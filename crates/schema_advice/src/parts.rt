//! Parts of a schema, by which a broken rule is found to be a table's or a group's.
ghost use Rattle.std.specs.Prelude.{◌≡◌, IfOk};
ghost use Rattle.schema_rules.specs.Rules.{broken_rule};
ghost use Rattle.schema_advice.specs.Parts.{table_part, group_table, convergent_table};

use rep_lists::{Copies, Items, NoMemory};
use rep_schema::{Group, Schema, TableEntry};
use schema_rules::check;
use std::alloc::Global;

/// The schema with this table alone.
fn table_part(alloc: Global, schema: &Schema, table: TableEntry) -> Result<Schema, NoMemory>
    ensures { IfOk result (λ part. part ≡ table_part schema.now table) }
{
    let mut tables = Items::new(alloc);
    tables.push(table)?;
    Ok(Schema {
        sites: schema.sites.copy(alloc)?,
        tables,
        priorities: schema.priorities.copy(alloc)?,
    })
}

/// The table with this group alone: it has no constraint and no check, and isn't convergent.
fn group_table(alloc: Global, table: &TableEntry, group: &Group) -> Result<TableEntry, NoMemory>
    ensures { IfOk result (λ part. part ≡ group_table table.now group.now) }
{
    let mut groups = Items::new(alloc);
    groups.push(group.copy(alloc)?)?;
    Ok(TableEntry {
        name: table.name,
        columns: table.columns.copy(alloc)?,
        groups,
        key_methods: Items::new(alloc),
        constraints: Items::new(alloc),
        checks: Items::new(alloc),
        convergent: false,
    })
}

/// The lowest rule that the schema breaks with this table alone.
fn rule_with(alloc: Global, schema: &Schema, table: TableEntry) -> Result<Option<u8>, NoMemory>
    ensures { IfOk result (λ rule. rule ≡ broken_rule (table_part schema.now table)) }
{
    let part = table_part(alloc, schema, table)?;
    match check(&part) {
        Ok(()) => Ok(None),
        Err(rule) => Ok(Some(rule)),
    }
}

/// The lowest rule that the schema breaks with this table alone, by its `check`.
pub(crate) fn table_rule(
    alloc: Global,
    schema: &Schema,
    table: &TableEntry,
) -> Result<Option<u8>, NoMemory>
    ensures { IfOk result (λ rule. rule ≡ broken_rule (table_part schema.now table.now)) }
{
    rule_with(alloc, schema, table.copy(alloc)?)
}

/// The lowest rule that the schema breaks with this table alone, of which only its columns and this group are left.
pub(crate) fn group_rule(
    alloc: Global,
    schema: &Schema,
    table: &TableEntry,
    group: &Group,
) -> Result<Option<u8>, NoMemory>
    ensures { IfOk result (λ rule. rule ≡ broken_rule (table_part schema.now (group_table table.now group.now))) }
{
    rule_with(alloc, schema, group_table(alloc, table, group)?)
}

/// The lowest rule that the schema breaks with this table alone, if that is to be convergent.
pub(crate) fn convergent_rule(
    alloc: Global,
    schema: &Schema,
    table: &TableEntry,
) -> Result<Option<u8>, NoMemory>
    ensures { IfOk result (λ rule. rule ≡ broken_rule (table_part schema.now (convergent_table table.now))) }
{
    let mut table = table.copy(alloc)?;
    table.convergent = true;
    rule_with(alloc, schema, table)
}
