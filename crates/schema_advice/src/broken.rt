//! The tables and groups of a schema that break a rule.
ghost use Rattle.std.specs.Prelude.{◌≡◌, ◌++◌, IfOk, OnOk, option_to_list};
ghost use Rattle.schema_advice.specs.Broken.{is_group_rule, is_table_rule, group_part, own_part, group_parts, table_parts, broken_parts};

use crate::parts::{group_rule, table_rule};
use rep_lists::NoMemory;
use rep_schema::{Group, Schema, TableEntry};
use rep_values::{Name, TableName};
use std::alloc::Global;

/// A rule that a table breaks, or a group of it.
#[derive(Clone, Copy)]
pub struct BrokenPart {
    /// From 2.
    pub rule: u8,
    pub table: TableName,
    /// None where the table as a whole breaks it.
    pub group: Option<Name>,
}

/// Whether the rule is one of groups.
fn is_group_rule(rule: u8) -> bool
    ensures { result ≡ is_group_rule rule }
{
    3 <= rule && rule <= 9
}

/// Whether the rule is one of tables as a whole. Rule 1 asks for a master.
fn is_table_rule(rule: u8) -> bool
    ensures { result ≡ is_table_rule rule }
{
    rule != 1 && !is_group_rule(rule)
}

/// Adds the group, if it breaks a rule of groups.
fn add_group_part(
    alloc: Global,
    schema: &Schema,
    table: &TableEntry,
    group: &Group,
    found: &mut Vec<BrokenPart>,
) -> Result<(), NoMemory>
    ensures { OnOk result (found.new.items ≡ found.old.items ++ option_to_list (group_part schema.now table.now group.now)) }
{
    let Some(rule) = group_rule(alloc, schema, table, group)? else {
        return Ok(());
    };
    if is_group_rule(rule) {
        found.push(BrokenPart {
            rule,
            table: table.name,
            group: Some(group.name),
        })?;
    }
    Ok(())
}

/// Adds the table, if it breaks a rule of tables.
fn add_own_part(
    alloc: Global,
    schema: &Schema,
    table: &TableEntry,
    found: &mut Vec<BrokenPart>,
) -> Result<(), NoMemory>
    ensures { OnOk result (found.new.items ≡ found.old.items ++ option_to_list (own_part schema.now table.now)) }
{
    let Some(rule) = table_rule(alloc, schema, table)? else {
        return Ok(());
    };
    if is_table_rule(rule) {
        found.push(BrokenPart {
            rule,
            table: table.name,
            group: None,
        })?;
    }
    Ok(())
}

/// Adds the groups of a table that break a rule of groups.
fn add_group_parts(
    alloc: Global,
    schema: &Schema,
    table: &TableEntry,
    found: &mut Vec<BrokenPart>,
) -> Result<(), NoMemory>
    ensures { OnOk result (found.new.items ≡ found.old.items ++ group_parts schema.now table.now) }
{
    let groups = table.groups.as_slice();
    for group in groups {
        add_group_part(alloc, schema, table, group, found)?;
    }
    Ok(())
}

/// Adds what a table breaks.
fn add_table_parts(
    alloc: Global,
    schema: &Schema,
    table: &TableEntry,
    found: &mut Vec<BrokenPart>,
) -> Result<(), NoMemory>
    ensures { OnOk result (found.new.items ≡ found.old.items ++ table_parts schema.now table.now) }
{
    add_group_parts(alloc, schema, table, found)?;
    add_own_part(alloc, schema, table, found)
}

/// The tables and groups of a schema that break a rule, in the order of their declarations: each group that breaks a rule of groups
/// where its table has it alone, and each table that breaks another one first where the schema has it alone.
pub fn broken_parts(alloc: Global, schema: &Schema) -> Result<Vec<BrokenPart>, NoMemory>
    ensures { IfOk result (λ parts. parts.items ≡ broken_parts schema.now) }
{
    let mut found = Vec::new(alloc);
    let tables = schema.tables.as_slice();
    for table in tables {
        add_table_parts(alloc, schema, table, &mut found)?;
    }
    Ok(found)
}
