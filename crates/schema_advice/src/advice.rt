//! What is remarked of the tables of a schema that breaks no rule.
ghost use Rattle.std.specs.Prelude.{◌≡◌, ◌++◌, ◌==◌, not, length, IfOk, OnOk};
ghost use Rattle.rep_schema.specs.Groups.{shadow_from};
ghost use Rattle.schema_rules.specs.Rules.{broken_rule};
ghost use Rattle.schema_advice.specs.Parts.{table_part, convergent_table};
ghost use Rattle.schema_advice.specs.Remarks.{remark_if, master_count, hindered, group_remarks, groups_remarks, constraint_remarks, plain_remarks, table_remarks};

use crate::methods::{is_undecided, parting_method};
use crate::parts::convergent_rule;
use crate::remark::Remark;
use rep_lists::NoMemory;
use rep_schema::{Column, Constraint, Group, Schema, TableEntry, is_grouped};
use std::alloc::Global;

/// How many masters there are, late ones too.
fn master_count(schema: &Schema) -> usize
    ensures { result ≡ master_count schema.now }
{
    schema
        .sites
        .iter()
        .filter(|site| site.master.is_none())
        .count()
}

/// Whether a column is no key column and in no group.
fn has_shadow(groups: &[Group], columns: &[Column]) -> bool
    ensures { result ≡ not (length (shadow_from groups.now 0 columns.now) == 0) }
{
    for place in 0..columns.len() {
        if !(columns[place].key || is_grouped(groups, place)) {
            return true;
        }
    }
    false
}

/// Adds a remark where it holds.
fn add_if(holds: bool, remark: Remark, found: &mut Vec<Remark>) -> Result<(), NoMemory>
    ensures { OnOk result (found.new.items ≡ found.old.items ++ remark_if holds remark) }
{
    if holds {
        found.push(remark)?;
    }
    Ok(())
}

/// Adds what is remarked of a group at a place, at so many masters.
fn add_group(
    masters: usize,
    place: usize,
    group: &Group,
    found: &mut Vec<Remark>,
) -> Result<(), NoMemory>
    ensures { OnOk result (found.new.items ≡ found.old.items ++ group_remarks masters place group.now) }
{
    add_if(is_undecided(group), Remark::Undecided(place), found)?;
    if let Some(method) = parting_method(masters, group) {
        found.push(Remark::Parting {
            group: place,
            method,
        })?;
    }
    Ok(())
}

/// Adds what is remarked of groups.
fn add_groups(masters: usize, groups: &[Group], found: &mut Vec<Remark>) -> Result<(), NoMemory>
    ensures { OnOk result (found.new.items ≡ found.old.items ++ groups_remarks masters 0 groups.now) }
{
    for place in 0..groups.len() {
        add_group(masters, place, &groups[place], found)?;
    }
    Ok(())
}

/// Adds what is remarked of constraints.
fn add_constraints(constraints: &[Constraint], found: &mut Vec<Remark>) -> Result<(), NoMemory>
    ensures { OnOk result (found.new.items ≡ found.old.items ++ constraint_remarks 0 constraints.now) }
{
    for place in 0..constraints.len() {
        let has_methods = constraints[place].methods.len() != 0;
        add_if(has_methods, Remark::OwnRows(Some(place)), found)?;
    }
    Ok(())
}

/// What keeps a table from being convergent, or that nothing does.
fn hindered(alloc: Global, schema: &Schema, table: &TableEntry) -> Result<Remark, NoMemory>
    ensures { IfOk result (λ remark. remark ≡ hindered (broken_rule (table_part schema.now (convergent_table table.now)))) }
{
    Ok(match convergent_rule(alloc, schema, table)? {
        Some(rule) => Remark::Hindered(rule),
        None => Remark::Convergent,
    })
}

/// What is remarked of a table that isn't convergent, where several sites write.
fn plain_remarks(
    alloc: Global,
    schema: &Schema,
    table: &TableEntry,
) -> Result<Vec<Remark>, NoMemory>
    ensures { IfOk result (λ remarks. remarks.items ≡ plain_remarks schema.now table.now) }
{
    let mut found = Vec::new(alloc);
    let groups = table.groups.as_slice();
    let is_ungrouped = has_shadow(groups, table.columns.as_slice());
    add_if(is_ungrouped, Remark::Ungrouped, &mut found)?;
    add_groups(master_count(schema), groups, &mut found)?;
    let has_methods = table.key_methods.len() != 0;
    add_if(has_methods, Remark::OwnRows(None), &mut found)?;
    add_constraints(table.constraints.as_slice(), &mut found)?;
    let last = hindered(alloc, schema, table)?;
    found.push(last)?;
    Ok(found)
}

/// What is remarked of a table of a schema: nothing of a convergent one, or where one site alone writes.
pub fn table_remarks(
    alloc: Global,
    schema: &Schema,
    table: &TableEntry,
) -> Result<Vec<Remark>, NoMemory>
    ensures { IfOk result (λ remarks. remarks.items ≡ table_remarks schema.now table.now) }
{
    if table.convergent || schema.sites.len() < 2 {
        return Ok(Vec::new(alloc));
    }
    plain_remarks(alloc, schema, table)
}
