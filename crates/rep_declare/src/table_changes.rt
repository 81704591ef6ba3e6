//! What comes into a table of a schema.
ghost use Rattle.std.specs.Prelude.{◌≡◌, ◌++◌, [], ◌∷◌, OnOk, OnErr};
ghost use Rattle.rep_values.specs.Literal.{value_of_literal};
ghost use Rattle.rep_schema.specs.Named.{is_group, is_constraint, places_named};
ghost use Rattle.rep_declare.specs.Additions.{with_groups, with_constraints, with_checks, with_changed, with_method, with_unique_method, with_method_on, column_number, method_of, unique_method_of};

use crate::places::{column_number, method_of, places_named, unique_method_of};
use crate::{MethodWords, UniqueWords};
use rep_lists::{Items, NoMemory};
use rep_schema::{
    Check, Constraint, Group, Method, PriorityGroup, Rel, TableEntry, UniqueMethod, is_key_name,
};
use rep_values::{Literal, Name};
use schema_names::{constraint_place, group_place};
use std::alloc::Global;

/// A group of the columns of these names comes into a table.
pub(crate) fn push_group(
    alloc: Global,
    table: &mut TableEntry,
    name: Name,
    columns: &[Name],
) -> Result<(), NoMemory>
    ensures ok { OnOk result (table.new ≡ with_groups (table.old.groups ++ record { name = name; columns = places_named table.old.columns columns.now; methods = [] } ∷ []) table.old) }
    ensures err { OnErr result (table.new ≡ table.old) }
{
    let columns = places_named(alloc, table.columns.as_slice(), columns)?;
    table.groups.push(Group {
        name,
        columns,
        methods: Items::new(alloc),
    })
}

/// A secondary constraint of the columns of these names comes into a table.
pub(crate) fn push_constraint(
    alloc: Global,
    table: &mut TableEntry,
    name: Name,
    columns: &[Name],
) -> Result<(), NoMemory>
    ensures ok { OnOk result (table.new ≡ with_constraints (table.old.constraints ++ record { name = name; columns = places_named table.old.columns columns.now; methods = [] } ∷ []) table.old) }
    ensures err { OnErr result (table.new ≡ table.old) }
{
    let columns = places_named(alloc, table.columns.as_slice(), columns)?;
    table.constraints.push(Constraint {
        name,
        columns,
        methods: Items::new(alloc),
    })
}

/// A check of the column of this name comes into a table.
pub(crate) fn push_check(
    table: &mut TableEntry,
    name: Name,
    column: &Name,
    rel: Rel,
    value: &Literal,
) -> Result<(), NoMemory>
    ensures ok { OnOk result (table.new ≡ with_checks (table.old.checks ++ record { name = name; column = column_number table.old.columns column.now; rel = rel; value = value_of_literal value.now } ∷ []) table.old) }
    ensures err { OnErr result (table.new ≡ table.old) }
{
    let column = column_number(table.columns.as_slice(), column)?;
    table.checks.push(Check {
        name,
        column,
        rel,
        value: value.value(),
    })
}

/// A method comes into the group of this name, if it is there.
fn push_group_method(groups: &mut Items<Group>, name: &Name, method: Method) -> Result<(), NoMemory>
    ensures ok { OnOk result (groups.new ≡ with_changed (is_group name.now) (with_method method) groups.old) }
    ensures err { OnErr result (groups.new ≡ groups.old) }
{
    match group_place(groups.as_slice(), name) {
        Some(place) => groups.at_mut(place).methods.push(method),
        None => Ok(()),
    }
}

/// A method, which may name one of these priority groups, comes into a group of a table.
pub(crate) fn push_method(
    table: &mut TableEntry,
    group: &Name,
    priorities: &[PriorityGroup],
    words: &MethodWords,
) -> Result<(), NoMemory>
    ensures ok { OnOk result (table.new ≡ with_groups (with_changed (is_group group.now) (with_method (method_of priorities.now table.old.columns words.now)) table.old.groups) table.old) }
    ensures err { OnErr result (table.new ≡ table.old) }
{
    let method = method_of(priorities, table.columns.as_slice(), words)?;
    push_group_method(&mut table.groups, group, method)
}

/// A method comes into the secondary constraint of this name, if it is there.
fn push_constraint_method(
    constraints: &mut Items<Constraint>,
    name: &Name,
    method: UniqueMethod,
) -> Result<(), NoMemory>
    ensures ok { OnOk result (constraints.new ≡ with_changed (is_constraint name.now) (with_unique_method method) constraints.old) }
    ensures err { OnErr result (constraints.new ≡ constraints.old) }
{
    match constraint_place(constraints.as_slice(), name) {
        Some(place) => constraints.at_mut(place).methods.push(method),
        None => Ok(()),
    }
}

/// A method comes into a constraint of a table, the primary key's being `key`.
pub(crate) fn push_unique_method(
    table: &mut TableEntry,
    constraint: &Name,
    words: &UniqueWords,
) -> Result<(), NoMemory>
    ensures ok { OnOk result (table.new ≡ with_method_on constraint.now (unique_method_of table.old.columns words.now) table.old) }
    ensures err { OnErr result (table.new ≡ table.old) }
{
    let method = unique_method_of(table.columns.as_slice(), words)?;
    if is_key_name(constraint) {
        table.key_methods.push(method)
    } else {
        push_constraint_method(&mut table.constraints, constraint, method)
    }
}
