//! What declarations add to a schema.
ghost use Rattle.std.specs.Prelude.{◌≡◌, ◌⊎◌, List, ◌++◌, [], ◌∷◌, None, Some, IfErr, IfOk, IfSome, OnOk, OnErr};
ghost use Rattle.rep_values.specs.declared.refusal.Refusal.TheVariants.{Memory};
ghost use Rattle.rep_values.specs.Literal.{value_of_literal};
ghost use Rattle.rep_schema.specs.declared.schema.PriorityGroup.{PriorityGroup as PriorityGroupValue};
ghost use Rattle.rep_schema.specs.Shape.{HasShape};
ghost use Rattle.rep_schema.specs.Named.{is_table, is_group};
ghost use Rattle.rep_declare.specs.Refusals.{declare_refusal};
ghost use Rattle.rep_declare.specs.Additions.{ColumnNamed, declared, with_priority, with_words_priority, with_priorities, with_changed, with_level, with_sites, with_groups, with_method, method_of};

use crate::priority_changes::put_level_in;
use crate::table_changes::{
    push_check, push_constraint, push_group, push_method, push_unique_method,
};
use crate::{Declare, MethodWords, UniqueWords, refusal_of};
use rep_lists::{Copies, Items, NoMemory};
use rep_schema::{Column, PriorityGroup, PriorityLevel, Rel, Schema, SiteEntry, TableEntry};
use rep_values::{Literal, Name, Refusal, SiteName, TableName};
use schema_names::{find_priority, priority_place, site_place, table_place};
use std::alloc::Global;
use std::mem;

/// A site comes into the schema.
fn add_site(schema: &mut Schema, site: SiteEntry) -> Result<(), NoMemory>
    ensures ok { OnOk result (schema.new ≡ with_sites (schema.old.sites ++ site ∷ []) schema.old) }
    ensures err { OnErr result (schema.new ≡ schema.old) }
{
    // Made anew here, so that the check knows the types of its fields.
    schema.sites.push(SiteEntry { ..site })
}

fn add_snapshot_site(schema: &mut Schema, name: SiteName, master: SiteName) -> Result<(), NoMemory>
    ensures ok { OnOk result (schema.new ≡ declared (Declare.SnapSite name master) schema.old) }
    ensures err { OnErr result (schema.new ≡ schema.old) }
{
    add_site(schema, SiteEntry::snapshot(name, master))
}

fn add_table(
    alloc: Global,
    schema: &mut Schema,
    name: TableName,
    columns: &Items<Column>,
) -> Result<(), NoMemory>
    ensures ok { OnOk result (schema.new ≡ declared (Declare.Table name columns.now) schema.old) }
    ensures err { OnErr result (schema.new ≡ schema.old) }
{
    let columns = columns.copy(alloc)?;
    schema.tables.push(TableEntry::plain(alloc, name, columns))
}

fn add_group(
    alloc: Global,
    schema: &mut Schema,
    table: &TableName,
    group: Name,
    columns: &[Name],
) -> Result<(), NoMemory>
    ensures ok { OnOk result (schema.new ≡ declared (Declare.Group table.now group columns.now) schema.old) }
    ensures err { OnErr result (schema.new ≡ schema.old) }
{
    match table_place(schema.tables.as_slice(), table) {
        Some(place) => push_group(alloc, schema.tables.at_mut(place), group, columns),
        None => Ok(()),
    }
}

/// The name, where no priority group has it.
fn absent_priority(groups: &[PriorityGroup], name: &Name) -> Option<Name>
    ensures none { result ≡ None → with_priority name.now groups.now ≡ groups.now }
    ensures some { IfSome result (λ absent. with_priority name.now groups.now ≡ groups.now ++ record { name = absent; levels = [] } ∷ []) }
{
    match find_priority(groups, name) {
        Some(_found) => None,
        None => Some(*name),
    }
}

/// The name of the priority group that a method brings, where it names one that isn't there yet.
fn group_brought(groups: &[PriorityGroup], words: &MethodWords) -> Option<Name>
    ensures none { result ≡ None → with_words_priority words.now groups.now ≡ groups.now }
    ensures some { IfSome result (λ brought. with_words_priority words.now groups.now ≡ groups.now ++ record { name = brought; levels = [] } ∷ []) }
{
    match words {
        MethodWords::Priority { column: _, group } => absent_priority(groups, group),
        MethodWords::Latest(_)
        | MethodWords::Earliest(_)
        | MethodWords::Overwrite
        | MethodWords::Discard
        | MethodWords::Additive
        | MethodWords::Average
        | MethodWords::Maximum(_)
        | MethodWords::Minimum(_)
        | MethodWords::SitePriority(_) => None,
    }
}

/// Adds a method that may name one of these priority groups.
fn add_method_among(
    tables: &mut Items<TableEntry>,
    priorities: &[PriorityGroup],
    table: &TableName,
    group: &Name,
    words: &MethodWords,
) -> Result<(), NoMemory>
    ensures ok { OnOk result (tables.new ≡ with_changed (is_table table.now)
        (λ entry. with_groups (with_changed (is_group group.now) (with_method (method_of priorities.now entry.columns words.now)) entry.groups) entry) tables.old) }
    ensures err { OnErr result (tables.new ≡ tables.old) }
{
    match table_place(tables.as_slice(), table) {
        Some(place) => push_method(tables.at_mut(place), group, priorities, words),
        None => Ok(()),
    }
}

/// Takes the last priority group away.
fn drop_last_priority(alloc: Global, schema: &mut Schema)
    ensures { (groups : List PriorityGroupValue) (last : PriorityGroupValue) → schema.old.priorities ≡ groups ++ last ∷ [] → schema.new ≡ with_priorities groups schema.old }
{
    let mut kept = mem::replace(&mut schema.priorities, Items::new(alloc)).into_vec();
    let _ = kept.pop();
    schema.priorities = Items::from_vec(kept);
}

/// Adds a method and the priority group of this name that it brings, or neither.
fn add_method_with(
    alloc: Global,
    schema: &mut Schema,
    brought: Name,
    table: &TableName,
    group: &Name,
    words: &MethodWords,
) -> Result<(), NoMemory>
    requires { with_words_priority words.now schema.old.priorities ≡ schema.old.priorities ++ record { name = brought; levels = [] } ∷ [] }
    ensures ok { OnOk result (schema.new ≡ declared (Declare.Method table.now group.now words.now) schema.old) }
    ensures err { OnErr result (schema.new ≡ schema.old) }
{
    schema.priorities.push(PriorityGroup {
        name: brought,
        levels: Items::new(alloc),
    })?;
    let priorities = schema.priorities.as_slice();
    let result = add_method_among(&mut schema.tables, priorities, table, group, words);
    if result.is_err() {
        drop_last_priority(alloc, schema);
    }
    result
}

fn add_method(
    alloc: Global,
    schema: &mut Schema,
    table: &TableName,
    group: &Name,
    words: &MethodWords,
) -> Result<(), NoMemory>
    ensures ok { OnOk result (schema.new ≡ declared (Declare.Method table.now group.now words.now) schema.old) }
    ensures err { OnErr result (schema.new ≡ schema.old) }
{
    let priorities = schema.priorities.as_slice();
    match group_brought(priorities, words) {
        Some(brought) => add_method_with(alloc, schema, brought, table, group, words),
        None => add_method_among(&mut schema.tables, priorities, table, group, words),
    }
}

/// A priority group with one level.
fn group_of_level(
    alloc: Global,
    name: &Name,
    value: &Literal,
    level: i64,
) -> Result<PriorityGroup, NoMemory>
    ensures { IfOk result (λ group. group ≡ with_level (value_of_literal value.now) level record { name = name.now; levels = [] }) }
{
    let mut levels = Items::with_capacity(alloc, 1)?;
    levels.push(PriorityLevel {
        value: value.value(),
        level,
    })?;
    Ok(PriorityGroup {
        name: *name,
        levels,
    })
}

/// A priority group with one level comes into the schema.
fn push_priority(
    alloc: Global,
    schema: &mut Schema,
    name: &Name,
    value: &Literal,
    level: i64,
) -> Result<(), NoMemory>
    ensures ok { OnOk result (schema.new ≡ with_priorities (schema.old.priorities ++ with_level (value_of_literal value.now) level record { name = name.now; levels = [] } ∷ []) schema.old) }
    ensures err { OnErr result (schema.new ≡ schema.old) }
{
    let one = group_of_level(alloc, name, value, level)?;
    schema.priorities.push(one)
}

fn add_level(
    alloc: Global,
    schema: &mut Schema,
    group: &Name,
    value: &Literal,
    level: i64,
) -> Result<(), NoMemory>
    ensures ok { OnOk result (schema.new ≡ declared (Declare.Priority group.now value.now level) schema.old) }
    ensures err { OnErr result (schema.new ≡ schema.old) }
{
    match priority_place(schema.priorities.as_slice(), group) {
        Some(place) => put_level_in(alloc, schema.priorities.at_mut(place), value, level),
        None => push_priority(alloc, schema, group, value, level),
    }
}

fn add_site_level(schema: &mut Schema, site: &SiteName, level: i64)
    ensures { schema.new ≡ declared (Declare.SiteLevel site.now level) schema.old }
{
    if let Some(place) = site_place(schema.sites.as_slice(), site) {
        schema.sites.at_mut(place).level = Some(level);
    }
}

fn add_constraint(
    alloc: Global,
    schema: &mut Schema,
    table: &TableName,
    constraint: Name,
    columns: &[Name],
) -> Result<(), NoMemory>
    ensures ok { OnOk result (schema.new ≡ declared (Declare.Unique table.now constraint columns.now) schema.old) }
    ensures err { OnErr result (schema.new ≡ schema.old) }
{
    match table_place(schema.tables.as_slice(), table) {
        Some(place) => push_constraint(alloc, schema.tables.at_mut(place), constraint, columns),
        None => Ok(()),
    }
}

fn add_unique_method(
    schema: &mut Schema,
    table: &TableName,
    constraint: &Name,
    words: &UniqueWords,
) -> Result<(), NoMemory>
    ensures ok { OnOk result (schema.new ≡ declared (Declare.UniqueMethod table.now constraint.now words.now) schema.old) }
    ensures err { OnErr result (schema.new ≡ schema.old) }
{
    match table_place(schema.tables.as_slice(), table) {
        Some(place) => push_unique_method(schema.tables.at_mut(place), constraint, words),
        None => Ok(()),
    }
}

fn add_check(
    schema: &mut Schema,
    table: &TableName,
    check: Name,
    column: &Name,
    rel: Rel,
    value: &Literal,
) -> Result<(), NoMemory>
    ensures ok { OnOk result (schema.new ≡ declared (Declare.Check table.now check column.now rel value.now) schema.old) }
    ensures err { OnErr result (schema.new ≡ schema.old) }
{
    match table_place(schema.tables.as_slice(), table) {
        Some(place) => push_check(schema.tables.at_mut(place), check, column, rel, value),
        None => Ok(()),
    }
}

fn make_convergent(schema: &mut Schema, table: &TableName)
    ensures { schema.new ≡ declared (Declare.Convergent table.now) schema.old }
{
    if let Some(place) = table_place(schema.tables.as_slice(), table) {
        schema.tables.at_mut(place).convergent = true;
    }
}

/// Adds a declaration that isn't refused.
fn add(schema: &mut Schema, alloc: Global, declaration: &Declare) -> Result<(), NoMemory>
    ensures ok { OnOk result (schema.new ≡ declared declaration.now schema.old) }
    ensures err { OnErr result (schema.new ≡ schema.old) }
{
    match declaration {
        Declare::Site { name } => add_site(schema, SiteEntry::master(*name)),
        Declare::LateSite { name } => add_site(schema, SiteEntry::late(*name)),
        Declare::SnapSite { name, master } => add_snapshot_site(schema, *name, *master),
        Declare::Table { name, columns } => add_table(alloc, schema, *name, columns),
        Declare::Group {
            table,
            group,
            columns,
        } => add_group(alloc, schema, table, *group, columns.as_slice()),
        Declare::Method {
            table,
            group,
            method,
        } => add_method(alloc, schema, table, group, method),
        Declare::Priority {
            group,
            value,
            level,
        } => add_level(alloc, schema, group, value, *level),
        Declare::SiteLevel { site, level } => {
            add_site_level(schema, site, *level);
            Ok(())
        }
        Declare::Unique {
            table,
            constraint,
            columns,
        } => add_constraint(alloc, schema, table, *constraint, columns.as_slice()),
        Declare::UniqueMethod {
            table,
            constraint,
            method,
        } => add_unique_method(schema, table, constraint, method),
        Declare::Check {
            table,
            check,
            column,
            rel,
            value,
        } => add_check(schema, table, *check, column, *rel, value),
        Declare::Convergent { table } => {
            make_convergent(schema, table);
            Ok(())
        }
    }
}

/// Adds a declaration to a schema, or says why it is refused, the first reason in order, or that there is no memory;
/// then the schema is as it was. A group or a constraint has to name a column.
pub fn add_declaration(
    schema: &mut Schema,
    alloc: Global,
    declaration: &Declare,
) -> Result<(), Refusal>
    requires shape { HasShape schema.old }
    requires columns { ColumnNamed declaration.now }
    ensures ok { OnOk result ((declare_refusal schema.old declaration.now ≡ None) × (schema.new ≡ declared declaration.now schema.old)) }
    ensures err { IfErr result (λ why. (declare_refusal schema.old declaration.now ≡ Some why) ⊎ ((declare_refusal schema.old declaration.now ≡ None) × (why ≡ Memory))) }
    ensures kept { OnErr result (schema.new ≡ schema.old) }
    ensures shape { HasShape schema.new }
{
    if let Some(why) = refusal_of(schema, declaration) {
        return Err(why);
    }
    match add(schema, alloc, declaration) {
        Ok(()) => Ok(()),
        Err(NoMemory) => Err(Refusal::Memory),
    }
}
