//! Why a declaration is refused: its names from left to right, then the limits, then the shape, then the ranges.
ghost use Rattle.std.specs.Prelude.{◌≡◌, ◌==◌, not, [], ◌∷◌};
ghost use Rattle.std.specs.List.{list_any, count_by};
ghost use Rattle.rep_values.specs.Name.{same_bytes};
ghost use Rattle.rep_values.specs.Literal.{value_of_literal};
ghost use Rattle.rep_values.specs.Equality.{value_eq};
ghost use Rattle.rep_schema.specs.Limits.{most_methods};
ghost use Rattle.rep_schema.specs.Shape.{is_master, is_snapshot, shadow_name, key_name};
ghost use Rattle.rep_values.specs.RefusalSteps.{first_refusal, refused, full};
ghost use Rattle.rep_declare.specs.Refusals.{declare_refusal, share_a_name, column_step, columns_step, unknown_column, words_column, unique_words_column, value_out_of_range};
ghost use Rattle.rep_schema.specs.Groups.{is_grouped};
ghost use Rattle.rep_schema.specs.Named.{column_place, is_column, is_constrained};

use crate::check_refusals::check_refusal;
use crate::limits::{
    MOST_COLUMNS, MOST_CONSTRAINTS, MOST_KEYS, MOST_LEVELS, MOST_MASTERS, MOST_METHODS,
    MOST_SNAPSHOTS, MOST_TABLES,
};
use crate::places::is_among;
use crate::{Declare, MethodWords, UniqueWords};
use rep_schema::{
    Column, PriorityLevel, Schema, SiteEntry, TableEntry, is_in_range, is_key_name, is_shadow_name,
    key_count,
};
use rep_values::{Limit, Literal, Name, Refusal, SiteName, TableName, Value, same_value};
use schema_names::{
    OnColumns, column_place, find_constraint, find_group, find_priority, find_site, find_table,
    has_column, has_master, is_taken,
};

fn master_count(sites: &[SiteEntry]) -> usize
    ensures { result ≡ count_by is_master sites.now }
{
    let mut count = 0usize;
    for site in sites {
        if site.master.is_none() {
            count += 1;
        }
    }
    count
}

fn snapshot_count(sites: &[SiteEntry]) -> usize
    ensures { result ≡ count_by is_snapshot sites.now }
{
    let mut count = 0usize;
    for site in sites {
        if site.master.is_some() {
            count += 1;
        }
    }
    count
}

fn site_refusal(schema: &Schema, name: &SiteName) -> Option<Refusal>
    ensures { result ≡ declare_refusal schema.now (Declare.Site name.now) }
{
    if find_site(schema.sites.as_slice(), name).is_some() {
        return Some(Refusal::NameTaken);
    }
    if master_count(schema.sites.as_slice()) >= MOST_MASTERS {
        return Some(Refusal::LimitReached(Limit::Masters));
    }
    None
}

fn snapshot_site_refusal(schema: &Schema, name: &SiteName, master: &SiteName) -> Option<Refusal>
    ensures { result ≡ declare_refusal schema.now (Declare.SnapSite name.now master.now) }
{
    if find_site(schema.sites.as_slice(), name).is_some() {
        return Some(Refusal::NameTaken);
    }
    if !has_master(schema.sites.as_slice(), master) {
        return Some(Refusal::UnknownName);
    }
    if snapshot_count(schema.sites.as_slice()) >= MOST_SNAPSHOTS {
        return Some(Refusal::LimitReached(Limit::Snapshots));
    }
    None
}

/// Whether two columns have one name.
fn share_a_name(columns: &[Column]) -> bool
    ensures { result ≡ share_a_name columns.now }
{
    for i in 0..columns.len() {
        if has_column(&columns[i + 1..], &columns[i].name) {
            return true;
        }
    }
    false
}

fn table_refusal(schema: &Schema, name: &TableName, columns: &[Column]) -> Option<Refusal>
    ensures { result ≡ declare_refusal schema.now (Declare.Table name.now columns.now) }
{
    if find_table(schema.tables.as_slice(), name).is_some() {
        return Some(Refusal::NameTaken);
    }
    if share_a_name(columns) {
        return Some(Refusal::NameTaken);
    }
    if schema.tables.len() >= MOST_TABLES {
        return Some(Refusal::LimitReached(Limit::Tables));
    }
    if columns.len() > MOST_COLUMNS {
        return Some(Refusal::LimitReached(Limit::Columns));
    }
    if key_count(columns) > MOST_KEYS {
        return Some(Refusal::LimitReached(Limit::Keys));
    }
    None
}

fn unknown_column(columns: &[Column], name: Option<Name>) -> Option<Refusal>
    ensures { result ≡ unknown_column columns.now name }
{
    match name {
        None => None,
        Some(name) => match column_place(columns, &name) {
            None => Some(Refusal::UnknownName),
            Some(_) => None,
        },
    }
}

fn has_level(levels: &[PriorityLevel], value: &Value) -> bool
    ensures { result ≡ list_any (λ l. value_eq value.now l.value) levels.now }
{
    levels.iter().any(|level| same_value(value, &level.value))
}

/// A column that a line names behind others: it has to be the table's, and must not be taken or stand before.
fn column_refusal<X: OnColumns>(
    columns: &[Column],
    others: &[X],
    before: &[Name],
    name: &Name,
) -> Option<Refusal>
    ensures { result ≡ column_step (λ place. list_any (λ x. list_any (λ c. c == place) (X.columns x)) others.now)
        (list_any (same_bytes name.now) before.now) (column_place columns.now name.now) }
{
    let Some(place) = column_place(columns, name) else {
        return Some(Refusal::UnknownName);
    };
    if is_taken(others, place) {
        return Some(Refusal::NameTaken);
    }
    if is_among(before, name) {
        return Some(Refusal::NameTaken);
    }
    None
}

/// The columns that a line names, from left to right.
fn columns_refusal<X: OnColumns>(
    columns: &[Column],
    others: &[X],
    names: &[Name],
) -> Option<Refusal>
    ensures { result ≡ columns_step columns.now
        (λ place. list_any (λ x. list_any (λ c. c == place) (X.columns x)) others.now) [] names.now }
{
    for i in 0..names.len() {
        if let Some(refusal) = column_refusal(columns, others, &names[..i], &names[i]) {
            return Some(refusal);
        }
    }
    None
}

fn group_columns_refusal(table: &TableEntry, names: &[Name]) -> Option<Refusal>
    ensures { result ≡ columns_step table.now.columns (is_grouped table.now.groups) [] names.now }
{
    columns_refusal(table.columns.as_slice(), table.groups.as_slice(), names)
}

fn constraint_columns_refusal(table: &TableEntry, names: &[Name]) -> Option<Refusal>
    ensures { result ≡ columns_step table.now.columns (is_constrained table.now.constraints) [] names.now }
{
    columns_refusal(
        table.columns.as_slice(),
        table.constraints.as_slice(),
        names,
    )
}

fn group_refusal(
    schema: &Schema,
    table: &TableName,
    group: &Name,
    columns: &[Name],
) -> Option<Refusal>
    ensures { result ≡ declare_refusal schema.now (Declare.Group table.now group.now columns.now) }
{
    let Some(table) = find_table(schema.tables.as_slice(), table) else {
        return Some(Refusal::UnknownName);
    };
    if is_shadow_name(group) {
        return Some(Refusal::NameTaken);
    }
    if find_group(table.groups.as_slice(), group).is_some() {
        return Some(Refusal::NameTaken);
    }
    group_columns_refusal(table, columns)
}

fn unique_refusal(
    schema: &Schema,
    table: &TableName,
    constraint: &Name,
    columns: &[Name],
) -> Option<Refusal>
    ensures { result ≡ declare_refusal schema.now (Declare.Unique table.now constraint.now columns.now) }
{
    let Some(table) = find_table(schema.tables.as_slice(), table) else {
        return Some(Refusal::UnknownName);
    };
    if is_key_name(constraint) {
        return Some(Refusal::NameTaken);
    }
    if find_constraint(table.constraints.as_slice(), constraint).is_some() {
        return Some(Refusal::NameTaken);
    }
    if let Some(refusal) = constraint_columns_refusal(table, columns) {
        return Some(refusal);
    }
    if table.constraints.len() >= MOST_CONSTRAINTS {
        return Some(Refusal::LimitReached(Limit::Constraints));
    }
    None
}

/// The name of the column that a method uses.
fn column_of(method: &MethodWords) -> Option<Name>
    ensures { result ≡ words_column method.now }
{
    match *method {
        MethodWords::Overwrite
        | MethodWords::Discard
        | MethodWords::Additive
        | MethodWords::Average => None,
        MethodWords::Latest(column)
        | MethodWords::Earliest(column)
        | MethodWords::Maximum(column)
        | MethodWords::Minimum(column)
        | MethodWords::Priority { column, group: _ }
        | MethodWords::SitePriority(column) => Some(column),
    }
}

/// The name of the column that a method of a constraint uses.
fn unique_column_of(method: &UniqueWords) -> Option<Name>
    ensures { result ≡ unique_words_column method.now }
{
    match *method {
        UniqueWords::AppendSite(column) | UniqueWords::AppendSequence(column) => Some(column),
        UniqueWords::Discard => None,
    }
}

/// Why a method is refused that uses this column, where there are so many methods.
fn method_refusal(columns: &[Column], column: Option<Name>, methods: usize) -> Option<Refusal>
    ensures { result ≡ first_refusal (unknown_column columns.now column ∷ full most_methods methods Limit.Methods ∷ []) }
{
    if let Some(refusal) = unknown_column(columns, column) {
        return Some(refusal);
    }
    if methods >= MOST_METHODS {
        return Some(Refusal::LimitReached(Limit::Methods));
    }
    None
}

fn group_method_refusal(
    schema: &Schema,
    table: &TableName,
    group: &Name,
    method: &MethodWords,
) -> Option<Refusal>
    ensures { result ≡ declare_refusal schema.now (Declare.Method table.now group.now method.now) }
{
    let Some(table) = find_table(schema.tables.as_slice(), table) else {
        return Some(Refusal::UnknownName);
    };
    let Some(group) = find_group(table.groups.as_slice(), group) else {
        return Some(Refusal::UnknownName);
    };
    method_refusal(
        table.columns.as_slice(),
        column_of(method),
        group.methods.len(),
    )
}

fn unique_method_refusal(
    schema: &Schema,
    table: &TableName,
    constraint: &Name,
    method: &UniqueWords,
) -> Option<Refusal>
    ensures { result ≡ declare_refusal schema.now (Declare.UniqueMethod table.now constraint.now method.now) }
{
    let Some(table) = find_table(schema.tables.as_slice(), table) else {
        return Some(Refusal::UnknownName);
    };
    let columns = table.columns.as_slice();
    if is_key_name(constraint) {
        return method_refusal(columns, unique_column_of(method), table.key_methods.len());
    }
    let Some(constraint) = find_constraint(table.constraints.as_slice(), constraint) else {
        return Some(Refusal::UnknownName);
    };
    method_refusal(columns, unique_column_of(method), constraint.methods.len())
}

/// Whether a literal's number lies within ±10^15; a text always passes.
pub(crate) fn value_is_in_range(value: &Literal) -> bool
    ensures { value_out_of_range (value_of_literal value.now) ≡ refused (not result) Refusal.ValueRange }
{
    match value {
        Literal::Num(number) => is_in_range(*number),
        Literal::Words(_) => true,
    }
}

fn priority_refusal(schema: &Schema, group: &Name, value: &Literal, level: i64) -> Option<Refusal>
    ensures { result ≡ declare_refusal schema.now (Declare.Priority group.now value.now level) }
{
    if let Some(group) = find_priority(schema.priorities.as_slice(), group) {
        if has_level(group.levels.as_slice(), &value.value()) {
            return Some(Refusal::NameTaken);
        }
        if group.levels.len() >= MOST_LEVELS {
            return Some(Refusal::LimitReached(Limit::Levels));
        }
    }
    if !value_is_in_range(value) {
        return Some(Refusal::ValueRange);
    }
    if !is_in_range(level) {
        return Some(Refusal::ValueRange);
    }
    None
}

fn site_level_refusal(schema: &Schema, site: &SiteName, level: i64) -> Option<Refusal>
    ensures { result ≡ declare_refusal schema.now (Declare.SiteLevel site.now level) }
{
    let Some(site) = find_site(schema.sites.as_slice(), site) else {
        return Some(Refusal::UnknownName);
    };
    if site.level.is_some() {
        return Some(Refusal::NameTaken);
    }
    if !is_in_range(level) {
        return Some(Refusal::ValueRange);
    }
    None
}

fn convergent_refusal(schema: &Schema, table: &TableName) -> Option<Refusal>
    ensures { result ≡ declare_refusal schema.now (Declare.Convergent table.now) }
{
    match find_table(schema.tables.as_slice(), table) {
        None => Some(Refusal::UnknownName),
        Some(_) => None,
    }
}

/// Why a declaration is refused, if it is.
pub fn refusal_of(schema: &Schema, declaration: &Declare) -> Option<Refusal>
    ensures { result ≡ declare_refusal schema.now declaration.now }
{
    match declaration {
        Declare::Site { name } => site_refusal(schema, name),
        Declare::LateSite { name } => site_refusal(schema, name),
        Declare::SnapSite { name, master } => snapshot_site_refusal(schema, name, master),
        Declare::Table { name, columns } => table_refusal(schema, name, columns.as_slice()),
        Declare::Group {
            table,
            group,
            columns,
        } => { group_refusal(schema, table, group, columns.as_slice()) }
        Declare::Method {
            table,
            group,
            method,
        } => { group_method_refusal(schema, table, group, method) }
        Declare::Priority {
            group,
            value,
            level,
        } => priority_refusal(schema, group, value, *level),
        Declare::SiteLevel { site, level } => site_level_refusal(schema, site, *level),
        Declare::Unique {
            table,
            constraint,
            columns,
        } => { unique_refusal(schema, table, constraint, columns.as_slice()) }
        Declare::UniqueMethod {
            table,
            constraint,
            method,
        } => { unique_method_refusal(schema, table, constraint, method) }
        Declare::Check {
            table,
            check,
            column,
            rel: _,
            value,
        } => { check_refusal(schema, table, check, column, value) }
        Declare::Convergent { table } => convergent_refusal(schema, table),
    }
}
