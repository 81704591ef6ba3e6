//! The rules of the methods of groups.
ghost use Rattle.std.specs.Prelude.{◌≡◌};
ghost use Rattle.std.specs.List.{list_all, list_any};
ghost use Rattle.rep_schema.specs.Shape.{method_column};
ghost use Rattle.rep_schema.specs.Kinds.{is_none_or, has_kind, is_number, has_place};
ghost use Rattle.schema_rules.specs.MethodRules.{each_group, each_method, names_own_columns, is_arithmetic, is_one_number, adds_one_number, time_column, extreme_column, ranked_column, site_column, compares_times, compares_amounts, has_level_at, ranks_plain_values, compares_sites};

use crate::columns::{is_amount_at, is_number_at, is_plain_at, is_site_at, is_time_at};
use rep_schema::{Column, Group, Method, PriorityGroup, Schema, TableEntry, has_place};

fn method_column(method: &Method) -> Option<u32>
    ensures { result ≡ method_column method.now }
{
    match method {
        Method::Latest(column)
        | Method::Earliest(column)
        | Method::Maximum(column)
        | Method::Minimum(column)
        | Method::SitePriority(column)
        | Method::Priority { column, group: _ } => Some(*column),
        Method::Overwrite | Method::Discard | Method::Additive | Method::Average => None,
    }
}

fn names_own_column(places: &[u32], method: &Method) -> bool
    ensures { result ≡ is_none_or (has_place places.now) (method_column method.now) }
{
    match method_column(method) {
        None => true,
        Some(column) => has_place(places, column as usize),
    }
}

fn names_own_columns(group: &Group) -> bool
    ensures { result ≡ names_own_columns group.now }
{
    let places = group.columns.as_slice();
    group
        .methods
        .iter()
        .all(|method| names_own_column(places, method))
}

/// Whether the column that a method of a group names is always in the group.
pub(crate) fn each_names_own_columns(schema: &Schema) -> bool
    ensures { result ≡ each_group (λ columns group. names_own_columns group) schema.now }
{
    schema.tables.iter().all(
        |table: &TableEntry| -> bool
            ensures { result ≡ list_all names_own_columns table.now.groups }
        { table.groups.iter().all(|group| names_own_columns(group)) },
    )
}

fn is_arithmetic(method: &Method) -> bool
    ensures { result ≡ is_arithmetic method.now }
{
    match method {
        Method::Additive | Method::Average => true,
        Method::Latest(_)
        | Method::Earliest(_)
        | Method::Overwrite
        | Method::Discard
        | Method::Maximum(_)
        | Method::Minimum(_)
        | Method::Priority {
            column: _,
            group: _,
        }
        | Method::SitePriority(_) => false,
    }
}

fn has_arithmetic(methods: &[Method]) -> bool
    ensures { result ≡ list_any is_arithmetic methods.now }
{
    methods.iter().any(|method| is_arithmetic(method))
}

fn are_numbers(columns: &[Column], places: &[u32]) -> bool
    ensures { result ≡ list_all (has_kind is_number columns.now) places.now }
{
    places.iter().all(|place| is_number_at(columns, *place))
}

/// Whether there is exactly one column at these places, a NUMBER.
pub(crate) fn is_one_number(columns: &[Column], places: &[u32]) -> bool
    ensures { result ≡ is_one_number columns.now places.now }
{
    places.len() == 1 && are_numbers(columns, places)
}

fn adds_one_number(columns: &[Column], group: &Group) -> bool
    ensures { result ≡ adds_one_number columns.now group.now }
{
    !has_arithmetic(group.methods.as_slice()) || is_one_number(columns, group.columns.as_slice())
}

/// Whether a group with additive or average has exactly one column, a NUMBER.
pub(crate) fn each_adds_one_number(schema: &Schema) -> bool
    ensures { result ≡ each_group adds_one_number schema.now }
{
    schema.tables.iter().all(
        |table: &TableEntry| -> bool
            ensures { result ≡ list_all (adds_one_number table.now.columns) table.now.groups }
        {
            let columns = table.columns.as_slice();
            table
                .groups
                .iter()
                .all(|group| adds_one_number(columns, group))
        },
    )
}

fn time_column(method: &Method) -> Option<u32>
    ensures { result ≡ time_column method.now }
{
    match method {
        Method::Latest(column) | Method::Earliest(column) => Some(*column),
        Method::Overwrite
        | Method::Discard
        | Method::Additive
        | Method::Average
        | Method::Maximum(_)
        | Method::Minimum(_)
        | Method::Priority {
            column: _,
            group: _,
        }
        | Method::SitePriority(_) => None,
    }
}

/// The column of maximum and minimum.
pub(crate) fn extreme_column(method: &Method) -> Option<u32>
    ensures { result ≡ extreme_column method.now }
{
    match method {
        Method::Maximum(column) | Method::Minimum(column) => Some(*column),
        Method::Latest(_)
        | Method::Earliest(_)
        | Method::Overwrite
        | Method::Discard
        | Method::Additive
        | Method::Average
        | Method::Priority {
            column: _,
            group: _,
        }
        | Method::SitePriority(_) => None,
    }
}

/// The column of site-priority.
pub(crate) fn site_column(method: &Method) -> Option<u32>
    ensures { result ≡ site_column method.now }
{
    match method {
        Method::SitePriority(column) => Some(*column),
        Method::Latest(_)
        | Method::Earliest(_)
        | Method::Overwrite
        | Method::Discard
        | Method::Additive
        | Method::Average
        | Method::Maximum(_)
        | Method::Minimum(_)
        | Method::Priority {
            column: _,
            group: _,
        } => None,
    }
}

fn compares_times(columns: &[Column], method: &Method) -> bool
    ensures { result ≡ compares_times columns.now method.now }
{
    match time_column(method) {
        None => true,
        Some(place) => is_time_at(columns, place),
    }
}

fn group_compares_times(columns: &[Column], group: &Group) -> bool
    ensures { result ≡ list_all (compares_times columns.now) group.now.methods }
{
    group
        .methods
        .iter()
        .all(|method| compares_times(columns, method))
}

/// Whether the column of latest and earliest is always a DATE or a STAMP.
pub(crate) fn each_compares_times(schema: &Schema) -> bool
    ensures { result ≡ each_method compares_times schema.now }
{
    schema.tables.iter().all(
        |table: &TableEntry| -> bool
            ensures { result ≡ list_all (λ group. list_all (compares_times table.now.columns) group.methods) table.now.groups }
        {
            let columns = table.columns.as_slice();
            table
                .groups
                .iter()
                .all(|group| group_compares_times(columns, group))
        },
    )
}

fn compares_amounts(columns: &[Column], method: &Method) -> bool
    ensures { result ≡ compares_amounts columns.now method.now }
{
    match extreme_column(method) {
        None => true,
        Some(place) => is_amount_at(columns, place),
    }
}

fn group_compares_amounts(columns: &[Column], group: &Group) -> bool
    ensures { result ≡ list_all (compares_amounts columns.now) group.now.methods }
{
    group
        .methods
        .iter()
        .all(|method| compares_amounts(columns, method))
}

/// Whether the column of maximum and minimum is always a NUMBER or a DATE.
pub(crate) fn each_compares_amounts(schema: &Schema) -> bool
    ensures { result ≡ each_method compares_amounts schema.now }
{
    schema.tables.iter().all(
        |table: &TableEntry| -> bool
            ensures { result ≡ list_all (λ group. list_all (compares_amounts table.now.columns) group.methods) table.now.groups }
        {
            let columns = table.columns.as_slice();
            table
                .groups
                .iter()
                .all(|group| group_compares_amounts(columns, group))
        },
    )
}

fn has_level_at(priorities: &[PriorityGroup], place: u32) -> bool
    ensures { result ≡ has_level_at priorities.now place }
{
    match priorities.get(place as usize) {
        None => false,
        Some(group) => group.levels.len() >= 1,
    }
}

fn ranks_plain_values(priorities: &[PriorityGroup], columns: &[Column], method: &Method) -> bool
    ensures { result ≡ ranks_plain_values priorities.now columns.now method.now }
{
    match method {
        Method::Priority { column, group } => {
            is_plain_at(columns, *column) && has_level_at(priorities, *group)
        }
        Method::Latest(_)
        | Method::Earliest(_)
        | Method::Overwrite
        | Method::Discard
        | Method::Additive
        | Method::Average
        | Method::Maximum(_)
        | Method::Minimum(_)
        | Method::SitePriority(_) => true,
    }
}

fn group_ranks_plain_values(priorities: &[PriorityGroup], columns: &[Column], group: &Group) -> bool
    ensures { result ≡ list_all (ranks_plain_values priorities.now columns.now) group.now.methods }
{
    group
        .methods
        .iter()
        .all(|method| ranks_plain_values(priorities, columns, method))
}

/// Whether the column of priority is always a NUMBER, TEXT or DATE, and the priority group has a level.
pub(crate) fn each_ranks_plain_values(schema: &Schema) -> bool
    ensures { result ≡ each_method (ranks_plain_values schema.now.priorities) schema.now }
{
    let priorities = schema.priorities.as_slice();
    schema.tables.iter().all(
        |table: &TableEntry| -> bool
            ensures { result ≡ list_all (λ group. list_all (ranks_plain_values priorities.entry.now table.now.columns) group.methods) table.now.groups }
        {
            let columns = table.columns.as_slice();
            table.groups.iter().all(|group| group_ranks_plain_values(priorities, columns, group))
        },
    )
}

fn compares_sites(columns: &[Column], method: &Method) -> bool
    ensures { result ≡ compares_sites columns.now method.now }
{
    match site_column(method) {
        None => true,
        Some(place) => is_site_at(columns, place),
    }
}

fn group_compares_sites(columns: &[Column], group: &Group) -> bool
    ensures { result ≡ list_all (compares_sites columns.now) group.now.methods }
{
    group
        .methods
        .iter()
        .all(|method| compares_sites(columns, method))
}

/// Whether the column of site-priority is always a SITE.
pub(crate) fn each_compares_sites(schema: &Schema) -> bool
    ensures { result ≡ each_method compares_sites schema.now }
{
    schema.tables.iter().all(
        |table: &TableEntry| -> bool
            ensures { result ≡ list_all (λ group. list_all (compares_sites table.now.columns) group.methods) table.now.groups }
        {
            let columns = table.columns.as_slice();
            table
                .groups
                .iter()
                .all(|group| group_compares_sites(columns, group))
        },
    )
}
