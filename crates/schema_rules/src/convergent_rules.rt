//! The rules of convergent tables.
ghost use Rattle.std.specs.Prelude.{◌≡◌, ◌&&◌, ◌||◌, ◌==◌, not, length, is_some, option_copied};
ghost use Rattle.std.specs.List.{list_any, list_all, find};
ghost use Rattle.std.specs.Option.{option_eq};
ghost use Rattle.std.specs.Ordering.{int_eq};
ghost use Rattle.rep_schema.specs.Groups.{is_grouped, shadow_from};
ghost use Rattle.schema_rules.specs.ConvergentRules.{each_convergent, is_keyed_by_site, has_groups_alone, have_forms, share_a_level, are_levelled, has_levels};

use crate::forms::form_of;
use rep_schema::{Column, Group, Schema, SiteEntry, TableEntry, is_grouped};

fn first_key(columns: &[Column]) -> Option<&Column>
    ensures { option_copied result ≡ find (λ column. column.key) columns.now }
{
    columns.iter().find(|column| column.key)
}

fn is_keyed_by_site(table: &TableEntry) -> bool
    ensures { result ≡ is_keyed_by_site table.now }
{
    match first_key(table.columns.as_slice()) {
        None => false,
        Some(column) => column.kind.is_site_kind(),
    }
}

/// Whether the first key column of a convergent table is a SITE.
pub(crate) fn each_is_keyed_by_site(schema: &Schema) -> bool
    ensures { result ≡ each_convergent is_keyed_by_site schema.now }
{
    schema
        .tables
        .iter()
        .all(|table| !table.convergent || is_keyed_by_site(table))
}

/// Whether every column is a key column or in a group.
fn has_no_shadow(groups: &[Group], columns: &[Column]) -> bool
    ensures { result ≡ (length (shadow_from groups.now 0 columns.now) == 0) }
{
    for i in 0..columns.len() {
        if !(columns[i].key || is_grouped(groups, i)) {
            return false;
        }
    }
    true
}

fn has_groups_alone(table: &TableEntry) -> bool
    ensures { result ≡ has_groups_alone table.now }
{
    table.constraints.len() == 0
        && has_no_shadow(table.groups.as_slice(), table.columns.as_slice())
        && table.key_methods.len() == 0
}

/// Whether a convergent table has no secondary constraint, no shadow column and no method of the key.
pub(crate) fn each_has_groups_alone(schema: &Schema) -> bool
    ensures { result ≡ each_convergent has_groups_alone schema.now }
{
    schema
        .tables
        .iter()
        .all(|table| !table.convergent || has_groups_alone(table))
}

fn have_forms(table: &TableEntry) -> bool
    ensures { result ≡ have_forms table.now }
{
    let columns = table.columns.as_slice();
    table
        .groups
        .iter()
        .all(|group| form_of(columns, group).is_some())
}

/// Whether every group of a convergent table has one of the four forms.
pub(crate) fn each_has_forms(schema: &Schema) -> bool
    ensures { result ≡ each_convergent have_forms schema.now }
{
    schema
        .tables
        .iter()
        .all(|table| !table.convergent || have_forms(table))
}

fn has_convergent(tables: &[TableEntry]) -> bool
    ensures { result ≡ list_any (λ table. table.convergent) tables.now }
{
    tables.iter().any(|table| table.convergent)
}

fn have_levels(sites: &[SiteEntry]) -> bool
    ensures { result ≡ list_all (λ site. is_some site.level) sites.now }
{
    sites.iter().all(|site| site.level.is_some())
}

fn has_level(sites: &[SiteEntry], level: Option<i64>) -> bool
    ensures { result ≡ list_any (λ site. option_eq int_eq level site.level) sites.now }
{
    sites.iter().any(|site| level == site.level)
}

fn share_a_level(sites: &[SiteEntry]) -> bool
    ensures { result ≡ share_a_level sites.now }
{
    for i in 0..sites.len() {
        if has_level(&sites[i + 1..], sites[i].level) {
            return true;
        }
    }
    false
}

fn are_levelled(sites: &[SiteEntry]) -> bool
    ensures { result ≡ are_levelled sites.now }
{
    have_levels(sites) && !share_a_level(sites)
}

/// Whether every site has a level and all levels differ, where there is a convergent table.
pub(crate) fn has_levels(schema: &Schema) -> bool
    ensures { result ≡ has_levels schema.now }
{
    !has_convergent(schema.tables.as_slice()) || are_levelled(schema.sites.as_slice())
}
