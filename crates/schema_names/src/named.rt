//! What stands in a schema under a name.
ghost use Rattle.std.specs.Prelude.{◌≡◌, ◌&&◌, ◌<◌, ◌==◌, List, ℕ, length, option_copied};
ghost use Rattle.std.specs.List.{find, list_any, position};
ghost use Rattle.rep_values.specs.Name.{same_bytes};
ghost use Rattle.rep_schema.specs.Shape.{is_early_master};
ghost use Rattle.rep_schema.specs.Named.{is_site, is_table, is_column, is_group, is_constraint, is_check, is_priority, has_column, group_name};

use rep_schema::{
    Check, Column, Constraint, Group, PriorityGroup, SHADOW, Schema, SiteEntry, TableEntry,
    groups_of, has_place, shadow_name,
};
use rep_values::{Name, SiteName, TableName};

/// What stands on columns of a table under a name: a group or a secondary constraint.
pub trait OnColumns {
    ghost name: { Self → List ℕ };

    ghost columns: { Self → List ℕ };

    /// Its name.
    fn name(&self) -> &Name
        ensures { result.now ≡ name self.now };

    /// The places of its columns.
    fn columns(&self) -> &[u32]
        ensures { result.now ≡ columns self.now };
}

impl OnColumns for Group {
    ghost name = { λ g. g.name };

    ghost columns = { λ g. g.columns };

    fn name(&self) -> &Name {
        &self.name
    }

    fn columns(&self) -> &[u32] {
        self.columns.as_slice()
    }
}

impl OnColumns for Constraint {
    ghost name = { λ c. c.name };

    ghost columns = { λ c. c.columns };

    fn name(&self) -> &Name {
        &self.name
    }

    fn columns(&self) -> &[u32] {
        self.columns.as_slice()
    }
}

/// What has the name, of groups or of constraints.
fn find_named<'a, X: OnColumns>(all: &'a [X], name: &Name) -> Option<&'a X>
    ensures { option_copied result ≡ find (λ x. same_bytes (X.name x) name.now) all.now }
{
    all.iter().find(|one| one.name().is_same(name))
}

/// The group of a name.
pub fn find_group<'a>(groups: &'a [Group], name: &Name) -> Option<&'a Group>
    ensures { option_copied result ≡ find (is_group name.now) groups.now }
{
    find_named(groups, name)
}

/// The secondary constraint of a name.
pub fn find_constraint<'a>(constraints: &'a [Constraint], name: &Name) -> Option<&'a Constraint>
    ensures { option_copied result ≡ find (is_constraint name.now) constraints.now }
{
    find_named(constraints, name)
}

/// The place of the group of a name.
pub fn group_place(groups: &[Group], name: &Name) -> Option<usize>
    ensures { result ≡ position (is_group name.now) groups.now }
{
    groups.iter().position(|group| group.name.is_same(name))
}

/// The place of the secondary constraint of a name.
pub fn constraint_place(constraints: &[Constraint], name: &Name) -> Option<usize>
    ensures { result ≡ position (is_constraint name.now) constraints.now }
{
    constraints
        .iter()
        .position(|constraint| constraint.name.is_same(name))
}

/// The check of a name.
pub fn find_check<'a>(checks: &'a [Check], name: &Name) -> Option<&'a Check>
    ensures { option_copied result ≡ find (is_check name.now) checks.now }
{
    checks.iter().find(|check| check.name.is_same(name))
}

/// Whether a column stands in one of these groups or constraints.
pub fn is_taken<X: OnColumns>(all: &[X], place: usize) -> bool
    ensures { result ≡ list_any (λ x. list_any (λ c. c == place) (X.columns x)) all.now }
{
    all.iter().any(|one| has_place(one.columns(), place))
}

/// The site of a name.
pub fn find_site<'a>(sites: &'a [SiteEntry], name: &SiteName) -> Option<&'a SiteEntry>
    ensures { option_copied result ≡ find (is_site name.now) sites.now }
{
    sites.iter().find(|site| site.name.is_same(name))
}

/// The place of the site of a name.
pub fn site_place(sites: &[SiteEntry], name: &SiteName) -> Option<usize>
    ensures { result ≡ position (is_site name.now) sites.now }
{
    sites.iter().position(|site| site.name.is_same(name))
}

/// Whether a master site that is there from the start has the name.
pub fn has_master(sites: &[SiteEntry], name: &SiteName) -> bool
    ensures { result ≡ list_any (λ site. is_site name.now site && is_early_master site) sites.now }
{
    sites
        .iter()
        .any(|site| site.name.is_same(name) && site.is_early_master())
}

/// The table of a name.
pub fn find_table<'a>(tables: &'a [TableEntry], name: &TableName) -> Option<&'a TableEntry>
    ensures { option_copied result ≡ find (is_table name.now) tables.now }
{
    tables.iter().find(|table| table.name.is_same(name))
}

/// The number of the table of a name.
pub fn table_place(tables: &[TableEntry], name: &TableName) -> Option<usize>
    ensures { result ≡ position (is_table name.now) tables.now }
{
    tables.iter().position(|table| table.name.is_same(name))
}

/// The priority group of a name.
pub fn find_priority<'a>(groups: &'a [PriorityGroup], name: &Name) -> Option<&'a PriorityGroup>
    ensures { option_copied result ≡ find (is_priority name.now) groups.now }
{
    groups.iter().find(|group| group.name.is_same(name))
}

/// The column of a name.
pub fn find_column<'a>(columns: &'a [Column], name: &Name) -> Option<&'a Column>
    ensures { option_copied result ≡ find (is_column name.now) columns.now }
{
    columns.iter().find(|column| column.name.is_same(name))
}

/// The place of the column of a name.
pub fn column_place(columns: &[Column], name: &Name) -> Option<usize>
    ensures { result ≡ position (is_column name.now) columns.now }
{
    columns.iter().position(|column| column.name.is_same(name))
}

/// The place of the priority group of a name.
pub fn priority_place(groups: &[PriorityGroup], name: &Name) -> Option<usize>
    ensures { result ≡ position (is_priority name.now) groups.now }
{
    groups.iter().position(|group| group.name.is_same(name))
}

/// Whether a column has the name.
pub fn has_column(columns: &[Column], name: &Name) -> bool
    ensures { result ≡ has_column columns.now name.now }
{
    columns.iter().any(|column| column.name.is_same(name))
}

/// The name of a table's group, by the group's number.
pub fn group_name(schema: &Schema, table: u32, group: u8) -> Name
    requires { table < length schema.now.tables }
    ensures { result ≡ group_name schema.now table group }
{
    if group == SHADOW {
        return shadow_name();
    }
    match groups_of(schema, table).get(group as usize) {
        Some(named) => named.name,
        None => shadow_name(),
    }
}
