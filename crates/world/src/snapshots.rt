//! Why a snapshot is refused.
ghost use Rattle.std.specs.Prelude.{◌≡◌};
ghost use Rattle.std.specs.List.{list_all};
ghost use Rattle.rep_values.specs.RefusalSteps.{first_refusal, known};
ghost use Rattle.rep_schema.specs.declared.schema.Column.{Column as ColumnValue};
ghost use Rattle.rep_schema.specs.Tables.{columns_of, key_columns};
ghost use Rattle.rep_schema.specs.Kinds.{is_some_and};
ghost use Rattle.rep_schema.specs.Named.{has_column, column_named, table_place};
ghost use Rattle.rep_schema.specs.Shape.{HasShape};
ghost use Rattle.site_events.specs.Events.{master_of};
ghost use Rattle.world_state.specs.Declaring.{has_snapshot};
ghost use Rattle.world_state.specs.Refusals.{are_alike, hold_keys, parent_steps, named_snapshot_steps};

use crate::WorldParts;
use crate::testing::tests_refusal;
use rep_schema::{Column, Kind, RowStore, Schema, columns_of};
use rep_values::{Name, Refusal, SiteName, TableName};
use schema_names::{find_column, find_site, has_column, table_place};
use script_parse::{ParentWords, TestWords};
use world_state::DeclaredSnapshot;

/// The master of a snapshot site.
pub fn master_of(schema: &Schema, site: &SiteName) -> Option<SiteName>
    ensures { result ≡ master_of schema.now site.now }
{
    let entry = find_site(schema.sites.as_slice(), site)?;
    entry.master
}

fn has_snapshot(snapshots: &[DeclaredSnapshot], site: &SiteName, table: usize) -> bool
    ensures { result ≡ has_snapshot snapshots.now site.now table }
{
    snapshots.iter().any(|snapshot| snapshot.site.is_same(site) && snapshot.table as usize == table)
}

// Of two kinds both take numbers, or both take texts.
fn are_alike(one: Kind, other: Kind) -> bool
    ensures { result ≡ are_alike one other }
{
    if one.takes_numbers() {
        other.takes_numbers()
    } else {
        !other.takes_numbers()
    }
}

// A column of this name holds values as a key column does.
fn is_alike(columns: &[Column], name: &Name, key: &Column) -> bool
    ensures { result ≡ is_some_and (λ (c : ColumnValue). are_alike c.kind key.now.kind) (column_named columns.now name.now) }
{
    match find_column(columns, name) {
        Some(column) => are_alike(column.kind, key.kind),
        None => false,
    }
}

// Columns hold keys: they are as many as the key columns, and alike in kind.
fn hold_keys(columns: &[Column], names: &[Name], parents: &[Column]) -> bool
    ensures { result ≡ hold_keys columns.now names.now (key_columns parents.now) }
{
    let mut names_left = names;
    let mut parents_left = parents;
    while let [column, parents @ ..] = parents_left {
        if column.key {
            let [name, names @ ..] = names_left else {
                return false;
            };
            if !is_alike(columns, name, column) {
                return false;
            }
            names_left = names;
        }
        parents_left = parents;
    }
    names_left.is_empty()
}

fn have_columns(columns: &[Column], names: &[Name]) -> bool
    ensures { result ≡ list_all (has_column columns.now) names.now }
{
    names.iter().all(|name| has_column(columns, name))
}

// The parents of a snapshot: their table, the columns that hold their keys, and the tests of their rows.
fn parent_refusal(
    schema: &Schema,
    own: &[Column],
    parent: &ParentWords,
    tests: &[TestWords],
) -> Option<Refusal>
    requires { HasShape schema.now }
    ensures { result ≡ first_refusal (known (table_place schema.now parent.now.table) (λ place. parent_steps own.now (columns_of schema.now place) parent.now.columns tests.now)) }
{
    let Some(place) = table_place(schema.tables.as_slice(), &parent.table) else {
        return Some(Refusal::UnknownName);
    };
    let parents = columns_of(schema, place as u32);
    let names = parent.columns.as_slice();
    if !have_columns(own, names) {
        return Some(Refusal::UnknownName);
    }
    tests_refusal(hold_keys(own, names, parents), parents, tests)
}

impl WorldParts {
    // A snapshot of a table at a snapshot site.
    pub(crate) fn snapshot_refusal(
        &self,
        site: &SiteName,
        table: &TableName,
        parent: &Option<ParentWords>,
        tests: &[TestWords],
    ) -> Option<Refusal>
        requires { HasShape self.now.schema }
        ensures { result ≡ first_refusal (named_snapshot_steps self.now site.now table.now parent.now tests.now) }
    {
        let schema = self.store.schema();
        if master_of(schema, site).is_none() {
            return Some(Refusal::UnknownName);
        }
        let Some(place) = table_place(schema.tables.as_slice(), table) else {
            return Some(Refusal::UnknownName);
        };
        if has_snapshot(self.snapshots.as_slice(), site, place) {
            return Some(Refusal::NameTaken);
        }
        let columns = columns_of(schema, place as u32);
        match parent {
            Some(parent) => parent_refusal(schema, columns, parent, tests),
            None => tests_refusal(true, columns, tests),
        }
    }
}
