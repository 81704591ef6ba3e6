//! The snapshots of a site, and their rows.
ghost use Rattle.std.specs.Prelude.{◌≡◌, ◌<◌, [], length, filter, slice_set, IfOk, OnOk};
ghost use Rattle.std.specs.List.{AllByRecursion};
ghost use Rattle.rep_schema.specs.Tables.{rows_of, IsTable};
ghost use Rattle.snapshot_query.specs.Parents.{picks_by};
ghost use Rattle.site_state.specs.Fits.{SchemaIsKeyed};
ghost use Rattle.site_state.specs.Refreshes.{with_tables};
ghost use Rattle.site_events.specs.Rules.{rows_ruled, IsParentWithin};
ghost use Rattle.world_state.specs.Making.{snapshots_at};

use page_tables::PageTables;
use refreshes::{refresh_complete, rows_shown};
use rep_lists::{Copies, Items, NoMemory};
use rep_values::{Row, SiteName};
use snapshot_query::Snapshot;
use std::alloc::Global;
use subquery_snapshots::{Rule, rows_full};
use world_state::DeclaredSnapshot;

/// A declared snapshot, not refreshed yet.
fn new_snapshot(alloc: Global, declared: &DeclaredSnapshot) -> Result<Snapshot, NoMemory>
    ensures { IfOk result (λ made. made ≡ record { table = declared.now.table; query = declared.now.query; parent = declared.now.parent; mark = 0; touched = [] }) }
{
    let parent = match &declared.parent {
        Some(parent) => Some(parent.copy(alloc)?),
        None => None,
    };
    Ok(Snapshot {
        table: declared.table,
        query: declared.query.copy(alloc)?,
        parent,
        mark: 0,
        touched: Items::new(alloc),
    })
}

/// The rows of a store that a declared snapshot picks.
fn rows_picked(
    alloc: Global,
    declared: &DeclaredSnapshot,
    filled: &PageTables,
) -> Result<Items<Row>, NoMemory>
    requires keyed { SchemaIsKeyed filled.now.schema }
    requires within { declared.now.table < length filled.now.schema.tables }
    requires parents { IsParentWithin filled.now.schema declared.now.parent }
    ensures table { IfOk result (λ rows. IsTable filled.now.schema declared.now.table rows) }
    ensures rows { IfOk result (λ rows. rows ≡ filter (picks_by filled.now.schema filled.now.tables declared.now.query declared.now.parent) (rows_of filled.now.tables declared.now.table)) }
{
    match &declared.parent {
        Some(parent) => rows_full(alloc, filled, declared.table, &Rule::Parent(parent)),
        None => rows_shown(alloc, &declared.query, filled, declared.table),
    }
}

/// A declared snapshot, whose rows are put into a store: those that it picks of another store's.
fn show_one(
    alloc: Global,
    declared: &DeclaredSnapshot,
    filled: &PageTables,
    store: &mut PageTables,
) -> Result<Snapshot, NoMemory>
    requires keyed { SchemaIsKeyed store.old.schema }
    requires schema { filled.now.schema ≡ store.old.schema }
    requires within { declared.now.table < length store.old.schema.tables }
    requires parents { IsParentWithin store.old.schema declared.now.parent }
    ensures made { IfOk result (λ made. made ≡ record { table = declared.now.table; query = declared.now.query; parent = declared.now.parent; mark = 0; touched = [] }) }
    ensures tables { OnOk result (store.new.tables ≡ slice_set store.old.tables declared.now.table (filter (picks_by filled.now.schema filled.now.tables declared.now.query declared.now.parent) (rows_of filled.now.tables declared.now.table))) }
    ensures schema { store.new.schema ≡ store.old.schema }
{
    let mut snapshot = new_snapshot(alloc, declared)?;
    let rows = rows_picked(alloc, declared, filled)?;
    refresh_complete(alloc, &mut snapshot, store, rows.as_slice(), 0)?;
    Ok(snapshot)
}

/// The snapshots of a site, whose rows are put into a store: those that they pick of another store's.
pub(crate) fn show_each(
    alloc: Global,
    snapshots: &[DeclaredSnapshot],
    site: &SiteName,
    filled: &PageTables,
    store: &mut PageTables,
) -> Result<Items<Snapshot>, NoMemory>
    requires keyed { SchemaIsKeyed store.old.schema }
    requires schema { filled.now.schema ≡ store.old.schema }
    requires within { AllByRecursion (λ s. s.table < length store.old.schema.tables) snapshots.now }
    requires parents { AllByRecursion (λ s. IsParentWithin store.old.schema s.parent) snapshots.now }
    ensures made { IfOk result (λ made. made ≡ snapshots_at snapshots.now site.now) }
    ensures tables { OnOk result (store.new.tables ≡ with_tables (rows_ruled filled.now.schema filled.now.tables (snapshots_at snapshots.now site.now)) store.old.tables) }
    ensures schema { store.new.schema ≡ store.old.schema }
{
    let mut made = Items::new(alloc);
    for declared in snapshots {
        if declared.site.is_same(site) {
            made.push(show_one(alloc, declared, filled, store)?)?;
        }
    }
    Ok(made)
}
