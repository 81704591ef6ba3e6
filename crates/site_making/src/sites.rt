//! The sites that the end of Setup makes.
ghost use Rattle.std.specs.Prelude.{◌≡◌, ◌<◌, ℕ, true, false, [], length, map, filter, None, IfOk, OnOk};
ghost use Rattle.std.specs.List.{AllByRecursion};
ghost use Rattle.rep_values.specs.declared.name.SiteName.{SiteName as SiteNameValue};
ghost use Rattle.rep_schema.specs.Sites.{has_table, is_master_site};
ghost use Rattle.rep_laws.specs.Commuting.{IsSound};
ghost use Rattle.site_state.specs.Making.{master_here, new_site};
ghost use Rattle.site_state.specs.Fits.{SchemaIsKeyed, AreWithin, SnapshotsApart};
ghost use Rattle.site_events.specs.Rules.{IsParentWithin};
ghost use Rattle.world_state.specs.Making.{rows_made, snapshots_at, snapshot_here, rows_of_snapshots, site_made, entry_made, is_early, sites_made};
ghost use Rattle.site_making.specs.Entries.{IsEntryOf};

use crate::shown::show_each;
use crate::table_sets::{logged_at, snapshot_here};
use local_txn::{fill_base_rows, sound_schemas_fill_freely};
use page_tables::PageTables;
use rep_laws::sound_schemas_have_keys;
use rep_lists::{Copies, Items, NoMemory};
use rep_schema::{RowStore, Schema, SiteEntry, TableSet};
use rep_values::SiteName;
use schema_names::{destinations_of, first_master, is_late_master, senders_of};
use site_engine::Site;
use snapshot_query::Snapshot;
use std::alloc::Global;
use txn_effects::Here;
use world_state::DeclaredSnapshot;

/// A master site, which holds every table.
pub fn master_here(schema: &Schema, site: SiteName) -> Here
    ensures { result ≡ master_here schema.now site }
{
    Here {
        site,
        is_master: true,
        tables: TableSet::below(schema.tables.len()),
    }
}

/// Fills in the rows that masters begin with, with stamp 0 and the first declared master.
fn fill_rows(store: &mut PageTables) -> Result<(), NoMemory>
    requires { IsSound store.old.schema }
    ensures ok { OnOk result (store.new.tables ≡ rows_made store.old.schema store.old.tables) }
    ensures schema { store.new.schema ≡ store.old.schema }
{
    sound_schemas_have_keys();
    sound_schemas_fill_freely();
    match first_master(store.schema()) {
        Some(master) => fill_base_rows(store, &master),
        None => Ok(()),
    }
}

/// A copy of a store with its rows filled in.
fn filled_copy(alloc: Global, store: &PageTables) -> Result<PageTables, NoMemory>
    requires { IsSound store.now.schema }
    ensures tables { IfOk result (λ filled. filled.tables ≡ rows_made store.now.schema store.now.tables) }
    ensures schema { IfOk result (λ filled. filled.schema ≡ store.now.schema) }
    ensures keyed { IfOk result (λ filled. SchemaIsKeyed filled.schema) }
{
    sound_schemas_have_keys();
    let mut filled = store.copy(alloc)?;
    fill_rows(&mut filled)?;
    Ok(filled)
}

/// A site of a store, with the senders and destinations that its schema gives it.
fn new_site(
    alloc: Global,
    store: PageTables,
    here: Here,
    logged: &TableSet,
    snapshots: Items<Snapshot>,
) -> Result<Site<PageTables>, NoMemory>
    requires keyed { SchemaIsKeyed store.schema }
    requires master { here.is_master ≡ is_master_site store.schema here.site }
    requires logged { (table : ℕ) → has_table logged.now table ≡ true → table < 32 }
    requires within { AreWithin store.schema snapshots }
    requires apart { SnapshotsApart snapshots }
    ensures { IfOk result (λ made. made ≡ new_site store.schema here logged.now snapshots store.tables) }
{
    let senders = senders_of(alloc, store.schema(), &here.site)?;
    let destinations = destinations_of(alloc, store.schema(), &here.site)?;
    Site::make(
        alloc,
        store,
        here,
        senders.as_slice(),
        destinations.as_slice(),
        logged,
        snapshots,
    )
}

/// A master site with the rows of a store, at which nothing happened yet. It logs the tables by the logs of which snapshots of
/// its snapshot sites go.
fn master_made(
    alloc: Global,
    filled: &PageTables,
    snapshots: &[DeclaredSnapshot],
    site: SiteName,
) -> Result<Site<PageTables>, NoMemory>
    requires keyed { SchemaIsKeyed filled.now.schema }
    requires master { is_master_site filled.now.schema site ≡ true }
    ensures { IfOk result (λ made. made ≡ site_made filled.now.schema filled.now.tables snapshots.now site None) }
{
    let store = filled.copy(alloc)?;
    let here = master_here(store.schema(), site);
    let logged = logged_at(alloc, store.schema(), snapshots, &site)?;
    new_site(alloc, store, here, &logged, Items::new(alloc))
}

/// A snapshot site with the rows that its snapshots show of a store's, at which nothing happened yet.
fn snapshot_site_made(
    alloc: Global,
    filled: &PageTables,
    snapshots: &[DeclaredSnapshot],
    site: SiteName,
) -> Result<Site<PageTables>, NoMemory>
    requires keyed { SchemaIsKeyed filled.now.schema }
    requires master { is_master_site filled.now.schema site ≡ false }
    requires within { AllByRecursion (λ s. s.table < length filled.now.schema.tables) snapshots.now }
    requires parents { AllByRecursion (λ s. IsParentWithin filled.now.schema s.parent) snapshots.now }
    requires apart { SnapshotsApart (snapshots_at snapshots.now site) }
    ensures { IfOk result (λ made. made ≡ new_site filled.now.schema (snapshot_here snapshots.now site) [] (snapshots_at snapshots.now site)
        (rows_of_snapshots filled.now.schema filled.now.tables (snapshots_at snapshots.now site))) }
{
    let mut store = PageTables::make(alloc, filled.schema().copy(alloc)?)?;
    let shown = show_each(alloc, snapshots, &site, filled, &mut store)?;
    let here = snapshot_here(alloc, snapshots, site)?;
    new_site(alloc, store, here, &TableSet::below(0), shown)
}

/// The site of an entry.
fn entry_made(
    alloc: Global,
    filled: &PageTables,
    snapshots: &[DeclaredSnapshot],
    entry: &SiteEntry,
) -> Result<Site<PageTables>, NoMemory>
    requires keyed { SchemaIsKeyed filled.now.schema }
    requires entry { IsEntryOf filled.now.schema entry.now }
    requires within { AllByRecursion (λ s. s.table < length filled.now.schema.tables) snapshots.now }
    requires parents { AllByRecursion (λ s. IsParentWithin filled.now.schema s.parent) snapshots.now }
    requires apart { SnapshotsApart (snapshots_at snapshots.now entry.now.name) }
    ensures { IfOk result (λ made. made ≡ entry_made filled.now.schema filled.now.tables snapshots.now entry.now) }
{
    match &entry.master {
        None => master_made(alloc, filled, snapshots, entry.name),
        Some(_) => snapshot_site_made(alloc, filled, snapshots, entry.name),
    }
}

/// The sites of entries.
fn entries_made(
    alloc: Global,
    filled: &PageTables,
    snapshots: &[DeclaredSnapshot],
    entries: &[SiteEntry],
) -> Result<Vec<Site<PageTables>>, NoMemory>
    requires keyed { SchemaIsKeyed filled.now.schema }
    requires entries { AllByRecursion (IsEntryOf filled.now.schema) entries.now }
    requires within { AllByRecursion (λ s. s.table < length filled.now.schema.tables) snapshots.now }
    requires parents { AllByRecursion (λ s. IsParentWithin filled.now.schema s.parent) snapshots.now }
    requires apart { (site : SiteNameValue) → SnapshotsApart (snapshots_at snapshots.now site) }
    ensures { IfOk result (λ made. made.items ≡ map (entry_made filled.now.schema filled.now.tables snapshots.now) entries.now) }
{
    let mut made = Vec::new(alloc);
    for entry in entries {
        made.push(entry_made(alloc, filled, snapshots, entry)?)?;
    }
    Ok(made)
}

/// Whether a site is there from the start.
fn is_early(schema: &Schema, entry: &SiteEntry) -> bool
    ensures { result ≡ is_early schema.now entry.now }
{
    !is_late_master(schema, &entry.name)
}

/// Those of some entries whose sites are there from the start.
fn early_entries(
    alloc: Global,
    schema: &Schema,
    entries: &[SiteEntry],
) -> Result<Items<SiteEntry>, NoMemory>
    ensures { IfOk result (λ early. early ≡ filter (is_early schema.now) entries.now) }
{
    let mut early = Items::new(alloc);
    for entry in entries {
        if is_early(schema, entry) {
            early.push(*entry)?;
        }
    }
    Ok(early)
}

/// The sites that are there from the start.
fn early_sites(
    alloc: Global,
    filled: &PageTables,
    snapshots: &[DeclaredSnapshot],
) -> Result<Vec<Site<PageTables>>, NoMemory>
    requires keyed { SchemaIsKeyed filled.now.schema }
    requires within { AllByRecursion (λ s. s.table < length filled.now.schema.tables) snapshots.now }
    requires parents { AllByRecursion (λ s. IsParentWithin filled.now.schema s.parent) snapshots.now }
    requires apart { (site : SiteNameValue) → SnapshotsApart (snapshots_at snapshots.now site) }
    ensures { IfOk result (λ made. made.items ≡ sites_made filled.now.schema filled.now.tables snapshots.now) }
{
    let schema = filled.schema();
    let entries = schema.sites.as_slice();
    let early = early_entries(alloc, schema, entries)?;
    let kept = early.as_slice();
    entries_made(alloc, filled, snapshots, kept)
}

/// The declared sites that are there from the start, in declared order, made of a store whose rows are filled in with stamp 0
/// and the first declared master: masters have all of them, and log the tables by the logs of which snapshots
/// of theirs go, snapshot sites have what their snapshots show. The store stays as it is.
pub fn make_sites(
    alloc: Global,
    store: &PageTables,
    snapshots: &[DeclaredSnapshot],
) -> Result<Vec<Site<PageTables>>, NoMemory>
    requires sound { IsSound store.now.schema }
    requires within { AllByRecursion (λ s. s.table < length store.now.schema.tables) snapshots.now }
    requires parents { AllByRecursion (λ s. IsParentWithin store.now.schema s.parent) snapshots.now }
    requires apart { (site : SiteNameValue) → SnapshotsApart (snapshots_at snapshots.now site) }
    ensures { IfOk result (λ sites. sites.items ≡ sites_made store.now.schema (rows_made store.now.schema store.now.tables) snapshots.now) }
{
    let filled = filled_copy(alloc, store)?;
    early_sites(alloc, &filled, snapshots)
}
