//! Which tables masters log, and which snapshot sites hold.
ghost use Rattle.std.specs.Prelude.{◌≡◌, ◌&&◌, ◌<◌, ◌==◌, ℕ, length, IfOk};
ghost use Rattle.std.specs.List.{AllByRecursion, list_any};
ghost use Rattle.rep_schema.specs.Sites.{has_table};
ghost use Rattle.world_state.specs.Declaring.{is_snapshot_of, has_snapshot};
ghost use Rattle.world_state.specs.Making.{is_of_parents, goes_by_log, needs_log, is_snapshot_site_of, is_logged, logged_at, snapshot_here};

use rep_lists::NoMemory;
use rep_schema::{Schema, SiteEntry, TableSet};
use rep_values::SiteName;
use snapshot_query::Parent;
use std::alloc::Global;
use txn_effects::Here;
use world_state::DeclaredSnapshot;

/// Whether a declared snapshot is one of a table at a site.
fn is_snapshot_of(declared: &DeclaredSnapshot, site: &SiteName, table: u32) -> bool
    ensures { result ≡ is_snapshot_of site.now table declared.now }
{
    declared.site.is_same(site) && declared.table == table
}

/// Whether a site has a snapshot of a table.
fn has_snapshot(snapshots: &[DeclaredSnapshot], site: &SiteName, table: u32) -> bool
    ensures { result ≡ has_snapshot snapshots.now site.now table }
{
    snapshots
        .iter()
        .any(|declared| is_snapshot_of(declared, site, table))
}

/// Whether parents stand in a table.
fn is_of_parents(parent: &Option<Parent>, table: u32) -> bool
    ensures { result ≡ is_of_parents table parent.now }
{
    match parent {
        Some(parent) => parent.table == table,
        None => false,
    }
}

/// Whether a declared snapshot is one at a site that goes by the log of a table.
fn goes_by_log(declared: &DeclaredSnapshot, site: &SiteName, table: u32) -> bool
    ensures { result ≡ goes_by_log site.now table declared.now }
{
    declared.site.is_same(site)
        && (declared.table == table || is_of_parents(&declared.parent, table))
}

/// Whether some snapshot of a site goes by the log of a table.
fn needs_log(snapshots: &[DeclaredSnapshot], site: &SiteName, table: u32) -> bool
    ensures { result ≡ needs_log snapshots.now site.now table }
{
    snapshots
        .iter()
        .any(|declared| goes_by_log(declared, site, table))
}

/// Whether a site is a snapshot site of a master.
fn is_snapshot_site_of(entry: &SiteEntry, master: &SiteName) -> bool
    ensures { result ≡ is_snapshot_site_of master.now entry.now.master }
{
    match &entry.master {
        Some(own) => own.is_same(master),
        None => false,
    }
}

/// Whether some snapshot of a snapshot site of a master goes by the log of a table.
fn logs_for(
    entry: &SiteEntry,
    snapshots: &[DeclaredSnapshot],
    master: &SiteName,
    table: u32,
) -> bool
    ensures { result ≡ (is_snapshot_site_of master.now entry.now.master && needs_log snapshots.now entry.now.name table) }
{
    is_snapshot_site_of(entry, master) && needs_log(snapshots, &entry.name, table)
}

/// Whether a master logs a table.
fn is_logged(
    sites: &[SiteEntry],
    snapshots: &[DeclaredSnapshot],
    master: &SiteName,
    table: u32,
) -> bool
    ensures { result ≡ is_logged sites.now snapshots.now master.now table }
{
    sites
        .iter()
        .any(|entry| logs_for(entry, snapshots, master, table))
}

/// The set of the tables of these numbers.
fn set_of(numbers: &[u32]) -> TableSet
    requires { AllByRecursion (λ n. n < 32) numbers.now }
    ensures marks { (t : ℕ) → has_table result t ≡ list_any (λ n. n == t) numbers.now }
    ensures whole { length result ≡ 32 }
{
    TableSet::of(numbers)
}

/// The tables that a master logs.
pub(crate) fn logged_at(
    alloc: Global,
    schema: &Schema,
    snapshots: &[DeclaredSnapshot],
    master: &SiteName,
) -> Result<TableSet, NoMemory>
    ensures { IfOk result (λ logged. logged ≡ logged_at schema.now snapshots.now master.now) }
{
    let sites = schema.sites.as_slice();
    let mut numbers = Vec::new(alloc);
    for table in 0..32 {
        if is_logged(sites, snapshots, master, table) {
            numbers.push(table)?;
        }
    }
    Ok(set_of(numbers.as_slice()))
}

/// A snapshot site, which holds the tables of its snapshots.
pub(crate) fn snapshot_here(
    alloc: Global,
    snapshots: &[DeclaredSnapshot],
    site: SiteName,
) -> Result<Here, NoMemory>
    ensures { IfOk result (λ here. here ≡ snapshot_here snapshots.now site) }
{
    let mut numbers = Vec::new(alloc);
    for table in 0..32 {
        if has_snapshot(snapshots, &site, table) {
            numbers.push(table)?;
        }
    }
    Ok(Here {
        site,
        is_master: false,
        tables: set_of(numbers.as_slice()),
    })
}
