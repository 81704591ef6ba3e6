//! What there is to be told of refreshes and joins.

use change_logs::{Notes, Watched};
use page_tables::PageTables;
use rep_lists::NoMemory;
use rep_schema::RowStore;
use script_parse::Refresh;
use site_engine::Site;
use std::alloc::Global;
use world::young_step;

/// Whether a refresh goes by the logs of the master.
fn goes_by_logs(how: Refresh, logs: &Notes, snapshots: &Notes) -> bool {
    match how {
        Refresh::Fast => true,
        Refresh::Complete => false,
        Refresh::Force => young_step(logs, snapshots).is_none(),
    }
}

/// How many parents of a snapshot's rows were changed at the master since its last refresh.
fn parents_of(alloc: Global, logs: &Notes, snapshot: &Watched) -> Result<u64, NoMemory> {
    let Some(parent) = snapshot.parent() else {
        return Ok(0);
    };
    let Some(log) = logs.log(parent.table) else {
        return Ok(0);
    };
    Ok(log.pending(alloc, snapshot.mark())?.len() as u64)
}

/// How many keys and parents a refresh by the logs looks up.
fn looked_up(alloc: Global, logs: &Notes, snapshots: &Notes) -> Result<u64, NoMemory> {
    let mut sum: u64 = 0;
    for place in 0..snapshots.snapshot_count() {
        let snapshot = snapshots.snapshot_at(place);
        let keys = snapshot.pending_keys(alloc, logs.log(snapshot.table()))?;
        let parents = parents_of(alloc, logs, snapshot)?;
        sum = sum
            .saturating_add(keys.len() as u64)
            .saturating_add(parents);
    }
    Ok(sum)
}

/// How many keys a refresh looks up, where it goes by the logs.
pub fn keys_of_refresh(
    alloc: Global,
    how: Refresh,
    logs: &Notes,
    snapshots: &Notes,
) -> Result<Option<u64>, NoMemory> {
    if !goes_by_logs(how, logs, snapshots) {
        return Ok(None);
    }
    Ok(Some(looked_up(alloc, logs, snapshots)?))
}

/// How many rows the snapshots of a site have.
pub fn snapshot_rows(site: &Site<PageTables>) -> u64 {
    let store = site.store();
    let snapshots = site.notes();
    let mut sum: u64 = 0;
    for place in 0..snapshots.snapshot_count() {
        let table = snapshots.snapshot_at(place).table();
        if (table as usize) < store.schema().tables.len() {
            sum = sum.saturating_add(store.count(table));
        }
    }
    sum
}

/// How many rows a site has.
pub fn all_rows(site: &Site<PageTables>) -> u64 {
    let store = site.store();
    let mut sum: u64 = 0;
    for place in 0..store.schema().tables.len() {
        if let Ok(table) = u32::try_from(place) {
            sum = sum.saturating_add(store.count(table));
        }
    }
    sum
}
