//! The snapshots of a site.
ghost use Rattle.std.specs.Prelude.{◌≡◌, ℕ, ◌+◌, ◌≤◌, length, map, IsOk, IfOk, OnOk};
ghost use Rattle.std.specs.List.{AllByRecursion};
ghost use Rattle.rep_schema.specs.Changes.{ChangeFits};
ghost use Rattle.change_logs.specs.Noting.{touched_in, renewed};
ghost use Rattle.change_logs.specs.RoomyNotes.{snapshots_in, snapshot_spares};
ghost use Rattle.rep_lists.specs.Counting.{least};

use crate::Watched;
use crate::changed::touch_in;
use rep_lists::{Items, NoMemory};
use rep_schema::{Change, Schema};
use snapshot_query::Snapshot;
use std::alloc::Global;

/// The snapshots as they are.
pub(crate) fn watch_each(
    alloc: Global,
    snapshots: Items<Snapshot>,
) -> Result<Vec<Watched>, NoMemory>
    ensures { IfOk result (λ watched. snapshots_in watched.items ≡ snapshots) }
{
    let mut watched = Vec::new(alloc);
    for snapshot in snapshots.into_vec() {
        watched.push(Watched::of(alloc, snapshot)?)?;
    }
    Ok(watched)
}

/// Takes the room to note so many keys at each snapshot.
pub(crate) fn reserve_each(watched: &mut [Watched], keys: u64) -> Result<(), NoMemory>
    ensures ok { OnOk result (keys ≤ least keys (snapshot_spares watched.new)) }
    ensures succeeds { keys ≤ least keys (snapshot_spares watched.old) → IsOk result }
    ensures snapshots { snapshots_in watched.new ≡ snapshots_in watched.old }
    ensures room { (free : ℕ) → least free (snapshot_spares watched.old) ≤ least free (snapshot_spares watched.new) }
{
    for one in watched.iter_mut() {
        one.reserve(keys)?;
    }
    Ok(())
}

/// Notes changed rows at the snapshots of their tables.
pub(crate) fn touch_each(watched: &mut [Watched], schema: &Schema, changes: &[Change])
    requires fits { AllByRecursion (ChangeFits schema.now) changes.now }
    requires room { length changes.now ≤ least (length changes.now) (snapshot_spares watched.old) }
    ensures snapshots { snapshots_in watched.new ≡ map (touched_in schema.now changes.now) (snapshots_in watched.old) }
    ensures room { (free : ℕ) → least free (snapshot_spares watched.old) ≤ least free (snapshot_spares watched.new) + length changes.now }
{
    for one in watched.iter_mut() {
        touch_in(one, schema, changes);
    }
}

/// Each snapshot is refreshed at a moment of its master.
pub(crate) fn renew_each(watched: &mut [Watched], moment: u64)
    ensures snapshots { snapshots_in watched.new ≡ map (renewed moment) (snapshots_in watched.old) }
    ensures room { (free : ℕ) → least free (snapshot_spares watched.old) ≤ least free (snapshot_spares watched.new) }
{
    for one in watched.iter_mut() {
        one.renew(moment);
    }
}
