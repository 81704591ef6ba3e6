ghost use Rattle.std.specs.Prelude.{◌≡◌, ◌+◌, ◌≤◌, ◌++◌, length, drop, reverse, IfOk, OnOk, OnErr};
ghost use Rattle.journal_sort.specs.Sorting.{finish_position, PositionsDiffer, IsSorted};

use rep_lists::{NoMemory, RoomyList};
use site_state::Entry;
use std::alloc::Global;

/// The position that an entry finishes, 0 where it finishes none.
fn finished_position(entry: &Entry) -> u64
    ensures { result ≡ finish_position entry.now }
{
    match entry {
        Entry::Done { position, .. } | Entry::Error { position, .. } => *position,
        Entry::Local { .. }
        | Entry::Executed { .. }
        | Entry::Dropped { .. }
        | Entry::Refreshed { .. } => 0,
    }
}

/// Takes the entries from a place on away, the last first. Their room in the list stays.
fn take_from(
    alloc: Global,
    journal: &mut RoomyList<Entry>,
    place: usize,
) -> Result<Vec<Entry>, NoMemory>
    requires { place ≤ length journal.old.items }
    ensures items { IfOk result (λ taken. journal.old.items ≡ journal.new.items ++ reverse taken.items) }
    ensures place { OnOk result (length journal.new.items ≡ place) }
    ensures err { OnErr result (journal.new.items ≡ journal.old.items) }
    ensures spare { journal.new.spare + (length journal.new.items) ≡ journal.old.spare + (length journal.old.items) }
{
    // The room comes first, so that what follows can't fail.
    let mut taken = Vec::with_capacity(alloc, journal.len() - place)?;
    while place < journal.len() {
        let last = journal.len() - 1;
        taken.push_reserved(journal.remove(last));
    }
    Ok(taken)
}

/// Puts entries behind those of a list.
fn put_back(journal: &mut RoomyList<Entry>, entries: Vec<Entry>)
    requires { length entries.items ≤ journal.old.spare }
    ensures items { journal.new.items ≡ journal.old.items ++ entries.items }
    ensures spare { journal.new.spare + (length entries.items) ≡ journal.old.spare }
{
    for entry in entries {
        journal.push(entry);
    }
}

/// Puts the entries from a place on into rising order of position. The oldest entry stands first in the list.
pub fn sort_from(alloc: Global, journal: &mut RoomyList<Entry>, place: u64) -> Result<(), NoMemory>
    requires place { place ≤ length journal.old.items }
    requires positions { PositionsDiffer (drop place journal.old.items) }
    ensures ok { OnOk result (IsSorted place (reverse journal.old.items) (reverse journal.new.items)) }
    ensures err { OnErr result (journal.new.items ≡ journal.old.items) }
    ensures spare { journal.old.spare ≤ journal.new.spare }
{
    let mut entries = take_from(alloc, journal, place as usize)?;
    entries.sort_unstable_by_key(|entry| finished_position(entry));
    put_back(journal, entries);
    Ok(())
}
