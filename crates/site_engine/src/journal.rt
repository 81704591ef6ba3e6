//! The room that a site takes before it notes changed rows.
ghost use Rattle.std.specs.Prelude.{◌≡◌, ◌+◌, ◌≤◌, length, OnOk};
ghost use Rattle.error_queue.specs.ErrorLists.{in_order};

use change_logs::Notes;
use error_queue::Errors;
use rep_lists::{NoMemory, RoomyList};
use sender_inbox::reserve_beside;
use site_state::Entry;

/// Takes room in a journal for one entry beside those that drop the errors that stand, and to note so many changed rows.
pub(crate) fn reserve_noting(
    journal: &mut RoomyList<Entry>,
    errors: &Errors,
    notes: &mut Notes,
    changes: u64,
) -> Result<(), NoMemory>
    ensures ok { OnOk result (length (in_order errors.now.lists) + 1 ≤ journal.new.spare) }
    ensures room { OnOk result (changes ≤ notes.new.room) }
    ensures items { journal.new.items ≡ journal.old.items }
    ensures spare { journal.old.spare ≤ journal.new.spare }
    ensures logs { notes.new.logs ≡ notes.old.logs }
    ensures snapshots { notes.new.snapshots ≡ notes.old.snapshots }
{
    reserve_beside(journal, errors, 1)?;
    notes.reserve(changes)?;
    Ok(())
}
