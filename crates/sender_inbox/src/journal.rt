//! The room that a site takes before its journal, its error queue and its inboxes change.
ghost use Rattle.std.specs.Prelude.{◌≡◌, ◌+◌, ◌≤◌, length, None, IfSome, OnOk};
ghost use Rattle.error_queue.specs.ErrorLists.{IsOrigin, error_in, in_order};
ghost use Rattle.sender_inbox.specs.Steps.{with_error};

use crate::Inbox;
use error_queue::{ErrorEntry, Errors};
use rep_lists::{NoMemory, RoomyList};
use site_state::Entry;

/// Takes room in a journal for so many entries beside those that drop the errors that stand.
pub fn reserve_beside(
    journal: &mut RoomyList<Entry>,
    errors: &Errors,
    entries: usize,
) -> Result<(), NoMemory>
    ensures ok { OnOk result (length (in_order errors.now.lists) + entries ≤ journal.new.spare) }
    ensures items { journal.new.items ≡ journal.old.items }
    ensures spare { journal.old.spare ≤ journal.new.spare }
{
    let Some(room) = (errors.len() as usize).checked_add(entries) else {
        return Err(NoMemory);
    };
    journal.reserve(room)?;
    Ok(())
}

/// Takes the room that a position of a sender needs: in the journal for its entry, and for one that drops its error, beside
/// those that drop the errors that stand; in the error queue for its error; and in the sender's inbox.
pub fn reserve_position(
    journal: &mut RoomyList<Entry>,
    errors: &mut Errors,
    inbox: &mut Inbox,
) -> Result<(), NoMemory>
    ensures journal { OnOk result (length (in_order errors.old.lists) + 2 ≤ journal.new.spare) }
    ensures errors { OnOk result (1 ≤ errors.new.spare) }
    ensures inbox { OnOk result (1 ≤ inbox.new.marked.room) }
    ensures items { journal.new.items ≡ journal.old.items }
    ensures spare { journal.old.spare ≤ journal.new.spare }
    ensures lists { errors.new.lists ≡ errors.old.lists }
    ensures sender { inbox.new.sender ≡ inbox.old.sender }
    ensures finished { inbox.new.marked.edges ≡ inbox.old.marked.edges }
{
    reserve_beside(journal, errors, 2)?;
    errors.reserve()?;
    inbox.reserve()?;
    Ok(())
}

/// Adds an error, where there is one, for which there is room.
pub fn add_error(errors: &mut Errors, error: Option<ErrorEntry>)
    requires origin { IfSome error (λ e. IsOrigin errors.old.lists e.origin) }
    requires absent { IfSome error (λ e. error_in e.origin e.position errors.old.lists ≡ None) }
    requires room { 1 ≤ errors.old.spare }
    ensures { errors.new.lists ≡ with_error error errors.old.lists }
{
    if let Some(error) = error {
        errors.add(error);
    }
}
