//! The inboxes of a site, one for each sender.
ghost use Rattle.std.specs.Prelude.{◌≡◌, ℕ, map, slice_get, false, option_copied, IfOk};
ghost use Rattle.std.specs.List.{position, AllByRecursion};
ghost use Rattle.rep_values.specs.SiteNames.{is_same_site};
ghost use Rattle.origin_marks.specs.Marks.{finished};
ghost use Rattle.error_queue.specs.ErrorLists.{no_errors};
ghost use Rattle.site_state.specs.Making.{new_sender};
ghost use Rattle.sender_inbox.specs.Inboxes.{senders_in, inbox_of};

use crate::Inbox;
use error_queue::Errors;
use rep_lists::NoMemory;
use rep_values::SiteName;
use std::alloc::Global;

/// An inbox for each of these senders, in which nothing arrived.
fn new_inboxes(alloc: Global, senders: &[SiteName]) -> Result<Vec<Inbox>, NoMemory>
    ensures senders { IfOk result (λ inboxes. senders_in inboxes.items ≡ map new_sender senders.now) }
    ensures unfinished { IfOk result (λ inboxes. AllByRecursion (λ i. (p : ℕ) → finished i.marked p ≡ false) inboxes.items) }
{
    let mut inboxes = Vec::with_capacity(alloc, senders.len())?;
    for sender in senders {
        inboxes.push(Inbox::make(alloc, sender))?;
    }
    Ok(inboxes)
}

/// What a site has of these senders when nothing has happened: an inbox for each, and no error.
pub fn from_senders(alloc: Global, senders: &[SiteName]) -> Result<(Vec<Inbox>, Errors), NoMemory>
    ensures senders { IfOk result (λ made. senders_in made.0.items ≡ map new_sender senders.now) }
    ensures unfinished { IfOk result (λ made. AllByRecursion (λ i. (p : ℕ) → finished i.marked p ≡ false) made.0.items) }
    ensures errors { IfOk result (λ made. made.1.lists ≡ map no_errors senders.now) }
{
    let inboxes = new_inboxes(alloc, senders)?;
    let errors = Errors::make(alloc, senders)?;
    Ok((inboxes, errors))
}

/// The inbox of a sender; None exactly where the site is no sender.
pub fn inbox_from<'a>(inboxes: &'a [Inbox], origin: &SiteName) -> Option<&'a Inbox>
    ensures { option_copied result ≡ inbox_of origin.now inboxes.now }
{
    inboxes.iter().find(|inbox| inbox.is_from(origin))
}

/// The place of the inbox of a sender.
pub fn place_from(inboxes: &[Inbox], origin: &SiteName) -> Option<usize>
    ensures { result ≡ position (λ i. is_same_site i.sender.origin origin.now) inboxes.now }
{
    inboxes.iter().position(|inbox| inbox.is_from(origin))
}

/// The sender of the inbox at a place.
pub fn origin_at(inboxes: &[Inbox], place: usize) -> Option<&SiteName>
    ensures { option_copied result ≡ slice_get (map (λ i. i.sender.origin) inboxes.now) place }
{
    match inboxes.get(place) {
        Some(inbox) => Some(inbox.origin()),
        None => None,
    }
}
