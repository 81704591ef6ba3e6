//! What a site has seen of the masters among its senders.
ghost use Rattle.std.specs.Prelude.{◌≡◌, IfOk, IfErr, OnOk};
ghost use Rattle.rep_values.specs.Order.{name_cmp};
ghost use Rattle.rep_lists.specs.Rising.{IsRising, IsThere, IsGap, put_at};
ghost use Rattle.site_state.specs.Pasts.{beside_name};
ghost use Rattle.site_engine.specs.Seen.{by_name, seen_from, past_from};

use rep_calls::PastEntry;
use rep_lists::{Items, NoMemory};
use rep_schema::Schema;
use rep_values::{SiteName, compare_names};
use schema_names::is_master_site;
use sender_inbox::Inbox;
use std::alloc::Global;
use std::cmp::Ordering;

/// The place of what is seen of a site, or else the place where it would stand.
fn search(past: &[PastEntry], site: &SiteName) -> Result<usize, usize>
    requires { IsRising by_name past.now }
    ensures found { IfOk result (IsThere (beside_name site.now) past.now) }
    ensures absent { IfErr result (IsGap (beside_name site.now) past.now) }
{
    past.binary_search_by(
        |seen: &PastEntry| -> Ordering
            ensures { result ≡ beside_name site.entry.now seen.now }
        { compare_names(&seen.origin.0, &site.0) },
    )
}

/// Puts what is seen of a site in its place, in rising order of names.
fn put_seen(past: &mut Vec<PastEntry>, seen: PastEntry) -> Result<(), NoMemory>
    requires { IsRising by_name past.old.items }
    ensures ok { OnOk result (past.new.items ≡ put_at (beside_name seen.origin) seen past.old.items) }
{
    match search(past, &seen.origin) {
        Ok(place) => past[place] = seen,
        Err(place) => past.insert(place, seen)?,
    }
    Ok(())
}

/// What is seen of a sender, where it is a master and something is seen of it.
fn seen_from(schema: &Schema, inbox: &Inbox) -> Option<PastEntry>
    ensures { result ≡ seen_from schema.now inbox.now }
{
    let number = inbox.seen();
    if number == 0 || !is_master_site(schema, inbox.origin()) {
        return None;
    }
    Some(PastEntry {
        origin: *inbox.origin(),
        number,
    })
}

/// What is seen of the masters among the senders, in rising order of names.
pub(crate) fn causal_past(
    alloc: Global,
    schema: &Schema,
    inboxes: &[Inbox],
) -> Result<Items<PastEntry>, NoMemory>
    ensures { IfOk result (λ past. past ≡ past_from schema.now inboxes.now) }
{
    let mut past = Vec::with_capacity(alloc, inboxes.len())?;
    for place in (0..inboxes.len()).rev() {
        if let Some(seen) = seen_from(schema, &inboxes[place]) {
            put_seen(&mut past, seen)?;
        }
    }
    Ok(Items::from_vec(past))
}
