//! The passes of a receiver: one for the sender that pushed, and then rounds until nothing is ready.
ghost use Rattle.std.specs.Prelude.{◌≡◌, ◌+◌, ◌<◌, ◌^◌, ◌∷◌, Bool, false, length, drop, is_some, IfOk, IfErr};
ghost use Rattle.std.specs.List.{list_any};
ghost use Rattle.site_state.specs.declared.entry.Entry.{Entry};
ghost use Rattle.rep_lists.specs.Counting.{count_where};
ghost use Rattle.site_state.specs.Passes.{site_pass, is_done, is_error, added_count};
ghost use Rattle.site_state.specs.Rounds.{has_ready, passed_where_ready, round, sender_names, site_until_quiet};
ghost use Rattle.site_rounds.specs.Parts.{PartlyApplied, MastersCanPass, Passes};

use crate::passed::{NOTHING, Passed, added, joined};
use crate::passing::Passing;
use page_tables::PageTables;
use rep_lists::NoMemory;
use rep_schema::RowStore;
use rep_values::SiteName;
use site_engine::Site;
use site_state::PassCount;
use std::alloc::Global;

/// The sender at a place that has one.
fn sender_at<R: RowStore>(site: &Site<R>, place: usize) -> &SiteName
    requires { place < length site.now.senders }
    ensures { drop place (sender_names site.now.senders) ≡ result.now ∷ drop (place + 1) (sender_names site.now.senders) }
{
    match site.sender(place) {
        Some(origin) => origin,
        None => unreachable!(),
    }
}

/// Whether some position of a sender is ready.
fn has_ready<R: RowStore>(site: &Site<R>, origin: &SiteName) -> bool
    ensures { result ≡ has_ready origin.now site.now }
{
    site.arrivals_are_from_one(origin);
    site.lowest_ready(origin, 0).is_some()
}

/// A journal has no more entries of a kind than a number holds.
fn entries_fit<R: RowStore>(site: &Site<R>)
    ensures { (test : Entry → Bool) → count_where test site.now.journal < 2 ^ 64 }
{
    let _ = site.journal_len();
}

/// A pass for a sender. Where there is no memory, some positions are applied, or none.
fn pass<P: Passing>(
    alloc: Global,
    passing: &P,
    site: Site<PageTables>,
    origin: &SiteName,
) -> Result<(Site<PageTables>, PassCount), (Site<PageTables>, NoMemory)>
    requires able { P.able passing.now }
    requires masters { MastersCanPass site }
    ensures ok { IfOk result (λ made. made.0 ≡ site_pass origin.now site) }
    ensures passes { IfOk result (λ made. Passes site made.0 made.1) }
    ensures err { IfErr result (λ stopped. PartlyApplied site stopped.0) }
{
    // No machine makes so many passes.
    if site.moment() == u64::MAX {
        return Err((site, NoMemory));
    }
    let (site, count) = passing.pass(alloc, site, origin)?;
    site.laws();
    Ok((site, count))
}

/// A pass for a sender of which some position is ready; else nothing.
fn pass_where_ready<P: Passing>(
    alloc: Global,
    passing: &P,
    site: Site<PageTables>,
    origin: &SiteName,
) -> Result<(Site<PageTables>, Passed), (Site<PageTables>, NoMemory)>
    requires able { P.able passing.now }
    requires masters { MastersCanPass site }
    ensures ok { IfOk result (λ made. made.0 ≡ passed_where_ready origin.now site) }
    ensures passes { IfOk result (λ made. Passes site made.0 made.1.count) }
    ensures some { IfOk result (λ made. made.1.some ≡ has_ready origin.now site) }
    ensures err { IfErr result (λ stopped. PartlyApplied site stopped.0) }
{
    if !has_ready(&site, origin) {
        return Ok((site, NOTHING));
    }
    let (site, count) = pass(alloc, passing, site, origin)?;
    Ok((site, Passed { count, some: true }))
}

/// A round: one sender after the other in declared order, each with a pass where some position of its is ready then.
fn round<P: Passing>(
    alloc: Global,
    passing: &P,
    mut site: Site<PageTables>,
) -> Result<(Site<PageTables>, Passed), (Site<PageTables>, NoMemory)>
    requires able { P.able passing.now }
    requires masters { MastersCanPass site }
    ensures ok { IfOk result (λ made. made.0 ≡ round (sender_names site.senders) site) }
    ensures passes { IfOk result (λ made. Passes site made.0 made.1.count) }
    ensures none { IfOk result (λ made. made.1.some ≡ false → list_any (λ origin. has_ready origin site) (sender_names site.senders) ≡ false) }
    ensures err { IfErr result (λ stopped. PartlyApplied site stopped.0) }
{
    let mut passed = NOTHING;
    for place in 0..site.sender_count() {
        let origin = *sender_at(&site, place);
        let (next, more) = pass_where_ready(alloc, passing, site, &origin)?;
        entries_fit(&next);
        site = next;
        passed = joined(passed, more);
    }
    Ok((site, passed))
}

/// What a receiver does with all that has arrived, once a sender pushed: a pass for that sender, and then rounds, one sender
/// after the other in declared order, each with a pass where some position of its is ready, until a round does nothing. It
/// answers the site then, and how many transactions were finished. Where there is no memory, some of these passes are made, the
/// last perhaps in part.
pub fn apply_until_quiet<P: Passing>(
    alloc: Global,
    passing: &P,
    site: Site<PageTables>,
    origin: &SiteName,
) -> Result<(Site<PageTables>, PassCount), (Site<PageTables>, NoMemory)>
    requires able { P.able passing.now }
    requires masters { MastersCanPass site }
    ensures ok { IfOk result (λ made. made.0 ≡ site_until_quiet origin.now site) }
    ensures count { IfOk result (λ made. (made.1.done ≡ added_count is_done site made.0) × (made.1.errors ≡ added_count is_error site made.0)) }
    ensures err { IfErr result (λ stopped. PartlyApplied site stopped.0) }
{
    let (mut site, mut count) = pass(alloc, passing, site, origin)?;
    for _ in 0..u64::MAX {
        let (next, more) = round(alloc, passing, site)?;
        site = next;
        if !more.some {
            return Ok((site, count));
        }
        entries_fit(&site);
        count = added(count, more.count);
    }
    // No machine makes so many rounds.
    Err((site, NoMemory))
}
