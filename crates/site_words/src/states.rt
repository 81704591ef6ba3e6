//! What became of a position that was sent.

use deferred_queue::Sent;
use net_plan::Fate;
use page_tables::PageTables;
use rep_calls::PastEntry;
use site_engine::Site;
use std::fmt;

/// What became of a position.
#[derive(Clone, Copy)]
pub enum State<'a> {
    Lost(u64),
    Held(u64),
    /// It didn't arrive, and this push says no reason.
    Missing(u64),
    /// It waits for earlier positions of its own stream: all up to one, of which this is the first.
    Behind { position: u64, first: u64, dep: u64 },
    /// It waits for a transaction of another master.
    After { position: u64, past: &'a PastEntry },
    /// It arrived, and isn't finished.
    Waits(u64),
}

/// A position that waits for a transaction of another master.
fn put_after<W: fmt::Write>(
    f: &mut fmt::Formatter<W>,
    position: u64,
    past: &PastEntry,
) -> fmt::Result {
    let PastEntry { number, origin } = past;
    write!(
        f,
        "position {position} waits for transaction {number} of {origin}, which its sender had seen before"
    )
}

impl<'a> fmt::Display for State<'a> {
    fn fmt<W: fmt::Write>(&self, f: &mut fmt::Formatter<W>) -> fmt::Result {
        match self {
            State::Lost(position) => write!(f, "position {position} was lost: push again"),
            State::Held(position) => write!(
                f,
                "position {position} is held until the next push between the two sites, in either direction, that finds its own direction up"
            ),
            State::Missing(position) => write!(f, "position {position} didn't arrive: push again"),
            State::Behind {
                position,
                first,
                dep,
            } => write!(
                f,
                "position {position} waits for all up to position {dep} of its sender, of which {first} isn't finished"
            ),
            State::After { position, past } => put_after(f, *position, past),
            State::Waits(position) => write!(f, "position {position} arrived, and waits"),
        }
    }
}

/// The transaction of another master that one waits for at a site, if there is one.
fn missing_past<'a>(site: &Site<PageTables>, past: &'a [PastEntry]) -> Option<&'a PastEntry> {
    past.iter().find(|one| !one.origin.is_same(site.name())
        && site.covered(&one.origin) < one.number)
}

/// What became of a position that didn't arrive.
fn missing(position: u64, fate: Fate) -> State<'static> {
    match fate {
        Fate::Lose => State::Lost(position),
        Fate::Late => State::Held(position),
        Fate::Pass | Fate::Twice => State::Missing(position),
    }
}

/// For which transaction of another master a position waits at a site, if that is known.
fn after<'a>(site: &Site<PageTables>, position: u64, past: &'a [PastEntry]) -> State<'a> {
    match missing_past(site, past) {
        Some(past) => State::After { position, past },
        None => State::Waits(position),
    }
}

/// For what a position waits at a site, up to whose mark all positions are finished.
fn waiting<'a>(site: &Site<PageTables>, position: u64, mark: u64, sent: &Sent<'a>) -> State<'a> {
    if sent.dep > mark {
        return State::Behind {
            position,
            first: mark.saturating_add(1),
            dep: sent.dep,
        };
    }
    after(site, position, sent.past)
}

/// What became of a position that arrived.
fn arrived<'a>(sender: &'a Site<PageTables>, site: &Site<PageTables>, position: u64) -> State<'a> {
    match sender.queue().entry(site.name(), position) {
        Some(sent) => waiting(site, position, site.mark(sender.name()), &sent),
        None => State::Waits(position),
    }
}

/// What became of a position of a sender at the receiver, where it isn't finished.
pub fn state_of<'a>(
    sender: &'a Site<PageTables>,
    site: &Site<PageTables>,
    position: u64,
    fate: Fate,
) -> Option<State<'a>> {
    if site.is_finished(sender.name(), position) {
        return None;
    }
    Some(if site.has_arrived(sender.name(), position) {
        arrived(sender, site, position)
    } else {
        missing(position, fate)
    })
}
