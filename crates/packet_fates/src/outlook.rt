//! What there is to be seen before a push.

use crate::arrivals::Arrivals;
use crate::packet::{Cargo, Traffic};
use crate::station::Station;
use crate::ways::{Way, Ways};
use rep_lists::NoMemory;
use rep_values::SiteName;
use std::alloc::Global;

/// A push: its kind, the site that sends, and the one that receives.
#[derive(Clone, Copy)]
pub struct Push {
    pub traffic: Traffic,
    pub from: SiteName,
    pub to: SiteName,
    pub count: Option<u64>,
}

/// What a push will send, from a position on, and what had come before it: of the sender at the receiver, and the other way
/// round.
#[derive(Drop)]
pub struct Outlook {
    pub push: Push,
    pub first: u64,
    pub count: u64,
    pub there: Arrivals,
    pub back: Arrivals,
}

/// Notes which of the held transactions of a way had come.
fn note_held<S: Station>(
    known: &mut Arrivals,
    way: &Way,
    site: &S,
    origin: &SiteName,
) -> Result<(), NoMemory> {
    for cargo in way.held() {
        if let Cargo::Transaction(position) = cargo {
            if site.has(origin, *position) {
                known.note(*position)?;
            }
        }
    }
    Ok(())
}

/// Notes which of some positions had come.
fn note_sent<S: Station>(
    known: &mut Arrivals,
    site: &S,
    origin: &SiteName,
    first: u64,
    count: u64,
) -> Result<(), NoMemory> {
    for more in 0..count {
        let position = first.saturating_add(more);
        if site.has(origin, position) {
            known.note(position)?;
        }
    }
    Ok(())
}

/// Looks at both sites before a push.
pub fn look_ahead<S: Station>(
    alloc: Global,
    push: Push,
    ways: &Ways,
    sender: &S,
    receiver: &S,
) -> Result<Outlook, NoMemory> {
    let acked = sender.acked_by(&push.to);
    let waiting = sender.last_to(&push.to).saturating_sub(acked);
    let first = acked.saturating_add(1);
    let count = push.count.unwrap_or(waiting).min(waiting);
    let mut there = Arrivals::new(alloc);
    let mut back = Arrivals::new(alloc);
    if let Some(way) = ways.find(&push.from, &push.to) {
        note_held(&mut there, way, receiver, &push.from)?;
    }
    note_sent(&mut there, receiver, &push.from, first, count)?;
    if let Some(way) = ways.find(&push.to, &push.from) {
        note_held(&mut back, way, sender, &push.to)?;
    }
    Ok(Outlook {
        push,
        first,
        count,
        there,
        back,
    })
}
