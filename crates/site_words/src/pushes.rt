//! What became of the positions that a push sent.

use crate::states::state_of;
use crate::texts::add_note;
use crate::ways::Ways;
use net_plan::Fate;
use page_tables::PageTables;
use rep_lists::NoMemory;
use rep_values::SiteName;
use site_engine::Site;
use site_state::Entry;
use std::alloc::{AllocError, Global};

/// A push that is about to be made: how far it is acknowledged, how many positions behind that wait and are sent, and how many entries
/// the receiver's journal has.
#[derive(Clone, Copy)]
pub struct Plan {
    acked: u64,
    waiting: u64,
    sent: u64,
    seen: u64,
}

/// A push that was made, and the fates of its packets in their order; none of its mark where the way back is down.
#[derive(Drop)]
pub struct Pushed {
    plan: Plan,
    fates: Vec<Fate>,
    mark: Option<Fate>,
}

/// What a push of all that waits, or of so many positions, is about to send from a site to a receiver.
pub fn plan_push(
    sender: &Site<PageTables>,
    receiver: &Site<PageTables>,
    count: Option<u64>,
) -> Plan {
    let acked = sender.queue().acked(receiver.name());
    let waiting = sender.last_sent(receiver.name()).saturating_sub(acked);
    Plan {
        acked,
        waiting,
        sent: count.unwrap_or(waiting).min(waiting),
        seen: receiver.journal_len(),
    }
}

impl Plan {
    /// The fates that the packets of the push take.
    fn fates(
        &self,
        alloc: Global,
        ways: &mut Ways,
        from: &SiteName,
        to: &SiteName,
    ) -> Result<Vec<Fate>, NoMemory> {
        let mut fates = Vec::new(alloc);
        for _ in 0..self.sent {
            fates.push(ways.take_fate(from, to))?;
        }
        Ok(fates)
    }

    /// The push was made: its packets take the fates of their direction, and its mark one of the other direction.
    pub fn fare(
        self,
        alloc: Global,
        ways: &mut Ways,
        from: &SiteName,
        to: &SiteName,
    ) -> Result<Pushed, NoMemory> {
        let fates = self.fates(alloc, ways, from, to)?;
        Ok(Pushed {
            plan: self,
            fates,
            mark: ways.take_if_up(to, from),
        })
    }

    /// Whether a position of its sender is one that the push sends.
    fn sends(&self, position: u64) -> bool {
        self.acked < position && position.saturating_sub(self.acked) <= self.sent
    }
}

/// Tells that there was nothing to send.
fn add_nothing(text: &mut String, from: &SiteName, to: &SiteName) -> Result<(), AllocError> {
    add_note(
        text,
        &format_args!(
            "{from} has nothing for {to} that isn't acknowledged; what it got from other masters isn't sent on"
        ),
    )
}

/// Tells of a transaction that was done in a push which didn't send it.
fn add_late(
    text: &mut String,
    from: &SiteName,
    origin: &SiteName,
    position: u64,
) -> Result<(), AllocError> {
    if origin.is_same(from) {
        return add_note(
            text,
            &format_args!("position {position} is done now: it was held, or had waited"),
        );
    }
    add_note(
        text,
        &format_args!("position {position} of {origin} is done now: it had waited"),
    )
}

/// Tells that no mark came back, since the direction is down.
fn add_down(text: &mut String, from: &SiteName, to: &SiteName) -> Result<(), AllocError> {
    add_note(
        text,
        &format_args!(
            "no acknowledgement, as the direction from {to} to {from} is down: what arrived is sent again, which changes nothing"
        ),
    )
}

/// Tells what became of the mark, where it didn't come back.
fn add_fate(text: &mut String, fate: Fate) -> Result<(), AllocError> {
    match fate {
        Fate::Lose => add_note(
            text,
            &"the acknowledgement is lost: what arrived is sent again at the next push, which changes nothing",
        ),
        Fate::Late => add_note(
            text,
            &"the acknowledgement is held until the next push between the two sites, in either direction, that finds its own direction up",
        ),
        Fate::Pass | Fate::Twice => Ok(()),
    }
}

impl Pushed {
    /// Tells of an entry of the receiver's journal, where it is a transaction that the push didn't send.
    fn add_entry(
        &self,
        text: &mut String,
        from: &SiteName,
        entry: &Entry,
    ) -> Result<(), AllocError> {
        let Entry::Done {
            origin,
            position,
            ..
        } = entry
        else {
            return Ok(());
        };
        if origin.is_same(from) && self.plan.sends(*position) {
            return Ok(());
        }
        add_late(text, from, origin, *position)
    }

    /// Tells of the entry at a place of the receiver's journal.
    fn add_at(
        &self,
        text: &mut String,
        from: &SiteName,
        receiver: &Site<PageTables>,
        place: u64,
    ) -> Result<(), AllocError> {
        match receiver.journal(place) {
            Some(entry) => self.add_entry(text, from, entry),
            None => Ok(()),
        }
    }

    /// Tells of each transaction that the receiver did in this push, and the push didn't send.
    fn add_others(
        &self,
        text: &mut String,
        from: &SiteName,
        receiver: &Site<PageTables>,
    ) -> Result<(), AllocError> {
        for place in self.plan.seen..receiver.journal_len() {
            self.add_at(text, from, receiver, place)?;
        }
        Ok(())
    }

    /// Tells of the mark, where it didn't come back.
    fn add_mark(
        &self,
        text: &mut String,
        from: &SiteName,
        to: &SiteName,
    ) -> Result<(), AllocError> {
        match self.mark {
            Some(fate) => add_fate(text, fate),
            None => add_down(text, from, to),
        }
    }

    /// Tells what became of each position that the push sent and the receiver didn't finish.
    fn add_sent(
        &self,
        text: &mut String,
        sender: &Site<PageTables>,
        receiver: &Site<PageTables>,
    ) -> Result<(), AllocError> {
        let mut position = self.plan.acked;
        for fate in self.fates.as_slice() {
            position = position.saturating_add(1);
            if let Some(state) = state_of(sender, receiver, position, *fate) {
                add_note(text, &state)?;
            }
        }
        Ok(())
    }

    /// Tells what became of each position that the push sent and the receiver didn't finish, what else it did, and of the mark.
    pub fn add_notes(
        &self,
        text: &mut String,
        sender: &Site<PageTables>,
        receiver: &Site<PageTables>,
    ) -> Result<(), AllocError> {
        let (from, to) = (sender.name(), receiver.name());
        if self.plan.waiting == 0 {
            add_nothing(text, from, to)?;
            return self.add_others(text, from, receiver);
        }
        self.add_sent(text, sender, receiver)?;
        self.add_others(text, from, receiver)?;
        self.add_mark(text, from, to)
    }
}
