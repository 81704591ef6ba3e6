//! What happens in a line of a script.
ghost use Rattle.std.specs.Prelude.{◌≡◌, [], IsTrue};

use live_laws::LiveTurn;
use packet_fates::{Packet, Traffic};
use rep_lists::Items;
use rep_values::SiteName;
use script_parse::Link;
use world_state::Refused;

/// Entries of a journal: that of a lane's site, or that of what it does with calls. They stand in it from a place on, the oldest
/// entry at 0.
#[derive(Clone, Copy, Debug, PartialEq, Eq)]
pub struct Span {
    /// The lane's place among those of the story.
    pub lane: usize,
    pub traffic: Traffic,
    pub first: u64,
    pub count: u64,
}

/// What a line does beside sending packets.
#[derive(Clone, Copy, Debug, PartialEq, Eq)]
pub enum Event {
    /// A block was closed and had changed nothing, or no call was sent.
    Nothing {
        site: SiteName,
    },
    /// A direction was set up or down.
    Linked {
        from: SiteName,
        to: SiteName,
        link: Link,
    },
    /// The snapshots of a site got their rows from its master: by the logs, where so many keys were looked up, or by all rows; and
    /// so many rows they have since.
    Refreshed {
        site: SiteName,
        master: SiteName,
        keys: Option<u64>,
        rows: u64,
    },
    /// A late master is there from now on, as a copy of another one with so many rows.
    Joined {
        site: SiteName,
        source: SiteName,
        rows: u64,
    },
}

/// What came of a line.
#[derive(Clone, Copy)]
pub enum Outcome {
    /// It is a comment, or has no word.
    PassedOver,
    /// It declares.
    Declared,
    /// It shows what a site holds.
    Shown,
    Done,
    Refused(Refused),
    /// It breaks this rule of lines, 1 to 6, and ends the run.
    Malformed(u8),
}

/// A line of a script, what came of it, and what happened in it: packets went to the receiver of a push, entries came to journals, and
/// packets went back; or something else happened. The end of a live part has its turns too, in the order in which they were made.
#[derive(Drop)]
pub struct Line {
    pub words: Items<u8>,
    pub outcome: Outcome,
    pub sent: Items<Packet>,
    pub entries: Items<Span>,
    pub answered: Items<Packet>,
    pub event: Option<Event>,
    pub turns: Items<LiveTurn>,
}

impl Line {
    /// Whether nothing happened in it beside what came to journals.
    fn is_quiet(&self) -> bool {
        self.sent.is_empty()
            && self.answered.is_empty()
            && self.turns.is_empty()
            && self.event.is_none()
    }

    /// Whether nothing happened in it.
    pub fn is_still(&self) -> bool
        ensures { IsTrue result → self.now.entries ≡ [] }
    {
        self.entries.is_empty() && self.is_quiet()
    }
}
