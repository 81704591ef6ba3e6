//! Packets as arrows between lanes.
ghost use Rattle.std.specs.Prelude.{◌≡◌, OnOk};

use crate::pen::Pen;
use packet_fates::{Cargo, Coming, Fared, Packet};
use page_text::{Anchor, Look, Point, text_of};
use rep_lists::{Items, NoMemory};
use std::alloc::Global;

/// How far an arrow sinks on its way.
const SINKS: u32 = 8;

/// The height that a packet takes.
const PACKET_ROW: u32 = 15;

/// Packets of one kind with positions one after the other, which fared alike.
#[derive(Clone, Copy)]
pub struct Bundle {
    pub packet: Packet,
    /// The last position.
    pub last: u64,
}

impl Bundle {
    /// One packet.
    pub fn of(packet: Packet) -> Bundle {
        let last = match packet.cargo {
            Cargo::Transaction(position) => position,
            Cargo::Mark(low) => low,
        };
        Bundle { packet, last }
    }

    /// The bundle with a packet more, where that is the next and fared alike.
    pub fn with(&self, packet: &Packet) -> Option<Bundle> {
        let (Cargo::Transaction(_), Cargo::Transaction(position)) = (
            self.packet.cargo,
            packet.cargo,
        ) else {
            return None;
        };
        let goes_on = self.last.checked_add(1) == Some(position);
        if goes_on && self.packet.fared == packet.fared && self.packet.from == packet.from {
            Some(Bundle {
                packet: self.packet,
                last: position,
            })
        } else {
            None
        }
    }
}

/// Which word stands behind a packet's position.
fn word_of(fared: Fared) -> &'static str {
    match fared {
        Fared::Came(Coming::New) => "",
        Fared::Came(Coming::Again) => " again",
        Fared::Twice(_) => " twice",
        Fared::Lost => " lost",
        Fared::Held => " held",
        Fared::Released(Coming::New) => " released",
        Fared::Released(Coming::Again) => " released, again",
        Fared::CutOff => " lost: the way is down",
    }
}

/// What stands beside the arrow of packets.
fn words_beside(alloc: Global, bundle: &Bundle) -> Result<Items<u8>, NoMemory> {
    let word = word_of(bundle.packet.fared);
    let text = match bundle.packet.cargo {
        Cargo::Transaction(first) => {
            if first == bundle.last {
                format!(in alloc; "{first}{word}")?
            } else {
                let last = bundle.last;
                format!(in alloc; "{first} to {last}{word}")?
            }
        }
        Cargo::Mark(low) => format!(in alloc; "low {low}{word}")?,
    };
    Ok(text_of(text))
}

/// How the arrow of packets looks.
fn look_of(packet: &Packet) -> Look {
    let is_mark = match packet.cargo {
        Cargo::Transaction(_) => false,
        Cargo::Mark(_) => true,
    };
    match packet.fared {
        Fared::Lost | Fared::CutOff => Look::Lost,
        Fared::Held | Fared::Released(_) => Look::Held,
        Fared::Came(Coming::New) | Fared::Twice(Coming::New) => {
            if is_mark { Look::Back } else { Look::Sent }
        }
        Fared::Came(Coming::Again) | Fared::Twice(Coming::Again) => Look::Again,
    }
}

/// Where the lanes stand between which something goes.
#[derive(Clone, Copy)]
pub struct Ends {
    pub from: u32,
    pub to: u32,
}

/// The middle of the way from one place to another.
fn middle_of(from: u32, to: u32) -> u32 {
    from / 2 + to / 2
}

/// A quarter of the way from one place to another.
fn quarter_of(from: u32, to: u32) -> u32 {
    from / 2 + from / 4 + to / 4
}

/// An arrow between two lanes.
#[derive(Clone, Copy)]
pub struct Arrow {
    pub look: Look,
    pub ends: Ends,
    pub y: u32,
}

impl Arrow {
    /// Whether it points to the right.
    fn is_right(&self) -> bool {
        self.ends.from < self.ends.to
    }

    /// The middle of its way.
    fn middle(&self) -> Point {
        Point {
            x: middle_of(self.ends.from, self.ends.to),
            y: self.y.saturating_add(SINKS / 2),
        }
    }

    /// Where it begins, beside its lane.
    fn start(&self) -> Point {
        let x = if self.is_right() {
            self.ends.from.saturating_add(3)
        } else {
            self.ends.from.saturating_sub(3)
        };
        Point { x, y: self.y }
    }

    /// Where it ends, beside its lane.
    fn end(&self) -> Point {
        let x = if self.is_right() {
            self.ends.to.saturating_sub(3)
        } else {
            self.ends.to.saturating_add(3)
        };
        Point {
            x,
            y: self.y.saturating_add(SINKS),
        }
    }

    /// Draws it from its lane to the other.
    pub fn draw(&self, pen: &mut Pen) -> Result<(), NoMemory>
        ensures { OnOk result (pen.new ≡ pen.old) }
    {
        pen.line(self.look, self.start(), self.end())?;
        pen.head(self.look, self.end(), self.is_right())
    }

    /// Draws it twice.
    fn draw_twice(&self, pen: &mut Pen) -> Result<(), NoMemory>
        ensures { OnOk result (pen.new ≡ pen.old) }
    {
        self.draw(pen)?;
        let lower = Arrow {
            y: self.y.saturating_add(4),
            ..*self
        };
        lower.draw(pen)
    }

    /// Draws its first half, to a cross or to bars.
    pub fn draw_stopped(&self, pen: &mut Pen, is_lost: bool) -> Result<(), NoMemory>
        ensures { OnOk result (pen.new ≡ pen.old) }
    {
        pen.line(self.look, self.start(), self.middle())?;
        if is_lost {
            pen.cross(self.look, self.middle())
        } else {
            pen.bars(self.look, self.middle())
        }
    }

    /// Draws its second half, from bars on.
    pub fn draw_released(&self, pen: &mut Pen) -> Result<(), NoMemory>
        ensures { OnOk result (pen.new ≡ pen.old) }
    {
        pen.bars(self.look, self.middle())?;
        pen.line(self.look, self.middle(), self.end())?;
        pen.head(self.look, self.end(), self.is_right())
    }

    /// Where its words stand: above its first quarter, or its third one.
    fn words_at(&self, is_late: bool) -> Point {
        let quarter = if is_late {
            quarter_of(self.ends.to, self.ends.from)
        } else {
            quarter_of(self.ends.from, self.ends.to)
        };
        Point {
            x: quarter,
            y: self.y.saturating_sub(1),
        }
    }
}

/// How the words beside an arrow look.
fn words_look(fared: Fared) -> Look {
    match fared {
        Fared::Lost | Fared::CutOff => Look::Lost,
        Fared::Held | Fared::Released(_) => Look::Held,
        Fared::Came(_) | Fared::Twice(_) => Look::Note,
    }
}

/// Draws the arrow of packets that fared so.
fn draw_fared(pen: &mut Pen, arrow: &Arrow, fared: Fared) -> Result<(), NoMemory>
    ensures { OnOk result (pen.new ≡ pen.old) }
{
    match fared {
        Fared::Came(_) => arrow.draw(pen),
        Fared::Twice(_) => arrow.draw_twice(pen),
        Fared::Lost | Fared::CutOff => arrow.draw_stopped(pen, true),
        Fared::Held => arrow.draw_stopped(pen, false),
        Fared::Released(_) => arrow.draw_released(pen),
    }
}

/// Whether the words of packets stand at the second half of their way.
fn are_words_late(fared: Fared) -> bool {
    match fared {
        Fared::Released(_) => true,
        Fared::Came(_) | Fared::Twice(_) | Fared::Lost | Fared::CutOff | Fared::Held => false,
    }
}

/// Draws packets below a height. It gives the height below them.
pub fn draw_bundle(
    alloc: Global,
    pen: &mut Pen,
    ends: Ends,
    bundle: &Bundle,
    top: u32,
) -> Result<u32, NoMemory>
    ensures { OnOk result (pen.new ≡ pen.old) }
{
    let packet = &bundle.packet;
    let arrow = Arrow {
        look: look_of(packet),
        ends,
        y: top,
    };
    draw_fared(pen, &arrow, packet.fared)?;
    let at = arrow.words_at(are_words_late(packet.fared));
    let words = words_beside(alloc, bundle)?;
    pen.label(words_look(packet.fared), at, Anchor::Middle, words)?;
    Ok(top.saturating_add(PACKET_ROW))
}
