//! Which lines of a run are drawn.
ghost use Rattle.std.specs.Prelude.{◌≡◌, ◌≤◌, length, false};
ghost use Rattle.std.specs.List.{list_all, list_any};
ghost use Rattle.run_picture.specs.Folding.{is_notable, is_plain, has_notable, has_turns, is_to_see, is_still_event, IsShowing};

use crate::badges::{entry_at, entry_count};
use live_laws::LiveTurn;
use packet_fates::{Coming, Fared, Packet};
use rep_lists::Items;
use run_story::{Event, Line, Outcome, Span, Story};
use site_state::Entry;

/// With more lines than these in which something happens, only those are drawn in which there is something to see.
pub const MOST_EVENTS: usize = 300;

/// Whether something happens in a line, or it is told why it isn't done.
fn is_event(line: &Line) -> bool {
    match line.outcome {
        Outcome::Refused(_) | Outcome::Malformed(_) => true,
        Outcome::PassedOver | Outcome::Declared | Outcome::Shown | Outcome::Done =>
            !line.is_still(),
    }
}

/// Whether the lines of a run are folded.
pub fn is_folded(lines: &[Line]) -> bool
    ensures { length lines.now ≤ 300 → result ≡ false }
{
    let mut events: usize = 0;
    for line in lines {
        if is_event(line) {
            events = events.saturating_add(1);
        }
    }
    events > MOST_EVENTS
}

/// Whether an entry tells of more than that a transaction was made or applied.
fn is_notable(entry: &Entry) -> bool
    ensures { result ≡ is_notable entry.now }
{
    match entry {
        Entry::Local { .. } | Entry::Done { .. } => false,
        Entry::Error { .. }
        | Entry::Executed { .. }
        | Entry::Dropped { .. }
        | Entry::Refreshed { .. } => true,
    }
}

/// Whether such an entry is among those that a span tells.
fn has_notable(story: &Story, span: &Span) -> bool
    ensures { result ≡ has_notable story.now span.now }
{
    for place in 0..entry_count(story, span) {
        if is_notable(entry_at(story, span, place)) {
            return true;
        }
    }
    false
}

/// Whether a packet came as it should.
fn is_plain(packet: &Packet) -> bool
    ensures { result ≡ is_plain packet.now }
{
    match packet.fared {
        Fared::Came(Coming::New) => true,
        Fared::Came(Coming::Again)
        | Fared::Twice(_)
        | Fared::Lost
        | Fared::Held
        | Fared::Released(_)
        | Fared::CutOff => false,
    }
}

/// Whether each packet came as it should.
fn are_plain(packets: &[Packet]) -> bool
    ensures { result ≡ list_all is_plain packets.now }
{
    packets.iter().all(|packet| is_plain(packet))
}

/// Whether such an entry is among those that some spans tell.
fn have_notable(story: &Story, spans: &[Span]) -> bool
    ensures { result ≡ list_any (has_notable story.now) spans.now }
{
    for span in spans {
        if has_notable(story, span) {
            return true;
        }
    }
    false
}

/// Whether something happened beside packets and entries that is always drawn.
fn is_still_event(event: &Option<Event>) -> bool
    ensures { result ≡ is_still_event event.now }
{
    match event {
        Some(Event::Linked { .. } | Event::Refreshed { .. } | Event::Joined { .. }) => false,
        Some(Event::Nothing { .. }) | None => true,
    }
}

/// Whether a live part made turns.
#[tactic(auto, using(crate::proofs::Shown::turns_there))]
fn has_turns(turns: &Items<LiveTurn>) -> bool
    ensures { result ≡ has_turns turns.now }
{
    !turns.is_empty()
}

/// Whether there is more to see in a line than that transactions were made, sent and applied.
fn is_to_see(story: &Story, line: &Line) -> bool
    ensures { result ≡ is_to_see story.now line.now }
{
    if !is_still_event(&line.event) {
        return true;
    }
    if !are_plain(line.sent.as_slice()) {
        return true;
    }
    if !are_plain(line.answered.as_slice()) {
        return true;
    }
    if has_turns(&line.turns) {
        return true;
    }
    have_notable(story, line.entries.as_slice())
}

/// What becomes of a line in the picture.
#[derive(Clone, Copy, Debug, PartialEq, Eq)]
pub enum Showing {
    /// It is drawn.
    Drawn,
    /// It is counted among those that are left out.
    Folded,
    /// It isn't looked at.
    Left,
}

/// What becomes of a line in which nothing happened, in a run that is folded or not, before or behind the end of its declarations.
fn shown_still(line: &Line, is_folded: bool, is_running: bool) -> Showing {
    match line.outcome {
        Outcome::Refused(_) | Outcome::Malformed(_) => Showing::Drawn,
        Outcome::Declared | Outcome::Shown => Showing::Left,
        Outcome::PassedOver | Outcome::Done => {
            if is_running && !is_folded && !line.words.is_empty() {
                Showing::Drawn
            } else {
                Showing::Left
            }
        }
    }
}

/// What becomes of a line. In a run that isn't folded each line is drawn in which something happened.
#[tactic(auto, using(crate::proofs::Shown::still_shows))]
pub fn shown_as(story: &Story, line: &Line, is_folded: bool, is_running: bool) -> Showing
    ensures { IsShowing story.now is_folded line.now result }
{
    if line.is_still() {
        return shown_still(line, is_folded, is_running);
    }
    if !is_folded {
        return Showing::Drawn;
    }
    if is_to_see(story, line) {
        Showing::Drawn
    } else {
        Showing::Folded
    }
}
