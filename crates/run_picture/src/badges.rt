//! The entries of journals as badges.
ghost use Rattle.std.specs.Prelude.{◌≡◌, ◌<◌, ◌+◌, ◌++◌, ◌∷◌, map, drop, length, slice_get, option_copied, Some, IfOk, OnOk};
ghost use Rattle.run_story.specs.Telling.{journal_of};
ghost use Rattle.lane_drawing.specs.Marks.{mark_of_badge};
ghost use Rattle.run_picture.specs.Marks.{look_of, number_of, mark_of_entry, entries_at, entries_in, span_marks};

use crate::words::short_name;
use lane_drawing::{BADGE_ROW, Layout, Pen};
use packet_fates::Traffic;
use page_text::{Badge, Look, Point, text_of};
use rep_lists::{Items, NoMemory};
use rep_values::SiteName;
use run_ending::error_words;
use run_story::{Lane, Span, Story};
use site_state::Entry;
use std::alloc::Global;

/// The mark of an entry's kind.
pub fn look_of(entry: &Entry) -> Look
    ensures { result ≡ look_of entry.now }
{
    match entry {
        Entry::Local { .. } => Look::Strong,
        Entry::Done { .. } => Look::Good,
        Entry::Error { .. } => Look::Bad,
        Entry::Executed { .. } => Look::Mended,
        Entry::Dropped { .. } => Look::Gone,
        Entry::Refreshed { .. } => Look::Waiting,
    }
}

/// Words, an origin, a position and the number under which it went on, if it did.
fn applied_words(
    alloc: Global,
    first: &str,
    origin: &SiteName,
    position: u64,
    onward: u64,
) -> Result<Items<u8>, NoMemory> {
    if onward == 0 {
        return Ok(text_of(format!(in alloc; "{first} {origin} {position}")?));
    }
    Ok(text_of(format!(in alloc; "{first} {origin} {position} onward {onward}")?))
}

/// What an entry says, as `show journal` does.
pub fn tip_of(alloc: Global, entry: &Entry) -> Result<Items<u8>, NoMemory> {
    match entry {
        Entry::Local { number, .. } => Ok(text_of(format!(in alloc; "local {number}")?)),
        Entry::Done {
            origin,
            position,
            onward,
            ..
        } => applied_words(alloc, "done", origin, *position, *onward),
        Entry::Error {
            origin,
            position,
            call,
            error,
            ..
        } => error_words(alloc, origin, *position, *call, error),
        Entry::Executed {
            origin,
            position,
            onward,
            ..
        } => applied_words(alloc, "executed", origin, *position, *onward),
        Entry::Dropped { origin, position } => {
            Ok(text_of(format!(in alloc; "dropped {origin} {position}")?))
        }
        Entry::Refreshed { moment } => Ok(text_of(format!(in alloc; "refreshed {moment}")?)),
    }
}

/// What stands in the badge of an entry.
fn words_on(alloc: Global, entry: &Entry) -> Result<Items<u8>, NoMemory> {
    let text = match entry {
        Entry::Local { number, .. } => format!(in alloc; "{number}")?,
        Entry::Done {
            origin,
            position,
            ..
        } => {
            let name = short_name(alloc, &origin.0)?;
            format!(in alloc; "{name} {position}")?
        }
        Entry::Error {
            origin,
            position,
            ..
        } => {
            let name = short_name(alloc, &origin.0)?;
            format!(in alloc; "error {name} {position}")?
        }
        Entry::Executed {
            origin,
            position,
            ..
        } => {
            let name = short_name(alloc, &origin.0)?;
            format!(in alloc; "executed {name} {position}")?
        }
        Entry::Dropped { origin, position } => {
            let name = short_name(alloc, &origin.0)?;
            format!(in alloc; "dropped {name} {position}")?
        }
        Entry::Refreshed { .. } => format!(in alloc; "refreshed")?,
    };
    Ok(text_of(text))
}

/// How wide a badge with so many letters is.
fn width_of(letters: usize) -> u32 {
    let letters = (letters as u64).min(60) as u32;
    12 + 7 * letters
}

/// The number by which a page tells whose journal a badge is of: twice the lane's place among all, and one more for calls.
fn number_of(lanes: &[Lane], place: usize, traffic: Traffic) -> u64
    requires { place < length lanes.now }
    ensures { result ≡ number_of place traffic }
{
    // Lanes take memory, so there are fewer than 2^63.
    let twice = 2 * place as u64;
    match traffic {
        Traffic::Rows => twice,
        Traffic::Calls => twice + 1,
    }
}

/// The journal of a lane: how many entries it has.
fn journal_length(story: &Story, lane: &Lane, traffic: Traffic) -> u64
    ensures { result ≡ length (journal_of traffic lane.now.site story.now.world) }
{
    match traffic {
        Traffic::Rows => match story.world().site(&lane.site) {
            Some(site) => site.journal_len(),
            None => 0,
        },
        Traffic::Calls => match story.world().proc_site(&lane.site) {
            Some(site) => site.journal_len(),
            None => 0,
        },
    }
}

/// The entry of a lane's journal at a place.
fn entry_in<'a>(story: &'a Story, lane: &Lane, traffic: Traffic, place: u64) -> Option<&'a Entry>
    ensures { option_copied result ≡ slice_get (journal_of traffic lane.now.site story.now.world) place }
{
    match traffic {
        Traffic::Rows => match story.world().site(&lane.site) {
            Some(site) => site.journal(place),
            None => None,
        },
        Traffic::Calls => match story.world().proc_site(&lane.site) {
            Some(site) => site.journal(place),
            None => None,
        },
    }
}

/// How many of the entries that a span tells there are.
#[tactic(auto, using(crate::proofs::Entries::piece_length))]
fn count_in(story: &Story, lane: &Lane, span: &Span) -> u64
    ensures { result ≡ length (entries_at (Some lane.now) story.now span.now) }
{
    let length = journal_length(story, lane, span.traffic);
    length.saturating_sub(span.first).min(span.count)
}

/// The entry that a span of a lane tells at a place, from 0.
#[tactic(auto, using(crate::proofs::Entries::piece_within, crate::proofs::Entries::piece_from))]
fn entry_of<'a>(story: &'a Story, lane: &Lane, span: &Span, place: u64) -> &'a Entry
    requires { place < length (entries_at (Some lane.now) story.now span.now) }
    ensures { drop place (entries_at (Some lane.now) story.now span.now) ≡ result.now ∷ drop (place + 1) (entries_at (Some lane.now) story.now span.now) }
{
    let length = journal_length(story, lane, span.traffic);
    if span.first >= length {
        unreachable!();
    }
    match entry_in(story, lane, span.traffic, span.first + place) {
        Some(entry) => entry,
        None => unreachable!(),
    }
}

/// The entry that a span tells at a place, from 0: the first from there on.
pub fn entry_at<'a>(story: &'a Story, span: &Span, place: u64) -> &'a Entry
    requires { place < length (entries_in story.now span.now) }
    ensures { drop place (entries_in story.now span.now) ≡ result.now ∷ drop (place + 1) (entries_in story.now span.now) }
{
    match story.lanes().get(span.lane) {
        Some(lane) => entry_of(story, lane, span, place),
        None => unreachable!(),
    }
}

/// How many entries a span tells.
pub fn entry_count(story: &Story, span: &Span) -> u64
    ensures { result ≡ length (entries_in story.now span.now) }
{
    match story.lanes().get(span.lane) {
        Some(lane) => count_in(story, lane, span),
        None => 0,
    }
}

/// The badge of an entry, with its middle at a place.
fn badge_of(alloc: Global, number: u64, entry: &Entry, middle: Point) -> Result<Badge, NoMemory>
    ensures { IfOk result (λ badge. mark_of_badge badge ≡ mark_of_entry number entry.now) }
{
    let words = words_on(alloc, entry)?;
    let width = width_of(words.len());
    Ok(Badge {
        lane: number,
        look: look_of(entry),
        corner: Point {
            x: middle.x.saturating_sub(width / 2),
            y: middle.y,
        },
        width,
        words,
        tip: tip_of(alloc, entry)?,
    })
}

/// The widest badge of some entries.
fn widest(alloc: Global, story: &Story, span: &Span) -> Result<u32, NoMemory> {
    let mut width = 20;
    for place in 0..entry_count(story, span) {
        let words = words_on(alloc, entry_at(story, span, place))?;
        width = width.max(width_of(words.len()));
    }
    Ok(width)
}

/// Badges side by side: where the first of a row stands, how far each is from the next, and how many find room.
#[derive(Clone, Copy)]
struct Rank {
    left: u32,
    step: u32,
    beside: u32,
    top: u32,
}

impl Rank {
    /// For badges at most so wide on a lane, from a height on.
    fn of(layout: &Layout, lane: usize, width: u32, count: u64, top: u32) -> Rank {
        let step = width.saturating_add(4);
        let beside = (layout.room() / step.max(1))
            .clamp(1, 6)
            .min(count.clamp(1, 6) as u32);
        let left = layout
            .lane(lane)
            .saturating_sub(step.saturating_mul(beside.max(1) - 1) / 2);
        Rank {
            left,
            step,
            beside: beside.max(1),
            top,
        }
    }

    /// Where the middle of a badge stands, and the height of its upper side.
    fn place(&self, place: u64) -> Point {
        let beside = u64::from(self.beside.max(1));
        let column = (place % beside) as u32;
        let row = (place / beside).min(1_000_000) as u32;
        Point {
            x: self.left.saturating_add(column.saturating_mul(self.step)),
            y: self.top.saturating_add(row.saturating_mul(BADGE_ROW)),
        }
    }

    /// The height below so many badges.
    fn below(&self, count: u64) -> u32 {
        match count {
            0 => self.top,
            _ => self.place(count - 1).y.saturating_add(BADGE_ROW),
        }
    }
}

/// Draws the badges of some entries.
fn draw_badges(
    alloc: Global,
    pen: &mut Pen,
    story: &Story,
    span: &Span,
    number: u64,
    rank: &Rank,
) -> Result<(), NoMemory>
    ensures { OnOk result (pen.new ≡ pen.old ++ map (mark_of_entry number) (entries_in story.now span.now)) }
{
    for place in 0..entry_count(story, span) {
        let entry = entry_at(story, span, place);
        let badge = badge_of(alloc, number, entry, rank.place(place))?;
        pen.badge(badge)?;
    }
    Ok(())
}

/// Draws the badges of some entries of a lane below a height, as many side by side as there is room for. It gives the height below
/// them.
fn draw_on_lane(
    alloc: Global,
    pen: &mut Pen,
    layout: &Layout,
    story: &Story,
    span: &Span,
    top: u32,
) -> Result<u32, NoMemory>
    requires { span.now.lane < length story.now.lanes }
    ensures { OnOk result (pen.new ≡ pen.old ++ span_marks story.now span.now) }
{
    let number = number_of(story.lanes(), span.lane, span.traffic);
    let count = entry_count(story, span);
    let width = widest(alloc, story, span)?;
    let rank = Rank::of(layout, span.lane, width, count, top);
    draw_badges(alloc, pen, story, span, number, &rank)?;
    Ok(rank.below(count))
}

/// Draws the badges of some entries below a height; of no lane there are none. It gives the height below them.
#[tactic(auto, using(crate::proofs::Entries::no_lane_marks))]
pub fn draw_entries(
    alloc: Global,
    pen: &mut Pen,
    layout: &Layout,
    story: &Story,
    span: &Span,
    top: u32,
) -> Result<u32, NoMemory>
    ensures { OnOk result (pen.new ≡ pen.old ++ span_marks story.now span.now) }
{
    if span.lane >= story.lanes().len() {
        return Ok(top);
    }
    draw_on_lane(alloc, pen, layout, story, span, top)
}
