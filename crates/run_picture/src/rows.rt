//! The rows of a picture: the words of a line, and what happened in it.
ghost use Rattle.std.specs.Prelude.{◌≡◌, ◌++◌, flat_map, OnOk};
ghost use Rattle.run_picture.specs.Marks.{span_marks, line_marks};

use crate::badges::{draw_entries, entry_at, entry_count};
use crate::words::cut_to;
use lane_drawing::{
    Arrow, Bundle, Ends, Layout, NUMBER_AT, Pen, ROW, WIDTH, WORDS_AT, draw_bundle,
};
use live_laws::{LiveTurn, Reply};
use packet_fates::Packet;
use page_text::{Anchor, Look, Point, text_of};
use rep_lists::{Items, NoMemory};
use rep_values::SiteName;
use run_ending::error_words;
use run_story::{Event, Line, Outcome, Span, Story};
use script_parse::Link;
use site_state::Entry;
use std::alloc::Global;

/// What rows are drawn of, and where.
#[derive(Clone, Copy)]
pub struct Scene<'a> {
    pub alloc: Global,
    pub layout: Layout,
    pub story: &'a Story,
}

/// The heights that are free: beside the lanes, and on them.
#[derive(Clone, Copy)]
struct Free {
    words: u32,
    lanes: u32,
}

impl Free {
    /// Below both.
    fn below(&self) -> u32 {
        self.words.max(self.lanes)
    }
}

/// The middle between two places.
fn middle_of(one: u32, other: u32) -> u32 {
    one / 2 + other / 2
}

impl Scene<'_> {
    /// Where the lane of a site stands.
    fn lane(&self, site: &SiteName) -> u32 {
        let place = self
            .story
            .lanes()
            .iter()
            .position(|lane| lane.site.is_same(site));
        self.layout.lane(place.unwrap_or(0))
    }

    /// Where the lanes of two sites stand.
    fn ends(&self, from: &SiteName, to: &SiteName) -> Ends {
        Ends {
            from: self.lane(from),
            to: self.lane(to),
        }
    }

    /// Puts words beside the lanes.
    fn put_beside(&self, pen: &mut Pen, look: Look, words: &[u8], y: u32) -> Result<(), NoMemory>
        ensures { OnOk result (pen.new ≡ pen.old) }
    {
        let words = cut_to(self.alloc, words, self.layout.letters())?;
        let at = Point {
            x: WORDS_AT,
            y: y.saturating_add(11),
        };
        pen.label(look, at, Anchor::Start, words)
    }

    /// Puts the number of a line.
    fn put_number(&self, pen: &mut Pen, number: usize, y: u32) -> Result<(), NoMemory>
        ensures { OnOk result (pen.new ≡ pen.old) }
    {
        let words = text_of(format!(in self.alloc; "{number}")?);
        let at = Point {
            x: NUMBER_AT,
            y: y.saturating_add(11),
        };
        pen.label(Look::Faint, at, Anchor::End, words)
    }

    /// Tells an entry beside the lanes, where it is an error.
    fn put_error(&self, pen: &mut Pen, entry: &Entry, free: &mut Free) -> Result<(), NoMemory>
        ensures { OnOk result (pen.new ≡ pen.old) }
    {
        if let Entry::Error {
            origin,
            position,
            call,
            error,
            ..
        } = entry
        {
            let words = error_words(self.alloc, origin, *position, *call, error)?;
            self.put_beside(pen, Look::Refused, words.as_slice(), free.words)?;
            free.words = free.words.saturating_add(ROW);
        }
        Ok(())
    }

    /// Tells the errors among some entries beside the lanes.
    fn put_errors(&self, pen: &mut Pen, span: &Span, free: &mut Free) -> Result<(), NoMemory>
        ensures { OnOk result (pen.new ≡ pen.old) }
    {
        for place in 0..entry_count(self.story, span) {
            self.put_error(pen, entry_at(self.story, span, place), free)?;
        }
        Ok(())
    }

    /// Draws what came to a journal.
    fn draw_span(&self, pen: &mut Pen, span: &Span, free: &mut Free) -> Result<(), NoMemory>
        ensures { OnOk result (pen.new ≡ pen.old ++ span_marks self.now.story.now span.now) }
    {
        free.lanes = draw_entries(self.alloc, pen, &self.layout, self.story, span, free.lanes)?;
        self.put_errors(pen, span, free)?;
        Ok(())
    }

    /// Draws something that goes from one lane to another, with words.
    fn draw_way(
        &self,
        pen: &mut Pen,
        ends: Ends,
        look: Look,
        words: Items<u8>,
        free: &mut Free,
    ) -> Result<(), NoMemory>
        ensures { OnOk result (pen.new ≡ pen.old) }
    {
        let arrow = Arrow {
            look,
            ends,
            y: free.lanes.saturating_add(10),
        };
        arrow.draw(pen)?;
        let at = Point {
            x: middle_of(ends.from, ends.to),
            y: free.lanes.saturating_add(9),
        };
        pen.label(Look::Note, at, Anchor::Middle, words)?;
        free.lanes = free.lanes.saturating_add(24);
        Ok(())
    }

    /// Draws a direction that was set up or down.
    fn draw_link(
        &self,
        pen: &mut Pen,
        from: &SiteName,
        to: &SiteName,
        link: Link,
        free: &mut Free,
    ) -> Result<(), NoMemory>
        ensures { OnOk result (pen.new ≡ pen.old) }
    {
        let ends = self.ends(from, to);
        let (look, word) = match link {
            Link::Up => (Look::Up, "up"),
            Link::Down => (Look::Down, "down"),
        };
        let y = free.lanes.saturating_add(14);
        pen.line(look, Point { x: ends.from, y }, Point { x: ends.to, y })?;
        let at = Point {
            x: middle_of(ends.from, ends.to),
            y: free.lanes.saturating_add(10),
        };
        let words = text_of(format!(in self.alloc; "{from} to {to} is {word}")?);
        pen.label(Look::Note, at, Anchor::Middle, words)?;
        free.lanes = free.lanes.saturating_add(20);
        Ok(())
    }

    /// Draws a refresh.
    fn draw_refresh(
        &self,
        pen: &mut Pen,
        site: &SiteName,
        master: &SiteName,
        keys: Option<u64>,
        rows: u64,
        free: &mut Free,
    ) -> Result<(), NoMemory>
        ensures { OnOk result (pen.new ≡ pen.old) }
    {
        let text = match keys {
            Some(keys) => format!(in self.alloc; "{keys} keys, {rows} rows")?,
            None => format!(in self.alloc; "all rows: {rows}")?,
        };
        let ends = self.ends(master, site);
        self.draw_way(pen, ends, Look::Fetched, text_of(text), free)
    }

    /// Draws what a line did beside sending packets.
    fn draw_event(&self, pen: &mut Pen, event: &Event, free: &mut Free) -> Result<(), NoMemory>
        ensures { OnOk result (pen.new ≡ pen.old) }
    {
        match event {
            Event::Nothing { site } => {
                let at = Point {
                    x: self.lane(site),
                    y: free.lanes.saturating_add(11),
                };
                let words = text_of(format!(in self.alloc; "nothing changed")?);
                pen.label(Look::Faint, at, Anchor::Middle, words)?;
                free.lanes = free.lanes.saturating_add(ROW);
                Ok(())
            }
            Event::Linked { from, to, link } => self.draw_link(pen, from, to, *link, free),
            Event::Refreshed {
                site,
                master,
                keys,
                rows,
            } => self.draw_refresh(pen, site, master, *keys, *rows, free),
            Event::Joined { site, source, rows } => {
                let words = text_of(format!(in self.alloc; "joins with {rows} rows")?);
                let ends = self.ends(source, site);
                self.draw_way(pen, ends, Look::Fetched, words, free)
            }
        }
    }

    /// Draws packets that go together.
    fn draw_bundle(&self, pen: &mut Pen, bundle: Bundle, free: &mut Free) -> Result<(), NoMemory>
        ensures { OnOk result (pen.new ≡ pen.old) }
    {
        let ends = self.ends(&bundle.packet.from, &bundle.packet.to);
        free.lanes = draw_bundle(self.alloc, pen, ends, &bundle, free.lanes)?;
        Ok(())
    }

    /// Draws packets in their order.
    fn draw_packets(
        &self,
        pen: &mut Pen,
        packets: &[Packet],
        free: &mut Free,
    ) -> Result<(), NoMemory>
        ensures { OnOk result (pen.new ≡ pen.old) }
    {
        let Some((first, rest)) = packets.split_first() else {
            return Ok(());
        };
        let mut open = Bundle::of(*first);
        for packet in rest {
            let longer = open.with(packet);
            if longer.is_none() {
                self.draw_bundle(pen, open, free)?;
            }
            open = longer.unwrap_or(Bundle::of(*packet));
        }
        self.draw_bundle(pen, open, free)?;
        Ok(())
    }

    /// What a turn of a live part did.
    fn turn_words(&self, turn: &LiveTurn) -> Result<String, NoMemory> {
        match turn {
            LiveTurn::Applied {
                origin,
                position,
                error: None,
                ..
            } => Ok(format!(in self.alloc; "turn: {origin} {position} done")?),
            LiveTurn::Applied {
                origin,
                position,
                ..
            } => Ok(format!(in self.alloc; "turn: {origin} {position} in error")?),
            LiveTurn::Committed {
                session,
                block,
                reply,
            } => self.reply_words(*session, *block, reply),
        }
    }

    /// What a session is told of its block.
    fn reply_words(&self, session: u32, block: u32, reply: &Reply) -> Result<String, NoMemory> {
        match reply {
            Reply::Commit(number) => {
                Ok(format!(in self.alloc;
                    "turn: session {session} block {block}: commit {number}"
                )?)
            }
            Reply::Nothing => {
                Ok(format!(in self.alloc;
                    "turn: session {session} block {block}: nothing changed"
                )?)
            }
            Reply::Refused { line, refusal } => Ok(format!(in self.alloc;
                "turn: session {session} block {block}: line {line} refused: {refusal}"
            )?),
        }
    }

    /// Tells the turns of a live part beside the lanes, in their order.
    fn put_turns(&self, pen: &mut Pen, turns: &[LiveTurn], free: &mut Free) -> Result<(), NoMemory>
        ensures { OnOk result (pen.new ≡ pen.old) }
    {
        for turn in turns {
            let words = self.turn_words(turn)?;
            self.put_beside(pen, Look::Plain, words.as_bytes(), free.words)?;
            free.words = free.words.saturating_add(ROW);
        }
        Ok(())
    }

    /// Draws what came to journals.
    fn draw_spans(&self, pen: &mut Pen, spans: &[Span], free: &mut Free) -> Result<(), NoMemory>
        ensures { OnOk result (pen.new ≡ pen.old ++ flat_map (span_marks self.now.story.now) spans.now) }
    {
        for span in spans {
            self.draw_span(pen, span, free)?;
        }
        Ok(())
    }

    /// Draws what happened in a line.
    fn draw_happenings(&self, pen: &mut Pen, line: &Line, free: &mut Free) -> Result<(), NoMemory>
        ensures { OnOk result (pen.new ≡ pen.old ++ line_marks self.now.story.now line.now) }
    {
        if let Some(event) = &line.event {
            self.draw_event(pen, event, free)?;
        }
        self.draw_packets(pen, line.sent.as_slice(), free)?;
        self.put_turns(pen, line.turns.as_slice(), free)?;
        self.draw_spans(pen, line.entries.as_slice(), free)?;
        // The words of what goes back stand above their arrow.
        free.lanes = free.lanes.saturating_add(6);
        self.draw_packets(pen, line.answered.as_slice(), free)?;
        Ok(())
    }

    /// Tells why a line was refused, or that it is none.
    fn put_outcome(&self, pen: &mut Pen, outcome: &Outcome, free: &mut Free) -> Result<(), NoMemory>
        ensures { OnOk result (pen.new ≡ pen.old) }
    {
        let text = match outcome {
            Outcome::Refused(refused) => {
                let refusal = refused.refusal;
                format!(in self.alloc; "refused: {refusal}")?
            }
            Outcome::Malformed(rule) => {
                format!(in self.alloc; "malformed by rule {rule}: the run ends")?
            }
            Outcome::PassedOver | Outcome::Declared | Outcome::Shown | Outcome::Done => {
                return Ok(());
            }
        };
        self.put_beside(pen, Look::Refused, text.as_bytes(), free.words)?;
        free.words = free.words.saturating_add(ROW);
        Ok(())
    }

    /// Draws a line of the script below a height. It gives the height below it.
    pub fn draw_line(
        &self,
        pen: &mut Pen,
        number: usize,
        line: &Line,
        top: u32,
    ) -> Result<u32, NoMemory>
        ensures { OnOk result (pen.new ≡ pen.old ++ line_marks self.now.story.now line.now) }
    {
        let look = match line.outcome {
            Outcome::PassedOver => Look::Note,
            _ => Look::Script,
        };
        self.put_number(pen, number, top)?;
        self.put_beside(pen, look, line.words.as_slice(), top)?;
        let mut free = Free {
            words: top.saturating_add(ROW),
            lanes: top.saturating_add(4),
        };
        self.put_outcome(pen, &line.outcome, &mut free)?;
        if line.is_still() {
            return Ok(free.words);
        }
        self.draw_happenings(pen, line, &mut free)?;
        Ok(free.below().saturating_add(3))
    }

    /// Tells how many lines are left out below a height. It gives the height below.
    pub fn draw_fold(&self, pen: &mut Pen, lines: u64, top: u32) -> Result<u32, NoMemory>
        ensures { OnOk result (pen.new ≡ pen.old) }
    {
        let text = format!(in self.alloc; "{lines} lines in which all went well")?;
        self.put_beside(pen, Look::Note, text.as_bytes(), top)?;
        let y = top.saturating_add(8);
        let from = Point {
            x: self.layout.left,
            y,
        };
        let to = Point { x: WIDTH - 10, y };
        pen.line(Look::Back, from, to)?;
        Ok(top.saturating_add(ROW + 3))
    }
}
