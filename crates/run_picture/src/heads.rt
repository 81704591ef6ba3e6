//! The lanes of a picture and their names.
ghost use Rattle.std.specs.Prelude.{◌≡◌, OnOk};

use crate::words::cut_to;
use lane_drawing::{Layout, Pen, WIDTH};
use page_text::{Anchor, Drawing, Look, Part, Point, text_of};
use rep_lists::{Items, NoMemory};
use run_story::{Lane, LaneKind};
use std::alloc::Global;

/// The height of the names above the lanes.
const HEADS: u32 = 36;

/// How many letters of a name find room above a lane.
fn letters_in(room: u32) -> usize {
    (room / 9).clamp(3, 30) as usize
}

/// What stands below a site's name.
fn kind_words(alloc: Global, kind: &LaneKind) -> Result<Items<u8>, NoMemory> {
    let text = match kind {
        LaneKind::Master => format!(in alloc; "master")?,
        LaneKind::Late => format!(in alloc; "late master")?,
        LaneKind::Snapshot(master) => format!(in alloc; "of {master}")?,
    };
    Ok(text_of(text))
}

/// The names of the sites above their lanes.
pub fn heads(alloc: Global, layout: &Layout, lanes: &[Lane]) -> Result<Part, NoMemory> {
    let mut pen = Pen::new(alloc);
    for place in 0..lanes.len() {
        let lane = &lanes[place];
        let x = layout.lane(place);
        let room = letters_in(layout.room());
        let name = cut_to(alloc, lane.site.0.bytes(), room)?;
        pen.label(Look::Name, Point { x, y: 17 }, Anchor::Middle, name)?;
        let kind = kind_words(alloc, &lane.kind)?;
        pen.label(Look::Note, Point { x, y: 31 }, Anchor::Middle, kind)?;
    }
    Ok(Part::Drawing(Drawing {
        width: WIDTH,
        height: HEADS,
        shapes: Items::from_vec(pen.into_shapes()),
    }))
}

/// Draws a lane.
fn draw_lane(pen: &mut Pen, x: u32, lane: &Lane, start: u32, bottom: u32) -> Result<(), NoMemory>
    ensures { OnOk result (pen.new ≡ pen.old) }
{
    let from = Point { x, y: 0 };
    let middle = Point { x, y: start };
    let to = Point { x, y: bottom };
    match (lane.kind, lane.since) {
        (LaneKind::Snapshot(_), _) => pen.line(Look::ThinLane, from, to),
        (LaneKind::Master, _) => pen.line(Look::Lane, from, to),
        (LaneKind::Late, None) => pen.line(Look::LateLane, from, to),
        (LaneKind::Late, Some(_)) => {
            pen.line(Look::LateLane, from, middle)?;
            pen.line(Look::Lane, middle, to)?;
            Ok(())
        }
    }
}

/// Draws the lanes down to a height. A late master's begins where it joins.
pub fn draw_lanes(
    pen: &mut Pen,
    layout: &Layout,
    lanes: &[Lane],
    starts: &[Option<u32>],
    bottom: u32,
) -> Result<(), NoMemory>
    ensures { OnOk result (pen.new ≡ pen.old) }
{
    for place in 0..lanes.len() {
        let start = starts.get(place).copied().flatten().unwrap_or(0);
        draw_lane(pen, layout.lane(place), &lanes[place], start, bottom)?;
    }
    Ok(())
}
