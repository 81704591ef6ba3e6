//! What the marks of a picture mean.

use crate::layout::WIDTH;
use crate::packets::{Arrow, Ends};
use crate::pen::Pen;
use page_text::{Anchor, Badge, Drawing, Look, Part, Point, words_of};
use rep_lists::{Items, NoMemory};
use std::alloc::Global;

/// The height of the key.
const HEIGHT: u32 = 66;

/// How far the marks of the key are from each other.
const STEP: u32 = 158;

/// Where a mark of the key begins.
fn column(place: u32) -> u32 {
    place.saturating_mul(STEP).saturating_add(10)
}

/// Draws a badge with what it means.
fn draw_badge(
    alloc: Global,
    pen: &mut Pen,
    place: u32,
    look: Look,
    words: &[u8],
    meaning: &[u8],
) -> Result<(), NoMemory> {
    let x = column(place);
    pen.badge(Badge {
        lane: 1_000_000,
        look,
        corner: Point { x, y: 4 },
        width: 26,
        words: words_of(alloc, words)?,
        tip: words_of(alloc, meaning)?,
    })?;
    let at = Point {
        x: x.saturating_add(32),
        y: 16,
    };
    pen.label(Look::Plain, at, Anchor::Start, words_of(alloc, meaning)?)
}

/// An arrow of the key, at a place of the row below.
fn arrow_at(place: u32, y: u32, look: Look) -> Arrow {
    let x = column(place);
    Arrow {
        look,
        ends: Ends {
            from: x,
            to: x.saturating_add(40),
        },
        y,
    }
}

/// Puts what an arrow of the key means.
fn mean(alloc: Global, pen: &mut Pen, place: u32, y: u32, meaning: &[u8]) -> Result<(), NoMemory> {
    let at = Point {
        x: column(place).saturating_add(46),
        y: y.saturating_add(8),
    };
    pen.label(Look::Plain, at, Anchor::Start, words_of(alloc, meaning)?)
}

/// Draws the badges of the key.
fn draw_badges(alloc: Global, pen: &mut Pen) -> Result<(), NoMemory> {
    draw_badge(alloc, pen, 0, Look::Strong, b"1", b"committed")?;
    draw_badge(alloc, pen, 1, Look::Good, b"A 1", b"applied")?;
    draw_badge(alloc, pen, 2, Look::Bad, b"A 1", b"in error")?;
    draw_badge(alloc, pen, 3, Look::Mended, b"A 1", b"executed")?;
    draw_badge(alloc, pen, 4, Look::Gone, b"A 1", b"dropped")
}

/// Draws the arrows of the key.
fn draw_arrows(alloc: Global, pen: &mut Pen) -> Result<(), NoMemory> {
    arrow_at(0, 30, Look::Sent).draw(pen)?;
    mean(alloc, pen, 0, 30, b"packet arrives")?;
    arrow_at(1, 30, Look::Again).draw(pen)?;
    mean(alloc, pen, 1, 30, b"arrives again")?;
    arrow_at(2, 30, Look::Lost).draw_stopped(pen, true)?;
    mean(alloc, pen, 2, 30, b"lost")?;
    arrow_at(3, 30, Look::Held).draw_stopped(pen, false)?;
    mean(alloc, pen, 3, 30, b"held")?;
    arrow_at(4, 30, Look::Held).draw_released(pen)?;
    mean(alloc, pen, 4, 30, b"released")?;
    arrow_at(0, 50, Look::Back).draw(pen)?;
    mean(alloc, pen, 0, 50, b"mark back: low")?;
    arrow_at(1, 50, Look::Fetched).draw(pen)?;
    mean(alloc, pen, 1, 50, b"refresh, join")
}

/// The key of a picture.
pub fn key(alloc: Global) -> Result<Part, NoMemory> {
    let mut pen = Pen::new(alloc);
    draw_badges(alloc, &mut pen)?;
    draw_arrows(alloc, &mut pen)?;
    Ok(Part::Drawing(Drawing {
        width: WIDTH,
        height: HEIGHT,
        shapes: Items::from_vec(pen.into_shapes()),
    }))
}
