//! Drawings.
ghost use Rattle.std.specs.Prelude.{◌≡◌};
ghost use Rattle.page_text.specs.Looks.{anchor_name};

use crate::Look;
use rep_lists::Items;

/// A place in a drawing, from its upper left corner, in units of which a page shows up to 800 side by side.
#[derive(Clone, Copy, Debug, PartialEq, Eq)]
pub struct Point {
    pub x: u32,
    pub y: u32,
}

/// Which end of a label stands at its place.
#[derive(Clone, Copy, Debug, PartialEq, Eq)]
pub enum Anchor {
    Start,
    Middle,
    End,
}

impl Anchor {
    /// Its name in a drawing.
    pub(crate) fn name(self) -> &'static [u8]
        ensures { result.now ≡ anchor_name self }
    {
        match self {
            Anchor::Start => b"start",
            Anchor::Middle => b"middle",
            Anchor::End => b"end",
        }
    }
}

/// Words on one line.
#[derive(Drop)]
pub struct Label {
    pub look: Look,
    /// Where the line that the words stand on begins, is in the middle, or ends.
    pub at: Point,
    pub anchor: Anchor,
    pub words: Items<u8>,
}

/// Words in a frame, 16 units high, which stand for something on a lane. Who points at it is shown its tip.
#[derive(Drop)]
pub struct Badge {
    /// The lane, counted from the left. It is told, and moves nothing.
    pub lane: u64,
    pub look: Look,
    /// The frame's upper left corner.
    pub corner: Point,
    /// The frame's width; no clause says that the words fit in.
    pub width: u32,
    pub words: Items<u8>,
    pub tip: Items<u8>,
}

/// One shape of a drawing.
#[derive(Drop)]
pub enum Shape {
    /// A straight line.
    Line {
        look: Look,
        from: Point,
        to: Point,
    },
    /// A rectangle, given by its upper left corner.
    Area {
        look: Look,
        corner: Point,
        width: u32,
        height: u32,
    },
    Label(Label),
    Badge(Badge),
}

/// Shapes, of which later ones stand before earlier ones.
#[derive(Drop)]
pub struct Drawing {
    pub width: u32,
    pub height: u32,
    pub shapes: Items<Shape>,
}
