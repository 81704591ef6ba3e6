//! Shapes that are drawn one after the other, from the top down.
ghost use Rattle.std.specs.Prelude.{◌≡◌, [], ◌∷◌, ◌++◌, OnOk};
ghost use Rattle.lane_drawing.specs.Marks.{mark_of_badge, marks_of};

use page_text::{Anchor, Badge, Label, Look, Point, Shape};
use rep_lists::{Items, NoMemory};
use std::alloc::Global;
use std::marker::Model;

/// The shapes so far. Contracts see the marks of entries among them.
#[derive(Drop)]
pub struct Pen {
    shapes: Vec<Shape>,
}

impl Model for Pen {
    ghost use Rattle.std.specs.Prelude.{List};
    ghost use Rattle.lane_drawing.specs.Marks.{Mark, marks_of};

    ghost Value = { List Mark };

    ghost view = { λ p. marks_of p.shapes.items };
}

impl Pen {
    /// Nothing is drawn. It takes no memory.
    pub fn new(alloc: Global) -> Pen
        ensures { result ≡ [] }
    {
        Pen {
            shapes: Vec::new(alloc),
        }
    }

    /// What was drawn.
    pub fn into_shapes(self) -> Vec<Shape>
        ensures { marks_of result.items ≡ self }
    {
        self.shapes
    }

    /// A straight line.
    #[tactic(auto, using(crate::proofs::Drawing::marks_on))]
    pub fn line(&mut self, look: Look, from: Point, to: Point) -> Result<(), NoMemory>
        ensures { OnOk result (self.new ≡ self.old) }
    {
        self.shapes.push(Shape::Line { look, from, to })?;
        Ok(())
    }

    /// Words.
    #[tactic(auto, using(crate::proofs::Drawing::marks_on))]
    pub fn label(
        &mut self,
        look: Look,
        at: Point,
        anchor: Anchor,
        words: Items<u8>,
    ) -> Result<(), NoMemory>
        ensures { OnOk result (self.new ≡ self.old) }
    {
        self.shapes.push(Shape::Label(Label {
            look,
            at,
            anchor,
            words,
        }))?;
        Ok(())
    }

    /// A badge.
    #[tactic(auto, using(crate::proofs::Drawing::marks_on))]
    pub fn badge(&mut self, badge: Badge) -> Result<(), NoMemory>
        ensures { OnOk result (self.new ≡ self.old ++ mark_of_badge badge ∷ []) }
    {
        self.shapes.push(Shape::Badge(badge))?;
        Ok(())
    }

    /// The head of an arrow, which points to the right or to the left.
    pub fn head(&mut self, look: Look, tip: Point, to_right: bool) -> Result<(), NoMemory>
        ensures { OnOk result (self.new ≡ self.old) }
    {
        let x = if to_right {
            tip.x.saturating_sub(7)
        } else {
            tip.x.saturating_add(7)
        };
        let above = Point {
            x,
            y: tip.y.saturating_sub(4),
        };
        let below = Point {
            x,
            y: tip.y.saturating_add(3),
        };
        self.line(look, above, tip)?;
        self.line(look, below, tip)
    }

    /// A cross.
    pub fn cross(&mut self, look: Look, at: Point) -> Result<(), NoMemory>
        ensures { OnOk result (self.new ≡ self.old) }
    {
        let left = at.x.saturating_sub(4);
        let right = at.x.saturating_add(4);
        let above = at.y.saturating_sub(4);
        let below = at.y.saturating_add(4);
        self.line(
            look,
            Point { x: left, y: above },
            Point { x: right, y: below },
        )?;
        self.line(
            look,
            Point { x: left, y: below },
            Point { x: right, y: above },
        )
    }

    /// Two bars.
    pub fn bars(&mut self, look: Look, at: Point) -> Result<(), NoMemory>
        ensures { OnOk result (self.new ≡ self.old) }
    {
        let above = at.y.saturating_sub(5);
        let below = at.y.saturating_add(5);
        let right = at.x.saturating_add(4);
        self.line(
            look,
            Point { x: at.x, y: above },
            Point { x: at.x, y: below },
        )?;
        self.line(
            look,
            Point { x: right, y: above },
            Point { x: right, y: below },
        )
    }
}
