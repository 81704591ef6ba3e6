//! Drawings as bytes behind other bytes.
ghost use Rattle.std.specs.Prelude.{◌≡◌, ◌+◌, ◌/◌, ◌++◌, flat_map, OnOk};
ghost use Rattle.page_text.specs.Shapes.{line_bytes, area_bytes, label_bytes, frame_bytes, inscription_bytes, badge_inside, badge_bytes, shape_bytes, drawing_bytes};

use crate::attribute::Attribute;
use crate::markup::{add_empty, add_words, close, open};
use crate::tag::Tag;
use crate::{Anchor, Badge, Drawing, Label, Look, Point, Shape};
use rep_lists::NoMemory;

/// The height of a badge's frame.
const FRAME_HEIGHT: u32 = 16;

/// How far below the upper side of its frame the words of a badge stand.
const WORDS_BELOW: u64 = 12;

/// Puts a line.
fn add_line(out: &mut Vec<u8>, look: Look, from: Point, to: Point) -> Result<(), NoMemory>
    ensures { OnOk result (out.new.items ≡ out.old.items ++ line_bytes look from to) }
{
    let attributes = [
        Attribute::Class(look),
        Attribute::FromX(from.x),
        Attribute::FromY(from.y),
        Attribute::ToX(to.x),
        Attribute::ToY(to.y),
    ];
    add_empty(out, Tag::Line, &attributes)
}

/// Puts a rectangle.
fn add_area(
    out: &mut Vec<u8>,
    look: Look,
    corner: Point,
    width: u32,
    height: u32,
) -> Result<(), NoMemory>
    ensures { OnOk result (out.new.items ≡ out.old.items ++ area_bytes look corner width height) }
{
    let attributes = [
        Attribute::Class(look),
        Attribute::X(u64::from(corner.x)),
        Attribute::Y(u64::from(corner.y)),
        Attribute::Width(width),
        Attribute::Height(height),
    ];
    add_empty(out, Tag::Rectangle, &attributes)
}

/// Puts a label.
fn add_label(out: &mut Vec<u8>, label: &Label) -> Result<(), NoMemory>
    ensures { OnOk result (out.new.items ≡ out.old.items ++ label_bytes label.now) }
{
    let attributes = [
        Attribute::Class(label.look),
        Attribute::X(u64::from(label.at.x)),
        Attribute::Y(u64::from(label.at.y)),
        Attribute::Anchor(label.anchor),
    ];
    add_words(out, Tag::Text, &attributes, label.words.as_slice())
}

/// Puts the frame of a badge.
fn add_frame(out: &mut Vec<u8>, badge: &Badge) -> Result<(), NoMemory>
    ensures { OnOk result (out.new.items ≡ out.old.items ++ frame_bytes badge.now) }
{
    let attributes = [
        Attribute::X(u64::from(badge.corner.x)),
        Attribute::Y(u64::from(badge.corner.y)),
        Attribute::Width(badge.width),
        Attribute::Height(FRAME_HEIGHT),
    ];
    add_empty(out, Tag::Rectangle, &attributes)
}

/// Where the words of a badge stand, from left to right.
fn middle_of(left: u32, width: u32) -> u64
    ensures { result ≡ left + width / 2 }
{
    u64::from(left) + u64::from(width / 2)
}

/// Where they stand, from the top down.
fn below(top: u32) -> u64
    ensures { result ≡ top + 12 }
{
    u64::from(top) + WORDS_BELOW
}

/// Puts the words of a badge.
fn add_inscription(out: &mut Vec<u8>, badge: &Badge) -> Result<(), NoMemory>
    ensures { OnOk result (out.new.items ≡ out.old.items ++ inscription_bytes badge.now) }
{
    let attributes = [
        Attribute::X(middle_of(badge.corner.x, badge.width)),
        Attribute::Y(below(badge.corner.y)),
        Attribute::Anchor(Anchor::Middle),
    ];
    add_words(out, Tag::Text, &attributes, badge.words.as_slice())
}

/// Puts what a badge has in it.
fn add_badge_inside(out: &mut Vec<u8>, badge: &Badge) -> Result<(), NoMemory>
    ensures { OnOk result (out.new.items ≡ out.old.items ++ badge_inside badge.now) }
{
    add_words(out, Tag::Title, &[], badge.tip.as_slice())?;
    add_frame(out, badge)?;
    add_inscription(out, badge)
}

/// Puts a badge.
fn add_badge(out: &mut Vec<u8>, badge: &Badge) -> Result<(), NoMemory>
    ensures { OnOk result (out.new.items ≡ out.old.items ++ badge_bytes badge.now) }
{
    let attributes = [Attribute::Class(badge.look), Attribute::Lane(badge.lane)];
    open(out, Tag::Group, &attributes)?;
    add_badge_inside(out, badge)?;
    close(out, Tag::Group)
}

/// Puts a shape.
fn add_shape(out: &mut Vec<u8>, shape: &Shape) -> Result<(), NoMemory>
    ensures { OnOk result (out.new.items ≡ out.old.items ++ shape_bytes shape.now) }
{
    match shape {
        Shape::Line { look, from, to } => add_line(out, *look, *from, *to),
        Shape::Area {
            look,
            corner,
            width,
            height,
        } => add_area(out, *look, *corner, *width, *height),
        Shape::Label(label) => add_label(out, label),
        Shape::Badge(badge) => add_badge(out, badge),
    }
}

/// Puts shapes one after the other.
fn add_shapes(out: &mut Vec<u8>, shapes: &[Shape]) -> Result<(), NoMemory>
    ensures { OnOk result (out.new.items ≡ out.old.items ++ flat_map shape_bytes shapes.now) }
{
    for shape in shapes {
        add_shape(out, shape)?;
    }
    Ok(())
}

/// Puts a drawing.
pub fn add_drawing(out: &mut Vec<u8>, drawing: &Drawing) -> Result<(), NoMemory>
    ensures { OnOk result (out.new.items ≡ out.old.items ++ drawing_bytes drawing.now) }
{
    let attributes = [
        Attribute::Width(drawing.width),
        Attribute::ViewBox {
            width: drawing.width,
            height: drawing.height,
        },
    ];
    open(out, Tag::Drawing, &attributes)?;
    add_shapes(out, drawing.shapes.as_slice())?;
    close(out, Tag::Drawing)
}
