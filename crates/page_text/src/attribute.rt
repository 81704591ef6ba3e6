//! The attributes of elements.
ghost use Rattle.std.specs.Prelude.{◌≡◌, ◌++◌, decimal, OnOk};
ghost use Rattle.page_text.specs.Markup.{attribute_name, attribute_value, view_box};

use crate::{Anchor, Look};
use itoa::Buffer;
use rep_lists::NoMemory;

/// An attribute of an element, with its value.
#[derive(Clone, Copy, Debug, PartialEq, Eq)]
pub enum Attribute {
    Class(Look),
    X(u64),
    Y(u64),
    FromX(u32),
    FromY(u32),
    ToX(u32),
    ToY(u32),
    Width(u32),
    Height(u32),
    ViewBox { width: u32, height: u32 },
    Anchor(Anchor),
    Lane(u64),
}

/// Puts a number behind other bytes.
fn add_number(out: &mut Vec<u8>, number: u64) -> Result<(), NoMemory>
    ensures { OnOk result (out.new.items ≡ out.old.items ++ decimal number) }
{
    let mut buffer = Buffer::new();
    out.extend_from_slice(buffer.format(number).as_bytes())?;
    Ok(())
}

/// Puts `0 0 WIDTH HEIGHT` behind other bytes.
fn add_view_box(out: &mut Vec<u8>, width: u32, height: u32) -> Result<(), NoMemory>
    ensures { OnOk result (out.new.items ≡ out.old.items ++ view_box width height) }
{
    out.extend_from_slice(b"0 0 ")?;
    add_number(out, u64::from(width))?;
    out.push(b' ')?;
    add_number(out, u64::from(height))
}

impl Attribute {
    /// Its name in HTML or in a drawing.
    pub fn name(&self) -> &'static [u8]
        ensures { result.now ≡ attribute_name self.now }
    {
        match self {
            Attribute::Class(_) => b"class",
            Attribute::X(_) => b"x",
            Attribute::Y(_) => b"y",
            Attribute::FromX(_) => b"x1",
            Attribute::FromY(_) => b"y1",
            Attribute::ToX(_) => b"x2",
            Attribute::ToY(_) => b"y2",
            Attribute::Width(_) => b"width",
            Attribute::Height(_) => b"height",
            Attribute::ViewBox { .. } => b"viewBox",
            Attribute::Anchor(_) => b"text-anchor",
            Attribute::Lane(_) => b"data-lane",
        }
    }

    /// Puts its value behind other bytes.
    pub fn add_value(&self, out: &mut Vec<u8>) -> Result<(), NoMemory>
        ensures { OnOk result (out.new.items ≡ out.old.items ++ attribute_value self.now) }
    {
        match self {
            Attribute::Class(look) => out.extend_from_slice(look.name())?,
            Attribute::X(number) | Attribute::Y(number) | Attribute::Lane(number) => {
                add_number(out, *number)?;
            }
            Attribute::FromX(number)
            | Attribute::FromY(number)
            | Attribute::ToX(number)
            | Attribute::ToY(number)
            | Attribute::Width(number)
            | Attribute::Height(number) => add_number(out, u64::from(*number))?,
            Attribute::ViewBox { width, height } => add_view_box(out, *width, *height)?,
            Attribute::Anchor(anchor) => out.extend_from_slice(anchor.name())?,
        }
        Ok(())
    }
}
