//! Texts and elements, as bytes behind other bytes.
ghost use Rattle.std.specs.Prelude.{◌≡◌, ◌++◌, [], flat_map, OnOk};
ghost use Rattle.page_text.specs.Markup.{unit_of, escaped, attribute_text, opened, closed, element};

use crate::attribute::Attribute;
use crate::tag::Tag;
use rep_lists::NoMemory;

/// Puts what stands for one byte of a text.
fn add_unit(out: &mut Vec<u8>, byte: u8) -> Result<(), NoMemory>
    ensures { OnOk result (out.new.items ≡ out.old.items ++ unit_of byte) }
{
    match byte {
        b'&' => out.extend_from_slice(b"&amp;")?,
        b'<' => out.extend_from_slice(b"&lt;")?,
        b'>' => out.extend_from_slice(b"&gt;")?,
        b'"' => out.extend_from_slice(b"&quot;")?,
        b' '..=b'~' | b'\n' => out.push(byte)?,
        _ => out.push(b'?')?,
    }
    Ok(())
}

/// Puts a text: what a page would read as markup is put as a reference.
pub fn add_text(out: &mut Vec<u8>, text: &[u8]) -> Result<(), NoMemory>
    ensures { OnOk result (out.new.items ≡ out.old.items ++ escaped text.now) }
{
    for byte in text {
        add_unit(out, *byte)?;
    }
    Ok(())
}

/// Puts a space, an attribute's name and its value.
fn add_attribute(out: &mut Vec<u8>, attribute: &Attribute) -> Result<(), NoMemory>
    ensures { OnOk result (out.new.items ≡ out.old.items ++ attribute_text attribute.now) }
{
    out.push(b' ')?;
    out.extend_from_slice(attribute.name())?;
    out.extend_from_slice(b"=\"")?;
    attribute.add_value(out)?;
    out.push(b'"')?;
    Ok(())
}

/// Puts attributes one after the other.
fn add_attributes(out: &mut Vec<u8>, attributes: &[Attribute]) -> Result<(), NoMemory>
    ensures { OnOk result (out.new.items ≡ out.old.items ++ flat_map attribute_text attributes.now) }
{
    for attribute in attributes {
        add_attribute(out, attribute)?;
    }
    Ok(())
}

/// Opens an element.
pub fn open(out: &mut Vec<u8>, tag: Tag, attributes: &[Attribute]) -> Result<(), NoMemory>
    ensures { OnOk result (out.new.items ≡ out.old.items ++ opened tag attributes.now) }
{
    out.push(b'<')?;
    out.extend_from_slice(tag.name())?;
    add_attributes(out, attributes)?;
    out.push(b'>')?;
    Ok(())
}

/// Closes an element.
pub fn close(out: &mut Vec<u8>, tag: Tag) -> Result<(), NoMemory>
    ensures { OnOk result (out.new.items ≡ out.old.items ++ closed tag) }
{
    out.extend_from_slice(b"</")?;
    out.extend_from_slice(tag.name())?;
    out.extend_from_slice(b">\n")?;
    Ok(())
}

/// Puts an element with a text inside.
pub fn add_words(
    out: &mut Vec<u8>,
    tag: Tag,
    attributes: &[Attribute],
    words: &[u8],
) -> Result<(), NoMemory>
    ensures { OnOk result (out.new.items ≡ out.old.items ++ element tag attributes.now (escaped words.now)) }
{
    open(out, tag, attributes)?;
    add_text(out, words)?;
    close(out, tag)
}

/// Puts an element with nothing inside.
pub fn add_empty(out: &mut Vec<u8>, tag: Tag, attributes: &[Attribute]) -> Result<(), NoMemory>
    ensures { OnOk result (out.new.items ≡ out.old.items ++ element tag attributes.now []) }
{
    open(out, tag, attributes)?;
    close(out, tag)
}
