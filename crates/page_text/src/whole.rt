//! A whole page as bytes.
ghost use Rattle.std.specs.Prelude.{◌≡◌, ◌++◌, IfOk, OnOk};
ghost use Rattle.page_text.specs.Pages.{head_bytes, body_bytes, root_bytes, page_bytes};

use crate::markup::{add_words, close, open};
use crate::parts::add_parts;
use crate::sheet::STYLE;
use crate::tag::Tag;
use crate::{Page, Part};
use rep_lists::{Items, NoMemory};
use std::alloc::Global;

/// Puts the head of a page.
fn add_head(out: &mut Vec<u8>, style: &[u8], title: &[u8]) -> Result<(), NoMemory>
    ensures { OnOk result (out.new.items ≡ out.old.items ++ head_bytes style.now title.now) }
{
    open(out, Tag::Head, &[])?;
    add_words(out, Tag::Title, &[], title)?;
    add_words(out, Tag::Style, &[], style)?;
    close(out, Tag::Head)
}

/// Puts the body of a page.
fn add_body(out: &mut Vec<u8>, parts: &[Part]) -> Result<(), NoMemory>
    ensures { OnOk result (out.new.items ≡ out.old.items ++ body_bytes parts.now) }
{
    open(out, Tag::Body, &[])?;
    add_parts(out, parts)?;
    close(out, Tag::Body)
}

/// Puts the one element that a page is.
fn add_root(out: &mut Vec<u8>, style: &[u8], page: &Page) -> Result<(), NoMemory>
    ensures { OnOk result (out.new.items ≡ out.old.items ++ root_bytes style.now page.now) }
{
    open(out, Tag::Html, &[])?;
    add_head(out, style, page.title.as_slice())?;
    add_body(out, page.parts.as_slice())?;
    close(out, Tag::Html)
}

/// The page with a style sheet.
fn styled_page(alloc: Global, style: &[u8], page: &Page) -> Result<Items<u8>, NoMemory>
    ensures { IfOk result (λ bytes. bytes ≡ page_bytes style.now page.now) }
{
    let mut out = Vec::from_slice(alloc, b"<!DOCTYPE html>\n")?;
    add_root(&mut out, style, page)?;
    Ok(Items::from_vec(out))
}

/// The bytes of a page: HTML in ASCII, with no script and no link in it, that a reader of XML takes too.
pub fn page_bytes(alloc: Global, page: &Page) -> Result<Items<u8>, NoMemory>
    ensures { IfOk result (λ bytes. bytes ≡ page_bytes STYLE.now page.now) }
{
    styled_page(alloc, STYLE, page)
}
