//! A page and its parts.

use crate::{Drawing, Look, Table};
use rep_lists::Items;

/// The level of a heading.
#[derive(Clone, Copy, Debug, PartialEq, Eq)]
pub enum Heading {
    /// Of the page.
    Page,
    /// Of a chapter.
    Chapter,
    /// Of a section in a chapter.
    Section,
}

/// One part of a page.
#[derive(Drop)]
pub enum Part {
    Heading { level: Heading, words: Items<u8> },
    Paragraph { look: Look, words: Items<u8> },
    /// A list of lines.
    Listing(Items<Items<u8>>),
    Drawing(Drawing),
    /// Tables side by side.
    Tables(Items<Table>),
}

/// A page: its title, and its parts from the top down.
#[derive(Drop)]
pub struct Page {
    pub title: Items<u8>,
    pub parts: Items<Part>,
}
