//! Pages: headings, paragraphs, lists, drawings and tables, as the bytes of an HTML page.
#![tactic(auto)]

mod attribute;
mod drawing;
mod laws;
mod look;
mod markup;
mod page;
mod parts;
mod shapes;
mod sheet;
mod table;
mod tag;
mod whole;
mod words;

pub use drawing::{Anchor, Badge, Drawing, Label, Point, Shape};
pub use laws::pages_are_markup;
pub use look::Look;
pub use page::{Heading, Page, Part};
pub use table::{Cell, Table};
pub use whole::page_bytes;
pub use words::{text_of, words_of};
