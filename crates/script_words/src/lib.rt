//! Tokens read from the front, by the parts that forms of lines are put together of.
#![tactic(auto)]

mod chosen;
mod reader;
mod repeated;
mod words;

pub use chosen::choice_of;
pub use reader::Reader;
pub use repeated::{NamePart, Part, ValuePart, one_or_more, separated, several};
