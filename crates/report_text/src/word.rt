//! What the lines of a report are made of.

use rep_values::{Name, Text};

/// One word of a line.
#[derive(Clone, Copy)]
pub enum Word<'a> {
    /// These bytes.
    Plain(&'a [u8]),
    /// The bytes of a name.
    Name(Name),
    /// A number in decimal.
    Number(u64),
    /// A number in decimal, with `-` where it is below 0.
    Signed(i64),
    /// A text between quotes.
    Quoted(Text),
}
