//! Pieces of text.

use rep_values::Value;
use std::alloc::AllocError;
use std::fmt;

/// How many bytes of a script's line are shown.
const SHOWN_BYTES: usize = 200;

/// A value as scripts write it.
#[derive(Clone, Copy)]
pub struct ValueText<'a>(pub &'a Value);

impl<'a> fmt::Display for ValueText<'a> {
    fn fmt<W: fmt::Write>(&self, f: &mut fmt::Formatter<W>) -> fmt::Result {
        match self.0 {
            Value::Num(number) => fmt::Display::fmt(number, f),
            Value::Words(text) => {
                f.write_char('\'')?;
                for byte in text.bytes() {
                    f.write_char(char::from(*byte))?;
                }
                f.write_char('\'')
            }
        }
    }
}

/// Values behind one another, a space between two.
#[derive(Clone, Copy)]
pub struct ValuesText<'a>(pub &'a [Value]);

impl<'a> fmt::Display for ValuesText<'a> {
    fn fmt<W: fmt::Write>(&self, f: &mut fmt::Formatter<W>) -> fmt::Result {
        let mut first = true;
        for value in self.0 {
            if !first {
                f.write_char(' ')?;
            }
            first = false;
            fmt::Display::fmt(&ValueText(value), f)?;
        }
        Ok(())
    }
}

/// A line of a script as it can be shown: 200 bytes at most, and `?` for a byte that isn't printable.
#[derive(Clone, Copy)]
pub struct LineText<'a>(pub &'a [u8]);

impl<'a> fmt::Display for LineText<'a> {
    fn fmt<W: fmt::Write>(&self, f: &mut fmt::Formatter<W>) -> fmt::Result {
        for byte in self.0.iter().take(SHOWN_BYTES) {
            let shown = if byte.is_ascii_graphic() || *byte == b' ' {
                char::from(*byte)
            } else {
                '?'
            };
            f.write_char(shown)?;
        }
        Ok(())
    }
}

/// Appends a line of its own, four spaces further in.
pub fn add_note(text: &mut String, note: &impl fmt::Display) -> Result<(), AllocError> {
    writeln!(text, "    {note}")
}

/// Appends a caret behind so many spaces, as a line.
fn add_caret(text: &mut String, spaces: usize) -> Result<(), AllocError> {
    for _ in 0..spaces {
        text.push(' ')?;
    }
    text.push_str("^\n")
}

/// Appends a script's line, and a caret below its column.
pub fn add_marked(text: &mut String, line: &[u8], column: usize) -> Result<(), AllocError> {
    add_note(text, &LineText(line))?;
    if column > SHOWN_BYTES {
        return Ok(());
    }
    add_caret(text, column.saturating_add(3))
}
