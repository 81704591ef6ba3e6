//! Why a line isn't done.

use desk_words::RefusalNote;
use line_advice::Hint;
use rep_values::Refusal;
use script_flow::{Cause, Named};
use script_parse::Command;
use std::fmt;

/// Why the engine doesn't do a line. Its `Display` is a sentence without its full stop.
#[derive(Drop)]
pub enum Why {
    /// The line is malformed, and this was expected.
    Malformed(Hint),
    /// The script has more lines than are read.
    TooManyLines,
    /// The command isn't for now.
    NotNow(Cause),
    /// A name of the line stands for nothing.
    Unknown(Named),
    /// The command is refused for another reason.
    Refused { command: Command, refusal: Refusal },
}

/// A name that stands for nothing.
fn put_unknown<W: fmt::Write>(f: &mut fmt::Formatter<W>, named: &Named) -> fmt::Result {
    write!(
        f,
        "`{}` is no {}: upper and lower case differ",
        named.name,
        named.of.word()
    )
}

/// A command that is refused.
fn put_refused<W: fmt::Write>(
    f: &mut fmt::Formatter<W>,
    command: &Command,
    refusal: &Refusal,
) -> fmt::Result {
    fmt::Display::fmt(
        &RefusalNote {
            command,
            refusal: *refusal,
        },
        f,
    )
}

impl fmt::Display for Why {
    fn fmt<W: fmt::Write>(&self, f: &mut fmt::Formatter<W>) -> fmt::Result {
        match self {
            Why::Malformed(hint) => fmt::Display::fmt(hint, f),
            Why::TooManyLines => f.write_str("a script has 200000 lines at most"),
            Why::NotNow(cause) => fmt::Display::fmt(cause, f),
            Why::Unknown(named) => put_unknown(f, named),
            Why::Refused { command, refusal } => put_refused(f, command, refusal),
        }
    }
}
