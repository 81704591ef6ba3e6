//! What was expected where a line breaks a rule.

use command_forms::{Form, Wanted};
use thiserror::Error;

/// What was expected at the column of a mistake. Its `Display` is a sentence without its full stop.
#[derive(Clone, Copy, Debug, Error)]
pub enum Hint {
    #[error("the line has {0} bytes, and 1024 at most are read")]
    LongLine(usize),
    #[error("a tab stands here: write a space")]
    Tab,
    #[error("a carriage return stands here: a line ends with a line feed alone, as behind `tr -d '\\r' < FILE`")]
    CarriageReturn,
    #[error("a byte order mark stands here: save the file without it")]
    ByteOrderMark,
    #[error("the byte 0x{0:02X} stands here: printable ASCII alone is read, in comments too")]
    OtherByte(u8),
    #[error("a text stands between two `'`")]
    DoubleQuote,
    #[error("a number is whole: write 9.99 as 999")]
    Point,
    #[error("a command ends with its line: leave `;` out")]
    Semicolon,
    #[error("no bracket stands in a line: write `insert T VALUE..`")]
    Bracket,
    #[error("a comment has a line of its own, with `#` as its first byte")]
    Comment,
    #[error("a minus stands directly before digits: write `C + -4` to take 4 away")]
    Minus,
    #[error("the text that begins here has no `'` behind it")]
    OpenText,
    #[error("a text has 64 bytes at most, and this one has more")]
    LongText,
    #[error("a word has 30 bytes at most, and this one goes on")]
    LongWord,
    #[error("a number has 16 digits at most, and this one goes on")]
    LongNumber,
    #[error("`!` stands in front of `=` alone, as in `!=`")]
    NotSign,
    #[error("a name begins with a letter")]
    Underscore,
    #[error("no word, number, text or symbol begins with `{0}`")]
    NoToken(char),
    #[error("a line begins with a command, which is a word")]
    NoWord,
    #[error("there is no such command")]
    UnknownCommand,
    #[error("there is no such command; this one is near: `{0}`")]
    NearCommand(Form),
    #[error("there is no such command; the one for it: `{0}`")]
    OtherCommand(Form),
    #[error("this is a line of scripts with live parts: `./pirkausu live < FILE` runs them")]
    LiveCommand,
    #[error("the form goes on with {wanted}: `{form}`")]
    Form { wanted: Wanted, form: Form },
}
