//! What a byte of a line may begin, and which bytes may follow.
ghost use Rattle.std.specs.Prelude.{◌≡◌};
ghost use Rattle.std.specs.List.{list_all};
ghost use Rattle.rep_values.specs.Bytes.{is_printable};
ghost use Rattle.script_lex.specs.Bytes.{is_word_byte, is_space, start_of};
ghost use Rattle.script_lex.specs.Lines.{is_passed_over};

use rep_values::{is_digit, is_letter};

/// What a byte begins: a word, a number without or with its sign, a text, or anything else.
#[derive(Clone, Copy, Debug, PartialEq, Eq)]
pub enum Start {
    Word,
    Number,
    Minus,
    Text,
    Other,
}

/// Whether a word may go on with the byte.
pub fn is_word_byte(byte: u8) -> bool
    ensures { result ≡ is_word_byte byte }
{
    is_letter(byte) || is_digit(byte) || byte == b'_' || byte == b'-'
}

/// What the byte begins.
pub fn start_of(byte: u8) -> Start
    ensures { result ≡ start_of byte }
{
    if is_letter(byte) {
        Start::Word
    } else if is_digit(byte) {
        Start::Number
    } else if byte == b'-' {
        Start::Minus
    } else if byte == b'\'' {
        Start::Text
    } else {
        Start::Other
    }
}

fn is_printable(byte: u8) -> bool
    ensures { result ≡ is_printable byte }
{
    b' ' <= byte && byte <= b'~'
}

/// Whether each byte is from 0x20 to 0x7E. None is passed over, so that the compiler looks at several at once.
pub fn are_printable(line: &[u8]) -> bool
    ensures { result ≡ list_all is_printable line.now }
{
    let mut all = true;
    for byte in line {
        all &= is_printable(*byte);
    }
    all
}

fn are_spaces(line: &[u8]) -> bool
    ensures { result ≡ list_all is_space line.now }
{
    line.iter().all(|byte| *byte == b' ')
}

/// Whether the line is empty, a comment, or spaces alone.
pub fn is_passed_over(line: &[u8]) -> bool
    ensures { result ≡ is_passed_over line.now }
{
    if line.is_empty() {
        return true;
    }
    if line[0] == b'#' {
        return true;
    }
    are_spaces(line)
}
