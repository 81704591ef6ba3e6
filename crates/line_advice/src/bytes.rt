//! Bytes that break a rule where they stand.

use crate::Hint;
use rep_values::{is_digit, is_letter};

/// The greatest number of bytes of a word.
const WORD_BYTES: usize = 30;

/// Whether a word may go on with the byte.
pub fn is_word_byte(byte: u8) -> bool {
    is_letter(byte) || is_digit(byte) || byte == b'_' || byte == b'-'
}

/// What is wrong with these bytes, of which the first isn't printable.
pub fn byte_hint(bytes: &[u8]) -> Hint {
    match bytes {
        [b'\t', ..] => Hint::Tab,
        [b'\r', ..] => Hint::CarriageReturn,
        [0xEF, 0xBB, 0xBF, ..] => Hint::ByteOrderMark,
        [byte, ..] => Hint::OtherByte(*byte),
        [] => Hint::OtherByte(b'\n'),
    }
}

/// Whether the bytes end with a word that is as long as words may be.
fn ends_in_full_word(bytes: &[u8]) -> bool {
    let Some(place) = bytes.len().checked_sub(WORD_BYTES) else {
        return false;
    };
    let (_, word) = bytes.split_at(place);
    is_letter(word[0]) && word.iter().all(|byte| is_word_byte(*byte))
}

/// What is wrong where a text would begin, before these bytes.
fn text_hint(behind: &[u8]) -> Hint {
    if behind.iter().any(|byte| *byte == b'\'') {
        Hint::LongText
    } else {
        Hint::OpenText
    }
}

/// What is wrong where no token stands, between these bytes of the line and those. The second are printable.
pub fn token_hint(before: &[u8], behind: &[u8]) -> Hint {
    let Some((first, rest)) = behind.split_first() else {
        return Hint::OpenText;
    };
    if is_word_byte(*first) && ends_in_full_word(before) {
        return Hint::LongWord;
    }
    match *first {
        b'0'..=b'9' => Hint::LongNumber,
        b'\'' => text_hint(rest),
        b'"' => Hint::DoubleQuote,
        b'.' => Hint::Point,
        b';' => Hint::Semicolon,
        b'(' | b')' => Hint::Bracket,
        b'#' => Hint::Comment,
        b'-' => Hint::Minus,
        b'!' => Hint::NotSign,
        b'_' => Hint::Underscore,
        byte => Hint::NoToken(char::from(byte)),
    }
}
