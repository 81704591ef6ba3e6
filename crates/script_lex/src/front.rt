//! The token in front of some bytes.
ghost use Rattle.std.specs.Prelude.{◌≡◌, suc, true, [], ◌∷◌, ◌≤◌, length, take, drop, MatchOption, IfSome, ℕ, List};
ghost use Rattle.std.specs.List.{list_all, prefix_len};
ghost use Rattle.rep_values.specs.Bytes.{is_digit, is_printable};
ghost use Rattle.script_lex.specs.Bytes.{is_word_byte, is_plain};
ghost use Rattle.script_lex.specs.Forms.{longest, symbol_of};
ghost use Rattle.script_lex.specs.Tokens.{digits_value, word_token, number_token, symbol_token, token_of};
ghost use Rattle.script_lex.specs.Lexemes.{IsCut, Stands, closed_token, negative_token, symbol_len};

use crate::bytes::{Start, is_word_byte, start_of};
use crate::{Lexeme, Symbol};
use rep_values::is_digit;

/// The greatest number of bytes of a word.
const WORD_BYTES: usize = 30;

/// The greatest number of digits of a number, leading zeros included.
const DIGITS: usize = 16;

/// The greatest number of bytes between the quotes of a text.
const TEXT_BYTES: usize = 64;

/// The first byte and those behind it, if there is one.
pub fn first_of(bytes: &[u8]) -> Option<(u8, &[u8])>
    ensures { MatchOption result (bytes.now ≡ []) (λ p. bytes.now ≡ p.0 ∷ p.1.now) }
{
    let (first, rest) = bytes.split_first()?;
    Some((*first, rest))
}

/// How many bytes that a word may go on with stand in front.
fn word_run(bytes: &[u8]) -> usize
    ensures value { result ≡ prefix_len is_word_byte bytes.now }
    ensures within { result ≤ length bytes.now }
{
    bytes.iter().take_while(|byte| is_word_byte(**byte)).count()
}

/// How many digits stand in front.
fn digit_run(bytes: &[u8]) -> usize
    ensures value { result ≡ prefix_len is_digit bytes.now }
    ensures within { result ≤ length bytes.now }
{
    bytes.iter().take_while(|byte| is_digit(**byte)).count()
}

/// How many bytes stand before the first quote.
fn plain_run(bytes: &[u8]) -> usize
    ensures value { result ≡ prefix_len is_plain bytes.now }
    ensures within { result ≤ length bytes.now }
{
    bytes.iter().take_while(|byte| **byte != b'\'').count()
}

/// The symbol that the bytes are.
pub fn symbol_of(bytes: &[u8]) -> Option<Symbol>
    ensures { result ≡ symbol_of bytes.now }
{
    match bytes {
        [b':'] => Some(Symbol::Colon),
        [b','] => Some(Symbol::Comma),
        [b'='] => Some(Symbol::Eq),
        [b'<'] => Some(Symbol::Lt),
        [b'>'] => Some(Symbol::Gt),
        [b'+'] => Some(Symbol::Plus),
        [b'!', b'='] => Some(Symbol::Ne),
        [b'<', b'='] => Some(Symbol::Le),
        [b'>', b'='] => Some(Symbol::Ge),
        _ => None,
    }
}

/// The first two bytes, or what there is.
fn first_two(bytes: &[u8]) -> &[u8]
    ensures { result.now ≡ take 2 bytes.now }
{
    if bytes.len() < 2 { bytes } else { &bytes[..2] }
}

/// A word of so many bytes in front, and the bytes behind it, unless it is too long.
fn word_front(bytes: &[u8], count: usize) -> Option<(Lexeme<'_>, &[u8])>
    requires within { count ≤ length bytes.now }
    requires word { list_all is_word_byte (take count bytes.now) ≡ true }
    ensures cut { IsCut (word_token (take count bytes.now)) (drop count bytes.now) result }
    ensures stands { IfSome result (λ cut. Stands bytes.now cut.0) }
{
    if count > WORD_BYTES {
        return None;
    }
    let (word, behind) = bytes.split_at(count);
    Some((Lexeme::Word(word), behind))
}

/// The number that digits write.
fn digits_value(digits: &[u8]) -> u64
    requires { length digits.now ≤ 16 }
    ensures { result ≡ digits_value 0 digits.now }
{
    let mut size = 0u64;
    for digit in digits {
        size = 10 * size + u64::from(digit.saturating_sub(b'0'));
    }
    size
}

/// A number of so many digits in front, and the bytes behind it, unless it is too long.
fn number_front(minus: bool, bytes: &[u8], count: usize) -> Option<(Lexeme<'_>, &[u8])>
    requires { count ≤ length bytes.now }
    ensures cut { IsCut (number_token minus (take count bytes.now)) (drop count bytes.now) result }
    ensures stands { IfSome result (λ cut. (behind : List ℕ) → Stands behind cut.0) }
{
    if count > DIGITS {
        return None;
    }
    let (digits, behind) = bytes.split_at(count);
    let size = digits_value(digits);
    Some((Lexeme::Number { minus, size }, behind))
}

/// The number behind a minus, and the bytes behind that, where there are digits.
fn minus_front(bytes: &[u8]) -> Option<(Lexeme<'_>, &[u8])>
    ensures cut { IsCut (negative_token bytes.now) (drop (prefix_len is_digit bytes.now) bytes.now) result }
    ensures stands { IfSome result (λ cut. (behind : List ℕ) → Stands behind cut.0) }
{
    match digit_run(bytes) {
        0 => None,
        count => number_front(true, bytes, count),
    }
}

/// The text behind a quote, up to the next one, and the bytes behind that, where there is a next one.
fn text_front(bytes: &[u8]) -> Option<(Lexeme<'_>, &[u8])>
    requires printable { list_all is_printable bytes.now ≡ true }
    ensures cut { IsCut (closed_token bytes.now) (drop (suc (prefix_len is_plain bytes.now)) bytes.now) result }
    ensures stands { IfSome result (λ cut. (quote : ℕ) → Stands (quote ∷ bytes.now) cut.0) }
{
    let count = plain_run(bytes);
    if count == bytes.len() || count > TEXT_BYTES {
        return None;
    }
    Some((Lexeme::Words(&bytes[..count]), &bytes[count + 1..]))
}

/// The symbol of two bytes or of one in front, and the bytes behind it.
fn symbol_front(bytes: &[u8]) -> Option<(Lexeme<'_>, &[u8])>
    requires some { 1 ≤ length bytes.now }
    ensures cut { IsCut (symbol_token (symbol_of (take (symbol_len bytes.now) bytes.now))) (drop (symbol_len bytes.now) bytes.now) result }
    ensures stands { IfSome result (λ cut. (behind : List ℕ) → Stands behind cut.0) }
{
    let pair = first_two(bytes);
    if let Some(symbol) = symbol_of(pair) {
        return Some((Lexeme::Symbol(symbol), &bytes[pair.len()..]));
    }
    let (one, behind) = bytes.split_at(1);
    let symbol = symbol_of(one)?;
    Some((Lexeme::Symbol(symbol), behind))
}

/// The token in front of printable bytes, the longest that there is, and the bytes behind it.
pub fn token_front(bytes: &[u8]) -> Option<(Lexeme<'_>, &[u8])>
    requires printable { list_all is_printable bytes.now ≡ true }
    ensures cut { IsCut (token_of (take (longest bytes.now) bytes.now)) (drop (longest bytes.now) bytes.now) result }
    ensures stands { IfSome result (λ cut. Stands bytes.now cut.0) }
{
    let Some((first, rest)) = first_of(bytes) else {
        return None;
    };
    match start_of(first) {
        Start::Word => word_front(bytes, 1 + word_run(rest)),
        Start::Number => number_front(false, bytes, 1 + digit_run(rest)),
        Start::Minus => minus_front(rest),
        Start::Text => text_front(rest),
        Start::Other => symbol_front(bytes),
    }
}
