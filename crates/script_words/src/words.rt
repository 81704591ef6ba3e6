//! What one token may be.
ghost use Rattle.std.specs.Prelude.{◌≡◌, ◌^◌, true, nat_eq, nat_lt, if◌then◌else◌, Some, None};
ghost use Rattle.std.specs.Cmp.Lexicographic.{pointwise};
ghost use Rattle.rep_values.specs.Text.{is_text};
ghost use Rattle.script_lex.specs.Lexemes.{lexeme_token, is_lexeme};
ghost use Rattle.script_lex.specs.declared.token.Token.TheVariants as token;
ghost use Rattle.script_words.specs.Words.{name_of, whole_of, token_number, signed, value_of, is_valued, is_mark};
ghost use Rattle.script_words.specs.Readers.{IsTakenFor};

use rep_values::{Literal, Name, Text};
use script_lex::{BrokenRule, Lexeme};

/// NAME
pub fn name_of(lexeme: Lexeme<'_>) -> Option<Name>
    ensures { result ≡ name_of (lexeme_token lexeme.entry) }
{
    match lexeme {
        Lexeme::Word(bytes) => Name::of(bytes),
        Lexeme::Number { .. } | Lexeme::Words(_) | Lexeme::Symbol(_) => None,
    }
}

/// WHOLE
pub fn whole_of(lexeme: Lexeme<'_>) -> Option<u64>
    ensures { result ≡ whole_of (lexeme_token lexeme.entry) }
{
    match lexeme {
        Lexeme::Number { minus: false, size } => Some(size),
        Lexeme::Number { minus: true, .. } => None,
        Lexeme::Word(_) | Lexeme::Words(_) | Lexeme::Symbol(_) => None,
    }
}

/// A number with its sign, if that fits.
fn signed(minus: bool, size: u64) -> Option<i64>
    ensures { result ≡ if nat_lt size (2 ^ 63) then Some (signed minus size) else None }
{
    if size > i64::MAX as u64 {
        return None;
    }
    let size = size as i64;
    Some(if minus { -size } else { size })
}

/// A number.
pub fn number_of(lexeme: Lexeme<'_>) -> Option<i64>
    ensures { result ≡ token_number (lexeme_token lexeme.entry) }
{
    match lexeme {
        Lexeme::Number { minus, size } => signed(minus, size),
        Lexeme::Word(_) | Lexeme::Words(_) | Lexeme::Symbol(_) => None,
    }
}

/// The text of these bytes, or rule 6.
fn words_of(bytes: &[u8]) -> Result<Literal, BrokenRule>
    requires { is_text bytes.now ≡ true }
    ensures { IsTakenFor (value_of (token.Words bytes.now)) result }
{
    match Text::of(bytes) {
        Some(text) => Ok(Literal::Words(text)),
        None => Err(BrokenRule(6)),
    }
}

/// A number with its sign, if that fits, or rule 6.
fn num_of(minus: bool, size: u64) -> Result<Literal, BrokenRule>
    ensures { IsTakenFor (value_of (token.Number minus size)) result }
{
    match signed(minus, size) {
        Some(number) => Ok(Literal::Num(number)),
        None => Err(BrokenRule(6)),
    }
}

/// VALUE, or rule 6.
pub fn value_of(lexeme: Lexeme<'_>) -> Result<Literal, BrokenRule>
    requires { is_lexeme lexeme ≡ true }
    ensures { IsTakenFor (value_of (lexeme_token lexeme.entry)) result }
{
    match lexeme {
        Lexeme::Number { minus, size } => num_of(minus, size),
        Lexeme::Words(bytes) => words_of(bytes),
        Lexeme::Word(_) | Lexeme::Symbol(_) => Err(BrokenRule(6)),
    }
}

/// Whether the token is a VALUE.
pub fn is_value(lexeme: Lexeme<'_>) -> bool
    ensures { result ≡ is_valued (lexeme_token lexeme.entry) }
{
    match lexeme {
        Lexeme::Number { size, .. } => size <= i64::MAX as u64,
        Lexeme::Words(_) => true,
        Lexeme::Word(_) | Lexeme::Symbol(_) => false,
    }
}

/// Whether the bytes are the same. Words are short, so this looks at one byte after the other.
pub fn is_same(word: &[u8], written: &[u8]) -> bool
    ensures { result ≡ pointwise nat_eq word.now written.now }
{
    if word.len() != written.len() {
        return false;
    }
    for place in 0..word.len() {
        if word[place] != written[place] {
            return false;
        }
    }
    true
}

/// Whether the token is the word or the symbol that is written so.
pub fn is_mark(lexeme: Lexeme<'_>, mark: &[u8]) -> bool
    ensures { result ≡ is_mark mark.now (lexeme_token lexeme.entry) }
{
    match lexeme {
        Lexeme::Word(bytes) => is_same(mark, bytes),
        Lexeme::Symbol(symbol) => is_same(mark, symbol.bytes()),
        Lexeme::Number { .. } | Lexeme::Words(_) => false,
    }
}
