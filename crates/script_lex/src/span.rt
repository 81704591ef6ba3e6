//! The tokens of a line by where they stand in it.
ghost use Rattle.std.specs.Prelude.{◌≡◌, ◌≤◌, ◌+◌, true, length, take, drop};
ghost use Rattle.rep_values.specs.Text.{is_text};
ghost use Rattle.script_lex.specs.Lexemes.{lexeme_token, is_lexeme};
ghost use Rattle.script_lex.specs.Spans.{span_token, is_span, span_at};

use crate::{Lexeme, Symbol};

/// A token by where it stands in its line: a word's bytes, and those between the quotes of a text, are some of the line's.
#[derive(Clone, Copy)]
pub enum Span {
    Word { start: usize, len: usize },
    Number { minus: bool, size: u64 },
    Words { start: usize, len: usize },
    Symbol(Symbol),
}

/// So many bytes of a line.
fn bytes_at(line: &[u8], start: usize, len: usize) -> &[u8]
    requires { start + len ≤ length line.now }
    ensures { result.now ≡ take len (drop start line.now) }
{
    let (_, behind) = line.split_at(start);
    let (bytes, _) = behind.split_at(len);
    bytes
}

impl Span {
    /// Where a token stands of which the first byte is at this place.
    pub(crate) fn of(start: usize, lexeme: &Lexeme<'_>) -> Span
        requires { start ≤ 1024 }
        ensures { result ≡ span_at start lexeme.now }
    {
        match *lexeme {
            Lexeme::Word(bytes) => Span::Word {
                start,
                len: bytes.len(),
            },
            Lexeme::Number { minus, size } => Span::Number { minus, size },
            Lexeme::Words(bytes) => Span::Words {
                start: start + 1,
                len: bytes.len(),
            },
            Lexeme::Symbol(symbol) => Span::Symbol(symbol),
        }
    }

    /// The token as it stands in the line.
    pub fn lexeme<'a>(&self, line: &'a [u8]) -> Lexeme<'a>
        requires { is_span line.now self.now ≡ true }
        ensures token { lexeme_token result ≡ span_token line.now self.now }
        ensures form { is_lexeme result ≡ true }
    {
        match *self {
            Span::Word { start, len } => Lexeme::Word(bytes_at(line, start, len)),
            Span::Number { minus, size } => Lexeme::Number { minus, size },
            Span::Words { start, len } => Lexeme::Words(bytes_at(line, start, len)),
            Span::Symbol(symbol) => Lexeme::Symbol(symbol),
        }
    }
}
