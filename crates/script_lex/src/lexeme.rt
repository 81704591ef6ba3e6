//! The tokens of a line as they stand in it.
ghost use Rattle.std.specs.Prelude.{◌≡◌, true};
ghost use Rattle.script_lex.specs.Lexemes.{lexeme_token, is_lexeme};
ghost use Rattle.rep_values.specs.Text.{is_text};

use crate::{Symbol, Token};
use rep_values::Text;

/// A token as it stands in a line, which lends the bytes of words and texts.
#[derive(Clone, Copy)]
pub enum Lexeme<'a> {
    Word(&'a [u8]),
    Number { minus: bool, size: u64 },
    Words(&'a [u8]),
    Symbol(Symbol),
}

/// The text of these bytes.
fn text_of(bytes: &[u8]) -> Text
    requires { is_text bytes.now ≡ true }
    ensures { result ≡ bytes.now }
{
    match Text::of(bytes) {
        Some(text) => text,
        None => unreachable!(),
    }
}

impl<'a> Lexeme<'a> {
    /// The token, with the bytes of its own.
    pub fn token(&self) -> Token
        requires { is_lexeme self.now ≡ true }
        ensures { result ≡ lexeme_token self.now }
    {
        match *self {
            Lexeme::Word(bytes) => Token::Word(text_of(bytes)),
            Lexeme::Number { minus, size } => Token::Number { minus, size },
            Lexeme::Words(bytes) => Token::Words(text_of(bytes)),
            Lexeme::Symbol(symbol) => Token::Symbol(symbol),
        }
    }
}
