//! Choices by tables of words and symbols, each with what it stands for.
ghost use Rattle.std.specs.Prelude.{◌≡◌};
ghost use Rattle.script_lex.specs.Lexemes.{lexeme_token};
ghost use Rattle.script_words.specs.Words.{chosen, choice_of, entries};

use crate::words::is_same;
use script_lex::Lexeme;

/// What stands beside the first entry that is written so.
fn chosen<T: Copy>(table: &[(&[u8], T)], written: &[u8]) -> Option<T>
    ensures { result ≡ chosen (entries table.now) written.now }
{
    for (word, value) in table {
        if is_same(word, written) {
            return Some(*value);
        }
    }
    None
}

/// What stands beside the word or the symbol that the token is.
pub fn choice_of<T: Copy>(table: &[(&[u8], T)], lexeme: Lexeme<'_>) -> Option<T>
    ensures { result ≡ choice_of (entries table.now) (lexeme_token lexeme.entry) }
{
    match lexeme {
        Lexeme::Word(bytes) => chosen(table, bytes),
        Lexeme::Symbol(symbol) => chosen(table, symbol.bytes()),
        Lexeme::Number { .. } | Lexeme::Words(_) => None,
    }
}
