//! The tokens of a line, read from the front.
ghost use Rattle.std.specs.Prelude.{◌≡◌, true, [], ◌∷◌, MatchOption, IfSome, length, drop, map};
ghost use Rattle.std.specs.List.{list_all};
ghost use Rattle.std.specs.Option.{option_map};
ghost use Rattle.script_lex.specs.Lexemes.{lexeme_token, is_lexeme};
ghost use Rattle.script_lex.specs.Spans.{span_token, is_span};
ghost use Rattle.script_lex.specs.Stop.{GivesExactly};
ghost use Rattle.script_words.specs.Words.{entries, is_named, is_valued, is_chosen};
ghost use Rattle.script_words.specs.Reading.{front_of, begins, at, mark, ended};
ghost use Rattle.script_words.specs.Parts.{name, whole_number, number, value, choice};
ghost use Rattle.script_words.specs.Readers.{ReadsExactly, PassesExactly, PassesWhere};

use crate::chosen::choice_of;
use crate::words::{is_mark, is_value, name_of, number_of, value_of, whole_of};
use rep_values::{Literal, Name};
use script_lex::{BrokenRule, Lexeme, Span};
use std::marker::Model;

/// The tokens of a line that are left. A call that stops at rule 6 leaves the line without a form, and is the last one on it.
#[derive(Drop)]
pub struct Reader<'a> {
    line: &'a [u8],
    left: &'a [Span],
}

impl<'a> Model for Reader<'a> {
    ghost use Rattle.std.specs.Prelude.{◌≡◌, true, List, map};
    ghost use Rattle.std.specs.List.{list_all};
    ghost use Rattle.script_lex.specs.declared.token.Token.{Token};
    ghost use Rattle.script_lex.specs.Spans.{span_token, is_span};

    ghost Value = { List Token };

    ghost view = { λ r. map (span_token r.line.now) r.left.now };

    ghost invariant = { λ r. list_all (is_span r.line.now) r.left.now ≡ true };
}

impl<'a> Reader<'a> {
    /// A reader of these tokens of the line.
    pub fn of(line: &'a [u8], left: &'a [Span]) -> Reader<'a>
        requires { list_all (is_span line.now) left.now ≡ true }
        ensures { result ≡ map (span_token line.now) left.now }
    {
        Reader { line, left }
    }

    /// The next token, if there is one.
    fn peek(&self) -> Option<Lexeme<'a>>
        ensures value { option_map lexeme_token result ≡ front_of self.now }
        ensures form { IfSome result (λ lexeme. is_lexeme lexeme ≡ true) }
    {
        match self.left.first() {
            Some(span) => Some(span.lexeme(self.line)),
            None => None,
        }
    }

    /// Passes over the next token, if there is one.
    fn skip(&mut self)
        ensures { self.new ≡ drop 1 self.old }
    {
        self.left = self.left.get(1..).unwrap_or(self.left);
    }

    /// Takes the next token, if there is one.
    pub fn next(&mut self) -> Option<Lexeme<'a>>
        ensures value { MatchOption result (self.old ≡ []) (λ lexeme. self.old ≡ lexeme_token lexeme ∷ self.new) }
        ensures form { IfSome result (λ lexeme. is_lexeme lexeme ≡ true) }
    {
        let first = self.peek();
        self.skip();
        first
    }

    /// NAME, or rule 6.
    #[tactic(auto, unfolding(crate::specs::Reading::one))]
    pub fn name(&mut self) -> Result<Name, BrokenRule>
        ensures { ReadsExactly name result self.old self.new }
    {
        let Some(name) = self.peek().and_then(name_of) else {
            return Err(BrokenRule(6));
        };
        self.skip();
        Ok(name)
    }

    /// WHOLE, or rule 6.
    #[tactic(auto, unfolding(crate::specs::Reading::one))]
    pub fn whole_number(&mut self) -> Result<u64, BrokenRule>
        ensures { ReadsExactly whole_number result self.old self.new }
    {
        let Some(number) = self.peek().and_then(whole_of) else {
            return Err(BrokenRule(6));
        };
        self.skip();
        Ok(number)
    }

    /// A number, or rule 6.
    #[tactic(auto, unfolding(crate::specs::Reading::one))]
    pub fn number(&mut self) -> Result<i64, BrokenRule>
        ensures { ReadsExactly number result self.old self.new }
    {
        let Some(number) = self.peek().and_then(number_of) else {
            return Err(BrokenRule(6));
        };
        self.skip();
        Ok(number)
    }

    /// VALUE, or rule 6.
    #[tactic(auto, unfolding(crate::specs::Reading::one))]
    pub fn value(&mut self) -> Result<Literal, BrokenRule>
        ensures { ReadsExactly value result self.old self.new }
    {
        match self.next() {
            Some(lexeme) => value_of(lexeme),
            None => Err(BrokenRule(6)),
        }
    }

    /// What the next word or symbol stands for in the table, or rule 6.
    #[tactic(auto, unfolding(crate::specs::Reading::one))]
    pub fn choice<T: Copy>(&mut self, table: &[(&[u8], T)]) -> Result<T, BrokenRule>
        ensures { ReadsExactly (choice (entries table.now)) result self.old self.new }
    {
        let Some(lexeme) = self.peek() else {
            return Err(BrokenRule(6));
        };
        let Some(value) = choice_of(table, lexeme) else {
            return Err(BrokenRule(6));
        };
        self.skip();
        Ok(value)
    }

    /// Passes over a word or a symbol that is written so, or stops at rule 6.
    #[tactic(auto, unfolding(crate::specs::Reading::mark))]
    pub fn expect(&mut self, word: &[u8]) -> Result<(), BrokenRule>
        ensures { PassesExactly (mark word.now) result self.old self.new }
    {
        if !self.is_at(word) {
            return Err(BrokenRule(6));
        }
        self.skip();
        Ok(())
    }

    /// Passes over a word or a symbol that is written so, where it is the next token, and tells whether it was.
    #[tactic(auto, unfolding(crate::specs::Reading::mark))]
    pub fn passes(&mut self, word: &[u8]) -> bool
        ensures { PassesWhere word.now result self.old self.new }
    {
        let is_there = self.is_at(word);
        if is_there {
            self.skip();
        }
        is_there
    }

    /// Whether the next token is the word or the symbol that is written so.
    pub fn is_at(&self, word: &[u8]) -> bool
        ensures { result ≡ at word.now self.now }
    {
        match self.peek() {
            Some(lexeme) => is_mark(lexeme, word),
            None => false,
        }
    }

    /// Whether the next token is a NAME.
    pub fn is_at_name(&self) -> bool
        ensures { result ≡ begins is_named self.now }
    {
        self.peek().and_then(name_of).is_some()
    }

    /// Whether the next token is a VALUE.
    pub fn is_at_value(&self) -> bool
        ensures { result ≡ begins is_valued self.now }
    {
        match self.peek() {
            Some(lexeme) => is_value(lexeme),
            None => false,
        }
    }

    /// Whether the next token stands in the table.
    pub fn is_at_choice<T: Copy>(&self, table: &[(&[u8], T)]) -> bool
        ensures { result ≡ begins (is_chosen (entries table.now)) self.now }
    {
        match self.peek() {
            Some(lexeme) => choice_of(table, lexeme).is_some(),
            None => false,
        }
    }

    /// How many tokens are left.
    pub fn len(&self) -> usize
        ensures { result ≡ length self.now }
    {
        self.left.len()
    }

    /// Nothing, where no token is left, or rule 6.
    pub fn end(&self) -> Result<(), BrokenRule>
        ensures { GivesExactly (λ done. done) result (ended tt self.now) }
    {
        if self.left.is_empty() {
            Ok(())
        } else {
            Err(BrokenRule(6))
        }
    }
}
