//! The tokens of a case, read from the front.

use crate::CaseStop;
use rep_lists::{Items, NoMemory};
use rep_values::{Key, Literal, Name, Row, SiteName, TableName, Value};
use script_lex::{Symbol, Token};
use std::alloc::Global;

/// The tokens that are left of a line.
#[derive(Clone, Copy)]
pub struct Words<'a> {
    left: &'a [Token],
}

impl<'a> Words<'a> {
    /// All tokens of a line.
    pub fn of(tokens: &'a [Token]) -> Words<'a> {
        Words { left: tokens }
    }

    /// Whether nothing is left.
    pub fn is_done(&self) -> bool {
        self.left.is_empty()
    }

    /// Nothing is left.
    pub fn end(&self) -> Result<(), CaseStop> {
        if self.is_done() {
            Ok(())
        } else {
            Err(CaseStop::NoCase)
        }
    }

    /// The next token, which stays.
    pub fn peek(&self) -> Option<&'a Token> {
        self.left.first()
    }

    /// The next token. This and each reading below is `NoCase` where nothing is left, or something else comes next.
    pub fn token(&mut self) -> Result<&'a Token, CaseStop> {
        match self.left.split_first() {
            Some((first, rest)) => {
                self.left = rest;
                Ok(first)
            }
            None => Err(CaseStop::NoCase),
        }
    }

    /// The bytes of a word, which may have `-` in it.
    pub fn word(&mut self) -> Result<&'a [u8], CaseStop> {
        match self.token()? {
            Token::Word(text) => Ok(text.bytes()),
            Token::Number { .. } | Token::Words(_) | Token::Symbol(_) => Err(CaseStop::NoCase),
        }
    }

    /// A word that is a name.
    pub fn name(&mut self) -> Result<Name, CaseStop> {
        let word = self.word()?;
        Name::of(word).ok_or(CaseStop::NoCase)
    }

    /// The name of a site.
    pub fn site(&mut self) -> Result<SiteName, CaseStop> {
        Ok(SiteName(self.name()?))
    }

    /// The name of a table.
    pub fn table(&mut self) -> Result<TableName, CaseStop> {
        Ok(TableName(self.name()?))
    }

    /// A number without a sign.
    pub fn whole(&mut self) -> Result<u64, CaseStop> {
        match self.token()? {
            Token::Number { minus: false, size } => Ok(*size),
            Token::Number { minus: true, .. }
            | Token::Word(_)
            | Token::Words(_)
            | Token::Symbol(_) => { Err(CaseStop::NoCase) }
        }
    }

    /// A number with or without a sign.
    pub fn number(&mut self) -> Result<i64, CaseStop> {
        match self.literal()? {
            Literal::Num(number) => Ok(number),
            Literal::Words(_) => Err(CaseStop::NoCase),
        }
    }

    /// A number or a text.
    pub fn literal(&mut self) -> Result<Literal, CaseStop> {
        match self.token()? {
            Token::Number { minus, size } => match i64::try_from(*size) {
                Ok(number) => Ok(Literal::Num(if *minus { -number } else { number })),
                Err(_) => Err(CaseStop::NoCase),
            },
            Token::Words(text) => Ok(Literal::Words(*text)),
            Token::Word(_) | Token::Symbol(_) => Err(CaseStop::NoCase),
        }
    }

    /// A number or a text as a value, its range untested.
    pub fn value(&mut self) -> Result<Value, CaseStop> {
        let literal = self.literal()?;
        Ok(literal.value())
    }

    /// This symbol.
    pub fn symbol(&mut self, wanted: Symbol) -> Result<(), CaseStop> {
        match self.token()? {
            Token::Symbol(found) if *found == wanted => Ok(()),
            Token::Symbol(_) | Token::Word(_) | Token::Number { .. } | Token::Words(_) => Err(
                CaseStop::NoCase,
            ),
        }
    }

    /// Whether this symbol comes next; then it is passed.
    pub fn passes(&mut self, wanted: Symbol) -> bool {
        let ahead = Words { left: self.left };
        match self.symbol(wanted) {
            Ok(()) => true,
            Err(_) => {
                self.left = ahead.left;
                false
            }
        }
    }

    /// The numbers and texts up to the next symbol or word, or to the end.
    pub fn literals(&mut self, alloc: Global) -> Result<Items<Literal>, CaseStop> {
        let mut literals = Vec::new(alloc);
        for _ in 0..self.left.len() {
            match self.peek() {
                Some(Token::Number { .. } | Token::Words(_)) => literals.push(self.literal()?)?,
                Some(Token::Word(_) | Token::Symbol(_)) | None => break,
            }
        }
        Ok(Items::from_vec(literals))
    }

    /// The same as values.
    pub fn values(&mut self, alloc: Global) -> Result<Items<Value>, CaseStop> {
        let literals = self.literals(alloc)?;
        let mut values = Vec::new(alloc);
        for literal in literals.as_slice() {
            values.push(literal.value())?;
        }
        Ok(Items::from_vec(values))
    }

    /// The names up to the next other token, or to the end.
    pub fn names(&mut self, alloc: Global) -> Result<Items<Name>, CaseStop> {
        let mut names = Vec::new(alloc);
        for _ in 0..self.left.len() {
            match self.peek() {
                Some(Token::Word(_)) => names.push(self.name()?)?,
                Some(Token::Number { .. } | Token::Words(_) | Token::Symbol(_)) | None => break,
            }
        }
        Ok(Items::from_vec(names))
    }

    /// A row of the numbers and texts that come next.
    pub fn row(&mut self, alloc: Global) -> Result<Row, CaseStop> {
        let values = self.values(alloc)?;
        Row::of(alloc, values.as_slice())?.ok_or(CaseStop::NoCase)
    }

    /// A key of the numbers and texts that come next.
    pub fn key(&mut self, alloc: Global) -> Result<Key, CaseStop> {
        let values = self.values(alloc)?;
        Key::of(values.as_slice()).ok_or(CaseStop::NoCase)
    }
}
