//! What a transaction touches.
ghost use Rattle.std.specs.Prelude.{◌≡◌, ◌↔◌, IsTrue};
ghost use Rattle.dependency_index.specs.Tokens.{is_same_token};

use rep_lists::{Copies, Items, NoMemory};
use rep_values::{Key, same_values};
use std::alloc::Global;

/// One thing that a transaction touches. Two transactions that share none are independent.
#[derive(Clone, Copy)]
pub enum Token {
    /// The row of a table that has a key, whether it is there or not.
    Key { table: u32, key: Key },
    /// The columns of a table's secondary constraints in all of its rows, and its counters.
    Unique { table: u32 },
}

/// The tokens of a transaction, call by call.
#[derive(Drop)]
pub struct Tokens {
    pub list: Items<Token>,
}

impl Token {
    /// Whether two tokens are the same.
    pub fn is_same(&self, other: &Token) -> bool
        ensures value { result ≡ is_same_token self.now other.now }
        ensures meaning { IsTrue result ↔ (self.now ≡ other.now) }
    {
        match (self, other) {
            (
                Token::Key { table, key },
                Token::Key {
                    table: other_table,
                    key: other_key,
                },
            ) => { table == other_table && same_values(key.values(), other_key.values()) }
            (Token::Unique { table }, Token::Unique { table: other_table }) => table == other_table,
            (Token::Key { .. }, Token::Unique { .. }) | (Token::Unique { .. }, Token::Key { .. }) =>
                false,
        }
    }
}

impl Copies for Token {
    fn copy(&self, _alloc: Global) -> Result<Token, NoMemory> {
        Ok(*self)
    }
}
