//! Values as a script gives them.
ghost use Rattle.std.specs.Prelude.{◌≡◌};
ghost use Rattle.rep_values.specs.Literal.{value_of_literal};

use crate::{Text, Value};
use rep_lists::{Copies, NoMemory};
use std::alloc::Global;

/// A number of at most 16 digits, not yet tested for its range, or a text.
#[derive(Clone, Copy)]
pub enum Literal {
    Num(i64),
    Words(Text),
}

impl Literal {
    /// The same number or text as a value. Its range is not tested.
    pub fn value(&self) -> Value
        ensures { result ≡ value_of_literal self.now }
    {
        match self {
            Literal::Num(number) => Value::Num(*number),
            Literal::Words(text) => Value::Words(*text),
        }
    }
}

impl Copies for Literal {
    fn copy(&self, _alloc: Global) -> Result<Literal, NoMemory> {
        Ok(*self)
    }
}
