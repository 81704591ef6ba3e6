//! Values of columns.
ghost use Rattle.rep_values.specs.Equality.{value_eq, value_eq_equiv};
ghost use Rattle.std.specs.Cmp.{partial_equiv_from_equiv};

use crate::Text;
use rep_lists::{Copies, NoMemory};
use std::alloc::Global;

/// A number or a text. A stored number lies within ±10^15. Every number comes before every text.
#[derive(Clone, Copy, PartialOrd, Ord)]
pub enum Value {
    Num(i64),
    Words(Text),
}

impl PartialEq for Value {
    ghost eq = { value_eq };

    ghost laws = { partial_equiv_from_equiv value_eq_equiv };

    fn eq(&self, other: &Value) -> bool {
        match (self, other) {
            (Value::Num(a), Value::Num(b)) => a == b,
            (Value::Words(a), Value::Words(b)) => a == b,
            (Value::Num(_), Value::Words(_)) | (Value::Words(_), Value::Num(_)) => false,
        }
    }
}

impl Eq for Value {
    ghost laws = { value_eq_equiv };
}

impl Copies for Value {
    fn copy(&self, _alloc: Global) -> Result<Value, NoMemory> {
        Ok(*self)
    }
}
