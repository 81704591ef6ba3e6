//! Keys of at most four values, kept in place.
ghost use Rattle.std.specs.Prelude.{◌≡◌, ℕ, ◌-◌, ◌<◌, ◌≤◌, ◌∷◌, ◌++◌, ◌↔◌, [], length, replicate, pos, IsSome, IfSome};
ghost use Rattle.rep_values.specs.Number.{IsKeyLen};
ghost use Rattle.rep_values.specs.declared.value.Value.TheVariants.{Num};

use crate::Value;
use rep_lists::{Copies, NoMemory};
use std::alloc::Global;
use std::marker::Model;

/// The values of a row's key columns, 1 to 4 of them. It is kept in place and takes no memory.
#[derive(Clone, Copy)]
pub struct Key {
    cells: [Value; 4],
    len: u8,
}

impl Model for Key {
    ghost use Rattle.std.specs.Prelude.{ℕ, List, ◌++◌, ◌-◌, length, take, replicate, pos};
    ghost use Rattle.rep_values.specs.declared.value.Value.{Value as One};
    ghost use Rattle.rep_values.specs.declared.value.Value.TheVariants.{Num};
    ghost use Rattle.rep_values.specs.Number.{IsKeyLen};
    ghost use Rattle.rep_values.specs.Padded.{IsPadded, cells-of_front, len-of_front};

    ghost Value = { List One };

    ghost view = { λ k. take k.len k.cells };

    ghost invariant = { λ k. IsKeyLen (length (take k.len k.cells)) × IsPadded 4 (Num (pos 0)) k.len k.cells };

    ghost inverse = { λ values. record { cells = values ++ replicate (4 - length values) (Num (pos 0)); len = length values } };

    ghost inverse_ok = { λ k h i. record {
      cells = cells-of_front 4 (Num (pos 0)) k.len k.cells h.1 i;
      len = len-of_front 4 (Num (pos 0)) k.len k.cells h.1 i;
    } };
}

/// The values, and zeros behind them.
fn padded(values: &[Value]) -> [Value; 4]
    requires { length values.now ≤ 4 }
    ensures { result ≡ values.now ++ replicate (4 - length values.now) (Num (pos 0)) }
{
    let mut cells = [Value::Num(0); 4];
    cells[..values.len()].copy_from_slice(values);
    cells
}

impl Key {
    /// The key of these values; None exactly where there is none or more than four.
    pub fn of(values: &[Value]) -> Option<Key>
        ensures variant { IsSome result ↔ IsKeyLen (length values.now) }
        ensures value { IfSome result (λ key. key ≡ values.now) }
    {
        if values.is_empty() || values.len() > 4 {
            return None;
        }
        Some(Key {
            cells: padded(values),
            len: values.len() as u8,
        })
    }

    /// The key of one value.
    pub fn first(value: Value) -> Key
        ensures { result ≡ value ∷ [] }
    {
        let mut cells = [Value::Num(0); 4];
        cells[0] = value;
        Key { cells, len: 1 }
    }

    /// Adds a value behind the others.
    pub fn push(&mut self, value: Value)
        requires { length self.old < 4 }
        ensures { self.new ≡ self.old ++ value ∷ [] }
    {
        self.cells[self.len as usize] = value;
        self.len += 1;
    }

    /// The values of the key, in column order.
    pub fn values(&self) -> &[Value]
        ensures value { result.now ≡ self.now }
        ensures number { IsKeyLen (length self.now) }
    {
        &self.cells[..self.len as usize]
    }
}

impl Copies for Key {
    fn copy(&self, _alloc: Global) -> Result<Key, NoMemory> {
        Ok(*self)
    }
}
