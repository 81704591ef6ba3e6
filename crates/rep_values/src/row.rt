//! Rows of 1 to 32 values.
ghost use Rattle.std.specs.Prelude.{◌≡◌, ◌<◌, ◌↔◌, length, slice_set, IsSome, IfSome, IfOk};
ghost use Rattle.rep_values.specs.Number.{IsRowLen};

use crate::Value;
use rep_lists::{Copies, Items, NoMemory};
use std::alloc::Global;
use std::marker::Model;

/// A value for each column of a table, 1 to 32 of them.
#[derive(Drop)]
pub struct Row {
    values: Vec<Value>,
}

impl Model for Row {
    ghost use Rattle.std.specs.Prelude.{List, length};
    ghost use Rattle.rep_values.specs.declared.value.Value.{Value as One};
    ghost use Rattle.rep_values.specs.Number.{IsRowLen};

    ghost Value = { List One };

    ghost view = { λ r. r.values.items };

    ghost invariant = { λ r. IsRowLen (length r.values.items) };
}

impl Row {
    /// The row of these values; None exactly where there is none or more than 32. It may want memory.
    pub fn of(alloc: Global, values: &[Value]) -> Result<Option<Row>, NoMemory>
        ensures variant { IfOk result (λ row. IsSome row ↔ IsRowLen (length values.now)) }
        ensures value { IfOk result (λ row. IfSome row (λ row. row ≡ values.now)) }
    {
        if values.is_empty() || values.len() > 32 {
            return Ok(None);
        }
        Ok(Some(Row {
            values: Vec::from_slice(alloc, values)?,
        }))
    }

    /// The row of a list that was just built, without a copy; None exactly where it is empty or has more than 32 values.
    pub fn from_items(values: Items<Value>) -> Option<Row>
        ensures variant { IsSome result ↔ IsRowLen (length values) }
        ensures value { IfSome result (λ row. row ≡ values) }
    {
        if values.is_empty() || 32 < values.len() {
            return None;
        }
        Some(Row {
            values: values.into_vec(),
        })
    }

    /// The values of the row, in column order.
    pub fn values(&self) -> &[Value]
        ensures value { result.now ≡ self.now }
        ensures number { IsRowLen (length self.now) }
    {
        &self.values
    }

    /// Puts a value in the place of another one. It takes no memory.
    pub fn set(&mut self, place: usize, value: Value)
        requires { place < length self.old }
        ensures { self.new ≡ slice_set self.old place value }
    {
        self.values[place] = value;
    }
}

impl Copies for Row {
    fn copy(&self, alloc: Global) -> Result<Row, NoMemory> {
        Ok(Row {
            values: Vec::from_slice(alloc, &self.values)?,
        })
    }
}
