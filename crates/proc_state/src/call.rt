//! A call of a procedure.

use rep_lists::{Copies, Items, NoMemory};
use rep_values::Value;
use std::alloc::Global;

/// A call of the procedure at a place: a value for each column of the table for a put, one number for an add, and none for
/// a drop.
#[derive(Drop)]
pub struct ProcCall {
    pub procedure: u32,
    pub values: Items<Value>,
}

impl Copies for ProcCall {
    fn copy(&self, alloc: Global) -> Result<ProcCall, NoMemory> {
        Ok(ProcCall {
            procedure: self.procedure,
            values: self.values.copy(alloc)?,
        })
    }
}
