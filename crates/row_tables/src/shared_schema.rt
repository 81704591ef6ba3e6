//! A schema with several owners.
ghost use Rattle.std.specs.Prelude.{◌≡◌, ◌<◌, length, IfOk};
ghost use Rattle.rep_schema.specs.Tables.{columns_of, constraints_of, constraint_columns_of};

use rep_lists::NoMemory;
use rep_schema::{Column, Schema, columns_of, constraint_columns};
use std::alloc::Global;
use std::marker::Model;
use std::sync::Arc;

/// A schema, which doesn't change and stands in memory once, however many owners it has.
#[derive(Drop)]
pub struct SharedSchema {
    kept: Arc<Schema>,
}

impl Model for SharedSchema {
    ghost use Rattle.std.specs.Arc.{arc_value};
    ghost use Rattle.rep_schema.specs.declared.schema.Schema.{Schema as SchemaValue};

    ghost Value = { SchemaValue };

    ghost view = { λ s. arc_value s.kept };
}

impl SharedSchema {
    /// A schema that is taken over as it is, with one owner.
    pub fn new(alloc: Global, schema: Schema) -> Result<SharedSchema, NoMemory>
        ensures { IfOk result (λ shared. shared ≡ schema) }
    {
        Ok(SharedSchema {
            kept: Arc::new(alloc, schema)?,
        })
    }

    /// The schema.
    pub fn as_schema(&self) -> &Schema
        ensures { result.now ≡ self.now }
    {
        &self.kept
    }

    /// The columns of a table.
    pub(crate) fn columns_of(&self, table: u32) -> &[Column]
        requires { table < length self.now.tables }
        ensures { result.now ≡ columns_of self.now table }
    {
        columns_of(&self.kept, table)
    }

    /// The columns of a table's secondary constraint.
    pub(crate) fn constraint_columns(&self, table: u32, constraint: u32) -> &[u32]
        requires table { table < length self.now.tables }
        requires constraint { constraint < length (constraints_of self.now table) }
        ensures { result.now ≡ constraint_columns_of self.now table constraint }
    {
        constraint_columns(&self.kept, table, constraint)
    }

    /// One more owner, at no memory: it is refused only where 2^63 owners share the schema.
    pub fn share(&self) -> Result<SharedSchema, NoMemory>
        ensures { IfOk result (λ shared. shared ≡ self.now) }
    {
        Ok(SharedSchema {
            kept: Arc::try_clone(&self.kept)?,
        })
    }
}
