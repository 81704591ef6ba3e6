//! A store whose tables are sorted vectors.
ghost use Rattle.std.specs.Prelude.{◌≡◌, ◌≢◌, ℕ, ◌+◌, ◌<◌, ◌≤◌, ◌⊎◌, ◌↔◌, [], length, replicate, slice_get, slice_set, slice_index, option_copied, IsTrue, IsSome, IsOk, IfOk, OnOk, OnSome};
ghost use Rattle.rep_schema.specs.Tables.{columns_of, constraints_of, constraint_columns_of, key_of, find_row, put_row, take_row, rows_of, IsKeyed, RowFits, IsUniqueRow, IsHeldElsewhere, AreTables};

use crate::SharedSchema;
use crate::sorted_rows::SortedRows;
use rep_lists::NoMemory;
use rep_schema::{RowStore, Schema};
use rep_values::{Key, Row};
use std::alloc::Global;
use std::marker::Model;

/// The tables of a schema, each a vector of rows in rising order of key. A key is found in as many steps as the
/// number of rows can be halved, and a put or take of a key moves the rows behind it.
#[derive(Drop)]
pub struct ListTables {
    schema: SharedSchema,
    stored: Vec<SortedRows>,
}

impl Model for ListTables {
    ghost use Rattle.rep_schema.specs.Tables.{AreTables};
    ghost use Rattle.rep_schema.specs.Putting.{StoreState};
    ghost use Rattle.row_tables.specs.Stored.{rows_in, spare_in};

    ghost Value = { StoreState };

    ghost view = { λ s. record { schema = s.schema; tables = rows_in s.stored.items; spare = spare_in s.stored.items } };

    ghost invariant = { λ s. AreTables s.schema (rows_in s.stored.items) };
}

impl ListTables {
    /// A store of this schema with every table empty.
    pub fn make(alloc: Global, schema: Schema) -> Result<ListTables, NoMemory>
        ensures schema { IfOk result (λ s. s.schema ≡ schema) }
        ensures tables { IfOk result (λ s. s.tables ≡ replicate (length schema.tables) []) }
    {
        let schema = SharedSchema::new(alloc, schema)?;
        ListTables::sharing(alloc, schema)
    }

    /// A store with every table empty, of a schema that has other owners too.
    pub fn sharing(alloc: Global, schema: SharedSchema) -> Result<ListTables, NoMemory>
        ensures schema { IfOk result (λ s. s.schema ≡ schema) }
        ensures tables { IfOk result (λ s. s.tables ≡ replicate (length schema.tables) []) }
    {
        let number = schema.as_schema().tables.len();
        let mut stored = Vec::with_capacity(alloc, number)?;
        for _ in 0..number {
            stored.push(SortedRows::new(alloc))?;
        }
        Ok(ListTables { schema, stored })
    }
}

impl RowStore for ListTables {
    ghost schema = { λ s. s.schema };

    ghost tables = { λ s. s.tables };

    ghost spare = { λ s. s.spare };

    fn schema(&self) -> &Schema {
        self.schema.as_schema()
    }

    fn count(&self, table: u32) -> u64 {
        let rows = &self.stored[table as usize];
        rows.len() as u64
    }

    fn get(&self, table: u32, key: &Key) -> Option<&Row> {
        let columns = self.schema.columns_of(table);
        let rows = &self.stored[table as usize];
        rows.get(columns, key.values())
    }

    fn row_in_order(&self, table: u32, place: u64) -> Option<&Row> {
        let rows = &self.stored[table as usize];
        rows.at(place as usize)
    }

    fn holds_unique(&self, table: u32, constraint: u32, row: &Row) -> bool {
        let columns = self.schema.columns_of(table);
        let places = self.schema.constraint_columns(table, constraint);
        let rows = &self.stored[table as usize];
        rows.holds(columns, places, row.values())
    }

    fn reserve(&mut self, table: u32, rows: u64) -> Result<(), NoMemory> {
        let stored = &mut self.stored[table as usize];
        stored.reserve(rows as usize)
    }

    fn put(&mut self, table: u32, row: Row) -> Option<Row> {
        let columns = self.schema.columns_of(table);
        let rows = &mut self.stored[table as usize];
        rows.put(columns, row)
    }

    fn take(&mut self, table: u32, key: &Key) -> Option<Row> {
        let columns = self.schema.columns_of(table);
        let rows = &mut self.stored[table as usize];
        rows.take(columns, key.values())
    }
}
