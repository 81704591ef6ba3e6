//! Stores whose rows are read by their places.
ghost use Rattle.std.specs.Prelude.{◌≡◌, ◌<◌, List, length, slice_get, option_copied};
ghost use Rattle.rep_schema.specs.declared.schema.Schema.{Schema as SchemaValue};
ghost use Rattle.rep_schema.specs.Tables.{Rows, rows_of, AreTables};

use rep_schema::{RowStore, Schema};
use rep_values::Row;

/// A store whose rows are read by their places, as those of a `RowStore` are. It needn't cross threads: a bound that
/// does can't be passed on by an impl of a trait that doesn't.
pub(crate) trait PlacedRows {
    // What contracts see: the schema, and the rows of each table.
    ghost schema: { Self → SchemaValue };

    ghost tables: { Self → List Rows };

    /// The schema. The rows are tables of it.
    fn schema(&self) -> &Schema
        ensures value { result.now ≡ schema self.now }
        ensures sound { AreTables (schema self.now) (tables self.now) };

    /// How many rows a table of the schema has.
    fn count(&self, table: u32) -> u64
        requires { table < length (schema self.now).tables }
        ensures { result ≡ length (rows_of (tables self.now) table) };

    /// The row at a place in the order of keys, from 0; None exactly where the place is at or behind the end.
    fn row_in_order(&self, table: u32, place: u64) -> Option<&Row>
        requires { table < length (schema self.now).tables }
        ensures { option_copied result ≡ slice_get (rows_of (tables self.now) table) place };
}

impl<R: RowStore> PlacedRows for R {
    ghost schema = { λ s. R.RowStore.schema s };

    ghost tables = { λ s. R.RowStore.tables s };

    fn schema(&self) -> &Schema {
        RowStore::schema(self)
    }

    fn count(&self, table: u32) -> u64 {
        RowStore::count(self, table)
    }

    fn row_in_order(&self, table: u32, place: u64) -> Option<&Row> {
        RowStore::row_in_order(self, table, place)
    }
}
