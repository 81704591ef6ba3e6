//! What a store of rows gives and keeps, whatever it is made of.
ghost use Rattle.std.specs.Prelude.{◌≡◌, ◌≢◌, ℕ, ◌+◌, ◌<◌, ◌≤◌, ◌⊎◌, ◌↔◌, List, length, slice_get, slice_set, slice_index, option_copied, IsTrue, IsSome, IsOk, OnOk, OnSome};
ghost use Rattle.rep_schema.specs.declared.schema.Schema.{Schema as SchemaValue};
ghost use Rattle.rep_schema.specs.Tables.{Rows, columns_of, constraints_of, constraint_columns_of, key_of, find_row, put_row, take_row, rows_of, IsKeyed, RowFits, IsUniqueRow, IsHeldElsewhere, AreTables};

use crate::Schema;
use rep_lists::NoMemory;
use rep_values::{Key, Row};

/// The rows of each table of a schema, in rising order of key, and room for more of them. `reserve` alone takes
/// memory. No call changes the schema, and none changes another table than its own.
pub trait RowStore: Send + Drop {
    // What contracts see: the schema, the rows of each table, and for how many new keys each table has room.
    ghost schema: { Self → SchemaValue };

    ghost tables: { Self → List Rows };

    ghost spare: { Self → List ℕ };

    /// The schema that the store was made with. The rows are tables of that schema.
    fn schema(&self) -> &Schema
        ensures value { result.now ≡ schema self.now }
        ensures sound { AreTables (schema self.now) (tables self.now) };

    /// How many rows a table of the schema has.
    fn count(&self, table: u32) -> u64
        requires { table < length (schema self.now).tables }
        ensures { result ≡ length (rows_of (tables self.now) table) };

    /// The row with a key; None exactly where no row has it.
    fn get(&self, table: u32, key: &Key) -> Option<&Row>
        requires { table < length (schema self.now).tables }
        ensures { option_copied result ≡ find_row (columns_of (schema self.now) table) key.now (rows_of (tables self.now) table) };

    /// The row at a place in the order of keys, from 0; None exactly where the place is at or behind the end.
    fn row_in_order(&self, table: u32, place: u64) -> Option<&Row>
        requires { table < length (schema self.now).tables }
        ensures { option_copied result ≡ slice_get (rows_of (tables self.now) table) place };

    /// Whether a row with another key has the row's values in the columns of a secondary constraint. The table has
    /// 1 to 4 key columns, and the row fits it.
    fn holds_unique(&self, table: u32, constraint: u32, row: &Row) -> bool
        requires table { table < length (schema self.now).tables }
        requires keyed { IsKeyed (columns_of (schema self.now) table) }
        requires constraint { constraint < length (constraints_of (schema self.now) table) }
        requires fits { RowFits (columns_of (schema self.now) table) row.now }
        ensures { IsTrue result
            ↔ IsHeldElsewhere (columns_of (schema self.now) table) (constraint_columns_of (schema self.now) table constraint) row.now (rows_of (tables self.now) table) };

    /// Makes room in a table for so many new rows, or finds no memory, which it never does where so much room is
    /// there. Room is never given up.
    fn reserve(&mut self, table: u32, rows: u64) -> Result<(), NoMemory>
        requires { table < length (schema self.old).tables }
        ensures ok { OnOk result (rows ≤ slice_index (spare self.new) table) }
        ensures succeeds { rows ≤ slice_index (spare self.old) table → IsOk result }
        ensures kept { slice_index (spare self.old) table ≤ slice_index (spare self.new) table }
        ensures schema { schema self.new ≡ schema self.old }
        ensures tables { tables self.new ≡ tables self.old }
        ensures others { (t : ℕ) → t ≢ table → slice_index (spare self.new) t ≡ slice_index (spare self.old) t };

    /// Adds a row, or puts it in the place of the row with its key, which it hands back. The table has 1 to 4 key
    /// columns, the row fits it and is unique in it, and a new key needs room for one row, which it uses up.
    fn put(&mut self, table: u32, row: Row) -> Option<Row>
        requires table { table < length (schema self.old).tables }
        requires keyed { IsKeyed (columns_of (schema self.old) table) }
        requires fits { RowFits (columns_of (schema self.old) table) row }
        requires unique { IsUniqueRow (schema self.old) table row (rows_of (tables self.old) table) }
        requires room { IsSome (find_row (columns_of (schema self.old) table) (key_of (columns_of (schema self.old) table) row) (rows_of (tables self.old) table))
            ⊎ (1 ≤ slice_index (spare self.old) table) }
        ensures replaced { result ≡ find_row (columns_of (schema self.old) table) (key_of (columns_of (schema self.old) table) row) (rows_of (tables self.old) table) }
        ensures schema { schema self.new ≡ schema self.old }
        ensures tables { tables self.new ≡ slice_set (tables self.old) table (put_row (columns_of (schema self.old) table) row (rows_of (tables self.old) table)) }
        ensures room_added { slice_index (spare self.old) table ≤ slice_index (spare self.new) table + 1 }
        ensures room_replaced { OnSome result (slice_index (spare self.old) table ≤ slice_index (spare self.new) table) }
        ensures others { (t : ℕ) → t ≢ table → slice_index (spare self.new) t ≡ slice_index (spare self.old) t };

    /// Takes the row with a key away and hands it back; None, and nothing changed, exactly where no row has the key.
    /// Its room stays.
    fn take(&mut self, table: u32, key: &Key) -> Option<Row>
        requires { table < length (schema self.old).tables }
        ensures taken { result ≡ find_row (columns_of (schema self.old) table) key.now (rows_of (tables self.old) table) }
        ensures schema { schema self.new ≡ schema self.old }
        ensures tables { tables self.new ≡ slice_set (tables self.old) table (take_row (columns_of (schema self.old) table) key.now (rows_of (tables self.old) table)) }
        ensures room { slice_index (spare self.old) table ≤ slice_index (spare self.new) table }
        ensures others { (t : ℕ) → t ≢ table → slice_index (spare self.new) t ≡ slice_index (spare self.old) t };
}
