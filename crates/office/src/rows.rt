//! The rows of an office.
ghost use Rattle.std.specs.Prelude.{◌≡◌, option_copied};
ghost use Rattle.office.specs.Rows.{row_count, row_at, row_with_key};

use crate::desk::Office;
use rep_schema::RowStore;
use rep_values::{Key, Row, TableName};
use schema_names::table_place;

impl Office {
    /// How many rows a table has; None exactly where no table has the name.
    pub fn row_count(&self, table: &TableName) -> Option<u64>
        ensures { result ≡ row_count self.now table.now }
    {
        let place = table_place(self.schema().tables.as_slice(), table)?;
        Some(self.site.store().count(place as u32))
    }

    /// The row of a table at a place in the order of keys, from 0; None exactly where no table has the name, or the place is at
    /// or behind the end.
    pub fn row(&self, table: &TableName, place: u64) -> Option<&Row>
        ensures { option_copied result ≡ row_at self.now table.now place }
    {
        let table = table_place(self.schema().tables.as_slice(), table)?;
        self.site.store().row_in_order(table as u32, place)
    }

    /// The row of a table with a key; None exactly where no table has the name, or no row the key.
    pub fn row_with_key(&self, table: &TableName, key: &Key) -> Option<&Row>
        ensures { option_copied result ≡ row_with_key self.now table.now key.now }
    {
        let table = table_place(self.schema().tables.as_slice(), table)?;
        self.site.store().get(table as u32, key)
    }
}
