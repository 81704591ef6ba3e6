//! What a refresh sees of the master's tables.
ghost use Rattle.std.specs.Prelude.{◌≡◌, ℕ, ◌<◌, ⊤, List, length, option_copied};
ghost use Rattle.std.specs.Borrow.{sem, follows_so};
ghost use mathlib.Core.Option.{none};
ghost use Rattle.rep_schema.specs.declared.schema.Schema.{Schema as SchemaValue};
ghost use Rattle.rep_schema.specs.Tables.{Rows, columns_of, find_row, rows_of};
ghost use Rattle.refreshes.specs.Views.{LooksUp};

use rep_schema::RowStore;
use rep_values::{Key, Row};

/// A master's tables, whose rows are looked up one by one. No call changes them.
pub trait MasterView {
    // What contracts see: the schema, the rows of each table, and how many rows were looked up.
    ghost schema: { Self → SchemaValue };

    ghost tables: { Self → List Rows };

    ghost count: { Self → ℕ };

    /// The row with a key; None exactly where no row has it.
    fn row(&mut self, table: u32, key: &Key) -> Option<&Row>
        requires { table < length (schema self.old).tables }
        ensures found { option_copied result ≡ find_row (columns_of (schema self.old) table) key.now (rows_of (tables self.old) table) }
        ensures* after { sem 𝓛 (follows_so Self.row Self.row self.entry.ghost_name none (λ _ _. ⊤)
            (λ n. LooksUp (record { schema = schema self.old; tables = tables self.old; count = count self.old })
            (record { schema = schema n; tables = tables n; count = count n }))) };

    /// How many rows were looked up. The count stands still at the end of its type.
    fn lookups(&self) -> u64
        ensures { result ≡ count self.now };
}

/// A store as the master's tables, with a count of its look-ups.
#[derive(Drop)]
pub struct CountedView<'a, R> {
    store: &'a R,
    count: u64,
}

impl<'a, R: RowStore> CountedView<'a, R> {
    /// The view of a store in which nothing was looked up yet.
    pub fn of(store: &'a R) -> CountedView<'a, R>
        ensures store { result.store.now ≡ store.now }
        ensures count { result.count ≡ 0 }
    {
        CountedView { store, count: 0 }
    }
}

impl<'a, R: RowStore> MasterView for CountedView<'a, R> {
    ghost schema = { λ v. R.schema v.store.now };

    ghost tables = { λ v. R.tables v.store.now };

    ghost count = { λ v. v.count };

    fn row(&mut self, table: u32, key: &Key) -> Option<&Row> {
        self.count = self.count.saturating_add(1);
        self.store.get(table, key)
    }

    fn lookups(&self) -> u64 {
        self.count
    }
}
