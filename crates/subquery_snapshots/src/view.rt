//! What a refresh sees of a master's tables, the children of a parent among them.
ghost use Rattle.std.specs.Prelude.{◌≡◌, ◌<◌, ⊤, length, option_copied};
ghost use Rattle.std.specs.Borrow.{sem, follows_so};
ghost use mathlib.Core.Option.{none};
ghost use Rattle.rep_schema.specs.Tables.{columns_of, rows_of};
ghost use Rattle.refreshes.specs.Views.{LooksUp};
ghost use Rattle.subquery_snapshots.specs.Children.{child_above};

use crate::search::child_above;
use refreshes::MasterView;
use rep_schema::RowStore;
use rep_values::{Key, Row};

/// A master's tables, whose rows are looked up one by one, by their key or as the children of a parent. No call
/// changes them.
pub trait ChildView: MasterView {
    /// The first row above a key whose values in these columns are a parent's key; None exactly where there is none.
    /// Where no key is given, the first of all such rows. It counts as one look-up.
    fn child(
        &mut self,
        table: u32,
        columns: &[u32],
        parent: &Key,
        above: Option<&Key>,
    ) -> Option<&Row>
        requires { table < length (Self.schema self.old).tables }
        ensures found { option_copied result ≡ child_above (columns_of (Self.schema self.old) table) columns.now parent.now (option_copied above.entry) (rows_of (Self.tables self.old) table) }
        ensures* after { sem 𝓛 (follows_so Self.row Self.row self.entry.ghost_name none (λ _ _. ⊤)
            (λ n. LooksUp (record { schema = Self.schema self.old; tables = Self.tables self.old; count = Self.count self.old })
            (record { schema = Self.schema n; tables = Self.tables n; count = Self.count n }))) };
}

/// A store as the master's tables, with a count of its look-ups. A child is sought from the key on above which it is to
/// stand: the place behind the key is found by halves, and the rows from there on are gone through.
#[derive(Drop)]
pub struct CountedRows<'a, R> {
    store: &'a R,
    count: u64,
}

impl<'a, R: RowStore> CountedRows<'a, R> {
    /// The view of a store in which nothing was looked up yet.
    pub fn of(store: &'a R) -> CountedRows<'a, R>
        ensures store { result.store.now ≡ store.now }
        ensures count { result.count ≡ 0 }
    {
        CountedRows { store, count: 0 }
    }
}

impl<'a, R: RowStore> MasterView for CountedRows<'a, R> {
    ghost schema = { λ v. R.schema v.store.now };

    ghost tables = { λ v. R.tables v.store.now };

    ghost count = { λ v. v.count };

    fn row(&mut self, table: u32, key: &Key) -> Option<&Row> {
        self.count = self.count.saturating_add(1);
        self.store.get(table, key)
    }

    fn lookups(&self) -> u64 {
        self.count
    }
}

impl<'a, R: RowStore> ChildView for CountedRows<'a, R> {
    fn child(
        &mut self,
        table: u32,
        columns: &[u32],
        parent: &Key,
        above: Option<&Key>,
    ) -> Option<&Row> {
        self.count = self.count.saturating_add(1);
        child_above(self.store, table, columns, parent, above)
    }
}
