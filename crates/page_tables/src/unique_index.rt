//! The slots of a table's rows in the order of their values in a secondary constraint.
ghost use Rattle.std.specs.Prelude.{◌≡◌, ◌<◌, ◌≤◌, ◌++◌, [], None, Some, false, map, option_copied, IsOk, IfOk, OnOk};
ghost use Rattle.std.specs.List.{AllByRecursion};
ghost use Rattle.rep_lists.specs.Rising.{find_at};
ghost use Rattle.rep_lists.specs.RisingLaws.{at_key, RisesBy};
ghost use Rattle.rep_schema.specs.Tables.{picked};
ghost use Rattle.page_tables.specs.Slots.{row_in};
ghost use Rattle.page_tables.specs.Index.{picked_cmp, values_in, is_alike, with_slot, without_slot, listed, unlisted, CanEnter, CanList, RisesIn};

use crate::pages::Pages;
use crate::sought::{ByValues, compare_picked, row_at, row_in};
use rep_lists::{Copies, Items, NoMemory};
use rep_values::{Row, Value};
use std::alloc::Global;
use std::marker::Model;

/// A constraint's columns, and the slots of the rows in the order of their values there.
#[derive(Drop)]
pub(crate) struct UniqueIndex {
    columns: Items<u32>,
    slots: Pages,
}

impl Model for UniqueIndex {
    ghost use Rattle.page_tables.specs.Index.{UniqueSlots};

    ghost Value = { UniqueSlots };

    ghost view = { λ s. record { columns = s.columns; items = s.slots.items; most = s.slots.most } };
}

impl UniqueIndex {
    /// The index of no rows by these columns.
    pub(crate) fn of(alloc: Global, columns: Items<u32>) -> UniqueIndex
        ensures columns { result.columns ≡ columns }
        ensures items { result.items ≡ [] }
    {
        UniqueIndex {
            columns,
            slots: Pages::new(alloc),
        }
    }

    /// The same index once more, or want of memory.
    pub(crate) fn copy(&self, alloc: Global) -> Result<UniqueIndex, NoMemory>
        ensures { IfOk result (λ copied. copied ≡ self.now) }
    {
        Ok(UniqueIndex {
            columns: self.columns.copy(alloc)?,
            slots: self.slots.copy(alloc)?,
        })
    }

    pub(crate) fn copy_columns(&self, alloc: Global) -> Result<Items<u32>, NoMemory>
        ensures { IfOk result (λ columns. columns ≡ self.now.columns) }
    {
        self.columns.copy(alloc)
    }

    pub(crate) fn columns(&self) -> &[u32]
        ensures { result.now ≡ self.now.columns }
    {
        self.columns.as_slice()
    }

    /// The slot whose row has a row's values.
    pub(crate) fn find(&self, rows: &[Option<Row>], row: &[Value]) -> Option<u32>
        requires { RisesIn rows.now self.now }
        ensures { result ≡ find_at (at_key (values_in rows.now self.now.columns) picked_cmp (picked self.now.columns row.now)) self.now.items }
    {
        let places = self.columns.as_slice();
        self.slots.find(&ByValues { rows, places, row })
    }

    pub(crate) fn reserve(&mut self, most: usize) -> Result<(), NoMemory>
        ensures ok { OnOk result (most ≤ self.new.most) }
        ensures succeeds { most ≤ self.old.most → IsOk result }
        ensures kept { self.old.most ≤ self.new.most }
        ensures columns { self.new.columns ≡ self.old.columns }
        ensures items { self.new.items ≡ self.old.items }
    {
        self.slots.reserve(most)
    }

    /// Puts a slot whose row has values that no row has.
    fn put(&mut self, rows: &[Option<Row>], slot: u32)
        requires { CanEnter rows.now slot self.old }
        ensures { self.new ≡ with_slot rows.now slot self.old }
    {
        let places = self.columns.as_slice();
        let row = row_in(rows, slot);
        self.slots.enter(&ByValues { rows, places, row }, slot);
    }

    /// Takes the slot whose row has the values of a slot's row.
    fn take(&mut self, rows: &[Option<Row>], slot: u32)
        requires { RisesIn rows.now self.old }
        ensures { self.new ≡ without_slot rows.now slot self.old }
    {
        let places = self.columns.as_slice();
        let row = row_in(rows, slot);
        self.slots.take(&ByValues { rows, places, row });
    }
}

/// Whether both rows are there and have the same values in these columns.
fn is_alike(columns: &[u32], row: Option<&Row>, other: Option<&Row>) -> bool
    ensures { result ≡ is_alike columns.now (option_copied row.entry) (option_copied other.entry) }
{
    match (row, other) {
        (Some(row), Some(other)) => compare_picked(columns, row.values(), other.values()).is_eq(),
        (None, Some(_)) | (Some(_), None) | (None, None) => false,
    }
}

fn list_one(index: &mut UniqueIndex, rows: &[Option<Row>], slot: u32, before: Option<&Row>)
    requires { CanList rows.now slot (option_copied before) index.old }
    ensures { index.new ≡ listed rows.now slot (option_copied before.entry) index.old }
{
    if !is_alike(index.columns(), before, row_at(rows, slot)) {
        index.put(rows, slot);
    }
}

fn unlist_one(index: &mut UniqueIndex, rows: &[Option<Row>], slot: u32, after: Option<&Row>)
    requires { RisesIn rows.now index.old }
    ensures { index.new ≡ unlisted rows.now slot (option_copied after.entry) index.old }
{
    if !is_alike(index.columns(), row_at(rows, slot), after) {
        index.take(rows, slot);
    }
}

/// Puts a slot in each index, but for those in which the row that it had before has the same values.
#[inline(always)]
pub(crate) fn list(
    indexes: &mut Vec<UniqueIndex>,
    rows: &[Option<Row>],
    slot: u32,
    before: Option<&Row>,
)
    requires { AllByRecursion (CanList rows.now slot (option_copied before)) indexes.old.items }
    ensures { indexes.new.items ≡ map (listed rows.now slot (option_copied before.entry)) indexes.old.items }
{
    for place in 0..indexes.len() {
        list_one(&mut indexes[place], rows, slot, before);
    }
}

/// Takes a slot out of each index, but for those in which the row that it gets has the same values.
#[inline(always)]
pub(crate) fn unlist(
    indexes: &mut Vec<UniqueIndex>,
    rows: &[Option<Row>],
    slot: u32,
    after: Option<&Row>,
)
    requires { AllByRecursion (RisesIn rows.now) indexes.old.items }
    ensures { indexes.new.items ≡ map (unlisted rows.now slot (option_copied after.entry)) indexes.old.items }
{
    for place in 0..indexes.len() {
        unlist_one(&mut indexes[place], rows, slot, after);
    }
}
