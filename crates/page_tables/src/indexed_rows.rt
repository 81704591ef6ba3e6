//! What is kept of one table: its rows in slots, the slots in order of key, and an index for each constraint.
ghost use Rattle.std.specs.Prelude.{◌≡◌, ◌+◌, ◌<◌, ◌≤◌, ◌⊎◌, ◌↔◌, [], ◌∷◌, ◌++◌, Some, length, map, slice_get, slice_index_or, option_copied, IsTrue, IsSome, IsOk, IfOk, OnOk, OnSome};
ghost use Rattle.std.specs.List.{AllByRecursion};
ghost use Rattle.rep_lists.specs.Rising.{IsRising};
ghost use Rattle.rep_schema.specs.Tables.{row_cmp, key_of, find_row, put_row, take_row, IsHeldElsewhere};
ghost use Rattle.page_tables.specs.Slots.{slot_row, SlotHolds};
ghost use Rattle.page_tables.specs.Index.{IsIn, IsFreeBeside, AreRoomier};
ghost use Rattle.page_tables.specs.Stored.{rows_kept, room_of, columns_of_each, IsStored};

use crate::pages::Pages;
use crate::slots::Slots;
use crate::sought::{ByKey, ByRow, row_at, row_in};
use crate::unique_index::{UniqueIndex, list, unlist};
use rep_lists::{Copies, Items, NoMemory};
use rep_schema::{Column, Constraint, have_one_key};
use rep_values::{Row, Value};
use std::alloc::Global;

/// Makes room for so many rows in each index.
fn reserve_each(indexes: &mut Vec<UniqueIndex>, most: usize) -> Result<(), NoMemory>
    ensures ok { OnOk result (AllByRecursion (λ index. most ≤ index.most) indexes.new.items) }
    ensures succeeds { AllByRecursion (λ index. most ≤ index.most) indexes.old.items → IsOk result }
    ensures kept { AreRoomier indexes.old.items indexes.new.items }
{
    for place in 0..indexes.len() {
        indexes[place].reserve(most)?;
    }
    Ok(())
}

/// An index of no rows for each constraint.
fn indexes_of(alloc: Global, constraints: &[Constraint]) -> Result<Vec<UniqueIndex>, NoMemory>
    ensures columns { IfOk result (λ indexes. map (λ index. index.columns) indexes.items ≡ columns_of_each constraints.now) }
    ensures items { IfOk result (λ indexes. AllByRecursion (λ index. index.items ≡ []) indexes.items) }
{
    let mut indexes = Vec::with_capacity(alloc, constraints.len())?;
    for constraint in constraints {
        let columns = constraint.columns.copy(alloc)?;
        indexes.push(UniqueIndex::of(alloc, columns))?;
    }
    Ok(indexes)
}

/// The same indexes once more.
fn copy_indexes(alloc: Global, indexes: &[UniqueIndex]) -> Result<Vec<UniqueIndex>, NoMemory>
    ensures { IfOk result (λ copied. copied.items ≡ indexes.now) }
{
    let mut copied = Vec::with_capacity(alloc, indexes.len())?;
    for index in indexes {
        copied.push(index.copy(alloc)?)?;
    }
    Ok(copied)
}

/// Indexes of no rows: one by the columns of each of these, and one by further columns.
fn indexes_with(
    alloc: Global,
    indexes: &[UniqueIndex],
    columns: Items<u32>,
) -> Result<Vec<UniqueIndex>, NoMemory>
    ensures columns { IfOk result (λ all. map (λ index. index.columns) all.items ≡ map (λ index. index.columns) indexes.now ++ columns ∷ []) }
    ensures items { IfOk result (λ all. AllByRecursion (λ index. index.items ≡ []) all.items) }
{
    let mut all = Vec::with_capacity(alloc, indexes.len())?;
    for index in indexes {
        all.push(UniqueIndex::of(alloc, index.copy_columns(alloc)?))?;
    }
    all.push(UniqueIndex::of(alloc, columns))?;
    Ok(all)
}

/// A row stays in its slot until it is taken. The order and the indexes name it by its slot, and so a put or take
/// moves slots alone.
#[derive(Drop)]
pub(crate) struct IndexedRows {
    slots: Slots,
    order: Pages,
    indexes: Vec<UniqueIndex>,
}

impl IndexedRows {
    /// No rows, and an index for each constraint.
    pub(crate) fn of(alloc: Global, constraints: &[Constraint]) -> Result<IndexedRows, NoMemory>
        ensures rows { IfOk result (λ kept. rows_kept kept.slots kept.order ≡ []) }
        ensures columns { IfOk result (λ kept. map (λ index. index.columns) kept.indexes.items ≡ columns_of_each constraints.now) }
        ensures stored { IfOk result (λ kept. IsStored kept.slots kept.order kept.indexes.items) }
    {
        Ok(IndexedRows {
            slots: Slots::new(alloc),
            order: Pages::new(alloc),
            indexes: indexes_of(alloc, constraints)?,
        })
    }

    /// No rows, and one index more, by these columns.
    pub(crate) fn with_index(
        &self,
        alloc: Global,
        columns: Items<u32>,
    ) -> Result<IndexedRows, NoMemory>
        ensures rows { IfOk result (λ kept. rows_kept kept.slots kept.order ≡ []) }
        ensures columns { IfOk result (λ kept. map (λ index. index.columns) kept.indexes.items ≡ map (λ index. index.columns) self.now.indexes.items ++ columns ∷ []) }
        ensures stored { IfOk result (λ kept. IsStored kept.slots kept.order kept.indexes.items) }
    {
        Ok(IndexedRows {
            slots: Slots::new(alloc),
            order: Pages::new(alloc),
            indexes: indexes_with(alloc, &self.indexes, columns)?,
        })
    }

    /// The same rows in the same slots, or want of memory.
    pub(crate) fn copy(&self, alloc: Global) -> Result<IndexedRows, NoMemory>
        requires { IsStored self.now.slots self.now.order self.now.indexes.items }
        ensures rows { IfOk result (λ kept. rows_kept kept.slots kept.order ≡ rows_kept self.now.slots self.now.order) }
        ensures columns { IfOk result (λ kept. map (λ index. index.columns) kept.indexes.items ≡ map (λ index. index.columns) self.now.indexes.items) }
        ensures stored { IfOk result (λ kept. IsStored kept.slots kept.order kept.indexes.items) }
    {
        Ok(IndexedRows {
            slots: self.slots.copy(alloc)?,
            order: self.order.copy(alloc)?,
            indexes: copy_indexes(alloc, &self.indexes)?,
        })
    }

    pub(crate) fn len(&self) -> usize
        ensures { result ≡ length (rows_kept self.now.slots self.now.order) }
    {
        self.order.len()
    }

    pub(crate) fn at(&self, place: usize) -> Option<&Row>
        requires { IsStored self.now.slots self.now.order self.now.indexes.items }
        ensures { option_copied result ≡ slice_get (rows_kept self.now.slots self.now.order) place }
    {
        match self.order.at(place) {
            Some(slot) => row_at(self.slots.rows(), slot),
            None => None,
        }
    }

    pub(crate) fn get(&self, columns: &[Column], key: &[Value]) -> Option<&Row>
        requires stored { IsStored self.now.slots self.now.order self.now.indexes.items }
        requires rising { IsRising (row_cmp columns.now) (rows_kept self.now.slots self.now.order) }
        ensures { option_copied result ≡ find_row columns.now key.now (rows_kept self.now.slots self.now.order) }
    {
        let rows = self.slots.rows();
        match self.order.find(&ByKey { rows, columns, key }) {
            Some(slot) => row_at(rows, slot),
            None => None,
        }
    }

    /// Whether a row with another key has the row's values in a constraint. A look into the index of the constraint
    /// finds the one row that may have them.
    pub(crate) fn holds(&self, columns: &[Column], constraint: usize, row: &[Value]) -> bool
        requires stored { IsStored self.now.slots self.now.order self.now.indexes.items }
        requires constraint { constraint < length self.now.indexes.items }
        ensures { IsTrue result
            ↔ IsHeldElsewhere columns.now (slice_index_or (map (λ index. index.columns) self.now.indexes.items) constraint []) row.now (rows_kept self.now.slots self.now.order) }
    {
        let rows = self.slots.rows();
        match self.indexes[constraint].find(rows, row) {
            Some(slot) => !have_one_key(columns, row_in(rows, slot), row),
            None => false,
        }
    }

    /// Makes room for so many rows in all, or finds no memory. Room is never given up.
    pub(crate) fn reserve(&mut self, most: usize) -> Result<(), NoMemory>
        requires { IsStored self.old.slots self.old.order self.old.indexes.items }
        ensures ok { OnOk result (most ≤ room_of self.new.slots self.new.order self.new.indexes.items) }
        ensures succeeds { most ≤ room_of self.old.slots self.old.order self.old.indexes.items → IsOk result }
        ensures kept { room_of self.old.slots self.old.order self.old.indexes.items ≤ room_of self.new.slots self.new.order self.new.indexes.items }
        ensures rows { self.new.slots.rows ≡ self.old.slots.rows }
        ensures order { self.new.order.items ≡ self.old.order.items }
        ensures columns { map (λ index. index.columns) self.new.indexes.items ≡ map (λ index. index.columns) self.old.indexes.items }
        ensures stored { IsStored self.new.slots self.new.order self.new.indexes.items }
    {
        self.slots.reserve(most)?;
        self.order.reserve(most)?;
        reserve_each(&mut self.indexes, most)
    }

    /// Puts a row in the place of the one in its slot. Where both have the same values in a constraint, its index
    /// stays as it is.
    fn replace(&mut self, slot: u32, row: Row) -> Option<Row>
        requires stored { IsStored self.old.slots self.old.order self.old.indexes.items }
        requires there { IsIn slot self.old.order.items }
        requires free { AllByRecursion (IsFreeBeside self.old.slots.rows self.old.order.items slot row) self.old.indexes.items }
        ensures before { result ≡ slot_row self.old.slots.rows slot }
        ensures here { SlotHolds self.old.slots self.new.slots slot (Some row) }
        ensures order { self.new.order ≡ self.old.order }
        ensures room { room_of self.new.slots self.new.order self.new.indexes.items ≡ room_of self.old.slots self.old.order self.old.indexes.items }
        ensures columns { map (λ index. index.columns) self.new.indexes.items ≡ map (λ index. index.columns) self.old.indexes.items }
        ensures stored { IsStored self.new.slots self.new.order self.new.indexes.items }
    {
        unlist(&mut self.indexes, self.slots.rows(), slot, Some(&row));
        let before = self.slots.replace(slot, row);
        list(&mut self.indexes, self.slots.rows(), slot, before.as_ref());
        before
    }

    /// Puts a row in its place, and hands back the row with its key.
    pub(crate) fn put(&mut self, columns: &[Column], row: Row) -> Option<Row>
        requires stored { IsStored self.old.slots self.old.order self.old.indexes.items }
        requires rising { IsRising (row_cmp columns.now) (rows_kept self.old.slots self.old.order) }
        requires unique { AllByRecursion (λ index. ¬ IsHeldElsewhere columns.now index.columns row (rows_kept self.old.slots self.old.order)) self.old.indexes.items }
        requires room { IsSome (find_row columns.now (key_of columns.now row) (rows_kept self.old.slots self.old.order))
            ⊎ (length self.old.order.items < room_of self.old.slots self.old.order self.old.indexes.items) }
        ensures replaced { result ≡ find_row columns.now (key_of columns.now row) (rows_kept self.old.slots self.old.order) }
        ensures rows { rows_kept self.new.slots self.new.order ≡ put_row columns.now row (rows_kept self.old.slots self.old.order) }
        ensures one { length self.new.order.items ≤ length self.old.order.items + 1 }
        ensures same { OnSome result (length self.new.order.items ≤ length self.old.order.items) }
        ensures room { room_of self.new.slots self.new.order self.new.indexes.items ≡ room_of self.old.slots self.old.order self.old.indexes.items }
        ensures columns { map (λ index. index.columns) self.new.indexes.items ≡ map (λ index. index.columns) self.old.indexes.items }
        ensures stored { IsStored self.new.slots self.new.order self.new.indexes.items }
    {
        let slot = self.slots.next();
        let sought = ByRow {
            rows: self.slots.rows(),
            columns,
            row: row.values(),
        };
        match self.order.enter(&sought, slot) {
            Some(found) => self.replace(found, row),
            None => {
                let before = self.slots.hold(row);
                list(&mut self.indexes, self.slots.rows(), slot, None);
                before
            }
        }
    }

    /// Takes the row with a key away and hands it back.
    pub(crate) fn take(&mut self, columns: &[Column], key: &[Value]) -> Option<Row>
        requires stored { IsStored self.old.slots self.old.order self.old.indexes.items }
        requires rising { IsRising (row_cmp columns.now) (rows_kept self.old.slots self.old.order) }
        ensures taken { result ≡ find_row columns.now key.now (rows_kept self.old.slots self.old.order) }
        ensures rows { rows_kept self.new.slots self.new.order ≡ take_row columns.now key.now (rows_kept self.old.slots self.old.order) }
        ensures fewer { length self.new.order.items ≤ length self.old.order.items }
        ensures room { room_of self.new.slots self.new.order self.new.indexes.items ≡ room_of self.old.slots self.old.order self.old.indexes.items }
        ensures columns { map (λ index. index.columns) self.new.indexes.items ≡ map (λ index. index.columns) self.old.indexes.items }
        ensures stored { IsStored self.new.slots self.new.order self.new.indexes.items }
    {
        let sought = ByKey {
            rows: self.slots.rows(),
            columns,
            key,
        };
        match self.order.take(&sought) {
            Some(slot) => {
                unlist(&mut self.indexes, self.slots.rows(), slot, None);
                self.slots.release(slot)
            }
            None => None,
        }
    }
}
