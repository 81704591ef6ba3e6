//! The rows of one table, in rising order of key.
ghost use Rattle.std.specs.Prelude.{◌≡◌, ◌+◌, ◌<◌, ◌≤◌, ◌⊎◌, ◌↔◌, [], ◌∷◌, ◌++◌, length, map, slice_get, slice_index_or, option_copied, IsTrue, IsSome, IsOk, IfOk, OnOk, OnSome};
ghost use Rattle.std.specs.List.{AllByRecursion};
ghost use Rattle.rep_lists.specs.Rising.{IsRising};
ghost use Rattle.rep_schema.specs.Tables.{row_cmp, key_of, find_row, put_row, take_row, IsHeldElsewhere};
ghost use Rattle.page_tables.specs.Stored.{columns_of_each};

use crate::indexed_rows::IndexedRows;
use rep_lists::{Items, NoMemory};
use rep_schema::{Column, Constraint};
use rep_values::{Row, Value};
use std::alloc::Global;
use std::marker::Model;

/// A table's rows, in rising order of key, and the columns of its constraints. The columns of the table are given to
/// each call.
#[derive(Drop)]
pub(crate) struct PagedRows {
    kept: IndexedRows,
}

impl Model for PagedRows {
    ghost use Rattle.std.specs.Prelude.{◌-◌, length, map};
    ghost use Rattle.page_tables.specs.Stored.{StoredTable, IsStored, rows_kept, room_of};

    ghost Value = { StoredTable };

    ghost view = { λ s. record {
      rows = rows_kept s.kept.slots s.kept.order;
      uniques = map (λ index. index.columns) s.kept.indexes.items;
      spare = room_of s.kept.slots s.kept.order s.kept.indexes.items - length s.kept.order.items;
    } };

    ghost invariant = { λ s. IsStored s.kept.slots s.kept.order s.kept.indexes.items };
}

impl PagedRows {
    /// No rows, and an index for each constraint.
    pub(crate) fn of(alloc: Global, constraints: &[Constraint]) -> Result<PagedRows, NoMemory>
        ensures rows { IfOk result (λ s. s.rows ≡ []) }
        ensures uniques { IfOk result (λ s. s.uniques ≡ columns_of_each constraints.now) }
    {
        Ok(PagedRows {
            kept: IndexedRows::of(alloc, constraints)?,
        })
    }

    /// No rows, and one index more, by these columns.
    pub(crate) fn with_index(
        &self,
        alloc: Global,
        columns: Items<u32>,
    ) -> Result<PagedRows, NoMemory>
        ensures rows { IfOk result (λ s. s.rows ≡ []) }
        ensures uniques { IfOk result (λ s. s.uniques ≡ self.now.uniques ++ columns ∷ []) }
    {
        Ok(PagedRows {
            kept: self.kept.with_index(alloc, columns)?,
        })
    }

    /// The same rows and the same indexes, or want of memory.
    pub(crate) fn copy(&self, alloc: Global) -> Result<PagedRows, NoMemory>
        ensures rows { IfOk result (λ copied. copied.rows ≡ self.now.rows) }
        ensures uniques { IfOk result (λ copied. copied.uniques ≡ self.now.uniques) }
    {
        Ok(PagedRows {
            kept: self.kept.copy(alloc)?,
        })
    }

    pub(crate) fn len(&self) -> usize
        ensures { result ≡ length self.now.rows }
    {
        self.kept.len()
    }

    pub(crate) fn at(&self, place: usize) -> Option<&Row>
        ensures { option_copied result ≡ slice_get self.now.rows place }
    {
        self.kept.at(place)
    }

    pub(crate) fn get(&self, columns: &[Column], key: &[Value]) -> Option<&Row>
        requires { IsRising (row_cmp columns.now) self.now.rows }
        ensures { option_copied result ≡ find_row columns.now key.now self.now.rows }
    {
        self.kept.get(columns, key)
    }

    pub(crate) fn holds(&self, columns: &[Column], constraint: usize, row: &[Value]) -> bool
        requires { constraint < length self.now.uniques }
        ensures { IsTrue result ↔ IsHeldElsewhere columns.now (slice_index_or self.now.uniques constraint []) row.now self.now.rows }
    {
        self.kept.holds(columns, constraint, row)
    }

    pub(crate) fn reserve(&mut self, rows: usize) -> Result<(), NoMemory>
        ensures ok { OnOk result (rows ≤ self.new.spare) }
        ensures succeeds { rows ≤ self.old.spare → IsOk result }
        ensures kept { self.old.spare ≤ self.new.spare }
        ensures rows { self.new.rows ≡ self.old.rows }
        ensures uniques { self.new.uniques ≡ self.old.uniques }
    {
        match self.kept.len().checked_add(rows) {
            Some(most) => self.kept.reserve(most),
            None => Err(NoMemory),
        }
    }

    pub(crate) fn put(&mut self, columns: &[Column], row: Row) -> Option<Row>
        requires rising { IsRising (row_cmp columns.now) self.old.rows }
        requires unique { AllByRecursion (λ places. ¬ IsHeldElsewhere columns.now places row self.old.rows) self.old.uniques }
        requires room { IsSome (find_row columns.now (key_of columns.now row) self.old.rows) ⊎ (1 ≤ self.old.spare) }
        ensures replaced { result ≡ find_row columns.now (key_of columns.now row) self.old.rows }
        ensures rows { self.new.rows ≡ put_row columns.now row self.old.rows }
        ensures uniques { self.new.uniques ≡ self.old.uniques }
        ensures room_added { self.old.spare ≤ self.new.spare + 1 }
        ensures room_replaced { OnSome result (self.old.spare ≤ self.new.spare) }
    {
        self.kept.put(columns, row)
    }

    pub(crate) fn take(&mut self, columns: &[Column], key: &[Value]) -> Option<Row>
        requires { IsRising (row_cmp columns.now) self.old.rows }
        ensures taken { result ≡ find_row columns.now key.now self.old.rows }
        ensures rows { self.new.rows ≡ take_row columns.now key.now self.old.rows }
        ensures uniques { self.new.uniques ≡ self.old.uniques }
        ensures room { self.old.spare ≤ self.new.spare }
    {
        self.kept.take(columns, key)
    }
}
