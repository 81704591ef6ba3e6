//! A store whose tables lie in pages.
ghost use Rattle.std.specs.Prelude.{◌≡◌, ◌≢◌, ℕ, ◌+◌, ◌<◌, ◌≤◌, ◌⊎◌, ◌↔◌, [], length, replicate, slice_get, slice_set, slice_index, option_copied, vec_len, vec_capacity, None, Some, IsTrue, IsSome, IsOk, IfOk, IfErr, OnOk, OnErr, OnSome};
ghost use Rattle.rep_values.specs.declared.refusal.Refusal.TheVariants.{Memory};
ghost use Rattle.rep_schema.specs.Shape.{HasShape};
ghost use Rattle.rep_schema.specs.Tables.{columns_of, constraints_of, constraint_columns_of, key_of, find_row, put_row, take_row, rows_of, IsKeyed, RowFits, IsUniqueRow, IsHeldElsewhere, AreTables};
ghost use Rattle.rep_declare.specs.Refusals.{declare_refusal};
ghost use Rattle.rep_declare.specs.Additions.{ColumnNamed, declared};
ghost use Rattle.rep_declare.specs.Shaping.{ShapesNoRows, rows_with};
ghost use Rattle.page_tables.specs.Stored.{rows_in, uniques_in, AreIndexed};

use crate::change::{change_of, make_change};
use crate::paged_rows::PagedRows;
use rep_declare::{Declare, add_declaration, refusal_of};
use rep_lists::{Copies, NoMemory};
use rep_schema::{RowStore, Schema, TableEntry, columns_of};
use rep_values::{Key, Refusal, Row};
use std::alloc::Global;
use std::marker::Model;

/// The tables of a schema, each in pages of at most 64 rows in rising order of key, with an index of the values of
/// each secondary constraint. A key is found by a search of the pages and of one page, and a put or take moves at most
/// the slots of a page.
#[derive(Drop)]
pub struct PageTables {
    schema: Schema,
    stored: Vec<PagedRows>,
}

impl Model for PageTables {
    ghost use Rattle.rep_schema.specs.Tables.{AreTables};
    ghost use Rattle.rep_schema.specs.Putting.{StoreState};
    ghost use Rattle.page_tables.specs.Stored.{rows_in, spare_in, AreIndexed};

    ghost Value = { StoreState };

    ghost view = { λ s. record { schema = s.schema; tables = rows_in s.stored.items; spare = spare_in s.stored.items } };

    ghost invariant = { λ s. AreTables s.schema (rows_in s.stored.items) × AreIndexed s.schema.tables s.stored.items };
}

/// Each table empty, with an index for each of its constraints.
fn empty_tables(alloc: Global, entries: &[TableEntry]) -> Result<Vec<PagedRows>, NoMemory>
    ensures rows { IfOk result (λ stored. rows_in stored.items ≡ replicate (length entries.now) []) }
    ensures indexed { IfOk result (λ stored. AreIndexed entries.now stored.items) }
{
    let mut stored = Vec::with_capacity(alloc, entries.len())?;
    for entry in entries {
        stored.push(PagedRows::of(alloc, entry.constraints.as_slice())?)?;
    }
    Ok(stored)
}

/// Takes the room for one more table.
fn make_room(stored: &mut Vec<PagedRows>) -> Result<(), NoMemory>
    ensures ok { OnOk result (vec_len stored.new < vec_capacity stored.new) }
    ensures items { stored.new.items ≡ stored.old.items }
{
    stored.reserve(1)?;
    Ok(())
}

/// The same tables once more.
fn copy_each(alloc: Global, tables: &[PagedRows]) -> Result<Vec<PagedRows>, NoMemory>
    ensures rows { IfOk result (λ copied. rows_in copied.items ≡ rows_in tables.now) }
    ensures uniques { IfOk result (λ copied. uniques_in copied.items ≡ uniques_in tables.now) }
{
    let mut copied = Vec::with_capacity(alloc, tables.len())?;
    for rows in tables {
        copied.push(rows.copy(alloc)?)?;
    }
    Ok(copied)
}

impl PageTables {
    /// A store of this schema with every table empty.
    pub fn make(alloc: Global, schema: Schema) -> Result<PageTables, NoMemory>
        ensures schema { IfOk result (λ s. s.schema ≡ schema) }
        ensures tables { IfOk result (λ s. s.tables ≡ replicate (length schema.tables) []) }
    {
        let stored = empty_tables(alloc, schema.tables.as_slice())?;
        Ok(PageTables { schema, stored })
    }

    /// A store of an equal schema with equal rows, or want of memory.
    pub fn copy(&self, alloc: Global) -> Result<PageTables, NoMemory>
        ensures schema { IfOk result (λ s. s.schema ≡ self.now.schema) }
        ensures tables { IfOk result (λ s. s.tables ≡ self.now.tables) }
    {
        let schema = self.schema.copy(alloc)?;
        let stored = copy_each(alloc, self.stored.as_slice())?;
        Ok(PageTables { schema, stored })
    }

    /// Adds what a declaration adds to the schema, or says why it is refused, the first reason in order, or that
    /// there is no memory; then the store is as it was. A table that is declared comes behind the others and is
    /// empty. One that the declaration shapes has no rows.
    pub fn declare(&mut self, alloc: Global, declaration: &Declare) -> Result<(), Refusal>
        requires shape { HasShape self.old.schema }
        requires columns { ColumnNamed declaration.now }
        requires free { ShapesNoRows self.old.schema self.old.tables declaration.now }
        ensures ok { OnOk result (declare_refusal self.old.schema declaration.now ≡ None) }
        ensures schema { OnOk result (self.new.schema ≡ declared declaration.now self.old.schema) }
        ensures tables { OnOk result (self.new.tables ≡ rows_with declaration.now self.old.tables) }
        ensures err { IfErr result (λ why. (declare_refusal self.old.schema declaration.now ≡ Some why) ⊎ ((declare_refusal self.old.schema declaration.now ≡ None) × (why ≡ Memory))) }
        ensures kept { OnErr result ((self.new.schema ≡ self.old.schema) × (self.new.tables ≡ self.old.tables)) }
        ensures shape { HasShape self.new.schema }
    {
        if let Some(refusal) = refusal_of(&self.schema, declaration) {
            return Err(refusal);
        }
        // The memory comes first, so that nothing fails once the schema has changed.
        let change = change_of(alloc, &self.schema, &self.stored, declaration)?;
        make_room(&mut self.stored)?;
        add_declaration(&mut self.schema, alloc, declaration)?;
        make_change(&mut self.stored, change);
        Ok(())
    }
}

impl RowStore for PageTables {
    ghost schema = { λ s. s.schema };

    ghost tables = { λ s. s.tables };

    ghost spare = { λ s. s.spare };

    fn schema(&self) -> &Schema {
        &self.schema
    }

    fn count(&self, table: u32) -> u64 {
        let rows = &self.stored[table as usize];
        rows.len() as u64
    }

    fn get(&self, table: u32, key: &Key) -> Option<&Row> {
        let columns = columns_of(&self.schema, table);
        let rows = &self.stored[table as usize];
        rows.get(columns, key.values())
    }

    fn row_in_order(&self, table: u32, place: u64) -> Option<&Row> {
        let rows = &self.stored[table as usize];
        rows.at(place as usize)
    }

    fn holds_unique(&self, table: u32, constraint: u32, row: &Row) -> bool {
        let columns = columns_of(&self.schema, table);
        let rows = &self.stored[table as usize];
        rows.holds(columns, constraint as usize, row.values())
    }

    fn reserve(&mut self, table: u32, rows: u64) -> Result<(), NoMemory> {
        let stored = &mut self.stored[table as usize];
        stored.reserve(rows as usize)
    }

    fn put(&mut self, table: u32, row: Row) -> Option<Row> {
        let columns = columns_of(&self.schema, table);
        let rows = &mut self.stored[table as usize];
        rows.put(columns, row)
    }

    fn take(&mut self, table: u32, key: &Key) -> Option<Row> {
        let columns = columns_of(&self.schema, table);
        let rows = &mut self.stored[table as usize];
        rows.take(columns, key.values())
    }
}
