//! What a declaration changes in the tables that are stored.
ghost use Rattle.std.specs.Prelude.{◌≡◌, ◌<◌, [], vec_len, vec_capacity, IfOk, IfSome};
ghost use Rattle.rep_schema.specs.Named.{table_place};
ghost use Rattle.rep_schema.specs.Tables.{rows_of};
ghost use Rattle.rep_declare.specs.Shaping.{ShapesNoRows};
ghost use Rattle.page_tables.specs.Stored.{rows_in, AreIndexed};
ghost use Rattle.page_tables.specs.Changes.{changed, AreStoredWith, AreStoredWithUnique};

use crate::paged_rows::PagedRows;
use rep_declare::{Declare, places_named};
use rep_lists::NoMemory;
use rep_schema::Schema;
use rep_values::{Name, TableName};
use schema_names::table_place;
use std::alloc::Global;

/// A change of the stored tables, with all the memory that it wants.
#[derive(Drop)]
pub(crate) enum Change {
    Nothing,
    /// One more table.
    Table(PagedRows),
    /// One more index in the table at a place, which has no rows.
    Index(usize, PagedRows),
}

/// The change that a constraint of these columns makes, of whatever name.
fn index_change(
    alloc: Global,
    schema: &Schema,
    stored: &[PagedRows],
    table: &TableName,
    names: &[Name],
) -> Result<Change, NoMemory>
    requires indexed { AreIndexed schema.now.tables stored.now }
    requires free { IfSome (table_place schema.now table.now) (λ place. rows_of (rows_in stored.now) place ≡ []) }
    ensures { IfOk result (λ change. AreStoredWithUnique table.now names.now schema.now stored.now (changed change stored.now)) }
{
    let entries = schema.tables.as_slice();
    match table_place(entries, table) {
        Some(place) => {
            let columns = places_named(alloc, entries[place].columns.as_slice(), names)?;
            let rows = stored[place].with_index(alloc, columns)?;
            Ok(Change::Index(place, rows))
        }
        None => Ok(Change::Nothing),
    }
}

/// The change that a declaration makes, or want of memory. A table that it shapes has no rows.
pub(crate) fn change_of(
    alloc: Global,
    schema: &Schema,
    stored: &[PagedRows],
    declaration: &Declare,
) -> Result<Change, NoMemory>
    requires indexed { AreIndexed schema.now.tables stored.now }
    requires free { ShapesNoRows schema.now (rows_in stored.now) declaration.now }
    ensures { IfOk result (λ change. AreStoredWith declaration.now schema.now stored.now (changed change stored.now)) }
{
    match declaration {
        Declare::Table { .. } => Ok(Change::Table(PagedRows::of(alloc, &[])?)),
        Declare::Unique { table, columns, .. } => {
            index_change(alloc, schema, stored, table, columns.as_slice())
        }
        Declare::Site { .. }
        | Declare::LateSite { .. }
        | Declare::SnapSite { .. }
        | Declare::Group { .. }
        | Declare::Method { .. }
        | Declare::Priority { .. }
        | Declare::SiteLevel { .. }
        | Declare::UniqueMethod { .. }
        | Declare::Check { .. }
        | Declare::Convergent { .. } => Ok(Change::Nothing),
    }
}

/// Makes a change. There is room for one more table, so this takes no memory.
pub(crate) fn make_change(stored: &mut Vec<PagedRows>, change: Change)
    requires { vec_len stored.old < vec_capacity stored.old }
    ensures { stored.new.items ≡ changed change stored.old.items }
{
    match change {
        Change::Nothing => {}
        Change::Table(rows) => stored.push_reserved(rows),
        Change::Index(place, rows) => {
            if place < stored.len() {
                stored[place] = rows;
            }
        }
    }
}
