//! The rows of a table whose parent is there and passes its tests.
ghost use Rattle.std.specs.Prelude.{◌<◌, length, IfOk};
ghost use Rattle.rep_schema.specs.Tables.{columns_of, IsKeyed};

use crate::calls::count_text;
use crate::refreshed::{from_0, keyed_table_in};
use case_reader::{CaseStop, Words, push_row};
use rep_lists::Items;
use rep_schema::RowStore;
use rep_values::Row;
use script_lex::Symbol;
use snapshot_query::Parent;
use std::alloc::Global;
use subquery_snapshots::{Rule, rows_full};

/// Reads the number of a column.
fn read_column(columns: &mut Items<u32>, words: &mut Words) -> Result<(), CaseStop> {
    let column = words.whole()?;
    if column >= 32 {
        return Err(CaseStop::NoCase);
    }
    columns.push(column as u32)?;
    Ok(())
}

/// The numbers of columns up to a comma, or to the end of the line.
fn read_columns(alloc: Global, words: &mut Words) -> Result<Items<u32>, CaseStop> {
    let mut columns = Items::new(alloc);
    for _ in 0..u64::MAX {
        if words.is_done() || words.passes(Symbol::Comma) {
            break;
        }
        read_column(&mut columns, words)?;
    }
    Ok(columns)
}

/// A table of parents, and the columns that hold their keys. The parents' second value is to be 0 or more.
pub fn read_parent<R: RowStore>(
    alloc: Global,
    store: &R,
    words: &mut Words,
) -> Result<Parent, CaseStop>
    ensures table { IfOk result (λ parent. parent.table < length (R.schema store.now).tables) }
    ensures keyed { IfOk result (λ parent. IsKeyed (columns_of (R.schema store.now) parent.table)) }
{
    let table = keyed_table_in(store, words)?;
    let columns = read_columns(alloc, words)?;
    let tests = from_0(alloc)?;
    Ok(Parent {
        table,
        columns,
        tests,
    })
}

/// How many rows these are, and each behind a colon.
pub fn all_shown(alloc: Global, rows: &[Row]) -> Result<String, CaseStop> {
    let mut out = count_text(alloc, rows.len() as u64)?;
    for row in rows {
        out.push_str(" :")?;
        push_row(&mut out, alloc, row)?;
    }
    Ok(out)
}

/// The rows of a table that have such a parent.
pub fn picked<R: RowStore>(
    alloc: Global,
    store: &R,
    words: &mut Words,
) -> Result<String, CaseStop> {
    let table = keyed_table_in(store, words)?;
    let parent = read_parent(alloc, store, words)?;
    words.end()?;
    let rows = rows_full(alloc, store, table, &Rule::Parent(&parent))?;
    all_shown(alloc, rows.as_slice())
}
