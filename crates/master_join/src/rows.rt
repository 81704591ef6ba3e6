//! The rows of a store in another one.
ghost use Rattle.std.specs.Prelude.{◌≡◌, ◌<◌, [], length, replicate, slice_set, OnOk};
ghost use Rattle.rep_schema.specs.Tables.{rows_of};
ghost use Rattle.site_state.specs.Fits.{SchemaIsKeyed};

use rep_lists::{Copies, NoMemory};
use rep_schema::{RowStore, holds_tables};
use std::alloc::Global;

/// Puts copies of a table's rows into another store of the same schema, whose table is empty. They come in rising order of
/// key, so each is put behind those that are there.
fn copy_rows<R: RowStore, S: RowStore>(
    alloc: Global,
    source: &R,
    store: &mut S,
    table: u32,
) -> Result<(), NoMemory>
    requires keyed { SchemaIsKeyed (R.schema source.now) }
    requires schema { S.schema store.old ≡ R.schema source.now }
    requires table { table < length (R.schema source.now).tables }
    requires empty { rows_of (S.tables store.old) table ≡ [] }
    ensures tables { OnOk result (S.tables store.new ≡ slice_set (S.tables store.old) table (rows_of (R.tables source.now) table)) }
    ensures schema { S.schema store.new ≡ S.schema store.old }
{
    holds_tables(source);
    holds_tables(store);
    let count = source.count(table);
    store.reserve(table, count)?;
    for place in 0..count {
        let Some(row) = source.row_in_order(table, place) else {
            unreachable!()
        };
        let copied = row.copy(alloc)?;
        let _ = store.put(table, copied);
    }
    Ok(())
}

/// Puts copies of all rows of a store into another one of the same schema, which is empty.
pub(crate) fn copy_tables<R: RowStore, S: RowStore>(
    alloc: Global,
    source: &R,
    store: &mut S,
) -> Result<(), NoMemory>
    requires keyed { SchemaIsKeyed (R.schema source.now) }
    requires schema { S.schema store.old ≡ R.schema source.now }
    requires empty { S.tables store.old ≡ replicate (length (R.schema source.now).tables) [] }
    ensures tables { OnOk result (S.tables store.new ≡ R.tables source.now) }
    ensures schema { S.schema store.new ≡ S.schema store.old }
{
    holds_tables(source);
    for table in 0..source.schema().tables.len() {
        copy_rows(alloc, source, store, table as u32)?;
    }
    Ok(())
}
