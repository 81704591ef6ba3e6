//! The rows that a rule picks of a whole table.
ghost use Rattle.std.specs.Prelude.{◌≡◌, ◌<◌, ◌++◌, length, filter, slice_get, option_to_list, IfOk, OnOk};
ghost use Rattle.rep_schema.specs.Tables.{rows_of, IsTable};
ghost use Rattle.subquery_snapshots.specs.Rules.{rule_picks, rows_picked, IsRuleWithin};

use crate::looking::picks;
use crate::{CountedRows, Rule};
use rep_lists::{Copies, Items, NoMemory};
use rep_schema::{RowStore, holds_tables};
use rep_values::Row;
use std::alloc::Global;

/// Whether a rule picks a row of its table, where the master's tables are a store's.
fn picks_in<R: RowStore>(
    alloc: Global,
    rule: &Rule<'_>,
    master: &R,
    row: &Row,
) -> Result<bool, NoMemory>
    requires { IsRuleWithin (R.schema master.now) rule.now }
    ensures { IfOk result (λ picked. picked ≡ rule_picks (R.schema master.now) (R.tables master.now) rule.now row.now) }
{
    holds_tables(master);
    let mut view = CountedRows::of(master);
    picks(alloc, rule, &mut view, row)
}

/// Adds the row at a place, where a rule picks it.
fn push_picked<R: RowStore>(
    alloc: Global,
    rows: &mut Items<Row>,
    rule: &Rule<'_>,
    master: &R,
    table: u32,
    place: u64,
) -> Result<(), NoMemory>
    requires table { table < length (R.schema master.now).tables }
    requires rule { IsRuleWithin (R.schema master.now) rule.now }
    requires place { place < length (rows_of (R.tables master.now) table) }
    ensures { OnOk result (rows.new ≡ rows.old ++ filter (rule_picks (R.schema master.now) (R.tables master.now) rule.now) (option_to_list (slice_get (rows_of (R.tables master.now) table) place))) }
{
    let Some(row) = master.row_in_order(table, place) else {
        unreachable!()
    };
    let picked = picks_in(alloc, rule, master, row)?;
    if picked {
        rows.push(row.copy(alloc)?)?;
    }
    Ok(())
}

/// Copies of the rows that a rule picks of a master's table, in their order. They are a table too. It goes through all
/// rows; the one error is want of memory.
pub fn rows_full<R: RowStore>(
    alloc: Global,
    master: &R,
    table: u32,
    rule: &Rule<'_>,
) -> Result<Items<Row>, NoMemory>
    requires table { table < length (R.schema master.now).tables }
    requires rule { IsRuleWithin (R.schema master.now) rule.now }
    ensures rows { IfOk result (λ rows. rows ≡ rows_picked (R.schema master.now) (R.tables master.now) table rule.now) }
    ensures table { IfOk result (λ rows. IsTable (R.schema master.now) table rows) }
{
    holds_tables(master);
    let mut rows = Items::new(alloc);
    for place in 0..master.count(table) {
        push_picked(alloc, &mut rows, rule, master, table, place)?;
    }
    Ok(rows)
}
