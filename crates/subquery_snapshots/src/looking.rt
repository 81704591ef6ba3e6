//! Looking up at a master: what a rule shows under a key, and the children of a parent.
ghost use Rattle.std.specs.Prelude.{◌≡◌, ◌+◌, ◌<◌, ◌≤◌, length, option_copied, IfOk};
ghost use Rattle.rep_schema.specs.Tables.{columns_of, find_row, rows_of, AreTables};
ghost use Rattle.rep_schema.specs.Shown.{shown_by};
ghost use Rattle.snapshot_query.specs.Parents.{found_matches, has_parent};
ghost use Rattle.subquery_snapshots.specs.Rules.{rule_picks, IsKeyedTable, IsRuleWithin};
ghost use Rattle.subquery_snapshots.specs.Children.{child_above};

use crate::{ChildView, Rule};
use refreshes::MasterView;
use rep_lists::{Copies, NoMemory};
use rep_schema::values_at;
use rep_values::{Key, Row};
use snapshot_query::Parent;
use std::alloc::Global;

/// The same row once more, where there is one.
fn copy_row(alloc: Global, row: Option<&Row>) -> Result<Option<Row>, NoMemory>
    ensures { IfOk result (λ copied. copied ≡ option_copied row.entry) }
{
    match row {
        Some(row) => Ok(Some(row.copy(alloc)?)),
        None => Ok(None),
    }
}

/// Whether the parent with a key is there and passes the tests.
pub(crate) fn matches_at<M: MasterView>(parent: &Parent, master: &mut M, key: &Key) -> bool
    requires { parent.now.table < length (M.schema master.old).tables }
    ensures value { result ≡ found_matches parent.now.tests (find_row (columns_of (M.schema master.old) parent.now.table) key.now (rows_of (M.tables master.old) parent.now.table)) }
    ensures schema { M.schema master.new ≡ M.schema master.old }
    ensures tables { M.tables master.new ≡ M.tables master.old }
    ensures rise { M.count master.old ≤ M.count master.new }
    ensures lookups { M.count master.new ≤ M.count master.old + 1 }
{
    match master.row(parent.table, key) {
        Some(found) => parent.tests.matches(found),
        None => false,
    }
}

/// Whether a row has a parent that passes the tests. Values that are no key are those of no parent.
fn has_parent<M: MasterView>(
    alloc: Global,
    parent: &Parent,
    master: &mut M,
    row: &Row,
) -> Result<bool, NoMemory>
    requires parent { IsKeyedTable (M.schema master.old) parent.now.table }
    requires master { AreTables (M.schema master.old) (M.tables master.old) }
    ensures value { IfOk result (λ picked. picked ≡ has_parent (M.schema master.old) (M.tables master.old) parent.now row.now) }
    ensures schema { M.schema master.new ≡ M.schema master.old }
    ensures tables { M.tables master.new ≡ M.tables master.old }
    ensures rise { M.count master.old ≤ M.count master.new }
    ensures lookups { M.count master.new ≤ M.count master.old + 1 }
{
    let columns = parent.columns.as_slice();
    let values = values_at(alloc, columns, row.values())?;
    match Key::of(values.as_slice()) {
        Some(key) => Ok(matches_at(parent, master, &key)),
        None => Ok(false),
    }
}

/// Whether a rule picks a row of its table.
pub(crate) fn picks<M: MasterView>(
    alloc: Global,
    rule: &Rule<'_>,
    master: &mut M,
    row: &Row,
) -> Result<bool, NoMemory>
    requires rule { IsRuleWithin (M.schema master.old) rule.now }
    requires master { AreTables (M.schema master.old) (M.tables master.old) }
    ensures value { IfOk result (λ picked. picked ≡ rule_picks (M.schema master.old) (M.tables master.old) rule.now row.now) }
    ensures schema { M.schema master.new ≡ M.schema master.old }
    ensures tables { M.tables master.new ≡ M.tables master.old }
    ensures rise { M.count master.old ≤ M.count master.new }
    ensures lookups { M.count master.new ≤ M.count master.old + 1 }
{
    match *rule {
        Rule::Whole(query) => Ok(query.matches(row)),
        Rule::Parent(parent) => has_parent(alloc, parent, master, row),
    }
}

/// A copy of the master's row with a key.
fn copy_at<M: MasterView>(
    alloc: Global,
    master: &mut M,
    table: u32,
    key: &Key,
) -> Result<Option<Row>, NoMemory>
    requires { table < length (M.schema master.old).tables }
    ensures row { IfOk result (λ row. row ≡ find_row (columns_of (M.schema master.old) table) key.now (rows_of (M.tables master.old) table)) }
    ensures schema { M.schema master.new ≡ M.schema master.old }
    ensures tables { M.tables master.new ≡ M.tables master.old }
    ensures rise { M.count master.old ≤ M.count master.new }
    ensures lookups { M.count master.new ≤ M.count master.old + 1 }
{
    copy_row(alloc, master.row(table, key))
}

/// A copy of what a rule shows of the master's row with a key. The row and its parent are looked up.
pub(crate) fn shown_at<M: MasterView>(
    alloc: Global,
    rule: &Rule<'_>,
    master: &mut M,
    table: u32,
    key: &Key,
) -> Result<Option<Row>, NoMemory>
    requires table { table < length (M.schema master.old).tables }
    requires rule { IsRuleWithin (M.schema master.old) rule.now }
    requires master { AreTables (M.schema master.old) (M.tables master.old) }
    ensures row { IfOk result (λ row. row ≡ shown_by (rule_picks (M.schema master.old) (M.tables master.old) rule.now) (find_row (columns_of (M.schema master.old) table) key.now (rows_of (M.tables master.old) table))) }
    ensures schema { M.schema master.new ≡ M.schema master.old }
    ensures tables { M.tables master.new ≡ M.tables master.old }
    ensures rise { M.count master.old ≤ M.count master.new }
    ensures lookups { M.count master.new ≤ M.count master.old + 2 }
{
    let Some(row) = copy_at(alloc, master, table, key)? else {
        return Ok(None);
    };
    let picked = picks(alloc, rule, master, &row)?;
    if picked { Ok(Some(row)) } else { Ok(None) }
}

/// A copy of the first child of a parent above a key, or of all where there is no key.
pub(crate) fn next_child<M: ChildView>(
    alloc: Global,
    master: &mut M,
    table: u32,
    columns: &[u32],
    parent: &Key,
    above: Option<&Key>,
) -> Result<Option<Row>, NoMemory>
    requires { table < length (M.schema master.old).tables }
    ensures child { IfOk result (λ child. child ≡ child_above (columns_of (M.schema master.old) table) columns.now parent.now (option_copied above.entry) (rows_of (M.tables master.old) table)) }
    ensures schema { M.schema master.new ≡ M.schema master.old }
    ensures tables { M.tables master.new ≡ M.tables master.old }
    ensures rise { M.count master.old ≤ M.count master.new }
    ensures lookups { M.count master.new ≤ M.count master.old + 1 }
{
    copy_row(alloc, master.child(table, columns, parent, above))
}
