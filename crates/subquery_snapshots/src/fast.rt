//! The rows that a rule picks of a table, made from older ones by what was changed since.
ghost use Rattle.std.specs.Prelude.{◌≡◌, ◌+◌, ◌*◌, ◌<◌, ◌≤◌, [], ◌∷◌, length, map, IfOk, OnOk};
ghost use Rattle.rep_lists.specs.Rising.{IsRising};
ghost use Rattle.rep_schema.specs.Shape.{AreDistinct};
ghost use Rattle.rep_schema.specs.Tables.{columns_of, row_cmp, key_of, rows_of, IsTable, AreTables};
ghost use Rattle.snapshot_query.specs.Parents.{has_parent};
ghost use Rattle.subquery_snapshots.specs.Rules.{rule_picks, rows_picked, rows_of_parents, waiting_rows, waiting_keys, IsKeyedTable, IsRuleWithin, ShowsUpToDate};
ghost use Rattle.subquery_snapshots.specs.Children.{children, child_count};
ghost use Rattle.subquery_snapshots.specs.Renewing.{RenewsBy};

use crate::looking::{matches_at, next_child, shown_at};
use crate::rows::{copy_rows, set_row};
use crate::{ChildView, Rule};
use refreshes::MasterView;
use rep_lists::{Items, NoMemory};
use rep_schema::{Schema, columns_of, key_in};
use rep_values::{Key, Row};
use snapshot_query::Parent;
use std::alloc::Global;

/// Makes rows anew under a key: they get what a rule shows of the master's row.
fn renew_key<M: MasterView>(
    alloc: Global,
    rows: &mut Vec<Row>,
    schema: &Schema,
    table: u32,
    rule: &Rule<'_>,
    master: &mut M,
    key: &Key,
) -> Result<(), NoMemory>
    requires table { table < length schema.now.tables }
    requires rule { IsRuleWithin schema.now rule.now }
    requires schema { M.schema master.old ≡ schema.now }
    requires master { AreTables schema.now (M.tables master.old) }
    requires rising { IsRising (row_cmp (columns_of schema.now table)) rows.old.items }
    ensures renewed { OnOk result (RenewsBy schema.now (M.tables master.old) table (rule_picks schema.now (M.tables master.old) rule.now) (key.now ∷ []) rows.old.items rows.new.items) }
    ensures schema { M.schema master.new ≡ M.schema master.old }
    ensures tables { M.tables master.new ≡ M.tables master.old }
    ensures rise { M.count master.old ≤ M.count master.new }
    ensures lookups { M.count master.new ≤ M.count master.old + 2 }
{
    let row = shown_at(alloc, rule, master, table, key)?;
    set_row(rows, columns_of(schema, table), key.values(), row)?;
    Ok(())
}

/// Makes rows anew under each of these keys.
fn renew_keys<M: MasterView>(
    alloc: Global,
    rows: &mut Vec<Row>,
    schema: &Schema,
    table: u32,
    rule: &Rule<'_>,
    master: &mut M,
    keys: &[Key],
) -> Result<(), NoMemory>
    requires table { table < length schema.now.tables }
    requires rule { IsRuleWithin schema.now rule.now }
    requires schema { M.schema master.old ≡ schema.now }
    requires master { AreTables schema.now (M.tables master.old) }
    requires rising { IsRising (row_cmp (columns_of schema.now table)) rows.old.items }
    ensures renewed { OnOk result (RenewsBy schema.now (M.tables master.old) table (rule_picks schema.now (M.tables master.old) rule.now) keys.now rows.old.items rows.new.items) }
    ensures schema { M.schema master.new ≡ M.schema master.old }
    ensures tables { M.tables master.new ≡ M.tables master.old }
    ensures rise { M.count master.old ≤ M.count master.new }
    ensures lookups { M.count master.new ≤ M.count master.old + 2 * length keys.now }
{
    for key in keys {
        renew_key(alloc, rows, schema, table, rule, master, key)?;
    }
    Ok(())
}

/// Makes rows anew under the keys of a parent's children: each child is there exactly where the parent is and passes
/// the tests. The parent is looked up, then one child after the other, and once in vain.
fn renew_children<M: ChildView>(
    alloc: Global,
    rows: &mut Vec<Row>,
    schema: &Schema,
    table: u32,
    parent: &Parent,
    master: &mut M,
    key: &Key,
) -> Result<(), NoMemory>
    requires table { IsKeyedTable schema.now table }
    requires parent { parent.now.table < length schema.now.tables }
    requires schema { M.schema master.old ≡ schema.now }
    requires master { AreTables schema.now (M.tables master.old) }
    requires rising { IsRising (row_cmp (columns_of schema.now table)) rows.old.items }
    ensures renewed { OnOk result (RenewsBy schema.now (M.tables master.old) table (has_parent schema.now (M.tables master.old) parent.now)
        (map (key_of (columns_of schema.now table)) (children parent.now.columns key.now (rows_of (M.tables master.old) table))) rows.old.items rows.new.items) }
    ensures schema { M.schema master.new ≡ M.schema master.old }
    ensures tables { M.tables master.new ≡ M.tables master.old }
    ensures rise { M.count master.old ≤ M.count master.new }
    ensures lookups { M.count master.new ≤ M.count master.old + 2 + length (children parent.now.columns key.now (rows_of (M.tables master.old) table)) }
{
    let matched = matches_at(parent, master, key);
    let columns = parent.columns.as_slice();
    let mut above: Option<Key> = None;
    'children: loop {
        let Some(child) = next_child(alloc, master, table, columns, key, above.as_ref())? else {
            return Ok(());
        };
        let own = key_in(schema, table, &child);
        let row = matched.then_some(child);
        set_row(rows, columns_of(schema, table), own.values(), row)?;
        above = Some(own);
    }
}

/// Makes rows anew under the keys of the children of each of these parents.
fn renew_families<M: ChildView>(
    alloc: Global,
    rows: &mut Vec<Row>,
    schema: &Schema,
    table: u32,
    parent: &Parent,
    master: &mut M,
    keys: &[Key],
) -> Result<(), NoMemory>
    requires table { IsKeyedTable schema.now table }
    requires parent { parent.now.table < length schema.now.tables }
    requires schema { M.schema master.old ≡ schema.now }
    requires master { AreTables schema.now (M.tables master.old) }
    requires rising { IsRising (row_cmp (columns_of schema.now table)) rows.old.items }
    ensures renewed { OnOk result (RenewsBy schema.now (M.tables master.old) table (has_parent schema.now (M.tables master.old) parent.now)
        (map (key_of (columns_of schema.now table)) (rows_of_parents parent.now keys.now (rows_of (M.tables master.old) table))) rows.old.items rows.new.items) }
    ensures schema { M.schema master.new ≡ M.schema master.old }
    ensures tables { M.tables master.new ≡ M.tables master.old }
    ensures rise { M.count master.old ≤ M.count master.new }
    ensures lookups { M.count master.new ≤ M.count master.old + 2 * length keys.now + child_count parent.now.columns keys.now (rows_of (M.tables master.old) table) }
{
    for key in keys {
        renew_children(alloc, rows, schema, table, parent, master, key)?;
    }
    Ok(())
}

/// Makes rows anew under the keys of those that wait for one of these parents.
fn renew_waiting<M: ChildView>(
    alloc: Global,
    rows: &mut Vec<Row>,
    schema: &Schema,
    table: u32,
    rule: &Rule<'_>,
    master: &mut M,
    parents: &[Key],
) -> Result<(), NoMemory>
    requires table { IsKeyedTable schema.now table }
    requires rule { IsRuleWithin schema.now rule.now }
    requires schema { M.schema master.old ≡ schema.now }
    requires master { AreTables schema.now (M.tables master.old) }
    requires rising { IsRising (row_cmp (columns_of schema.now table)) rows.old.items }
    requires apart { AreDistinct parents.now }
    ensures renewed { OnOk result (RenewsBy schema.now (M.tables master.old) table (rule_picks schema.now (M.tables master.old) rule.now)
        (waiting_keys (columns_of schema.now table) rule.now parents.now (rows_of (M.tables master.old) table)) rows.old.items rows.new.items) }
    ensures schema { M.schema master.new ≡ M.schema master.old }
    ensures tables { M.tables master.new ≡ M.tables master.old }
    ensures rise { M.count master.old ≤ M.count master.new }
    ensures lookups { M.count master.new ≤ M.count master.old + 2 * length parents.now + length (waiting_rows rule.now parents.now (rows_of (M.tables master.old) table)) }
{
    match *rule {
        Rule::Whole(_) => Ok(()),
        Rule::Parent(parent) => renew_families(alloc, rows, schema, table, parent, master, parents),
    }
}

/// Copies of the rows that a rule picks of a master's table, in their order, made from older rows. These keys are
/// looked up, and so are the children of these parents, which are distinct; under each other key the older rows already
/// have what the rule shows. The rows are a table too. There are at most two look-ups for each key, two for each parent
/// and one for each row of the table whose parent is among these. The one error is want of memory, after which the
/// master's count alone may have risen.
pub fn rows_fast<M: ChildView>(
    alloc: Global,
    schema: &Schema,
    table: u32,
    rule: &Rule<'_>,
    older: &[Row],
    master: &mut M,
    keys: &[Key],
    parents: &[Key],
) -> Result<Items<Row>, NoMemory>
    requires table { IsKeyedTable schema.now table }
    requires rule { IsRuleWithin schema.now rule.now }
    requires schema { M.schema master.old ≡ schema.now }
    requires master { AreTables schema.now (M.tables master.old) }
    requires older { IsRising (row_cmp (columns_of schema.now table)) older.now }
    requires up_to_date { ShowsUpToDate schema.now (M.tables master.old) table rule.now keys.now parents.now older.now }
    requires apart { AreDistinct parents.now }
    ensures rows { IfOk result (λ rows. rows ≡ rows_picked schema.now (M.tables master.old) table rule.now) }
    ensures table { IfOk result (λ rows. IsTable schema.now table rows) }
    ensures schema { M.schema master.new ≡ M.schema master.old }
    ensures tables { M.tables master.new ≡ M.tables master.old }
    ensures rise { M.count master.old ≤ M.count master.new }
    ensures lookups { M.count master.new ≤ M.count master.old + 2 * length keys.now + 2 * length parents.now
        + length (waiting_rows rule.now parents.now (rows_of (M.tables master.old) table)) }
{
    let mut rows = copy_rows(alloc, older)?;
    renew_keys(alloc, &mut rows, schema, table, rule, master, keys)?;
    renew_waiting(alloc, &mut rows, schema, table, rule, master, parents)?;
    Ok(Items::from_vec(rows))
}
