//! Which rows of a snapshot's table have to go, and which have to come.
ghost use Rattle.std.specs.Prelude.{◌≡◌, ◌+◌, ◌<◌, ◌≤◌, ◌++◌, [], ◌∷◌, length, map, slice_get, option_copied, option_to_list, Some, IfOk, OnOk, IfErr};
ghost use Rattle.std.specs.List.{AllByRecursion};
ghost use Rattle.rep_lists.specs.Rising.{IsRising, IsThere, IsGap};
ghost use Rattle.rep_schema.specs.Tables.{columns_of, row_beside, row_cmp, key_of, find_row, rows_of, RowFits, IsKeyed, IsTable};
ghost use Rattle.snapshot_query.specs.Queries.{query_rows};
ghost use Rattle.refreshes.specs.Showing.{shown};
ghost use Rattle.refreshes.specs.Planned.{gone_here, coming_here, gone_keys, coming_rows, absent_rows, all_keys};

use crate::MasterView;
use crate::showing::{are_same, shown};
use rep_lists::{Copies, NoMemory};
use rep_schema::{Column, RowStore, columns_of, compare_rows, key_in};
use rep_values::{Key, Row, Value};
use snapshot_query::Query;
use std::alloc::Global;
use std::cmp::Ordering;
use std::marker::Model;

/// A row twice: for the store, and for the change that is answered.
#[derive(Drop)]
pub(crate) struct NewRow {
    row: Row,
    kept: Row,
}

impl Model for NewRow {
    ghost use Rattle.std.specs.Prelude.{◌≡◌};
    ghost use Rattle.rep_schema.specs.Tables.{Cells};

    ghost Value = { Cells };

    ghost view = { λ n. n.row };

    ghost invariant = { λ n. n.kept ≡ n.row };
}

impl NewRow {
    fn of(alloc: Global, row: &Row) -> Result<NewRow, NoMemory>
        ensures { IfOk result (λ new. new ≡ row.now) }
    {
        let kept = row.copy(alloc)?;
        Ok(NewRow {
            row: row.copy(alloc)?,
            kept,
        })
    }

    /// The row for the store, and the one for the change.
    pub(crate) fn both(self) -> (Row, Row)
        ensures row { result.0 ≡ self }
        ensures kept { result.1 ≡ self }
    {
        (self.row, self.kept)
    }
}

/// The keys whose rows have to go, and the rows that have to come. A row that is replaced is in both.
#[derive(Drop)]
pub(crate) struct Plan {
    pub(crate) gone: Vec<Key>,
    pub(crate) come: Vec<NewRow>,
}

impl Plan {
    fn new(alloc: Global) -> Plan
        ensures gone { result.gone.items ≡ [] }
        ensures come { result.come.items ≡ [] }
    {
        Plan {
            gone: Vec::new(alloc),
            come: Vec::new(alloc),
        }
    }

    /// Takes a key in, where its row isn't the wanted one.
    fn add(
        &mut self,
        alloc: Global,
        key: &Key,
        present: Option<&Row>,
        wanted: Option<&Row>,
    ) -> Result<(), NoMemory>
        ensures gone { OnOk result (self.new.gone.items ≡ self.old.gone.items ++ gone_here key.now (option_copied present.entry) (option_copied wanted.entry)) }
        ensures come { OnOk result (self.new.come.items ≡ self.old.come.items ++ coming_here (option_copied present.entry) (option_copied wanted.entry)) }
    {
        if are_same(present, wanted) {
            return Ok(());
        }
        if present.is_some() {
            self.gone.push(*key)?;
        }
        if let Some(row) = wanted {
            self.come.push(NewRow::of(alloc, row)?)?;
        }
        Ok(())
    }
}

/// Looks a key up at the master and in the store.
fn look_up<R: RowStore, M: MasterView>(
    alloc: Global,
    plan: &mut Plan,
    query: &Query,
    store: &R,
    master: &mut M,
    table: u32,
    key: &Key,
) -> Result<(), NoMemory>
    requires table { table < length (R.schema store.now).tables }
    requires schema { M.schema master.old ≡ R.schema store.now }
    ensures gone { OnOk result (plan.new.gone.items ≡ plan.old.gone.items
        ++ gone_here key.now (find_row (columns_of (R.schema store.now) table) key.now (rows_of (R.tables store.now) table))
        (shown query.now (find_row (columns_of (R.schema store.now) table) key.now (rows_of (M.tables master.old) table)))) }
    ensures come { OnOk result (plan.new.come.items ≡ plan.old.come.items
        ++ coming_here (find_row (columns_of (R.schema store.now) table) key.now (rows_of (R.tables store.now) table))
        (shown query.now (find_row (columns_of (R.schema store.now) table) key.now (rows_of (M.tables master.old) table)))) }
    ensures schema { M.schema master.new ≡ M.schema master.old }
    ensures tables { M.tables master.new ≡ M.tables master.old }
    ensures rise { M.count master.old ≤ M.count master.new }
    ensures lookups { M.count master.new ≤ M.count master.old + 1 }
{
    let wanted = shown(query, master.row(table, key));
    plan.add(alloc, key, store.get(table, key), wanted)
}

/// What has to go and to come for the rows that a query shows of the master's, as far as these keys say.
pub(crate) fn plan_keys<R: RowStore, M: MasterView>(
    alloc: Global,
    query: &Query,
    store: &R,
    master: &mut M,
    table: u32,
    keys: &[Key],
) -> Result<Plan, NoMemory>
    requires table { table < length (R.schema store.now).tables }
    requires schema { M.schema master.old ≡ R.schema store.now }
    requires rising { IsRising (row_cmp (columns_of (R.schema store.now) table)) (rows_of (M.tables master.old) table) }
    ensures gone { IfOk result (λ plan. plan.gone.items
        ≡ gone_keys (columns_of (R.schema store.now) table) (rows_of (R.tables store.now) table) (query_rows query.now (rows_of (M.tables master.old) table)) keys.now) }
    ensures come { IfOk result (λ plan. plan.come.items
        ≡ coming_rows (columns_of (R.schema store.now) table) (rows_of (R.tables store.now) table) (query_rows query.now (rows_of (M.tables master.old) table)) keys.now) }
    ensures schema { M.schema master.new ≡ M.schema master.old }
    ensures tables { M.tables master.new ≡ M.tables master.old }
    ensures rise { M.count master.old ≤ M.count master.new }
    ensures lookups { M.count master.new ≤ M.count master.old + length keys.now }
{
    let mut plan = Plan::new(alloc);
    for key in keys {
        look_up(alloc, &mut plan, query, store, master, table, key)?;
    }
    Ok(plan)
}

/// The place of the row with another row's key, or else the place where that one would stand.
fn search_like(rows: &[Row], columns: &[Column], like: &[Value]) -> Result<usize, usize>
    requires { IsRising (row_cmp columns.now) rows.now }
    ensures found { IfOk result (IsThere (row_beside columns.now (key_of columns.now like.now)) rows.now) }
    ensures absent { IfErr result (IsGap (row_beside columns.now (key_of columns.now like.now)) rows.now) }
{
    rows.binary_search_by(
        |row: &Row| -> Ordering
            ensures { result ≡ row_cmp columns.entry.now row.now like.entry.now }
        { compare_rows(columns, row.values(), like) },
    )
}

/// The row with another row's key.
fn find_like<'a>(rows: &'a [Row], columns: &[Column], like: &[Value]) -> Option<&'a Row>
    requires { IsRising (row_cmp columns.now) rows.now }
    ensures { option_copied result ≡ find_row columns.now (key_of columns.now like.now) rows.now }
{
    match search_like(rows, columns, like) {
        Ok(place) => Some(&rows[place]),
        Err(_) => None,
    }
}

/// Takes the store's row at a place in, where another one is wanted.
fn add_present<R: RowStore>(
    alloc: Global,
    plan: &mut Plan,
    store: &R,
    table: u32,
    place: u64,
    rows: &[Row],
) -> Result<(), NoMemory>
    requires table { table < length (R.schema store.now).tables }
    requires keyed { IsKeyed (columns_of (R.schema store.now) table) }
    requires wanted { IsTable (R.schema store.now) table rows.now }
    requires place { place < length (rows_of (R.tables store.now) table) }
    ensures gone { OnOk result (plan.new.gone.items ≡ plan.old.gone.items
        ++ gone_keys (columns_of (R.schema store.now) table) (rows_of (R.tables store.now) table) rows.now (map (key_of (columns_of (R.schema store.now) table)) (option_to_list (slice_get (rows_of (R.tables store.now) table) place)))) }
    ensures come { OnOk result (plan.new.come.items ≡ plan.old.come.items
        ++ coming_rows (columns_of (R.schema store.now) table) (rows_of (R.tables store.now) table) rows.now (map (key_of (columns_of (R.schema store.now) table)) (option_to_list (slice_get (rows_of (R.tables store.now) table) place)))) }
{
    let Some(present) = store.row_in_order(table, place) else {
        unreachable!()
    };
    let key = key_in(store.schema(), table, present);
    let wanted = find_like(rows, columns_of(store.schema(), table), present.values());
    plan.add(alloc, &key, Some(present), wanted)
}

/// Takes the store's rows in for which others are wanted, or none.
fn add_all_present<R: RowStore>(
    alloc: Global,
    plan: &mut Plan,
    store: &R,
    table: u32,
    rows: &[Row],
) -> Result<(), NoMemory>
    requires table { table < length (R.schema store.now).tables }
    requires keyed { IsKeyed (columns_of (R.schema store.now) table) }
    requires wanted { IsTable (R.schema store.now) table rows.now }
    ensures gone { OnOk result (plan.new.gone.items ≡ plan.old.gone.items
        ++ gone_keys (columns_of (R.schema store.now) table) (rows_of (R.tables store.now) table) rows.now (map (key_of (columns_of (R.schema store.now) table)) (rows_of (R.tables store.now) table))) }
    ensures come { OnOk result (plan.new.come.items ≡ plan.old.come.items
        ++ coming_rows (columns_of (R.schema store.now) table) (rows_of (R.tables store.now) table) rows.now (map (key_of (columns_of (R.schema store.now) table)) (rows_of (R.tables store.now) table))) }
{
    for place in 0..store.count(table) {
        add_present(alloc, plan, store, table, place, rows)?;
    }
    Ok(())
}

/// Takes a wanted row in, where its key isn't in the store.
fn add_absent<R: RowStore>(
    alloc: Global,
    plan: &mut Plan,
    store: &R,
    table: u32,
    row: &Row,
) -> Result<(), NoMemory>
    requires table { table < length (R.schema store.now).tables }
    requires keyed { IsKeyed (columns_of (R.schema store.now) table) }
    requires fits { RowFits (columns_of (R.schema store.now) table) row.now }
    ensures gone { OnOk result (plan.new.gone.items ≡ plan.old.gone.items) }
    ensures come { OnOk result (plan.new.come.items ≡ plan.old.come.items
        ++ absent_rows (columns_of (R.schema store.now) table) (rows_of (R.tables store.now) table) (row.now ∷ [])) }
{
    let key = key_in(store.schema(), table, row);
    match store.get(table, &key) {
        Some(_) => Ok(()),
        None => plan.add(alloc, &key, None, Some(row)),
    }
}

/// Takes the wanted rows in whose key isn't in the store.
fn add_all_absent<R: RowStore>(
    alloc: Global,
    plan: &mut Plan,
    store: &R,
    table: u32,
    rows: &[Row],
) -> Result<(), NoMemory>
    requires table { table < length (R.schema store.now).tables }
    requires keyed { IsKeyed (columns_of (R.schema store.now) table) }
    requires fit { AllByRecursion (RowFits (columns_of (R.schema store.now) table)) rows.now }
    ensures gone { OnOk result (plan.new.gone.items ≡ plan.old.gone.items) }
    ensures come { OnOk result (plan.new.come.items ≡ plan.old.come.items
        ++ absent_rows (columns_of (R.schema store.now) table) (rows_of (R.tables store.now) table) rows.now) }
{
    for row in rows {
        add_absent(alloc, plan, store, table, row)?;
    }
    Ok(())
}

/// What has to go and to come for these rows.
pub(crate) fn plan_rows<R: RowStore>(
    alloc: Global,
    store: &R,
    table: u32,
    rows: &[Row],
) -> Result<Plan, NoMemory>
    requires table { table < length (R.schema store.now).tables }
    requires keyed { IsKeyed (columns_of (R.schema store.now) table) }
    requires wanted { IsTable (R.schema store.now) table rows.now }
    ensures gone { IfOk result (λ plan. plan.gone.items
        ≡ gone_keys (columns_of (R.schema store.now) table) (rows_of (R.tables store.now) table) rows.now (all_keys (columns_of (R.schema store.now) table) (rows_of (R.tables store.now) table) rows.now)) }
    ensures come { IfOk result (λ plan. plan.come.items
        ≡ coming_rows (columns_of (R.schema store.now) table) (rows_of (R.tables store.now) table) rows.now (all_keys (columns_of (R.schema store.now) table) (rows_of (R.tables store.now) table) rows.now)) }
{
    let mut plan = Plan::new(alloc);
    add_all_present(alloc, &mut plan, store, table, rows)?;
    add_all_absent(alloc, &mut plan, store, table, rows)?;
    Ok(plan)
}
