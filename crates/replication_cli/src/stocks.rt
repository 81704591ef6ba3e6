//! The storm's table at a site.
ghost use Rattle.std.specs.Prelude.{◌≡◌, ◌+◌, ◌<◌, ◌↔◌, ◌∷◌, length, drop, slice_get, None, IsTrue};
ghost use Rattle.rep_schema.specs.Tables.{rows_of};
ghost use Rattle.replication_cli.specs.Stocks.{number_or_zero, qty_of, top_of, greatest_with, total_qty, greatest_top, totals_of, same_rows, stock_rows, masters_agree};

use rep_schema::RowStore;
use rep_values::{Row, SiteName, Value, same_values};
use storm_script::sites;
use world_run::World;

/// What the rows of a table come to: how many there are, the sum of QTY, and the greatest TOP, 0 where there is no row.
#[derive(Clone, Copy, Debug, PartialEq, Eq)]
pub struct Totals {
    pub rows: u64,
    pub qty: i128,
    pub top: i64,
}

// How many rows the first table has; none where there is no table.
fn row_count<R: RowStore>(store: &R) -> u64
    ensures count { result ≡ length (rows_of (R.tables store.now) 0) }
    ensures table { 0 < result → 0 < length (R.schema store.now).tables }
{
    if store.schema().tables.is_empty() {
        return 0;
    }
    store.count(0)
}

// The row at a place of the first table.
fn row_at<R: RowStore>(store: &R, place: u64) -> &Row
    requires table { 0 < length (R.schema store.now).tables }
    requires place { place < length (rows_of (R.tables store.now) 0) }
    ensures { drop place (rows_of (R.tables store.now) 0) ≡ result.now ∷ drop (place + 1) (rows_of (R.tables store.now) 0) }
{
    match store.row_in_order(0, place) {
        Some(row) => row,
        None => unreachable!(),
    }
}

// The number at a place of a row; 0 where there is none.
fn number_in(row: &Row, place: usize) -> i64
    ensures { result ≡ number_or_zero (slice_get row.now place) }
{
    match row.values().get(place) {
        Some(Value::Num(number)) => *number,
        Some(Value::Words(_)) | None => 0,
    }
}

// The greater of what was greatest so far, if there was any, and a number.
fn raised(top: Option<i64>, number: i64) -> Option<i64>
    ensures { result ≡ greatest_with top number }
{
    match top {
        None => Some(number),
        Some(most) => Some(if most < number { number } else { most }),
    }
}

// What the rows of the first table come to.
fn totals_in<R: RowStore>(store: &R) -> Totals
    ensures { result ≡ totals_of (rows_of (R.tables store.now) 0) }
{
    let rows = row_count(store);
    let mut qty: i128 = 0;
    let mut top = None;
    for place in 0..rows {
        let row = row_at(store, place);
        qty += i128::from(number_in(row, 2));
        top = raised(top, number_in(row, 3));
    }
    Totals {
        rows,
        qty,
        top: top.unwrap_or(0),
    }
}

// Whether two stores have the same rows in the first table.
fn have_same_rows<R: RowStore>(a: &R, b: &R) -> bool
    ensures { IsTrue result ↔ (rows_of (R.tables a.now) 0 ≡ rows_of (R.tables b.now) 0) }
{
    let count = row_count(a);
    if row_count(b) != count {
        return false;
    }
    for place in 0..count {
        if !same_values(row_at(a, place).values(), row_at(b, place).values()) {
            return false;
        }
    }
    true
}

// The same as the test of their rows.
fn same_rows<R: RowStore>(a: &R, b: &R) -> bool
    ensures { result ≡ same_rows (rows_of (R.tables a.now) 0) (rows_of (R.tables b.now) 0) }
{
    have_same_rows(a, b)
}

/// What the rows at a site of a world come to; those of no rows where it isn't there. No master is lent out.
pub fn site_totals(world: &World, site: &SiteName) -> Totals
    requires { world.now.lent ≡ None }
    ensures { result ≡ totals_of (stock_rows site.now world.now.world) }
{
    match world.site(site) {
        Some(site) => totals_in(site.store()),
        None => Totals {
            rows: 0,
            qty: 0,
            top: 0,
        },
    }
}

// Whether two sites of a world have the same rows.
fn agree_between(world: &World, a: &SiteName, b: &SiteName) -> bool
    requires { world.now.lent ≡ None }
    ensures { result ≡ same_rows (stock_rows a.now world.now.world) (stock_rows b.now world.now.world) }
{
    match (world.site(a), world.site(b)) {
        (Some(a), Some(b)) => same_rows(a.store(), b.store()),
        (Some(site), None) | (None, Some(site)) => row_count(site.store()) == 0,
        (None, None) => true,
    }
}

/// Whether the masters of a world have the same rows. None of them is lent out.
pub fn masters_agree(world: &World) -> bool
    requires { world.now.lent ≡ None }
    ensures { result ≡ masters_agree world.now.world }
{
    let [a, b, c] = sites();
    agree_between(world, &a, &b) && agree_between(world, &b, &c)
}
