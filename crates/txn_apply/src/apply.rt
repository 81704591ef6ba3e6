//! A transaction on a store, all of it or nothing.
ghost use Rattle.std.specs.Prelude.{◌≡◌, ◌≢◌, ℕ, ◌+◌, ◌<◌, ◌≤◌, ◌^◌, false, List, length, slice_index, Ok, IfOk, IfErr, OnOk, OnErr};
ghost use Rattle.std.specs.List.{AllByRecursion};
ghost use Rattle.rep_schema.specs.Shape.{HasShape};
ghost use Rattle.rep_schema.specs.Tables.{Rows, AreTables};
ghost use Rattle.rep_schema.specs.Changes.{HaveLed, LeadsTo, room_for};
ghost use Rattle.conflict_detect.specs.Fits.{table_of, TxnFits};
ghost use Rattle.unique_resolve.specs.Numbers.{AreCounters, has_sequences, put_back};
ghost use Rattle.txn_effects.specs.Calls.{KeysStandAlone, call_effect};
ghost use Rattle.conflict_detect.specs.KeysNamed.{HasKeys};
ghost use Rattle.rep_schema.specs.Putting.{after_changes, changes_of};
ghost use Rattle.txn_effects.specs.Transactions.{txn_effect};
ghost use Rattle.txn_effects.specs.Laws.{IsChecked};
ghost use Rattle.txn_apply.specs.Stops.{CallStopsAs, CallsAs, CanCall, StopsAs};

use crate::ApplyStop;
use crate::call::apply_call;
use crate::stop::{CallStop, stop_at};
use conflict_detect::table_of;
use rep_calls::{Call, Txn};
use rep_lists::Items;
use rep_schema::{Change, Changes, RowStore, holds_tables, push_change, undo};
use rep_values::SiteName;
use std::alloc::Global;
use unique_resolve::Counters;

/// What applying a transaction changed, and what takes it back.
#[derive(Drop)]
pub struct Applied {
    /// The rows that changed, in order.
    pub changes: Changes,
    /// The counters from before the transaction; None where nothing could raise one, and so none was.
    pub counters_before: Option<Counters>,
}

impl Applied {
    fn of(done: Vec<Change>, counters_before: Option<Counters>) -> Applied
        ensures { result ≡ record { changes = record { rows = done.items }; counters_before = counters_before } }
    {
        let rows = Items::from_vec(done);
        Applied {
            changes: Changes { rows },
            counters_before,
        }
    }
}

/// Takes an applied transaction back: the store's rows and the counters are then as before it. It takes no memory.
pub fn take_back<R: RowStore>(store: &mut R, counters: &mut Counters, applied: Applied)
    requires led { HaveLed (R.schema store.old) applied.changes.rows (R.tables store.old) }
    requires room { (t : ℕ) → t < length (R.schema store.old).tables → room_for t applied.changes.rows ≤ slice_index (R.spare store.old) t }
    ensures earlier { (earlier : List Rows) → AreTables (R.schema store.old) earlier → LeadsTo (R.schema store.old) applied.changes.rows earlier (R.tables store.old)
        → R.tables store.new ≡ earlier }
    ensures counters { counters.new ≡ put_back applied.counters_before counters.old }
    ensures schema { R.schema store.new ≡ R.schema store.old }
    ensures room { (t : ℕ) → slice_index (R.spare store.old) t ≤ slice_index (R.spare store.new) t + room_for t applied.changes.rows }
{
    let Applied {
        changes,
        counters_before,
    } = applied;
    undo(store, changes);
    counters.put_back(counters_before);
}

/// Applies one call, after it took room for so many further rows of its table.
fn apply_in_room<R: RowStore>(
    alloc: Global,
    store: &mut R,
    origin: &SiteName,
    call: &Call,
    counters: &mut Counters,
    rows: usize,
) -> Result<Option<Change>, CallStop>
    requires able { CanCall (R.schema store.old) (R.tables store.old) counters.old call.now }
    requires few { rows < 2 ^ 32 }
    ensures ok { IfOk result (λ change. CallsAs (call_effect (R.schema store.old) (R.tables store.old) counters.old origin.now call.now) (changes_of change) counters.new) }
    ensures tables { IfOk result (λ change. R.tables store.new ≡ after_changes (R.schema store.old) (changes_of change) (R.tables store.old)) }
    ensures err { IfErr result (CallStopsAs (call_effect (R.schema store.old) (R.tables store.old) counters.old origin.now call.now)) }
    ensures still { has_sequences (R.schema store.old) ≡ false → counters.new ≡ counters.old }
    ensures same { OnErr result (R.tables store.new ≡ R.tables store.old) }
    ensures schema { R.schema store.new ≡ R.schema store.old }
    ensures room { OnOk result (rows ≤ slice_index (R.spare store.new) (table_of call.now)) }
    ensures others { (t : ℕ) → t ≢ table_of call.now → slice_index (R.spare store.old) t ≤ slice_index (R.spare store.new) t }
    ensures kept { OnErr result (slice_index (R.spare store.old) (table_of call.now) ≤ slice_index (R.spare store.new) (table_of call.now)) }
{
    store.reserve(table_of(call), rows as u64 + 1)?;
    let change = apply_call(alloc, store, origin, call, counters)?;
    Ok(change)
}

/// Applies a transaction from an origin: its calls in order, each by what it is settled to, or none of them. It
/// answers the rows that changed and the counters from before, and there is room in the store to take it back. Where a
/// call fails, the answer names the first one, from 1, with its error; then, and where there is no memory, the store's
/// rows and the counters are as before.
pub fn apply_txn<R: RowStore>(
    alloc: Global,
    store: &mut R,
    counters: &mut Counters,
    origin: &SiteName,
    txn: &Txn,
) -> Result<Applied, ApplyStop>
    requires shape { HasShape (R.schema store.old) }
    requires keys { HasKeys (R.schema store.old) }
    requires apart { KeysStandAlone (R.schema store.old) }
    requires counters { AreCounters (R.schema store.old) counters.old }
    requires fits { TxnFits (R.schema store.old) txn.now }
    requires few { length txn.now.calls ≤ 1000 }
    ensures ok { IfOk result (λ applied. txn_effect (R.schema store.old) origin.now txn.now (R.tables store.old) counters.old
        ≡ Ok (record { changes = applied.changes.rows; numbers = counters.new })) }
    ensures tables { IfOk result (λ applied. R.tables store.new ≡ after_changes (R.schema store.old) applied.changes.rows (R.tables store.old)) }
    ensures leads { IfOk result (λ applied. LeadsTo (R.schema store.old) applied.changes.rows (R.tables store.old) (R.tables store.new)) }
    ensures were { AreTables (R.schema store.old) (R.tables store.old) }
    ensures differ { IfOk result (λ applied. AllByRecursion (λ change. change.before ≢ change.after) applied.changes.rows) }
    ensures checked { IfOk result (λ applied. AllByRecursion (IsChecked (R.schema store.old)) applied.changes.rows) }
    ensures few { IfOk result (λ applied. length applied.changes.rows ≤ length txn.now.calls) }
    ensures room { IfOk result (λ applied. (t : ℕ) → room_for t applied.changes.rows ≤ slice_index (R.spare store.new) t) }
    ensures before { IfOk result (λ applied. put_back applied.counters_before counters.new ≡ counters.old) }
    ensures err { IfErr result (StopsAs (txn_effect (R.schema store.old) origin.now txn.now (R.tables store.old) counters.old)) }
    ensures kept { OnErr result (R.tables store.new ≡ R.tables store.old) }
    ensures counters_kept { OnErr result (counters.new ≡ counters.old) }
    ensures counted { AreCounters (R.schema store.old) counters.new }
    ensures schema { R.schema store.new ≡ R.schema store.old }
{
    holds_tables(store);
    let before = counters.kept(alloc, store.schema())?;
    let calls = txn.calls.as_slice();
    let Ok(mut done) = Vec::with_capacity(alloc, calls.len()) else {
        return Err(ApplyStop::Memory);
    };
    for i in 0..calls.len() {
        match apply_in_room(alloc, store, origin, &calls[i], counters, calls.len()) {
            Ok(change) => push_change(&mut done, change),
            Err(stop) => {
                take_back(store, counters, Applied::of(done, before));
                return Err(stop_at(i as u32 + 1, stop));
            }
        }
    }
    Ok(Applied::of(done, before))
}
