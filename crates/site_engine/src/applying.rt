//! A transaction that another site sent, applied to what a site keeps of its rows.
ghost use Rattle.std.specs.Prelude.{◌≡◌, ◌≢◌, List, ◌≤◌, length, IfOk, IfErr, IfSome, OnOk, OnErr, Ok, Some, None};
ghost use Rattle.std.specs.List.{AllByRecursion};
ghost use Rattle.rep_schema.specs.Shape.{HasShape};
ghost use Rattle.rep_schema.specs.Changes.{ChangeFits, LeadsTo};
ghost use Rattle.rep_schema.specs.Putting.{after_changes};
ghost use Rattle.rep_calls.specs.declared.call.Txn.{Txn as TxnValue};
ghost use Rattle.rep_calls.specs.declared.past.PastEntry.{PastEntry as PastValue};
ghost use Rattle.conflict_detect.specs.Fits.{TxnFits};
ghost use Rattle.unique_resolve.specs.Numbers.{AreCounters};
ghost use Rattle.txn_effects.specs.Transactions.{txn_effect};
ghost use Rattle.txn_apply.specs.Stops.{StopsAs};
ghost use Rattle.site_state.specs.Contents.{txn_of, changes_by};
ghost use Rattle.site_state.specs.Streams.{with_one};
ghost use Rattle.site_state.specs.Packets.{past_in};
ghost use Rattle.site_state.specs.Passes.{apply_answer_by};
ghost use Rattle.site_state.specs.Fits.{SchemaIsKeyed};
ghost use Rattle.site_outbox.specs.Outgoing.{Keeps};
ghost use Rattle.txn_apply.specs.Endings.{effect_of};
ghost use Rattle.site_engine.specs.Applying.{goes_on, onward_of, entry_by, error_by};
ghost use Rattle.site_engine.specs.Noting.{RowsAreNoted};
ghost use Rattle.site_engine.specs.Outcomes.{outcome_by, AreAsBefore, AreChanged};

use change_logs::Notes;
use conflict_detect::txn_of;
use rep_calls::{PastEntry, Txn};
use rep_lists::{Items, NoMemory};
use rep_schema::{Change, Changes, RowStore, Schema, holds_tables};
use rep_values::SiteName;
use sender_inbox::{ApplyOutcome, Step, step_of};
use site_outbox::Outbox;
use site_state::Arrival;
use std::alloc::Global;
use txn_apply::{ApplyStop, Ending, apply_txn, make_changes, make_room, take_back};
use unique_resolve::Counters;

/// The rows that a transaction changed, and the number under which they were queued onward, 0 where they weren't.
#[derive(Drop)]
pub(crate) struct Done {
    pub(crate) changes: Changes,
    pub(crate) onward: u64,
}

/// Queues changed rows onward, where there are some and where there is a past to send with them, and answers their number,
/// 0 where they aren't queued.
fn send_onward(
    alloc: Global,
    schema: &Schema,
    outbox: &mut Outbox,
    past: Option<Items<PastEntry>>,
    changes: &[Change],
) -> Result<u64, NoMemory>
    requires keyed { SchemaIsKeyed schema.now }
    requires fits { AllByRecursion (ChangeFits schema.now) changes.now }
    ensures number { IfOk result (λ onward. onward ≡ onward_of past changes.now (length outbox.old.deferred)) }
    ensures ok { OnOk result ((pasts : List (List PastValue)) (txns : List TxnValue) → Keeps schema.now pasts txns outbox.old
        → Keeps schema.now (with_one (goes_on past changes.now) (past_in past) pasts) (with_one (goes_on past changes.now) (txn_of schema.now changes.now) txns) outbox.new) }
    ensures err { OnErr result ((pasts : List (List PastValue)) (txns : List TxnValue) → Keeps schema.now pasts txns outbox.old → Keeps schema.now pasts txns outbox.new) }
    ensures destinations { outbox.new.destinations ≡ outbox.old.destinations }
    ensures purged { outbox.new.purged ≡ outbox.old.purged }
{
    let Some(past) = past else {
        return Ok(0);
    };
    if changes.is_empty() {
        return Ok(0);
    }
    let txn = txn_of(alloc, schema, changes)?;
    let number = outbox.push(alloc, schema, past, txn)?;
    Ok(number)
}

/// Applies a transaction from an origin, and queues its changed rows onward where there is a past to send with them.
pub(crate) fn apply_onward<R: RowStore>(
    alloc: Global,
    store: &mut R,
    counters: &mut Counters,
    outbox: &mut Outbox,
    past: Option<Items<PastEntry>>,
    origin: &SiteName,
    txn: &Txn,
) -> Result<Done, ApplyStop>
    requires keyed { SchemaIsKeyed (R.schema store.old) }
    requires counters { AreCounters (R.schema store.old) counters.old }
    requires fits { TxnFits (R.schema store.old) txn.now }
    requires few { length txn.now.calls ≤ 1000 }
    ensures ok { IfOk result (λ done. txn_effect (R.schema store.old) origin.now txn.now (R.tables store.old) counters.old
        ≡ Ok (record { changes = done.changes.rows; numbers = counters.new })) }
    ensures tables { IfOk result (λ done. R.tables store.new ≡ after_changes (R.schema store.old) done.changes.rows (R.tables store.old)) }
    ensures onward { IfOk result (λ done. done.onward ≡ onward_of past done.changes.rows (length outbox.old.deferred)) }
    ensures few { IfOk result (λ done. length done.changes.rows ≤ length txn.now.calls) }
    ensures fits { IfOk result (λ done. AllByRecursion (ChangeFits (R.schema store.old)) done.changes.rows) }
    ensures queue { IfOk result (λ done. (pasts : List (List PastValue)) (txns : List TxnValue) → Keeps (R.schema store.old) pasts txns outbox.old
        → Keeps (R.schema store.old) (with_one (goes_on past done.changes.rows) (past_in past) pasts) (with_one (goes_on past done.changes.rows) (txn_of (R.schema store.old) done.changes.rows) txns) outbox.new) }
    ensures err { IfErr result (StopsAs (txn_effect (R.schema store.old) origin.now txn.now (R.tables store.old) counters.old)) }
    ensures kept { OnErr result (R.tables store.new ≡ R.tables store.old) }
    ensures counters_kept { OnErr result (counters.new ≡ counters.old) }
    ensures queue_kept { OnErr result ((pasts : List (List PastValue)) (txns : List TxnValue) → Keeps (R.schema store.old) pasts txns outbox.old → Keeps (R.schema store.old) pasts txns outbox.new) }
    ensures destinations { outbox.new.destinations ≡ outbox.old.destinations }
    ensures purged { outbox.new.purged ≡ outbox.old.purged }
    ensures schema { R.schema store.new ≡ R.schema store.old }
{
    let applied = apply_txn(alloc, store, counters, origin, txn)?;
    match send_onward(
        alloc,
        store.schema(),
        outbox,
        past,
        applied.changes.rows.as_slice(),
    ) {
        Ok(onward) => Ok(Done {
            changes: applied.changes,
            onward,
        }),
        Err(_) => {
            take_back(store, counters, applied);
            Err(ApplyStop::Memory)
        }
    }
}

/// Makes changed rows that were evaluated before, notes them at a moment, and queues them onward where there is a past to
/// send with them. It answers their number, 0 where they aren't queued.
fn install_onward<R: RowStore>(
    alloc: Global,
    store: &mut R,
    outbox: &mut Outbox,
    notes: &mut Notes,
    moment: u64,
    past: Option<Items<PastEntry>>,
    changes: Changes,
) -> Result<u64, NoMemory>
    requires keyed { SchemaIsKeyed (R.schema store.old) }
    requires leads { LeadsTo (R.schema store.old) changes.rows (R.tables store.old) (after_changes (R.schema store.old) changes.rows (R.tables store.old)) }
    requires differ { AllByRecursion (λ change. change.before ≢ change.after) changes.rows }
    requires room { length changes.rows ≤ notes.old.room }
    ensures tables { OnOk result (R.tables store.new ≡ after_changes (R.schema store.old) changes.rows (R.tables store.old)) }
    ensures noted { OnOk result (RowsAreNoted (R.schema store.old) moment changes.rows notes.old notes.new) }
    ensures onward { IfOk result (λ onward. onward ≡ onward_of past changes.rows (length outbox.old.deferred)) }
    ensures queue { OnOk result ((pasts : List (List PastValue)) (txns : List TxnValue) → Keeps (R.schema store.old) pasts txns outbox.old
        → Keeps (R.schema store.old) (with_one (goes_on past changes.rows) (past_in past) pasts) (with_one (goes_on past changes.rows) (txn_of (R.schema store.old) changes.rows) txns) outbox.new) }
    ensures kept { OnErr result (R.tables store.new ≡ R.tables store.old) }
    ensures notes_kept { OnErr result (notes.new ≡ notes.old) }
    ensures queue_kept { OnErr result ((pasts : List (List PastValue)) (txns : List TxnValue) → Keeps (R.schema store.old) pasts txns outbox.old → Keeps (R.schema store.old) pasts txns outbox.new) }
    ensures destinations { outbox.new.destinations ≡ outbox.old.destinations }
    ensures purged { outbox.new.purged ≡ outbox.old.purged }
    ensures schema { R.schema store.new ≡ R.schema store.old }
{
    holds_tables(store);
    // The room comes first, so that what follows the queue can't fail.
    make_room(store, &changes)?;
    let onward = send_onward(alloc, store.schema(), outbox, past, changes.rows.as_slice())?;
    notes.note(store.schema(), changes.rows.as_slice(), moment);
    make_changes(store, changes);
    Ok(onward)
}

/// Applies a transaction from an origin, notes its changed rows at a moment, and queues them onward where there is a past to
/// send with them. A call changes one row at most, and there is room to note as many.
fn apply_noting<R: RowStore>(
    alloc: Global,
    store: &mut R,
    counters: &mut Counters,
    outbox: &mut Outbox,
    notes: &mut Notes,
    moment: u64,
    past: Option<Items<PastEntry>>,
    origin: &SiteName,
    txn: &Txn,
) -> Result<ApplyOutcome, NoMemory>
    requires keyed { SchemaIsKeyed (R.schema store.old) }
    requires counters { AreCounters (R.schema store.old) counters.old }
    requires fits { TxnFits (R.schema store.old) txn.now }
    requires few { length txn.now.calls ≤ 1000 }
    requires room { length txn.now.calls ≤ notes.old.room }
    ensures settled { IfOk result (λ settled. settled ≡ outcome_by past (length outbox.old.deferred) (txn_effect (R.schema store.old) origin.now txn.now (R.tables store.old) counters.old)) }
    ensures changed { OnOk result (AreChanged (R.schema store.old) moment past (txn_effect (R.schema store.old) origin.now txn.now (R.tables store.old) counters.old)
        (record { tables = R.tables store.old; numbers = counters.old; out = outbox.old; notes = notes.old })
        (record { tables = R.tables store.new; numbers = counters.new; out = outbox.new; notes = notes.new })) }
    ensures few { OnOk result (length (changes_by (txn_effect (R.schema store.old) origin.now txn.now (R.tables store.old) counters.old)) ≤ length txn.now.calls) }
    ensures kept { OnErr result (AreAsBefore (R.schema store.old)
        (record { tables = R.tables store.old; numbers = counters.old; out = outbox.old; notes = notes.old })
        (record { tables = R.tables store.new; numbers = counters.new; out = outbox.new; notes = notes.new })) }
    ensures destinations { outbox.new.destinations ≡ outbox.old.destinations }
    ensures purged { outbox.new.purged ≡ outbox.old.purged }
    ensures schema { R.schema store.new ≡ R.schema store.old }
{
    match apply_onward(alloc, store, counters, outbox, past, origin, txn) {
        Ok(done) => {
            notes.note(store.schema(), done.changes.rows.as_slice(), moment);
            Ok(ApplyOutcome::Done {
                onward: done.onward,
            })
        }
        Err(ApplyStop::Failed { call, error }) => Ok(ApplyOutcome::Failed { call, error }),
        Err(ApplyStop::Memory) => Err(NoMemory),
    }
}

/// The same for a transaction that ends as it was evaluated before, where it was.
fn evaluate<R: RowStore>(
    alloc: Global,
    store: &mut R,
    counters: &mut Counters,
    outbox: &mut Outbox,
    notes: &mut Notes,
    moment: u64,
    past: Option<Items<PastEntry>>,
    origin: &SiteName,
    txn: &Txn,
    ending: Option<Ending>,
) -> Result<ApplyOutcome, NoMemory>
    requires keyed { SchemaIsKeyed (R.schema store.old) }
    requires counters { AreCounters (R.schema store.old) counters.old }
    requires fits { TxnFits (R.schema store.old) txn.now }
    requires few { length txn.now.calls ≤ 1000 }
    requires room { length txn.now.calls ≤ notes.old.room }
    requires ending { IfSome ending (λ e. txn_effect (R.schema store.old) origin.now txn.now (R.tables store.old) counters.old ≡ effect_of e counters.old) }
    ensures settled { IfOk result (λ settled. settled ≡ outcome_by past (length outbox.old.deferred) (txn_effect (R.schema store.old) origin.now txn.now (R.tables store.old) counters.old)) }
    ensures changed { OnOk result (AreChanged (R.schema store.old) moment past (txn_effect (R.schema store.old) origin.now txn.now (R.tables store.old) counters.old)
        (record { tables = R.tables store.old; numbers = counters.old; out = outbox.old; notes = notes.old })
        (record { tables = R.tables store.new; numbers = counters.new; out = outbox.new; notes = notes.new })) }
    ensures few { OnOk result (length (changes_by (txn_effect (R.schema store.old) origin.now txn.now (R.tables store.old) counters.old)) ≤ length txn.now.calls) }
    ensures kept { OnErr result (AreAsBefore (R.schema store.old)
        (record { tables = R.tables store.old; numbers = counters.old; out = outbox.old; notes = notes.old })
        (record { tables = R.tables store.new; numbers = counters.new; out = outbox.new; notes = notes.new })) }
    ensures destinations { outbox.new.destinations ≡ outbox.old.destinations }
    ensures purged { outbox.new.purged ≡ outbox.old.purged }
    ensures schema { R.schema store.new ≡ R.schema store.old }
{
    holds_tables(store);
    match ending {
        Some(Ending::Changed(changes)) => {
            let onward = install_onward(alloc, store, outbox, notes, moment, past, changes)?;
            Ok(ApplyOutcome::Done { onward })
        }
        Some(Ending::Failed { call, error }) => Ok(ApplyOutcome::Failed { call, error }),
        None => apply_noting(
            alloc, store, counters, outbox, notes, moment, past, origin, txn,
        ),
    }
}

/// Two copies of a transaction that arrived.
fn two_copies(txn: &Txn) -> Result<(Txn, Txn), NoMemory>
    ensures { IfOk result (λ copies. (copies.0 ≡ txn.now) × (copies.1 ≡ txn.now)) }
{
    Ok((txn.share()?, txn.share()?))
}

/// Applies what arrived, which ends as it was evaluated before where it was, notes its changed rows at a moment, and says
/// what it adds to the site.
pub(crate) fn apply_arrival<R: RowStore>(
    alloc: Global,
    store: &mut R,
    counters: &mut Counters,
    outbox: &mut Outbox,
    notes: &mut Notes,
    moment: u64,
    past: Option<Items<PastEntry>>,
    origin: &SiteName,
    arrival: &Arrival,
    ending: Option<Ending>,
) -> Result<Step, NoMemory>
    requires keyed { SchemaIsKeyed (R.schema store.old) }
    requires counters { AreCounters (R.schema store.old) counters.old }
    requires fits { TxnFits (R.schema store.old) arrival.now.txn }
    requires few { length arrival.now.txn.calls ≤ 1000 }
    requires ending { IfSome ending (λ e. txn_effect (R.schema store.old) origin.now arrival.now.txn (R.tables store.old) counters.old ≡ effect_of e counters.old) }
    ensures entry { IfOk result (λ step. step.entry ≡ entry_by past origin.now arrival.now (length outbox.old.deferred)
        (txn_effect (R.schema store.old) origin.now arrival.now.txn (R.tables store.old) counters.old)) }
    ensures answer { IfOk result (λ step. step.answer ≡ apply_answer_by (txn_effect (R.schema store.old) origin.now arrival.now.txn (R.tables store.old) counters.old)) }
    ensures error { IfOk result (λ step. step.error ≡ error_by origin.now arrival.now (txn_effect (R.schema store.old) origin.now arrival.now.txn (R.tables store.old) counters.old)) }
    ensures changed { OnOk result (AreChanged (R.schema store.old) moment past (txn_effect (R.schema store.old) origin.now arrival.now.txn (R.tables store.old) counters.old)
        (record { tables = R.tables store.old; numbers = counters.old; out = outbox.old; notes = notes.old })
        (record { tables = R.tables store.new; numbers = counters.new; out = outbox.new; notes = notes.new })) }
    ensures few { OnOk result (length (changes_by (txn_effect (R.schema store.old) origin.now arrival.now.txn (R.tables store.old) counters.old)) ≤ length arrival.now.txn.calls) }
    ensures kept { OnErr result (AreAsBefore (R.schema store.old)
        (record { tables = R.tables store.old; numbers = counters.old; out = outbox.old; notes = notes.old })
        (record { tables = R.tables store.new; numbers = counters.new; out = outbox.new; notes = notes.new })) }
    ensures destinations { outbox.new.destinations ≡ outbox.old.destinations }
    ensures purged { outbox.new.purged ≡ outbox.old.purged }
    ensures schema { R.schema store.new ≡ R.schema store.old }
{
    notes.reserve(arrival.txn.calls.len() as u64)?;
    // One for the journal, and one for the error queue.
    let (txn, kept) = two_copies(&arrival.txn)?;
    let settled = evaluate(
        alloc,
        store,
        counters,
        outbox,
        notes,
        moment,
        past,
        origin,
        &arrival.txn,
        ending,
    )?;
    Ok(step_of(origin, arrival.position, &settled, txn, kept))
}
