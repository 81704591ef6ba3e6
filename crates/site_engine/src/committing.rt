//! A block of statements on what a site keeps of its rows.
ghost use Rattle.std.specs.Prelude.{◌≡◌, ◌+◌, ◌≤◌, ◌∷◌, true, List, length, IfOk, IfErr, IfSome, OnOk, OnErr, Ok, None};
ghost use Rattle.std.specs.List.{AllByRecursion};
ghost use Rattle.rep_schema.specs.Changes.{ChangeFits};
ghost use Rattle.rep_schema.specs.Putting.{after_changes};
ghost use Rattle.rep_calls.specs.declared.call.Txn.{Txn as TxnValue};
ghost use Rattle.rep_calls.specs.declared.past.PastEntry.{PastEntry as PastValue};
ghost use Rattle.rep_values.specs.declared.refusal.Refusal.TheVariants as refusal;
ghost use Rattle.conflict_detect.specs.Fits.{TxnFits};
ghost use Rattle.txn_effects.specs.Locals.{local_effect};
ghost use Rattle.local_txn.specs.Running.{EndsAs};
ghost use Rattle.site_state.specs.Steps.{is_empty};
ghost use Rattle.site_state.specs.Fits.{SchemaIsKeyed};
ghost use Rattle.site_outbox.specs.Outgoing.{Keeps};
ghost use Rattle.site_engine.specs.Committing.{IsQueued};

use local_txn::run_local;
use rep_calls::{PastEntry, Statement, Txn};
use rep_lists::{Items, NoMemory};
use rep_schema::{Changes, RowStore, Schema, undo};
use rep_values::Refusal;
use site_outbox::Outbox;
use std::alloc::Global;
use txn_effects::{Here, Local, LocalStop, Stamps};

/// A transaction, and the number under which it is queued.
#[derive(Drop)]
pub(crate) struct Queued {
    pub(crate) number: u64,
    pub(crate) txn: Txn,
}

/// The rows that a block changed, the site's stamps behind it, and its transaction, none where no row changed.
#[derive(Drop)]
pub(crate) struct Block {
    pub(crate) changes: Changes,
    pub(crate) stamps: Stamps,
    pub(crate) queued: Option<Queued>,
}

/// There is no memory.
pub(crate) fn no_memory() -> LocalStop
    ensures { result ≡ record { statement = 0; refusal = refusal.Memory } }
{
    LocalStop {
        statement: 0,
        refusal: Refusal::Memory,
    }
}

/// Queues a transaction, and keeps it.
fn queue_local(
    alloc: Global,
    schema: &Schema,
    outbox: &mut Outbox,
    past: Items<PastEntry>,
    txn: Txn,
) -> Result<Queued, NoMemory>
    requires keyed { SchemaIsKeyed schema.now }
    requires fits { TxnFits schema.now txn }
    ensures txn { IfOk result (λ queued. queued.txn ≡ txn) }
    ensures number { IfOk result (λ queued. queued.number ≡ length outbox.old.deferred + 1) }
    ensures ok { OnOk result ((pasts : List (List PastValue)) (txns : List TxnValue) → Keeps schema.now pasts txns outbox.old → Keeps schema.now (past ∷ pasts) (txn ∷ txns) outbox.new) }
    ensures err { OnErr result ((pasts : List (List PastValue)) (txns : List TxnValue) → Keeps schema.now pasts txns outbox.old → Keeps schema.now pasts txns outbox.new) }
    ensures destinations { outbox.new.destinations ≡ outbox.old.destinations }
    ensures purged { outbox.new.purged ≡ outbox.old.purged }
{
    let kept = txn.share()?;
    let number = outbox.push(alloc, schema, past, txn)?;
    Ok(Queued { number, txn: kept })
}

/// Runs a block of statements at a site, and queues the changed rows as a transaction, with what the site had seen before it.
pub(crate) fn run_block<R: RowStore>(
    alloc: Global,
    store: &mut R,
    here: &Here,
    stamps: &Stamps,
    outbox: &mut Outbox,
    past: Items<PastEntry>,
    statements: &[Statement],
) -> Result<Block, LocalStop>
    requires keyed { SchemaIsKeyed (R.schema store.old) }
    ensures ok { IfOk result (λ block. local_effect (R.schema store.old) here.now stamps.now statements.now (R.tables store.old)
        ≡ Ok (record { changes = block.changes.rows; stamps = block.stamps })) }
    ensures tables { IfOk result (λ block. R.tables store.new ≡ after_changes (R.schema store.old) block.changes.rows (R.tables store.old)) }
    ensures fits { IfOk result (λ block. AllByRecursion (ChangeFits (R.schema store.old)) block.changes.rows) }
    ensures few { IfOk result (λ block. length block.changes.rows ≤ length statements.now) }
    ensures most { IfOk result (λ block. length block.changes.rows ≤ 1000) }
    ensures queued { IfOk result (λ block. IfSome block.queued (IsQueued (R.schema store.old) here.now (R.tables store.old) past block.changes.rows outbox.old outbox.new)) }
    ensures none { IfOk result (λ block. block.queued ≡ None → (is_empty block.changes.rows ≡ true) × (outbox.new ≡ outbox.old)) }
    ensures err { IfErr result (EndsAs (local_effect (R.schema store.old) here.now stamps.now statements.now (R.tables store.old))) }
    ensures kept { OnErr result (R.tables store.new ≡ R.tables store.old) }
    ensures queue_kept { OnErr result ((pasts : List (List PastValue)) (txns : List TxnValue) → Keeps (R.schema store.old) pasts txns outbox.old → Keeps (R.schema store.old) pasts txns outbox.new) }
    ensures destinations { outbox.new.destinations ≡ outbox.old.destinations }
    ensures purged { outbox.new.purged ≡ outbox.old.purged }
    ensures schema { R.schema store.new ≡ R.schema store.old }
{
    let mut after = *stamps;
    let local = run_local(alloc, store, &mut after, here, statements)?;
    let Local { txn, changes } = local;
    if changes.rows.is_empty() {
        return Ok(Block {
            changes,
            stamps: after,
            queued: None,
        });
    }
    match queue_local(alloc, store.schema(), outbox, past, txn) {
        Ok(queued) => Ok(Block {
            changes,
            stamps: after,
            queued: Some(queued),
        }),
        Err(_) => {
            undo(store, changes);
            Err(no_memory())
        }
    }
}
