//! A transaction of calls that another master sent, applied to a store.
ghost use Rattle.std.specs.Prelude.{◌≡◌, IfOk, OnOk, OnErr};
ghost use Rattle.site_state.specs.Fits.{SchemaIsKeyed};
ghost use Rattle.sender_inbox.specs.Steps.{entry_of, answer_of, error_of};
ghost use Rattle.proc_state.specs.Calls.{AreProcedures, tables_by};
ghost use Rattle.proc_state.specs.Carriers.{txn_after};
ghost use Rattle.proc_state.specs.Fits.{IsProcTxn};
ghost use Rattle.proc_calls.specs.Outcomes.{outcome_by};

use crate::applying::apply_txn;
use crate::stop::ProcStop;
use proc_state::Procedure;
use rep_calls::Txn;
use rep_lists::NoMemory;
use rep_schema::RowStore;
use rep_values::SiteName;
use sender_inbox::{ApplyOutcome, Step, step_of};
use site_state::Arrival;
use std::alloc::Global;

/// Makes the calls that a transaction carries, and says what becomes of it: where one of them fails, nothing is changed.
fn make_calls<R: RowStore>(
    alloc: Global,
    store: &mut R,
    procedures: &[Procedure],
    txn: &Txn,
) -> Result<ApplyOutcome, NoMemory>
    requires keyed { SchemaIsKeyed (R.schema store.old) }
    requires procedures { AreProcedures (R.schema store.old) procedures.now }
    requires fits { IsProcTxn (R.schema store.old) procedures.now txn.now }
    ensures settled { IfOk result (λ settled. settled ≡ outcome_by (txn_after (R.schema store.old) procedures.now txn.now (R.tables store.old))) }
    ensures tables { OnOk result (R.tables store.new ≡ tables_by (txn_after (R.schema store.old) procedures.now txn.now (R.tables store.old)) (R.tables store.old)) }
    ensures kept { OnErr result (R.tables store.new ≡ R.tables store.old) }
    ensures schema { R.schema store.new ≡ R.schema store.old }
{
    match apply_txn(alloc, store, procedures, txn) {
        Ok(_changes) => Ok(ApplyOutcome::Done { onward: 0 }),
        Err(ProcStop::Failed { call, error }) => Ok(ApplyOutcome::Failed { call, error }),
        Err(ProcStop::Memory) => Err(NoMemory),
    }
}

/// Two copies of a transaction that arrived.
fn two_copies(txn: &Txn) -> Result<(Txn, Txn), NoMemory>
    ensures { IfOk result (λ copies. (copies.0 ≡ txn.now) × (copies.1 ≡ txn.now)) }
{
    Ok((txn.share()?, txn.share()?))
}

/// Applies what arrived, and says what it adds to the site.
pub(crate) fn apply_arrival<R: RowStore>(
    alloc: Global,
    store: &mut R,
    procedures: &[Procedure],
    origin: &SiteName,
    arrival: &Arrival,
) -> Result<Step, NoMemory>
    requires keyed { SchemaIsKeyed (R.schema store.old) }
    requires procedures { AreProcedures (R.schema store.old) procedures.now }
    requires fits { IsProcTxn (R.schema store.old) procedures.now arrival.now.txn }
    ensures entry { IfOk result (λ step. step.entry ≡ entry_of origin.now arrival.now.position arrival.now.txn (outcome_by (txn_after (R.schema store.old) procedures.now arrival.now.txn (R.tables store.old)))) }
    ensures answer { IfOk result (λ step. step.answer ≡ answer_of (outcome_by (txn_after (R.schema store.old) procedures.now arrival.now.txn (R.tables store.old)))) }
    ensures error { IfOk result (λ step. step.error ≡ error_of origin.now arrival.now.position arrival.now.txn (outcome_by (txn_after (R.schema store.old) procedures.now arrival.now.txn (R.tables store.old)))) }
    ensures tables { OnOk result (R.tables store.new ≡ tables_by (txn_after (R.schema store.old) procedures.now arrival.now.txn (R.tables store.old)) (R.tables store.old)) }
    ensures kept { OnErr result (R.tables store.new ≡ R.tables store.old) }
    ensures schema { R.schema store.new ≡ R.schema store.old }
{
    // One for the journal, and one for the error queue.
    let (txn, kept) = two_copies(&arrival.txn)?;
    let settled = make_calls(alloc, store, procedures, &arrival.txn)?;
    Ok(step_of(origin, arrival.position, &settled, txn, kept))
}
