//! What becomes of a transaction that another site sent, what its position adds to the site, and how a pass counts it.
ghost use Rattle.std.specs.Prelude.{◌≡◌, ◌+◌, ◌<◌, ◌^◌, Some, None};
ghost use Rattle.site_state.specs.declared.entry.Entry.TheVariants as entry;
ghost use Rattle.site_state.specs.declared.answers.Applied.TheVariants as applied;
ghost use Rattle.sender_inbox.specs.Steps.{entry_of, answer_of, error_of, done_by, errors_by};

use error_queue::ErrorEntry;
use rep_calls::Txn;
use rep_values::{ApplyError, SiteName};
use site_state::{Applied, Entry, PassCount};

/// What becomes of a transaction.
#[derive(Drop)]
pub enum ApplyOutcome {
    /// It is done, and its changed rows were queued onward under a number, 0 where they weren't.
    Done { onward: u64 },
    /// Its first call that fails, from 1, and why.
    Failed { call: u32, error: ApplyError },
}

/// What a position adds to a site: its entry, its answer, and its error where it has one.
#[derive(Drop)]
pub struct Step {
    pub entry: Entry,
    pub answer: Applied,
    pub error: Option<ErrorEntry>,
}

/// What the position of a transaction adds that is done.
fn done_step(origin: &SiteName, position: u64, onward: u64, txn: Txn) -> Step
    ensures entry { result.entry ≡ entry.Done origin.now position onward txn }
    ensures answer { result.answer ≡ applied.Done }
    ensures error { result.error ≡ None }
{
    Step {
        entry: Entry::Done {
            origin: *origin,
            position,
            onward,
            txn,
        },
        answer: Applied::Done,
        error: None,
    }
}

/// What the position of a transaction adds that fails.
fn failed_step(
    origin: &SiteName,
    position: u64,
    call: u32,
    error: &ApplyError,
    txn: Txn,
    kept: Txn,
) -> Step
    ensures entry { result.entry ≡ entry.Error origin.now position call error.now txn }
    ensures answer { result.answer ≡ applied.Error error.now }
    ensures error { result.error ≡ Some (record { origin = origin.now; position = position; call = call; error = error.now; txn = kept }) }
{
    Step {
        entry: Entry::Error {
            origin: *origin,
            position,
            call,
            error: *error,
            txn,
        },
        answer: Applied::Error(*error),
        error: Some(ErrorEntry {
            origin: *origin,
            position,
            call,
            error: *error,
            txn: kept,
        }),
    }
}

/// What a position of an origin adds whose transaction comes out so. Of the transaction one copy is for the journal, and one
/// for the error queue.
pub fn step_of(
    origin: &SiteName,
    position: u64,
    settled: &ApplyOutcome,
    txn: Txn,
    kept: Txn,
) -> Step
    ensures entry { result.entry ≡ entry_of origin.now position txn settled.now }
    ensures answer { result.answer ≡ answer_of settled.now }
    ensures error { result.error ≡ error_of origin.now position kept settled.now }
{
    match settled {
        ApplyOutcome::Done { onward } => done_step(origin, position, *onward, txn),
        ApplyOutcome::Failed { call, error } => failed_step(
            origin, position, *call, error, txn, kept,
        ),
    }
}

/// The count with what became of one position more.
pub fn counted(count: PassCount, applied: &Applied) -> PassCount
    requires { count.done + count.errors + 1 < 2 ^ 64 }
    ensures done { result.done ≡ count.done + done_by applied.now }
    ensures errors { result.errors ≡ count.errors + errors_by applied.now }
{
    match applied {
        Applied::Done => PassCount {
            done: count.done + 1,
            errors: count.errors,
        },
        Applied::Error(_) => PassCount {
            done: count.done,
            errors: count.errors + 1,
        },
        Applied::Stale(_) => count,
    }
}
