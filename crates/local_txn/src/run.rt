//! A block of statements on a store, all of it or nothing.
ghost use Rattle.std.specs.Prelude.{◌≡◌, ◌≢◌, ◌⊎◌, ℕ, ◌+◌, ◌<◌, ◌≤◌, ◌^◌, map, length, slice_index, Ok, IfOk, IfErr, OnErr};
ghost use Rattle.std.specs.List.{AllByRecursion};
ghost use Rattle.rep_values.specs.declared.name.SiteName.{SiteName as SiteNameValue};
ghost use Rattle.rep_schema.specs.Shape.{HasShape};
ghost use Rattle.rep_schema.specs.Tables.{AreTables};
ghost use Rattle.rep_schema.specs.Changes.{LeadsTo, room_for};
ghost use Rattle.rep_schema.specs.Putting.{after_changes, changes_of};
ghost use Rattle.conflict_detect.specs.Fits.{TxnFits};
ghost use Rattle.conflict_detect.specs.ChangeCalls.{call_of};
ghost use Rattle.unique_resolve.specs.Numbers.{Numbers};
ghost use Rattle.txn_effects.specs.Calls.{KeysStandAlone};
ghost use Rattle.conflict_detect.specs.KeysNamed.{HasKeys};
ghost use Rattle.txn_effects.specs.Transactions.{txn_effect};
ghost use Rattle.txn_effects.specs.Laws.{IsChecked};
ghost use Rattle.txn_effects.specs.Statements.{statement_refusal};
ghost use Rattle.txn_effects.specs.Locals.{statements_effect, local_effect, BlockEffect};
ghost use Rattle.local_txn.specs.Running.{StatementGoesOn, block_state_of, StatementStopsAs, StopsAt, EndsAs};

use crate::held::held_table;
use crate::progress::BlockProgress;
use crate::statement::run_in;
use conflict_detect::txn_of;
use rep_calls::Statement;
use rep_lists::Items;
use rep_schema::{Change, Changes, RowStore, holds_tables, push_change, undo};
use rep_values::{Limit, Refusal};
use std::alloc::Global;
use txn_effects::{Here, Local, LocalStop, Stamps};

/// A block has at most so many statements.
const MOST_STATEMENTS: usize = 1_000;

/// Why the block stops at this statement. Want of memory is no statement's.
fn stop_at(statement: u32, refusal: Refusal) -> LocalStop
    ensures { StopsAt statement refusal result }
{
    if refusal == Refusal::Memory {
        return LocalStop::memory();
    }
    LocalStop { statement, refusal }
}

/// Runs one statement, after it took room for so many further rows of its table.
fn run_in_room<R: RowStore>(
    alloc: Global,
    store: &mut R,
    footing: &mut BlockProgress,
    statement: &Statement,
    rows: usize,
) -> Result<Option<Change>, Refusal>
    requires shape { HasShape (R.schema store.old) }
    requires keys { HasKeys (R.schema store.old) }
    requires apart { KeysStandAlone (R.schema store.old) }
    requires are { AreTables (R.schema store.old) (R.tables store.old) }
    requires few { rows < 2 ^ 32 }
    ensures ok { IfOk result (λ change. StatementGoesOn (R.schema store.old) statement.now (R.tables store.old) (R.tables store.new) (changes_of change) footing.old footing.new) }
    ensures err { IfErr result (StatementStopsAs (statement_refusal (R.schema store.old) footing.old.here (block_state_of footing.old (R.tables store.old)) statement.now)) }
    ensures tables { IfOk result (λ change. R.tables store.new ≡ after_changes (R.schema store.old) (changes_of change) (R.tables store.old)) }
    ensures same { OnErr result (R.tables store.new ≡ R.tables store.old) }
    ensures schema { R.schema store.new ≡ R.schema store.old }
    ensures room { IfOk result (λ change. (t : ℕ) → (rows ≤ slice_index (R.spare store.new) t)
        ⊎ ((slice_index (R.spare store.old) t ≤ slice_index (R.spare store.new) t) × (room_for t (changes_of change) ≡ 0))) }
    ensures kept { OnErr result ((t : ℕ) → slice_index (R.spare store.old) t ≤ slice_index (R.spare store.new) t) }
{
    let Some(table) = held_table(store.schema(), &footing.here, statement) else {
        return Err(Refusal::UnknownName);
    };
    store.reserve(table, rows as u64 + 1)?;
    let change = run_in(alloc, store, footing, table, statement)?;
    Ok(change)
}

/// Runs the statements, or none of them. Where one is refused, the footing is open.
fn run_statements<R: RowStore>(
    alloc: Global,
    store: &mut R,
    footing: &mut BlockProgress,
    statements: &[Statement],
) -> Result<Changes, LocalStop>
    requires shape { HasShape (R.schema store.old) }
    requires keys { HasKeys (R.schema store.old) }
    requires apart { KeysStandAlone (R.schema store.old) }
    requires few { length statements.now ≤ 1000 }
    ensures ok { IfOk result (λ changes. statements_effect (R.schema store.old) footing.old.here 1 statements.now (block_state_of footing.old (R.tables store.old))
        ≡ Ok (record { changes = changes.rows; stamps = footing.new.stamps })) }
    ensures tables { IfOk result (λ changes. R.tables store.new ≡ after_changes (R.schema store.old) changes.rows (R.tables store.old)) }
    ensures leads { IfOk result (λ changes. LeadsTo (R.schema store.old) changes.rows (R.tables store.old) (R.tables store.new)) }
    ensures differ { IfOk result (λ changes. AllByRecursion (λ change. change.before ≢ change.after) changes.rows) }
    ensures checked { IfOk result (λ changes. AllByRecursion (IsChecked (R.schema store.old)) changes.rows) }
    ensures few { IfOk result (λ changes. length changes.rows ≤ length statements.now) }
    ensures were { AreTables (R.schema store.old) (R.tables store.old) }
    ensures room { IfOk result (λ changes. (t : ℕ) → room_for t changes.rows ≤ slice_index (R.spare store.new) t) }
    ensures err { IfErr result (EndsAs (statements_effect (R.schema store.old) footing.old.here 1 statements.now (block_state_of footing.old (R.tables store.old)))) }
    ensures kept { OnErr result (R.tables store.new ≡ R.tables store.old) }
    ensures schema { R.schema store.new ≡ R.schema store.old }
{
    holds_tables(store);
    let Ok(mut done) = Vec::with_capacity(alloc, statements.len()) else {
        return Err(LocalStop::memory());
    };
    for i in 0..statements.len() {
        match run_in_room(alloc, store, footing, &statements[i], statements.len()) {
            Ok(change) => push_change(&mut done, change),
            Err(refusal) => {
                let rows = Items::from_vec(done);
                undo(store, Changes { rows });
                return Err(stop_at(i as u32 + 1, refusal));
            }
        }
    }
    Ok(Changes {
        rows: Items::from_vec(done),
    })
}

/// Runs the statements of a block at a site as one local transaction: all of them, or none. It answers the
/// transaction, with one call for each row that a statement changed, and those changes; there is room in the store to
/// undo them. The columns that the site fills are filled in in new rows and in the modified groups of changed ones,
/// with stamps that rise from the site's last one. Where a statement is refused, the answer names the first one, from
/// 1, with its refusal; then, and where there is no memory, the store's rows and the site's stamps are as before.
pub fn run_local<R: RowStore>(
    alloc: Global,
    store: &mut R,
    stamps: &mut Stamps,
    here: &Here,
    statements: &[Statement],
) -> Result<Local, LocalStop>
    requires shape { HasShape (R.schema store.old) }
    requires keys { HasKeys (R.schema store.old) }
    requires apart { KeysStandAlone (R.schema store.old) }
    ensures ok { IfOk result (λ local. local_effect (R.schema store.old) here.now stamps.old statements.now (R.tables store.old)
        ≡ Ok (record { changes = local.changes.rows; stamps = stamps.new })) }
    ensures txn { IfOk result (λ local. local.txn.calls ≡ map (call_of (R.schema store.old)) local.changes.rows) }
    ensures tables { IfOk result (λ local. R.tables store.new ≡ after_changes (R.schema store.old) local.changes.rows (R.tables store.old)) }
    ensures leads { IfOk result (λ local. LeadsTo (R.schema store.old) local.changes.rows (R.tables store.old) (R.tables store.new)) }
    ensures room { IfOk result (λ local. (t : ℕ) → room_for t local.changes.rows ≤ slice_index (R.spare store.new) t) }
    ensures fits { IfOk result (λ local. TxnFits (R.schema store.old) local.txn) }
    ensures few { IfOk result (λ local. length local.txn.calls ≤ 1000) }
    ensures were { AreTables (R.schema store.old) (R.tables store.old) }
    ensures differ { IfOk result (λ local. AllByRecursion (λ change. change.before ≢ change.after) local.changes.rows) }
    ensures checked { IfOk result (λ local. AllByRecursion (IsChecked (R.schema store.old)) local.changes.rows) }
    ensures applies { IfOk result (λ local. (origin : SiteNameValue) (numbers : Numbers)
        → txn_effect (R.schema store.old) origin local.txn (R.tables store.old) numbers ≡ Ok (record { changes = local.changes.rows; numbers = numbers })) }
    ensures err { IfErr result (EndsAs (local_effect (R.schema store.old) here.now stamps.old statements.now (R.tables store.old))) }
    ensures kept { OnErr result (R.tables store.new ≡ R.tables store.old) }
    ensures stood { OnErr result (stamps.new ≡ stamps.old) }
    ensures schema { R.schema store.new ≡ R.schema store.old }
{
    holds_tables(store);
    if statements.len() > MOST_STATEMENTS {
        return Err(LocalStop {
            statement: MOST_STATEMENTS as u32 + 1,
            refusal: Refusal::LimitReached(Limit::Statements),
        });
    }
    let mut footing = BlockProgress {
        here: *here,
        stamps: *stamps,
        side: None,
    };
    let changes = run_statements(alloc, store, &mut footing, statements)?;
    match txn_of(alloc, store.schema(), changes.rows.as_slice()) {
        Ok(txn) => {
            *stamps = footing.stamps;
            Ok(Local { txn, changes })
        }
        Err(_) => {
            undo(store, changes);
            Err(LocalStop::memory())
        }
    }
}
