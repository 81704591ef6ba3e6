//! A transaction with copies of the rows that it names.
ghost use Rattle.std.specs.Prelude.{◌≡◌, ◌≤◌, length, IfOk};
ghost use Rattle.rep_schema.specs.Tables.{AreTables};
ghost use Rattle.unique_resolve.specs.Numbers.{Numbers, AreCounters};
ghost use Rattle.txn_effects.specs.Transactions.{txn_effect};
ghost use Rattle.txn_effects.specs.Contents.{Content, IsContent, effect_on};
ghost use Rattle.dependency_index.specs.Tokens.{txn_tokens};
ghost use Rattle.rep_laws.specs.Commuting.{AgreeOn};
ghost use Rattle.txn_apply.specs.Works.{CanStandAlone, Supports};
ghost use Rattle.txn_apply.specs.Endings.{ending_of, IfChanged, EndsSo};

use crate::naming::rows_named;
use crate::{ApplyStop, Ending, Outcome, apply_txn};
use rep_calls::Txn;
use rep_lists::{Copies, NoMemory};
use rep_schema::{RowStore, holds_tables};
use rep_values::SiteName;
use row_tables::{ListTables, SharedSchema};
use std::alloc::Global;
use std::marker::Model;
use unique_resolve::Counters;

/// Applies a transaction, and answers how it ends.
fn ended(
    alloc: Global,
    tables: &mut ListTables,
    counters: &mut Counters,
    origin: &SiteName,
    txn: &Txn,
) -> Result<Ending, NoMemory>
    requires alone { CanStandAlone tables.old.schema txn.now }
    requires counters { AreCounters tables.old.schema counters.old }
    ensures ending { IfOk result (λ ending. ending ≡ ending_of (txn_effect tables.old.schema origin.now txn.now tables.old.tables counters.old)) }
    ensures few { IfOk result (λ ending. IfChanged ending (λ changes. length changes.rows ≤ length txn.now.calls)) }
    ensures were { AreTables tables.old.schema tables.old.tables }
{
    match apply_txn(alloc, tables, counters, origin, txn) {
        Ok(applied) => Ok(Ending::Changed(applied.changes)),
        Err(ApplyStop::Failed { call, error }) => Ok(Ending::Failed { call, error }),
        Err(ApplyStop::Memory) => Err(NoMemory),
    }
}

/// A transaction from an origin, its number in the origin's stream, and copies of the rows that it names. It needs
/// nothing else of its site, so that it can be evaluated while the site goes on. No constraint is touched, so it is evaluated on
/// new counters.
#[derive(Drop)]
pub struct Work {
    origin: SiteName,
    position: u64,
    txn: Txn,
    tables: ListTables,
}

impl Model for Work {
    ghost use Rattle.unique_resolve.specs.Numbers.{first_numbers};
    ghost use Rattle.txn_apply.specs.Works.{WorkState, CanStandAlone};

    ghost Value = { WorkState };

    ghost view = { λ w. record { origin = w.origin; position = w.position; txn = w.txn; schema = w.tables.schema; content = record { tables = w.tables.tables; numbers = first_numbers w.tables.schema } } };

    ghost invariant = { λ w. CanStandAlone w.tables.schema w.txn };
}

impl Work {
    /// The work of a transaction that touches no constraint of a table (`dependency_index::has_unique_token` tells), with
    /// copies of the rows that it names as they stand in a store.
    pub fn of<R: RowStore>(
        alloc: Global,
        store: &R,
        origin: &SiteName,
        position: u64,
        txn: &Txn,
    ) -> Result<Work, NoMemory>
        requires alone { CanStandAlone (R.schema store.now) txn.now }
        ensures origin { IfOk result (λ work. work.origin ≡ origin.now) }
        ensures position { IfOk result (λ work. work.position ≡ position) }
        ensures txn { IfOk result (λ work. work.txn ≡ txn.now) }
        ensures schema { IfOk result (λ work. work.schema ≡ R.schema store.now) }
        ensures content { IfOk result (λ work. IsContent work.schema work.content) }
        ensures agree { IfOk result (λ work. (numbers : Numbers)
            → AgreeOn work.schema (txn_tokens work.schema work.txn) (record { tables = R.tables store.now; numbers = numbers }) work.content) }
    {
        let schema = SharedSchema::new(alloc, store.schema().copy(alloc)?)?;
        let work = Work::sharing(alloc, store, &schema, origin, position, txn)?;
        Ok(work)
    }

    /// The work of such a transaction, as `of` makes it, for a store whose schema is shared already: it isn't copied.
    pub fn sharing<R: RowStore>(
        alloc: Global,
        store: &R,
        schema: &SharedSchema,
        origin: &SiteName,
        position: u64,
        txn: &Txn,
    ) -> Result<Work, NoMemory>
        requires schema { schema.now ≡ R.schema store.now }
        requires alone { CanStandAlone (R.schema store.now) txn.now }
        ensures origin { IfOk result (λ work. work.origin ≡ origin.now) }
        ensures position { IfOk result (λ work. work.position ≡ position) }
        ensures txn { IfOk result (λ work. work.txn ≡ txn.now) }
        ensures schema { IfOk result (λ work. work.schema ≡ R.schema store.now) }
        ensures content { IfOk result (λ work. IsContent work.schema work.content) }
        ensures agree { IfOk result (λ work. (numbers : Numbers)
            → AgreeOn work.schema (txn_tokens work.schema work.txn) (record { tables = R.tables store.now; numbers = numbers }) work.content) }
    {
        let txn = txn.share()?;
        let tables = rows_named(alloc, store, schema.share()?, &txn)?;
        holds_tables(&tables);
        Ok(Work {
            origin: *origin,
            position,
            txn,
            tables,
        })
    }

    /// Applies the transaction to the copies. What comes of it holds for all tables and counters that agree with them
    /// on what the transaction's tokens stand for: there it ends just so.
    pub fn evaluate(self, alloc: Global) -> Result<Outcome, NoMemory>
        ensures origin { IfOk result (λ outcome. outcome.origin ≡ self.origin) }
        ensures position { IfOk result (λ outcome. outcome.position ≡ self.position) }
        ensures ending { IfOk result (λ outcome. outcome.ending ≡ ending_of (effect_on self.schema self.origin self.txn self.content)) }
        ensures few { IfOk result (λ outcome. IfChanged outcome.ending (λ changes. length changes.rows ≤ 1000)) }
        ensures alike { IfOk result (λ outcome. (content : Content) → Supports self content → EndsSo self outcome.ending content) }
    {
        let Work {
            origin,
            position,
            txn,
            mut tables,
        } = self;
        let mut counters = Counters::make(alloc, tables.schema())?;
        let ending = ended(alloc, &mut tables, &mut counters, &origin, &txn)?;
        Ok(Outcome {
            origin,
            position,
            ending,
        })
    }
}
