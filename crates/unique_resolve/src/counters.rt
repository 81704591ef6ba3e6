//! The counters of constraints.
ghost use Rattle.std.specs.Prelude.{◌≡◌, [], replicate, slice_index_or, option_copied, IfOk};
ghost use Rattle.rep_schema.specs.Shape.{HasShape};
ghost use Rattle.rep_schema.specs.Tables.{columns_of, constraints_of, rows_of};
ghost use Rattle.unique_resolve.specs.Numbers.{AreCounters, first_numbers, is_sequence, has_sequence, has_sequence_in, has_sequences, kept_numbers, put_back};
ghost use Rattle.unique_resolve.specs.Settling.{settled_each, with_numbers};
ghost use Rattle.unique_resolve.specs.Trying.{IsAsked, HasBefore};

use crate::Settled;
use crate::trying::settle_each;
use rep_lists::{Copies, NoMemory};
use rep_schema::{Constraint, RowStore, Schema, TableEntry, UniqueMethod};
use rep_values::{Row, SiteName};
use std::alloc::Global;
use std::marker::Model;

/// A number for each secondary constraint of each table, which its method append-sequence raises. It stands still at
/// its last value.
#[derive(Drop)]
pub struct Counters {
    tables: Vec<Vec<u64>>,
}

impl Model for Counters {
    ghost use Rattle.std.specs.Prelude.{ℕ, List, map};

    ghost Value = { List (List ℕ) };

    ghost view = { λ c. map (λ t. t.items) c.tables.items };
}

fn zeros(alloc: Global, number: usize) -> Result<Vec<u64>, NoMemory>
    ensures { IfOk result (λ zeros. zeros.items ≡ replicate number 0) }
{
    let zeros = vec![in alloc; 0; number]?;
    Ok(zeros)
}

fn is_sequence(method: &UniqueMethod) -> bool
    ensures { result ≡ is_sequence method.now }
{
    match method {
        UniqueMethod::AppendSequence(_) => true,
        UniqueMethod::AppendSite(_) | UniqueMethod::Discard => false,
    }
}

fn has_sequence(constraint: &Constraint) -> bool
    ensures { result ≡ has_sequence constraint.now }
{
    constraint
        .methods
        .as_slice()
        .iter()
        .any(|method| is_sequence(method))
}

fn has_sequence_in(entry: &TableEntry) -> bool
    ensures { result ≡ has_sequence_in entry.now }
{
    entry
        .constraints
        .as_slice()
        .iter()
        .any(|constraint| has_sequence(constraint))
}

/// Whether some constraint's counter can be raised.
fn has_sequences(schema: &Schema) -> bool
    ensures { result ≡ has_sequences schema.now }
{
    schema
        .tables
        .as_slice()
        .iter()
        .any(|entry| has_sequence_in(entry))
}

impl Counters {
    /// 0 for each secondary constraint of each table. It may want memory.
    pub fn make(alloc: Global, schema: &Schema) -> Result<Counters, NoMemory>
        ensures { IfOk result (λ counters. counters ≡ first_numbers schema.now) }
    {
        let mut tables = Vec::with_capacity(alloc, schema.tables.len())?;
        for entry in schema.tables.as_slice() {
            tables.push(zeros(alloc, entry.constraints.len())?)?;
        }
        Ok(Counters { tables })
    }

    /// Settles the secondary constraints of a table, with its counters.
    pub(crate) fn settle<R: RowStore>(
        &mut self,
        store: &R,
        table: u32,
        before: Option<&Row>,
        row: Row,
        origin: &SiteName,
    ) -> Settled
        requires asked { IsAsked (R.schema store.now) table row }
        requires before { HasBefore (R.schema store.now) (R.tables store.now) table (option_copied before) row }
        requires counters { AreCounters (R.schema store.now) self.old }
        ensures { with_numbers table self.old (settled_each (columns_of (R.schema store.now) table) (rows_of (R.tables store.now) table) origin.now
            (constraints_of (R.schema store.now) table) (slice_index_or self.old table []) row)
            ≡ record { settled = result; numbers = self.new } }
    {
        settle_each(
            store,
            table,
            before,
            row,
            origin,
            &mut self.tables[table as usize],
        )
    }

    /// A copy to be put back later; none where no method of the schema raises a counter, so that none ever moves. It may
    /// want memory.
    pub fn kept(&self, alloc: Global, schema: &Schema) -> Result<Option<Counters>, NoMemory>
        ensures { IfOk result (λ kept. kept ≡ kept_numbers schema.now self.now) }
    {
        if !has_sequences(schema) {
            return Ok(None);
        }
        Ok(Some(self.copy(alloc)?))
    }

    /// Puts the counters back that were kept, if any were.
    pub fn put_back(&mut self, kept: Option<Counters>)
        ensures { self.new ≡ put_back kept self.old }
    {
        if let Some(kept) = kept {
            *self = kept;
        }
    }
}

impl Copies for Counters {
    fn copy(&self, alloc: Global) -> Result<Counters, NoMemory> {
        let mut tables = Vec::with_capacity(alloc, self.tables.len())?;
        for numbers in &self.tables {
            tables.push(Vec::from_slice(alloc, numbers)?)?;
        }
        Ok(Counters { tables })
    }
}
