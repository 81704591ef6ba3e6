//! Rows that keep their slot until they are taken.
ghost use Rattle.std.specs.Prelude.{◌≡◌, ◌+◌, ◌<◌, ◌≤◌, [], Some, None, length, vec_capacity, option_copied, IsSome, IsOk, IfOk, OnOk};
ghost use Rattle.page_tables.specs.Slots.{slot_row, next_slot, SlotHolds};

use rep_lists::{Copies, NoMemory};
use rep_values::Row;
use std::alloc::Global;
use std::marker::Model;
use std::mem;

/// A slot is named by 32 bits.
const MOST_ROWS: usize = 4_294_967_295;

/// The same row once more, where there is one.
fn copy_row(alloc: Global, row: Option<&Row>) -> Result<Option<Row>, NoMemory>
    ensures { IfOk result (λ copied. copied ≡ option_copied row.entry) }
{
    match row {
        Some(row) => Ok(Some(row.copy(alloc)?)),
        None => Ok(None),
    }
}

/// The same rows once more, with room for as many as before.
fn copy_rows(alloc: Global, rows: &Vec<Option<Row>>) -> Result<Vec<Option<Row>>, NoMemory>
    ensures rows { IfOk result (λ copied. copied.items ≡ rows.now.items) }
    ensures room { IfOk result (λ copied. vec_capacity rows.now ≤ vec_capacity copied) }
{
    let mut copied = Vec::with_capacity(alloc, rows.capacity())?;
    for row in rows {
        copied.push_reserved(copy_row(alloc, row.as_ref())?);
    }
    Ok(copied)
}

/// The same slots once more, with room for as many as before.
fn copy_slots(alloc: Global, slots: &Vec<u32>) -> Result<Vec<u32>, NoMemory>
    ensures slots { IfOk result (λ copied. copied.items ≡ slots.now.items) }
    ensures room { IfOk result (λ copied. vec_capacity slots.now ≤ vec_capacity copied) }
{
    let mut copied = Vec::with_capacity(alloc, slots.capacity())?;
    for slot in slots {
        copied.push_reserved(*slot);
    }
    Ok(copied)
}

/// The rows of a table, each in a slot. Only `reserve` and `copy` take memory.
#[derive(Drop)]
pub(crate) struct Slots {
    rows: Vec<Option<Row>>,
    free: Vec<u32>,
}

impl Model for Slots {
    ghost use Rattle.std.specs.Prelude.{◌≤◌, vec_len, vec_capacity, min};
    ghost use Rattle.page_tables.specs.Slots.{Slotted, AreFree};

    ghost Value = { Slotted };

    ghost view = { λ s. record { rows = s.rows.items; free = s.free.items; most = min (min (vec_capacity s.rows) (vec_capacity s.free)) 4294967295 } };

    ghost invariant = { λ s. AreFree s.rows.items s.free.items × (vec_len s.rows ≤ vec_capacity s.free) × (vec_len s.rows ≤ 4294967295) };
}

impl Slots {
    pub(crate) fn new(alloc: Global) -> Slots
        ensures rows { result.rows ≡ [] }
        ensures free { result.free ≡ [] }
        ensures few { result.most ≤ 4294967295 }
    {
        Slots {
            rows: Vec::new(alloc),
            free: Vec::new(alloc),
        }
    }

    /// The same rows in the same slots, with at least as much room, or want of memory.
    pub(crate) fn copy(&self, alloc: Global) -> Result<Slots, NoMemory>
        ensures rows { IfOk result (λ copied. copied.rows ≡ self.now.rows) }
        ensures free { IfOk result (λ copied. copied.free ≡ self.now.free) }
        ensures room { IfOk result (λ copied. self.now.most ≤ copied.most) }
        ensures few { IfOk result (λ copied. copied.most ≤ 4294967295) }
    {
        Ok(Slots {
            rows: copy_rows(alloc, &self.rows)?,
            free: copy_slots(alloc, &self.free)?,
        })
    }

    pub(crate) fn most(&self) -> usize
        ensures { result ≡ self.now.most }
    {
        self.rows
            .capacity()
            .min(self.free.capacity())
            .min(MOST_ROWS)
    }

    pub(crate) fn rows(&self) -> &[Option<Row>]
        ensures { result.now ≡ self.now.rows }
    {
        &self.rows
    }

    /// The slot that the next row gets.
    pub(crate) fn next(&self) -> u32
        ensures slot { result ≡ next_slot self.now.rows self.now.free }
        ensures free { slot_row self.now.rows result ≡ None }
    {
        match self.free.last() {
            Some(slot) => *slot,
            None => self.rows.len() as u32,
        }
    }

    /// Makes room for so many in all, or finds no memory. Room is never given up.
    pub(crate) fn reserve(&mut self, most: usize) -> Result<(), NoMemory>
        ensures ok { OnOk result (most ≤ self.new.most) }
        ensures succeeds { most ≤ self.old.most → IsOk result }
        ensures kept { self.old.most ≤ self.new.most }
        ensures rows { self.new.rows ≡ self.old.rows }
        ensures free { self.new.free ≡ self.old.free }
        ensures few { self.new.most ≤ 4294967295 }
    {
        if most <= self.most() {
            return Ok(());
        }
        if most > MOST_ROWS {
            return Err(NoMemory);
        }
        self.rows.reserve(most.saturating_sub(self.rows.len()))?;
        self.free.reserve(most.saturating_sub(self.free.len()))?;
        Ok(())
    }

    /// Puts a row in the next slot, and hands back the row that was there: none.
    pub(crate) fn hold(&mut self, row: Row) -> Option<Row>
        requires { length self.old.rows < self.old.most + length self.old.free }
        ensures none { result ≡ None }
        ensures here { SlotHolds self.old self.new (next_slot self.old.rows self.old.free) (Some row) }
        ensures one { length self.new.rows + length self.old.free ≡ length self.old.rows + length self.new.free + 1 }
    {
        match self.free.pop() {
            Some(slot) => mem::replace(&mut self.rows[slot as usize], Some(row)),
            None => {
                self.rows.push_reserved(Some(row));
                None
            }
        }
    }

    /// Puts a row in the place of another one, which it hands back.
    pub(crate) fn replace(&mut self, slot: u32, row: Row) -> Option<Row>
        requires { IsSome (slot_row self.old.rows slot) }
        ensures before { result ≡ slot_row self.old.rows slot }
        ensures here { SlotHolds self.old self.new slot (Some row) }
        ensures number { length self.new.rows ≡ length self.old.rows }
        ensures free { self.new.free ≡ self.old.free }
    {
        mem::replace(&mut self.rows[slot as usize], Some(row))
    }

    /// Takes a row out of its slot, which is free then.
    pub(crate) fn release(&mut self, slot: u32) -> Option<Row>
        requires held { IsSome (slot_row self.old.rows slot) }
        requires room { length self.old.free < length self.old.rows }
        ensures row { result ≡ slot_row self.old.rows slot }
        ensures here { SlotHolds self.old self.new slot None }
        ensures number { length self.new.rows ≡ length self.old.rows }
        ensures free { length self.new.free ≡ length self.old.free + 1 }
    {
        let row = mem::replace(&mut self.rows[slot as usize], None);
        self.free.push_reserved(slot);
        row
    }
}
