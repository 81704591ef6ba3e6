//! One page of slots.
ghost use Rattle.std.specs.Prelude.{◌≡◌, ℕ, ◌+◌, ◌-◌, ◌<◌, ◌≤◌, ◌↔◌, List, [], ◌++◌, length, vec_len, vec_capacity, slice_get, slice_index_or, insert, remove, reverse, IsTrue, IfOk};
ghost use Rattle.page_tables.specs.Pages.{IsPage};

use rep_lists::NoMemory;
use std::alloc::Global;
use std::marker::Model;

/// At most so many slots lie in a page.
pub(crate) const PAGE: usize = 64;

/// A page that is split leaves so many slots in each half, and two neighbours with fewer are one page.
pub(crate) const HALF: usize = 32;

/// Up to 64 slots. All the memory that they want is taken when the page is made.
#[derive(Drop)]
pub(crate) struct Page {
    slots: Vec<u32>,
}

impl Model for Page {
    ghost use Rattle.std.specs.Prelude.{ℕ, List, ◌≤◌, vec_len, vec_capacity};

    ghost Value = { List ℕ };

    ghost view = { λ p. p.slots.items };

    ghost invariant = { λ p. (vec_len p.slots ≤ 64) × (64 ≤ vec_capacity p.slots) };
}

/// Moves the slots behind the first 32 to an empty vector that has room for them.
fn move_half(slots: &mut Vec<u32>, behind: &mut Vec<u32>)
    requires full { vec_len slots.old ≡ 64 }
    requires empty { behind.old.items ≡ [] }
    requires room { 64 ≤ vec_capacity behind.old }
    ensures slots { slots.new.items ++ behind.new.items ≡ slots.old.items }
    ensures here { vec_len slots.new ≡ 32 }
    ensures there { vec_len behind.new ≡ 32 }
    ensures room_here { vec_capacity slots.new ≡ vec_capacity slots.old }
    ensures room_there { 64 ≤ vec_capacity behind.new }
{
    for _ in 0..HALF {
        if let Some(slot) = slots.pop() {
            behind.push_reserved(slot);
        }
    }
    behind.reverse();
}

/// Puts further slots behind those of a vector that has room for them.
fn push_all(slots: &mut Vec<u32>, more: &[u32])
    requires { vec_len slots.old + length more.now ≤ vec_capacity slots.old }
    ensures slots { slots.new.items ≡ slots.old.items ++ more.now }
    ensures room { vec_capacity slots.new ≡ vec_capacity slots.old }
{
    for slot in more {
        slots.push_reserved(*slot);
    }
}

impl Page {
    pub(crate) fn make(alloc: Global) -> Result<Page, NoMemory>
        ensures { IfOk result (λ page. page ≡ []) }
    {
        Ok(Page {
            slots: Vec::with_capacity(alloc, PAGE)?,
        })
    }

    /// The same slots once more, or want of memory.
    pub(crate) fn copy(&self, alloc: Global) -> Result<Page, NoMemory>
        ensures { IfOk result (λ copied. copied ≡ self.now) }
    {
        let mut slots = Vec::with_capacity(alloc, PAGE)?;
        push_all(&mut slots, &self.slots);
        Ok(Page { slots })
    }

    pub(crate) fn slots(&self) -> &[u32]
        ensures value { result.now ≡ self.now }
        ensures most { length self.now ≤ 64 }
    {
        &self.slots
    }

    pub(crate) fn len(&self) -> usize
        ensures value { result ≡ length self.now }
        ensures most { length self.now ≤ 64 }
    {
        self.slots.len()
    }

    pub(crate) fn is_empty(&self) -> bool
        ensures { IsTrue result ↔ (self.now ≡ []) }
    {
        self.slots.is_empty()
    }

    pub(crate) fn first(&self) -> Option<u32>
        ensures { result ≡ slice_get self.now 0 }
    {
        self.slots.first().copied()
    }

    pub(crate) fn slot(&self, place: usize) -> u32
        requires { place < length self.now }
        ensures { result ≡ slice_index_or self.now place result }
    {
        self.slots[place]
    }

    pub(crate) fn remove(&mut self, place: usize) -> u32
        requires { place < length self.old }
        ensures value { result ≡ slice_index_or self.old place result }
        ensures after { self.new ≡ remove self.old place }
    {
        self.slots.remove(place)
    }

    /// Inserts a slot. There is room for it, so this takes no memory.
    pub(crate) fn insert(&mut self, place: usize, slot: u32)
        requires place { place ≤ length self.old }
        requires room { length self.old < 64 }
        ensures { self.new ≡ insert self.old place slot }
    {
        let _ = self.slots.insert(place, slot);
    }

    /// Moves the slots behind the first 32 to an empty page.
    fn halve(&mut self, behind: &mut Page)
        requires full { length self.old ≡ 64 }
        requires empty { behind.old ≡ [] }
        ensures slots { self.new ++ behind.new ≡ self.old }
        ensures here { length self.new ≡ 32 }
        ensures behind { length behind.new ≡ 32 }
    {
        move_half(&mut self.slots, &mut behind.slots);
    }

    /// Inserts a slot into a full page, whose slots then lie in two pages.
    pub(crate) fn split_insert(&mut self, behind: &mut Page, place: usize, slot: u32)
        requires full { length self.old ≡ 64 }
        requires empty { behind.old ≡ [] }
        requires place { place ≤ 64 }
        ensures slots { self.new ++ behind.new ≡ insert self.old place slot }
        ensures here { IsPage self.new }
        ensures behind { IsPage behind.new }
        ensures half_here { 32 ≤ length self.new }
        ensures half_behind { 32 ≤ length behind.new }
    {
        self.halve(behind);
        if place <= HALF {
            self.insert(place, slot);
        } else {
            behind.insert(place - HALF, slot);
        }
    }

    /// Takes in the slots of the page behind it, which is empty then.
    pub(crate) fn join(&mut self, next: &mut Page)
        requires { length self.old + length next.old ≤ 64 }
        ensures slots { self.new ≡ self.old ++ next.old }
        ensures next { next.new ≡ [] }
    {
        push_all(&mut self.slots, &next.slots);
        next.slots.clear();
    }
}
