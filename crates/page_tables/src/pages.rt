//! Slots in some order, in pages.
ghost use Rattle.std.specs.Prelude.{◌≡◌, ◌<◌, ◌≤◌, ◌⊎◌, [], length, slice_get, IsSome, IsOk, IfOk, OnOk};
ghost use Rattle.rep_lists.specs.Rising.{find_at, take_at};
ghost use Rattle.page_tables.specs.Pages.{entered, IsParted};

use crate::directory::Directory;
use crate::page_search::SlotPlace;
use crate::sought::Sought;
use rep_lists::NoMemory;
use std::alloc::Global;
use std::cell::Cell;
use std::marker::Model;

/// Slots in the order in which they are looked for, each once. Only `reserve` and `copy` take memory.
#[derive(Drop)]
pub(crate) struct Pages {
    directory: Directory,
    count: usize,
    // Where the slot lies that was found last. What was found is mostly put next.
    last: Cell<SlotPlace>,
}

impl Model for Pages {
    ghost use Rattle.std.specs.Prelude.{◌≡◌, length};
    ghost use Rattle.page_tables.specs.Pages.{Paged};
    ghost use Rattle.page_tables.specs.Directory.{slots_in, room_in, IsDirectory};

    ghost Value = { Paged };

    ghost view = { λ s. record { items = slots_in s.directory; most = room_in s.directory } };

    ghost invariant = { λ s. IsDirectory s.directory × (s.count ≡ length (slots_in s.directory)) };
}

impl Pages {
    pub(crate) fn new(alloc: Global) -> Pages
        ensures { result.items ≡ [] }
    {
        Pages {
            directory: Directory::new(alloc),
            count: 0,
            last: Cell::new(SlotPlace { page: 0, place: 0 }),
        }
    }

    /// The same slots in as many pages, with as many that wait, or want of memory.
    pub(crate) fn copy(&self, alloc: Global) -> Result<Pages, NoMemory>
        ensures { IfOk result (λ copied. copied ≡ self.now) }
    {
        Ok(Pages {
            directory: self.directory.copy(alloc)?,
            count: self.count,
            last: Cell::new(SlotPlace { page: 0, place: 0 }),
        })
    }

    pub(crate) fn len(&self) -> usize
        ensures { result ≡ length self.now.items }
    {
        self.count
    }

    pub(crate) fn most(&self) -> usize
        ensures value { result ≡ self.now.most }
        ensures fits { length self.now.items ≤ self.now.most }
    {
        self.directory.count().saturating_sub(1) * 16
    }

    pub(crate) fn at(&self, place: usize) -> Option<u32>
        ensures { result ≡ slice_get self.now.items place }
    {
        self.directory.at(place)
    }

    pub(crate) fn find<S: Sought>(&self, sought: &S) -> Option<u32>
        requires { IsParted (S.at sought.now) self.now.items }
        ensures { result ≡ find_at (S.at sought.now) self.now.items }
    {
        self.directory.find(sought, &self.last)
    }

    /// Makes room for so many in all, or finds no memory. Room is never given up.
    pub(crate) fn reserve(&mut self, most: usize) -> Result<(), NoMemory>
        ensures ok { OnOk result (most ≤ self.new.most) }
        ensures succeeds { most ≤ self.old.most → IsOk result }
        ensures kept { self.old.most ≤ self.new.most }
        ensures items { self.new.items ≡ self.old.items }
    {
        if most <= self.most() {
            return Ok(());
        }
        self.directory.make_room(most / 16 + 2)
    }

    /// Puts a slot in the place that is sought, unless another one is found there, which it answers.
    pub(crate) fn enter<S: Sought>(&mut self, sought: &S, slot: u32) -> Option<u32>
        requires parted { IsParted (S.at sought.now) self.old.items }
        requires room { IsSome (find_at (S.at sought.now) self.old.items) ⊎ (length self.old.items < self.old.most) }
        ensures found { result ≡ find_at (S.at sought.now) self.old.items }
        ensures items { self.new.items ≡ entered result (S.at sought.now) slot self.old.items }
        ensures most { self.new.most ≡ self.old.most }
    {
        let found = self.directory.enter(sought, slot, self.last.get());
        if found.is_none() {
            self.count += 1;
        }
        found
    }

    /// Takes the slot that is sought away.
    pub(crate) fn take<S: Sought>(&mut self, sought: &S) -> Option<u32>
        requires { IsParted (S.at sought.now) self.old.items }
        ensures taken { result ≡ find_at (S.at sought.now) self.old.items }
        ensures items { self.new.items ≡ take_at (S.at sought.now) self.old.items }
        ensures most { self.new.most ≡ self.old.most }
    {
        let taken = self.directory.take_out(sought);
        if taken.is_some() {
            self.count -= 1;
        }
        taken
    }
}
