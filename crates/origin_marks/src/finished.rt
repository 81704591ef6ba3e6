//! The finished positions of one sender.
ghost use Rattle.std.specs.Prelude.{◌≡◌, ℕ, ◌+◌, ◌<◌, ◌≤◌, ◌==◌, ◌||◌, ◌&&◌, false, not, nat_le, OnOk};
ghost use Rattle.origin_marks.specs.Marks.{finished, IsLowWater, IsHighest};

use crate::edges::{edges_below, flip_beside};
use rep_lists::{NoMemory, RoomyList};
use std::alloc::Global;
use std::marker::Model;

/// The positions of one sender, from 1, that are done or in error.
#[derive(Drop)]
pub struct Finished {
    // The edges of the intervals of finished positions: 0 and 2 where 1 and 2 are finished. A position far ahead
    // costs two edges. The highest comes first, so what is finished behind the low-water mark moves only edges at the end.
    edges: RoomyList<u64>,
}

impl Model for Finished {
    ghost use Rattle.std.specs.Prelude.{◌/◌};
    ghost use Rattle.origin_marks.specs.Marks.{Marked};
    ghost use Rattle.origin_marks.specs.Edges.{IsEdges};

    ghost Value = { Marked };

    ghost view = { λ f. record { edges = f.edges.items; room = f.edges.spare / 2 } };

    ghost invariant = { λ f. IsEdges f.edges.items };
}

impl Finished {
    /// Nothing is finished, and no memory is taken.
    pub fn make(alloc: Global) -> Finished
        ensures { (p : ℕ) → finished result p ≡ false }
    {
        Finished {
            edges: RoomyList::new(alloc),
        }
    }

    /// Takes the room to finish one more position.
    pub fn reserve(&mut self) -> Result<(), NoMemory>
        ensures ok { OnOk result (1 ≤ self.new.room) }
        ensures edges { self.new.edges ≡ self.old.edges }
        ensures room { self.old.room ≤ self.new.room }
    {
        self.edges.reserve(2)?;
        Ok(())
    }

    /// Finishes a position.
    pub fn finish(&mut self, position: u64)
        requires from_one { 1 ≤ position }
        requires unfinished { finished self.old position ≡ false }
        requires room { 1 ≤ self.old.room }
        ensures finished { (p : ℕ) → finished self.new p ≡ (p == position || finished self.old p) }
        ensures room { self.old.room ≤ self.new.room + 1 }
    {
        flip_beside(&mut self.edges, position);
    }

    /// Whether a position is finished.
    pub fn is_finished(&self, position: u64) -> bool
        ensures { result ≡ finished self.now position }
    {
        edges_below(self.edges.as_slice(), position) % 2 == 1
    }

    /// The greatest number with all positions from 1 up to it finished.
    pub fn low_water(&self) -> u64
        ensures { IsLowWater (finished self.now) result }
    {
        match self.edges.as_slice() {
            [.., mark, lowest] => { if *lowest == 0 { *mark } else { 0 } }
            _ => 0,
        }
    }

    /// The greatest finished position, 0 where none is.
    pub fn highest(&self) -> u64
        ensures { IsHighest (finished self.now) result }
    {
        match self.edges.as_slice() {
            [highest, ..] => *highest,
            [] => 0,
        }
    }

    /// Whether a position isn't finished, and all up to its dependency number are.
    pub fn is_ready(&self, position: u64, dep: u64) -> bool
        ensures { (mark : ℕ) → IsLowWater (finished self.now) mark → result ≡ (not (finished self.now position) && nat_le dep mark) }
    {
        !self.is_finished(position) && dep <= self.low_water()
    }
}
