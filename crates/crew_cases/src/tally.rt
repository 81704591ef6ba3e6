//! A total with all that was added to it.
ghost use Rattle.std.specs.Prelude.{◌≡◌, ◌+◌, ◌^◌, ◌<◌, ◌++◌, [], ◌∷◌, ℕ, sum, length, vec_len};
ghost use Rattle.crew_cases.specs.Turns.{turns_of};

use site_gate::Turns;
use std::alloc::Global;

/// A total, and the numbers that were added to it.
#[derive(Drop)]
pub struct Tally {
    pub first: u64,
    pub total: u64,
    added: Vec<u64>,
    /// Turns that came when there was no memory or no room in the total. No number is added after the first of them.
    idle: u64,
    ghost adds: { total ≡ first + sum added.items },
}

impl Turns for Tally {
    type Turn = u64;

    type Opening = u64;

    ghost history = { λ tally. turns_of tally.added.items tally.idle };

    ghost opening = { λ tally. tally.first };
}

impl Tally {
    /// Nothing was added yet.
    pub fn new(alloc: Global, first: u64) -> Tally
        ensures first { result.first ≡ first }
        ensures turns { turns_of result.added.items result.idle ≡ [] }
    {
        Tally {
            first,
            total: first,
            added: Vec::new(alloc),
            idle: 0,
        }
    }

    /// One turn: the number is added, or a zero where it can't be.
    pub fn add(&mut self, number: u64)
        requires { length (turns_of self.old.added.items self.old.idle) + 1 < 2 ^ 64 }
        ensures first { self.new.first ≡ self.old.first }
        ensures turn { (added : ℕ) × (turns_of self.new.added.items self.new.idle ≡ turns_of self.old.added.items self.old.idle ++ added ∷ []) }
    {
        if self.idle == 0
            && let Some(total) = self.total.checked_add(number)
            && self.added.push(number).is_ok()
        {
            self.total = total;
        } else {
            self.idle += 1;
        }
    }

    /// How many numbers were added.
    pub fn count(&self) -> usize
        ensures { result ≡ vec_len self.now.added }
    {
        self.added.len()
    }
}
