//! Which positions of a sender had come to a site.

use crate::packet::Coming;
use rep_lists::NoMemory;
use std::alloc::Global;

/// Positions of one sender that had come to one site, of those that are looked at.
#[derive(Drop)]
pub struct Arrivals {
    known: Vec<u64>,
}

impl Arrivals {
    /// None of them had, which takes no memory.
    pub fn new(alloc: Global) -> Arrivals {
        Arrivals {
            known: Vec::new(alloc),
        }
    }

    /// Notes that a position had come.
    pub fn note(&mut self, position: u64) -> Result<(), NoMemory> {
        self.known.push(position)?;
        Ok(())
    }

    /// A position comes, for the first time or again.
    pub fn come(&mut self, position: u64) -> Result<Coming, NoMemory> {
        if self.known.iter().any(|known| *known == position) {
            return Ok(Coming::Again);
        }
        self.note(position)?;
        Ok(Coming::New)
    }
}
