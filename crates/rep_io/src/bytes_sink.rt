//! A sink in memory that fails only for want of memory.
ghost use Rattle.std.specs.Prelude.{◌≡◌, ℕ, ◌+◌, ◌-◌, ◌<◌, ◌≤◌, List, [], length, Some, IfOk, OnErr, vec_capacity};
ghost use Rattle.rep_io.specs.Faults.{HasCause, CountsFailure};
ghost use Rattle.rep_io.specs.Transfer.{Writes};

use crate::{Failed, Sink};
use std::alloc::Global;
use std::marker::Model;

/// A sink in memory, which fails only where it finds no room.
#[derive(Drop)]
pub struct BytesSink {
    bytes: Vec<u8>,
    faults: u64,
}

impl Model for BytesSink {
    ghost use Rattle.std.specs.Prelude.{◌-◌, length, vec_capacity};
    ghost use Rattle.rep_io.specs.Memory.{Collected};

    ghost Value = { Collected };

    ghost view = { λ s. record { bytes = s.bytes.items; room = vec_capacity s.bytes - length s.bytes.items; faults = s.faults } };
}

impl BytesSink {
    /// A sink that has taken nothing.
    pub fn make(alloc: Global) -> BytesSink
        ensures empty { result.bytes ≡ [] }
        ensures faults { result.faults ≡ 0 }
    {
        BytesSink {
            bytes: Vec::new(alloc),
            faults: 0,
        }
    }

    /// All the bytes taken so far.
    pub fn taken(&self) -> &[u8]
        ensures { result.now ≡ self.now.bytes }
    {
        &self.bytes
    }

    /// How many writes found no room.
    pub fn faults(&self) -> u64
        ensures { result ≡ self.now.faults }
    {
        self.faults
    }
}

impl Sink for BytesSink {
    ghost taken = { λ s. Some s.bytes };

    ghost faults = { λ s. s.faults };

    /// Takes the whole piece. Fails only for want of memory.
    fn write(&mut self, piece: &[u8]) -> Result<usize, Failed>
        ensures bytes { Writes (Some self.old.bytes) (Some self.new.bytes) result piece.now }
        ensures cause { HasCause self.old.faults self.new.faults result }
        ensures whole { IfOk result (λ n. n ≡ length piece.now) }
        ensures short { OnErr result (self.old.room < length piece.now) }
        ensures counted { CountsFailure self.old.faults self.new.faults result }
    {
        match self.bytes.extend_from_slice(piece) {
            Ok(()) => Ok(piece.len()),
            Err(_) => {
                self.faults = self.faults.saturating_add(1);
                Err(Failed)
            }
        }
    }
}
