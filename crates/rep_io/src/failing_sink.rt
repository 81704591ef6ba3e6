//! A sink in memory that fails at listed writes.
ghost use Rattle.std.specs.Prelude.{◌≡◌, ℕ, ◌-◌, ◌<◌, ◌⊎◌, min, [], length, Some, IsErr, IfOk, OnErr, vec_capacity};
ghost use Rattle.rep_io.specs.Faults.{HasCause};
ghost use Rattle.rep_io.specs.Transfer.{Writes};
ghost use Rattle.rep_io.specs.Memory.{FailsNext, Counts};

use crate::schedule::Schedule;
use crate::{BytesSink, Failed, Sink};
use std::alloc::Global;
use std::marker::Model;

/// A sink in memory, some of whose writes fail. The others take only so many bytes.
#[derive(Drop)]
pub struct FailingSink {
    inner: BytesSink,
    schedule: Schedule,
}

impl Model for FailingSink {
    ghost use Rattle.rep_io.specs.Memory.{FailingTaken};

    ghost Value = { FailingTaken };

    ghost view = { λ s. record { bytes = s.inner.bytes; room = s.inner.room; plan = s.schedule } };
}

impl FailingSink {
    /// A sink that has taken nothing. The writes that fail are counted from 1, and the others take at most `most` bytes.
    pub fn make(alloc: Global, failing: Vec<u64>, most: u64) -> FailingSink
        requires { 0 < most }
        ensures empty { result.bytes ≡ [] }
        ensures plan { result.plan ≡ record { failing = failing.items; most = most; calls = 0; faults = 0 } }
    {
        FailingSink {
            inner: BytesSink::make(alloc),
            schedule: Schedule::make(failing, most),
        }
    }

    /// All the bytes taken so far.
    pub fn taken(&self) -> &[u8]
        ensures { result.now ≡ self.now.bytes }
    {
        self.inner.taken()
    }

    /// How many writes were asked for.
    pub fn calls(&self) -> u64
        ensures { result ≡ self.now.plan.calls }
    {
        self.schedule.calls()
    }

    /// How many writes failed.
    pub fn faults(&self) -> u64
        ensures { result ≡ self.now.plan.faults }
    {
        self.schedule.faults()
    }
}

impl Sink for FailingSink {
    ghost taken = { λ s. Some s.bytes };

    ghost faults = { λ s. s.plan.faults };

    /// Fails at the calls of the plan, and else only for want of memory.
    fn write(&mut self, piece: &[u8]) -> Result<usize, Failed>
        ensures bytes { Writes (Some self.old.bytes) (Some self.new.bytes) result piece.now }
        ensures cause { HasCause self.old.plan.faults self.new.plan.faults result }
        ensures fails { FailsNext self.old.plan → IsErr result }
        ensures short { OnErr result (FailsNext self.old.plan ⊎ (self.old.room < min (length piece.now) self.old.plan.most)) }
        ensures counts { Counts self.old.plan self.new.plan result }
        ensures amount { IfOk result (λ n. n ≡ min (length piece.now) self.old.plan.most) }
    {
        self.schedule.begin()?;
        let count = self.schedule.at_most(piece.len());
        match self.inner.write(&piece[..count]) {
            Ok(taken) => Ok(taken),
            Err(_) => Err(self.schedule.fail()),
        }
    }
}
