//! A source in memory that fails at listed reads.
ghost use Rattle.std.specs.Prelude.{◌≡◌, ◌≤◌, ◌<◌, ◌↔◌, min, Some, IsErr, IfOk, drop, length};
ghost use Rattle.rep_io.specs.Faults.{HasCause};
ghost use Rattle.rep_io.specs.Transfer.{Reads};
ghost use Rattle.rep_io.specs.Memory.{FailsNext, Counts};

use crate::schedule::Schedule;
use crate::{BytesSource, Failed, Source};
use std::marker::Model;

/// Bytes in memory, some of whose reads fail. The others give only so many bytes.
#[derive(Drop)]
pub struct FailingSource {
    inner: BytesSource,
    schedule: Schedule,
}

impl Model for FailingSource {
    ghost use Rattle.rep_io.specs.Memory.{FailingLeft};

    ghost Value = { FailingLeft };

    ghost view = { λ s. record { bytes = s.inner; plan = s.schedule } };
}

impl FailingSource {
    /// A source of these bytes. The reads that fail are counted from 1, and the others give at most `most` bytes.
    pub fn make(bytes: Vec<u8>, failing: Vec<u64>, most: u64) -> FailingSource
        requires { 0 < most }
        ensures bytes { result.bytes ≡ bytes.items }
        ensures plan { result.plan ≡ record { failing = failing.items; most = most; calls = 0; faults = 0 } }
    {
        FailingSource {
            inner: BytesSource::make(bytes),
            schedule: Schedule::make(failing, most),
        }
    }

    /// How many reads were asked for.
    pub fn calls(&self) -> u64
        ensures { result ≡ self.now.plan.calls }
    {
        self.schedule.calls()
    }

    /// How many reads failed.
    pub fn faults(&self) -> u64
        ensures { result ≡ self.now.plan.faults }
    {
        self.schedule.faults()
    }
}

impl Source for FailingSource {
    ghost left = { λ s. Some s.bytes };

    ghost faults = { λ s. s.plan.faults };

    /// Fails exactly at the calls of the plan.
    fn read(&mut self, into: &mut [u8]) -> Result<usize, Failed>
        ensures bytes { Reads (Some self.old.bytes) (Some self.new.bytes) result into.new }
        ensures cause { HasCause self.old.plan.faults self.new.plan.faults result }
        ensures fails { IsErr result ↔ FailsNext self.old.plan }
        ensures counts { Counts self.old.plan self.new.plan result }
        ensures given { IfOk result (λ n. n ≡ min (min (length into.old) self.old.plan.most) (length self.old.bytes)) }
    {
        self.schedule.begin()?;
        let room = self.schedule.at_most(into.len());
        self.inner.read(&mut into[..room])
    }
}
