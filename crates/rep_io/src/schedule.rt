//! Which calls of an object fail.
ghost use Rattle.std.specs.Prelude.{◌≡◌, ◌≤◌, ◌<◌, ◌↔◌, min, length, IsErr};
ghost use Rattle.rep_io.specs.Faults.{count_up};
ghost use Rattle.rep_io.specs.Memory.{FailsNext, Counts};

use crate::Failed;
use std::marker::Model;

/// Which calls of an object fail, and how many came and failed.
#[derive(Drop)]
pub(crate) struct Schedule {
    failing: Vec<u64>,
    most: u64,
    calls: u64,
    faults: u64,
}

impl Model for Schedule {
    ghost use Rattle.std.specs.Prelude.{◌<◌};
    ghost use Rattle.rep_io.specs.Memory.{Plan};

    ghost Value = { Plan };

    ghost view = { λ s. record { failing = s.failing.items; most = s.most; calls = s.calls; faults = s.faults } };

    ghost invariant = { λ s. 0 < s.most };
}

impl Schedule {
    pub(crate) fn make(failing: Vec<u64>, most: u64) -> Schedule
        requires { 0 < most }
        ensures { result ≡ record { failing = failing.items; most = most; calls = 0; faults = 0 } }
    {
        Schedule {
            failing,
            most,
            calls: 0,
            faults: 0,
        }
    }

    /// Counts a call, which fails where it is one of those.
    pub(crate) fn begin(&mut self) -> Result<(), Failed>
        ensures fails { IsErr result ↔ FailsNext self.old }
        ensures counts { Counts self.old self.new result }
        ensures later { self.old.faults ≤ self.new.faults }
    {
        self.calls = self.calls.saturating_add(1);
        if self.failing.contains(&self.calls) {
            return Err(self.fail());
        }
        Ok(())
    }

    /// Counts a fault.
    pub(crate) fn fail(&mut self) -> Failed
        ensures counted { self.new ≡ record self.old { faults = count_up self.old.faults } }
        ensures later { self.old.faults ≤ self.new.faults }
    {
        self.faults = self.faults.saturating_add(1);
        Failed
    }

    /// How many of so many bytes one call moves.
    pub(crate) fn at_most(&self, length: usize) -> usize
        ensures value { result ≡ min length self.now.most }
        ensures some { 0 < length → 0 < result }
    {
        if (length as u64) < self.most {
            length
        } else {
            self.most as usize
        }
    }

    pub(crate) fn calls(&self) -> u64
        ensures { result ≡ self.now.calls }
    {
        self.calls
    }

    pub(crate) fn faults(&self) -> u64
        ensures { result ≡ self.now.faults }
    {
        self.faults
    }
}
