//! Who reads a script for a run.
ghost use Rattle.std.specs.Prelude.{ℕ, List, None, is_err};
ghost use Rattle.std.specs.declared.option.Option.{Option};
ghost use Rattle.rep_io.specs.Faults.{HasCause};
ghost use Rattle.rep_io.specs.Transfer.{Reads};
ghost use Rattle.script_drive.specs.Prompt.{Asked, AsksNext};

use rep_io::{Failed, Sink, Source};

/// Reads a script for a run, and is shown the sink at each read: so it can tell what had been written by then.
pub trait Reader<S, K: Sink> {
    /// The bytes that are left, where the source tells them.
    ghost left: { S → Option (List ℕ) };

    /// How often a read has failed.
    ghost faults: { S → ℕ };

    /// The reads that were asked for so far, in their order, where the reader tells them. One that finds no memory for a read
    /// ceases to tell, and doesn't begin again.
    ghost reads: { Self → Option (List Asked) };

    /// Reads bytes into the front of a piece, as a source does.
    fn read(&mut self, source: &mut S, sink: &K, into: &mut [u8]) -> Result<usize, Failed>
        ensures bytes { Reads (left source.old) (left source.new) result into.new }
        ensures cause { HasCause (faults source.old) (faults source.new) result }
        ensures asked { AsksNext (reads self.old) (reads self.new) (record { left = left source.old; written = K.taken sink.now; failed = is_err result }) };
}

/// Reads from a source, and notes nothing.
#[derive(Clone, Copy, Drop)]
pub struct Straight;

impl<S: Source, K: Sink> Reader<S, K> for Straight {
    ghost left = { λ s. S.left s };

    ghost faults = { λ s. S.faults s };

    ghost reads = { λ _. None };

    fn read(&mut self, source: &mut S, _sink: &K, into: &mut [u8]) -> Result<usize, Failed>
        ensures bytes { Reads (S.left source.old) (S.left source.new) result into.new }
        ensures cause { HasCause (S.faults source.old) (S.faults source.new) result }
    {
        source.read(into)
    }
}
