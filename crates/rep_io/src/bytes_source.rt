//! A source in memory that never fails.
ghost use Rattle.std.specs.Prelude.{◌≡◌, ◌≤◌, min, Some, IsOkAnd, drop, length};
ghost use Rattle.rep_io.specs.Faults.{HasCause};
ghost use Rattle.rep_io.specs.Transfer.{Reads};

use crate::{Failed, Source};
use std::marker::Model;

/// Bytes in memory, which never fail.
#[derive(Drop)]
pub struct BytesSource {
    bytes: Vec<u8>,
    at: usize,
}

impl Model for BytesSource {
    ghost use Rattle.std.specs.Prelude.{◌≤◌, ℕ, List, drop, length};

    ghost Value = { List ℕ };

    ghost view = { λ s. drop s.at s.bytes.items };

    ghost invariant = { λ s. s.at ≤ length s.bytes.items };
}

impl BytesSource {
    /// A source of these bytes.
    pub fn make(bytes: Vec<u8>) -> BytesSource
        ensures { result ≡ bytes.items }
    {
        BytesSource { bytes, at: 0 }
    }
}

impl Source for BytesSource {
    ghost left = { λ bytes. Some bytes };

    ghost faults = { λ _. 0 };

    /// Gives as many bytes as there are and as the piece has room for, and never fails.
    fn read(&mut self, into: &mut [u8]) -> Result<usize, Failed>
        ensures bytes { Reads (Some self.old) (Some self.new) result into.new }
        ensures cause { HasCause 0 0 result }
        ensures given { IsOkAnd result (λ n. n ≡ min (length into.old) (length self.old)) }
    {
        let count = into.len().min(self.bytes.len() - self.at);
        into[..count].copy_from_slice(&self.bytes[self.at..self.at + count]);
        self.at += count;
        Ok(count)
    }
}
