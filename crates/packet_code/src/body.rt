//! What a packet carries, encoded before it is known where it goes.
ghost use Rattle.std.specs.Prelude.{◌≡◌, IfOk};
ghost use Rattle.packet_code.specs.Bodies.{IsBody};

use crate::encoding::body_bytes;
use rep_calls::{PastEntry, Txn};
use rep_lists::NoMemory;
use std::alloc::Global;
use std::marker::Model;

/// A past and a transaction, kept as the bytes that stand behind the head of a packet.
#[derive(Drop)]
pub struct Body {
    kept: Vec<u8>,
}

impl Model for Body {
    ghost use Rattle.std.specs.Prelude.{ℕ, List};

    ghost Value = { List ℕ };

    ghost view = { λ b. b.kept.items };
}

impl Body {
    /// The bytes of both. A text and a name have the form of one, whatever they are.
    pub fn of(alloc: Global, past: &[PastEntry], txn: &Txn) -> Result<Body, NoMemory>
        ensures { IfOk result (λ body. IsBody past.now txn.now body) }
    {
        Ok(Body {
            kept: body_bytes(alloc, past, txn)?,
        })
    }

    /// It takes no memory.
    pub(crate) fn bytes(&self) -> &[u8]
        ensures { result.now ≡ self.now }
    {
        &self.kept
    }
}
