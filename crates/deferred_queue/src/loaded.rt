//! What is queued, and its bytes.
ghost use Rattle.std.specs.Prelude.{◌≡◌};
ghost use Rattle.packet_code.specs.Bodies.{IsBody};

use crate::queued_txn::QueuedTxn;
use packet_code::Body;
use rep_calls::{PastEntry, Txn};
use std::marker::Model;

/// A cargo, and the bytes of what a packet carries of it behind its head.
#[derive(Drop)]
pub(crate) struct Loaded {
    cargo: QueuedTxn,
    body: Body,
}

impl Model for Loaded {
    ghost use Rattle.deferred_queue.specs.declared.queued_txn.QueuedTxn.{QueuedTxn as CargoValue};
    ghost use Rattle.packet_code.specs.Bodies.{IsBody};

    ghost Value = { CargoValue };

    ghost view = { λ l. l.cargo };

    ghost invariant = { λ l. IsBody l.cargo.past l.cargo.txn l.body };
}

impl Loaded {
    pub(crate) fn of(cargo: QueuedTxn, body: Body) -> Loaded
        requires { IsBody cargo.past cargo.txn body }
        ensures { result ≡ cargo }
    {
        Loaded { cargo, body }
    }

    pub(crate) fn txn(&self) -> &Txn
        ensures { result.now ≡ self.now.txn }
    {
        &self.cargo.txn
    }

    pub(crate) fn past(&self) -> &[PastEntry]
        ensures { result.now ≡ self.now.past }
    {
        self.cargo.past.as_slice()
    }

    pub(crate) fn body(&self) -> &Body
        ensures { IsBody self.now.past self.now.txn result.now }
    {
        &self.body
    }
}
