//! Packets kept as their bytes.
ghost use Rattle.std.specs.Prelude.{◌≡◌, ◌≤◌, ◌<◌, List, IfOk};
ghost use Rattle.rep_calls.specs.declared.call.Txn.{Txn as TxnValue};
ghost use Rattle.rep_calls.specs.declared.past.PastEntry.{PastEntry as PastValue};
ghost use Rattle.packet_code.specs.declared.packet.Packet.TheVariants.{Mark};
ghost use Rattle.packet_code.specs.Limits.{IsPlainTxn, IsCausalPast, IsPacket};
ghost use Rattle.packet_code.specs.Texts.{TxnHasTextForm, PastHasForm};
ghost use Rattle.packet_code.specs.Spelling.{packet_bytes};
ghost use Rattle.packet_code.specs.Route.{carried, stream_position};
ghost use Rattle.packet_code.specs.Bodies.{CanSeal};

use crate::decoding::whole;
use crate::encoding::{carry_bytes, loaded_bytes, mark_bytes};
use crate::head_reading::position_in;
use crate::stop::Stop;
use crate::{Body, Packet, Route, StreamPosition, encode};
use rep_calls::{PastEntry, Txn};
use rep_lists::{Copies, NoMemory};
use rep_values::SiteName;
use std::alloc::Global;
use std::marker::Model;

/// A packet, kept as its bytes.
#[derive(Drop)]
pub struct Sealed {
    kept: Vec<u8>,
}

impl Model for Sealed {
    ghost use Rattle.packet_code.specs.declared.packet.Packet.{Packet as PacketValue};
    ghost use Rattle.packet_code.specs.Spelling.{IsEncoding};
    ghost use Rattle.packet_code.specs.Sealing.{sealed_packet};

    ghost Value = { PacketValue };

    ghost view = { λ s. sealed_packet s.kept.items };

    ghost invariant = { λ s. IsEncoding s.kept.items (sealed_packet s.kept.items) };
}

impl Sealed {
    /// The packet, sealed.
    pub fn seal(alloc: Global, packet: &Packet) -> Result<Sealed, NoMemory>
        requires { IsPacket packet.now }
        ensures { IfOk result (λ sealed. sealed ≡ packet.now) }
    {
        Ok(Sealed {
            kept: encode(alloc, packet)?,
        })
    }

    /// The packet that carries a transaction, sealed, without a copy of the transaction or of the past. A text and a name
    /// have the form of one, whatever they are.
    pub fn seal_carry(
        alloc: Global,
        route: &Route,
        past: &[PastEntry],
        txn: &Txn,
    ) -> Result<Sealed, NoMemory>
        requires from_one { 1 ≤ route.now.number }
        requires earlier { route.now.dep < route.now.position }
        requires seen { PastHasForm past.now → IsCausalPast route.now.from past.now }
        requires plain { TxnHasTextForm txn.now → IsPlainTxn txn.now }
        ensures { IfOk result (λ sealed. sealed ≡ carried route.now past.now txn.now) }
    {
        Ok(Sealed {
            kept: carry_bytes(alloc, route, past, txn)?,
        })
    }

    /// The packet that carries a past and a transaction that were encoded before, sealed: its head is written, and their
    /// bytes are copied.
    pub fn seal_body(alloc: Global, route: &Route, body: &Body) -> Result<Sealed, NoMemory>
        requires from_one { 1 ≤ route.now.number }
        requires earlier { route.now.dep < route.now.position }
        requires carries { (past : List PastValue) × (txn : TxnValue) × CanSeal route.now past txn body.now }
        ensures { (past : List PastValue) (txn : TxnValue) → CanSeal route.now past txn body.now
            → IfOk result (λ sealed. sealed ≡ carried route.now past txn) }
    {
        Ok(Sealed {
            kept: loaded_bytes(alloc, route, body.bytes())?,
        })
    }

    /// The packet of a mark, sealed.
    pub fn seal_mark(
        alloc: Global,
        from: &SiteName,
        to: &SiteName,
        mark: u64,
    ) -> Result<Sealed, NoMemory>
        ensures { IfOk result (λ sealed. sealed ≡ Mark from.now to.now mark) }
    {
        Ok(Sealed {
            kept: mark_bytes(alloc, from, to, mark)?,
        })
    }

    /// The packet that was sealed.
    pub fn unseal(&self, alloc: Global) -> Result<Packet, NoMemory>
        ensures same { IfOk result (λ packet. packet ≡ self.now) }
        ensures plain { IsPacket self.now }
    {
        match whole(alloc, &self.kept) {
            Ok(packet) => Ok(packet),
            Err(Stop::Memory) => Err(NoMemory),
            Err(Stop::Form) => unreachable!(),
        }
    }

    /// Who sent a carried transaction, and its position in the stream; None for a mark. Only the head of the packet is read,
    /// and it takes no memory.
    pub fn stream_position(&self) -> Option<StreamPosition>
        ensures { result ≡ stream_position self.now }
    {
        match position_in(&self.kept) {
            Ok(position) => position,
            Err(_) => unreachable!(),
        }
    }

    /// The bytes of the packet. It takes no memory.
    pub fn bytes(&self) -> &[u8]
        ensures { result.now ≡ packet_bytes self.now }
    {
        &self.kept
    }
}

impl Copies for Sealed {
    fn copy(&self, alloc: Global) -> Result<Sealed, NoMemory> {
        Ok(Sealed {
            kept: Vec::from_slice(alloc, &self.kept)?,
        })
    }
}
