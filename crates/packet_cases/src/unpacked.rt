//! The packets of bytes.
ghost use Rattle.packet_code.specs.Limits.{IsPacket};

use crate::pieces::bytes_of_pieces;
use crate::shown::{no_packet, push_kept, shown};
use crate::written::written;
use case_reader::CaseStop;
use packet_code::{Packet, Sealed, decode, encode, is_packet};
use rep_lists::{Copies, NoMemory};
use std::alloc::Global;

/// Whether a packet has these bytes.
fn has_bytes(alloc: Global, packet: &Packet, bytes: &[u8]) -> Result<bool, NoMemory> {
    if !is_packet(packet) {
        return Ok(false);
    }
    Ok(encode(alloc, packet)?.as_slice() == bytes)
}

/// Whether the copy of a packet has these bytes.
fn copy_has_bytes(alloc: Global, packet: &Packet, bytes: &[u8]) -> Result<bool, NoMemory> {
    let copy = packet.copy(alloc)?;
    has_bytes(alloc, &copy, bytes)
}

/// Whether a seal has these bytes, and the packet that comes back from it too.
fn seal_has_bytes(alloc: Global, sealed: &Sealed, bytes: &[u8]) -> Result<bool, NoMemory> {
    if sealed.bytes() != bytes {
        return Ok(false);
    }
    let back = sealed.unseal(alloc)?;
    has_bytes(alloc, &back, bytes)
}

/// Whether the copy of a packet's seal has these bytes, and the packet that comes back from it too.
fn sealed_has_bytes(alloc: Global, packet: &Packet, bytes: &[u8]) -> Result<bool, NoMemory> {
    if !is_packet(packet) {
        return Ok(false);
    }
    let sealed = Sealed::seal(alloc, packet)?;
    let copy = sealed.copy(alloc)?;
    seal_has_bytes(alloc, &copy, bytes)
}

/// Whether the packet and its copy have these bytes, and the packet that comes back from a seal's copy too.
fn all_have_bytes(alloc: Global, packet: &Packet, bytes: &[u8]) -> Result<bool, NoMemory> {
    Ok(
        has_bytes(alloc, packet, bytes)?
            && copy_has_bytes(alloc, packet, bytes)?
            && sealed_has_bytes(alloc, packet, bytes)?,
    )
}

/// Whether the packet and its copy have these bytes, or those of version 2 that tell the same, and the packet that comes
/// back from a seal's copy too.
pub fn is_kept(alloc: Global, packet: &Packet, bytes: &[u8]) -> Result<bool, NoMemory> {
    let written = written(alloc, packet, bytes)?;
    all_have_bytes(alloc, packet, written.as_slice())
}

/// A packet in words, and whether it has these bytes again.
fn told(alloc: Global, packet: &Packet, bytes: &[u8]) -> Result<String, NoMemory> {
    let is_kept = is_kept(alloc, packet, bytes)?;
    let mut out = shown(alloc, packet)?;
    push_kept(&mut out, is_kept)?;
    Ok(out)
}

/// The packet that the bytes are, in words.
fn decoded(alloc: Global, bytes: &[u8]) -> Result<String, CaseStop> {
    match decode(alloc, bytes)? {
        Some(packet) => Ok(told(alloc, &packet, bytes)?),
        None => no_packet(alloc),
    }
}

/// The packet that the bytes of the pieces are, in words, and whether it has these bytes again.
pub fn unpacked(alloc: Global, pieces: &str) -> Result<String, CaseStop> {
    let bytes = bytes_of_pieces(alloc, pieces)?;
    decoded(alloc, &bytes)
}
