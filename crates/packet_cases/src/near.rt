//! The packets among bytes that are nearly those of one.

use crate::pieces::bytes_of_pieces;
use crate::shown::push_kept;
use crate::unpacked::is_kept;
use case_reader::CaseStop;
use packet_code::{Packet, decode};
use rep_lists::NoMemory;
use std::alloc::Global;

/// How many bytes are a packet's, and whether each such packet has its bytes again.
#[derive(Clone, Copy)]
struct Found {
    packets: u64,
    kept: bool,
}

/// Takes in a packet that has these bytes.
fn take_in_packet(
    alloc: Global,
    found: &mut Found,
    packet: &Packet,
    bytes: &[u8],
) -> Result<(), NoMemory> {
    found.packets = found.packets.saturating_add(1);
    found.kept = found.kept && is_kept(alloc, packet, bytes)?;
    Ok(())
}

/// Takes in one more.
fn take_in(alloc: Global, found: &mut Found, bytes: &[u8]) -> Result<(), NoMemory> {
    match decode(alloc, bytes)? {
        Some(packet) => take_in_packet(alloc, found, &packet, bytes),
        None => Ok(()),
    }
}

/// All that differ at one place.
fn changed(alloc: Global, found: &mut Found, bytes: &mut [u8]) -> Result<(), NoMemory> {
    for place in 0..bytes.len() {
        let was = bytes[place];
        for byte in 0..256u32 {
            let byte = byte as u8;
            if byte != was {
                bytes[place] = byte;
                take_in(alloc, found, bytes)?;
            }
        }
        bytes[place] = was;
    }
    Ok(())
}

/// All that end early.
fn cut(alloc: Global, found: &mut Found, bytes: &[u8]) -> Result<(), NoMemory> {
    for length in 0..bytes.len() {
        take_in(alloc, found, &bytes[..length])?;
    }
    Ok(())
}

/// All that have one byte more.
fn longer(alloc: Global, found: &mut Found, bytes: &mut Vec<u8>) -> Result<(), NoMemory> {
    for byte in 0..256u32 {
        bytes.push(byte as u8)?;
        take_in(alloc, found, bytes)?;
        let _ = bytes.pop();
    }
    Ok(())
}

/// The three counts, and whether each packet among them has its bytes again.
fn told(alloc: Global, other: Found, shorter: Found, more: Found) -> Result<String, CaseStop> {
    let mut out = format!(in alloc;
        "{} changed, {} cut, {} longer",
        other.packets, shorter.packets, more.packets
    )?;
    push_kept(&mut out, other.kept && shorter.kept && more.kept)?;
    Ok(out)
}

/// What is found of those that differ at one place, end early, or have one byte more.
fn near_bytes(alloc: Global, bytes: &mut Vec<u8>) -> Result<String, CaseStop> {
    let none = Found {
        packets: 0,
        kept: true,
    };
    let (mut other, mut shorter, mut more) = (none, none, none);
    changed(alloc, &mut other, bytes)?;
    cut(alloc, &mut shorter, bytes)?;
    longer(alloc, &mut more, bytes)?;
    told(alloc, other, shorter, more)
}

/// How many are packets of those that differ at one place, end early, or have one byte more.
pub fn near(alloc: Global, pieces: &str) -> Result<String, CaseStop> {
    let mut bytes = bytes_of_pieces(alloc, pieces)?;
    near_bytes(alloc, &mut bytes)
}
