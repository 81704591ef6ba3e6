//! Packets that are packed into their bytes and unpacked again.

use crate::asked::text;
use crate::round_trips::round_trips;
use crate::sample::{insert_packet, update_packet};
use anyhow::{Context, Result};
use case_reader::CaseStop;
use packet_code::{Packet, Sealed, is_packet};
use std::alloc::Global;

/// The packet of this kind; `NoCase` where there is no such kind.
fn packet_of(alloc: Global, kind: &str) -> Result<Packet, CaseStop> {
    match kind {
        "update" => update_packet(alloc),
        "insert" => insert_packet(alloc),
        _ => Err(CaseStop::NoCase),
    }
}

/// How many bytes the packet has that comes back from its round trips; `NoCase` where it is no packet.
fn bytes_back(alloc: Global, packet: Packet, count: u64) -> Result<usize, CaseStop> {
    if !is_packet(&packet) {
        return Err(CaseStop::NoCase);
    }
    let back = round_trips(alloc, packet, count)?;
    let sealed = Sealed::seal(alloc, &back)?;
    Ok(sealed.bytes().len())
}

/// The same of the packet of a kind; `NoCase` where there is no such kind.
fn bytes_after(alloc: Global, kind: &str, count: u64) -> Result<usize, CaseStop> {
    let packet = packet_of(alloc, kind)?;
    bytes_back(alloc, packet, count)
}

fn told_bytes(alloc: Global, kind: &str, count: u64, bytes: usize) -> Result<String> {
    Ok(format!(in alloc; "{kind} {count}: {bytes} bytes")?)
}

fn told_missing(alloc: Global, kind: &str) -> Result<String> {
    Ok(format!(in alloc; "{kind}: no such packet")?)
}

/// What comes of the kind and the number of round trips that are asked for.
pub fn told(alloc: Global, asked: &str) -> Result<String> {
    let (kind, count) = asked.split_once(' ').context("a kind and a count")?;
    let count = count.parse::<u64>().context("a number of round trips")?;
    match bytes_after(alloc, kind, count) {
        Ok(bytes) => told_bytes(alloc, kind, count, bytes),
        Err(CaseStop::NoCase) => told_missing(alloc, kind),
        Err(CaseStop::Memory) => text(alloc, "no memory"),
    }
}
