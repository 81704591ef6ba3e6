//! The bytes that are written for a packet that was read.

use packet_code::Packet;
use rep_lists::NoMemory;
use rep_values::SiteName;
use std::alloc::Global;

/// The length of a name and its bytes.
fn name_size(site: &SiteName) -> usize {
    site.0.bytes().len() + 1
}

/// The place behind the sites and the three numbers of a transaction, where version 2 tells the past; None for a mark.
fn past_place(packet: &Packet) -> Option<usize> {
    match packet {
        Packet::Carry { from, to, .. } => {
            Some(
                name_size(from)
                    .saturating_add(name_size(to))
                    .saturating_add(26),
            )
        }
        Packet::Mark { .. } => None,
    }
}

/// The bytes with the second version in place of the first, and with a past of no master where a transaction has one.
fn renewed(alloc: Global, packet: &Packet, bytes: &[u8]) -> Result<Vec<u8>, NoMemory> {
    let mut renewed = Vec::new(alloc);
    for (place, byte) in bytes.iter().enumerate() {
        if Some(place) == past_place(packet) {
            renewed.push(0)?;
        }
        renewed.push(if place == 0 { 2 } else { *byte })?;
    }
    Ok(renewed)
}

/// The bytes of version 2 that tell what bytes of version 1 or 2 do.
pub fn written(alloc: Global, packet: &Packet, bytes: &[u8]) -> Result<Vec<u8>, NoMemory> {
    match bytes.first() {
        Some(1) => renewed(alloc, packet, bytes),
        Some(_) | None => Ok(Vec::from_slice(alloc, bytes)?),
    }
}
