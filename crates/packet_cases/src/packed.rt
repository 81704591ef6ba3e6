//! The bytes of packets that are given in words.
ghost use Rattle.packet_code.specs.Limits.{IsPacket};

use crate::shown::{no_packet, push_kept};
use crate::unpacked::is_kept;
use case_reader::{CaseStop, Words, read_past};
use packet_code::{Packet, Route, Sealed, encode, is_packet};
use rep_calls::{Call, PastEntry, Txn};
use rep_lists::{Items, NoMemory};
use rep_values::SiteName;
use std::alloc::Global;
use std::mem;

/// The packet, sealed from its parts.
fn sealed(alloc: Global, packet: &Packet) -> Result<Sealed, NoMemory>
    requires { IsPacket packet.now }
{
    match packet {
        Packet::Carry {
            from,
            to,
            number,
            position,
            dep,
            past,
            txn,
        } => {
            let route = Route {
                from: *from,
                to: *to,
                number: *number,
                position: *position,
                dep: *dep,
            };
            Sealed::seal_carry(alloc, &route, past.as_slice(), txn)
        }
        Packet::Mark { from, to, mark } => Sealed::seal_mark(alloc, from, to, *mark),
    }
}

/// Whether the packet, sealed from its parts, has these bytes.
fn parts_have_bytes(alloc: Global, packet: &Packet, bytes: &[u8]) -> Result<bool, NoMemory> {
    if !is_packet(packet) {
        return Ok(false);
    }
    Ok(sealed(alloc, packet)?.bytes() == bytes)
}

/// The bytes in hexadecimal, and whether others were found in their place.
fn told(alloc: Global, bytes: &[u8], is_same: bool) -> Result<String, CaseStop> {
    let mut out = hex::encode(alloc, bytes)?;
    push_kept(&mut out, is_same)?;
    Ok(out)
}

/// The bytes of a packet in hexadecimal, if it is one; they stay the same under a seal, in a copy, and there and back.
fn packed(alloc: Global, packet: &Packet) -> Result<String, CaseStop> {
    if !is_packet(packet) {
        return no_packet(alloc);
    }
    let bytes = encode(alloc, packet)?;
    let is_same = is_kept(alloc, packet, &bytes)? && parts_have_bytes(alloc, packet, &bytes)?;
    told(alloc, &bytes, is_same)
}

/// `FROM TO`
fn read_sites(words: &mut Words) -> Result<(SiteName, SiteName), CaseStop> {
    Ok((words.site()?, words.site()?))
}

/// `NUMBER POSITION DEP`
fn read_numbers(words: &mut Words) -> Result<(u64, u64, u64), CaseStop> {
    Ok((words.whole()?, words.whole()?, words.whole()?))
}

/// `FROM TO NUMBER POSITION DEP`
fn read_route(words: &mut Words) -> Result<Route, CaseStop> {
    let (from, to) = read_sites(words)?;
    let (number, position, dep) = read_numbers(words)?;
    Ok(Route {
        from,
        to,
        number,
        position,
        dep,
    })
}

/// The packet that carries a transaction on its route.
fn carry(route: &Route, past: Items<PastEntry>, txn: Txn) -> Packet {
    Packet::Carry {
        from: route.from,
        to: route.to,
        number: route.number,
        position: route.position,
        dep: route.dep,
        past,
        txn,
    }
}

/// The route, and what was seen, up to the end of the line.
fn read_head(alloc: Global, words: &mut Words) -> Result<(Route, Items<PastEntry>), CaseStop> {
    Ok((read_route(words)?, read_past(alloc, words)?))
}

/// The packet of this line that carries these calls.
fn read_carry(alloc: Global, words: &mut Words, calls: Vec<Call>) -> Result<Packet, CaseStop> {
    let (route, past) = read_head(alloc, words)?;
    let txn = Txn::of(alloc, Items::from_vec(calls))?;
    Ok(carry(&route, past, txn))
}

/// The bytes of the packet that carries the calls, which are taken away.
pub fn carried(
    alloc: Global,
    words: &mut Words,
    calls: &mut Vec<Call>,
) -> Result<String, CaseStop> {
    let calls = mem::replace(calls, Vec::new(alloc));
    let packet = read_carry(alloc, words, calls)?;
    packed(alloc, &packet)
}

/// `FROM TO MARK`
fn read_mark(words: &mut Words) -> Result<Packet, CaseStop> {
    let (from, to) = read_sites(words)?;
    let mark = words.whole()?;
    words.end()?;
    Ok(Packet::Mark { from, to, mark })
}

/// The bytes of the mark.
pub fn marked(alloc: Global, words: &mut Words) -> Result<String, CaseStop> {
    let packet = read_mark(words)?;
    packed(alloc, &packet)
}
