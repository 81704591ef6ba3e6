//! Packets that sites send and take in, and others.

use crate::told::{Told, told};
use case_reader::{CaseStop, Words, push_values, read_past};
use packet_code::{Packet, Route, Sealed, is_packet};
use proc_calls::ProcSite;
use rep_calls::{Call, PastEntry, Txn};
use rep_lists::{Items, NoMemory};
use rep_values::{SiteName, Value};
use site_state::Accepted;
use std::alloc::Global;

/// From where, and to where.
pub fn read_way(words: &mut Words) -> Result<(SiteName, SiteName), CaseStop> {
    Ok((words.site()?, words.site()?))
}

/// A number, and nothing behind it.
pub fn last_number(words: &mut Words) -> Result<u64, CaseStop> {
    let number = words.whole()?;
    words.end()?;
    Ok(number)
}

/// The number, the position and what it depends on, behind the two sites.
fn read_numbers(words: &mut Words, from: SiteName, to: SiteName) -> Result<Route, CaseStop> {
    Ok(Route {
        from,
        to,
        number: words.whole()?,
        position: words.whole()?,
        dep: words.whole()?,
    })
}

fn read_route(words: &mut Words) -> Result<Route, CaseStop> {
    let (from, to) = read_way(words)?;
    read_numbers(words, from, to)
}

fn carry_of(route: &Route, past: Items<PastEntry>, txn: Txn) -> Packet {
    Packet::Carry {
        from: route.from,
        to: route.to,
        number: route.number,
        position: route.position,
        dep: route.dep,
        past,
        txn,
    }
}

/// The packet of the calls, with the words that come next.
pub fn carried(alloc: Global, words: &mut Words, calls: Vec<Call>) -> Result<Packet, CaseStop> {
    let txn = Txn::of(alloc, Items::from_vec(calls))?;
    let route = read_route(words)?;
    let past = read_past(alloc, words)?;
    Ok(carry_of(&route, past, txn))
}

/// The mark that the words tell.
pub fn marked(words: &mut Words) -> Result<Packet, CaseStop> {
    let (from, to) = read_way(words)?;
    let mark = last_number(words)?;
    Ok(Packet::Mark { from, to, mark })
}

fn word_of(accepted: Accepted) -> &'static str {
    match accepted {
        Accepted::New => "New",
        Accepted::Repeat => "Repeat",
        Accepted::Marked => "Marked",
        Accepted::Foreign => "Foreign",
    }
}

/// What a site answers that takes a packet in, if it is one.
pub fn delivered(alloc: Global, site: &mut ProcSite, packet: Packet) -> Told {
    if !is_packet(&packet) {
        return told(alloc, "no packet");
    }
    let accepted = site.accept(packet)?;
    told(alloc, word_of(accepted))
}

/// What a site answers that takes in what another one sent.
pub fn relayed(alloc: Global, site: &mut ProcSite, sealed: &Sealed) -> Told {
    let packet = sealed.unseal(alloc)?;
    delivered(alloc, site, packet)
}

/// What is done to a table, and the values of a row or of a key.
fn push_of(
    out: &mut String,
    alloc: Global,
    kind: &str,
    table: u32,
    values: &[Value],
) -> Result<(), NoMemory> {
    out.push_str(&format!(in alloc; " ; {kind} {table} :")?)?;
    push_values(out, alloc, values)
}

fn push_call(out: &mut String, alloc: Global, call: &Call) -> Result<(), NoMemory> {
    match call {
        Call::Insert { table, row } => push_of(out, alloc, "insert", *table, row.values()),
        Call::Delete { table, row } => push_of(out, alloc, "delete", *table, row.values()),
        Call::Update { table, key, .. } => push_of(out, alloc, "update", *table, key.values()),
    }
}

fn push_calls(out: &mut String, alloc: Global, txn: &Txn) -> Result<(), NoMemory> {
    for call in txn.calls.as_slice() {
        push_call(out, alloc, call)?;
    }
    Ok(())
}

/// The numbers of a packet, and its calls.
fn shown_carry(alloc: Global, route: &Route, txn: &Txn) -> Result<String, NoMemory> {
    let mut out = format!(in alloc;
        "number {} position {} dep {}",
        route.number, route.position, route.dep
    )?;
    push_calls(&mut out, alloc, txn)?;
    Ok(out)
}

fn shown_mark(alloc: Global, mark: u64) -> Result<String, NoMemory> {
    Ok(format!(in alloc; "mark {mark}")?)
}

fn shown(alloc: Global, packet: &Packet) -> Result<String, NoMemory> {
    match packet {
        Packet::Carry {
            from,
            to,
            number,
            position,
            dep,
            txn,
            ..
        } => {
            let route = Route {
                from: *from,
                to: *to,
                number: *number,
                position: *position,
                dep: *dep,
            };
            shown_carry(alloc, &route, txn)
        }
        Packet::Mark { mark, .. } => shown_mark(alloc, *mark),
    }
}

/// What a packet carries.
pub fn shown_packet(alloc: Global, sealed: &Sealed) -> Told {
    let packet = sealed.unseal(alloc)?;
    Ok(Some(shown(alloc, &packet)?))
}
