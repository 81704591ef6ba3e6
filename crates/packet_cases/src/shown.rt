//! Packets as words.

use case_reader::{CaseStop, push_name, push_past, push_values};
use packet_code::Packet;
use rep_calls::{Call, Part, Txn};
use rep_lists::NoMemory;
use rep_values::{Key, SiteName, Value};
use std::alloc::Global;

/// A space, and the count.
pub fn push_count(out: &mut String, alloc: Global, count: u64) -> Result<(), NoMemory> {
    out.push_str(&format!(in alloc; " {count}")?)?;
    Ok(())
}

fn push_part(out: &mut String, alloc: Global, part: &Part) -> Result<(), NoMemory> {
    out.push_str(" ,")?;
    push_count(out, alloc, u64::from(part.group))?;
    out.push_str(" :")?;
    push_values(out, alloc, part.old.as_slice())?;
    out.push_str(" >")?;
    push_values(out, alloc, part.new.as_slice())
}

fn push_of(
    out: &mut String,
    alloc: Global,
    kind: &str,
    table: u32,
    values: &[Value],
) -> Result<(), NoMemory> {
    out.push_str(kind)?;
    push_count(out, alloc, u64::from(table))?;
    out.push_str(" :")?;
    push_values(out, alloc, values)
}

fn push_update(
    out: &mut String,
    alloc: Global,
    table: u32,
    key: &Key,
    parts: &[Part],
) -> Result<(), NoMemory> {
    push_of(out, alloc, "update", table, key.values())?;
    for part in parts {
        push_part(out, alloc, part)?;
    }
    Ok(())
}

fn push_call(out: &mut String, alloc: Global, call: &Call) -> Result<(), NoMemory> {
    match call {
        Call::Insert { table, row } => push_of(out, alloc, "insert", *table, row.values()),
        Call::Delete { table, row } => push_of(out, alloc, "delete", *table, row.values()),
        Call::Update { table, key, parts } => {
            push_update(out, alloc, *table, key, parts.as_slice())
        }
    }
}

fn push_calls(out: &mut String, alloc: Global, calls: &[Call]) -> Result<(), NoMemory> {
    for call in calls {
        out.push_str(" ; ")?;
        push_call(out, alloc, call)?;
    }
    Ok(())
}

/// The calls, where there are at most three, or their number.
fn push_txn(out: &mut String, alloc: Global, txn: &Txn) -> Result<(), NoMemory> {
    if txn.calls.len() <= 3 {
        return push_calls(out, alloc, txn.calls.as_slice());
    }
    push_count(out, alloc, txn.calls.len() as u64)?;
    out.push_str(" calls")?;
    Ok(())
}

fn push_sites(out: &mut String, from: &SiteName, to: &SiteName) -> Result<(), NoMemory> {
    push_name(out, &from.0)?;
    push_name(out, &to.0)
}

fn push_counts(out: &mut String, alloc: Global, counts: &[u64]) -> Result<(), NoMemory> {
    for count in counts {
        push_count(out, alloc, *count)?;
    }
    Ok(())
}

/// A packet's kind, its sites and its numbers.
fn push_front(
    out: &mut String,
    alloc: Global,
    kind: &str,
    sites: (&SiteName, &SiteName),
    counts: &[u64],
) -> Result<(), NoMemory> {
    out.push_str(kind)?;
    push_sites(out, sites.0, sites.1)?;
    push_counts(out, alloc, counts)
}

fn push_packet(out: &mut String, alloc: Global, packet: &Packet) -> Result<(), NoMemory> {
    match packet {
        Packet::Carry {
            from,
            to,
            number,
            position,
            dep,
            past,
            txn,
        } => {
            push_front(out, alloc, "carry", (from, to), &[*number, *position, *dep])?;
            push_past(out, alloc, past.as_slice())?;
            push_txn(out, alloc, txn)
        }
        Packet::Mark { from, to, mark } => push_front(out, alloc, "mark", (from, to), &[*mark]),
    }
}

/// The packet with its past and its calls.
pub fn shown(alloc: Global, packet: &Packet) -> Result<String, NoMemory> {
    let mut out = String::new(alloc);
    push_packet(&mut out, alloc, packet)?;
    Ok(out)
}

/// What is told of bytes that are no packet's.
pub fn no_packet(alloc: Global) -> Result<String, CaseStop> {
    let out = format!(in alloc; "no packet")?;
    Ok(out)
}

/// Nothing where the bytes were the same everywhere, or that there were others.
pub fn push_kept(out: &mut String, is_kept: bool) -> Result<(), NoMemory> {
    if !is_kept {
        out.push_str(" and others")?;
    }
    Ok(())
}
