//! Packets that sites send and take in, and others.
ghost use Rattle.packet_code.specs.Limits.{IsPacket};

use crate::told::{Told, push_seen, told};
use case_reader::{CaseStop, Words, read_past};
use packet_code::{Packet, Sealed, is_packet};
use rep_calls::{Call, PastEntry, Txn};
use rep_lists::{Items, NoMemory};
use rep_values::SiteName;
use row_tables::ListTables;
use site_engine::Site;
use site_state::Accepted;
use std::alloc::Global;

/// A number, and nothing behind it.
pub fn last_number(words: &mut Words) -> Result<u64, CaseStop> {
    let number = words.whole()?;
    words.end()?;
    Ok(number)
}

/// From where, and to where.
pub fn route(words: &mut Words) -> Result<(SiteName, SiteName), CaseStop> {
    Ok((words.site()?, words.site()?))
}

/// The number, the position and what it depends on.
#[derive(Clone, Copy)]
struct Numbers {
    number: u64,
    position: u64,
    dep: u64,
}

fn read_numbers(words: &mut Words) -> Result<Numbers, CaseStop> {
    Ok(Numbers {
        number: words.whole()?,
        position: words.whole()?,
        dep: words.whole()?,
    })
}

/// A packet as it is sent, where it is one.
fn sealed(alloc: Global, packet: &Packet) -> Result<Option<Sealed>, CaseStop> {
    if !is_packet(packet) {
        return Ok(None);
    }
    Ok(Some(Sealed::seal(alloc, packet)?))
}

/// What a packet has beside its transaction.
#[derive(Drop)]
struct Carriage {
    from: SiteName,
    to: SiteName,
    numbers: Numbers,
    past: Items<PastEntry>,
}

fn read_carriage(alloc: Global, words: &mut Words) -> Result<Carriage, CaseStop> {
    let (from, to) = route(words)?;
    Ok(Carriage {
        from,
        to,
        numbers: read_numbers(words)?,
        past: read_past(alloc, words)?,
    })
}

fn carry_of(carriage: Carriage, txn: Txn) -> Packet {
    let Carriage {
        from,
        to,
        numbers: Numbers {
            number,
            position,
            dep,
        },
        past,
    } = carriage;
    Packet::Carry {
        from,
        to,
        number,
        position,
        dep,
        past,
        txn,
    }
}

/// The packet of the calls, with the words that come next.
pub fn carried(
    alloc: Global,
    words: &mut Words,
    calls: Vec<Call>,
) -> Result<Option<Sealed>, CaseStop> {
    let txn = Txn::of(alloc, Items::from_vec(calls))?;
    let carriage = read_carriage(alloc, words)?;
    let packet = carry_of(carriage, txn);
    sealed(alloc, &packet)
}

/// What a site tells another of how far it came.
pub fn mark_of(
    alloc: Global,
    site: &Site<ListTables>,
    from: &SiteName,
    to: &SiteName,
) -> Result<Sealed, CaseStop> {
    Ok(Sealed::seal_mark(alloc, from, to, site.mark(to))?)
}

/// What was seen, where anything was.
fn push_past(out: &mut String, alloc: Global, past: &[PastEntry]) -> Result<(), NoMemory> {
    if past.is_empty() {
        return Ok(());
    }
    out.push_str(" past")?;
    push_seen(out, alloc, past)
}

fn described_carry(
    alloc: Global,
    kept: usize,
    numbers: Numbers,
    calls: usize,
) -> Result<String, NoMemory> {
    let Numbers {
        number,
        position,
        dep,
    } = numbers;
    Ok(format!(in alloc;
        "packet {kept} number {number} position {position} dep {dep} calls {calls}"
    )?)
}

fn described_mark(alloc: Global, kept: usize, mark: u64) -> Result<String, NoMemory> {
    Ok(format!(in alloc; "packet {kept} mark {mark}")?)
}

/// The packet of a number, and what is in it.
fn described(alloc: Global, kept: usize, packet: &Packet) -> Result<String, NoMemory> {
    match packet {
        Packet::Carry {
            number,
            position,
            dep,
            txn,
            ..
        } => {
            let numbers = Numbers {
                number: *number,
                position: *position,
                dep: *dep,
            };
            described_carry(alloc, kept, numbers, txn.calls.len())
        }
        Packet::Mark { mark, .. } => described_mark(alloc, kept, *mark),
    }
}

/// What was seen, where the packet carries a transaction.
fn past_of(packet: &Packet) -> &[PastEntry] {
    match packet {
        Packet::Carry { past, .. } => past.as_slice(),
        Packet::Mark { .. } => &[],
    }
}

fn told_packet(alloc: Global, number: usize, packet: &Packet) -> Told {
    let mut out = described(alloc, number, packet)?;
    push_past(&mut out, alloc, past_of(packet))?;
    Ok(Some(out))
}

/// What the packet carries that is kept under a number.
pub fn kept(alloc: Global, number: usize, sealed: &Sealed) -> Told {
    let packet = sealed.unseal(alloc)?;
    told_packet(alloc, number, &packet)
}

fn word_of(accepted: Accepted) -> &'static str {
    match accepted {
        Accepted::New => "New",
        Accepted::Repeat => "Repeat",
        Accepted::Marked => "Marked",
        Accepted::Foreign => "Foreign",
    }
}

/// What a site answers that takes a packet in.
pub fn delivered(alloc: Global, site: &mut Site<ListTables>, sealed: &Sealed) -> Told {
    let packet = sealed.unseal(alloc)?;
    let accepted = site.accept(packet)?;
    told(alloc, word_of(accepted))
}
