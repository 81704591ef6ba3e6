//! Cases of the queue of a site.

use crate::marks::read_position;
use crate::told::text;
use case_reader::{CaseStop, Words, push_past, read_past};
use deferred_queue::{Destination, Place, Queue, Queued, Sent, are_apart};
use packet_code::Body;
use rep_calls::{Call, PastEntry, Txn};
use rep_lists::{Items, NoMemory};
use rep_values::{Key, Name, SiteName, Value};
use script_lex::Symbol;
use std::alloc::Global;

fn sites_of(alloc: Global, names: &[Name]) -> Result<Vec<SiteName>, NoMemory> {
    let mut sites = Vec::new(alloc);
    for name in names {
        sites.push(SiteName(*name))?;
    }
    Ok(sites)
}

/// The sites up to the end of the line.
pub fn read_sites(alloc: Global, words: &mut Words) -> Result<Vec<SiteName>, CaseStop> {
    let names = words.names(alloc)?;
    words.end()?;
    Ok(sites_of(alloc, names.as_slice())?)
}

/// The number of a table.
pub fn read_table(words: &mut Words) -> Result<u32, CaseStop> {
    u32::try_from(words.whole()?).map_err(|_| CaseStop::NoCase)
}

fn update_of(alloc: Global, table: u32) -> Result<Call, CaseStop> {
    let key = Key::of(&[Value::Num(1)]).ok_or(CaseStop::NoCase)?;
    Ok(Call::Update {
        table,
        key,
        parts: Items::new(alloc),
    })
}

/// A transaction that is told by its table.
fn txn_on(alloc: Global, table: u32) -> Result<Txn, CaseStop> {
    let mut calls = Items::new(alloc);
    calls.push(update_of(alloc, table)?)?;
    Ok(Txn::of(alloc, calls)?)
}

fn table_of(txn: &Txn) -> u32 {
    match txn.calls.as_slice() {
        [Call::Update { table, .. }] => *table,
        _ => u32::MAX,
    }
}

fn read_txn(alloc: Global, words: &mut Words) -> Result<Txn, CaseStop> {
    let table = read_table(words)?;
    txn_on(alloc, table)
}

fn read_destination(words: &mut Words) -> Result<Destination, CaseStop> {
    let site = words.site()?;
    let dep = words.whole()?;
    Ok(Destination { site, dep })
}

fn read_destinations(alloc: Global, words: &mut Words) -> Result<Vec<Destination>, CaseStop> {
    let mut to = Vec::new(alloc);
    for _ in 0..u64::MAX {
        if !words.passes(Symbol::Comma) {
            break;
        }
        to.push(read_destination(words)?)?;
    }
    Ok(to)
}

/// The number of a transaction that is queued, where it can be sent.
fn queued(
    alloc: Global,
    queue: &mut Queue,
    txn: Txn,
    past: Items<PastEntry>,
    to: &[Destination],
) -> Result<Option<u64>, NoMemory> {
    queue.reserve()?;
    if queue.can_send(to) && are_apart(to) {
        let body = Body::of(alloc, past.as_slice(), &txn)?;
        return Ok(Some(queue.push_back(txn, past, body, to)));
    }
    Ok(None)
}

fn number_text(alloc: Global, number: u64) -> Result<String, CaseStop> {
    Ok(format!(in alloc; "number {number}")?)
}

fn push(alloc: Global, queue: &mut Queue, words: &mut Words) -> Result<String, CaseStop> {
    let txn = read_txn(alloc, words)?;
    let to = read_destinations(alloc, words)?;
    let past = read_past(alloc, words)?;
    match queued(alloc, queue, txn, past, to.as_slice())? {
        Some(number) => number_text(alloc, number),
        None => text(alloc, "refused"),
    }
}

/// A site, and a position or a number.
fn read_site_and_number(words: &mut Words) -> Result<(SiteName, u64), CaseStop> {
    let site = words.site()?;
    let number = words.whole()?;
    Ok((site, number))
}

/// What was seen, behind these words.
fn with_past(alloc: Global, words: String, past: &[PastEntry]) -> Result<String, CaseStop> {
    let mut out = words;
    push_past(&mut out, alloc, past)?;
    Ok(out)
}

fn sent_text(alloc: Global, sent: &Sent) -> Result<String, CaseStop> {
    let (number, dep, table) = (sent.number, sent.dep, table_of(sent.txn));
    Ok(format!(in alloc; "number {number} dep {dep} table {table}")?)
}

fn entry(alloc: Global, queue: &Queue, words: &mut Words) -> Result<String, CaseStop> {
    let (site, position) = read_site_and_number(words)?;
    match queue.entry(&site, position) {
        Some(sent) => with_past(alloc, sent_text(alloc, &sent)?, sent.past),
        None => text(alloc, "none"),
    }
}

fn place_text(alloc: Global, place: &Place) -> Result<String, CaseStop> {
    let (position, dep) = (place.position, place.dep);
    Ok(format!(in alloc; "position {position} dep {dep}")?)
}

fn place(alloc: Global, queue: &Queue, words: &mut Words) -> Result<String, CaseStop> {
    let (site, number) = read_site_and_number(words)?;
    match queue.place_of(&site, number) {
        Some(place) => place_text(alloc, &place),
        None => text(alloc, "none"),
    }
}

fn queued_text(alloc: Global, queued: &Queued) -> Result<String, CaseStop> {
    let (number, table) = (queued.number, table_of(queued.txn));
    Ok(format!(in alloc; "number {number} table {table}")?)
}

fn order(alloc: Global, queue: &Queue, words: &mut Words) -> Result<String, CaseStop> {
    let place = read_position(words)?;
    match queue.entry_in_order(place) {
        Some(queued) => with_past(alloc, queued_text(alloc, &queued)?, queued.past),
        None => text(alloc, "none"),
    }
}

/// How far a site's stream is sent and acknowledged.
fn stream_text(alloc: Global, queue: &Queue, site: &SiteName) -> Result<String, CaseStop> {
    let (last, acked, waiting) = (queue.last(site), queue.acked(site), queue.waiting(site));
    Ok(format!(in alloc; "last {last} acknowledged {acked} waiting {waiting}")?)
}

fn acknowledge(alloc: Global, queue: &mut Queue, words: &mut Words) -> Result<String, CaseStop> {
    let (site, mark) = read_site_and_number(words)?;
    if mark > queue.last(&site) {
        return text(alloc, "refused");
    }
    queue.acknowledge(&site, mark);
    stream_text(alloc, queue, &site)
}

fn purge(alloc: Global, queue: &mut Queue) -> Result<String, CaseStop> {
    let purged = queue.purge();
    Ok(format!(in alloc; "purged {purged}")?)
}

fn shown(
    alloc: Global,
    queue: &mut Queue,
    kind: &[u8],
    words: &mut Words,
) -> Result<String, CaseStop> {
    match kind {
        b"push" => push(alloc, queue, words),
        b"entry" => entry(alloc, queue, words),
        b"place" => place(alloc, queue, words),
        b"order" => order(alloc, queue, words),
        b"acknowledge" => acknowledge(alloc, queue, words),
        _ => purge(alloc, queue),
    }
}

/// Begins with an empty queue to the sites of the line.
fn begin(alloc: Global, queue: &mut Queue, words: &mut Words) -> Result<Option<String>, CaseStop> {
    let sites = read_sites(alloc, words)?;
    *queue = Queue::make(alloc, sites.as_slice())?;
    Ok(None)
}

/// The outcome of a line of this kind.
pub fn outcome(
    alloc: Global,
    queue: &mut Queue,
    kind: &[u8],
    words: &mut Words,
) -> Result<Option<String>, CaseStop> {
    if kind == b"queue".as_slice() {
        return begin(alloc, queue, words);
    }
    let outcome = shown(alloc, queue, kind, words)?;
    words.end()?;
    Ok(Some(outcome))
}
