//! What becomes of the packets of a push.

use crate::arrivals::Arrivals;
use crate::outlook::Outlook;
use crate::packet::{Cargo, Coming, Fared, Packet, Traffic};
use crate::ways::{Way, Ways};
use net_plan::Fate;
use rep_lists::NoMemory;
use rep_values::SiteName;
use std::alloc::Global;

/// One direction of a push's packets, and what was told so far.
#[derive(Drop)]
struct Teller<'a> {
    traffic: Traffic,
    from: SiteName,
    to: SiteName,
    told: &'a mut Vec<Packet>,
}

impl Teller<'_> {
    /// Tells what became of a packet.
    fn tell(&mut self, cargo: Cargo, fared: Fared) -> Result<(), NoMemory> {
        self.told.push(Packet {
            traffic: self.traffic,
            from: self.from,
            to: self.to,
            cargo,
            fared,
        })?;
        Ok(())
    }
}

/// What a packet carries comes, for the first time or again.
fn come(known: &mut Arrivals, cargo: Cargo) -> Result<Coming, NoMemory> {
    match cargo {
        Cargo::Transaction(position) => known.come(position),
        Cargo::Mark(_) => Ok(Coming::New),
    }
}

/// A packet is sent, and takes its fate.
fn send(way: &mut Way, known: &mut Arrivals, cargo: Cargo) -> Result<Fared, NoMemory> {
    match way.take_fate() {
        Fate::Pass => Ok(Fared::Came(come(known, cargo)?)),
        Fate::Twice => Ok(Fared::Twice(come(known, cargo)?)),
        Fate::Lose => Ok(Fared::Lost),
        Fate::Late => {
            way.hold(cargo)?;
            Ok(Fared::Held)
        }
    }
}

/// What is held goes on its way, and comes.
fn release(
    alloc: Global,
    way: &mut Way,
    known: &mut Arrivals,
    teller: &mut Teller<'_>,
) -> Result<(), NoMemory> {
    let held = way.release(alloc);
    for cargo in &held {
        let coming = come(known, *cargo)?;
        teller.tell(*cargo, Fared::Released(coming))?;
    }
    Ok(())
}

/// Tells what becomes of what was held to the receiver, and of what is sent to it.
pub fn tell_sent(
    alloc: Global,
    ways: &mut Ways,
    outlook: &mut Outlook,
    told: &mut Vec<Packet>,
) -> Result<(), NoMemory> {
    let push = outlook.push;
    let mut teller = Teller {
        traffic: push.traffic,
        from: push.from,
        to: push.to,
        told,
    };
    let mut way = ways.take(alloc, &push.from, &push.to);
    release(alloc, &mut way, &mut outlook.there, &mut teller)?;
    for more in 0..outlook.count {
        let cargo = Cargo::Transaction(outlook.first.saturating_add(more));
        let fared = send(&mut way, &mut outlook.there, cargo)?;
        teller.tell(cargo, fared)?;
    }
    ways.put(way)
}

/// Tells what becomes of the mark that goes back, and of what was held to the sender.
pub fn tell_answer(
    alloc: Global,
    ways: &mut Ways,
    is_up: bool,
    outlook: &mut Outlook,
    low: u64,
    told: &mut Vec<Packet>,
) -> Result<(), NoMemory> {
    let push = outlook.push;
    let mut teller = Teller {
        traffic: push.traffic,
        from: push.to,
        to: push.from,
        told,
    };
    let mark = Cargo::Mark(low);
    if !is_up {
        return teller.tell(mark, Fared::CutOff);
    }
    let mut way = ways.take(alloc, &push.to, &push.from);
    release(alloc, &mut way, &mut outlook.back, &mut teller)?;
    let fared = send(&mut way, &mut outlook.back, mark)?;
    teller.tell(mark, fared)?;
    ways.put(way)
}
