//! A plan on a net of one direction.
ghost use Rattle.net_plan.specs.Directions.{HasDirection};

use crate::shown::push_count;
use case_reader::CaseStop;
use net_plan::{Fate, Net};
use packet_code::{Packet, Sealed};
use rep_lists::NoMemory;
use rep_values::{Name, SiteName};
use std::alloc::Global;

/// Where the packets go.
#[derive(Clone, Copy)]
struct Way {
    alloc: Global,
    from: SiteName,
    to: SiteName,
}

fn fate_of(word: &str) -> Option<Fate> {
    match word {
        "pass" => Some(Fate::Pass),
        "lose" => Some(Fate::Lose),
        "twice" => Some(Fate::Twice),
        "late" => Some(Fate::Late),
        _ => None,
    }
}

/// The mark of a packet that came.
fn push_packet(way: &Way, out: &mut String, packet: &Packet) -> Result<(), CaseStop> {
    match packet {
        Packet::Mark { mark, .. } => push_count(out, way.alloc, *mark)?,
        Packet::Carry { .. } => out.push_str(" other")?,
    }
    Ok(())
}

/// Shows the mark of a sealed packet that comes.
fn push_sealed(way: &Way, out: &mut String, sealed: &Sealed) -> Result<(), CaseStop> {
    let packet = sealed.unseal(way.alloc)?;
    push_packet(way, out, &packet)
}

fn push_none(out: &mut String) -> Result<(), CaseStop> {
    out.push_str(" none")?;
    Ok(())
}

/// Shows the mark of a packet that comes, or that none does.
fn push_mark(way: &Way, out: &mut String, packet: Option<Sealed>) -> Result<(), CaseStop> {
    match packet {
        Some(sealed) => push_sealed(way, out, &sealed),
        None => push_none(out),
    }
}

fn send(net: &mut Net, way: &Way, mark: u64) -> Result<(), NoMemory>
    requires { HasDirection net.old way.now.from way.now.to }
    ensures { HasDirection net.new way.now.from way.now.to }
{
    let packet = Sealed::seal_mark(way.alloc, &way.from, &way.to, mark)?;
    net.send(way.alloc, &way.from, &way.to, packet)
}

fn release(net: &mut Net, way: &Way) -> Result<(), NoMemory>
    requires { HasDirection net.old way.now.from way.now.to }
    ensures { HasDirection net.new way.now.from way.now.to }
{
    net.release(&way.from, &way.to)
}

fn add_fate(net: &mut Net, way: &Way, fate: Fate) -> Result<(), NoMemory>
    requires { HasDirection net.old way.now.from way.now.to }
    ensures { HasDirection net.new way.now.from way.now.to }
{
    net.add_fates(&way.from, &way.to, &[fate])
}

fn deliver(net: &mut Net, way: &Way) -> Option<Sealed>
    requires { HasDirection net.old way.now.from way.now.to }
    ensures { HasDirection net.new way.now.from way.now.to }
{
    net.deliver(&way.from, &way.to)
}

fn clear(net: &mut Net, way: &Way)
    requires { HasDirection net.old way.now.from way.now.to }
    ensures { HasDirection net.new way.now.from way.now.to }
{
    net.clear_fates(&way.from, &way.to);
}

fn set_link(net: &mut Net, way: &Way, up: bool)
    requires { HasDirection net.old way.now.from way.now.to }
    ensures { HasDirection net.new way.now.from way.now.to }
{
    net.set_link(&way.from, &way.to, up);
}

fn link(net: &Net, way: &Way) -> &'static str
    requires { HasDirection net.now way.now.from way.now.to }
{
    if net.is_up(&way.from, &way.to) {
        " up"
    } else {
        " down"
    }
}

/// Sends the next mark.
fn send_next(net: &mut Net, way: &Way, sent: &mut u64) -> Result<(), CaseStop>
    requires { HasDirection net.old way.now.from way.now.to }
    ensures { HasDirection net.new way.now.from way.now.to }
{
    *sent = sent.saturating_add(1);
    send(net, way, *sent)?;
    Ok(())
}

/// Delivers a packet and shows its mark.
fn deliver_next(net: &mut Net, way: &Way, out: &mut String) -> Result<(), CaseStop>
    requires { HasDirection net.old way.now.from way.now.to }
    ensures { HasDirection net.new way.now.from way.now.to }
{
    let packet = deliver(net, way);
    push_mark(way, out, packet)
}

/// Does one word that is no fate.
fn act(
    net: &mut Net,
    way: &Way,
    out: &mut String,
    sent: &mut u64,
    word: &str,
) -> Result<(), CaseStop>
    requires { HasDirection net.old way.now.from way.now.to }
    ensures { HasDirection net.new way.now.from way.now.to }
{
    match word {
        "clear" => {
            clear(net, way);
            Ok(())
        }
        "send" => send_next(net, way, sent),
        "release" => Ok(release(net, way)?),
        "deliver" => deliver_next(net, way, out),
        "down" => {
            set_link(net, way, false);
            Ok(())
        }
        "up" => {
            set_link(net, way, true);
            Ok(())
        }
        "link" => Ok(out.push_str(link(net, way))?),
        _ => Err(CaseStop::NoCase),
    }
}

/// Does one word.
fn step(
    net: &mut Net,
    way: &Way,
    out: &mut String,
    sent: &mut u64,
    word: &str,
) -> Result<(), CaseStop>
    requires { HasDirection net.old way.now.from way.now.to }
    ensures { HasDirection net.new way.now.from way.now.to }
{
    match fate_of(word) {
        Some(fate) => Ok(add_fate(net, way, fate)?),
        None => act(net, way, out, sent, word),
    }
}

fn site_of(name: &[u8]) -> Result<SiteName, CaseStop> {
    match Name::of(name) {
        Some(name) => Ok(SiteName(name)),
        None => Err(CaseStop::NoCase),
    }
}

/// The way from A to B.
fn way_of(alloc: Global) -> Result<Way, CaseStop> {
    Ok(Way {
        alloc,
        from: site_of(b"A")?,
        to: site_of(b"B")?,
    })
}

/// Does one word after another on a net.
fn walk(net: &mut Net, way: &Way, out: &mut String, plan: &str) -> Result<(), CaseStop>
    requires { HasDirection net.old way.now.from way.now.to }
{
    let mut sent: u64 = 0;
    for word in plan.split(' ') {
        step(net, way, out, &mut sent, word)?;
    }
    Ok(())
}

/// What a plan shows on a way.
fn shown_on(way: &Way, plan: &str) -> Result<String, CaseStop> {
    let mut net = Net::make(way.alloc, &[(way.from, way.to)])?;
    let mut out = format!(in way.alloc; "shows")?;
    walk(&mut net, way, &mut out, plan)?;
    Ok(out)
}

/// What a plan shows.
pub fn shown(alloc: Global, plan: &str) -> Result<String, CaseStop> {
    let way = way_of(alloc)?;
    shown_on(&way, plan)
}
