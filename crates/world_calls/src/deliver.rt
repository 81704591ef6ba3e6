//! What the receiver takes in.
ghost use Rattle.std.specs.Prelude.{◌≡◌, is_some, IfOk, OnOk, OnErr};
ghost use Rattle.net_plan.specs.Directions.{HasDirection, first_between};
ghost use Rattle.proc_state.specs.Packets.{proc_accept};
ghost use Rattle.world_state.specs.Procs.{at_proc};
ghost use Rattle.world_state.specs.CallPushes.{calls_deliver_one, calls_deliver};
ghost use Rattle.world_calls.specs.Repeats.{is_repeated};
ghost use Rattle.world_calls.specs.Travelling.{CallsTravel};

use packet_code::Sealed;
use proc_calls::ProcSite;
use rep_lists::NoMemory;
use rep_values::SiteName;
use std::alloc::Global;
use world::{Procs, proc_place_of};

/// Whether the transaction of a packet arrived at a site before. It takes no memory.
fn is_repeated(site: &ProcSite, sealed: &Sealed) -> bool
    ensures { result ≡ is_repeated sealed.now site.now }
{
    let Some(at) = sealed.stream_position() else {
        return false;
    };
    site.has_arrived(&at.from, at.position)
}

/// A site takes in a packet. One that comes again is not unsealed, since it changes nothing.
fn accept(site: &mut ProcSite, alloc: Global, sealed: &Sealed) -> Result<(), NoMemory>
    ensures ok { OnOk result (site.new ≡ proc_accept sealed.now site.old) }
    ensures err { OnErr result (site.new ≡ site.old) }
{
    if is_repeated(site, sealed) {
        return Ok(());
    }
    let packet = sealed.unseal(alloc)?;
    site.accept(packet)?;
    Ok(())
}

/// A site takes in a packet, where it is there.
fn accept_at(
    sites: &mut Vec<ProcSite>,
    alloc: Global,
    to: &SiteName,
    sealed: &Sealed,
) -> Result<(), NoMemory>
    ensures ok { OnOk result (sites.new.items ≡ at_proc to.now (proc_accept sealed.now) sites.old.items) }
    ensures err { OnErr result (sites.new.items ≡ sites.old.items) }
{
    let Some(place) = proc_place_of(sites, to) else {
        return Ok(());
    };
    accept(&mut sites[place], alloc, sealed)
}

/// A site takes in the first packet on the way to it, and whether there is one is answered. Where there is no memory, the
/// packet may be gone, like one that is lost.
fn deliver_one(
    procs: &mut Procs,
    alloc: Global,
    from: &SiteName,
    to: &SiteName,
) -> Result<bool, NoMemory>
    requires { HasDirection procs.old.net from.now to.now }
    ensures ok { OnOk result (procs.new ≡ calls_deliver_one from.now to.now procs.old) }
    ensures some { IfOk result (λ some. some ≡ is_some (first_between from.now to.now procs.old.net)) }
    ensures travels { CallsTravel from.now to.now procs.old procs.new }
{
    let Some(sealed) = procs.net.deliver(from, to) else {
        return Ok(false);
    };
    accept_at(&mut procs.sites, alloc, to, &sealed)?;
    Ok(true)
}

/// A site takes in all that is on the way to it from another one.
pub(crate) fn deliver_all(
    procs: &mut Procs,
    alloc: Global,
    from: &SiteName,
    to: &SiteName,
) -> Result<(), NoMemory>
    requires { HasDirection procs.old.net from.now to.now }
    ensures ok { OnOk result (procs.new ≡ calls_deliver from.now to.now procs.old) }
    ensures travels { CallsTravel from.now to.now procs.old procs.new }
{
    'packets: loop {
        if !deliver_one(procs, alloc, from, to)? {
            return Ok(());
        }
    }
}
