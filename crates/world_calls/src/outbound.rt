//! What the sender sends.
ghost use Rattle.std.specs.Prelude.{◌≡◌, ◌+◌, ◌-◌, ◌<◌, ◌^◌, length, IfOk, OnOk, OnErr};
ghost use Rattle.std.specs.List.{range_with_len};
ghost use Rattle.net_plan.specs.Directions.{HasDirection};
ghost use Rattle.world_state.specs.Pushes.{sent_on};
ghost use Rattle.world_state.specs.Procs.{proc_of};
ghost use Rattle.world_state.specs.CallPushes.{calls_release, calls_from, calls_send, positions_of, calls_positions, calls_send_above};
ghost use Rattle.world.specs.Calling.{CallsPushInPart};

use packet_code::Sealed;
use proc_calls::ProcSite;
use rep_lists::NoMemory;
use rep_values::SiteName;
use std::alloc::Global;
use world::{Procs, proc_place_of};

/// What is held from a site to another one goes on the way.
pub(crate) fn release(procs: &mut Procs, from: &SiteName, to: &SiteName) -> Result<(), NoMemory>
    requires { HasDirection procs.old.net from.now to.now }
    ensures ok { OnOk result (procs.new ≡ calls_release from.now to.now procs.old) }
    ensures err { OnErr result (procs.new ≡ procs.old) }
{
    procs.net.release(from, to)?;
    Ok(())
}

/// Sends a packet, where there is one.
pub(crate) fn send_some(
    procs: &mut Procs,
    alloc: Global,
    from: &SiteName,
    to: &SiteName,
    packet: Option<Sealed>,
) -> Result<(), NoMemory>
    requires { HasDirection procs.old.net from.now to.now }
    ensures ok { OnOk result (procs.new ≡ record procs.old { net = sent_on packet from.now to.now procs.old.net }) }
    ensures err { OnErr result (procs.new ≡ procs.old) }
{
    let Some(packet) = packet else {
        return Ok(());
    };
    procs.net.send(alloc, from, to, packet)?;
    Ok(())
}

/// The packet of a position, where the site is there and has one.
fn packet_of(
    sites: &[ProcSite],
    alloc: Global,
    from: &SiteName,
    to: &SiteName,
    position: u64,
) -> Result<Option<Sealed>, NoMemory>
    ensures { IfOk result (λ packet. packet ≡ calls_from to.now position (proc_of from.now sites.now)) }
{
    let Some(place) = proc_place_of(sites, from) else {
        return Ok(None);
    };
    let packet = sites[place].packet(alloc, to, position)?;
    Ok(packet)
}

/// The packet of a position is sent, where there is one.
fn send(
    procs: &mut Procs,
    alloc: Global,
    from: &SiteName,
    to: &SiteName,
    position: u64,
) -> Result<(), NoMemory>
    requires { HasDirection procs.old.net from.now to.now }
    ensures ok { OnOk result (procs.new ≡ calls_send from.now to.now position procs.old) }
    ensures err { OnErr result (procs.new ≡ procs.old) }
{
    let packet = packet_of(&procs.sites, alloc, from, to, position)?;
    send_some(procs, alloc, from, to, packet)?;
    Ok(())
}

/// The positions behind the acknowledged mark, so many.
#[derive(Clone, Copy)]
struct Unsent {
    acked: u64,
    number: u64,
    ghost within: { 0 < number → acked + number < 2 ^ 64 },
}

/// The positions of a site that aren't acknowledged.
fn unsent_of(sites: &[ProcSite], from: &SiteName, to: &SiteName) -> Unsent
    ensures { positions_of to.now (proc_of from.now sites.now) ≡ range_with_len (result.acked + 1) result.number }
{
    let Some(place) = proc_place_of(sites, from) else {
        return Unsent {
            acked: 0,
            number: 0,
        };
    };
    let site = &sites[place];
    let acked = site.acked(to);
    Unsent {
        acked,
        number: site.last(to).saturating_sub(acked),
    }
}

/// What isn't acknowledged is sent. It answers how many positions that is.
pub(crate) fn send_above(
    procs: &mut Procs,
    alloc: Global,
    from: &SiteName,
    to: &SiteName,
) -> Result<u64, NoMemory>
    requires { HasDirection procs.old.net from.now to.now }
    ensures ok { OnOk result (procs.new ≡ calls_send_above from.now to.now procs.old) }
    ensures sent { IfOk result (λ sent. sent ≡ length (calls_positions from.now to.now procs.old)) }
    ensures part { CallsPushInPart from.now to.now procs.old procs.new }
{
    let unsent = unsent_of(&procs.sites, from, to);
    for sent in 0..unsent.number {
        send(procs, alloc, from, to, unsent.acked + 1 + sent)?;
    }
    Ok(unsent.number)
}
