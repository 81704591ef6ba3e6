//! What the sender sends.
ghost use Rattle.std.specs.Prelude.{◌≡◌, ◌+◌, ◌-◌, ◌<◌, ◌≤◌, ◌^◌, length, IfOk, OnOk, OnErr};
ghost use Rattle.std.specs.List.{range_with_len};
ghost use Rattle.net_plan.specs.Directions.{HasDirection};
ghost use Rattle.site_events.specs.Cluster.{site_of};
ghost use Rattle.site_events.specs.Events.{packet_from};
ghost use Rattle.world_state.specs.Pushes.{at_most, sent_on, world_release, world_send, positions_in, positions_above, world_send_above};
ghost use Rattle.world.specs.Following.{PushesInPart};

use packet_code::Sealed;
use page_tables::PageTables;
use rep_lists::NoMemory;
use rep_values::SiteName;
use site_engine::Site;
use std::alloc::Global;
use world::{WorldParts, place_of};

/// What is held from a site to another one goes on the way.
pub(crate) fn release(
    parts: &mut WorldParts,
    from: &SiteName,
    to: &SiteName,
) -> Result<(), NoMemory>
    requires { HasDirection parts.old.net from.now to.now }
    ensures ok { OnOk result (parts.new ≡ world_release from.now to.now parts.old) }
    ensures err { OnErr result (parts.new ≡ parts.old) }
{
    parts.net.release(from, to)?;
    Ok(())
}

/// Sends a packet, where there is one.
pub(crate) fn send_some(
    parts: &mut WorldParts,
    alloc: Global,
    from: &SiteName,
    to: &SiteName,
    packet: Option<Sealed>,
) -> Result<(), NoMemory>
    requires { HasDirection parts.old.net from.now to.now }
    ensures ok { OnOk result (parts.new ≡ record parts.old { net = sent_on packet from.now to.now parts.old.net }) }
    ensures err { OnErr result (parts.new ≡ parts.old) }
{
    let Some(packet) = packet else {
        return Ok(());
    };
    parts.net.send(alloc, from, to, packet)?;
    Ok(())
}

/// The packet of a position, where the site is there and has one.
fn packet_of(
    sites: &[Site<PageTables>],
    alloc: Global,
    from: &SiteName,
    to: &SiteName,
    position: u64,
) -> Result<Option<Sealed>, NoMemory>
    ensures { IfOk result (λ packet. packet ≡ packet_from to.now position (site_of from.now sites.now)) }
{
    let Some(place) = place_of(sites, from) else {
        return Ok(None);
    };
    let packet = sites[place].packet(alloc, to, position)?;
    Ok(packet)
}

/// The packet of a position is sent, where there is one.
fn send(
    parts: &mut WorldParts,
    alloc: Global,
    from: &SiteName,
    to: &SiteName,
    position: u64,
) -> Result<(), NoMemory>
    requires { HasDirection parts.old.net from.now to.now }
    ensures ok { OnOk result (parts.new ≡ world_send from.now to.now position parts.old) }
    ensures err { OnErr result (parts.new ≡ parts.old) }
{
    let packet = packet_of(&parts.sites, alloc, from, to, position)?;
    send_some(parts, alloc, from, to, packet)?;
    Ok(())
}

/// The positions behind the acknowledged mark, so many.
#[derive(Clone, Copy)]
struct Unsent {
    acked: u64,
    number: u64,
    ghost within: { 0 < number → acked + number < 2 ^ 64 },
}

/// So many, and at most as a count says where it is given.
fn at_most(count: Option<u64>, number: u64) -> u64
    ensures is { result ≡ at_most count number }
    ensures within { result ≤ number }
{
    match count {
        None => number,
        Some(count) => count.min(number),
    }
}

/// The positions of a site that aren't acknowledged, at most so many where a count is given.
fn unsent_of(
    sites: &[Site<PageTables>],
    from: &SiteName,
    to: &SiteName,
    count: Option<u64>,
) -> Unsent
    ensures { positions_in to.now count (site_of from.now sites.now) ≡ range_with_len (result.acked + 1) result.number }
{
    let Some(place) = place_of(sites, from) else {
        return Unsent {
            acked: 0,
            number: 0,
        };
    };
    let site = &sites[place];
    let acked = site.queue().acked(to);
    let waiting = site.last_sent(to).saturating_sub(acked);
    Unsent {
        acked,
        number: at_most(count, waiting),
    }
}

/// What isn't acknowledged is sent, at most so many where a count is given. It answers how many positions that is.
pub(crate) fn send_above(
    parts: &mut WorldParts,
    alloc: Global,
    from: &SiteName,
    to: &SiteName,
    count: Option<u64>,
) -> Result<u64, NoMemory>
    requires { HasDirection parts.old.net from.now to.now }
    ensures ok { OnOk result (parts.new ≡ world_send_above from.now to.now count parts.old) }
    ensures sent { IfOk result (λ sent. sent ≡ length (positions_above from.now to.now count parts.old)) }
    ensures part { PushesInPart from.now to.now parts.old parts.new }
{
    let unsent = unsent_of(&parts.sites, from, to, count);
    for sent in 0..unsent.number {
        send(parts, alloc, from, to, unsent.acked + 1 + sent)?;
    }
    Ok(unsent.number)
}
