//! What the receiver takes in.
ghost use Rattle.std.specs.Prelude.{◌≡◌, is_some, IfOk, OnOk, OnErr};
ghost use Rattle.net_plan.specs.Directions.{HasDirection, first_between};
ghost use Rattle.site_state.specs.Packets.{site_accept};
ghost use Rattle.site_events.specs.Cluster.{at_site};
ghost use Rattle.world_state.specs.Pushes.{world_deliver_one, world_deliver};
ghost use Rattle.world_push.specs.Repeats.{is_repeat};
ghost use Rattle.world_push.specs.Travelling.{Travels};

use packet_code::Sealed;
use page_tables::PageTables;
use rep_lists::NoMemory;
use rep_values::SiteName;
use site_engine::Site;
use std::alloc::Global;
use world::{WorldParts, place_of};

/// Whether the transaction of a packet arrived at a site before. It takes no memory.
fn is_repeat(site: &Site<PageTables>, sealed: &Sealed) -> bool
    ensures { result ≡ is_repeat sealed.now site.now }
{
    let Some(at) = sealed.stream_position() else {
        return false;
    };
    site.has_arrived(&at.from, at.position)
}

/// A site takes in a packet. One that comes again is not unsealed, since it changes nothing.
fn accept(site: &mut Site<PageTables>, alloc: Global, sealed: &Sealed) -> Result<(), NoMemory>
    ensures ok { OnOk result (site.new ≡ site_accept sealed.now site.old) }
    ensures err { OnErr result (site.new ≡ site.old) }
{
    if is_repeat(site, sealed) {
        return Ok(());
    }
    let packet = sealed.unseal(alloc)?;
    site.accept(packet)?;
    Ok(())
}

/// A site takes in a packet, where it is there.
fn accept_at(
    sites: &mut Vec<Site<PageTables>>,
    alloc: Global,
    to: &SiteName,
    sealed: &Sealed,
) -> Result<(), NoMemory>
    ensures ok { OnOk result (sites.new.items ≡ at_site to.now (site_accept sealed.now) sites.old.items) }
    ensures err { OnErr result (sites.new.items ≡ sites.old.items) }
{
    let Some(place) = place_of(sites, to) else {
        return Ok(());
    };
    accept(&mut sites[place], alloc, sealed)
}

/// A site takes in the first packet on the way to it, and whether there is one is answered. Where there is no memory, the
/// packet may be gone, like one that is lost.
fn deliver_one(
    parts: &mut WorldParts,
    alloc: Global,
    from: &SiteName,
    to: &SiteName,
) -> Result<bool, NoMemory>
    requires { HasDirection parts.old.net from.now to.now }
    ensures ok { OnOk result (parts.new ≡ world_deliver_one from.now to.now parts.old) }
    ensures some { IfOk result (λ some. some ≡ is_some (first_between from.now to.now parts.old.net)) }
    ensures travels { Travels from.now to.now parts.old parts.new }
{
    let Some(sealed) = parts.net.deliver(from, to) else {
        return Ok(false);
    };
    accept_at(&mut parts.sites, alloc, to, &sealed)?;
    Ok(true)
}

/// A site takes in all that is on the way to it from another one.
pub(crate) fn deliver_all(
    parts: &mut WorldParts,
    alloc: Global,
    from: &SiteName,
    to: &SiteName,
) -> Result<(), NoMemory>
    requires { HasDirection parts.old.net from.now to.now }
    ensures ok { OnOk result (parts.new ≡ world_deliver from.now to.now parts.old) }
    ensures travels { Travels from.now to.now parts.old parts.new }
{
    'packets: loop {
        if !deliver_one(parts, alloc, from, to)? {
            return Ok(());
        }
    }
}
