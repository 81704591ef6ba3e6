//! The mark that goes back.
ghost use Rattle.std.specs.Prelude.{◌≡◌, IfOk, OnOk, OnErr};
ghost use Rattle.net_plan.specs.Directions.{HasDirection};
ghost use Rattle.site_events.specs.Cluster.{site_of};
ghost use Rattle.site_events.specs.Events.{mark_from};
ghost use Rattle.world_state.specs.Pushes.{world_send_mark, world_deliver_mark, world_return_mark};
ghost use Rattle.world.specs.Following.{PushesInPart};

use crate::deliver::deliver_all;
use crate::send::{release, send_some};
use packet_code::Sealed;
use page_tables::PageTables;
use rep_lists::NoMemory;
use rep_values::SiteName;
use site_engine::Site;
use std::alloc::Global;
use world::{WorldParts, place_of};

/// The mark of a site for another one, where the site is there.
fn mark_of(
    sites: &[Site<PageTables>],
    alloc: Global,
    from: &SiteName,
    to: &SiteName,
) -> Result<Option<Sealed>, NoMemory>
    ensures { IfOk result (λ packet. packet ≡ mark_from to.now (site_of from.now sites.now)) }
{
    let Some(place) = place_of(sites, from) else {
        return Ok(None);
    };
    let site = &sites[place];
    let sealed = Sealed::seal_mark(alloc, site.name(), to, site.mark(to))?;
    Ok(Some(sealed))
}

/// The mark for what came from a site is sent to it.
fn send_mark(
    parts: &mut WorldParts,
    alloc: Global,
    from: &SiteName,
    to: &SiteName,
) -> Result<(), NoMemory>
    requires { HasDirection parts.old.net from.now to.now }
    ensures ok { OnOk result (parts.new ≡ world_send_mark from.now to.now parts.old) }
    ensures err { OnErr result (parts.new ≡ parts.old) }
{
    let packet = mark_of(&parts.sites, alloc, from, to)?;
    send_some(parts, alloc, from, to, packet)?;
    Ok(())
}

/// What is held goes before the mark, and all is taken in.
fn deliver_mark(
    parts: &mut WorldParts,
    alloc: Global,
    from: &SiteName,
    to: &SiteName,
) -> Result<(), NoMemory>
    requires { HasDirection parts.old.net from.now to.now }
    ensures ok { OnOk result (parts.new ≡ world_deliver_mark from.now to.now parts.old) }
    ensures part { PushesInPart to.now from.now parts.old parts.new }
{
    release(parts, from, to)?;
    send_mark(parts, alloc, from, to)?;
    deliver_all(parts, alloc, from, to)?;
    Ok(())
}

/// The mark for what came from a site is brought to it, where the direction is up.
pub(crate) fn return_mark(
    parts: &mut WorldParts,
    alloc: Global,
    from: &SiteName,
    to: &SiteName,
) -> Result<(), NoMemory>
    requires { HasDirection parts.old.net from.now to.now }
    ensures ok { OnOk result (parts.new ≡ world_return_mark from.now to.now parts.old) }
    ensures part { PushesInPart to.now from.now parts.old parts.new }
{
    let is_up = parts.net.is_up(from, to);
    if !is_up {
        return Ok(());
    }
    deliver_mark(parts, alloc, from, to)?;
    Ok(())
}
