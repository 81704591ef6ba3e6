//! The mark that goes back.
ghost use Rattle.std.specs.Prelude.{◌≡◌, IfOk, OnOk, OnErr};
ghost use Rattle.net_plan.specs.Directions.{HasDirection};
ghost use Rattle.world_state.specs.Procs.{proc_of};
ghost use Rattle.world_state.specs.CallPushes.{calls_mark_from, calls_send_mark, calls_deliver_mark, calls_return_mark};
ghost use Rattle.world.specs.Calling.{CallsPushInPart};

use crate::deliver::deliver_all;
use crate::outbound::{release, send_some};
use packet_code::Sealed;
use proc_calls::ProcSite;
use rep_lists::NoMemory;
use rep_values::SiteName;
use std::alloc::Global;
use world::{Procs, proc_place_of};

/// The mark of a site for another one, where the site is there.
fn mark_of(
    sites: &[ProcSite],
    alloc: Global,
    from: &SiteName,
    to: &SiteName,
) -> Result<Option<Sealed>, NoMemory>
    ensures { IfOk result (λ packet. packet ≡ calls_mark_from to.now (proc_of from.now sites.now)) }
{
    let Some(place) = proc_place_of(sites, from) else {
        return Ok(None);
    };
    let site = &sites[place];
    let sealed = Sealed::seal_mark(alloc, site.name(), to, site.mark(to))?;
    Ok(Some(sealed))
}

/// The mark for what came from a site is sent to it.
fn send_mark(
    procs: &mut Procs,
    alloc: Global,
    from: &SiteName,
    to: &SiteName,
) -> Result<(), NoMemory>
    requires { HasDirection procs.old.net from.now to.now }
    ensures ok { OnOk result (procs.new ≡ calls_send_mark from.now to.now procs.old) }
    ensures err { OnErr result (procs.new ≡ procs.old) }
{
    let packet = mark_of(&procs.sites, alloc, from, to)?;
    send_some(procs, alloc, from, to, packet)?;
    Ok(())
}

/// What is held goes before the mark, and all is taken in.
fn deliver_mark(
    procs: &mut Procs,
    alloc: Global,
    from: &SiteName,
    to: &SiteName,
) -> Result<(), NoMemory>
    requires { HasDirection procs.old.net from.now to.now }
    ensures ok { OnOk result (procs.new ≡ calls_deliver_mark from.now to.now procs.old) }
    ensures part { CallsPushInPart to.now from.now procs.old procs.new }
{
    release(procs, from, to)?;
    send_mark(procs, alloc, from, to)?;
    deliver_all(procs, alloc, from, to)?;
    Ok(())
}

/// The mark for what came from a site is brought to it, where the link is up.
pub(crate) fn return_mark(
    procs: &mut Procs,
    alloc: Global,
    is_up: bool,
    from: &SiteName,
    to: &SiteName,
) -> Result<(), NoMemory>
    requires { HasDirection procs.old.net from.now to.now }
    ensures ok { OnOk result (procs.new ≡ calls_return_mark is_up from.now to.now procs.old) }
    ensures part { CallsPushInPart to.now from.now procs.old procs.new }
{
    if !is_up {
        return Ok(());
    }
    deliver_mark(procs, alloc, from, to)?;
    Ok(())
}
