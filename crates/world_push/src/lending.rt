//! A master that is lent out for a live part: when it may be, what comes in before, and what goes back behind it.
ghost use Rattle.std.specs.Prelude.{◌≡◌, false, true, None, IfOk, OnOk, OnErr};
ghost use Rattle.net_plan.specs.Directions.{HasDirection};
ghost use Rattle.rep_values.specs.RefusalSteps.{refused};
ghost use Rattle.site_state.specs.Steps.{begun};
ghost use Rattle.site_events.specs.Cluster.{site_of};
ghost use Rattle.site_events.specs.Events.{is_master_in};
ghost use Rattle.world_state.specs.World.{with_site};
ghost use Rattle.world_state.specs.Phases.{is_setup, is_running, has_block};
ghost use Rattle.world.specs.Following.{IsBuilt};
ghost use Rattle.world_push.specs.Lending.{live_phase_step, live_refusal, reaches, reaching, brought_from, live_opened, answered_to, live_closed, PushEachInPart, AreLinkedTo};

use crate::marks::return_mark;
use crate::pushing::send_and_deliver;
use page_tables::PageTables;
use rep_lists::{Items, NoMemory};
use rep_schema::RowStore;
use rep_values::{Refusal, SiteName};
use schema_names::senders_of;
use site_engine::Site;
use std::alloc::Global;
use world::{WorldParts, place_of};
use world_state::Phase;

/// Whether a phase is Running.
fn is_running(phase: Phase) -> bool
    ensures { result ≡ is_running phase }
{
    match phase {
        Phase::Running => true,
        Phase::Setup | Phase::Suspended => false,
    }
}

/// Whether a block is open, of a transaction or of calls.
fn has_block(parts: &WorldParts) -> bool
    ensures { result ≡ has_block parts.now }
{
    parts.block.is_some() || parts.procs.block.is_some()
}

/// Whether the site of a name is there, and a master.
fn is_master_there(sites: &[Site<PageTables>], name: &SiteName) -> bool
    ensures { result ≡ is_master_in (site_of name.now sites.now) }
{
    let Some(place) = place_of(sites, name) else {
        return false;
    };
    sites[place].is_master()
}

/// Why the phase or an open block hinders a live part, if one does.
fn phase_step(parts: &WorldParts) -> Option<Refusal>
    ensures { result ≡ live_phase_step parts.now }
{
    if !is_running(parts.phase) || has_block(parts) {
        Some(Refusal::WrongPhase)
    } else {
        None
    }
}

/// Why the site of a name may not be lent out, if something hinders it. It takes no memory.
pub fn live_refusal(parts: &WorldParts, name: &SiteName) -> Option<Refusal>
    ensures { result ≡ live_refusal name.now parts.now }
{
    if let Some(refusal) = phase_step(parts) {
        return Some(refusal);
    }
    if is_master_there(&parts.sites, name) {
        None
    } else {
        Some(Refusal::UnknownName)
    }
}

/// Whether a master that is there reaches a site.
fn reaches(parts: &WorldParts, name: &SiteName, from: &SiteName) -> bool
    requires { HasDirection parts.now.net from.now name.now }
    ensures { result ≡ reaches name.now parts.now from.now }
{
    is_master_there(&parts.sites, from) && parts.net.is_up(from, name)
}

/// The other masters that reach a master, in declared order.
fn reaching(parts: &WorldParts, alloc: Global, name: &SiteName) -> Result<Items<SiteName>, NoMemory>
    requires built { IsBuilt parts.now }
    requires behind { is_setup parts.now.phase ≡ false }
    ensures { IfOk result (λ names. names ≡ reaching name.now parts.now) }
{
    let senders = senders_of(alloc, parts.store.schema(), name)?;
    let mut names = Items::new(alloc);
    for from in senders.as_slice() {
        if reaches(parts, name, from) {
            names.push(*from)?;
        }
    }
    Ok(names)
}

/// What these sent comes to a site, of one after the other.
fn send_and_deliver_each(
    parts: &mut WorldParts,
    alloc: Global,
    names: &[SiteName],
    name: &SiteName,
) -> Result<(), NoMemory>
    requires { AreLinkedTo names.now name.now parts.old }
    ensures ok { OnOk result (parts.new ≡ brought_from names.now name.now parts.old) }
    ensures part { PushEachInPart names.now name.now parts.old parts.new }
{
    for from in names {
        send_and_deliver(parts, alloc, from, name, None)?;
    }
    Ok(())
}

/// The mark for what came from these goes back to them, to one after the other.
fn return_mark_each(
    parts: &mut WorldParts,
    alloc: Global,
    names: &[SiteName],
    name: &SiteName,
) -> Result<(), NoMemory>
    requires { AreLinkedTo names.now name.now parts.old }
    ensures ok { OnOk result (parts.new ≡ answered_to names.now name.now parts.old) }
    ensures part { PushEachInPart names.now name.now parts.old parts.new }
{
    for to in names {
        return_mark(parts, alloc, name, to)?;
    }
    Ok(())
}

/// A pass begins at the site of a name, if it is there.
fn begin(parts: &mut WorldParts, name: &SiteName) -> Result<(), NoMemory>
    ensures ok { OnOk result (parts.new ≡ with_site name.now begun parts.old) }
    ensures err { OnErr result (parts.new ≡ parts.old) }
{
    let Some(place) = place_of(&parts.sites, name) else {
        return Ok(());
    };
    let site = &mut parts.sites[place];
    // No machine makes so many passes.
    if site.moment() == u64::MAX {
        return Err(NoMemory);
    }
    site.begin_pass();
    Ok(())
}

/// Makes a master ready to be lent out: what is held of the other masters that reach it goes on the way, what it hasn't
/// acknowledged is sent, it takes all in, and a pass begins there. Where there is no memory, some of this may be done, a packet on
/// the way may be lost, and nothing else.
pub fn live_open(parts: &mut WorldParts, alloc: Global, name: &SiteName) -> Result<(), NoMemory>
    requires built { IsBuilt parts.old }
    requires passes { live_refusal name.now parts.old ≡ None }
    ensures ok { OnOk result (parts.new ≡ live_opened name.now parts.old) }
    ensures err { OnErr result (PushEachInPart (reaching name.now parts.old) name.now parts.old parts.new) }
{
    let names = reaching(parts, alloc, name)?;
    send_and_deliver_each(parts, alloc, names.as_slice(), name)?;
    begin(parts, name)
}

/// Sends the mark of a master that was lent out to the other masters that reach it, and lets them take it in, where the way there
/// is up. Where there is no memory, some of this may be done, a packet on the way may be lost, and nothing else.
pub fn live_close(parts: &mut WorldParts, alloc: Global, name: &SiteName) -> Result<(), NoMemory>
    requires built { IsBuilt parts.old }
    requires running { is_running parts.old.phase ≡ true }
    ensures ok { OnOk result (parts.new ≡ live_closed name.now parts.old) }
    ensures part { PushEachInPart (reaching name.now parts.old) name.now parts.old parts.new }
{
    let names = reaching(parts, alloc, name)?;
    return_mark_each(parts, alloc, names.as_slice(), name)
}
