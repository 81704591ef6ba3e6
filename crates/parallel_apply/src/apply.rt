//! A pass for a sender by a crew.
ghost use Rattle.std.specs.Prelude.{◌≡◌, ◌+◌, ◌^◌, ◌<◌, ◌≤◌, true, length, IsSome, IfSome, IfOk, IfErr};
ghost use Rattle.rep_laws.specs.Commuting.{IsSound};
ghost use Rattle.site_state.specs.State.{arrivals};
ghost use Rattle.rep_schema.specs.Sites.{is_master_site};
ghost use Rattle.site_state.specs.Steps.{begun};
ghost use Rattle.site_state.specs.Passes.{site_pass};
ghost use Rattle.site_state.specs.Waited.{IsWellNumbered};
ghost use Rattle.event_laws.specs.Confluence.{CanPassInAnyOrder};
ghost use Rattle.parallel_apply.specs.Crews.{IsPartlyApplied, TakesCrew, AnswersCrew};

use crate::claim::appliers_for;
use crate::workers::{Workers, beside_workers};
use rep_io::Watch;
use rep_lists::NoMemory;
use rep_schema::RowStore;
use rep_values::SiteName;
use site_engine::Site;
use std::alloc::Global;
use std::snapshot::Snapshot;
use std::sync::Wait;
use std::thread::Threads;

/// What arrived from a master whose positions are well numbered can be passed in any order.
pub(crate) fn can_pass_in_any_order<R: RowStore>(site: &Site<R>, origin: &SiteName)
    requires sound { IsSound site.now.schema }
    requires master { is_master_site site.now.schema origin.now ≡ true }
    requires numbered { IsWellNumbered site.now.schema (arrivals origin.now site.now) }
    ensures { CanPassInAnyOrder origin.now site.now }
{
    site.laws();
    site.arrivals_can_pass(origin);
}

/// Ends a pass of which a crew made a part: what is still ready is applied, and the journal's order is that of a pass of one.
pub(crate) fn end_pass<R: RowStore>(
    site: Site<R>,
    alloc: Global,
    origin: &SiteName,
    opened: Snapshot<Site<R>>,
    from: u64,
) -> Result<Site<R>, (Site<R>, NoMemory)>
    requires passes { CanPassInAnyOrder origin.now opened.value }
    requires part { IsPartlyApplied origin.now (begun opened.value) site }
    requires from { from ≡ length opened.value.journal }
    ensures ok { IfOk result (λ passed. passed ≡ site_pass origin.now opened.value) }
    ensures err { IfErr result (λ refused. IsPartlyApplied origin.now (begun opened.value) refused.0) }
{
    let _opened = opened;
    let mut site = site;
    if let Err(refused) = site.finish_pass(alloc, origin) {
        return Err((site, refused));
    }
    if let Err(refused) = site.sort_new_entries(alloc, from) {
        return Err((site, refused));
    }
    Ok(site)
}

/// A pass of several appliers for a sender that is a master: the site that comes back is the site after the pass of one. Where
/// there is no memory, some of what was ready is applied, each transaction whole and journalled.
///
/// The schema breaks no rule, and what arrived from the sender is well numbered, as it is at every site of a script's world;
/// there are 1 to 8 appliers. Threads are started for this pass alone, where two positions are ready.
pub fn apply_crew<R: RowStore, X: Threads + Wait + Sync, W: Watch>(
    rt: &X,
    alloc: Global,
    site: Site<R>,
    origin: &SiteName,
    appliers: u32,
    watch: &W,
) -> Result<Site<R>, (Site<R>, NoMemory)>
    requires sound { IsSound site.schema }
    requires master { is_master_site site.schema origin.now ≡ true }
    requires numbered { IsWellNumbered site.schema (arrivals origin.now site) }
    requires few { site.moment + 1 < 2 ^ 64 }
    requires appliers { (1 ≤ appliers) × (appliers ≤ 8) }
    ensures ok { IfOk result (λ passed. passed ≡ site_pass origin.now site) }
    ensures err { IfErr result (λ refused. IsPartlyApplied origin.now (begun site) refused.0) }
{
    let ready = appliers_for(&site, origin, appliers);
    let workers = Workers::new(alloc, ready.max(1));
    let mut waiting = Some(site);
    let mut pass = || -> Result<Site<R>, (Site<R>, NoMemory)>
        requires { IsSome waiting × IfSome waiting (TakesCrew origin.now) }
        ensures { IfSome waiting.entry (λ site. AnswersCrew origin.entry.now site result) }
    {
        let Some(site) = waiting.take() else {
            unreachable!()
        };
        workers.pass(rt, alloc, site, origin, watch)
    };
    beside_workers(rt, alloc, &workers, watch, &mut pass)
}
