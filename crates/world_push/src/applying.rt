//! What the receiver does with what came, and what it tells of it.
ghost use Rattle.std.specs.Prelude.{◌≡◌, ◌++◌, ◌<◌, ◌≤◌, true, length, IfOk, OnOk, vec_capacity};
ghost use Rattle.std.specs.List.{insert};
ghost use Rattle.report_text.specs.Sheet.{most_line};
ghost use Rattle.site_events.specs.Cluster.{site_of};
ghost use Rattle.world_state.specs.World.{is_there};
ghost use Rattle.site_state.specs.Rounds.{site_until_quiet};
ghost use Rattle.world_state.specs.Pushes.{world_until_quiet};
ghost use Rattle.world_state.specs.PushAnswers.{count_in};
ghost use Rattle.world.specs.Following.{PushesInPart};
ghost use Rattle.site_rounds.specs.Parts.{MastersCanPass};
ghost use Rattle.world_push.specs.Applying.{told_text, IsApplying, CanApplyThere};

use page_tables::PageTables;
use rep_lists::NoMemory;
use rep_values::SiteName;
use report_text::{Lines, PushCount, push_line};
use site_engine::Site;
use site_rounds::{Passing, add_new_errors, apply_until_quiet};
use std::alloc::Global;
use world::{WorldParts, place_of};

/// The site that is pushed to, and how many positions were sent to it.
#[derive(Clone, Copy)]
pub(crate) struct Pushed {
    pub from: SiteName,
    pub to: SiteName,
    pub sent: u64,
}

/// A receiver applies what came until all is quiet, and tells it. Where there is no memory, some of its passes are made.
fn apply_at_site<P: Passing>(
    site: Site<PageTables>,
    alloc: Global,
    passing: &P,
    lines: &mut Lines,
    pushed: Pushed,
) -> (Site<PageTables>, Result<PushCount, NoMemory>)
    requires room { most_line ≤ lines.old.room }
    requires able { P.able passing.now }
    requires masters { MastersCanPass site }
    ensures ok { OnOk result.1 (result.0 ≡ site_until_quiet pushed.from site) }
    ensures text { OnOk result.1 (lines.new.bytes ≡ lines.old.bytes ++ told_text pushed.from pushed.to pushed.sent (Some site)) }
    ensures count { IfOk result.1 (λ count. count ≡ count_in pushed.sent pushed.from (Some site)) }
    ensures applying { IsApplying pushed.from site result.0 }
{
    let before = site.journal_len();
    let (site, passed) = match apply_until_quiet(alloc, passing, site, &pushed.from) {
        Ok(made) => made,
        Err((site, NoMemory)) => return (site, Err(NoMemory)),
    };
    let count = PushCount {
        sent: pushed.sent,
        done: passed.done,
        errors: passed.errors,
        low: site.mark(&pushed.from),
    };
    push_line(lines, pushed.from, pushed.to, count);
    if count.errors == 0 {
        return (site, Ok(count));
    }
    match add_new_errors(lines, alloc, &site, before) {
        Ok(()) => (site, Ok(count)),
        Err(NoMemory) => (site, Err(NoMemory)),
    }
}

/// A site is put back at the place from which it was taken. There is room for it.
fn put_back(sites: &mut Vec<Site<PageTables>>, place: usize, site: Site<PageTables>)
    requires place { place ≤ length sites.old.items }
    requires room { length sites.old.items < vec_capacity sites.old }
    ensures { sites.new.items ≡ insert sites.old.items place site }
{
    let _ = sites.insert(place, site);
}

/// The receiver applies what came until all is quiet, and tells it. Where there is no memory, some of its passes are made.
pub(crate) fn apply_and_tell<P: Passing>(
    parts: &mut WorldParts,
    alloc: Global,
    passing: &P,
    lines: &mut Lines,
    pushed: Pushed,
) -> Result<PushCount, NoMemory>
    requires room { most_line ≤ lines.old.room }
    requires able { P.able passing.now }
    requires there { is_there parts.old pushed.to ≡ true }
    requires masters { CanApplyThere pushed.to parts.old }
    ensures ok { OnOk result (parts.new ≡ world_until_quiet pushed.from pushed.to parts.old) }
    ensures text { OnOk result (lines.new.bytes ≡ lines.old.bytes ++ told_text pushed.from pushed.to pushed.sent (site_of pushed.to parts.old.sites)) }
    ensures count { IfOk result (λ count. count ≡ count_in pushed.sent pushed.from (site_of pushed.to parts.old.sites)) }
    ensures part { PushesInPart pushed.from pushed.to parts.old parts.new }
{
    let Some(place) = place_of(&parts.sites, &pushed.to) else {
        unreachable!()
    };
    let site = parts.sites.remove(place);
    let (site, told) = apply_at_site(site, alloc, passing, lines, pushed);
    put_back(&mut parts.sites, place, site);
    told
}
