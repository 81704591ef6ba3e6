//! What the receiver does with the calls that came, and what it tells of it.
ghost use Rattle.std.specs.Prelude.{◌≡◌, ◌++◌, ◌<◌, ◌≤◌, ◌+◌, ◌∷◌, true, Some, length, drop, is_some, OnOk};
ghost use Rattle.report_text.specs.Sheet.{most_line};
ghost use Rattle.site_state.specs.Rounds.{sender_names};
ghost use Rattle.world_state.specs.Procs.{proc_of};
ghost use Rattle.world_state.specs.CallPushes.{proc_until_quiet, calls_until_quiet};
ghost use Rattle.world.specs.Calling.{CallsPushInPart};
ghost use Rattle.world_calls.specs.Applying.{told_calls_text, PartlyPassed};

use proc_calls::ProcSite;
use rep_lists::NoMemory;
use rep_values::SiteName;
use report_text::{Lines, PushCount, push_calls_line};
use site_rounds::{add_new_errors, finished_by_newest};
use std::alloc::Global;
use world::{Procs, proc_place_of};

/// The site that is pushed to, and how many positions were sent to it.
#[derive(Clone, Copy)]
pub(crate) struct Pushed {
    pub from: SiteName,
    pub to: SiteName,
    pub sent: u64,
}

/// The sender at a place that has one.
fn sender_at(site: &ProcSite, place: usize) -> &SiteName
    requires { place < length site.now.senders }
    ensures { drop place (sender_names site.now.senders) ≡ result.now ∷ drop (place + 1) (sender_names site.now.senders) }
{
    match site.sender(place) {
        Some(origin) => origin,
        None => unreachable!(),
    }
}

/// A pass for the sender that pushed, and then one for each sender. Where there is no memory, some passes are made, or parts of
/// them.
fn apply_calls(site: &mut ProcSite, alloc: Global, origin: &SiteName) -> Result<(), NoMemory>
    ensures ok { OnOk result (site.new ≡ proc_until_quiet origin.now site.old) }
    ensures part { PartlyPassed site.old site.new }
{
    site.pass(alloc, origin)?;
    for place in 0..site.sender_count() {
        let next = *sender_at(site, place);
        site.pass(alloc, &next)?;
    }
    Ok(())
}

/// A receiver applies what came until all is quiet, and tells it. Where there is no memory, some of its passes are made.
fn apply_at_site(
    site: &mut ProcSite,
    alloc: Global,
    lines: &mut Lines,
    pushed: Pushed,
) -> Result<(), NoMemory>
    requires { most_line ≤ lines.old.room }
    ensures ok { OnOk result (site.new ≡ proc_until_quiet pushed.from site.old) }
    ensures text { OnOk result (lines.new.bytes ≡ lines.old.bytes ++ told_calls_text pushed.from pushed.to pushed.sent (Some site.old)) }
    ensures part { PartlyPassed site.old site.new }
{
    let before = site.journal_len();
    apply_calls(site, alloc, &pushed.from)?;
    let passed = finished_by_newest(site, site.journal_len() - before);
    let count = PushCount {
        sent: pushed.sent,
        done: passed.done,
        errors: passed.errors,
        low: site.mark(&pushed.from),
    };
    push_calls_line(lines, pushed.from, pushed.to, count);
    if count.errors == 0 {
        return Ok(());
    }
    add_new_errors(lines, alloc, site, before)?;
    Ok(())
}

/// The receiver applies what came until all is quiet, and tells it. Where there is no memory, some of its passes are made.
pub(crate) fn apply_and_tell(
    procs: &mut Procs,
    alloc: Global,
    lines: &mut Lines,
    pushed: Pushed,
) -> Result<(), NoMemory>
    requires room { most_line ≤ lines.old.room }
    requires there { is_some (proc_of pushed.to procs.old.sites) ≡ true }
    ensures ok { OnOk result (procs.new ≡ calls_until_quiet pushed.from pushed.to procs.old) }
    ensures text { OnOk result (lines.new.bytes ≡ lines.old.bytes ++ told_calls_text pushed.from pushed.to pushed.sent (proc_of pushed.to procs.old.sites)) }
    ensures part { CallsPushInPart pushed.from pushed.to procs.old procs.new }
{
    let Some(place) = proc_place_of(&procs.sites, &pushed.to) else {
        unreachable!()
    };
    let site = &mut procs.sites[place];
    apply_at_site(site, alloc, lines, pushed)?;
    Ok(())
}
