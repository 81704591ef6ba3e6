//! What is shown of a site.
ghost use Rattle.std.specs.Prelude.{◌≡◌, ◌++◌, None, filter, IfOk, OnOk};
ghost use Rattle.site_events.specs.Cluster.{site_of};
ghost use Rattle.world_state.specs.World.{is_there};
ghost use Rattle.world_state.specs.Procs.{proc_of};
ghost use Rattle.world.specs.Precheck.{precheck_refusal};
ghost use Rattle.world.specs.Texts.{senders_there, destinations_there, shown_text, shown_found, shown_calls, show_text};
ghost use Rattle.world.specs.Doing.{DoesAnywhere};

use page_tables::PageTables;
use proc_calls::ProcSite;
use rep_lists::{Items, NoMemory};
use rep_schema::RowStore;
use rep_values::SiteName;
use report_text::{Lines, add_proc_tables, add_tables};
use schema_names::{destinations_of, senders_of};
use script_parse::{Command, Shown};
use site_engine::Site;
use site_report::{add_errors, add_journal, add_log, add_marks, add_queue};
use std::alloc::Global;
use world::{Answer, CommandStop, Outcome, WorldParts, place_of, proc_place_of};

/// Those of some sites that are there.
fn those_there(
    parts: &WorldParts,
    alloc: Global,
    names: &[SiteName],
) -> Result<Items<SiteName>, NoMemory>
    ensures { IfOk result (λ there. there ≡ filter (is_there parts.now) names.now) }
{
    let mut there = Items::new(alloc);
    for name in names {
        if parts.is_there(name) {
            there.push(*name)?;
        }
    }
    Ok(there)
}

/// The senders of a site that are there, as declared.
fn senders_there(
    parts: &WorldParts,
    alloc: Global,
    site: &SiteName,
) -> Result<Items<SiteName>, NoMemory>
    ensures { IfOk result (λ there. there ≡ senders_there parts.now site.now) }
{
    let senders = senders_of(alloc, parts.store.schema(), site)?;
    those_there(parts, alloc, senders.as_slice())
}

/// The destinations of a site that are there, as declared.
fn destinations_there(
    parts: &WorldParts,
    alloc: Global,
    site: &SiteName,
) -> Result<Items<SiteName>, NoMemory>
    ensures { IfOk result (λ there. there ≡ destinations_there parts.now site.now) }
{
    let destinations = destinations_of(alloc, parts.store.schema(), site)?;
    those_there(parts, alloc, destinations.as_slice())
}

/// The queue of a site.
fn add_queue_there(
    lines: &mut Lines,
    alloc: Global,
    parts: &WorldParts,
    name: &SiteName,
    site: &Site<PageTables>,
) -> Result<(), NoMemory>
    ensures { OnOk result (lines.new.bytes ≡ lines.old.bytes ++ shown_text Shown.Queue name.now site.now parts.now) }
{
    let destinations = destinations_there(parts, alloc, name)?;
    add_queue(lines, name, destinations.as_slice(), site)?;
    Ok(())
}

/// The marks of a site.
fn add_marks_there(
    lines: &mut Lines,
    alloc: Global,
    parts: &WorldParts,
    name: &SiteName,
    site: &Site<PageTables>,
) -> Result<(), NoMemory>
    ensures { OnOk result (lines.new.bytes ≡ lines.old.bytes ++ shown_text Shown.Marks name.now site.now parts.now) }
{
    let senders = senders_there(parts, alloc, name)?;
    let destinations = destinations_there(parts, alloc, name)?;
    add_marks(
        lines,
        name,
        senders.as_slice(),
        destinations.as_slice(),
        site,
    )?;
    Ok(())
}

/// What is shown of a site; its tables of procedures stand elsewhere.
fn add_shown(
    lines: &mut Lines,
    alloc: Global,
    parts: &WorldParts,
    what: Shown,
    name: &SiteName,
    site: &Site<PageTables>,
) -> Result<(), NoMemory>
    ensures { OnOk result (lines.new.bytes ≡ lines.old.bytes ++ shown_text what name.now site.now parts.now) }
{
    match what {
        Shown::Tables => add_tables(lines, *name, site.held(), site.store()),
        Shown::Queue => add_queue_there(lines, alloc, parts, name, site),
        Shown::Errors => add_errors(lines, name, site),
        Shown::Marks => add_marks_there(lines, alloc, parts, name, site),
        Shown::Journal => add_journal(lines, name, site),
        Shown::Log => add_log(lines, name, site),
        Shown::Calls => Ok(()),
    }
}

/// What is shown of the site of a name, where it is there.
fn add_found(
    lines: &mut Lines,
    alloc: Global,
    parts: &WorldParts,
    what: Shown,
    name: &SiteName,
) -> Result<(), NoMemory>
    ensures { OnOk result (lines.new.bytes ≡ lines.old.bytes ++ shown_found what name.now (site_of name.now parts.now.sites) parts.now) }
{
    let Some(place) = place_of(&parts.sites, name) else {
        return Ok(());
    };
    let site = &parts.sites[place];
    add_shown(lines, alloc, parts, what, name, site)?;
    Ok(())
}

/// The tables of procedures of the site of a name, where it holds them.
#[tactic(auto, using(crate::proofs::FewTables::few_tables))]
fn add_calls(lines: &mut Lines, sites: &[ProcSite], name: &SiteName) -> Result<(), NoMemory>
    ensures { OnOk result (lines.new.bytes ≡ lines.old.bytes ++ shown_calls name.now (proc_of name.now sites.now)) }
{
    let Some(place) = proc_place_of(sites, name) else {
        return Ok(());
    };
    let site = &sites[place];
    site.laws();
    add_proc_tables(lines, *name, site.store())?;
    Ok(())
}

/// What a line shows.
fn add_line(
    lines: &mut Lines,
    alloc: Global,
    parts: &WorldParts,
    what: Shown,
    name: &SiteName,
) -> Result<(), NoMemory>
    ensures { OnOk result (lines.new.bytes ≡ lines.old.bytes ++ show_text what name.now parts.now) }
{
    match what {
        Shown::Tables | Shown::Queue | Shown::Errors | Shown::Marks | Shown::Journal | Shown::Log =>
            add_found(lines, alloc, parts, what, name),
        Shown::Calls => add_calls(lines, &parts.procs.sites, name),
    }
}

/// `show`
pub fn show(
    parts: &WorldParts,
    alloc: Global,
    what: Shown,
    site: &SiteName,
) -> Result<Answer, CommandStop>
    requires { precheck_refusal (Command.Show what site.now) parts.now ≡ None }
    ensures { DoesAnywhere (Command.Show what site.now) parts.now parts.now result }
{
    let mut lines = Lines::make(alloc);
    let Ok(()) = add_line(&mut lines, alloc, parts, what, site) else {
        return Err(CommandStop::Memory);
    };
    Ok(Answer {
        lines,
        outcome: Outcome::Done,
    })
}
