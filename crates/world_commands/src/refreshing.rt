//! Refreshes of snapshot sites, and purges of logs.
ghost use Rattle.std.specs.Prelude.{◌≡◌, ◌≤◌, ◌<◌, Some, None, IfOk, OnOk, OnErr};
ghost use Rattle.report_text.specs.Sheet.{Appends, most_line};
ghost use Rattle.site_state.specs.Contents.{tables_of};
ghost use Rattle.site_state.specs.Refreshes.{refresh_complete_answer};
ghost use Rattle.site_events.specs.Rules.{rows_ruled, refresh_ruled_answer, HaveNoParents};
ghost use Rattle.world_state.specs.Refusals.{young_step, log_step};
ghost use Rattle.world_state.specs.Answers.{goes_by_logs, refresh_told, refresh_answer};
ghost use Rattle.world_state.specs.Steps.{world_refresh};
ghost use Rattle.world_laws.specs.Sites.{CanRefreshFrom};
ghost use Rattle.world.specs.Following.{IsBuilt};
ghost use Rattle.world.specs.Precheck.{precheck_refusal};
ghost use Rattle.world.specs.Texts.{refreshed_text};
ghost use Rattle.world.specs.Doing.{DoesAnywhere};
ghost use Rattle.world_commands.specs.Refreshing.{CanRefreshAt, refreshed_by, refreshed_at, refresh_told_at, told_of};

use crate::ruled::{have_parents, rows_of_each, rows_of_each_by_logs};
use change_logs::Notes;
use event_laws::queries_are_rules;
use page_tables::PageTables;
use refreshes::CountedView;
use rep_lists::NoMemory;
use rep_schema::RowStore;
use rep_values::{SiteName, TableName};
use report_text::{Lines, purge_log_line, refresh_complete_line, refresh_fast_line};
use schema_names::table_place;
use script_parse::{Command, Refresh};
use site_engine::Site;
use site_state::RefreshCount;
use std::alloc::Global;
use world::{
    Answer, CommandStop, Outcome, WorldParts, master_of, place_of, room_for_line, young_step,
};

/// What a refresh tells: whether it went by the logs, how many keys it looked up, and how many rows the snapshots have.
#[derive(Drop)]
struct Told {
    by_logs: bool,
    count: RefreshCount,
}

/// Whether a refresh goes by the logs: where it is asked to, or where they reach back far enough.
fn goes_by_logs(how: Refresh, logs: &Notes, snapshots: &Notes) -> bool
    ensures { result ≡ goes_by_logs how logs.now.logs snapshots.now.snapshots }
{
    match how {
        Refresh::Fast => true,
        Refresh::Complete => false,
        Refresh::Force => young_step(logs, snapshots).is_none(),
    }
}

/// Refreshes a site by its master's logs, where no snapshot has a parent.
fn refresh_by_keys(
    site: &mut Site<PageTables>,
    alloc: Global,
    master: &Site<PageTables>,
) -> Result<RefreshCount, NoMemory>
    requires can { CanRefreshFrom master.now site.old }
    requires reach { young_step master.now.logs site.old.snapshots ≡ None }
    requires none { HaveNoParents site.old.snapshots }
    ensures ok { OnOk result (site.new ≡ refreshed_by master.now site.old) }
    ensures count { IfOk result (λ count. count ≡ refresh_ruled_answer master.now.logs (rows_ruled site.old.schema (tables_of master.now) site.old.snapshots) site.old) }
    ensures kept { OnErr result (site.new ≡ site.old) }
{
    queries_are_rules();
    let mut view = CountedView::of(master.store());
    let count = site.refresh_fast_from(alloc, &mut view, master.notes(), master.moment())?;
    Ok(count)
}

/// Refreshes a site by its master's logs, where snapshots may have parents.
fn refresh_by_rules(
    site: &mut Site<PageTables>,
    alloc: Global,
    master: &Site<PageTables>,
) -> Result<RefreshCount, NoMemory>
    requires can { CanRefreshFrom master.now site.old }
    requires reach { young_step master.now.logs site.old.snapshots ≡ None }
    ensures ok { OnOk result (site.new ≡ refreshed_by master.now site.old) }
    ensures count { IfOk result (λ count. count ≡ refresh_ruled_answer master.now.logs (rows_ruled site.old.schema (tables_of master.now) site.old.snapshots) site.old) }
    ensures kept { OnErr result (site.new ≡ site.old) }
{
    let made = rows_of_each_by_logs(
        alloc,
        site.notes(),
        site.store(),
        master.store(),
        master.notes(),
    )?;
    let count = site.refresh_complete_from(alloc, made.rows.as_slice(), master.moment())?;
    Ok(RefreshCount {
        keys: made.looked_up,
        rows: count.rows,
    })
}

/// Refreshes a site by its master's logs.
fn refresh_fast(
    site: &mut Site<PageTables>,
    alloc: Global,
    master: &Site<PageTables>,
) -> Result<RefreshCount, NoMemory>
    requires can { CanRefreshFrom master.now site.old }
    requires reach { young_step master.now.logs site.old.snapshots ≡ None }
    ensures ok { OnOk result (site.new ≡ refreshed_by master.now site.old) }
    ensures count { IfOk result (λ count. count ≡ refresh_ruled_answer master.now.logs (rows_ruled site.old.schema (tables_of master.now) site.old.snapshots) site.old) }
    ensures kept { OnErr result (site.new ≡ site.old) }
{
    if have_parents(site.notes()) {
        refresh_by_rules(site, alloc, master)
    } else {
        refresh_by_keys(site, alloc, master)
    }
}

/// Refreshes a site by what its snapshots pick of its master's tables.
fn refresh_complete(
    site: &mut Site<PageTables>,
    alloc: Global,
    master: &Site<PageTables>,
) -> Result<RefreshCount, NoMemory>
    requires { CanRefreshFrom master.now site.old }
    ensures ok { OnOk result (site.new ≡ refreshed_by master.now site.old) }
    ensures count { IfOk result (λ count. count ≡ refresh_complete_answer (rows_ruled site.old.schema (tables_of master.now) site.old.snapshots)) }
    ensures kept { OnErr result (site.new ≡ site.old) }
{
    let rows = rows_of_each(alloc, site.notes(), master.store())?;
    let count = site.refresh_complete_from(alloc, rows.as_slice(), master.moment())?;
    Ok(count)
}

/// Refreshes a site from its master.
fn refresh_from(
    site: &mut Site<PageTables>,
    alloc: Global,
    master: &Site<PageTables>,
    how: Refresh,
) -> Result<Told, NoMemory>
    requires can { CanRefreshFrom master.now site.old }
    requires reach { log_step how master.now.logs site.old.snapshots ≡ None }
    ensures ok { OnOk result (site.new ≡ refreshed_by master.now site.old) }
    ensures told { IfOk result (λ told. told_of told ≡ refresh_told how site.old master.now) }
    ensures kept { OnErr result (site.new ≡ site.old) }
{
    let by_logs = goes_by_logs(how, master.notes(), site.notes());
    let count = if by_logs {
        refresh_fast(site, alloc, master)?
    } else {
        refresh_complete(site, alloc, master)?
    };
    Ok(Told { by_logs, count })
}

/// Refreshes a site from a master that stands behind it.
fn refresh_in_front(
    sites: &mut [Site<PageTables>],
    alloc: Global,
    place: usize,
    master: usize,
    how: Refresh,
) -> Result<Told, NoMemory>
    requires order { place < master }
    requires can { CanRefreshAt how sites.old place master }
    ensures ok { OnOk result (sites.new ≡ refreshed_at sites.old place master) }
    ensures told { IfOk result (λ told. refresh_told_at how sites.old place master ≡ Some (told_of told)) }
    ensures kept { OnErr result (sites.new ≡ sites.old) }
{
    let (front, back) = sites.split_at_mut(master);
    let told = refresh_from(&mut front[place], alloc, &back[0], how)?;
    Ok(told)
}

/// Refreshes a site from a master that stands before it.
fn refresh_behind(
    sites: &mut [Site<PageTables>],
    alloc: Global,
    place: usize,
    master: usize,
    how: Refresh,
) -> Result<Told, NoMemory>
    requires order { master < place }
    requires can { CanRefreshAt how sites.old place master }
    ensures ok { OnOk result (sites.new ≡ refreshed_at sites.old place master) }
    ensures told { IfOk result (λ told. refresh_told_at how sites.old place master ≡ Some (told_of told)) }
    ensures kept { OnErr result (sites.new ≡ sites.old) }
{
    let (front, back) = sites.split_at_mut(place);
    let told = refresh_from(&mut back[0], alloc, &front[master], how)?;
    Ok(told)
}

/// Refreshes the site at a place from the master at another one.
fn refresh_at(
    sites: &mut [Site<PageTables>],
    alloc: Global,
    place: usize,
    master: usize,
    how: Refresh,
) -> Result<Told, NoMemory>
    requires { CanRefreshAt how sites.old place master }
    ensures ok { OnOk result (sites.new ≡ refreshed_at sites.old place master) }
    ensures told { IfOk result (λ told. refresh_told_at how sites.old place master ≡ Some (told_of told)) }
    ensures kept { OnErr result (sites.new ≡ sites.old) }
{
    if place < master {
        refresh_in_front(sites, alloc, place, master, how)
    } else {
        refresh_behind(sites, alloc, place, master, how)
    }
}

/// Refreshes a site of a world.
fn refresh_site(
    parts: &mut WorldParts,
    alloc: Global,
    site: &SiteName,
    how: Refresh,
) -> Result<Told, NoMemory>
    requires built { IsBuilt parts.old }
    requires passes { precheck_refusal (Command.Refresh site.now how) parts.old ≡ None }
    ensures ok { OnOk result (parts.new ≡ world_refresh site.now parts.old) }
    ensures told { IfOk result (λ told. refresh_answer site.now how parts.old ≡ Some (told_of told)) }
    ensures kept { OnErr result (parts.new ≡ parts.old) }
{
    let Some(place) = place_of(&parts.sites, site) else {
        unreachable!()
    };
    let Some(master) = master_of(parts.store.schema(), site) else {
        unreachable!()
    };
    let Some(there) = place_of(&parts.sites, &master) else {
        unreachable!()
    };
    let told = refresh_at(&mut parts.sites, alloc, place, there, how)?;
    Ok(told)
}

/// The line of a refresh.
fn put_told(lines: &mut Lines, site: SiteName, told: &Told)
    requires { most_line ≤ lines.old.room }
    ensures { Appends lines.old lines.new (refreshed_text site (Some (told_of told.now))) }
{
    let count = told.count;
    if told.by_logs {
        refresh_fast_line(lines, site, count.keys, count.rows);
    } else {
        refresh_complete_line(lines, site, count.rows);
    }
}

/// `refresh`
pub fn refresh(
    parts: &mut WorldParts,
    alloc: Global,
    site: &SiteName,
    how: Refresh,
) -> Result<Answer, CommandStop>
    requires built { IsBuilt parts.old }
    requires passes { precheck_refusal (Command.Refresh site.now how) parts.old ≡ None }
    ensures { DoesAnywhere (Command.Refresh site.now how) parts.old parts.new result }
{
    let Ok(mut lines) = room_for_line(alloc) else {
        return Err(CommandStop::Memory);
    };
    let Ok(told) = refresh_site(parts, alloc, site, how) else {
        return Err(CommandStop::Memory);
    };
    put_told(&mut lines, *site, &told);
    Ok(Answer {
        lines,
        outcome: Outcome::Done,
    })
}

/// `purge-log`
pub fn purge_log(
    parts: &mut WorldParts,
    alloc: Global,
    master: &SiteName,
    table: &TableName,
) -> Result<Answer, CommandStop>
    requires built { IsBuilt parts.old }
    requires passes { precheck_refusal (Command.PurgeLog master.now table.now) parts.old ≡ None }
    ensures { DoesAnywhere (Command.PurgeLog master.now table.now) parts.old parts.new result }
{
    let Ok(mut lines) = room_for_line(alloc) else {
        return Err(CommandStop::Memory);
    };
    let Some(place) = place_of(&parts.sites, master) else {
        unreachable!()
    };
    let schema = parts.store.schema();
    let Some(number) = table_place(schema.tables.as_slice(), table) else {
        unreachable!()
    };
    let count = parts.sites[place].purge_log(number as u32);
    purge_log_line(&mut lines, *master, *table, count);
    Ok(Answer {
        lines,
        outcome: Outcome::Done,
    })
}
