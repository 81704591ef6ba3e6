//! A late master that joins.
ghost use Rattle.std.specs.Prelude.{◌≡◌, ◌+◌, ◌≤◌, ◌∷◌, ◌++◌, true, [], length, map, take, drop, vec_len, None, IfOk, OnOk, OnErr};
ghost use Rattle.rep_schema.specs.Sites.{is_master_site};
ghost use Rattle.site_state.specs.Making.{master_here};
ghost use Rattle.site_state.specs.Joining.{site_open, site_copy};
ghost use Rattle.site_events.specs.Joins.{count_at, queue_counts, open_to_each, copied};
ghost use Rattle.world_state.specs.Answers.{row_count, join_count};
ghost use Rattle.world.specs.Following.{IsBuilt};
ghost use Rattle.world.specs.Precheck.{precheck_refusal};
ghost use Rattle.world.specs.Doing.{DoesAnywhere};
ghost use Rattle.world_commands.specs.Joining.{world_join};

use master_join::copy_site;
use page_tables::PageTables;
use rep_calls::PastEntry;
use rep_lists::{Copies, Items, NoMemory};
use rep_schema::RowStore;
use rep_values::SiteName;
use report_text::join_line;
use schema_names::{destinations_of, senders_of};
use script_parse::Command;
use site_engine::Site;
use site_making::master_here;
use std::alloc::Global;
use world::{Answer, CommandStop, Outcome, WorldParts, place_of, room_for_line};

/// A sum. One that its type can't hold, which so many rows never make, is answered as want of memory.
fn added(rows: u64, more: u64) -> Result<u64, NoMemory>
    ensures { IfOk result (λ sum. sum ≡ rows + more) }
{
    let sum = rows.checked_add(more).ok_or(NoMemory)?;
    Ok(sum)
}

/// How many rows a store of at most 32 tables has.
fn row_count(store: &PageTables) -> Result<u64, NoMemory>
    requires { length store.now.schema.tables ≤ 32 }
    ensures { IfOk result (λ rows. rows ≡ row_count store.now.tables) }
{
    let mut rows: u64 = 0;
    for table in 0..store.schema().tables.len() {
        rows = added(rows, store.count(table as u32))?;
    }
    Ok(rows)
}

/// A site's name, and how much it has queued.
fn count_at(site: &Site<PageTables>) -> PastEntry
    ensures { result ≡ count_at site.now }
{
    PastEntry {
        origin: *site.name(),
        number: site.queue_count(),
    }
}

/// How much each master has queued.
fn queue_counts(alloc: Global, sites: &[Site<PageTables>]) -> Result<Items<PastEntry>, NoMemory>
    ensures { IfOk result (λ counts. counts ≡ queue_counts sites.now) }
{
    let mut counts = Items::new(alloc);
    for other in sites {
        if other.is_master() {
            counts.push(count_at(other))?;
        }
    }
    Ok(counts)
}

/// Opens a site to each of these that it has as a destination.
fn open_to_each(site: &mut Site<PageTables>, others: &[Site<PageTables>])
    ensures { site.new ≡ open_to_each others.now site.old }
{
    for other in others {
        site.open_to(other.name());
    }
}

/// A master of a name that begins as a copy of another one, with these first numbers.
fn first_copy(
    alloc: Global,
    source: &Site<PageTables>,
    site: &SiteName,
    firsts: &[PastEntry],
) -> Result<Site<PageTables>, NoMemory>
    requires { is_master_site source.now.schema site.now ≡ true }
    ensures { IfOk result (λ first. first ≡ site_copy source.now (master_here source.now.schema site.now) firsts.now) }
{
    let schema = source.store().schema();
    let store = PageTables::make(alloc, schema.copy(alloc)?)?;
    let here = master_here(schema, *site);
    let senders = senders_of(alloc, schema, &here.site)?;
    let destinations = destinations_of(alloc, schema, &here.site)?;
    let first = copy_site(
        alloc,
        source,
        store,
        here,
        senders.as_slice(),
        destinations.as_slice(),
        firsts,
    )?;
    Ok(first)
}

/// A late master as a copy of another one, open to all that are there.
fn copied(
    alloc: Global,
    sites: &[Site<PageTables>],
    source: &Site<PageTables>,
    site: &SiteName,
) -> Result<Site<PageTables>, NoMemory>
    requires { is_master_site source.now.schema site.now ≡ true }
    ensures { IfOk result (λ made. made ≡ copied sites.now source.now site.now) }
{
    let firsts = queue_counts(alloc, sites)?;
    let mut made = first_copy(alloc, source, site, firsts.as_slice())?;
    open_to_each(&mut made, sites);
    Ok(made)
}

/// Opens the first ones of the sites, so many, to a site that they have as a destination.
fn open_first(sites: &mut Vec<Site<PageTables>>, count: usize, site: &SiteName)
    requires { count ≤ vec_len sites.old }
    ensures { sites.new.items ≡ map (site_open site.now) (take count sites.old.items) ++ drop count sites.old.items }
{
    for place in 0..count {
        sites[place].open_to(site);
    }
}

/// Puts a site behind the others, and opens these to it.
fn add_site(
    sites: &mut Vec<Site<PageTables>>,
    made: Site<PageTables>,
    site: &SiteName,
) -> Result<(), NoMemory>
    ensures ok { OnOk result (sites.new.items ≡ map (site_open site.now) sites.old.items ++ made ∷ []) }
    ensures kept { OnErr result (sites.new.items ≡ sites.old.items) }
{
    let count = sites.len();
    // What follows can't fail.
    sites.push(made)?;
    open_first(sites, count, site);
    Ok(())
}

/// A late master joins as a copy of another one. How many rows it takes over is answered.
fn join_site(
    parts: &mut WorldParts,
    alloc: Global,
    site: &SiteName,
    source: &SiteName,
) -> Result<u64, NoMemory>
    requires built { IsBuilt parts.old }
    requires passes { precheck_refusal (Command.Join site.now source.now) parts.old ≡ None }
    ensures ok { OnOk result (parts.new ≡ world_join site.now source.now parts.old) }
    ensures rows { IfOk result (λ rows. rows ≡ join_count source.now parts.old) }
    ensures kept { OnErr result (parts.new ≡ parts.old) }
{
    let Some(place) = place_of(&parts.sites, source) else {
        unreachable!()
    };
    let from = &parts.sites[place];
    let rows = row_count(from.store())?;
    let made = copied(alloc, &parts.sites, from, site)?;
    add_site(&mut parts.sites, made, site)?;
    Ok(rows)
}

/// `join`
pub fn join(
    parts: &mut WorldParts,
    alloc: Global,
    site: &SiteName,
    source: &SiteName,
) -> Result<Answer, CommandStop>
    requires built { IsBuilt parts.old }
    requires passes { precheck_refusal (Command.Join site.now source.now) parts.old ≡ None }
    ensures { DoesAnywhere (Command.Join site.now source.now) parts.old parts.new result }
{
    let Ok(mut lines) = room_for_line(alloc) else {
        return Err(CommandStop::Memory);
    };
    let Ok(rows) = join_site(parts, alloc, site, source) else {
        return Err(CommandStop::Memory);
    };
    join_line(&mut lines, *site, *source, rows);
    Ok(Answer {
        lines,
        outcome: Outcome::Done,
    })
}
