//! Positions that are evaluated away from the site, and the order of its journal.
ghost use Rattle.std.specs.Prelude.{IfSome};
ghost use Rattle.journal_sort.specs.Sorting.{IsFinishOf};

use case_reader::CaseStop;
use rep_schema::RowStore;
use rep_values::SiteName;
use row_tables::ListTables;
use schema_names::is_master_site;
use schema_rules::check;
use site_engine::{Site, outcomes_hold_where_rows_are_as_they_were};
use site_state::{Applied, Entry};
use std::alloc::Global;

/// What becomes of a position of which a work is made.
pub enum WorkAnswer {
    Applied(Applied),
    /// It touches a constraint, so no work is made of it.
    Unique,
}

/// Applies a position as its work ends, which is evaluated on copies of the rows that it names.
pub fn apply_by_work(
    alloc: Global,
    site: &mut Site<ListTables>,
    origin: &SiteName,
    position: u64,
) -> Result<WorkAnswer, CaseStop> {
    let Ok(()) = check(site.store().schema()) else {
        return Err(CaseStop::NoCase);
    };
    if let Some(why) = site.stale(origin, position) {
        return Ok(WorkAnswer::Applied(Applied::Stale(why)));
    }
    if site.has_unique(origin, position) {
        return Ok(WorkAnswer::Unique);
    }
    let work = site.begin(alloc, origin, position)?;
    let outcome = work.evaluate(alloc)?;
    outcomes_hold_where_rows_are_as_they_were();
    let applied = site.install(alloc, outcome)?;
    Ok(WorkAnswer::Applied(applied))
}

/// The origin of the position that an entry finishes.
fn finished_origin(entry: &Entry) -> Option<SiteName>
    ensures { IfSome result (λ origin. IsFinishOf origin entry.now) }
{
    match entry {
        Entry::Done { origin, .. } | Entry::Error { origin, .. } => Some(*origin),
        Entry::Local { .. }
        | Entry::Executed { .. }
        | Entry::Dropped { .. }
        | Entry::Refreshed { .. } => None,
    }
}

/// Sorts the journal's newest entry, and tells whether it finishes a position of a master: else it isn't sorted.
pub fn settle_newest(alloc: Global, site: &mut Site<ListTables>) -> Result<bool, CaseStop> {
    let Ok(()) = check(site.store().schema()) else {
        return Err(CaseStop::NoCase);
    };
    let count = site.journal_len();
    if count == 0 {
        return Ok(false);
    }
    let newest = count - 1;
    let Some(entry) = site.journal(newest) else {
        return Ok(false);
    };
    let Some(origin) = finished_origin(entry) else {
        return Ok(false);
    };
    if !is_master_site(site.store().schema(), &origin) {
        return Ok(false);
    }
    site.sort_new_entries(alloc, newest)?;
    Ok(true)
}
