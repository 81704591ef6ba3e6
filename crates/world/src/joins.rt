//! Why a join of a late master is refused.
ghost use Rattle.std.specs.Prelude.{◌≡◌, ◌&&◌, nat_lt, Some};
ghost use Rattle.rep_values.specs.RefusalSteps.{refused, first_refusal};
ghost use Rattle.site_events.specs.Cluster.{site_of};
ghost use Rattle.site_events.specs.Events.{is_master_in};
ghost use Rattle.site_events.specs.Quiet.{is_other_master, last_position_to};
ghost use Rattle.world_state.specs.Refusals.{unquiet_told, unquiet_step, quiet_step};
ghost use Rattle.world.specs.Joining.{unfinished_from};
ghost use Rattle.world.specs.Precheck.{precheck_steps};

use crate::WorldParts;
use crate::parts::place_of;
use master_join::{master_errors, unfinished_of};
use page_tables::PageTables;
use rep_calls::PastEntry;
use rep_schema::{RowStore, SiteEntry};
use rep_values::{Refusal, SiteName};
use schema_names::is_late_master;
use script_parse::Command;
use site_engine::Site;

// Whether a site is a master, and another one than that of a name.
fn is_other_master(name: &SiteName, other: &Site<PageTables>) -> bool
    ensures { result ≡ is_other_master name.now other.now }
{
    other.is_master() && !other.name().is_same(name)
}

// The last position of a site for that of a name.
fn last_position_to(name: &SiteName, other: &Site<PageTables>) -> PastEntry
    ensures { result ≡ last_position_to name.now other.now }
{
    PastEntry {
        origin: *other.name(),
        number: other.last_sent(name),
    }
}

// How many positions of another master aren't finished at a site.
fn unfinished_from(site: &Site<PageTables>, other: &Site<PageTables>) -> u64
    ensures { result ≡ unfinished_from site.now other.now }
{
    let name = site.name();
    if is_other_master(name, other) {
        let last = last_position_to(name, other);
        unfinished_of(site, &last)
    } else {
        0
    }
}

// How much hinders a join at a site: what the other masters queued for it and it hasn't finished, and the errors of masters'
// transactions that stand there. The count stands still at the end of its type.
fn unquiet_told(sites: &[Site<PageTables>], site: &Site<PageTables>) -> u64
    ensures { result ≡ unquiet_told sites.now site.now }
{
    let mut count = master_errors(site);
    for other in sites {
        count = count.saturating_add(unfinished_from(site, other));
    }
    count
}

// A master at which so much hinders a join.
fn told_step(site: &Site<PageTables>, count: u64) -> Option<Refusal>
    ensures { result ≡ refused (site.now.here.is_master && nat_lt 0 count) (Refusal.NotQuiet site.now.here.site count) }
{
    if site.is_master() && count > 0 {
        Some(Refusal::NotQuiet(*site.name(), count))
    } else {
        None
    }
}

// Whether something hinders a join at a site, if it is a master.
fn unquiet_step(sites: &[Site<PageTables>], site: &Site<PageTables>) -> Option<Refusal>
    ensures { result ≡ unquiet_step sites.now (Some site.now) }
{
    let count = unquiet_told(sites, site);
    told_step(site, count)
}

// The same at the site of a name, if it is there.
fn named_step(sites: &[Site<PageTables>], name: &SiteName) -> Option<Refusal>
    ensures { result ≡ unquiet_step sites.now (site_of name.now sites.now) }
{
    let Some(place) = place_of(sites, name) else {
        return None;
    };
    unquiet_step(sites, &sites[place])
}

// The first master in declared order at which something hinders a join.
fn quiet_step(sites: &[Site<PageTables>], entries: &[SiteEntry]) -> Option<Refusal>
    ensures { result ≡ quiet_step sites.now entries.now }
{
    for entry in entries {
        if let Some(refusal) = named_step(sites, &entry.name) {
            return Some(refusal);
        }
    }
    None
}

impl WorldParts {
    // Whether a site is there, and a master.
    fn has_master(&self, site: &SiteName) -> bool
        ensures { result ≡ is_master_in (site_of site.now self.now.sites) }
    {
        let Some(place) = place_of(&self.sites, site) else {
            return false;
        };
        self.sites[place].is_master()
    }

    // A join of a late master that isn't there, as a copy of a master that is.
    pub(crate) fn join_refusal(&self, site: &SiteName, source: &SiteName) -> Option<Refusal>
        ensures { result ≡ first_refusal (precheck_steps (Command.Join site.now source.now) self.now) }
    {
        let schema = self.store.schema();
        if !is_late_master(schema, site) {
            return Some(Refusal::UnknownName);
        }
        if self.is_there(site) {
            return Some(Refusal::NameTaken);
        }
        if !self.has_master(source) {
            return Some(Refusal::UnknownName);
        }
        let entries = schema.sites.as_slice();
        quiet_step(&self.sites, entries)
    }
}
