//! Why a refresh, or a purge of a log, is refused.
ghost use Rattle.std.specs.Prelude.{◌≡◌, ◌∷◌, false, [], map, nat_lt, not};
ghost use Rattle.rep_values.specs.RefusalSteps.{refused, or_then, first_refusal};
ghost use Rattle.rep_schema.specs.Shape.{HasShape};
ghost use Rattle.net_plan.specs.Directions.{HasDirection};
ghost use Rattle.site_state.specs.State.{DestinationState};
ghost use Rattle.change_logs.specs.Noting.{purged_of, is_too_young};
ghost use Rattle.site_events.specs.Events.{is_all_acked};
ghost use Rattle.world_state.specs.Phases.{is_setup};
ghost use Rattle.world_state.specs.Refusals.{waiting_count, young_parents_step, young_step, log_step, refresh_steps};
ghost use Rattle.world.specs.Following.{IsBuilt};
ghost use Rattle.world.specs.Precheck.{precheck_steps};

use crate::WorldParts;
use crate::parts::place_of;
use crate::snapshots::master_of;
use change_logs::{Notes, Watched};
use page_tables::PageTables;
use rep_schema::RowStore;
use rep_values::{Refusal, SiteName, TableName};
use schema_names::table_place;
use script_parse::{Command, Refresh};
use site_engine::Site;

fn purged_of(logs: &Notes, table: u32) -> u64
    ensures { result ≡ purged_of table logs.now.logs }
{
    match logs.log(table) {
        Some(log) => log.purged(),
        None => 0,
    }
}

// Whether the log of a table was purged above a mark.
fn purged_step(logs: &Notes, table: u32, mark: u64) -> Option<Refusal>
    ensures { result ≡ refused (nat_lt mark (purged_of table logs.now.logs)) (Refusal.LogTooYoung (purged_of table logs.now.logs) mark) }
{
    let purged = purged_of(logs, table);
    if mark < purged {
        Some(Refusal::LogTooYoung(purged, mark))
    } else {
        None
    }
}

// Whether the log of a snapshot's parents was purged above its mark.
fn young_parents(logs: &Notes, snapshot: &Watched) -> Option<Refusal>
    ensures { result ≡ young_parents_step logs.now.logs snapshot.now.snapshot.mark snapshot.now.snapshot.parent }
{
    match snapshot.parent() {
        Some(parent) => purged_step(logs, parent.table, snapshot.mark()),
        None => None,
    }
}

// Whether the log of a snapshot's table was purged above its mark, or else that of its parents.
fn too_young(logs: &Notes, snapshot: &Watched) -> Option<Refusal>
    ensures { result ≡ or_then (refused (is_too_young logs.now.logs snapshot.now.snapshot) (Refusal.LogTooYoung (purged_of snapshot.now.snapshot.table logs.now.logs) snapshot.now.snapshot.mark))
        (young_parents_step logs.now.logs snapshot.now.snapshot.mark snapshot.now.snapshot.parent) }
{
    match purged_step(logs, snapshot.table(), snapshot.mark()) {
        Some(refusal) => Some(refusal),
        None => young_parents(logs, snapshot),
    }
}

/// The first snapshot of a site of which its master's log was purged above its mark: that of its table, or else that of its
/// parents.
pub fn young_step(logs: &Notes, snapshots: &Notes) -> Option<Refusal>
    ensures { result ≡ young_step logs.now.logs snapshots.now.snapshots }
{
    for place in 0..snapshots.snapshot_count() {
        if let Some(refusal) = too_young(logs, snapshots.snapshot_at(place)) {
            return Some(refusal);
        }
    }
    None
}

// A refresh goes by logs alone where it is asked to.
fn log_step(how: Refresh, logs: &Notes, snapshots: &Notes) -> Option<Refusal>
    ensures { result ≡ log_step how logs.now.logs snapshots.now.snapshots }
{
    match how {
        Refresh::Fast => young_step(logs, snapshots),
        Refresh::Complete | Refresh::Force => None,
    }
}

// Whether all that a site queued for its only destination is acknowledged there.
fn queue_step(site: &Site<PageTables>, to: &SiteName) -> Option<Refusal>
    requires { map (λ (d : DestinationState). d.site) site.now.destinations ≡ to.now ∷ [] }
    ensures { result ≡ refused (not (is_all_acked site.now)) (Refusal.QueueNotEmpty (waiting_count site.now)) }
{
    let queue = site.queue();
    if queue.acked(to) == queue.last(to) {
        None
    } else {
        Some(Refusal::QueueNotEmpty(queue.waiting(to)))
    }
}

impl WorldParts {
    // A refresh of a site from its master: both directions are up, all is acknowledged, and the logs reach back.
    fn refresh_step(
        &self,
        site: &Site<PageTables>,
        master: &Site<PageTables>,
        how: Refresh,
    ) -> Option<Refusal>
        requires there { HasDirection self.now.net site.now.here.site master.now.here.site }
        requires back { HasDirection self.now.net master.now.here.site site.now.here.site }
        requires sends { map (λ (d : DestinationState). d.site) site.now.destinations ≡ master.now.here.site ∷ [] }
        ensures { result ≡ first_refusal (refresh_steps how site.now master.now self.now) }
    {
        let up = self.net.is_up(site.name(), master.name());
        if !(up && self.net.is_up(master.name(), site.name())) {
            return Some(Refusal::LinkDown);
        }
        if let Some(refusal) = queue_step(site, master.name()) {
            return Some(refusal);
        }
        log_step(how, master.notes(), site.notes())
    }

    // A refresh of a snapshot site.
    pub(crate) fn refresh_refusal(&self, site: &SiteName, how: Refresh) -> Option<Refusal>
        requires built { IsBuilt self.now }
        requires behind { is_setup self.now.phase ≡ false }
        ensures { result ≡ first_refusal (precheck_steps (Command.Refresh site.now how) self.now) }
    {
        let Some(here) = place_of(&self.sites, site) else {
            return Some(Refusal::UnknownName);
        };
        let Some(master) = master_of(self.store.schema(), site) else {
            return Some(Refusal::UnknownName);
        };
        let Some(there) = place_of(&self.sites, &master) else {
            return Some(Refusal::UnknownName);
        };
        self.refresh_step(&self.sites[here], &self.sites[there], how)
    }

    // A purge of the log of a master's table that has one.
    pub(crate) fn purge_log_refusal(&self, master: &SiteName, table: &TableName) -> Option<Refusal>
        requires { HasShape self.now.schema }
        ensures { result ≡ first_refusal (precheck_steps (Command.PurgeLog master.now table.now) self.now) }
    {
        let Some(place) = place_of(&self.sites, master) else {
            return Some(Refusal::UnknownName);
        };
        let schema = self.store.schema();
        let Some(table) = table_place(schema.tables.as_slice(), table) else {
            return Some(Refusal::UnknownName);
        };
        if self.sites[place].notes().log(table as u32).is_none() {
            return Some(Refusal::UnknownName);
        }
        None
    }
}
