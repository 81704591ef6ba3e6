//! The world of a script.
ghost use Rattle.std.specs.Prelude.{◌≡◌, Some, None, option_copied, IfOk, IfErr, OnOk, OnErr};
ghost use Rattle.script_parse.specs.Named.{NamesColumn};
ghost use Rattle.rep_values.specs.declared.name.SiteName.{SiteName as SiteNameValue};
ghost use Rattle.site_events.specs.Cluster.{site_of};
ghost use Rattle.world.specs.Following.{IsBuilt};
ghost use Rattle.world_state.specs.World.{first_world};
ghost use Rattle.world_state.specs.Procs.{proc_of};
ghost use Rattle.world_laws.specs.ProcedureWorlds.{ProceduresHold};
ghost use Rattle.world_laws.specs.Worlds.{WorldHolds};
ghost use Rattle.world.specs.Doing.{Does, AnswersPrecheck};
ghost use Rattle.world_laws.specs.Sites.{SnapshotsHold};
ghost use Rattle.convergent_worlds.specs.Convergence.{ConvergenceHolds};
ghost use Rattle.site_rounds.specs.Passing.{PassRequires, PassEnsures};
ghost use Rattle.world_push.specs.Lending.{live_refusal, reaching, live_opened, live_closed, given_back, PushEachInPart};
ghost use Rattle.world_run.specs.Lent.{site_here, MayComeBack, MayComeBackFromTurns};
ghost use Rattle.world_run.specs.Reporting.{PushLeavesNothingReady, PushLeavesNoCallsReady, RefreshShowsTheQuery, JoinTakesOver};

use crate::crew::crew_pass;
use crate::lines::run_or_refuse;
use convergent_worlds::convergence_holds;
use page_tables::PageTables;
use parallel_apply::Workers;
use proc_calls::ProcSite;
use rep_io::Watch;
use rep_lists::NoMemory;
use rep_values::{Refusal, SiteName};
use script_parse::Command;
use site_engine::Site;
use site_rounds::{By, Passing, Serial};
use site_state::PassCount;
use std::alloc::Global;
use std::marker::Model;
use std::mem;
use std::snapshot::Snapshot;
use std::sync::Wait;
use world::{Answer, WorldParts, place_of, proc_place_of};
use world_push::{live_close, live_open, live_refusal};
use world_state::Refused;

/// A world: what a script has declared so far, its sites, the net between them, and the open block. From the end of Setup on
/// events at its sites lead to it. A master of it may be lent out for a live part, and nothing else is done until it comes back.
#[derive(Drop)]
pub struct World {
    parts: WorldParts,
    lent: Option<Lent>,
}

/// A master that is lent out: its name, its place among the sites, and how it was then, which only contracts look at.
#[derive(Drop)]
struct Lent {
    name: SiteName,
    place: usize,
    opened: Snapshot<Site<PageTables>>,
}

impl Model for Lent {
    ghost use Rattle.world_run.specs.Lent.{LentSite};

    ghost Value = { LentSite };

    ghost view = { λ l. record { name = l.name; place = l.place; opened = l.opened.value } };
}

impl Model for World {
    ghost use Rattle.world.specs.Following.{IsBuilt};
    ghost use Rattle.world_run.specs.Lent.{LentWorld, with_lent, seen_with, IsLentFrom};

    ghost Value = { LentWorld };

    ghost view = { λ w. seen_with w.lent w.parts };

    ghost invariant = { λ w. IsBuilt (with_lent w.lent w.parts) × IsLentFrom w.lent w.parts };
}

impl World {
    /// A world in which nothing is declared.
    pub fn make(alloc: Global) -> Result<World, NoMemory>
        ensures world { IfOk result (λ world. world.world ≡ first_world) }
        ensures free { IfOk result (λ world. world.lent ≡ None) }
    {
        Ok(World {
            parts: WorldParts::make(alloc)?,
            lent: None,
        })
    }

    /// What the line of a number does, what it prints, and what came of it. A line that is refused leaves the world, but that a
    /// refused commit and a refused send close their block. Where there is no memory a push may be done in part, and any other line
    /// leaves the world; a refusal that is known before the line is tried is answered all the same. Once a push is reported, no
    /// position of any sender is ready at the receiver, and so it is with a push of calls; once a refresh is, each snapshot of the
    /// site is its query of its master's table; once a join is, the late master is there as a copy of the master that the line
    /// names, and each master that was there has opened its stream to it behind all that it had queued. Whatever came of the line,
    /// the laws over events hold of the world, and so do those of snapshots and of convergence: at each master each group of a row
    /// of a convergent table is the join of what was applied, each error there is excused, and masters that are quiet agree. At
    /// each site of procedures tables are what its journal leads to, each position of a sender is finished at most once and of
    /// those that call on one table the earlier first, and each error that stands holds its whole transaction and changed nothing.
    ///
    /// A group or constraint that the line declares names a column, as `parse_line` says.
    pub fn step(&mut self, alloc: Global, line: u32, command: &Command) -> Result<Answer, Refused>
        requires free { self.old.lent ≡ None }
        requires named { NamesColumn command.now }
        ensures free { self.new.lent ≡ None }
        ensures does { Does line command.now self.old.world self.new.world result }
        ensures known { AnswersPrecheck line command.now self.old.world result }
        ensures pushed { PushLeavesNothingReady command.now self.new.world result }
        ensures calls_pushed { PushLeavesNoCallsReady command.now self.new.world result }
        ensures refreshed { RefreshShowsTheQuery command.now self.old.world self.new.world result }
        ensures joined { JoinTakesOver command.now self.old.world self.new.world result }
        ensures laws { WorldHolds self.new.world }
        ensures snapshots { SnapshotsHold self.new.world }
        ensures convergence { ConvergenceHolds self.new.world }
        ensures procedures { ProceduresHold self.new.world }
    {
        self.step_by(alloc, &Serial, line, command)
    }

    /// The same beside workers, which take part in passes for what masters sent. What comes of it is as without them. It may wait
    /// for a lock.
    pub fn step_crew<X: Wait, W: Watch>(
        &mut self,
        rt: &X,
        alloc: Global,
        workers: &Workers<PageTables>,
        line: u32,
        command: &Command,
        watch: &W,
    ) -> Result<Answer, Refused>
        requires free { self.old.lent ≡ None }
        requires named { NamesColumn command.now }
        ensures free { self.new.lent ≡ None }
        ensures does { Does line command.now self.old.world self.new.world result }
        ensures known { AnswersPrecheck line command.now self.old.world result }
        ensures pushed { PushLeavesNothingReady command.now self.new.world result }
        ensures calls_pushed { PushLeavesNoCallsReady command.now self.new.world result }
        ensures refreshed { RefreshShowsTheQuery command.now self.old.world self.new.world result }
        ensures joined { JoinTakesOver command.now self.old.world self.new.world result }
        ensures laws { WorldHolds self.new.world }
        ensures snapshots { SnapshotsHold self.new.world }
        ensures convergence { ConvergenceHolds self.new.world }
        ensures procedures { ProceduresHold self.new.world }
    {
        let pass = |alloc: Global, site: Site<PageTables>, origin: SiteName| -> Result<
            (Site<PageTables>, PassCount),
            (Site<PageTables>, NoMemory),
        >
            requires { PassRequires origin site }
            ensures { PassEnsures origin site result }
        { crew_pass(rt, alloc, workers, site, &origin, watch) };
        self.step_by(alloc, &By { pass }, line, command)
    }

    /// The same, whoever makes the passes.
    pub(crate) fn step_by<P: Passing>(
        &mut self,
        alloc: Global,
        passing: &P,
        line: u32,
        command: &Command,
    ) -> Result<Answer, Refused>
        requires able { P.able passing.now }
        requires free { self.old.lent ≡ None }
        requires named { NamesColumn command.now }
        ensures free { self.new.lent ≡ None }
        ensures does { Does line command.now self.old.world self.new.world result }
        ensures known { AnswersPrecheck line command.now self.old.world result }
        ensures pushed { PushLeavesNothingReady command.now self.new.world result }
        ensures calls_pushed { PushLeavesNoCallsReady command.now self.new.world result }
        ensures refreshed { RefreshShowsTheQuery command.now self.old.world self.new.world result }
        ensures joined { JoinTakesOver command.now self.old.world self.new.world result }
        ensures laws { WorldHolds self.new.world }
        ensures snapshots { SnapshotsHold self.new.world }
        ensures convergence { ConvergenceHolds self.new.world }
        ensures procedures { ProceduresHold self.new.world }
    {
        convergence_holds();
        run_or_refuse(&mut self.parts, alloc, passing, line, command)
    }

    /// Why a master may not be lent out for a live part, if something hinders it: `WrongPhase` where the phase isn't Running or a block
    /// is open, then `UnknownName` where the name is that of no master that is there. It takes no memory.
    pub fn live_check(&self, name: &SiteName) -> Result<(), Refusal>
        requires { self.now.lent ≡ None }
        ensures ok { OnOk result (live_refusal name.now self.now.world ≡ None) }
        ensures err { IfErr result (λ refusal. live_refusal name.now self.now.world ≡ Some refusal) }
    {
        match live_refusal(&self.parts, name) {
            None => Ok(()),
            Some(refusal) => Err(refusal),
        }
    }

    /// Lends a master out for a live part. Before, all that other masters sent comes to it, where their direction to it is up, and a
    /// pass begins. It may come back as any turns leave it. Where there is no memory, some of this may be done, a packet on the way
    /// may be lost, and the master stays.
    pub fn live_open(
        &mut self,
        alloc: Global,
        name: &SiteName,
    ) -> Result<Site<PageTables>, NoMemory>
        requires free { self.old.lent ≡ None }
        requires passes { live_refusal name.now self.old.world ≡ None }
        ensures built { IsBuilt self.old.world }
        ensures stays_built { IsBuilt self.new.world }
        ensures world { OnOk result (self.new.world ≡ live_opened name.now self.old.world) }
        ensures lent { OnOk result (self.new.lent ≡ Some name.now) }
        ensures site { IfOk result (λ site. site_of name.now self.new.world.sites ≡ Some site) }
        ensures back { IfOk result (λ site. MayComeBackFromTurns site self.new) }
        ensures free { OnErr result (self.new.lent ≡ None) }
        ensures part { OnErr result (PushEachInPart (reaching name.now self.old.world) name.now self.old.world self.new.world) }
    {
        live_open(&mut self.parts, alloc, name)?;
        let Some(place) = place_of(&self.parts.sites, name) else {
            unreachable!()
        };
        let site = self.parts.sites.remove(place);
        self.lent = Some(Lent {
            name: *name,
            place,
            opened: Snapshot::of(&site),
        });
        Ok(site)
    }

    /// Takes back a master that was lent out, and brings its mark to the other masters of which the direction to it is up. Where there
    /// is no memory, the master is lost and still counts as lent out, or it is back and some of the rest may be done.
    pub fn live_close(&mut self, alloc: Global, site: Site<PageTables>) -> Result<(), NoMemory>
        requires { MayComeBack site self.old }
        ensures stays_built { IsBuilt self.new.world }
        ensures world { (name : SiteNameValue) → self.old.lent ≡ Some name → OnOk result (self.new.world ≡ live_closed name (given_back name site self.old.world)) }
        ensures free { OnOk result (self.new.lent ≡ None) }
    {
        let Some(lent) = mem::replace(&mut self.lent, None) else {
            unreachable!()
        };
        if self.parts.sites.insert(lent.place, site).is_err() {
            self.lent = Some(lent);
            return Err(NoMemory);
        }
        live_close(&mut self.parts, alloc, &lent.name)
    }

    /// The site of a name, None exactly where it isn't there or is lent out.
    pub fn site(&self, name: &SiteName) -> Option<&Site<PageTables>>
        ensures { option_copied result ≡ site_here name.now self.now }
    {
        let place = place_of(&self.parts.sites, name)?;
        self.parts.sites.get(place)
    }

    /// The site of a name that holds tables of procedures, None exactly where it holds none.
    pub fn proc_site(&self, name: &SiteName) -> Option<&ProcSite>
        ensures { option_copied result ≡ proc_of name.now self.now.world.procs.sites }
    {
        let place = proc_place_of(&self.parts.procs.sites, name)?;
        self.parts.procs.sites.get(place)
    }
}
