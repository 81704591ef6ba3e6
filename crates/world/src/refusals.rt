//! Why a line is refused, as far as that is known before it is tried.
ghost use Rattle.std.specs.Prelude.{◌≡◌, false, not, None};
ghost use Rattle.rep_values.specs.RefusalSteps.{refused, first_refusal, unknown};
ghost use Rattle.site_events.specs.Cluster.{site_of};
ghost use Rattle.world_state.specs.Phases.{is_setup, phase_step};
ghost use Rattle.world_state.specs.Refusals.{has_link, shown_step};
ghost use Rattle.world_state.specs.Steps.{world_refused};
ghost use Rattle.world.specs.Following.{IsBuilt};
ghost use Rattle.world.specs.Precheck.{precheck_steps, precheck_refusal};

use crate::WorldParts;
use crate::testing::tests_in;
use rep_declare::{Declare, refusal_of};
use rep_schema::RowStore;
use rep_values::{Refusal, SiteName};
use script_parse::{Command, ProcLine, Shown};

/// The most that a number may be.
const MOST_NUMBER: u64 = 1_000_000_000_000_000;

impl WorldParts {
    fn unknown_site(&self, site: &SiteName) -> Option<Refusal>
        ensures { result ≡ unknown (site_of site.now self.now.sites) }
    {
        if self.is_there(site) {
            None
        } else {
            Some(Refusal::UnknownName)
        }
    }

    // A declaration: what it meets because procedures have tables too, and then what it meets by itself.
    fn declare_refusal(&self, declaration: &Declare) -> Option<Refusal>
        ensures { result ≡ first_refusal (precheck_steps (Command.Declare declaration.now) self.now) }
    {
        if let Some(refusal) = self.declaring_step(declaration) {
            return Some(refusal);
        }
        refusal_of(self.store.schema(), declaration)
    }

    // The site of what is shown; one whose calls are shown holds tables of procedures.
    fn shown_step(&self, what: Shown, site: &SiteName) -> Option<Refusal>
        ensures { result ≡ shown_step what site.now self.now }
    {
        match what {
            Shown::Tables
            | Shown::Queue
            | Shown::Errors
            | Shown::Marks
            | Shown::Journal
            | Shown::Log => self.unknown_site(site),
            Shown::Calls => self.procs.unknown_site(site),
        }
    }

    fn push_refusal(&self, from: &SiteName, to: &SiteName) -> Option<Refusal>
        requires built { IsBuilt self.now }
        requires behind { is_setup self.now.phase ≡ false }
        ensures { result ≡ first_refusal (precheck_steps (Command.Push from.now to.now None) self.now) }
    {
        if !self.has_sender(to, from) {
            return Some(Refusal::UnknownName);
        }
        if !self.net.is_up(from, to) {
            return Some(Refusal::LinkDown);
        }
        None
    }

    fn link_refusal(&self, from: &SiteName, to: &SiteName) -> Option<Refusal>
        ensures { result ≡ refused (not (has_link self.now from.now to.now)) Refusal.UnknownName }
    {
        if self.has_link(from, to) {
            None
        } else {
            Some(Refusal::UnknownName)
        }
    }

    fn clock_refusal(&self, site: &SiteName, time: u64) -> Option<Refusal>
        ensures { result ≡ first_refusal (precheck_steps (Command.Clock site.now time) self.now) }
    {
        if !self.is_there(site) {
            return Some(Refusal::UnknownName);
        }
        if time > MOST_NUMBER {
            return Some(Refusal::ValueRange);
        }
        None
    }

    // The site of an error and the sender that it came from.
    fn error_refusal(&self, site: &SiteName, origin: &SiteName) -> Option<Refusal>
        ensures { result ≡ first_refusal (precheck_steps (Command.Execute site.now origin.now 0) self.now) }
    {
        if self.has_sender(site, origin) {
            None
        } else {
            Some(Refusal::UnknownName)
        }
    }

    // What hinders a line behind the phase.
    fn further_step(&self, command: &Command) -> Option<Refusal>
        requires built { IsBuilt self.now }
        requires behind { phase_step command.now self.now ≡ None }
        ensures { result ≡ first_refusal (precheck_steps command.now self.now) }
    {
        match command {
            Command::Declare(declaration) => self.declare_refusal(declaration),
            Command::Push { from, to, .. } => self.push_refusal(from, to),
            Command::Fates { from, to, .. }
            | Command::ClearFates { from, to }
            | Command::Link { from, to, .. } => self.link_refusal(from, to),
            Command::Clock { site, time } => self.clock_refusal(site, *time),
            Command::Execute { site, origin, .. } | Command::DropError { site, origin, .. } =>
                self.error_refusal(site, origin),
            Command::Txn { site } | Command::Purge { site } => self.unknown_site(site),
            Command::Show { what, site } => self.shown_step(*what, site),
            Command::Snapshot {
                site,
                table,
                parent,
                tests,
            } => self.snapshot_refusal(site, table, parent, tests_in(tests)),
            Command::Refresh { site, how } => self.refresh_refusal(site, *how),
            Command::PurgeLog { master, table } => self.purge_log_refusal(master, table),
            Command::Nothing
            | Command::Row { .. }
            | Command::Resume
            | Command::Statement(_)
            | Command::Commit
            | Command::Abandon
            | Command::Suspend => None,
            Command::Join { site, source } => self.join_refusal(site, source),
            Command::Procedures(line) => self.proc_refusal(line),
        }
    }

    /// Why a line is refused, as far as that is known before it is tried: all but what a row, a commit, the calls of a send, an
    /// execution and a drop of an error meet as they run. It takes no memory.
    pub fn refusal(&self, command: &Command) -> Option<Refusal>
        requires { IsBuilt self.now }
        ensures { result ≡ precheck_refusal command.now self.now }
    {
        if let Some(refusal) = self.phase_step(command) {
            return Some(refusal);
        }
        self.further_step(command)
    }

    /// Leaves what a refused line leaves: a commit closes the open block, and a send that of calls.
    pub fn refuse(&mut self, command: &Command)
        ensures { self.new ≡ world_refused command.now self.old }
    {
        match command {
            Command::Commit => self.block = None,
            Command::Procedures(ProcLine::Send { .. }) => self.procs.close(),
            Command::Nothing
            | Command::Declare(_)
            | Command::Snapshot { .. }
            | Command::Row { .. }
            | Command::Resume
            | Command::Statement(_)
            | Command::Txn { .. }
            | Command::Abandon
            | Command::Push { .. }
            | Command::Fates { .. }
            | Command::ClearFates { .. }
            | Command::Link { .. }
            | Command::Clock { .. }
            | Command::Purge { .. }
            | Command::Execute { .. }
            | Command::DropError { .. }
            | Command::Refresh { .. }
            | Command::PurgeLog { .. }
            | Command::Suspend
            | Command::Join { .. }
            | Command::Show { .. }
            | Command::Procedures(
                ProcLine::Table { .. }
                | ProcLine::Procedure { .. }
                | ProcLine::Calls { .. }
                | ProcLine::Call(_)
                | ProcLine::Push { .. }
                | ProcLine::Fates { .. }
                | ProcLine::Execute { .. },
            ) => {}
        }
    }
}
