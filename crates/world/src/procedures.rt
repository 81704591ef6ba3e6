//! Why a line about procedures is refused, as far as that is known before it is tried.
ghost use Rattle.std.specs.Prelude.{◌≡◌, ◌∷◌, [], false, not, None, Some};
ghost use Rattle.std.specs.List.{list_all};
ghost use Rattle.rep_values.specs.RefusalSteps.{refused, first_refusal, unknown, known};
ghost use Rattle.rep_declare.specs.Refusals.{share_a_name};
ghost use Rattle.rep_schema.specs.Sites.{is_among};
ghost use Rattle.world_state.specs.Phases.{is_setup, phase_step};
ghost use Rattle.world_state.specs.Procs.{proc_of};
ghost use Rattle.world_state.specs.CallBlocks.{names_twice, are_others, can_send_to};
ghost use Rattle.world_state.specs.ProcRefusals.{table_step, declaring_step, proc_table_steps, takes_amount, action_steps, procedure_steps, are_two_masters};
ghost use Rattle.world.specs.Following.{IsBuilt};
ghost use Rattle.world.specs.Precheck.{precheck_proc_steps};

use crate::WorldParts;
use crate::procs::{Procs, find_procedure, proc_place_of};
use crate::testing::{tests_in, tests_refusal};
use proc_calls::ProcSite;
use rep_declare::Declare;
use rep_schema::{Column, RowStore, key_count};
use rep_values::{Limit, Name, Refusal, SiteName, TableName};
use schema_names::{find_column, find_table, has_column};
use script_parse::{ActionWords, Command, ProcLine};

// Whether two columns have one name.
fn share_a_name(columns: &[Column]) -> bool
    ensures { result ≡ share_a_name columns.now }
{
    for place in 0..columns.len() {
        if has_column(&columns[place + 1..], &columns[place].name) {
            return true;
        }
    }
    false
}

// A NUMBER column outside the key.
fn takes_amount(column: &Column) -> bool
    ensures { result ≡ takes_amount column.now }
{
    column.kind.is_number() && !column.key
}

// What an action asks of the columns of its table.
fn action_refusal(columns: &[Column], action: &ActionWords) -> Option<Refusal>
    ensures { result ≡ first_refusal (action_steps columns.now action.now) }
{
    match action {
        ActionWords::Put => None,
        ActionWords::Add { column, tests } => {
            let Some(found) = find_column(columns, column) else {
                return Some(Refusal::UnknownName);
            };
            tests_refusal(takes_amount(found), columns, tests_in(tests))
        }
        ActionWords::Drop { tests } => tests_refusal(true, columns, tests_in(tests)),
    }
}

// Whether a name is among others.
fn is_among(names: &[SiteName], name: &SiteName) -> bool
    ensures { result ≡ is_among names.now name.now }
{
    names.iter().any(|other| other.is_same(name))
}

// Whether a site is named twice.
fn names_twice(names: &[SiteName]) -> bool
    ensures { result ≡ names_twice names.now }
{
    for place in 0..names.len() {
        if is_among(&names[place + 1..], &names[place]) {
            return true;
        }
    }
    false
}

// Whether each name is among others.
fn are_among(others: &[SiteName], names: &[SiteName]) -> bool
    ensures { result ≡ list_all (is_among others.now) names.now }
{
    names.iter().all(|name| is_among(others, name))
}

// Whether each name is that of another master than this site, and none stands twice.
fn has_others(site: &ProcSite, names: &[SiteName]) -> bool
    ensures { result ≡ are_others names.now (Some site.now) }
{
    are_among(site.masters(), names) && !names_twice(names)
}

impl Procs {
    // A procedure: its name, then its table's, then its action.
    fn procedure_refusal(
        &self,
        name: &Name,
        table: &TableName,
        action: &ActionWords,
    ) -> Option<Refusal>
        ensures { result ≡ first_refusal (procedure_steps name.now table.now action.now self.now) }
    {
        if find_procedure(self.procedures.as_slice(), name).is_some() {
            return Some(Refusal::NameTaken);
        }
        let Some(entry) = find_table(self.tables.as_slice(), table) else {
            return Some(Refusal::UnknownName);
        };
        action_refusal(entry.columns.as_slice(), action)
    }

    // A site that holds tables of procedures.
    pub(crate) fn unknown_site(&self, site: &SiteName) -> Option<Refusal>
        ensures { result ≡ unknown (proc_of site.now self.now.sites) }
    {
        match proc_place_of(&self.sites, site) {
            Some(_) => None,
            None => Some(Refusal::UnknownName),
        }
    }

    // Whether each name is that of another master than the site of a name, and none stands twice.
    fn are_others(&self, site: &SiteName, names: &[SiteName]) -> bool
        ensures { result ≡ are_others names.now (proc_of site.now self.now.sites) }
    {
        let Some(place) = proc_place_of(&self.sites, site) else {
            return false;
        };
        has_others(&self.sites[place], names)
    }

    // Whether the calls of the open block can be sent to these masters.
    fn can_send_to(&self, names: &[SiteName]) -> bool
        ensures { result ≡ can_send_to names.now self.now }
    {
        match &self.block {
            Some(block) => self.are_others(&block.site, names),
            None => false,
        }
    }

    fn send_refusal(&self, names: &[SiteName]) -> Option<Refusal>
        ensures { result ≡ refused (not (can_send_to names.now self.now)) Refusal.UnknownName }
    {
        if self.can_send_to(names) {
            None
        } else {
            Some(Refusal::UnknownName)
        }
    }

    // Whether two sites hold tables of procedures, and aren't the same.
    fn are_two_masters(&self, a: &SiteName, b: &SiteName) -> bool
        ensures { result ≡ are_two_masters a.now b.now self.now }
    {
        let Some(place) = proc_place_of(&self.sites, a) else {
            return false;
        };
        is_among(self.sites[place].masters(), b)
    }

    fn masters_refusal(&self, a: &SiteName, b: &SiteName) -> Option<Refusal>
        ensures { result ≡ refused (not (are_two_masters a.now b.now self.now)) Refusal.UnknownName }
    {
        if self.are_two_masters(a, b) {
            None
        } else {
            Some(Refusal::UnknownName)
        }
    }

    // The site of an error of calls, and the master that it came from.
    fn error_refusal(&self, site: &SiteName, origin: &SiteName) -> Option<Refusal>
        ensures { result ≡ first_refusal (known (proc_of site.now self.now.sites) (λ _. refused (not (are_two_masters site.now origin.now self.now)) Refusal.UnknownName ∷ [])) }
    {
        self.masters_refusal(site, origin)
    }
}

impl WorldParts {
    // A table that is declared, whoever writes it.
    fn table_step(&self, name: &TableName, columns: &[Column]) -> Option<Refusal>
        ensures { result ≡ table_step name.now columns.now self.now }
    {
        let tables = self.store.schema().tables.as_slice();
        let others = self.procs.tables.as_slice();
        if find_table(tables, name).is_some() {
            return Some(Refusal::NameTaken);
        }
        if find_table(others, name).is_some() {
            return Some(Refusal::NameTaken);
        }
        if share_a_name(columns) {
            return Some(Refusal::NameTaken);
        }
        if tables.len() + others.len() >= 32 {
            return Some(Refusal::LimitReached(Limit::Tables));
        }
        None
    }

    // What a declaration meets because procedures have tables too.
    pub(crate) fn declaring_step(&self, declaration: &Declare) -> Option<Refusal>
        ensures { result ≡ declaring_step declaration.now self.now }
    {
        match declaration {
            Declare::Table { name, columns } => self.table_step(name, columns.as_slice()),
            Declare::Site { .. }
            | Declare::LateSite { .. }
            | Declare::SnapSite { .. }
            | Declare::Group { .. }
            | Declare::Method { .. }
            | Declare::Priority { .. }
            | Declare::SiteLevel { .. }
            | Declare::Unique { .. }
            | Declare::UniqueMethod { .. }
            | Declare::Check { .. }
            | Declare::Convergent { .. } => None,
        }
    }

    // A table that procedures write: its names, then the limits.
    fn proc_table_refusal(&self, name: &TableName, columns: &[Column]) -> Option<Refusal>
        ensures { result ≡ first_refusal (proc_table_steps name.now columns.now self.now) }
    {
        if let Some(refusal) = self.table_step(name, columns) {
            return Some(refusal);
        }
        if columns.len() > 30 {
            return Some(Refusal::LimitReached(Limit::Columns));
        }
        if key_count(columns) > 4 {
            return Some(Refusal::LimitReached(Limit::Keys));
        }
        None
    }

    fn push_calls_refusal(&self, from: &SiteName, to: &SiteName) -> Option<Refusal>
        requires built { IsBuilt self.now }
        requires behind { is_setup self.now.phase ≡ false }
        ensures { result ≡ first_refusal (precheck_proc_steps (ProcLine.Push from.now to.now) self.now) }
    {
        if !self.procs.are_two_masters(from, to) {
            return Some(Refusal::UnknownName);
        }
        if !self.net.is_up(from, to) {
            return Some(Refusal::LinkDown);
        }
        None
    }

    /// What hinders a line about procedures behind the phase.
    pub(crate) fn proc_refusal(&self, line: &ProcLine) -> Option<Refusal>
        requires built { IsBuilt self.now }
        requires behind { phase_step (Command.Procedures line.now) self.now ≡ None }
        ensures { result ≡ first_refusal (precheck_proc_steps line.now self.now) }
    {
        match line {
            ProcLine::Table { table, columns } => self.proc_table_refusal(
                table,
                columns.as_slice(),
            ),
            ProcLine::Procedure {
                procedure,
                table,
                action,
            } => self.procs.procedure_refusal(procedure, table, action),
            ProcLine::Calls { site } => self.procs.unknown_site(site),
            ProcLine::Call(_) => None,
            ProcLine::Send { to } => self.procs.send_refusal(to.as_slice()),
            ProcLine::Push { from, to } => self.push_calls_refusal(from, to),
            ProcLine::Fates { from, to, .. } => self.procs.masters_refusal(from, to),
            ProcLine::Execute { site, origin, .. } => self.procs.error_refusal(site, origin),
        }
    }
}
