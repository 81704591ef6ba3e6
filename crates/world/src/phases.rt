//! What a line asks of the phase and of the open block.
ghost use Rattle.std.specs.Prelude.{◌≡◌, ◌&&◌, not};
ghost use Rattle.std.specs.List.{list_all};
ghost use Rattle.rep_values.specs.RefusalSteps.{refused, or_then};
ghost use Rattle.rep_schema.specs.Shape.{HasShape};
ghost use Rattle.rep_schema.specs.Kinds.{is_stamp};
ghost use Rattle.schema_rules.specs.KeyRules.{is_well_keyed};
ghost use Rattle.schema_rules.specs.Rules.{broken_rule};
ghost use Rattle.world_state.specs.Phases.{is_setup, is_running, is_suspended, has_block, has_rows, setup_step, declare_step, block_step, call_block_step, behind_setup_step, lower, broken_by, lowest_broken, resume_step, proc_phase_step, phase_step};

use crate::WorldParts;
use rep_declare::{Declare, table_shaped};
use rep_schema::{Column, RowStore, Schema, TableEntry, key_count};
use rep_values::{Refusal, TableName};
use schema_names::table_place;
use schema_rules::check;
use script_parse::{Command, ProcLine};
use world_state::Phase;

fn wrong_phase_if(test: bool) -> Option<Refusal>
    ensures { result ≡ refused test Refusal.WrongPhase }
{
    if test {
        Some(Refusal::WrongPhase)
    } else {
        None
    }
}

// The lowest rule of a schema that is broken.
fn broken_rule(schema: &Schema) -> Option<u8>
    ensures { result ≡ broken_rule schema.now }
{
    match check(schema) {
        Ok(()) => None,
        Err(rule) => Some(rule),
    }
}

fn has_no_stamp_key(columns: &[Column]) -> bool
    ensures { result ≡ list_all (λ column. not (column.key && is_stamp column.kind)) columns.now }
{
    columns
        .iter()
        .all(|column| !(column.key && column.kind.is_stamp()))
}

// Whether a table has a key column, and no key column is a STAMP.
fn is_well_keyed(table: &TableEntry) -> bool
    ensures { result ≡ is_well_keyed table.now }
{
    if key_count(table.columns.as_slice()) < 1 {
        return false;
    }
    has_no_stamp_key(table.columns.as_slice())
}

// Whether each table has a key column, and no key column is a STAMP.
fn are_well_keyed(tables: &[TableEntry]) -> bool
    ensures { result ≡ list_all is_well_keyed tables.now }
{
    tables.iter().all(|table| is_well_keyed(table))
}

// The rule that each table has a key, where one of these breaks it.
fn broken_by(tables: &[TableEntry]) -> Option<u8>
    ensures { result ≡ broken_by tables.now }
{
    if are_well_keyed(tables) {
        None
    } else {
        Some(2)
    }
}

// The lower of two rules.
fn lower(rule: Option<u8>, other: Option<u8>) -> Option<u8>
    ensures { result ≡ lower rule other }
{
    match (rule, other) {
        (None, other) => other,
        (Some(rule), None) => Some(rule),
        (Some(rule), Some(other)) => Some(rule.min(other)),
    }
}

impl WorldParts {
    fn is_setup(&self) -> bool
        ensures { result ≡ is_setup self.now.phase }
    {
        match self.phase {
            Phase::Setup => true,
            Phase::Running | Phase::Suspended => false,
        }
    }

    fn is_running(&self) -> bool
        ensures { result ≡ is_running self.now.phase }
    {
        match self.phase {
            Phase::Running => true,
            Phase::Setup | Phase::Suspended => false,
        }
    }

    fn is_suspended(&self) -> bool
        ensures { result ≡ is_suspended self.now.phase }
    {
        match self.phase {
            Phase::Suspended => true,
            Phase::Setup | Phase::Running => false,
        }
    }

    fn has_block(&self) -> bool
        ensures { result ≡ has_block self.now }
    {
        self.block.is_some() || self.procs.block.is_some()
    }

    fn setup_step(&self) -> Option<Refusal>
        ensures { result ≡ setup_step self.now }
    {
        wrong_phase_if(!self.is_setup() || self.has_block())
    }

    fn block_step(&self) -> Option<Refusal>
        ensures { result ≡ block_step self.now }
    {
        wrong_phase_if(self.block.is_none())
    }

    fn call_block_step(&self) -> Option<Refusal>
        ensures { result ≡ call_block_step self.now }
    {
        wrong_phase_if(self.procs.block.is_none())
    }

    fn behind_setup_step(&self) -> Option<Refusal>
        ensures { result ≡ behind_setup_step self.now }
    {
        wrong_phase_if(self.is_setup() || self.has_block())
    }

    // Whether a table has rows.
    fn has_rows(&self, table: Option<TableName>) -> bool
        requires { HasShape self.now.schema }
        ensures { result ≡ has_rows self.now table }
    {
        let Some(table) = table else {
            return false;
        };
        let Some(place) = table_place(self.store.schema().tables.as_slice(), &table) else {
            return false;
        };
        self.store.count(place as u32) > 0
    }

    fn declare_step(&self, declaration: &Declare) -> Option<Refusal>
        requires { HasShape self.now.schema }
        ensures { result ≡ declare_step declaration.now self.now }
    {
        if let Some(refusal) = self.setup_step() {
            return Some(refusal);
        }
        wrong_phase_if(self.has_rows(table_shaped(declaration)))
    }

    // The lowest rule that is broken, by the schema or by tables of procedures.
    fn lowest_broken(&self) -> Option<u8>
        ensures { result ≡ lowest_broken self.now.schema self.now.procs.tables }
    {
        lower(
            broken_rule(self.store.schema()),
            broken_by(self.procs.tables.as_slice()),
        )
    }

    // Setup ends where no rule of a schema is broken.
    fn resume_step(&self) -> Option<Refusal>
        ensures { result ≡ resume_step self.now.phase (lowest_broken self.now.schema self.now.procs.tables) }
    {
        match self.phase {
            Phase::Setup => match self.lowest_broken() {
                None => None,
                Some(rule) => Some(Refusal::SchemaRule(rule)),
            },
            Phase::Running => Some(Refusal::WrongPhase),
            Phase::Suspended => None,
        }
    }

    fn resume_phase(&self) -> Option<Refusal>
        ensures { result ≡ phase_step Command.Resume self.now }
    {
        if self.has_block() {
            return Some(Refusal::WrongPhase);
        }
        self.resume_step()
    }

    fn txn_phase(&self) -> Option<Refusal>
        ensures { result ≡ or_then (behind_setup_step self.now) (refused (is_suspended self.now.phase) Refusal.Suspended) }
    {
        if let Some(refusal) = self.behind_setup_step() {
            return Some(refusal);
        }
        if self.is_suspended() {
            return Some(Refusal::Suspended);
        }
        None
    }

    fn suspend_phase(&self) -> Option<Refusal>
        ensures { result ≡ phase_step Command.Suspend self.now }
    {
        if let Some(refusal) = self.behind_setup_step() {
            return Some(refusal);
        }
        wrong_phase_if(!self.is_running())
    }

    fn join_phase(&self) -> Option<Refusal>
        ensures { result ≡ or_then (behind_setup_step self.now) (refused (not (is_suspended self.now.phase)) Refusal.WrongPhase) }
    {
        if let Some(refusal) = self.behind_setup_step() {
            return Some(refusal);
        }
        wrong_phase_if(!self.is_suspended())
    }

    // Why the phase or an open block hinders a line about procedures, if one does.
    fn proc_phase_step(&self, line: &ProcLine) -> Option<Refusal>
        ensures { result ≡ proc_phase_step line.now self.now }
    {
        match line {
            ProcLine::Table { .. } | ProcLine::Procedure { .. } => self.setup_step(),
            ProcLine::Calls { .. } => self.txn_phase(),
            ProcLine::Call(_) | ProcLine::Send { .. } => self.call_block_step(),
            ProcLine::Push { .. } | ProcLine::Fates { .. } | ProcLine::Execute { .. } =>
                self.behind_setup_step(),
        }
    }

    /// Why the phase or the open block hinders a line, if one does.
    pub(crate) fn phase_step(&self, command: &Command) -> Option<Refusal>
        requires { HasShape self.now.schema }
        ensures { result ≡ phase_step command.now self.now }
    {
        match command {
            Command::Nothing => None,
            Command::Declare(declaration) => self.declare_step(declaration),
            Command::Snapshot { .. } | Command::Row { .. } => self.setup_step(),
            Command::Resume => self.resume_phase(),
            Command::Statement(_) | Command::Commit | Command::Abandon => self.block_step(),
            Command::Txn { .. } => self.txn_phase(),
            Command::Suspend => self.suspend_phase(),
            Command::Join { .. } => self.join_phase(),
            Command::Push { .. }
            | Command::Fates { .. }
            | Command::ClearFates { .. }
            | Command::Link { .. }
            | Command::Clock { .. }
            | Command::Purge { .. }
            | Command::Execute { .. }
            | Command::DropError { .. }
            | Command::Refresh { .. }
            | Command::PurgeLog { .. }
            | Command::Show { .. } => self.behind_setup_step(),
            Command::Procedures(line) => self.proc_phase_step(line),
        }
    }
}
