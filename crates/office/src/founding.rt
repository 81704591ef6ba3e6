//! What the lines of a text declare.
ghost use Rattle.std.specs.Prelude.{◌≡◌, ◌⊎◌, None, Some, Ok, IfOk, IfErr, OnOk};
ghost use Rattle.rep_values.specs.declared.refusal.Refusal.TheVariants as refusal;
ghost use Rattle.rep_schema.specs.Shape.{HasShape};
ghost use Rattle.rep_declare.specs.Additions.{ColumnNamed};
ghost use Rattle.script_parse.specs.Named.{NamesColumn};
ghost use Rattle.script_parse.specs.Parsed.{parsed};
ghost use Rattle.office.specs.Lines.{lines_of};
ghost use Rattle.office.specs.Founding.{nothing_founded, is_declared_here, has_rows, declaration_refusal, founded_by, founded, IsTaken, AreTaken};
ghost use Rattle.office.specs.Stops.{CommandStops, LineStops, TextStops, stop_at_line};

use crate::error::{OfficeError, refused_at};
use crate::lines::split_line;
use local_txn::put_base_row;
use page_tables::PageTables;
use rep_declare::{Declare, table_shaped};
use rep_lists::{Items, NoMemory};
use rep_schema::{RowStore, Schema};
use rep_values::{Literal, Refusal, TableName};
use schema_names::table_place;
use script_lex::LineStop;
use script_parse::{Command, parse_line};
use std::alloc::Global;
use std::marker::Model;

/// The schema that lines declare, and the rows that they put.
#[derive(Drop)]
pub(crate) struct Founding {
    pub(crate) store: PageTables,
}

impl Model for Founding {
    ghost use Rattle.rep_schema.specs.Shape.{HasShape};
    ghost use Rattle.office.specs.Founding.{Founded};

    ghost Value = { Founded };

    ghost view = { λ f. record { schema = f.store.schema; rows = f.store.tables } };

    ghost invariant = { λ f. HasShape f.store.schema };
}

/// Why a line is no command.
pub(crate) fn stop_at_line(line: u64, stop: LineStop) -> OfficeError
    ensures { result ≡ stop_at_line line stop }
{
    match stop {
        LineStop::Rule(rule) => OfficeError::Malformed { line, rule },
        LineStop::Memory => OfficeError::Memory,
    }
}

/// Whether a declaration is one that an office takes: there are no late sites and no snapshot sites.
fn is_declared_here(declaration: &Declare) -> bool
    ensures { result ≡ is_declared_here declaration.now }
{
    match declaration {
        Declare::LateSite { .. } | Declare::SnapSite { .. } => false,
        Declare::Site { .. }
        | Declare::Table { .. }
        | Declare::Group { .. }
        | Declare::Method { .. }
        | Declare::Priority { .. }
        | Declare::SiteLevel { .. }
        | Declare::Unique { .. }
        | Declare::UniqueMethod { .. }
        | Declare::Check { .. }
        | Declare::Convergent { .. } => true,
    }
}

impl Founding {
    /// Nothing is declared.
    fn new(alloc: Global) -> Result<Founding, NoMemory>
        ensures { IfOk result (λ founding. founding ≡ nothing_founded) }
    {
        let store = PageTables::make(alloc, Schema::empty(alloc))?;
        Ok(Founding { store })
    }

    /// Whether a table has rows.
    fn has_rows(&self, table: Option<TableName>) -> bool
        ensures { result ≡ has_rows self.now table }
    {
        let Some(table) = table else {
            return false;
        };
        let Some(place) = table_place(self.store.schema().tables.as_slice(), &table) else {
            return false;
        };
        self.store.count(place as u32) > 0
    }

    /// Adds a declaration. One that shapes a table stands in front of the table's rows.
    fn declare(&mut self, alloc: Global, declaration: &Declare) -> Result<(), Refusal>
        requires { ColumnNamed declaration.now }
        ensures ok { OnOk result (self.new ≡ founded_by (Ok (Command.Declare declaration.now)) self.old) }
        ensures passes { OnOk result (declaration_refusal declaration.now self.old ≡ None) }
        ensures err { IfErr result (λ why. (why ≡ refusal.Memory) ⊎ (declaration_refusal declaration.now self.old ≡ Some why)) }
    {
        if self.has_rows(table_shaped(declaration)) {
            return Err(Refusal::WrongPhase);
        }
        self.store.declare(alloc, declaration)?;
        Ok(())
    }

    /// Takes a line that declares something.
    fn take_declaration(
        &mut self,
        alloc: Global,
        number: u64,
        declaration: &Declare,
    ) -> Result<(), OfficeError>
        requires { ColumnNamed declaration.now }
        ensures ok { OnOk result (self.new ≡ founded_by (Ok (Command.Declare declaration.now)) self.old) }
        ensures taken { OnOk result (IsTaken (Ok (Command.Declare declaration.now)) self.old) }
        ensures err { IfErr result (λ why. CommandStops why number (Command.Declare declaration.now) self.old) }
    {
        if !is_declared_here(declaration) {
            return Err(OfficeError::NotTaken { line: number });
        }
        match self.declare(alloc, declaration) {
            Ok(()) => Ok(()),
            Err(refusal) => Err(refused_at(number, refusal)),
        }
    }

    /// Takes a line that puts a row.
    fn take_row(
        &mut self,
        alloc: Global,
        number: u64,
        table: &TableName,
        values: &Items<Literal>,
    ) -> Result<(), OfficeError>
        ensures ok { OnOk result (self.new ≡ founded_by (Ok (Command.Row table.now values.now)) self.old) }
        ensures taken { OnOk result (IsTaken (Ok (Command.Row table.now values.now)) self.old) }
        ensures err { IfErr result (λ why. CommandStops why number (Command.Row table.now values.now) self.old) }
    {
        match put_base_row(alloc, &mut self.store, table, values.as_slice()) {
            Ok(()) => Ok(()),
            Err(refusal) => Err(refused_at(number, refusal)),
        }
    }

    /// Takes what a line is.
    fn take_command(
        &mut self,
        alloc: Global,
        number: u64,
        command: &Command,
    ) -> Result<(), OfficeError>
        requires { NamesColumn command.now }
        ensures ok { OnOk result (self.new ≡ founded_by (Ok command.now) self.old) }
        ensures taken { OnOk result (IsTaken (Ok command.now) self.old) }
        ensures err { IfErr result (λ why. CommandStops why number command.now self.old) }
    {
        match command {
            Command::Nothing => Ok(()),
            Command::Declare(declaration) => self.take_declaration(alloc, number, declaration),
            Command::Row { table, values } => self.take_row(alloc, number, table, values),
            Command::Snapshot { .. }
            | Command::Resume
            | Command::Statement(_)
            | Command::Txn { .. }
            | Command::Commit
            | Command::Abandon
            | Command::Push { .. }
            | Command::Fates { .. }
            | Command::ClearFates { .. }
            | Command::Link { .. }
            | Command::Clock { .. }
            | Command::Purge { .. }
            | Command::Execute { .. }
            | Command::DropError { .. }
            | Command::Refresh { .. }
            | Command::PurgeLog { .. }
            | Command::Suspend
            | Command::Join { .. }
            | Command::Show { .. }
            | Command::Procedures(_) => Err(OfficeError::NotTaken { line: number }),
        }
    }

    /// Takes a line.
    fn take_line(&mut self, alloc: Global, number: u64, line: &[u8]) -> Result<(), OfficeError>
        ensures ok { OnOk result (self.new ≡ founded_by (parsed line.now) self.old) }
        ensures taken { OnOk result (IsTaken (parsed line.now) self.old) }
        ensures err { IfErr result (λ why. LineStops why number line.now self.old) }
    {
        match parse_line(alloc, line) {
            Ok(command) => self.take_command(alloc, number, &command),
            Err(stop) => Err(stop_at_line(number, stop)),
        }
    }
}

/// What the lines of a text declare, or the first of them that isn't taken, and why.
pub(crate) fn founding_of(alloc: Global, text: &[u8]) -> Result<Founding, OfficeError>
    ensures ok { IfOk result (λ founding. founding ≡ founded (lines_of text.now) nothing_founded) }
    ensures taken { OnOk result (AreTaken (lines_of text.now) nothing_founded) }
    ensures err { IfErr result (λ why. TextStops why text.now) }
{
    let mut founding = Founding::new(alloc)?;
    let mut left = text;
    let mut number = 0;
    while !left.is_empty() {
        let (line, rest) = split_line(left);
        number += 1;
        founding.take_line(alloc, number, line)?;
        left = rest;
    }
    Ok(founding)
}
