//! What is declared before the sites are opened.
ghost use Rattle.std.specs.Prelude.{◌≡◌, not, filter, IfOk, OnOk};
ghost use Rattle.rep_schema.specs.Shape.{HasShape};
ghost use Rattle.rep_schema.specs.Sites.{names_of};
ghost use Rattle.rep_values.specs.SiteNames.{is_same_site};
ghost use Rattle.site_state.specs.Fits.{SchemaIsKeyed};
ghost use Rattle.proc_state.specs.Calls.{AreProcedures};

use crate::fitting::are_procedures;
use crate::told::Told;
use case_reader::{CaseStop, Words, declare};
use local_txn::sound_schemas_fill_freely;
use proc_calls::ProcSite;
use proc_state::{Action, Procedure};
use rep_laws::sound_schemas_have_keys;
use rep_lists::{Copies, Items, NoMemory};
use rep_schema::{Schema, SiteEntry};
use rep_values::{ApplyError, Refusal, SiteName};
use schema_rules::check;
use snapshot_query::Query;
use std::alloc::Global;
use std::marker::Model;

/// A schema, and procedures of its tables.
#[derive(Drop)]
pub struct Declared {
    schema: Schema,
    procedures: Items<Procedure>,
}

impl Model for Declared {
    ghost use Rattle.rep_schema.specs.declared.schema.Schema.{Schema as SchemaValue};
    ghost use Rattle.rep_schema.specs.Shape.{HasShape};

    ghost Value = { SchemaValue };

    ghost view = { λ d. d.schema };

    ghost invariant = { λ d. HasShape d.schema };
}

/// Adds the declaration that a line is. One that is refused is no case.
fn add_declaration(alloc: Global, schema: &mut Schema, words: &mut Words) -> Told
    requires { HasShape schema.old }
    ensures { HasShape schema.new }
{
    let refused: Option<Refusal> = declare(alloc, schema, words)?;
    // No declaration has this refusal; the check of this function asks that the error's type is named.
    if let Some(Refusal::StillFails(ApplyError::NoRow)) = refused {
        return Err(CaseStop::NoCase);
    }
    match refused {
        None => Ok(None),
        Some(_) => Err(CaseStop::NoCase),
    }
}

/// A place of a table, a column or a procedure.
pub fn read_place(words: &mut Words) -> Result<u32, CaseStop> {
    u32::try_from(words.whole()?).map_err(|_| CaseStop::NoCase)
}

/// All rows pass.
fn every_row(alloc: Global) -> Query {
    Query {
        tests: Items::new(alloc),
    }
}

fn read_add(alloc: Global, words: &mut Words) -> Result<Action, CaseStop> {
    Ok(Action::Add {
        column: read_place(words)?,
        tests: every_row(alloc),
    })
}

fn read_action(alloc: Global, words: &mut Words) -> Result<Action, CaseStop> {
    match words.word()? {
        b"put" => Ok(Action::Put),
        b"add" => read_add(alloc, words),
        b"drop" => Ok(Action::Drop {
            tests: every_row(alloc),
        }),
        _ => Err(CaseStop::NoCase),
    }
}

/// `NAME TABLE ACTION`, up to the end of the line.
fn read_procedure(alloc: Global, words: &mut Words) -> Result<Procedure, CaseStop> {
    let procedure = Procedure {
        name: words.name()?,
        table: read_place(words)?,
        action: read_action(alloc, words)?,
    };
    words.end()?;
    Ok(procedure)
}

/// The names of the sites but this one, in declared order.
fn names_but(alloc: Global, sites: &[SiteEntry], name: &SiteName) -> Result<Vec<SiteName>, NoMemory>
    ensures { IfOk result (λ names. names.items ≡ filter (λ n. not (is_same_site n name.now)) (names_of sites.now)) }
{
    let mut names = Vec::new(alloc);
    for entry in sites {
        if !entry.name.is_same(name) {
            names.push(entry.name)?;
        }
    }
    Ok(names)
}

/// The schema breaks no rule, and has these procedures; else there is no case.
fn sound(schema: &Schema, procedures: &[Procedure]) -> Result<(), CaseStop>
    requires { HasShape schema.now }
    ensures keyed { OnOk result (SchemaIsKeyed schema.now) }
    ensures procedures { OnOk result (AreProcedures schema.now procedures.now) }
{
    let Ok(()) = check(schema) else {
        return Err(CaseStop::NoCase);
    };
    sound_schemas_have_keys();
    sound_schemas_fill_freely();
    if !are_procedures(schema, procedures) {
        return Err(CaseStop::NoCase);
    }
    Ok(())
}

/// The site of a name, of a schema that breaks no rule and has these procedures.
fn opened(
    alloc: Global,
    schema: &Schema,
    procedures: &Items<Procedure>,
    name: SiteName,
) -> Result<ProcSite, NoMemory>
    requires keyed { SchemaIsKeyed schema.now }
    requires procedures { AreProcedures schema.now procedures.now }
{
    let others = names_but(alloc, schema.sites.as_slice(), &name)?;
    ProcSite::make(
        alloc,
        schema.copy(alloc)?,
        procedures.copy(alloc)?,
        name,
        &others,
    )
}

/// Opens the site of each name, one behind the other.
fn open_all(
    alloc: Global,
    schema: &Schema,
    procedures: &Items<Procedure>,
    sites: &mut Vec<ProcSite>,
) -> Result<(), NoMemory>
    requires keyed { SchemaIsKeyed schema.now }
    requires procedures { AreProcedures schema.now procedures.now }
{
    for entry in schema.sites.as_slice() {
        let site = opened(alloc, schema, procedures, entry.name)?;
        sites.push(site)?;
    }
    Ok(())
}

impl Declared {
    /// Nothing is declared.
    pub fn new(alloc: Global) -> Declared {
        Declared {
            schema: Schema::empty(alloc),
            procedures: Items::new(alloc),
        }
    }

    /// Adds the declaration that a line is.
    pub fn declare(&mut self, alloc: Global, words: &mut Words) -> Told {
        add_declaration(alloc, &mut self.schema, words)
    }

    /// Adds the next procedure. Whether it is one of the schema is tested when the sites are opened.
    pub fn add_procedure(&mut self, alloc: Global, words: &mut Words) -> Told {
        let procedure = read_procedure(alloc, words)?;
        self.procedures.push(procedure)?;
        Ok(None)
    }

    /// Opens the sites, one after the other, behind those that are given.
    pub fn open_each(&self, alloc: Global, sites: &mut Vec<ProcSite>) -> Result<(), CaseStop> {
        sound(&self.schema, self.procedures.as_slice())?;
        open_all(alloc, &self.schema, &self.procedures, sites)?;
        Ok(())
    }
}
