//! The sites that hold tables of procedures, as the end of Setup makes them.
ghost use Rattle.std.specs.Prelude.{◌≡◌, map, filter, IfOk};
ghost use Rattle.rep_schema.specs.Shape.{AreDistinct, is_early_master};
ghost use Rattle.rep_schema.specs.Sites.{names_of};
ghost use Rattle.site_state.specs.Fits.{SchemaIsKeyed};
ghost use Rattle.site_events.specs.Events.{without};
ghost use Rattle.proc_state.specs.Calls.{AreProcedures};
ghost use Rattle.world_state.specs.Procs.{proc_schema, early_masters, proc_made};

use proc_calls::ProcSite;
use proc_state::Procedure;
use rep_lists::{Copies, Items, NoMemory};
use rep_schema::{Schema, SiteEntry, TableEntry};
use rep_values::SiteName;
use std::alloc::Global;

/// The names of the masters among some entries that are there from the start.
fn early_masters(alloc: Global, entries: &[SiteEntry]) -> Result<Items<SiteName>, NoMemory>
    ensures { IfOk result (λ names. names ≡ names_of (filter is_early_master entries.now)) }
{
    let mut names = Items::new(alloc);
    for entry in entries {
        if entry.is_early_master() {
            names.push(entry.name)?;
        }
    }
    Ok(names)
}

/// These names without one.
fn without(alloc: Global, name: &SiteName, names: &[SiteName]) -> Result<Items<SiteName>, NoMemory>
    ensures { IfOk result (λ others. others ≡ without name.now names.now) }
{
    let mut others = Items::new(alloc);
    for other in names {
        if !other.is_same(name) {
            others.push(*other)?;
        }
    }
    Ok(others)
}

/// A schema of the declared sites, with the tables of procedures alone.
fn proc_schema(
    alloc: Global,
    schema: &Schema,
    tables: &Items<TableEntry>,
) -> Result<Schema, NoMemory>
    ensures { IfOk result (λ made. made ≡ proc_schema schema.now tables.now) }
{
    Ok(Schema {
        sites: schema.sites.copy(alloc)?,
        tables: tables.copy(alloc)?,
        priorities: Items::new(alloc),
    })
}

/// A master of a name among masters.
fn proc_made(
    alloc: Global,
    schema: &Schema,
    procedures: &Items<Procedure>,
    masters: &[SiteName],
    name: &SiteName,
) -> Result<ProcSite, NoMemory>
    requires keyed { SchemaIsKeyed schema.now }
    requires procedures { AreProcedures schema.now procedures.now }
    requires distinct { AreDistinct masters.now }
    ensures { IfOk result (λ made. made ≡ proc_made schema.now procedures.now masters.now name.now) }
{
    let own = schema.copy(alloc)?;
    let its = procedures.copy(alloc)?;
    let others = without(alloc, name, masters)?;
    let made = ProcSite::make(alloc, own, its, *name, others.as_slice())?;
    Ok(made)
}

/// Each of some masters, among these.
fn procs_made(
    alloc: Global,
    schema: &Schema,
    procedures: &Items<Procedure>,
    masters: &[SiteName],
) -> Result<Vec<ProcSite>, NoMemory>
    requires keyed { SchemaIsKeyed schema.now }
    requires procedures { AreProcedures schema.now procedures.now }
    requires distinct { AreDistinct masters.now }
    ensures { IfOk result (λ made. made.items ≡ map (proc_made schema.now procedures.now masters.now) masters.now) }
{
    let mut made = Vec::new(alloc);
    for name in masters {
        made.push(proc_made(alloc, schema, procedures, masters, name)?)?;
    }
    Ok(made)
}

/// The sites of the masters that are there from the start, in declared order, with these tables and procedures: the tables are
/// empty, and nothing happened yet.
pub fn make_proc_sites(
    alloc: Global,
    schema: &Schema,
    tables: &Items<TableEntry>,
    procedures: &Items<Procedure>,
) -> Result<Vec<ProcSite>, NoMemory>
    requires keyed { SchemaIsKeyed (proc_schema schema.now tables.now) }
    requires procedures { AreProcedures (proc_schema schema.now tables.now) procedures.now }
    ensures { IfOk result (λ sites. sites.items ≡ map (proc_made (proc_schema schema.now tables.now) procedures.now (early_masters schema.now)) (early_masters schema.now)) }
{
    let own = proc_schema(alloc, schema, tables)?;
    let masters = early_masters(alloc, schema.sites.as_slice())?;
    let sites = procs_made(alloc, &own, procedures, masters.as_slice())?;
    Ok(sites)
}
