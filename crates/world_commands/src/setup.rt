//! Declarations, rows that masters begin with, and the phases of a script.
ghost use Rattle.std.specs.Prelude.{◌≡◌, true, None, OnOk, OnErr};
ghost use Rattle.schema_rules.specs.Rules.{broken_rule};
ghost use Rattle.script_parse.specs.Named.{NamesColumn};
ghost use Rattle.site_state.specs.Fits.{SchemaIsKeyed};
ghost use Rattle.proc_state.specs.Calls.{AreProcedures};
ghost use Rattle.world_state.specs.Making.{world_made};
ghost use Rattle.world_state.specs.Phases.{is_setup, broken_by};
ghost use Rattle.world_state.specs.Procs.{proc_schema, procs_made};
ghost use Rattle.world.specs.Following.{IsBuilt};
ghost use Rattle.world.specs.Precheck.{precheck_refusal};
ghost use Rattle.world.specs.Doing.{DoesAnywhere};

use local_txn::put_base_row;
use rep_declare::Declare;
use rep_lists::{Items, NoMemory};
use rep_schema::{RowStore, Schema};
use rep_values::{Literal, TableName};
use script_parse::Command;
use site_making::{make_net, make_proc_sites, make_sites};
use std::alloc::Global;
use world::{Answer, CommandStop, Procs, WorldParts};
use world_state::Phase;

/// A line that declares something.
pub fn declare(
    parts: &mut WorldParts,
    alloc: Global,
    declaration: &Declare,
) -> Result<Answer, CommandStop>
    requires built { IsBuilt parts.old }
    requires named { NamesColumn (Command.Declare declaration.now) }
    requires passes { precheck_refusal (Command.Declare declaration.now) parts.old ≡ None }
    ensures { DoesAnywhere (Command.Declare declaration.now) parts.old parts.new result }
{
    match parts.store.declare(alloc, declaration) {
        Ok(()) => Ok(Answer::nothing(alloc)),
        Err(refusal) => Err(CommandStop::Refused(refusal)),
    }
}

/// `row`
pub fn add_row(
    parts: &mut WorldParts,
    alloc: Global,
    table: &TableName,
    values: &Items<Literal>,
) -> Result<Answer, CommandStop>
    requires built { IsBuilt parts.old }
    requires passes { precheck_refusal (Command.Row table.now values.now) parts.old ≡ None }
    ensures { DoesAnywhere (Command.Row table.now values.now) parts.old parts.new result }
{
    match put_base_row(alloc, &mut parts.store, table, values.as_slice()) {
        Ok(()) => Ok(Answer::nothing(alloc)),
        Err(refusal) => Err(CommandStop::Refused(refusal)),
    }
}

/// The sites that hold tables of procedures are made, and the net of calls between them.
fn end_procs(procs: &mut Procs, alloc: Global, schema: &Schema) -> Result<(), NoMemory>
    requires keyed { SchemaIsKeyed (proc_schema schema.now procs.old.tables) }
    requires procedures { AreProcedures (proc_schema schema.now procs.old.tables) procs.old.procedures }
    ensures ok { OnOk result (procs.new ≡ procs_made schema.now procs.old) }
    ensures err { OnErr result (procs.new ≡ procs.old) }
{
    let sites = make_proc_sites(alloc, schema, &procs.tables, &procs.procedures)?;
    let net = make_net(alloc, schema)?;
    procs.sites = sites;
    procs.net = net;
    Ok(())
}

/// Setup ends: the sites are made, and the nets between them.
fn end_setup(parts: &mut WorldParts, alloc: Global) -> Result<(), NoMemory>
    requires built { IsBuilt parts.old }
    requires setup { is_setup parts.old.phase ≡ true }
    requires sound { broken_rule parts.old.schema ≡ None }
    requires keyed { broken_by parts.old.procs.tables ≡ None }
    ensures ok { OnOk result (parts.new ≡ world_made parts.old) }
    ensures err { OnErr result (parts.new ≡ parts.old) }
{
    let sites = make_sites(alloc, &parts.store, parts.snapshots.as_slice())?;
    let net = make_net(alloc, parts.store.schema())?;
    end_procs(&mut parts.procs, alloc, parts.store.schema())?;
    // What follows can't fail.
    parts.sites = sites;
    parts.net = net;
    parts.phase = Phase::Running;
    Ok(())
}

/// `resume`
pub fn resume(parts: &mut WorldParts, alloc: Global) -> Result<Answer, CommandStop>
    requires built { IsBuilt parts.old }
    requires passes { precheck_refusal Command.Resume parts.old ≡ None }
    ensures { DoesAnywhere Command.Resume parts.old parts.new result }
{
    match parts.phase {
        Phase::Setup => {
            let Ok(()) = end_setup(parts, alloc) else {
                return Err(CommandStop::Memory);
            };
        }
        Phase::Running => {}
        Phase::Suspended => parts.phase = Phase::Running,
    }
    Ok(Answer::nothing(alloc))
}

/// `suspend`
pub fn suspend(parts: &mut WorldParts, alloc: Global) -> Result<Answer, CommandStop>
    requires passes { precheck_refusal Command.Suspend parts.old ≡ None }
    ensures { DoesAnywhere Command.Suspend parts.old parts.new result }
{
    parts.phase = Phase::Suspended;
    Ok(Answer::nothing(alloc))
}
