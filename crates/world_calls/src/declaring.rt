//! Tables that procedures write, and the procedures.
ghost use Rattle.std.specs.Prelude.{◌≡◌, ◌≤◌, None, length, IfOk, OnOk, OnErr};
ghost use Rattle.rep_schema.specs.Tables.{columns_in};
ghost use Rattle.world_state.specs.ProcDeclaring.{proc_table_named, with_proc_table, query_of, action_of, with_procedure};
ghost use Rattle.world_laws.specs.Built.{AreProcsDeclared};
ghost use Rattle.world.specs.Following.{IsBuilt};
ghost use Rattle.world.specs.Precheck.{precheck_refusal};
ghost use Rattle.world.specs.Doing.{DoesAnywhere};

use proc_state::{Action, Procedure};
use rep_lists::{Copies, Items, NoMemory};
use rep_schema::{Column, TableEntry};
use rep_values::{Name, TableName};
use schema_names::{find_table, table_place};
use script_parse::{ActionWords, Command, ProcLine, TestWords};
use snapshot_query::Query;
use std::alloc::Global;
use world::{Answer, CommandStop, Procs, WorldParts, column_number, tests_in, tests_of};

/// A table that procedures write, behind those that are declared.
fn put_table(
    procs: &mut Procs,
    alloc: Global,
    name: &TableName,
    columns: &Items<Column>,
) -> Result<(), NoMemory>
    ensures ok { OnOk result (procs.new ≡ with_proc_table name.now columns.now procs.old) }
    ensures err { OnErr result (procs.new ≡ procs.old) }
{
    let entry = TableEntry::plain(alloc, *name, columns.copy(alloc)?);
    procs.tables.push(entry)?;
    Ok(())
}

/// `proctable`
pub(crate) fn add_proc_table(
    parts: &mut WorldParts,
    alloc: Global,
    name: &TableName,
    columns: &Items<Column>,
) -> Result<Answer, CommandStop>
    requires { precheck_refusal (Command.Procedures (ProcLine.Table name.now columns.now)) parts.old ≡ None }
    ensures { DoesAnywhere (Command.Procedures (ProcLine.Table name.now columns.now)) parts.old parts.new result }
{
    let Ok(()) = put_table(&mut parts.procs, alloc, name, columns) else {
        return Err(CommandStop::Memory);
    };
    Ok(Answer::nothing(alloc))
}

/// The columns of the table of a name; none where it isn't there.
fn columns_named<'a>(tables: &'a [TableEntry], name: &TableName) -> &'a [Column]
    ensures { result.now ≡ columns_in (proc_table_named tables.now name.now) }
{
    match find_table(tables, name) {
        Some(entry) => entry.columns.as_slice(),
        None => &[],
    }
}

/// The query of a table that tests mean.
fn query_of(
    alloc: Global,
    columns: &[Column],
    tests: &Option<Items<TestWords>>,
) -> Result<Query, NoMemory>
    requires { length columns.now ≤ 32 }
    ensures { IfOk result (λ query. query ≡ query_of columns.now tests.now) }
{
    let tests = tests_of(alloc, columns, tests_in(tests))?;
    Ok(Query { tests })
}

/// The action on a table that words mean.
fn action_of(alloc: Global, columns: &[Column], action: &ActionWords) -> Result<Action, NoMemory>
    requires { length columns.now ≤ 32 }
    ensures { IfOk result (λ made. made ≡ action_of columns.now action.now) }
{
    match action {
        ActionWords::Put => Ok(Action::Put),
        ActionWords::Add { column, tests } => Ok(Action::Add {
            column: column_number(columns, column),
            tests: query_of(alloc, columns, tests)?,
        }),
        ActionWords::Drop { tests } => Ok(Action::Drop {
            tests: query_of(alloc, columns, tests)?,
        }),
    }
}

/// A procedure of a table, behind those that are declared.
fn put_procedure(
    procs: &mut Procs,
    alloc: Global,
    name: &Name,
    table: &TableName,
    action: &ActionWords,
) -> Result<(), NoMemory>
    requires { AreProcsDeclared procs.old }
    ensures ok { OnOk result (procs.new ≡ with_procedure name.now table.now action.now procs.old) }
    ensures err { OnErr result (procs.new ≡ procs.old) }
{
    let tables = procs.tables.as_slice();
    let Some(place) = table_place(tables, table) else {
        return Ok(());
    };
    let action = action_of(alloc, columns_named(tables, table), action)?;
    procs.procedures.push(Procedure {
        name: *name,
        table: place as u32,
        action,
    })?;
    Ok(())
}

/// `procedure`
pub(crate) fn add_procedure(
    parts: &mut WorldParts,
    alloc: Global,
    name: &Name,
    table: &TableName,
    action: &ActionWords,
) -> Result<Answer, CommandStop>
    requires built { IsBuilt parts.old }
    requires passes { precheck_refusal (Command.Procedures (ProcLine.Procedure name.now table.now action.now)) parts.old ≡ None }
    ensures { DoesAnywhere (Command.Procedures (ProcLine.Procedure name.now table.now action.now)) parts.old parts.new result }
{
    let Ok(()) = put_procedure(&mut parts.procs, alloc, name, table, action) else {
        return Err(CommandStop::Memory);
    };
    Ok(Answer::nothing(alloc))
}
