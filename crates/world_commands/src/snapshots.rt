//! Snapshots that are declared.
ghost use Rattle.std.specs.Prelude.{◌≡◌, ◌≤◌, ◌<◌, Some, None, length, map, IfOk};
ghost use Rattle.rep_schema.specs.Shape.{HasShape};
ghost use Rattle.rep_schema.specs.Tables.{columns_of};
ghost use Rattle.rep_declare.specs.Additions.{column_number};
ghost use Rattle.world_state.specs.Declaring.{query_of, declared_snapshot};
ghost use Rattle.world.specs.Following.{IsBuilt};
ghost use Rattle.world.specs.Precheck.{precheck_refusal};
ghost use Rattle.world.specs.Doing.{DoesAnywhere};
ghost use Rattle.world_commands.specs.Declaring.{IsParentThere};

use rep_lists::{Items, NoMemory};
use rep_schema::{Column, RowStore, Schema, columns_of};
use rep_values::{Name, SiteName, TableName};
use schema_names::table_place;
use script_parse::{Command, ParentWords, TestWords};
use snapshot_query::{Parent, Query};
use std::alloc::Global;
use world::{Answer, CommandStop, WorldParts, column_number, tests_in, tests_of};
use world_state::DeclaredSnapshot;

/// The places of columns of these names.
fn columns_at(alloc: Global, columns: &[Column], names: &[Name]) -> Result<Items<u32>, NoMemory>
    requires { length columns.now ≤ 32 }
    ensures { IfOk result (λ places. places ≡ map (column_number columns.now) names.now) }
{
    let mut places = Items::new(alloc);
    for name in names {
        places.push(column_number(columns, name))?;
    }
    Ok(places)
}

/// The query that words mean.
fn query_of(alloc: Global, columns: &[Column], words: &[TestWords]) -> Result<Query, NoMemory>
    requires { length columns.now ≤ 32 }
    ensures { IfOk result (λ query. query ≡ query_of columns.now words.now) }
{
    let tests = tests_of(alloc, columns, words)?;
    Ok(Query { tests })
}

/// A snapshot of a table at a site, with tests of its rows.
fn own_snapshot(
    alloc: Global,
    schema: &Schema,
    site: SiteName,
    table: u32,
    words: &[TestWords],
) -> Result<DeclaredSnapshot, NoMemory>
    requires shape { HasShape schema.now }
    requires table { table < length schema.now.tables }
    ensures { IfOk result (λ snapshot. snapshot ≡ declared_snapshot schema.now site table None words.now) }
{
    let query = query_of(alloc, columns_of(schema, table), words)?;
    Ok(DeclaredSnapshot {
        site,
        table,
        query,
        parent: None,
    })
}

/// A snapshot of a table at a site, with tests of its parents' rows.
fn snapshot_by_parent(
    alloc: Global,
    schema: &Schema,
    site: SiteName,
    table: u32,
    parent: &ParentWords,
    words: &[TestWords],
) -> Result<DeclaredSnapshot, NoMemory>
    requires shape { HasShape schema.now }
    requires table { table < length schema.now.tables }
    requires parent { IsParentThere schema.now (Some parent.now) }
    ensures { IfOk result (λ snapshot. snapshot ≡ declared_snapshot schema.now site table (Some parent.now) words.now) }
{
    let Some(place) = table_place(schema.tables.as_slice(), &parent.table) else {
        unreachable!()
    };
    let columns = columns_at(alloc, columns_of(schema, table), parent.columns.as_slice())?;
    let tests = query_of(alloc, columns_of(schema, place as u32), words)?;
    Ok(DeclaredSnapshot {
        site,
        table,
        query: Query {
            tests: Items::new(alloc),
        },
        parent: Some(Parent {
            table: place as u32,
            columns,
            tests,
        }),
    })
}

/// A snapshot of a table at a site, with tests of its rows, or of its parents' where it has a parent.
fn declared_snapshot(
    alloc: Global,
    schema: &Schema,
    site: SiteName,
    table: u32,
    parent: &Option<ParentWords>,
    words: &[TestWords],
) -> Result<DeclaredSnapshot, NoMemory>
    requires shape { HasShape schema.now }
    requires table { table < length schema.now.tables }
    requires parent { IsParentThere schema.now parent.now }
    ensures { IfOk result (λ snapshot. snapshot ≡ declared_snapshot schema.now site table parent.now words.now) }
{
    match parent {
        Some(parent) => snapshot_by_parent(alloc, schema, site, table, parent, words),
        None => own_snapshot(alloc, schema, site, table, words),
    }
}

/// `snapshot` or `subsnapshot`
pub fn add_snapshot(
    parts: &mut WorldParts,
    alloc: Global,
    site: &SiteName,
    table: &TableName,
    parent: &Option<ParentWords>,
    tests: &Option<Items<TestWords>>,
) -> Result<Answer, CommandStop>
    requires built { IsBuilt parts.old }
    requires passes { precheck_refusal (Command.Snapshot site.now table.now parent.now tests.now) parts.old ≡ None }
    ensures { DoesAnywhere (Command.Snapshot site.now table.now parent.now tests.now) parts.old parts.new result }
{
    let schema = parts.store.schema();
    let Some(place) = table_place(schema.tables.as_slice(), table) else {
        unreachable!()
    };
    let words = tests_in(tests);
    let Ok(snapshot) = declared_snapshot(alloc, schema, *site, place as u32, parent, words) else {
        return Err(CommandStop::Memory);
    };
    let Ok(()) = parts.snapshots.push(snapshot) else {
        return Err(CommandStop::Memory);
    };
    Ok(Answer::nothing(alloc))
}
