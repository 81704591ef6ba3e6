//! Local transactions on the table.
ghost use Rattle.std.specs.Prelude.{◌≡◌};
ghost use Rattle.rep_schema.specs.Shape.{HasShape};
ghost use Rattle.txn_effects.specs.Calls.{KeysStandAlone};
ghost use Rattle.conflict_detect.specs.KeysNamed.{HasKeys};

use case_reader::{CaseStop, Words, read_statement};
use local_txn::run_local;
use page_tables::PageTables;
use rep_calls::Statement;
use rep_schema::TableSet;
use rep_values::{Name, SiteName};
use script_lex::lex;
use std::alloc::Global;
use txn_effects::{Here, Stamps};

/// Where the transactions run.
#[derive(Clone, Copy)]
pub struct Bench {
    alloc: Global,
    here: Here,
    stamps: Stamps,
}

impl Bench {
    /// At a master of this name; None where it is none.
    pub fn at(alloc: Global, site: &[u8]) -> Option<Bench> {
        Some(Bench {
            alloc,
            here: Here {
                site: SiteName(Name::of(site)?),
                is_master: true,
                tables: TableSet::of(&[0]),
            },
            stamps: Stamps { clock: 0, last: 0 },
        })
    }
}

fn statement(alloc: Global, line: &str) -> Result<Statement, CaseStop> {
    let tokens = lex(alloc, line.as_bytes())?;
    read_statement(alloc, &mut Words::of(tokens.as_slice()))
}

/// An insert of the row of a number.
fn insert(bench: &Bench, row: u64) -> Result<Statement, CaseStop> {
    let line = format!(in bench.alloc; "insert STOCK 'A' {row} 1000 0 'base'")?;
    statement(bench.alloc, &line)
}

/// An update of the row of a number to other values.
fn update_there(bench: &Bench, row: u64) -> Result<Statement, CaseStop> {
    let line = format!(in bench.alloc;
        "update STOCK 'A' {row} : QTY + 3, TOP = 12345, NAME = 'n12345'"
    )?;
    statement(bench.alloc, &line)
}

/// An update of the row of a number from those values back.
fn update_back(bench: &Bench, row: u64) -> Result<Statement, CaseStop> {
    let line = format!(in bench.alloc;
        "update STOCK 'A' {row} : QTY + -3, TOP = 12344, NAME = 'n12344'"
    )?;
    statement(bench.alloc, &line)
}

/// Whether the block ran.
fn run(store: &mut PageTables, bench: &mut Bench, block: &[Statement]) -> bool
    requires shape { HasShape store.old.schema }
    requires keys { HasKeys store.old.schema }
    requires apart { KeysStandAlone store.old.schema }
    ensures { store.new.schema ≡ store.old.schema }
{
    run_local(bench.alloc, store, &mut bench.stamps, &bench.here, block).is_ok()
}

/// Inserts so many rows.
pub fn filled(store: &mut PageTables, bench: &mut Bench, rows: u64) -> Result<(), CaseStop>
    requires shape { HasShape store.old.schema }
    requires keys { HasKeys store.old.schema }
    requires apart { KeysStandAlone store.old.schema }
    ensures { store.new.schema ≡ store.old.schema }
{
    for row in 0..rows {
        let block = [insert(bench, row)?];
        if !run(store, bench, &block) {
            return Err(CaseStop::NoCase);
        }
    }
    Ok(())
}

/// Updates the row in the middle so many times, in turn to other values and back, and counts the updates that ran.
pub fn updated(
    store: &mut PageTables,
    bench: &mut Bench,
    rows: u64,
    count: u64,
) -> Result<u64, CaseStop>
    requires shape { HasShape store.old.schema }
    requires keys { HasKeys store.old.schema }
    requires apart { KeysStandAlone store.old.schema }
{
    let row = rows / 2;
    let blocks = [[update_there(bench, row)?], [update_back(bench, row)?]];
    let mut run_well: u64 = 0;
    for number in 0..count {
        if run(store, bench, &blocks[(number % 2) as usize]) {
            run_well = run_well.saturating_add(1);
        }
    }
    Ok(run_well)
}
