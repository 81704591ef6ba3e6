//! The nine lines that a storm prints.
ghost use Rattle.std.specs.Prelude.{◌≡◌, ◌≤◌, ◌++◌, [], ◌∷◌, IfOk, OnOk};
ghost use Rattle.report_text.specs.Sheet.{line};
ghost use Rattle.storm_script.specs.Laws.{most_rounds};
ghost use Rattle.replication_cli.specs.Lines.{storm_line, tally_lines, totals_lines, agree_line};
ghost use Rattle.replication_cli.specs.Summary.{storm_summary};

use crate::run::run_storm;
use crate::stocks::{Totals, masters_agree, site_totals};
use crate::tally::Tally;
use itoa::{Buffer, Integer};
use rep_io::Watch;
use rep_lists::NoMemory;
use report_text::Lines;
use std::alloc::Global;
use std::mem;
use std::sync::Wait;
use std::thread::Threads;
use storm_script::first_site;

// Adds a line of a word and a number.
fn add_number<I: Integer>(lines: &mut Lines, first: &[u8], number: I) -> Result<(), NoMemory>
    ensures { OnOk result (lines.new.bytes ≡ lines.old.bytes ++ line first.now (I.text number ∷ [])) }
{
    let mut buffer = Buffer::new();
    lines.add(first)?;
    lines.add(b" ")?;
    lines.add(buffer.format(number).as_bytes())?;
    lines.add(b"\n")
}

// Adds the line of the words that were given.
fn add_words(lines: &mut Lines, seed: u64, count: u32) -> Result<(), NoMemory>
    ensures { OnOk result (lines.new.bytes ≡ lines.old.bytes ++ storm_line seed count) }
{
    let mut buffer = Buffer::new();
    lines.add(b"storm ")?;
    lines.add(buffer.format(seed).as_bytes())?;
    lines.add(b" ")?;
    lines.add(buffer.format(count).as_bytes())?;
    lines.add(b"\n")
}

// Adds the lines of what was told.
fn add_tally(lines: &mut Lines, tally: Tally) -> Result<(), NoMemory>
    ensures { OnOk result (lines.new.bytes ≡ lines.old.bytes ++ tally_lines tally) }
{
    add_number(lines, b"commits", tally.commits)?;
    add_number(lines, b"refused", tally.refused)?;
    add_number(lines, b"pushes", tally.pushes)?;
    add_number(lines, b"errors", tally.errors)
}

// Adds the lines of what the rows come to.
fn add_totals(lines: &mut Lines, totals: Totals) -> Result<(), NoMemory>
    ensures { OnOk result (lines.new.bytes ≡ lines.old.bytes ++ totals_lines totals) }
{
    add_number(lines, b"rows", totals.rows)?;
    add_number(lines, b"qty", totals.qty)?;
    add_number(lines, b"top", totals.top)
}

// Adds the line of whether the masters agree.
fn add_agree(lines: &mut Lines, agree: bool) -> Result<(), NoMemory>
    ensures { OnOk result (lines.new.bytes ≡ lines.old.bytes ++ agree_line agree) }
{
    if agree {
        lines.add(b"agree yes\n")
    } else {
        lines.add(b"agree no\n")
    }
}

// The nine lines of what was told, and of what the rows come to.
fn lines_of(
    alloc: Global,
    seed: u64,
    count: u32,
    tally: Tally,
    totals: Totals,
    agree: bool,
) -> Result<Lines, NoMemory>
    ensures { IfOk result (λ lines. lines.bytes ≡ storm_line seed count ++ (tally_lines tally ++ (totals_lines totals ++ agree_line agree))) }
{
    let mut lines = Lines::make(alloc);
    add_words(&mut lines, seed, count)?;
    add_tally(&mut lines, tally)?;
    add_totals(&mut lines, totals)?;
    add_agree(&mut lines, agree)?;
    Ok(lines)
}

/// Runs the storm of a seed and a number of rounds with so many appliers, and tells what came of it.
pub fn summary<X: Threads + Wait + Sync, W: Watch>(
    rt: &X,
    alloc: Global,
    seed: u64,
    count: u32,
    appliers: u32,
    watch: &W,
) -> Result<Lines, NoMemory>
    requires count { count ≤ most_rounds }
    requires appliers { (1 ≤ appliers) × (appliers ≤ 8) }
    ensures { IfOk result (λ lines. lines.bytes ≡ storm_summary seed count) }
{
    let run = run_storm(rt, alloc, seed, count, appliers, watch)?;
    let totals = site_totals(run.world(), &first_site());
    let agree = masters_agree(run.world());
    let told = lines_of(alloc, seed, count, run.tally(), totals, agree);
    // The process ends when this is written, and with it goes the memory of the world.
    mem::forget(run);
    told
}
