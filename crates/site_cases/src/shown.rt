//! What a site keeps, as lines of reports.
ghost use Rattle.std.specs.Prelude.{◌≤◌, length, IsTrue};

use crate::member::Member;
use crate::told::{Told, text_of};
use case_reader::{CaseStop, push_name};
use rep_lists::NoMemory;
use rep_schema::{RowStore, Schema};
use report_text::{Lines, add_tables};
use row_tables::ListTables;
use site_engine::Site;
use site_report::{add_errors, add_journal, add_marks, add_queue};
use std::alloc::Global;

/// Whether a schema has at most 32 tables, as every declared one.
fn has_few_tables(schema: &Schema) -> bool
    ensures { IsTrue result → length schema.now.tables ≤ 32 }
{
    schema.tables.len() <= 32
}

fn add_rows(lines: &mut Lines, member: &Member) -> Result<(), CaseStop> {
    let store = member.site.store();
    if !has_few_tables(store.schema()) {
        return Err(CaseStop::NoCase);
    }
    add_tables(lines, member.name, member.site.held(), store)?;
    Ok(())
}

/// The moment, the clock and the last stamp.
fn numbers(alloc: Global, member: &Member) -> Told {
    let site: &Site<ListTables> = &member.site;
    let mut out = format!(in alloc; "site")?;
    push_name(&mut out, &member.name.0)?;
    push_moment(&mut out, alloc, site)?;
    Ok(Some(out))
}

fn push_moment(out: &mut String, alloc: Global, site: &Site<ListTables>) -> Result<(), NoMemory> {
    let (moment, stamps) = (site.moment(), site.stamps());
    out.push_str(&format!(in alloc;
        " moment {moment} clock {} last {}",
        stamps.clock, stamps.last
    )?)?;
    Ok(())
}

/// The lines of what a word names.
fn add_shown(lines: &mut Lines, word: &[u8], member: &Member) -> Result<(), NoMemory> {
    let (name, site) = (&member.name, &member.site);
    let destinations = member.parties.destinations.as_slice();
    match word {
        b"queue" => add_queue(lines, name, destinations, site),
        b"errors" => add_errors(lines, name, site),
        b"marks" => {
            let senders = member.parties.senders.as_slice();
            add_marks(lines, name, senders, destinations, site)
        }
        _ => add_journal(lines, name, site),
    }
}

fn told_tables(alloc: Global, member: &Member) -> Told {
    let mut lines = Lines::make(alloc);
    add_rows(&mut lines, member)?;
    Ok(Some(text_of(alloc, &lines)?))
}

fn told_lines(alloc: Global, word: &[u8], member: &Member) -> Told {
    let mut lines = Lines::make(alloc);
    add_shown(&mut lines, word, member)?;
    Ok(Some(text_of(alloc, &lines)?))
}

/// `show WORD SITE`: the word and the site, and then a line for each thing that is shown.
pub fn shown(alloc: Global, word: &[u8], member: &Member) -> Told {
    match word {
        b"tables" => told_tables(alloc, member),
        b"queue" | b"errors" | b"marks" | b"journal" => told_lines(alloc, word, member),
        b"site" => numbers(alloc, member),
        _ => Err(CaseStop::NoCase),
    }
}
