//! The calls of a site.
ghost use Rattle.std.specs.Prelude.{◌≤◌, length, IsTrue};

use crate::fitting::can_be_called;
use crate::packets::last_number;
use crate::told::{Told, refused, text_of, told};
use case_reader::{CaseStop, Words};
use page_tables::PageTables;
use proc_calls::{ProcSite, ProcStop};
use proc_state::ProcCall;
use rep_schema::{RowStore, Schema};
use rep_values::{ApplyError, SiteName};
use report_text::{Lines, add_proc_tables};
use site_state::Why;
use std::alloc::Global;

fn word_of_error(error: &ApplyError) -> &'static str {
    match error {
        ApplyError::ValueRange => "ValueRange",
        ApplyError::NoRow
        | ApplyError::DeleteConflict
        | ApplyError::UpdateConflict(_)
        | ApplyError::UniqueConflict(_)
        | ApplyError::CheckFailed(_) => "another error",
    }
}

fn told_failure(alloc: Global, call: u32, error: &ApplyError) -> Told {
    let word = word_of_error(error);
    Ok(Some(format!(in alloc; "call {call} {word}")?))
}

fn told_sent(alloc: Global, number: u64) -> Told {
    Ok(Some(format!(in alloc; "sent {number}")?))
}

/// The number under which the calls are queued, or why they aren't made.
pub fn send(alloc: Global, site: &mut ProcSite, calls: &[ProcCall], to: &[SiteName]) -> Told {
    if !can_be_called(site, calls) {
        return Err(CaseStop::NoCase);
    }
    match site.call(alloc, calls, to) {
        Ok(number) => told_sent(alloc, number),
        Err(ProcStop::Failed { call, error }) => told_failure(alloc, call, &error),
        Err(ProcStop::Memory) => Err(CaseStop::Memory),
    }
}

fn pass(alloc: Global, site: &mut ProcSite, origin: &SiteName, words: &Words) -> Told {
    words.end()?;
    let count = site.pass(alloc, origin)?;
    let low = site.mark(origin);
    Ok(Some(format!(in alloc;
        "pass done {} errors {} low {low}",
        count.done, count.errors
    )?))
}

/// How far a site came with another one, and how long its journal is.
fn marks(alloc: Global, site: &ProcSite, other: &SiteName, words: &Words) -> Told {
    words.end()?;
    let (low, last, acked) = (site.mark(other), site.last(other), site.acked(other));
    let entries = site.journal_len();
    Ok(Some(format!(in alloc; "low {low} last {last} acked {acked} entries {entries}")?))
}

fn word_of(why: Why) -> &'static str {
    match why {
        Why::Finished => "Finished",
        Why::NotArrived => "NotArrived",
        Why::NotReady => "NotReady",
    }
}

fn stale(alloc: Global, site: &ProcSite, origin: &SiteName, words: &mut Words) -> Told {
    let position = last_number(words)?;
    match site.stale(origin, position) {
        Some(why) => told(alloc, word_of(why)),
        None => told(alloc, "ready"),
    }
}

fn execute(alloc: Global, site: &mut ProcSite, origin: &SiteName, words: &mut Words) -> Told {
    let position = last_number(words)?;
    match site.execute_error(alloc, origin, position) {
        Ok(()) => told(alloc, "executed"),
        Err(refusal) => refused(alloc, &refusal),
    }
}

/// Whether a schema has at most 32 tables, as every declared one.
fn has_few_tables(schema: &Schema) -> bool
    ensures { IsTrue result → length schema.now.tables ≤ 32 }
{
    schema.tables.len() <= 32
}

fn add_rows(lines: &mut Lines, site: &ProcSite) -> Result<(), CaseStop> {
    let store: &PageTables = site.store();
    if !has_few_tables(store.schema()) {
        return Err(CaseStop::NoCase);
    }
    add_proc_tables(lines, *site.name(), store)?;
    Ok(())
}

/// The tables of a site.
pub fn show(alloc: Global, site: &ProcSite, words: &Words) -> Told {
    words.end()?;
    let mut lines = Lines::make(alloc);
    add_rows(&mut lines, site)?;
    Ok(Some(text_of(alloc, &lines)?))
}

/// What a call of this kind answers, with another site, which comes next.
pub fn called(alloc: Global, site: &mut ProcSite, kind: &[u8], words: &mut Words) -> Told {
    let other = words.site()?;
    match kind {
        b"pass" => pass(alloc, site, &other, words),
        b"marks" => marks(alloc, site, &other, words),
        b"stale" => stale(alloc, site, &other, words),
        b"execute" => execute(alloc, site, &other, words),
        _ => Err(CaseStop::NoCase),
    }
}
