//! The errors that the newest entries of a journal brought.
ghost use Rattle.std.specs.Prelude.{◌≡◌, ℕ, ◌≤◌, ◌++◌, Some, length, take, flat_map, IfOk, OnOk, OnErr};
ghost use Rattle.std.specs.List.{AllByRecursion, list_any};
ghost use Rattle.std.specs.Ordering.{nat_cmp};
ghost use Rattle.std.specs.BTreeSet.{contains, IsOrdered};
ghost use Rattle.report_text.specs.Sheet.{StandBefore};
ghost use Rattle.site_state.specs.Journal.{error_at};
ghost use Rattle.site_rounds.specs.NewErrors.{brings, brought_of, error_entry_text, text_at, new_errors, text_where_new, StandsBy};

use crate::Journalled;
use crate::entries::entry_behind;
use error_queue::{ErrorEntry, OriginErrors};
use rep_lists::NoMemory;
use rep_values::SiteName;
use report_text::{Lines, MOST_LINE, error_line};
use site_state::Entry;
use std::alloc::Global;
use std::collections::BTreeSet;

/// The position of a sender whose error an entry brings.
fn brought_of(origin: &SiteName, entry: &Entry) -> Option<u64>
    ensures { result ≡ brought_of origin.now entry.now }
{
    match entry {
        Entry::Error {
            origin: sender,
            position,
            ..
        } => {
            if sender.is_same(origin) {
                Some(*position)
            } else {
                None
            }
        }
        Entry::Local { .. }
        | Entry::Done { .. }
        | Entry::Executed { .. }
        | Entry::Dropped { .. }
        | Entry::Refreshed { .. } => None,
    }
}

/// The positions of a sender whose errors the newest entries, so many, brought.
fn brought_positions<J: Journalled>(
    alloc: Global,
    site: &J,
    origin: &SiteName,
    count: u64,
) -> Result<BTreeSet<u64>, NoMemory>
    requires { count ≤ length (J.told_of site.now).journal }
    ensures { IfOk result (λ positions. (p : ℕ) → contains nat_cmp positions p ≡ list_any (brings origin.now p) (take count (J.told_of site.now).journal)) }
{
    let mut positions = BTreeSet::new(alloc);
    for behind in 0..count {
        if let Some(position) = brought_of(origin, entry_behind(site, behind)) {
            positions.insert(position)?;
        }
    }
    Ok(positions)
}

/// The line of an error.
fn add_error(lines: &mut Lines, error: &ErrorEntry) -> Result<(), NoMemory>
    ensures ok { OnOk result (lines.new.bytes ≡ lines.old.bytes ++ error_entry_text error.now) }
    ensures err { OnErr result (lines.new.bytes ≡ lines.old.bytes) }
{
    lines.reserve(MOST_LINE)?;
    error_line(
        lines,
        &error.origin,
        error.position,
        error.call,
        &error.error,
    );
    Ok(())
}

/// The lines of a sender's errors that stand at some positions.
fn add_errors_at(
    lines: &mut Lines,
    errors: &OriginErrors,
    positions: &BTreeSet<u64>,
) -> Result<(), NoMemory>
    ensures ok { OnOk result (lines.new.bytes ≡ lines.old.bytes ++ flat_map (text_at errors.now.list.entries) positions.now.keys) }
    ensures err { OnErr result (StandBefore lines.old.bytes lines.new.bytes) }
    ensures ordered { IsOrdered nat_cmp positions.now }
{
    for position in positions {
        if let Some(error) = errors.get(*position) {
            add_error(lines, error)?;
        }
    }
    Ok(())
}

/// The line of each error of a sender that stands and that the newest entries, so many, brought, by position. It looks through
/// these entries once.
fn add_new_from<J: Journalled>(
    lines: &mut Lines,
    alloc: Global,
    site: &J,
    errors: &OriginErrors,
    count: u64,
) -> Result<(), NoMemory>
    requires count { count ≤ length (J.told_of site.now).journal }
    requires stand { AllByRecursion (StandsBy (J.told_of site.now).journal) errors.now.list.entries }
    ensures ok { OnOk result (lines.new.bytes ≡ lines.old.bytes ++ flat_map (text_where_new (take count (J.told_of site.now).journal)) errors.now.list.entries) }
    ensures err { OnErr result (StandBefore lines.old.bytes lines.new.bytes) }
{
    if errors.is_empty() {
        return Ok(());
    }
    errors.laws();
    let positions = brought_positions(alloc, site, errors.origin(), count)?;
    add_errors_at(lines, errors, &positions)
}

/// The line of each error that stands and was journalled behind the first entries, so many, by sender as declared, then by
/// position. It looks through the newer entries once for each sender of which an error stands. Where there is no memory, what
/// stood in the lines still stands in front, and part of this may stand behind it.
pub fn add_new_errors<J: Journalled>(
    lines: &mut Lines,
    alloc: Global,
    site: &J,
    before: u64,
) -> Result<(), NoMemory>
    requires { before ≤ length (J.told_of site.now).journal }
    ensures ok { OnOk result (lines.new.bytes ≡ lines.old.bytes ++ flat_map error_entry_text (new_errors before (J.told_of site.now))) }
    ensures err { OnErr result (StandBefore lines.old.bytes lines.new.bytes) }
{
    let count = site.entry_count() - before;
    let lists = site.standing().by_origin();
    for errors in lists {
        add_new_from(lines, alloc, site, errors, count)?;
    }
    Ok(())
}
