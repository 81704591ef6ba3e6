//! The errors of a site that stand.
ghost use Rattle.std.specs.Prelude.{◌≡◌, ◌<◌, ◌+◌, ◌∷◌, ◌++◌, length, drop, OnOk, OnErr};
ghost use Rattle.error_queue.specs.ErrorLists.{in_order};
ghost use Rattle.report_text.specs.Sheet.{StandBefore};
ghost use Rattle.site_report.specs.Shows.{standing_text, errors_text};

use error_queue::{ErrorEntry, Errors};
use rep_lists::NoMemory;
use rep_schema::{RowStore, Schema};
use rep_values::SiteName;
use report_text::{Lines, MOST_LINE, Word, add_calls, error_line};
use site_engine::Site;

/// An error that stands, and its calls.
fn add_error(lines: &mut Lines, schema: &Schema, error: &ErrorEntry) -> Result<(), NoMemory>
    ensures ok { OnOk result (lines.new.bytes ≡ lines.old.bytes ++ standing_text schema.now error.now) }
    ensures err { OnErr result (StandBefore lines.old.bytes lines.new.bytes) }
{
    lines.reserve(MOST_LINE)?;
    error_line(
        lines,
        &error.origin,
        error.position,
        error.call,
        &error.error,
    );
    add_calls(lines, schema, &error.txn)?;
    Ok(())
}

/// The error at a place that has one.
fn error_at(errors: &Errors, place: u64) -> &ErrorEntry
    requires { place < length (in_order errors.now.lists) }
    ensures { drop place (in_order errors.now.lists) ≡ result.now ∷ drop (place + 1) (in_order errors.now.lists) }
{
    match errors.entry_in_order(place) {
        Some(error) => error,
        None => unreachable!(),
    }
}

/// What `show errors` prints of a site: its name, and each error that stands, in order, with the calls of its transaction.
/// Where there is no memory, what stood in the lines still stands in front, and part of this may stand behind it.
pub fn add_errors<R: RowStore>(
    lines: &mut Lines,
    name: &SiteName,
    site: &Site<R>,
) -> Result<(), NoMemory>
    ensures ok { OnOk result (lines.new.bytes ≡ lines.old.bytes ++ errors_text name.now.0 site.now) }
    ensures err { OnErr result (StandBefore lines.old.bytes lines.new.bytes) }
{
    lines.reserve(MOST_LINE)?;
    lines.put_line(b"errors", &[Word::Name(name.0)]);
    let errors = site.errors();
    for place in 0..errors.len() {
        add_error(lines, site.store().schema(), error_at(errors, place))?;
    }
    Ok(())
}
