//! The journal of a site.
ghost use Rattle.std.specs.Prelude.{◌≡◌, ◌<◌, ◌≤◌, ◌+◌, ◌∷◌, ◌++◌, length, drop, reverse, decimal, OnOk, OnErr};
ghost use Rattle.report_text.specs.Sheet.{Appends, StandBefore, most_line, line};
ghost use Rattle.site_report.specs.Shows.{onward_words, entry_text, journal_text};

use rep_lists::NoMemory;
use rep_schema::RowStore;
use rep_values::SiteName;
use report_text::{Lines, MOST_LINE, Word, error_line};
use site_engine::Site;
use site_state::Entry;

/// A line of what was applied: its first word, an origin, a position, and the number under which it went onward, if it did.
fn put_applied(lines: &mut Lines, first: &[u8], origin: &SiteName, position: u64, onward: u64)
    requires short { length first.now ≤ 9 }
    requires room { most_line ≤ lines.old.room }
    ensures { Appends lines.old lines.new (line first.now (origin.now.0 ∷ decimal position ∷ onward_words onward)) }
{
    if onward == 0 {
        lines.put_line(first, &[Word::Name(origin.0), Word::Number(position)]);
    } else {
        lines.put_line(
            first,
            &[
                Word::Name(origin.0),
                Word::Number(position),
                Word::Plain(b"onward"),
                Word::Number(onward),
            ],
        );
    }
}

/// The line of an entry.
fn put_entry(lines: &mut Lines, entry: &Entry)
    requires { most_line ≤ lines.old.room }
    ensures { Appends lines.old lines.new (entry_text entry.now) }
{
    match entry {
        Entry::Local { number, .. } => lines.put_line(b"local", &[Word::Number(*number)]),
        Entry::Done {
            origin,
            position,
            onward,
            ..
        } => put_applied(lines, b"done", origin, *position, *onward),
        Entry::Error {
            origin,
            position,
            call,
            error,
            ..
        } => error_line(lines, origin, *position, *call, error),
        Entry::Executed {
            origin,
            position,
            onward,
            ..
        } => put_applied(lines, b"executed", origin, *position, *onward),
        Entry::Dropped { origin, position } => {
            lines.put_line(b"dropped", &[Word::Name(origin.0), Word::Number(*position)]);
        }
        Entry::Refreshed { moment } => lines.put_line(b"refreshed", &[Word::Number(*moment)]),
    }
}

/// A line for an entry.
fn add_entry(lines: &mut Lines, entry: &Entry) -> Result<(), NoMemory>
    ensures ok { OnOk result (lines.new.bytes ≡ lines.old.bytes ++ entry_text entry.now) }
    ensures err { OnErr result (lines.new.bytes ≡ lines.old.bytes) }
{
    lines.reserve(MOST_LINE)?;
    put_entry(lines, entry);
    Ok(())
}

/// The entry at a place that has one.
fn entry_at<R: RowStore>(site: &Site<R>, place: u64) -> &Entry
    requires { place < length site.now.journal }
    ensures { drop place (reverse site.now.journal) ≡ result.now ∷ drop (place + 1) (reverse site.now.journal) }
{
    match site.journal(place) {
        Some(entry) => entry,
        None => unreachable!(),
    }
}

/// What `show journal` prints of a site: its name, and each entry, the oldest first. Where there is no memory, what stood in
/// the lines still stands in front, and part of this may stand behind it.
pub fn add_journal<R: RowStore>(
    lines: &mut Lines,
    name: &SiteName,
    site: &Site<R>,
) -> Result<(), NoMemory>
    ensures ok { OnOk result (lines.new.bytes ≡ lines.old.bytes ++ journal_text name.now.0 site.now) }
    ensures err { OnErr result (StandBefore lines.old.bytes lines.new.bytes) }
{
    lines.reserve(MOST_LINE)?;
    lines.put_line(b"journal", &[Word::Name(name.0)]);
    for place in 0..site.journal_len() {
        add_entry(lines, entry_at(site, place))?;
    }
    Ok(())
}
