//! The logs of a site.
ghost use Rattle.std.specs.Prelude.{◌≡◌, ◌<◌, ◌≤◌, ◌+◌, ◌∷◌, ◌++◌, length, drop, OnOk, OnErr};
ghost use Rattle.report_text.specs.Sheet.{StandBefore, word_text, most_of};
ghost use Rattle.report_text.specs.Calls.{table_name};
ghost use Rattle.change_logs.specs.RoomyNotes.{log_in};
ghost use Rattle.site_report.specs.Shows.{table_log_text, log_text};

use change_logs::{Log, LogEntry, Notes};
use rep_lists::NoMemory;
use rep_schema::{RowStore, Schema};
use rep_values::SiteName;
use report_text::{Lines, MOST_LINE, Word, add_logged_key};
use site_engine::Site;

/// The name of a table; no bytes where the schema has none at the place.
fn name_of(schema: &Schema, table: u32) -> Word<'_>
    ensures text { word_text result ≡ table_name schema.now table }
    ensures short { most_of result ≤ 30 }
{
    match schema.tables.as_slice().get(table as usize) {
        Some(entry) => Word::Name(entry.name.0),
        None => Word::Plain(b""),
    }
}

/// The key at a place that has one.
fn key_at(log: &Log, place: u64) -> &LogEntry
    requires { place < length log.now.log.keys }
    ensures { drop place log.now.log.keys ≡ result.now ∷ drop (place + 1) log.now.log.keys }
{
    match log.entry(place) {
        Some(entry) => entry,
        None => unreachable!(),
    }
}

/// The log of a table, and its keys.
fn add_table_log(lines: &mut Lines, schema: &Schema, log: &Log) -> Result<(), NoMemory>
    ensures ok { OnOk result (lines.new.bytes ≡ lines.old.bytes ++ table_log_text schema.now log.now.log) }
    ensures err { OnErr result (StandBefore lines.old.bytes lines.new.bytes) }
{
    lines.reserve(MOST_LINE)?;
    lines.put_line(
        b"table",
        &[
            name_of(schema, log.table()),
            Word::Plain(b"purged"),
            Word::Number(log.purged()),
        ],
    );
    for place in 0..log.len() {
        let entry = key_at(log, place);
        add_logged_key(lines, entry.key(), entry.moment())?;
    }
    Ok(())
}

/// The log at a place that has one.
fn log_at(notes: &Notes, place: usize) -> &Log
    requires { place < length notes.now.logs }
    ensures { drop place notes.now.logs ≡ log_in result.now ∷ drop (place + 1) notes.now.logs }
{
    notes.log_at(place)
}

/// What `show log` prints of a site: its name, and the log of each table that has one, as declared, with its keys in rising
/// order. Where there is no memory, what stood in the lines still stands in front, and part of this may stand behind it.
pub fn add_log<R: RowStore>(
    lines: &mut Lines,
    name: &SiteName,
    site: &Site<R>,
) -> Result<(), NoMemory>
    ensures ok { OnOk result (lines.new.bytes ≡ lines.old.bytes ++ log_text name.now.0 site.now) }
    ensures err { OnErr result (StandBefore lines.old.bytes lines.new.bytes) }
{
    lines.reserve(MOST_LINE)?;
    lines.put_line(b"log", &[Word::Name(name.0)]);
    let notes = site.notes();
    for place in 0..notes.log_count() {
        add_table_log(lines, site.store().schema(), log_at(notes, place))?;
    }
    Ok(())
}
