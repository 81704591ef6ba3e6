//! The queue of a site.
ghost use Rattle.std.specs.Prelude.{◌≡◌, ◌++◌, flat_map, OnOk, OnErr};
ghost use Rattle.report_text.specs.Sheet.{StandBefore};
ghost use Rattle.site_report.specs.Shows.{stream_place_of, past_text, queued_text, queue_text};

use deferred_queue::Queued;
use rep_calls::PastEntry;
use rep_lists::NoMemory;
use rep_schema::RowStore;
use rep_values::SiteName;
use report_text::{Lines, MOST_LINE, Word, add_calls};
use site_engine::Site;

/// Where a number stands in the stream to a destination, if it goes there.
fn add_place<R: RowStore>(
    lines: &mut Lines,
    site: &Site<R>,
    number: u64,
    to: &SiteName,
) -> Result<(), NoMemory>
    ensures ok { OnOk result (lines.new.bytes ≡ lines.old.bytes ++ stream_place_of site.now number to.now) }
    ensures err { OnErr result (lines.new.bytes ≡ lines.old.bytes) }
{
    let Some(place) = site.queue().place_of(to, number) else {
        return Ok(());
    };
    let state: &[u8] = if place.position <= site.queue().acked(to) {
        b"acked"
    } else {
        b"waiting"
    };
    lines.reserve(MOST_LINE)?;
    lines.put_line(
        b"to",
        &[
            Word::Name(to.0),
            Word::Plain(b"position"),
            Word::Number(place.position),
            Word::Plain(b"dep"),
            Word::Number(place.dep),
            Word::Plain(state),
        ],
    );
    Ok(())
}

fn add_places<R: RowStore>(
    lines: &mut Lines,
    site: &Site<R>,
    number: u64,
    destinations: &[SiteName],
) -> Result<(), NoMemory>
    ensures ok { OnOk result (lines.new.bytes ≡ lines.old.bytes ++ flat_map (stream_place_of site.now number) destinations.now) }
    ensures err { OnErr result (StandBefore lines.old.bytes lines.new.bytes) }
{
    for to in destinations {
        add_place(lines, site, number, to)?;
    }
    Ok(())
}

/// What was seen before a transaction.
fn add_past(lines: &mut Lines, past: &[PastEntry]) -> Result<(), NoMemory>
    ensures ok { OnOk result (lines.new.bytes ≡ lines.old.bytes ++ flat_map past_text past.now) }
    ensures err { OnErr result (StandBefore lines.old.bytes lines.new.bytes) }
{
    for seen in past {
        lines.reserve(MOST_LINE)?;
        lines.put_line(
            b"past",
            &[Word::Name(seen.origin.0), Word::Number(seen.number)],
        );
    }
    Ok(())
}

/// A queued transaction: where it goes, what was seen before it, and its calls.
fn add_queued<R: RowStore>(
    lines: &mut Lines,
    site: &Site<R>,
    destinations: &[SiteName],
    queued: &Queued<'_>,
) -> Result<(), NoMemory>
    ensures ok { OnOk result (lines.new.bytes ≡ lines.old.bytes
        ++ queued_text destinations.now site.now (record { number = queued.now.number; cargo = record { txn = queued.now.txn.now; past = queued.now.past.now } })) }
    ensures err { OnErr result (StandBefore lines.old.bytes lines.new.bytes) }
{
    lines.reserve(MOST_LINE)?;
    lines.put_line(
        b"txn",
        &[
            Word::Number(queued.number),
            Word::Plain(b"calls"),
            Word::Number(queued.txn.calls.len() as u64),
        ],
    );
    add_places(lines, site, queued.number, destinations)?;
    add_past(lines, queued.past)?;
    add_calls(lines, site.store().schema(), queued.txn)?;
    Ok(())
}

/// What `show queue` prints of a site: its name, and each transaction that isn't purged, in rising number, with its place in
/// the stream to each of these destinations to which it goes, what was seen before it, and its calls. Where there is no
/// memory, what stood in the lines still stands in front, and part of this may stand behind it.
pub fn add_queue<R: RowStore>(
    lines: &mut Lines,
    name: &SiteName,
    destinations: &[SiteName],
    site: &Site<R>,
) -> Result<(), NoMemory>
    ensures ok { OnOk result (lines.new.bytes ≡ lines.old.bytes ++ queue_text name.now.0 destinations.now site.now) }
    ensures err { OnErr result (StandBefore lines.old.bytes lines.new.bytes) }
{
    lines.reserve(MOST_LINE)?;
    lines.put_line(b"queue", &[Word::Name(name.0)]);
    for place in 0..u64::MAX {
        let Some(queued) = site.queue().entry_in_order(place) else {
            return Ok(());
        };
        add_queued(lines, site, destinations, &queued)?;
    }
    // No memory holds so many transactions.
    Err(NoMemory)
}
