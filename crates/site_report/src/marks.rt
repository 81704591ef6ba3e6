//! How far a site and its neighbours are.
ghost use Rattle.std.specs.Prelude.{◌≡◌, ◌++◌, flat_map, OnOk, OnErr};
ghost use Rattle.report_text.specs.Sheet.{StandBefore};
ghost use Rattle.site_report.specs.Shows.{sender_text, destination_text, marks_text};

use rep_lists::NoMemory;
use rep_schema::RowStore;
use rep_values::SiteName;
use report_text::{Lines, MOST_LINE, Word};
use site_engine::Site;

fn add_senders<R: RowStore>(
    lines: &mut Lines,
    senders: &[SiteName],
    site: &Site<R>,
) -> Result<(), NoMemory>
    ensures ok { OnOk result (lines.new.bytes ≡ lines.old.bytes ++ flat_map (sender_text site.now) senders.now) }
    ensures err { OnErr result (StandBefore lines.old.bytes lines.new.bytes) }
{
    for origin in senders {
        lines.reserve(MOST_LINE)?;
        lines.put_line(
            b"from",
            &[
                Word::Name(origin.0),
                Word::Plain(b"arrived"),
                Word::Number(site.arrived(origin)),
                Word::Plain(b"low"),
                Word::Number(site.mark(origin)),
            ],
        );
    }
    Ok(())
}

fn add_destinations<R: RowStore>(
    lines: &mut Lines,
    destinations: &[SiteName],
    site: &Site<R>,
) -> Result<(), NoMemory>
    ensures ok { OnOk result (lines.new.bytes ≡ lines.old.bytes ++ flat_map (destination_text site.now) destinations.now) }
    ensures err { OnErr result (StandBefore lines.old.bytes lines.new.bytes) }
{
    for to in destinations {
        lines.reserve(MOST_LINE)?;
        lines.put_line(
            b"to",
            &[
                Word::Name(to.0),
                Word::Plain(b"queued"),
                Word::Number(site.queue().last(to)),
                Word::Plain(b"acked"),
                Word::Number(site.queue().acked(to)),
            ],
        );
    }
    Ok(())
}

/// What `show marks` prints of a site: its name, and how far it is with each of these senders and destinations. Where there
/// is no memory, what stood in the lines still stands in front, and part of this may stand behind it.
pub fn add_marks<R: RowStore>(
    lines: &mut Lines,
    name: &SiteName,
    senders: &[SiteName],
    destinations: &[SiteName],
    site: &Site<R>,
) -> Result<(), NoMemory>
    ensures ok { OnOk result (lines.new.bytes ≡ lines.old.bytes ++ marks_text name.now.0 senders.now destinations.now site.now) }
    ensures err { OnErr result (StandBefore lines.old.bytes lines.new.bytes) }
{
    lines.reserve(MOST_LINE)?;
    lines.put_line(b"marks", &[Word::Name(name.0)]);
    add_senders(lines, senders, site)?;
    add_destinations(lines, destinations, site)?;
    Ok(())
}
