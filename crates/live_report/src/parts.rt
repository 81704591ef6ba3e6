//! What a part prints.
ghost use Rattle.std.specs.Prelude.{◌≡◌, IfOk};
ghost use Rattle.live_report.specs.PartTexts.{part_text};

use crate::order::add_order;
use crate::turns::add_turns;
use live_laws::LiveTurn;
use rep_lists::NoMemory;
use rep_values::SiteName;
use report_text::{Lines, MOST_LINE, Word};
use std::alloc::Global;

/// What `end` prints of a part: `live SITE`, and then a line for each turn, or with `json` one line for all of them, an object
/// with the texts of these lines as `order` and the name as `site`.
pub fn part_lines(
    alloc: Global,
    json: bool,
    site: &SiteName,
    turns: &[LiveTurn],
) -> Result<Lines, NoMemory>
    ensures { IfOk result (λ lines. lines.bytes ≡ part_text json site.now turns.now) }
{
    let mut lines = Lines::make(alloc);
    lines.reserve(MOST_LINE)?;
    lines.put_line(b"live", &[Word::Name(site.0)]);
    if json {
        add_order(alloc, &mut lines, site, turns)?;
    } else {
        add_turns(&mut lines, turns)?;
    }
    Ok(lines)
}
