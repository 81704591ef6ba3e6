//! The picture of a run as a page.
ghost use Rattle.std.specs.Prelude.{IfOk};
ghost use Rattle.run_picture.specs.Drawn.{HasChart, IsDrawnIn};

use crate::chart::chart;
use crate::folding::is_folded;
use crate::heads::heads;
use lane_drawing::{Layout, key};
use page_text::{Heading, Look, Page, Part, text_of, words_of};
use rep_lists::{Items, NoMemory};
use rep_values::SiteName;
use run_ending::ending_of;
use run_story::{Lane, Line, Story};
use std::alloc::Global;

/// How many packets were sent in some lines, marks that went back among them.
fn packets_in(lines: &[Line]) -> u64 {
    let mut packets: u64 = 0;
    for line in lines {
        packets = packets
            .saturating_add(line.sent.len() as u64)
            .saturating_add(line.answered.len() as u64);
    }
    packets
}

/// What is said of a run above its picture.
fn summary(alloc: Global, story: &Story) -> Result<Items<u8>, NoMemory> {
    let lines = story.lines().len();
    let sites = story.lanes().len();
    let packets = packets_in(story.lines());
    let text = format!(in alloc;
        "{lines} lines, {sites} sites, {packets} packets. At the left stand the lines of the script."
    )?;
    Ok(text_of(text))
}

/// What stands above the drawing of a run, and the drawing.
#[tactic(auto, using(crate::proofs::Drawn::five_parts))]
fn front(alloc: Global, title: &[u8], story: &Story) -> Result<Vec<Part>, NoMemory>
    ensures { IfOk result (λ parts. HasChart story.now parts.items) }
{
    let layout = Layout::of(story.lanes().len());
    let folded = is_folded(story.lines());
    let drawing = chart(alloc, &layout, story, folded)?;
    let mut parts = Vec::new(alloc);
    parts.push(Part::Heading {
        level: Heading::Page,
        words: words_of(alloc, title)?,
    })?;
    parts.push(Part::Paragraph {
        look: Look::Plain,
        words: summary(alloc, story)?,
    })?;
    parts.push(key(alloc)?)?;
    parts.push(heads(alloc, &layout, story.lanes())?)?;
    parts.push(Part::Drawing(drawing))?;
    Ok(parts)
}

/// The sites of lanes.
fn sites_of(alloc: Global, lanes: &[Lane]) -> Result<Vec<SiteName>, NoMemory> {
    let mut sites = Vec::new(alloc);
    for lane in lanes {
        sites.push(lane.site)?;
    }
    Ok(sites)
}

/// The picture of a run, as a page of this title: a lane for each site with what happened there and between them, from the top
/// down; the errors that stand at the end, how far the streams are, and the tables. Where no line is left out, and none is in a run
/// of at most 300 lines, each entry of each site's journals is drawn once, in their order, in the mark of its kind.
#[tactic(auto, using(crate::proofs::Drawn::whole_page))]
pub fn picture(alloc: Global, title: &[u8], story: &Story) -> Result<Page, NoMemory>
    ensures { IfOk result (λ page. IsDrawnIn story.now page.parts) }
{
    let mut parts = front(alloc, title, story)?;
    let sites = sites_of(alloc, story.lanes())?;
    // A story tells the journals of its world.
    let world = story.world();
    let mut rest = ending_of(alloc, world, &sites)?;
    parts.append(&mut rest)?;
    Ok(Page {
        title: words_of(alloc, title)?,
        parts: Items::from_vec(parts),
    })
}
