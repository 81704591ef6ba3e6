//! The errors that stand at the end.

use crate::words::error_words;
use error_queue::Errors;
use page_text::{Heading, Look, Part, words_of};
use rep_lists::{Items, NoMemory};
use rep_values::SiteName;
use std::alloc::Global;
use world_run::World;

/// `SITE: error ORIGIN POSITION call C KIND` for each error that stands at a site.
fn add_errors(
    alloc: Global,
    site: &SiteName,
    errors: &Errors,
    lines: &mut Vec<Items<u8>>,
) -> Result<(), NoMemory> {
    for place in 0..errors.len() {
        if let Some(entry) = errors.entry_in_order(place) {
            let words = error_words(
                alloc,
                &entry.origin,
                entry.position,
                entry.call,
                &entry.error,
            )?;
            let mut line = Vec::from_slice(alloc, site.0.bytes())?;
            line.extend_from_slice(b": ")?;
            line.extend_from_slice(words.as_slice())?;
            lines.push(Items::from_vec(line))?;
        }
    }
    Ok(())
}

/// The errors that stand at all sites.
fn standing(alloc: Global, world: &World, sites: &[SiteName]) -> Result<Vec<Items<u8>>, NoMemory> {
    let mut lines = Vec::new(alloc);
    for name in sites {
        if let Some(site) = world.site(name) {
            add_errors(alloc, name, site.errors(), &mut lines)?;
        }
        if let Some(site) = world.proc_site(name) {
            add_errors(alloc, name, site.errors(), &mut lines)?;
        }
    }
    Ok(lines)
}

/// The part of a page that tells the errors that stand.
pub fn add_standing(
    alloc: Global,
    world: &World,
    sites: &[SiteName],
    parts: &mut Vec<Part>,
) -> Result<(), NoMemory> {
    parts.push(Part::Heading {
        level: Heading::Chapter,
        words: words_of(alloc, b"Errors that stand")?,
    })?;
    let lines = standing(alloc, world, sites)?;
    if lines.is_empty() {
        parts.push(Part::Paragraph {
            look: Look::Plain,
            words: words_of(alloc, b"None.")?,
        })?;
    } else {
        parts.push(Part::Listing(Items::from_vec(lines)))?;
    }
    Ok(())
}
