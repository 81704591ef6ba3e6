//! How far the streams between sites are at the end.

use page_tables::PageTables;
use page_text::{Cell, Heading, Look, Part, Table, text_of, words_of};
use rep_lists::{Items, NoMemory};
use rep_values::SiteName;
use site_engine::Site;
use std::alloc::Global;
use world_run::World;

/// A cell with a text.
fn cell(words: Items<u8>) -> Cell {
    Cell {
        look: Look::Same,
        words,
    }
}

/// A cell with a number.
fn number(alloc: Global, number: u64) -> Result<Cell, NoMemory> {
    Ok(cell(text_of(format!(in alloc; "{number}")?)))
}

/// What a site queued for another one and what came from that.
fn row_of(
    alloc: Global,
    site: &Site<PageTables>,
    other: &SiteName,
) -> Result<Items<Cell>, NoMemory> {
    let mut cells = Vec::new(alloc);
    cells.push(cell(words_of(alloc, other.0.bytes())?))?;
    cells.push(number(alloc, site.last_sent(other))?)?;
    cells.push(number(alloc, site.queue().acked(other))?)?;
    cells.push(number(alloc, site.arrived(other))?)?;
    cells.push(number(alloc, site.mark(other))?)?;
    Ok(Items::from_vec(cells))
}

/// The heads of the columns.
fn columns(alloc: Global) -> Result<Items<Items<u8>>, NoMemory> {
    let mut columns = Vec::new(alloc);
    columns.push(words_of(alloc, b"with")?)?;
    columns.push(words_of(alloc, b"queued")?)?;
    columns.push(words_of(alloc, b"acked")?)?;
    columns.push(words_of(alloc, b"arrived")?)?;
    columns.push(words_of(alloc, b"low")?)?;
    Ok(Items::from_vec(columns))
}

/// The marks of a site with each site that sends to it and is there.
fn table_of(alloc: Global, world: &World, site: &Site<PageTables>) -> Result<Table, NoMemory> {
    let mut rows = Vec::new(alloc);
    for place in 0..site.sender_count() {
        if let Some(other) = site.sender(place) {
            if world.site(other).is_some() {
                rows.push(row_of(alloc, site, other)?)?;
            }
        }
    }
    Ok(Table {
        caption: words_of(alloc, site.name().0.bytes())?,
        columns: columns(alloc)?,
        rows: Items::from_vec(rows),
    })
}

/// The part of a page that tells how far the streams are.
pub fn add_marks(
    alloc: Global,
    world: &World,
    sites: &[SiteName],
    parts: &mut Vec<Part>,
) -> Result<(), NoMemory> {
    let mut tables = Vec::new(alloc);
    for name in sites {
        if let Some(site) = world.site(name) {
            tables.push(table_of(alloc, world, site)?)?;
        }
    }
    parts.push(Part::Heading {
        level: Heading::Chapter,
        words: words_of(alloc, b"Marks")?,
    })?;
    parts.push(Part::Tables(Items::from_vec(tables)))?;
    Ok(())
}
