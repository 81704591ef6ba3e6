//! The tables of the sites at the end, one after the other.

use page_tables::PageTables;
use page_text::{Heading, Look, Part, Table, text_of, words_of};
use rep_lists::{Items, NoMemory};
use rep_schema::{RowStore, TableEntry};
use rep_values::SiteName;
use std::alloc::Global;
use table_cells::{is_same, table_at};
use world_run::World;

/// The rows of a site, under its name.
#[derive(Drop)]
struct Held<'a> {
    name: &'a SiteName,
    store: &'a PageTables,
    /// Whether it holds a table; a snapshot site holds those of its snapshots alone.
    tables: Vec<bool>,
    is_master: bool,
}

impl Held<'_> {
    /// Whether it shows the table at a place.
    fn has(&self, place: usize) -> bool {
        self.tables.get(place).copied().unwrap_or(false)
            && place < self.store.schema().tables.len()
            && u32::try_from(place).is_ok()
    }

    /// Its table at a place, or an empty one where it has none there.
    fn table(
        &self,
        alloc: Global,
        masters: &[&PageTables],
        place: usize,
        entry: &TableEntry,
    ) -> Result<Table, NoMemory> {
        let caption = self.name.0.bytes();
        match u32::try_from(place) {
            Ok(table) if place < self.store.schema().tables.len() => {
                table_at(alloc, caption, masters, self.store, table, entry)
            }
            _ => no_table(alloc, caption),
        }
    }
}

/// A table without columns.
fn no_table(alloc: Global, caption: &[u8]) -> Result<Table, NoMemory> {
    Ok(Table {
        caption: words_of(alloc, caption)?,
        columns: Items::new(alloc),
        rows: Items::new(alloc),
    })
}

/// The sites with rows that `push` carries.
fn row_holders<'a>(
    alloc: Global,
    world: &'a World,
    sites: &'a [SiteName],
) -> Result<Vec<Held<'a>>, NoMemory> {
    let mut holders = Vec::new(alloc);
    for name in sites {
        if let Some(site) = world.site(name) {
            let mut tables = Vec::new(alloc);
            for place in 0..site.store().schema().tables.len() {
                tables.push(match u32::try_from(place) {
                    Ok(table) => site.held().has(table),
                    Err(_) => false,
                })?;
            }
            holders.push(Held {
                name,
                store: site.store(),
                tables,
                is_master: site.is_master(),
            })?;
        }
    }
    Ok(holders)
}

/// The sites with rows that calls write.
fn call_holders<'a>(
    alloc: Global,
    world: &'a World,
    sites: &'a [SiteName],
) -> Result<Vec<Held<'a>>, NoMemory> {
    let mut holders = Vec::new(alloc);
    for name in sites {
        if let Some(site) = world.proc_site(name) {
            let mut tables = Vec::new(alloc);
            for _ in 0..site.store().schema().tables.len() {
                tables.push(true)?;
            }
            holders.push(Held {
                name,
                store: site.store(),
                tables,
                is_master: true,
            })?;
        }
    }
    Ok(holders)
}

/// The stores of the masters among some sites.
fn masters_of<'a>(alloc: Global, holders: &[Held<'a>]) -> Result<Vec<&'a PageTables>, NoMemory> {
    let mut masters = Vec::new(alloc);
    for holder in holders {
        if holder.is_master {
            masters.push(holder.store)?;
        }
    }
    Ok(masters)
}

/// A table at each site that holds it.
fn tables_of(
    alloc: Global,
    holders: &[Held<'_>],
    masters: &[&PageTables],
    place: usize,
    entry: &TableEntry,
) -> Result<Vec<Table>, NoMemory> {
    let mut tables = Vec::new(alloc);
    for holder in holders {
        if holder.has(place) {
            tables.push(holder.table(alloc, masters, place, entry)?)?;
        }
    }
    Ok(tables)
}

/// Whether a table is the same at all masters.
fn is_same_at(holders: &[Held<'_>], tables: &[Table], place: usize) -> bool {
    let mut shown: usize = 0;
    for holder in holders {
        if holder.has(place) {
            if let Some(table) = tables.get(shown) {
                if holder.is_master && !is_same(table) {
                    return false;
                }
            }
            shown = shown.saturating_add(1);
        }
    }
    true
}

/// Adds a table of each site.
fn add_table(
    alloc: Global,
    holders: &[Held<'_>],
    masters: &[&PageTables],
    place: usize,
    entry: &TableEntry,
    parts: &mut Vec<Part>,
) -> Result<(), NoMemory> {
    let name = entry.name.0;
    let tables = tables_of(alloc, holders, masters, place, entry)?;
    let word = if is_same_at(holders, &tables, place) {
        "the same at all masters"
    } else {
        "masters differ in the marked cells"
    };
    parts.push(Part::Heading {
        level: Heading::Section,
        words: text_of(format!(in alloc; "{name}: {word}")?),
    })?;
    parts.push(Part::Tables(Items::from_vec(tables)))?;
    Ok(())
}

/// Adds the tables of those that hold them.
fn add_held(alloc: Global, holders: &[Held<'_>], parts: &mut Vec<Part>) -> Result<(), NoMemory> {
    let masters = masters_of(alloc, holders)?;
    let Some(first) = holders.first() else {
        return Ok(());
    };
    let entries = first.store.schema().tables.as_slice();
    for place in 0..entries.len() {
        add_table(alloc, holders, &masters, place, &entries[place], parts)?;
    }
    Ok(())
}

/// The part of a page that shows the tables.
pub fn add_tables(
    alloc: Global,
    world: &World,
    sites: &[SiteName],
    parts: &mut Vec<Part>,
) -> Result<(), NoMemory> {
    parts.push(Part::Heading {
        level: Heading::Chapter,
        words: words_of(alloc, b"Tables")?,
    })?;
    add_held(alloc, &row_holders(alloc, world, sites)?, parts)?;
    add_held(alloc, &call_holders(alloc, world, sites)?, parts)
}
