//! The parts of a page that tell how a run ends.

use crate::marks::add_marks;
use crate::standing::add_standing;
use crate::tables::add_tables;
use page_text::Part;
use rep_lists::NoMemory;
use rep_values::SiteName;
use std::alloc::Global;
use world_run::World;

/// The errors that stand at the end of a run, how far the streams are, and the tables, of these sites of its world.
pub fn ending_of(alloc: Global, world: &World, sites: &[SiteName]) -> Result<Vec<Part>, NoMemory> {
    let mut parts = Vec::new(alloc);
    add_standing(alloc, world, sites, &mut parts)?;
    add_marks(alloc, world, sites, &mut parts)?;
    add_tables(alloc, world, sites, &mut parts)?;
    Ok(parts)
}
