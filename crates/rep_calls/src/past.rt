//! Causal pasts: what a site had seen of others.

use rep_lists::{Copies, NoMemory};
use rep_values::SiteName;
use std::alloc::Global;

/// An entry of a causal past: what the site that queued a transaction had finished of another master, the greatest queue number among these.
#[derive(Clone, Copy)]
pub struct PastEntry {
    pub origin: SiteName,
    pub number: u64,
}

impl Copies for PastEntry {
    fn copy(&self, _alloc: Global) -> Result<PastEntry, NoMemory> {
        Ok(*self)
    }
}
