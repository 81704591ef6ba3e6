//! What may be meant otherwise, at the end of a script.

use crate::AdviceFound;
use crate::linter::Linter;
use rep_lists::NoMemory;
use rep_values::SiteName;
use std::alloc::Global;
use world_run::World;

/// How many transactions of one site the other one hasn't acknowledged.
fn unfinished(world: &World, from: &SiteName, to: &SiteName) -> u64 {
    match world.site(from) {
        Some(site) => site.last_sent(to).saturating_sub(site.queue().acked(to)),
        None => 0,
    }
}

/// How many errors stand at a site.
fn standing(world: &World, site: &SiteName) -> u64 {
    match world.site(site) {
        Some(here) => here.errors().len(),
        None => 0,
    }
}

impl Linter {
    /// Adds what one site has for another one, if something is left.
    fn add_unfinished(
        &self,
        from: &SiteName,
        to: &SiteName,
        found: &mut Vec<AdviceFound>,
    ) -> Result<(), NoMemory> {
        let count = unfinished(self.steps.world(), from, to);
        self.trail.add_left(from, to, count, found)
    }

    /// Adds what is left at a site.
    fn add_left(&self, from: &SiteName, found: &mut Vec<AdviceFound>) -> Result<(), NoMemory> {
        for to in self.steps.schema().sites.as_slice() {
            self.add_unfinished(from, &to.name, found)?;
        }
        self.trail
            .add_standing(from, standing(self.steps.world(), from), found)
    }

    /// Adds what may be meant otherwise in a script whose declarations have ended.
    fn add_running(&self, alloc: Global, found: &mut Vec<AdviceFound>) -> Result<(), NoMemory> {
        self.trail.add_remarks(alloc, self.steps.schema(), found)?;
        for site in self.steps.schema().sites.as_slice() {
            self.add_left(&site.name, found)?;
        }
        self.trail.add_no_show(found)
    }

    /// Adds what may be meant otherwise, in the script as a whole.
    fn add_advice(&self, alloc: Global, found: &mut Vec<AdviceFound>) -> Result<(), NoMemory> {
        self.trail.add_open(found)?;
        if !self.trail.is_resumed() {
            return Ok(());
        }
        self.add_running(alloc, found)
    }

    /// What may be meant otherwise, in the script as a whole.
    pub(crate) fn advice(&self, alloc: Global) -> Result<Vec<AdviceFound>, NoMemory> {
        let mut found = Vec::new(alloc);
        self.add_advice(alloc, &mut found)?;
        Ok(found)
    }
}
