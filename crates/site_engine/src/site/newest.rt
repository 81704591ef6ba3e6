//! The journal behind a pass of several.
ghost use Rattle.std.specs.Prelude.{OnOk, OnErr, ◌≡◌};
ghost use Rattle.rep_values.specs.declared.name.SiteName.{SiteName};
ghost use Rattle.rep_laws.specs.Commuting.{IsSound};
ghost use Rattle.journal_sort.specs.Sorting.{CanBeSorted};
ghost use Rattle.site_engine.specs.Ordering.{IsSortedSite};

use super::Site;
use journal_sort::sort_from;
use rep_lists::NoMemory;
use rep_schema::RowStore;
use std::alloc::Global;

impl<R: RowStore> Site<R> {
    /// Puts the journal's entries from a place on into rising order of position. They are all done or in error of one
    /// master, and of two whose transactions share a token the lower position stands first. Nothing else of the site
    /// changes; where there is no memory, nothing at all.
    pub fn sort_new_entries(&mut self, alloc: Global, from: u64) -> Result<(), NoMemory>
        requires sound { IsSound self.old.schema }
        requires entries { (origin : SiteName) × CanBeSorted self.old.schema origin from self.old.journal }
        ensures ok { OnOk result (IsSortedSite from self.old self.new) }
        ensures err { OnErr result (self.new ≡ self.old) }
    {
        sort_from(alloc, &mut self.journal, from)?;
        Ok(())
    }
}
