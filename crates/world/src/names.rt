//! The names in a line, of sites and of pairs of sites.
ghost use Rattle.std.specs.Prelude.{◌≡◌};
ghost use Rattle.world_state.specs.World.{is_there, gets_from};
ghost use Rattle.world_state.specs.Refusals.{has_sender, has_link};

use crate::WorldParts;
use crate::parts::place_of;
use rep_schema::RowStore;
use rep_values::SiteName;
use schema_names::gets_from;

impl WorldParts {
    /// Whether a site is there.
    pub fn is_there(&self, site: &SiteName) -> bool
        ensures { result ≡ is_there self.now site.now }
    {
        place_of(&self.sites, site).is_some()
    }

    // Whether a site has another one as a sender, and both are there.
    pub(crate) fn has_sender(&self, site: &SiteName, origin: &SiteName) -> bool
        ensures { result ≡ has_sender self.now site.now origin.now }
    {
        self.is_there(site) && self.is_there(origin) && gets_from(self.store.schema(), site, origin)
    }

    // Whether one of two sites has the other as a sender.
    pub(crate) fn has_link(&self, a: &SiteName, b: &SiteName) -> bool
        ensures { result ≡ has_link self.now a.now b.now }
    {
        self.has_sender(a, b) || self.has_sender(b, a)
    }
}
