//! How a pass is made: by the site alone, or by a call that is passed in.
ghost use Rattle.site_rounds.specs.Passing.{PassRequires, PassEnsures, MakesPasses};

use page_tables::PageTables;
use rep_lists::NoMemory;
use rep_values::SiteName;
use site_engine::Site;
use site_state::PassCount;
use std::alloc::Global;

/// How a pass for a sender is made at a site.
pub trait Passing {
    /// What has to hold of what makes the passes.
    ghost able: { Self → Type 0 };

    /// The site after a pass, and how many transactions that finished. Where there is no memory, some positions are applied, each
    /// whole and journalled, or none.
    fn pass(
        &self,
        alloc: Global,
        site: Site<PageTables>,
        origin: &SiteName,
    ) -> Result<(Site<PageTables>, PassCount), (Site<PageTables>, NoMemory)>
        requires able { able self.now }
        requires takes { PassRequires origin.now site }
        ensures { PassEnsures origin.now site result };
}

/// The site makes its passes alone, one position after the other.
#[derive(Clone, Copy, Debug, PartialEq, Eq)]
pub struct Serial;

impl Passing for Serial {
    ghost able = { λ serial. Unit {0} };

    fn pass(
        &self,
        alloc: Global,
        mut site: Site<PageTables>,
        origin: &SiteName,
    ) -> Result<(Site<PageTables>, PassCount), (Site<PageTables>, NoMemory)>
        requires { PassRequires origin.now site }
        ensures { PassEnsures origin.now site result }
    {
        match site.apply_pass(alloc, origin) {
            Ok(count) => Ok((site, count)),
            Err(NoMemory) => Err((site, NoMemory)),
        }
    }
}

/// Passes are made by this call.
#[derive(Drop)]
pub struct By<F> {
    pub pass: F,
}

impl<
    F: Fn(
        Global,
        Site<PageTables>,
        SiteName,
    ) -> Result<(Site<PageTables>, PassCount), (Site<PageTables>, NoMemory)>,
> Passing for By<F> {
    ghost able = { λ by. MakesPasses (F.pre by.pass) (F.post by.pass) };

    fn pass(
        &self,
        alloc: Global,
        site: Site<PageTables>,
        origin: &SiteName,
    ) -> Result<(Site<PageTables>, PassCount), (Site<PageTables>, NoMemory)>
        requires able { MakesPasses (F.pre self.now.pass) (F.post self.now.pass) }
        requires takes { PassRequires origin.now site }
        ensures { PassEnsures origin.now site result }
    {
        (self.pass)(alloc, site, *origin)
    }
}
