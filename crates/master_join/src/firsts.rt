//! The first numbers of a site at which nothing happened yet.
ghost use Rattle.std.specs.Prelude.{◌≡◌, []};
ghost use Rattle.master_join.specs.Firsts.{with_firsts};

use rep_calls::PastEntry;
use rep_schema::RowStore;
use site_engine::Site;

/// Sets the first numbers of senders, the last one given first, so that of two for one sender the first one stays.
pub(crate) fn set_firsts<R: RowStore>(site: &mut Site<R>, firsts: &[PastEntry])
    requires { site.old.journal ≡ [] }
    ensures { site.new ≡ with_firsts firsts.now site.old }
{
    for place in (0..firsts.len()).rev() {
        let given = &firsts[place];
        site.set_first(&given.origin, given.number);
    }
}
