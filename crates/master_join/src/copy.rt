//! A site as a copy of another one.
ghost use Rattle.std.specs.Prelude.{◌≡◌, [], length, replicate, IfOk};
ghost use Rattle.rep_schema.specs.Sites.{senders_of, destinations_of, is_master_site};
ghost use Rattle.site_state.specs.Joining.{site_copy};

use crate::firsts::set_firsts;
use crate::rows::copy_tables;
use rep_calls::PastEntry;
use rep_lists::{Items, NoMemory};
use rep_schema::{RowStore, TableSet};
use rep_values::SiteName;
use site_engine::Site;
use std::alloc::Global;
use txn_effects::Here;

/// A site that begins with the rows that another one has now. Its store is of the other's schema and empty, and takes them;
/// senders and destinations are those that the schema gives it, in declared order. From the queue of each sender so much is in
/// these rows as the first number says that is given for it, the first one where there are two, and nothing where there is none.
/// The site has no logs and no snapshots, and nothing happened at it yet. The other one stays as it is.
pub fn copy_site<R: RowStore, S: RowStore>(
    alloc: Global,
    source: &Site<R>,
    store: S,
    here: Here,
    senders: &[SiteName],
    destinations: &[SiteName],
    firsts: &[PastEntry],
) -> Result<Site<S>, NoMemory>
    requires schema { S.schema store ≡ source.now.schema }
    requires empty { S.tables store ≡ replicate (length (S.schema store).tables) [] }
    requires master { here.is_master ≡ is_master_site (S.schema store) here.site }
    requires senders { senders.now ≡ senders_of (S.schema store) here.site }
    requires destinations { destinations.now ≡ destinations_of (S.schema store) here.site }
    ensures { IfOk result (λ site. site ≡ site_copy source.now here firsts.now) }
{
    let mut filled = store;
    copy_tables(alloc, source.store(), &mut filled)?;
    let mut site = Site::make(
        alloc,
        filled,
        here,
        senders,
        destinations,
        &TableSet::below(0),
        Items::new(alloc),
    )?;
    set_firsts(&mut site, firsts);
    Ok(site)
}
