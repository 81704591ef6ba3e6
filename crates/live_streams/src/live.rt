//! What a live part leaves.

use live_laws::LiveTurn;
use rep_lists::Items;
use rep_schema::RowStore;
use site_engine::Site;

/// A site behind a live part, and the turns of that part, the first at the front.
#[derive(Drop)]
pub struct Live<R: RowStore> {
    pub site: Site<R>,
    pub turns: Items<LiveTurn>,
}
