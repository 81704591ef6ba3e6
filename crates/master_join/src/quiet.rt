//! What hinders a join at a site.
ghost use Rattle.std.specs.Prelude.{◌≡◌, ◌-◌, ◌^◌, min};
ghost use Rattle.site_state.specs.Joining.{unfinished_of, master_errors, unfinished};

use rep_calls::PastEntry;
use rep_schema::RowStore;
use schema_names::is_master_site;
use site_engine::Site;

/// How many of the positions 1 to a last one of an origin aren't finished at a site. It takes no memory.
pub fn unfinished_of<R: RowStore>(site: &Site<R>, last: &PastEntry) -> u64
    ensures { result ≡ unfinished_of site.now last.now }
{
    // Each position up to the mark is finished.
    let mark = site.mark(&last.origin);
    let mut count: u64 = 0;
    for position in mark..last.number {
        if !site.is_finished(&last.origin, position + 1) {
            count += 1;
        }
    }
    count
}

/// How many errors of masters' transactions stand at a site. It takes no memory.
pub fn master_errors<R: RowStore>(site: &Site<R>) -> u64
    ensures { result ≡ master_errors site.now }
{
    let errors = site.errors();
    let schema = site.store().schema();
    let mut count: u64 = 0;
    for place in 0..errors.len() {
        let Some(error) = errors.entry_in_order(place) else {
            unreachable!()
        };
        if is_master_site(schema, &error.origin) {
            count += 1;
        }
    }
    count
}

/// How much hinders a join at a site, of each origin its last position for that site given: the positions up to it that aren't
/// finished, and the errors of masters' transactions that stand. It takes no memory. The count stands still at the end of its
/// type.
pub fn unfinished<R: RowStore>(site: &Site<R>, last: &[PastEntry]) -> u64
    ensures { result ≡ min (2 ^ 64 - 1) (unfinished last.now site.now) }
{
    let mut count = master_errors(site);
    for given in last {
        count = count.saturating_add(unfinished_of(site, given));
    }
    count
}
