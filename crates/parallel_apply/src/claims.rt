//! Which position an applier claims next.
ghost use Rattle.std.specs.Prelude.{◌≡◌, ◌<◌, None, IfSome};
ghost use Rattle.site_state.specs.Ready.{stale_of};

use rep_schema::RowStore;
use rep_values::SiteName;
use site_engine::Site;

/// The most appliers of a crew.
pub const MOST_APPLIERS: u32 = 8;

/// The positions that the appliers work on, and how far a crew has looked ahead. The lowest position that isn't finished is
/// claimed first, once it is ready, and else the next one ahead that is. It is looked for from where the last one was found, so
/// that each position is looked at a few times and not at each claim. A position becomes ready where the low-water mark rises, so
/// where nothing more is ahead and the mark has risen, it is looked for from the mark again.
#[derive(Drop)]
pub struct Claims {
    // By applier; 0 where it works on none.
    working: [u64; 8],
    // Where the last position ahead was found.
    ahead: u64,
    // The low-water mark from which it was looked ahead.
    from: u64,
}

impl Claims {
    pub(crate) fn new() -> Claims {
        Claims {
            working: [0; 8],
            ahead: 0,
            from: 0,
        }
    }

    /// Whether an applier works on a position.
    fn is_worked_on(&self, position: u64) -> bool {
        self.working
            .iter()
            .any(|working: &u64| -> bool { *working == position })
    }

    /// Whether a position may be claimed: nobody works on it, and it is ready.
    fn is_free<R: RowStore>(&self, site: &Site<R>, origin: &SiteName, position: u64) -> bool
        ensures { result ≡ Rattle.std.specs.Prelude.true → stale_of origin.now position site.now ≡ None }
    {
        !self.is_worked_on(position) && site.stale(origin, position).is_none()
    }

    /// The next position behind the last one ahead that is ready and that nobody works on.
    fn next_ahead<R: RowStore>(&mut self, site: &Site<R>, origin: &SiteName) -> Option<u64>
        ensures { IfSome result (λ position. stale_of origin.now position site.now ≡ None) }
    {
        for _ in 0..=MOST_APPLIERS {
            let Some(position) = site.lowest_ready(origin, self.ahead) else {
                return None;
            };
            self.ahead = position;
            if !self.is_worked_on(position) {
                return Some(position);
            }
        }
        None
    }

    /// A position ahead of a sender's low-water mark that is ready and that nobody works on.
    fn one_ahead<R: RowStore>(
        &mut self,
        site: &Site<R>,
        origin: &SiteName,
        mark: u64,
    ) -> Option<u64>
        ensures { IfSome result (λ position. stale_of origin.now position site.now ≡ None) }
    {
        let next = self.next_ahead(site, origin);
        if next.is_some() || self.from == mark {
            return next;
        }
        self.from = mark;
        self.ahead = mark;
        self.next_ahead(site, origin)
    }

    /// The position that an applier works on from now; None where nothing is free.
    pub(crate) fn next<R: RowStore>(
        &mut self,
        site: &Site<R>,
        origin: &SiteName,
        applier: u32,
    ) -> Option<u64>
        requires { applier < 8 }
        ensures { IfSome result (λ position. stale_of origin.now position site.now ≡ None) }
    {
        let mark = site.mark(origin);
        let lowest = mark.saturating_add(1);
        let position = if self.is_free(site, origin, lowest) {
            lowest
        } else {
            self.one_ahead(site, origin, mark)?
        };
        self.working[applier as usize] = position;
        Some(position)
    }

    /// An applier works on nothing from now.
    pub(crate) fn leave(&mut self, applier: u32)
        requires { applier < 8 }
    {
        self.working[applier as usize] = 0;
    }
}
