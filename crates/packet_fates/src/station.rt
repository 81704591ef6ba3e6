//! What a push looks at, at a site of rows or at one of calls.

use page_tables::PageTables;
use proc_calls::ProcSite;
use rep_values::SiteName;
use site_engine::Site;
use site_state::Why;

/// A site as a push sees it.
pub trait Station {
    /// The last position of the stream to another site.
    fn last_to(&self, to: &SiteName) -> u64;

    /// How far another site has acknowledged its stream.
    fn acked_by(&self, to: &SiteName) -> u64;

    /// Whether a position of a sender had come.
    fn has(&self, origin: &SiteName, position: u64) -> bool;

    /// The low-water mark of a sender.
    fn low(&self, origin: &SiteName) -> u64;
}

impl Station for Site<PageTables> {
    fn last_to(&self, to: &SiteName) -> u64 {
        self.last_sent(to)
    }

    fn acked_by(&self, to: &SiteName) -> u64 {
        self.queue().acked(to)
    }

    fn has(&self, origin: &SiteName, position: u64) -> bool {
        self.has_arrived(origin, position)
    }

    fn low(&self, origin: &SiteName) -> u64 {
        self.mark(origin)
    }
}

impl Station for ProcSite {
    fn last_to(&self, to: &SiteName) -> u64 {
        self.last(to)
    }

    fn acked_by(&self, to: &SiteName) -> u64 {
        self.acked(to)
    }

    fn has(&self, origin: &SiteName, position: u64) -> bool {
        match self.stale(origin, position) {
            Some(Why::NotArrived) => false,
            Some(Why::Finished) | Some(Why::NotReady) | None => true,
        }
    }

    fn low(&self, origin: &SiteName) -> u64 {
        self.mark(origin)
    }
}
