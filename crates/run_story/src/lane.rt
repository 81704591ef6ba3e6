//! The sites of a run.
ghost use Rattle.std.specs.Prelude.{◌≡◌};
ghost use Rattle.run_story.specs.Lanes.{new_lane};

use rep_values::SiteName;

/// What kind of site a lane has.
#[derive(Clone, Copy, Debug, PartialEq, Eq)]
pub enum LaneKind {
    /// A master that is there from the start.
    Master,
    /// A master that joins later.
    Late,
    /// A snapshot site of this master.
    Snapshot(SiteName),
}

/// A declared site, and how many entries of its journal were told, and of that of its calls.
#[derive(Clone, Copy, Debug, PartialEq, Eq)]
pub struct Lane {
    pub site: SiteName,
    pub kind: LaneKind,
    /// The line from which on the site is there.
    pub since: Option<u32>,
    pub told: u64,
    pub told_calls: u64,
}

impl Lane {
    /// A declared site that isn't there yet.
    pub fn of(site: SiteName, kind: LaneKind) -> Lane
        ensures { result ≡ new_lane site kind }
    {
        Lane {
            site,
            kind,
            since: None,
            told: 0,
            told_calls: 0,
        }
    }
}
