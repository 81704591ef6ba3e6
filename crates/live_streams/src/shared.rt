//! A live part of which many threads make turns, behind a gate.
ghost use Rattle.std.specs.Prelude.{◌≡◌, ◌+◌, ◌^◌, ◌<◌, [], ◌∷◌, ◌++◌, length};
ghost use Rattle.live_streams.specs.Shared.{entries};

use crate::crew::LiveCrew;
use live_laws::Session;
use rep_lists::{Items, NoMemory};
use rep_schema::RowStore;
use rep_values::SiteName;
use site_engine::Site;
use site_gate::Turns;
use std::alloc::Global;

/// A live part in the making, and how often a thread came in to make a turn of it.
#[derive(Drop)]
pub struct SharedCrew<R: RowStore> {
    pub crew: LiveCrew<R>,
    entered: u64,
}

/// How a live part began. No value of it is made.
#[derive(Drop)]
pub struct Opening<R: RowStore> {
    pub site: Site<R>,
    pub origins: Items<SiteName>,
    pub sessions: Items<Session>,
}

impl<R: RowStore> Turns for SharedCrew<R> {
    type Turn = ();

    type Opening = Opening<R>;

    ghost history = { λ c. entries c.entered };

    ghost opening = { λ c. record { site = c.crew.opened; origins = c.crew.origins; sessions = c.crew.sessions } };
}

impl<R: RowStore> SharedCrew<R> {
    /// No thread came in yet.
    pub(crate) fn new(crew: LiveCrew<R>) -> SharedCrew<R>
        ensures crew { result.crew ≡ crew }
        ensures entries { entries result.entered ≡ [] }
    {
        SharedCrew { crew, entered: 0 }
    }

    /// Comes in once more. What was made of the live part stays.
    pub(crate) fn come_in(&mut self)
        requires { length (entries self.old.entered) + 1 < 2 ^ 64 }
        ensures crew { self.new.crew ≡ self.old.crew }
        ensures entries { entries self.new.entered ≡ entries self.old.entered ++ tt ∷ [] }
    {
        self.entered += 1;
    }

    /// Comes in and applies the least position that is ready of the origin at a place, and answers whether there was one.
    pub(crate) fn apply_next(&mut self, alloc: Global, place: usize) -> Result<bool, NoMemory>
        requires { length (entries self.old.entered) + 1 < 2 ^ 64 }
        ensures opened { self.new.crew.opened ≡ self.old.crew.opened }
        ensures origins { self.new.crew.origins ≡ self.old.crew.origins }
        ensures sessions { self.new.crew.sessions ≡ self.old.crew.sessions }
        ensures entries { entries self.new.entered ≡ entries self.old.entered ++ tt ∷ [] }
    {
        self.come_in();
        self.crew.apply_next(alloc, place)
    }

    /// Comes in and commits the next block of the session at a place, and answers whether there was one.
    pub(crate) fn commit_next(&mut self, alloc: Global, place: usize) -> Result<bool, NoMemory>
        requires { length (entries self.old.entered) + 1 < 2 ^ 64 }
        ensures opened { self.new.crew.opened ≡ self.old.crew.opened }
        ensures origins { self.new.crew.origins ≡ self.old.crew.origins }
        ensures sessions { self.new.crew.sessions ≡ self.old.crew.sessions }
        ensures entries { entries self.new.entered ≡ entries self.old.entered ++ tt ∷ [] }
    {
        self.come_in();
        self.crew.commit_next(alloc, place)
    }
}
