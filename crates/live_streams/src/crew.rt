//! A live part in the making.
ghost use Rattle.std.specs.Prelude.{◌≡◌, ◌≤◌, false, true, suc, length, IfOk, IfErr};
ghost use Rattle.live_laws.specs.Turns.{blocks_of};
ghost use Rattle.live_streams.specs.Quiet.{IsQuietAt};
ghost use Rattle.live_streams.specs.Crews.{IsCrew, IsSamePart, HadEachBlock};

use crate::live::Live;
use crate::turns::{apply_ready, commit_block, lowest_ready};
use live_laws::{LiveTurn, Session};
use rep_lists::{Items, NoMemory};
use rep_schema::RowStore;
use rep_values::SiteName;
use site_engine::Site;
use std::alloc::Global;
use std::marker::Model;
use std::snapshot::Snapshot;

/// The most sessions of a live part.
pub const MOST_SESSIONS: usize = 8;

/// A site at which turns are made one by one: the origins and sessions of which they are, the turns so far, how many blocks of
/// each session they commit, and how the site was at the opening, which only contracts look at.
#[derive(Drop)]
pub struct LiveCrew<R: RowStore> {
    // Apart, so that a crew that is handed on is small.
    site: Box<Site<R>>,
    opened: Snapshot<Site<R>>,
    origins: Items<SiteName>,
    sessions: Items<Session>,
    turns: Vec<LiveTurn>,
    next: [u32; 8],
}

impl<R: RowStore> Model for LiveCrew<R> {
    ghost use Rattle.live_streams.specs.Crews.{CrewState, IsCrew};

    ghost Value = { CrewState };

    ghost view = { λ c. record { opened = c.opened.value; origins = c.origins; sessions = c.sessions; turns = c.turns.items; next = c.next; site = c.site.value } };

    ghost invariant = { λ c. IsCrew (record { opened = c.opened.value; origins = c.origins; sessions = c.sessions; turns = c.turns.items; next = c.next; site = c.site.value }) };
}

/// A copy of names.
fn copied(alloc: Global, names: &[SiteName]) -> Result<Items<SiteName>, NoMemory>
    ensures { IfOk result (λ copy. copy ≡ names.now) }
{
    let mut kept = Vec::new(alloc);
    kept.extend_from_slice(names)?;
    Ok(Items::from_vec(kept))
}

impl<R: RowStore> LiveCrew<R> {
    /// A live part of which no turn is made yet. Where there is no memory, the site comes back.
    pub(crate) fn make(
        alloc: Global,
        site: Site<R>,
        origins: &[SiteName],
        sessions: Items<Session>,
    ) -> Result<LiveCrew<R>, Site<R>>
        requires { length sessions ≤ 8 }
        ensures opened { IfOk result (λ crew. crew.opened ≡ site) }
        ensures origins { IfOk result (λ crew. crew.origins ≡ origins.now) }
        ensures sessions { IfOk result (λ crew. crew.sessions ≡ sessions) }
        ensures err { IfErr result (λ back. back ≡ site) }
    {
        let Ok(origins) = copied(alloc, origins) else {
            return Err(site);
        };
        let opened = Snapshot::of(&site);
        let site = match Box::new(alloc, site) {
            Ok(site) => site,
            Err(refused) => return Err(refused.value),
        };
        Ok(LiveCrew {
            site,
            opened,
            origins,
            sessions,
            turns: Vec::new(alloc),
            next: [0; 8],
        })
    }

    /// How many origins there are.
    pub(crate) fn origin_count(&self) -> usize
        ensures { result ≡ length self.now.origins }
    {
        self.origins.len()
    }

    /// How many blocks the session at a place has, from 0; none where there is no session.
    pub(crate) fn block_count(&self, place: usize) -> usize
        ensures { result ≡ length (blocks_of (suc place) self.now.sessions) }
    {
        match self.sessions.as_slice().get(place) {
            Some(session) => session.blocks.len(),
            None => 0,
        }
    }

    /// Whether each block of each session had its turn.
    pub(crate) fn had_each_block(&self) -> bool
        ensures { result ≡ true → HadEachBlock self.now }
    {
        for place in 0..MOST_SESSIONS {
            if self.next[place] as usize != self.block_count(place) {
                return false;
            }
        }
        true
    }

    /// Applies the least position that is ready of the origin at a place, and answers whether there was one.
    pub(crate) fn apply_next(&mut self, alloc: Global, place: usize) -> Result<bool, NoMemory>
        ensures part { IsSamePart self.old self.new }
        ensures site { IfOk result (λ some. some ≡ false → self.new.site ≡ self.old.site) }
        ensures quiet { IfOk result (λ some. some ≡ false → IsQuietAt place self.new.origins self.new.site) }
    {
        let Some(origin) = self.origins.as_slice().get(place) else {
            return Ok(false);
        };
        let origin = *origin;
        let Some(position) = lowest_ready(&self.site, &origin) else {
            return Ok(false);
        };
        // The room comes first, so that what follows the turn can't fail.
        self.turns.reserve(1)?;
        let turn = apply_ready(&mut self.site, alloc, &origin, position)?;
        self.turns.push_reserved(turn);
        Ok(true)
    }

    /// Commits the next block of the session at a place, and answers whether there was one.
    pub(crate) fn commit_next(&mut self, alloc: Global, place: usize) -> Result<bool, NoMemory>
        ensures { IsSamePart self.old self.new }
    {
        let Some(session) = self.sessions.as_slice().get(place) else {
            return Ok(false);
        };
        let done = self.next[place];
        let Some(block) = session.blocks.as_slice().get(done as usize) else {
            return Ok(false);
        };
        // No machine has so many blocks.
        if done == u32::MAX {
            return Err(NoMemory);
        }
        // The room comes first, so that what follows the turn can't fail.
        self.turns.reserve(1)?;
        let reply = commit_block(&mut self.site, alloc, block)?;
        self.turns.push_reserved(LiveTurn::Committed {
            session: place as u32 + 1,
            block: done + 1,
            reply,
        });
        self.next[place] = done + 1;
        Ok(true)
    }

    /// The site and the turns so far.
    pub(crate) fn into_live(self) -> Live<R>
        ensures site { result.site ≡ self.site }
        ensures turns { result.turns ≡ self.turns }
        ensures crew { IsCrew self }
    {
        Live {
            site: Box::into_inner(self.site),
            turns: Items::from_vec(self.turns),
        }
    }
}
