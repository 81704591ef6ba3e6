//! A script that was followed.
ghost use Rattle.std.specs.Prelude.{◌≡◌, IfOk};
ghost use Rattle.run_story.specs.Lanes.{HasLanes};
ghost use Rattle.run_story.specs.Telling.{TellsJournals, AreLinesOf};
ghost use Rattle.run_story.specs.Running.{RunsAsEngine};

use crate::happening::Line;
use crate::lane::Lane;
use crate::open_story::OpenStory;
use rep_lists::NoMemory;
use std::alloc::Global;
use std::marker::Model;
use std::sync::Wait;
use std::thread::Threads;
use world_run::World;

/// A script that was followed: its world, its sites, and what came of each of its lines.
#[derive(Drop)]
pub struct Story {
    read: OpenStory,
}

impl Model for Story {
    ghost use Rattle.run_story.specs.Telling.{StoryView};
    ghost use Rattle.run_story.specs.Running.{IsSound};

    ghost Value = { StoryView };

    ghost view = { λ s. s.read };

    ghost invariant = { λ s. IsSound s.read };
}

impl Story {
    /// The world behind the lines.
    #[tactic(auto, using(crate::proofs::Sound::sound_tells))]
    pub fn world(&self) -> &World
        ensures value { result.now ≡ self.now.world }
        ensures tells { TellsJournals self.now }
    {
        self.read.world()
    }

    /// The declared sites, in declared order.
    pub fn lanes(&self) -> &[Lane]
        ensures { result.now ≡ self.now.lanes }
    {
        self.read.lanes()
    }

    /// The lines of the script, up to the one that ended the run.
    pub fn lines(&self) -> &[Line]
        ensures { result.now ≡ self.now.lines }
    {
        self.read.lines()
    }
}

/// Follows a script from its first line to its last, or to the first that is malformed. A live part is run by threads, in whatever
/// order their turns come; the world is the one in which the engine's own run of the script ends.
#[tactic(auto, using(crate::proofs::Sound::sound_lanes, crate::proofs::Sound::sound_tells, crate::proofs::Sound::sound_runs))]
pub fn story_of<X: Threads + Wait + Sync>(
    rt: &X,
    alloc: Global,
    script: &[u8],
) -> Result<Story, NoMemory>
    ensures lanes { IfOk result (λ story. HasLanes story.world.world story.lanes) }
    ensures tells { IfOk result TellsJournals }
    ensures runs { IfOk result (λ story. RunsAsEngine script.now story) }
    ensures lines { IfOk result (λ story. AreLinesOf script.now story.lines) }
{
    let mut story = OpenStory::make(alloc)?;
    match story.read(rt, alloc, script) {
        Ok(()) => Ok(Story { read: story }),
        Err(NoMemory) => Err(NoMemory),
    }
}
