//! A story whose script isn't read to its end.
ghost use Rattle.std.specs.Prelude.{◌≡◌, ◌-◌, [], ◌∷◌, ◌++◌, false, length, slice_get, IfOk, OnOk};
ghost use Rattle.run_story.specs.Telling.{words_of, ends_run, ends_run_in, AreLinesOf};
ghost use Rattle.run_story.specs.Running.{IsSound};

use crate::events::Told;
use crate::follower::{Answer, Follower};
use crate::happening::{Line, Outcome};
use crate::lane::Lane;
use rep_lists::{Items, NoMemory};
use std::alloc::Global;
use std::marker::Model;
use std::sync::Wait;
use std::thread::Threads;
use world_run::World;

/// A script that is followed: its world, its sites, and what came of each of its lines so far.
#[derive(Drop)]
pub struct OpenStory {
    follower: Follower,
    lines: Vec<Line>,
}

impl Model for OpenStory {
    ghost use Rattle.run_story.specs.Telling.{StoryView};
    ghost use Rattle.run_story.specs.Running.{story_view};

    ghost Value = { StoryView };

    ghost view = { λ s. story_view s.follower s.lines.items };
}

/// A line with what came of it.
fn line_of(alloc: Global, words: &[u8], answer: Answer, told: Told) -> Result<Line, NoMemory>
    ensures words { IfOk result (λ line. line.words ≡ words.now) }
    ensures outcome { IfOk result (λ line. line.outcome ≡ answer.outcome) }
    ensures entries { IfOk result (λ line. line.entries ≡ answer.entries.items) }
{
    let Told {
        sent,
        answered,
        event,
        turns,
    } = told;
    let Answer { outcome, entries } = answer;
    Ok(Line {
        words: Items::from_vec(Vec::from_slice(alloc, words)?),
        outcome,
        sent: Items::from_vec(sent),
        entries: Items::from_vec(entries),
        answered: Items::from_vec(answered),
        event,
        turns,
    })
}

/// Whether a line ends the run of which this came.
fn ends_run(outcome: &Outcome) -> bool
    ensures { result ≡ ends_run outcome.now }
{
    match outcome {
        Outcome::Malformed(_) => true,
        Outcome::PassedOver
        | Outcome::Declared
        | Outcome::Shown
        | Outcome::Done
        | Outcome::Refused(_) => false,
    }
}

impl OpenStory {
    /// A script of which nothing was read.
    pub fn make(alloc: Global) -> Result<OpenStory, NoMemory>
        ensures lines { IfOk result (λ story. story.lines ≡ []) }
        ensures sound { IfOk result IsSound }
    {
        Ok(OpenStory {
            follower: Follower::make(alloc)?,
            lines: Vec::new(alloc),
        })
    }

    /// The world behind the lines.
    pub fn world(&self) -> &World
        ensures { result.now ≡ self.now.world }
    {
        self.follower.world()
    }

    /// The declared sites, in declared order.
    pub fn lanes(&self) -> &[Lane]
        ensures { result.now ≡ self.now.lanes }
    {
        self.follower.lanes()
    }

    /// The lines so far.
    pub fn lines(&self) -> &[Line]
        ensures { result.now ≡ self.now.lines }
    {
        &self.lines
    }

    /// Runs the next line of the script, and tells what came of it. No line before it ended the run. Where there is no memory, no
    /// further line may be run.
    #[tactic(auto, using(crate::proofs::Sound::words_more))]
    fn take<X: Threads + Wait + Sync>(
        &mut self,
        rt: &X,
        alloc: Global,
        words: &[u8],
    ) -> Result<(), NoMemory>
        requires sound { IsSound self.old }
        requires going { ends_run_in (slice_get self.old.lines (length self.old.lines - 1)) ≡ false }
        ensures sound { OnOk result (IsSound self.new) }
        ensures lines { OnOk result (words_of self.new.lines ≡ words_of self.old.lines ++ words.now ∷ []) }
    {
        let mut told = Told::new(alloc);
        let before = self.lines.len();
        let answer = self.follower.run_next(rt, alloc, before, words, &mut told)?;
        let line = line_of(alloc, words, answer, told)?;
        self.lines.push(line)?;
        Ok(())
    }

    /// Whether the last line ended the run.
    fn is_ended(&self) -> bool
        ensures { result ≡ ends_run_in (slice_get self.now.lines (length self.now.lines - 1)) }
    {
        match self.lines.last() {
            Some(line) => ends_run(&line.outcome),
            None => false,
        }
    }

    /// Reads a script from its first line to its last, or to the first that is malformed.
    #[tactic(auto, using(crate::proofs::Scripts::at_start, crate::proofs::Scripts::goes_at_start, crate::proofs::Scripts::past_byte, crate::proofs::Scripts::past_end, crate::proofs::Scripts::read_whole, crate::proofs::Scripts::read_last))]
    pub fn read<X: Threads + Wait + Sync>(
        &mut self,
        rt: &X,
        alloc: Global,
        script: &[u8],
    ) -> Result<(), NoMemory>
        requires sound { IsSound self.old }
        requires none { self.old.lines ≡ [] }
        ensures sound { OnOk result (IsSound self.new) }
        ensures lines { OnOk result (AreLinesOf script.now self.new.lines) }
    {
        let mut line = Vec::new(alloc);
        for byte in script {
            if *byte != b'\n' {
                line.push(*byte)?;
                continue;
            }
            self.take(rt, alloc, &line)?;
            if self.is_ended() {
                return Ok(());
            }
            line.clear();
        }
        if line.is_empty() {
            return Ok(());
        }
        self.take(rt, alloc, &line)?;
        Ok(())
    }
}
