//! A script that is run line by line, with words behind what it prints.
ghost use Rattle.std.specs.Prelude.{◌≡◌, ◌++◌, IfOk, OnOk};
ghost use Rattle.script_parse.specs.Named.{NamesColumn};
ghost use Rattle.world_state.specs.World.{first_world};
ghost use Rattle.world_state.specs.Steps.{world_step};
ghost use Rattle.world.specs.Texts.{line_text};
ghost use Rattle.world_run.specs.Scripts.{script_step};
ghost use Rattle.run_words.specs.Telling.{is_end};

use crate::done::tell_done;
use crate::malformed::tell_malformed;
use crate::told::Told;
use line_advice::LineError;
use rep_lists::NoMemory;
use script_flow::{Cause, Flow};
use script_parse::{Command, ProcLine};
use script_steps::{Came, Steps};
use site_words::{Plan, Ways};
use std::alloc::Global;
use std::marker::Model;

/// Whether a run goes on behind a line.
#[derive(Clone, Copy, Debug)]
pub enum Next {
    GoesOn,
    Ends,
}

/// A refusal that was told in full: its cause, the line that brought that about, if one did, and its own line.
#[derive(Clone, Copy)]
pub(crate) struct Refusing {
    pub(crate) cause: Cause,
    pub(crate) first: Option<u32>,
    pub(crate) line: u32,
}

impl Refusing {
    /// Whether it was for this cause, which the same line brought about.
    pub(crate) fn is_for(&self, cause: &Cause, first: Option<u32>) -> bool {
        self.cause == *cause && self.first == first
    }
}

/// The world of a script so far, and what its words need beside it.
#[derive(Drop)]
pub struct Explainer {
    pub(crate) steps: Steps,
    pub(crate) flow: Flow,
    pub(crate) ways: Ways,
    pub(crate) told: Option<Refusing>,
}

impl Model for Explainer {
    ghost use Rattle.world_state.specs.World.{WorldState};

    ghost Value = { WorldState };

    ghost view = { λ e. e.steps };
}

impl Explainer {
    /// Nothing was run yet.
    pub fn make(alloc: Global) -> Result<Explainer, NoMemory>
        ensures { IfOk result (λ explainer. explainer ≡ first_world) }
    {
        Ok(Explainer {
            steps: Steps::make(alloc)?,
            flow: Flow::new(alloc),
            ways: Ways::new(alloc),
            told: None,
        })
    }

    /// Runs the line of a number of a script, and tells what it prints, with words behind what wants some.
    #[tactic(auto, using(crate::proofs::RunLemmas::line_facts))]
    pub fn take_line(
        &mut self,
        alloc: Global,
        script: &[u8],
        number: u32,
        line: &[u8],
        told: &mut Told,
    ) -> Result<Next, NoMemory>
        ensures world { OnOk result (self.new ≡ (script_step self.old number line.now).state) }
        ensures told { OnOk result (told.new ≡ told.old ++ (script_step self.old number line.now).prints) }
        ensures next { IfOk result (λ next. is_end next ≡ (script_step self.old number line.now).stops) }
    {
        match self.steps.read(alloc, line) {
            Ok(command) => {
                self.step(alloc, script, number, command, told)?;
                Ok(Next::GoesOn)
            }
            Err(LineError::Mistake(mistake)) => {
                tell_malformed(alloc, number, line, &mistake, told)?;
                Ok(Next::Ends)
            }
            Err(LineError::Memory) => Err(NoMemory),
        }
    }

    /// Does a command, and tells what that prints, with words.
    fn step(
        &mut self,
        alloc: Global,
        script: &[u8],
        number: u32,
        command: Command,
        told: &mut Told,
    ) -> Result<(), NoMemory>
        requires { NamesColumn command }
        ensures world { OnOk result (self.new ≡ world_step number command self.old) }
        ensures told { OnOk result (told.new ≡ told.old ++ line_text number command self.old) }
    {
        let plan = self.planned(&command);
        match self.steps.take_command(alloc, number, command)? {
            Came::Done(command, lines) => {
                self.note_done(alloc, number, &command, plan, lines.bytes(), told)
            }
            Came::Refused(command, refused) => {
                self.tell_refused(alloc, script, number, &command, &refused, told)
            }
            Came::Malformed(_) => unreachable!(),
        }
    }

    /// What a push is about to send.
    fn planned(&self, command: &Command) -> Option<Plan> {
        if let Command::Push { from, to, count } = command {
            return self.plan_of(from, to, *count);
        }
        None
    }

    /// Follows a command that was done.
    fn follow(&mut self, alloc: Global, number: u32, command: &Command) -> Result<(), NoMemory>
        ensures { self.new ≡ self.old }
    {
        self.flow.done(number, command)?;
        self.ways.done(alloc, command)
    }

    /// Notes that a command was done, and tells what it printed, with words.
    fn note_done(
        &mut self,
        alloc: Global,
        number: u32,
        command: &Command,
        plan: Option<Plan>,
        bytes: &[u8],
        told: &mut Told,
    ) -> Result<(), NoMemory>
        ensures world { self.new ≡ self.old }
        ensures told { OnOk result (told.new ≡ told.old ++ bytes.now) }
    {
        self.follow(alloc, number, command)?;
        if let Command::Push { from, to, .. } = command {
            return self.tell_rows(alloc, from, to, plan, bytes, told);
        }
        if let Command::Procedures(ProcLine::Push { from, to }) = command {
            return self.tell_calls(alloc, from, to, bytes, told);
        }
        tell_done(alloc, command, bytes, told)
    }
}
