//! A world that is followed.
ghost use Rattle.std.specs.Prelude.{◌≡◌, ◌+◌, ◌++◌, ◌≤◌, [], false, None, Some, Ok, map, IfOk, OnOk, IsTrue};
ghost use Rattle.script_parse.specs.Named.{NamesColumn};
ghost use Rattle.script_parse.specs.LiveLines.{LiveNamesColumn};
ghost use Rattle.report_text.specs.Refusals.{is_memory};
ghost use Rattle.world_state.specs.Steps.{world_step, step_refused};
ghost use Rattle.world_run.specs.LiveParts.{taken};
ghost use Rattle.world_run.specs.LiveScripts.{live_start, known};
ghost use Rattle.world_run.specs.LiveAnswers.{IsAnswered};
ghost use Rattle.run_story.specs.Lanes.{lanes_declared};
ghost use Rattle.run_story.specs.Telling.{lane_at, spans_from, AddsLanes, KeepsTold};
ghost use Rattle.run_story.specs.Running.{engine_part, stand_of, refusal_in, said_in, refused_at, hindrance_of, command_refused, GoesOn, LineGoes};

use crate::events::{Told, tell};
use crate::following::{declare, entries_of, lanes_at};
use crate::happening::{Outcome, Span};
use crate::lane::Lane;
use crate::living::run_part;
use crate::looking::{Before, seen_before};
use crate::part::{OpenPart, Part};
use packet_fates::Roads;
use rep_lists::NoMemory;
use rep_values::{Refusal, SiteName};
use script_lex::LineStop;
use script_parse::{Command, LineParser, LiveCommand, ProcLine};
use std::alloc::Global;
use std::marker::Model;
use std::mem;
use std::sync::Wait;
use std::thread::Threads;
use world_run::World;
use world_state::Refused;

/// The most lines of a script.
const MOST_LINES: usize = 200_000;

/// A world that runs the lines of a script, with its sites and what was told of their journals, the ways between them, and the live
/// part.
#[derive(Drop)]
pub struct Follower {
    world: World,
    lanes: Vec<Lane>,
    roads: Roads,
    part: Part,
    parser: LineParser,
}

impl Model for Follower {
    ghost use Rattle.run_story.specs.Telling.{Followed};
    ghost use Rattle.run_story.specs.Running.{engine_part};

    ghost Value = { Followed };

    ghost view = { λ f. record { world = f.world; part = engine_part f.part; lanes = f.lanes.items } };
}

/// What came of a line, and the entries that came to journals.
#[derive(Drop)]
pub struct Answer {
    pub outcome: Outcome,
    pub entries: Vec<Span>,
}

/// What came of a command that was done.
fn done(command: &Command) -> Outcome
    ensures { said_in result ≡ Ok None }
{
    match command {
        Command::Declare(_) | Command::Snapshot { .. } | Command::Row { .. } => Outcome::Declared,
        Command::Procedures(ProcLine::Table { .. } | ProcLine::Procedure { .. }) => {
            Outcome::Declared
        }
        Command::Show { .. } => Outcome::Shown,
        _ => Outcome::Done,
    }
}

/// A line that was refused.
fn refused(line: u32, refusal: Refusal) -> Outcome
    ensures why { refusal_in result ≡ Some refusal }
    ensures said { said_in result ≡ Ok (refused_at line (Some refusal)) }
{
    Outcome::Refused(Refused { line, refusal })
}

/// What came of a line that went into a part or was refused.
fn answered(line: u32, refusal: Option<Refusal>) -> Outcome
    ensures why { refusal_in result ≡ refusal }
    ensures said { said_in result ≡ Ok (refused_at line refusal) }
{
    match refusal {
        None => Outcome::Done,
        Some(refusal) => refused(line, refusal),
    }
}

/// Takes a line that every script may have into an open part.
#[tactic(auto, using(crate::proofs::Steps::taken_said))]
fn take_in(
    part: &mut OpenPart,
    alloc: Global,
    number: u32,
    command: &Command,
) -> Result<Outcome, NoMemory>
    ensures answers { IfOk result (λ outcome. IsAnswered (taken number command.now part.old) part.old part.new (refusal_in outcome)) }
    ensures said { IfOk result (λ outcome. said_in outcome ≡ Ok (refused_at number (hindrance_of (taken number command.now part.old)))) }
{
    match part.take(alloc, number, command) {
        Ok(refusal) => Ok(answered(number, refusal)),
        Err(NoMemory) => Err(NoMemory),
    }
}

/// Whether a command is that of a line that is passed over.
fn is_nothing(command: &LiveCommand) -> bool
    ensures { IsTrue result → command.now ≡ LiveCommand.Plain Command.Nothing }
{
    match command {
        LiveCommand::Plain(Command::Nothing) => true,
        _ => false,
    }
}

/// The answer where no entry came to journals.
fn without_entries(alloc: Global, outcome: Outcome) -> Answer
    ensures entries { result.entries.items ≡ [] }
    ensures outcome { result.outcome ≡ outcome }
{
    Answer {
        outcome,
        entries: Vec::new(alloc),
    }
}

impl Follower {
    /// A world in which nothing is declared.
    pub fn make(alloc: Global) -> Result<Follower, NoMemory>
        ensures free { IfOk result (λ follower. follower.world.lent ≡ None) }
        ensures stands { IfOk result (λ follower. stand_of follower ≡ live_start false) }
        ensures lanes { IfOk result (λ follower. follower.lanes ≡ []) }
    {
        Ok(Follower {
            world: World::make(alloc)?,
            lanes: Vec::new(alloc),
            roads: Roads::new(alloc),
            part: Part::NotYet,
            parser: LineParser::new(alloc),
        })
    }

    /// The world behind the lines so far.
    pub fn world(&self) -> &World
        ensures { result.now ≡ self.now.world }
    {
        &self.world
    }

    /// The declared sites, in declared order.
    pub fn lanes(&self) -> &[Lane]
        ensures { result.now ≡ self.now.lanes }
    {
        &self.lanes
    }

    /// Follows a command that was done.
    #[tactic(auto, using(crate::proofs::Lanes::declares_none))]
    fn follow(&mut self, alloc: Global, command: &Command) -> Result<(), NoMemory>
        ensures world { self.new.world ≡ self.old.world }
        ensures part { self.new.part ≡ self.old.part }
        ensures lanes { OnOk result (self.new.lanes ≡ self.old.lanes ++ lanes_declared command.now) }
    {
        self.roads.follow(alloc, command)?;
        if let Command::Declare(declaration) = command {
            declare(&mut self.lanes, declaration)?;
        }
        Ok(())
    }

    /// Tells a command that was done, and follows it.
    fn follow_done(
        &mut self,
        alloc: Global,
        command: &Command,
        seen: Before,
        told: &mut Told,
    ) -> Result<Outcome, NoMemory>
        ensures world { self.new.world ≡ self.old.world }
        ensures part { self.new.part ≡ self.old.part }
        ensures lanes { OnOk result (self.new.lanes ≡ self.old.lanes ++ lanes_declared command.now) }
        ensures said { IfOk result (λ outcome. said_in outcome ≡ Ok None) }
    {
        tell(alloc, &self.world, &mut self.roads, command, seen, told)?;
        self.follow(alloc, command)?;
        Ok(done(command))
    }

    /// Follows a command that was refused.
    fn follow_refused(&mut self, command: &Command, refused: Refused) -> Result<Outcome, NoMemory>
        ensures world { self.new.world ≡ self.old.world }
        ensures part { self.new.part ≡ self.old.part }
        ensures lanes { self.new.lanes ≡ self.old.lanes }
        ensures said { IfOk result (λ outcome. said_in outcome ≡ Ok (Some refused)) }
        ensures memory { OnOk result (is_memory refused.refusal ≡ false) }
    {
        if let Refusal::Memory = refused.refusal {
            return Err(NoMemory);
        }
        if let Command::Commit | Command::Procedures(ProcLine::Send { .. }) = command {
            self.roads.block = None;
        }
        Ok(Outcome::Refused(refused))
    }

    /// Runs a command that every script may have, and tells what came of it, beside what came to journals.
    #[tactic(auto, using(crate::proofs::Lanes::adds_refused, crate::proofs::Steps::done_steps, crate::proofs::Steps::refused_steps, crate::proofs::Steps::done_said, crate::proofs::Steps::refused_said))]
    fn step(
        &mut self,
        alloc: Global,
        number: u32,
        command: &Command,
        told: &mut Told,
    ) -> Result<Outcome, NoMemory>
        requires free { self.old.world.lent ≡ None }
        requires named { NamesColumn command.now }
        ensures free { OnOk result (self.new.world.lent ≡ None) }
        ensures world { OnOk result (self.new.world.world ≡ world_step number command.now self.old.world.world) }
        ensures part { OnOk result (self.new.part ≡ self.old.part) }
        ensures lanes { OnOk result (AddsLanes self.old self.new) }
        ensures said { IfOk result (λ outcome. said_in outcome ≡ Ok (step_refused number command.now self.old.world.world)) }
    {
        let seen = seen_before(alloc, &self.world, &self.lanes, &self.roads, command)?;
        match self.world.step(alloc, number, command) {
            Ok(_) => self.follow_done(alloc, command, seen, told),
            Err(refused) => match self.follow_refused(command, refused) {
                Ok(outcome) => Ok(outcome),
                Err(NoMemory) => Err(NoMemory),
            },
        }
    }

    /// Runs a command that every script may have, or takes it into the open part.
    #[tactic(auto, using(crate::proofs::Lanes::adds_none, crate::proofs::Steps::goes_taken, crate::proofs::Steps::known_taken, crate::proofs::Steps::around_goes, crate::proofs::Steps::around_said, crate::proofs::Steps::around_known))]
    fn run_plain(
        &mut self,
        alloc: Global,
        number: u32,
        command: &Command,
        told: &mut Told,
    ) -> Result<Outcome, NoMemory>
        requires free { self.old.world.lent ≡ None }
        requires named { NamesColumn command.now }
        requires known { known (stand_of self.old) }
        ensures free { OnOk result (self.new.world.lent ≡ None) }
        ensures known { OnOk result (known (stand_of self.new)) }
        ensures goes { OnOk result (GoesOn number (LiveCommand.Plain command.now) (stand_of self.old) (stand_of self.new)) }
        ensures lanes { OnOk result (AddsLanes self.old self.new) }
        ensures said { IfOk result (λ outcome. said_in outcome ≡ Ok (command_refused (stand_of self.old) number (LiveCommand.Plain command.now))) }
    {
        if let Part::Open(part) = &mut self.part {
            return take_in(part, alloc, number, command);
        }
        self.step(alloc, number, command, told)
    }

    /// `live`
    #[tactic(auto, using(crate::proofs::Steps::goes_open, crate::proofs::Steps::goes_unopened))]
    fn open_part(&mut self, alloc: Global, number: u32, site: SiteName) -> Outcome
        requires free { self.old.world.lent ≡ None }
        requires known { known (stand_of self.old) }
        ensures world { self.new.world ≡ self.old.world }
        ensures lanes { self.new.lanes ≡ self.old.lanes }
        ensures known { known (stand_of self.new) }
        ensures goes { GoesOn number (LiveCommand.Open site) (stand_of self.old) (stand_of self.new) }
        ensures said { said_in result ≡ Ok (command_refused (stand_of self.old) number (LiveCommand.Open site)) }
    {
        let Part::NotYet = &self.part else {
            return refused(number, Refusal::WrongPhase);
        };
        match self.world.live_check(&site) {
            Ok(()) => {
                self.part = Part::Open(OpenPart::new(alloc, site));
                Outcome::Done
            }
            Err(refusal) => refused(number, refusal),
        }
    }

    /// `session`
    #[tactic(auto, using(crate::proofs::Lanes::adds_none, crate::proofs::Steps::goes_session, crate::proofs::Steps::known_session))]
    fn begin_session(&mut self, alloc: Global, number: u32) -> Result<Outcome, NoMemory>
        requires free { self.old.world.lent ≡ None }
        requires known { known (stand_of self.old) }
        ensures free { OnOk result (self.new.world.lent ≡ None) }
        ensures lanes { OnOk result (AddsLanes self.old self.new) }
        ensures known { OnOk result (known (stand_of self.new)) }
        ensures goes { OnOk result (GoesOn number LiveCommand.Session (stand_of self.old) (stand_of self.new)) }
        ensures said { IfOk result (λ outcome. said_in outcome ≡ Ok (command_refused (stand_of self.old) number LiveCommand.Session)) }
    {
        let refusal = match &mut self.part {
            Part::Open(part) => part.begin_session(alloc)?,
            Part::NotYet | Part::Ended(_) => Some(Refusal::WrongPhase),
        };
        Ok(answered(number, refusal))
    }

    /// `end`
    #[tactic(auto, using(crate::proofs::Lanes::adds_none, crate::proofs::Steps::known_end, crate::proofs::Steps::free_end, crate::proofs::Steps::goes_no_end, crate::proofs::Steps::open_passes, crate::proofs::Steps::open_few))]
    fn end_part<X: Threads + Wait + Sync>(
        &mut self,
        rt: &X,
        alloc: Global,
        number: u32,
        told: &mut Told,
    ) -> Result<Outcome, NoMemory>
        requires free { self.old.world.lent ≡ None }
        requires known { known (stand_of self.old) }
        ensures free { OnOk result (self.new.world.lent ≡ None) }
        ensures lanes { OnOk result (AddsLanes self.old self.new) }
        ensures known { OnOk result (known (stand_of self.new)) }
        ensures goes { OnOk result (GoesOn number LiveCommand.End (stand_of self.old) (stand_of self.new)) }
        ensures said { IfOk result (λ outcome. said_in outcome ≡ Ok (command_refused (stand_of self.old) number LiveCommand.End)) }
    {
        match mem::replace(&mut self.part, Part::NotYet) {
            Part::Open(part) => {
                let world = &mut self.world;
                let roads = &mut self.roads;
                let ended = run_part(rt, alloc, world, &self.lanes, roads, part, told)?;
                self.part = Part::Ended(ended);
                Ok(Outcome::Done)
            }
            other => {
                self.part = other;
                Ok(refused(number, Refusal::WrongPhase))
            }
        }
    }

    /// Runs a command, and tells what came of it, beside what came to journals.
    #[tactic(auto, using(crate::proofs::Lanes::adds_none))]
    fn run_command<X: Threads + Wait + Sync>(
        &mut self,
        rt: &X,
        alloc: Global,
        number: u32,
        command: LiveCommand,
        told: &mut Told,
    ) -> Result<Outcome, NoMemory>
        requires free { self.old.world.lent ≡ None }
        requires named { LiveNamesColumn command }
        requires known { known (stand_of self.old) }
        ensures free { OnOk result (self.new.world.lent ≡ None) }
        ensures known { OnOk result (known (stand_of self.new)) }
        ensures goes { OnOk result (GoesOn number command (stand_of self.old) (stand_of self.new)) }
        ensures lanes { OnOk result (AddsLanes self.old self.new) }
        ensures said { IfOk result (λ outcome. said_in outcome ≡ Ok (command_refused (stand_of self.old) number command)) }
    {
        match command {
            LiveCommand::Plain(command) => self.run_plain(alloc, number, &command, told),
            LiveCommand::Open(site) => Ok(self.open_part(alloc, number, site)),
            LiveCommand::Session => self.begin_session(alloc, number),
            LiveCommand::End => self.end_part(rt, alloc, number, told),
        }
    }

    /// Tells what came to journals, behind a line of this number.
    fn look(&mut self, alloc: Global, number: u32) -> Result<Vec<Span>, NoMemory>
        ensures world { self.new.world ≡ self.old.world }
        ensures part { self.new.part ≡ self.old.part }
        ensures told { IfOk result (λ entries. entries.items ≡ spans_from self.old.world 0 self.old.lanes) }
        ensures lanes { OnOk result (self.new.lanes ≡ map (lane_at self.old.world number) self.old.lanes) }
    {
        let entries = entries_of(alloc, &self.world, &self.lanes)?;
        self.lanes = lanes_at(alloc, &self.world, number, &self.lanes)?;
        Ok(entries)
    }

    /// Runs a command, and tells what came of it and to journals.
    #[tactic(auto, using(crate::proofs::Stories::keeps_by_look, crate::proofs::Steps::looked_goes, crate::proofs::Steps::looked_known))]
    fn run<X: Threads + Wait + Sync>(
        &mut self,
        rt: &X,
        alloc: Global,
        number: u32,
        command: LiveCommand,
        told: &mut Told,
    ) -> Result<Answer, NoMemory>
        requires free { self.old.world.lent ≡ None }
        requires named { LiveNamesColumn command }
        requires known { known (stand_of self.old) }
        ensures free { OnOk result (self.new.world.lent ≡ None) }
        ensures known { OnOk result (known (stand_of self.new)) }
        ensures goes { OnOk result (GoesOn number command (stand_of self.old) (stand_of self.new)) }
        ensures keeps { IfOk result (λ answer. KeepsTold self.old self.new answer.entries.items) }
        ensures said { IfOk result (λ answer. said_in answer.outcome ≡ Ok (command_refused (stand_of self.old) number command)) }
    {
        let outcome = self.run_command(rt, alloc, number, command, told)?;
        let entries = self.look(alloc, number)?;
        Ok(Answer { outcome, entries })
    }

    /// Runs a line, and tells what came of it and to journals.
    #[tactic(auto, using(crate::proofs::Stories::keeps_all))]
    fn run_line<X: Threads + Wait + Sync>(
        &mut self,
        rt: &X,
        alloc: Global,
        number: u32,
        line: &[u8],
        told: &mut Told,
    ) -> Result<Answer, NoMemory>
        requires free { self.old.world.lent ≡ None }
        requires known { known (stand_of self.old) }
        requires few { number ≤ 200000 }
        ensures free { OnOk result (self.new.world.lent ≡ None) }
        ensures known { OnOk result (known (stand_of self.new)) }
        ensures goes { IfOk result (λ answer. LineGoes number line.now answer.outcome (stand_of self.old) (stand_of self.new)) }
        ensures keeps { IfOk result (λ answer. KeepsTold self.old self.new answer.entries.items) }
    {
        match self.parser.parse_live(alloc, line) {
            Ok(command) => {
                if is_nothing(&command) {
                    return Ok(without_entries(alloc, Outcome::PassedOver));
                }
                self.run(rt, alloc, number, command, told)
            }
            Err(LineStop::Rule(rule)) => Ok(without_entries(alloc, Outcome::Malformed(rule))),
            Err(LineStop::Memory) => Err(NoMemory),
        }
    }

    /// Runs the line behind so many, and tells what came of it and to journals. One line too many breaks rule 2. Where there is no
    /// memory, no further line may be run.
    #[tactic(auto, using(crate::proofs::Stories::keeps_all))]
    pub fn run_next<X: Threads + Wait + Sync>(
        &mut self,
        rt: &X,
        alloc: Global,
        before: usize,
        line: &[u8],
        told: &mut Told,
    ) -> Result<Answer, NoMemory>
        requires free { self.old.world.lent ≡ None }
        requires known { known (stand_of self.old) }
        ensures free { OnOk result (self.new.world.lent ≡ None) }
        ensures known { OnOk result (known (stand_of self.new)) }
        ensures goes { IfOk result (λ answer. LineGoes (before + 1) line.now answer.outcome (stand_of self.old) (stand_of self.new)) }
        ensures keeps { IfOk result (λ answer. KeepsTold self.old self.new answer.entries.items) }
    {
        if before >= MOST_LINES {
            return Ok(without_entries(alloc, Outcome::Malformed(2)));
        }
        self.run_line(rt, alloc, before as u32 + 1, line, told)
    }
}
