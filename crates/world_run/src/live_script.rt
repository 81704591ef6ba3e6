//! A script with a live part that is run line by line.
ghost use Rattle.std.specs.Prelude.{◌≡◌, None, Some, Ok, IfOk, OnOk};
ghost use Rattle.script_drive.specs.Runs.{goes};
ghost use Rattle.script_parse.specs.Named.{NamesColumn};
ghost use Rattle.script_parse.specs.LiveLines.{LiveNamesColumn};
ghost use Rattle.world_run.specs.Scripts.{stepped_by};
ghost use Rattle.world_run.specs.LiveParts.{part_refusal, taken};
ghost use Rattle.world_run.specs.LiveScripts.{live_start, live_step, allowed, known, known_by};
ghost use Rattle.world_run.specs.LiveRunning.{world_in, MasterIsFree, answer_text, AnswersIn, IsRanIn, RunGoesOn};

use crate::built_world::World;
use crate::live_end::{Ran, run_part};
use crate::live_part::{LivePart, OpenPart};
use crate::runner::told;
use crate::streaming::Streaming;
use live_laws::LiveTurn;
use rep_lists::{Items, NoMemory};
use rep_values::{Refusal, SiteName};
use report_text::{Lines, MOST_LINE, refused_line};
use script_drive::LineRunner;
use script_lex::LineStop;
use script_parse::{Command, LiveCommand, parse_live};
use std::alloc::Global;
use std::marker::Model;
use std::mem;

/// A world, its live part, and whether the turns of that are printed as JSON. Once there was no memory within the end of the part
/// there is no world, and no line is run any more.
#[derive(Drop)]
pub struct LiveScript {
    world: Option<World>,
    part: LivePart,
    json: bool,
}

impl Model for LiveScript {
    ghost use Rattle.world_run.specs.LiveParts.{part_refusal, taken};
    ghost use Rattle.world_run.specs.LiveScripts.{LiveState};
    ghost use Rattle.world_run.specs.LiveRunning.{world_in, MasterIsFree};

    ghost Value = { LiveState };

    ghost view = { λ s. record { world = world_in s.world; part = s.part; json = s.json } };

    ghost invariant = { λ s. MasterIsFree s.world };
}

/// What a refused line prints.
fn refused(alloc: Global, number: u32, refusal: &Refusal) -> Result<Lines, NoMemory>
    ensures { IfOk result (λ lines. lines.bytes ≡ answer_text number (Some refusal.now)) }
{
    let mut lines = Lines::make(alloc);
    lines.reserve(MOST_LINE)?;
    refused_line(&mut lines, number, refusal);
    Ok(lines)
}

/// What a line prints that goes into a part or is refused.
fn answered(alloc: Global, number: u32, refusal: Option<Refusal>) -> Result<Lines, NoMemory>
    ensures { IfOk result (λ lines. lines.bytes ≡ answer_text number refusal) }
{
    match refusal {
        None => Ok(Lines::make(alloc)),
        Some(refusal) => refused(alloc, number, &refusal),
    }
}

/// Takes a line that every script may have into an open part.
fn take_in(
    part: &mut OpenPart,
    alloc: Global,
    number: u32,
    command: &Command,
) -> Result<Lines, NoMemory>
    ensures { IfOk result (λ lines. AnswersIn number (taken number command.now part.old) part.old part.new lines.bytes) }
{
    match part.take(alloc, number, command) {
        Ok(refusal) => answered(alloc, number, refusal),
        Err(NoMemory) => Err(NoMemory),
    }
}

/// Runs an open part. Where there is no memory, the world is lost.
fn run_open<S: Streaming>(
    world: &mut Option<World>,
    alloc: Global,
    json: bool,
    streaming: &S,
    part: OpenPart,
) -> Result<Ran, NoMemory>
    requires able { S.able streaming.now }
    requires free { MasterIsFree world.old }
    requires known { known_by (LivePart.Open part) (world_in world.old) }
    ensures free { MasterIsFree world.new }
    ensures ran { IfOk result (λ ran. IsRanIn json (world_in world.old) part world.new ran.part ran.lines.bytes) }
{
    let Some(mut kept) = mem::replace(world, None) else {
        return Err(NoMemory);
    };
    let ran = run_part(&mut kept, alloc, json, streaming, part)?;
    *world = Some(kept);
    Ok(ran)
}

/// Does a line that every script may have to a world.
fn run_around(
    world: &mut World,
    alloc: Global,
    number: u32,
    command: &Command,
) -> Result<Lines, NoMemory>
    requires free { world.old.lent ≡ None }
    requires named { NamesColumn command.now }
    ensures free { world.new.lent ≡ None }
    ensures steps { IfOk result (λ lines. stepped_by world.old.world number (Ok command.now) ≡ goes world.new.world lines.bytes) }
{
    match world.step(alloc, number, command) {
        Ok(answer) => Ok(answer.lines),
        Err(refused) => told(alloc, &refused),
    }
}

impl LiveScript {
    /// A world in which nothing is declared, and no part.
    pub fn make(alloc: Global, json: bool) -> Result<LiveScript, NoMemory>
        ensures { IfOk result (λ script. script ≡ live_start json) }
    {
        Ok(LiveScript {
            world: Some(World::make(alloc)?),
            part: LivePart::NotYet,
            json,
        })
    }

    /// A line that every script may have.
    fn run_plain(
        &mut self,
        alloc: Global,
        number: u32,
        command: &Command,
    ) -> Result<Lines, NoMemory>
        requires named { NamesColumn command.now }
        requires known { known self.old }
        ensures known { OnOk result (known self.new) }
        ensures goes { IfOk result (λ lines. RunGoesOn number (LiveCommand.Plain command.now) self.old self.new lines.bytes) }
    {
        if let LivePart::Open(part) = &mut self.part {
            return take_in(part, alloc, number, command);
        }
        let Some(world) = &mut self.world else {
            return Err(NoMemory);
        };
        run_around(world, alloc, number, command)
    }

    /// Why no part may be opened at a site, if something hinders it.
    fn refusal_of_part(&self, site: &SiteName) -> Result<Option<Refusal>, NoMemory>
        ensures { IfOk result (λ refusal. refusal ≡ part_refusal self.now.part site.now self.now.world) }
    {
        let LivePart::NotYet = &self.part else {
            return Ok(Some(Refusal::WrongPhase));
        };
        match &self.world {
            Some(world) => Ok(world.live_check(site).err()),
            None => Err(NoMemory),
        }
    }

    /// `live`
    fn open(&mut self, alloc: Global, number: u32, site: SiteName) -> Result<Lines, NoMemory>
        requires known { known self.old }
        ensures known { OnOk result (known self.new) }
        ensures goes { IfOk result (λ lines. RunGoesOn number (LiveCommand.Open site) self.old self.new lines.bytes) }
    {
        match self.refusal_of_part(&site) {
            Ok(None) => {
                self.part = LivePart::Open(OpenPart::new(alloc, site));
                Ok(Lines::make(alloc))
            }
            Ok(Some(refusal)) => refused(alloc, number, &refusal),
            Err(NoMemory) => Err(NoMemory),
        }
    }

    /// `session`
    fn begin_session(&mut self, alloc: Global, number: u32) -> Result<Lines, NoMemory>
        requires known { known self.old }
        ensures known { OnOk result (known self.new) }
        ensures goes { IfOk result (λ lines. RunGoesOn number LiveCommand.Session self.old self.new lines.bytes) }
    {
        let refusal = match &mut self.part {
            LivePart::Open(part) => part.begin_session(alloc)?,
            LivePart::NotYet | LivePart::Ended(_) => Some(Refusal::WrongPhase),
        };
        answered(alloc, number, refusal)
    }

    /// `end`
    fn end<S: Streaming>(
        &mut self,
        alloc: Global,
        streaming: &S,
        number: u32,
    ) -> Result<Lines, NoMemory>
        requires able { S.able streaming.now }
        requires known { known self.old }
        ensures known { OnOk result (known self.new) }
        ensures goes { IfOk result (λ lines. RunGoesOn number LiveCommand.End self.old self.new lines.bytes) }
    {
        match mem::replace(&mut self.part, LivePart::NotYet) {
            LivePart::Open(part) => {
                let ran = run_open(&mut self.world, alloc, self.json, streaming, part)?;
                self.part = LivePart::Ended(ran.part);
                Ok(ran.lines)
            }
            other => {
                self.part = other;
                answered(alloc, number, Some(Refusal::WrongPhase))
            }
        }
    }

    /// Runs a command, and gives what it prints. Where there is no memory, no further command may be run.
    pub fn run<S: Streaming>(
        &mut self,
        alloc: Global,
        streaming: &S,
        number: u32,
        command: LiveCommand,
    ) -> Result<Lines, NoMemory>
        requires able { S.able streaming.now }
        requires named { LiveNamesColumn command }
        requires known { known self.old }
        ensures known { OnOk result (known self.new) }
        ensures goes { IfOk result (λ lines. RunGoesOn number command self.old self.new lines.bytes) }
    {
        match command {
            LiveCommand::Plain(command) => self.run_plain(alloc, number, &command),
            LiveCommand::Open(site) => self.open(alloc, number, site),
            LiveCommand::Session => self.begin_session(alloc, number),
            LiveCommand::End => self.end(alloc, streaming, number),
        }
    }
}

/// A script with a live part, and what makes the turns of that.
#[derive(Drop)]
pub struct LiveRunner<S: Streaming> {
    script: LiveScript,
    streaming: S,
}

impl<S: Streaming> Model for LiveRunner<S> {
    ghost use Rattle.world_run.specs.LiveParts.{part_refusal, taken};
    ghost use Rattle.world_run.specs.LiveScripts.{LiveState};

    ghost Value = { LiveState };

    ghost view = { λ r. r.script };

    ghost invariant = { λ r. S.able r.streaming };
}

impl<S: Streaming + Drop> LiveRunner<S> {
    /// A runner of which no line was run.
    pub fn make(alloc: Global, json: bool, streaming: S) -> Result<LiveRunner<S>, NoMemory>
        requires { S.able streaming }
        ensures { IfOk result (λ runner. runner ≡ live_start json) }
    {
        let script = LiveScript::make(alloc, json)?;
        Ok(LiveRunner { script, streaming })
    }
}

impl<S: Streaming + Drop> LineRunner for LiveRunner<S> {
    type State = LiveScript;

    type Choices = Items<LiveTurn>;

    ghost state = { λ r. r };

    ghost step = { live_step };

    ghost allowed = { allowed };

    ghost known = { known };

    fn run_line(&mut self, alloc: Global, number: u32, line: &[u8]) -> Result<Lines, LineStop> {
        let command = parse_live(alloc, line)?;
        let lines = self.script.run(alloc, &self.streaming, number, command)?;
        Ok(lines)
    }
}
