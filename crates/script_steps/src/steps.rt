//! The world of a script, line by line.
ghost use Rattle.std.specs.Prelude.{◌≡◌, IfOk, OnOk, IfSome};
ghost use Rattle.report_text.specs.Refusals.{is_memory};
ghost use Rattle.rep_schema.specs.Shape.{HasShape};
ghost use Rattle.script_parse.specs.Named.{NamesColumn};
ghost use Rattle.world_state.specs.World.{first_world};
ghost use Rattle.world_state.specs.Steps.{world_step, step_refused};
ghost use Rattle.world.specs.Texts.{line_text};
ghost use Rattle.line_advice.specs.Mistakes.{ReadsLine};
ghost use Rattle.script_steps.specs.Saying.{refused_so, said_at, world_past, prints_at};
ghost use Rattle.script_steps.specs.Coming.{schema_with, renewed, said_of, printed_by, refused_in, text_in};

use crate::Came;
use line_advice::{LineError, read_line};
use rep_declare::add_declaration;
use rep_lists::{Copies, NoMemory};
use rep_schema::Schema;
use rep_values::Refusal;
use report_text::Lines;
use script_parse::{Command, LineParser};
use std::alloc::Global;
use std::marker::Model;
use world_run::World;
use world_state::Refused;

/// The world of the lines so far, and its schema.
#[derive(Drop)]
pub struct Steps {
    world: World,
    schema: Schema,
    parser: LineParser,
}

impl Model for Steps {
    ghost use Rattle.std.specs.Prelude.{◌≡◌, None};
    ghost use Rattle.rep_schema.specs.Shape.{HasShape};
    ghost use Rattle.world_state.specs.World.{WorldState};

    ghost Value = { WorldState };

    ghost view = { λ s. s.world.world };

    ghost invariant = { λ s. (s.world.lent ≡ None) × HasShape s.schema × (s.schema ≡ s.world.world.schema) };
}

/// Whether it was for want of memory.
fn is_memory(refusal: &Refusal) -> bool
    ensures { result ≡ is_memory refusal.now }
{
    if let Refusal::Memory = refusal {
        return true;
    }
    false
}

/// The schema with what a command declares; None where it declares nothing, or the schema refuses it.
fn schema_with(
    alloc: Global,
    schema: &Schema,
    command: &Command,
) -> Result<Option<Schema>, NoMemory>
    requires shape { HasShape schema.now }
    requires named { NamesColumn command.now }
    ensures value { IfOk result (λ next. next ≡ schema_with command.now schema.now) }
    ensures shape { IfOk result (λ next. IfSome next HasShape) }
{
    let Command::Declare(declaration) = command else {
        return Ok(None);
    };
    let mut next = schema.copy(alloc)?;
    match add_declaration(&mut next, alloc, declaration) {
        Ok(()) => Ok(Some(next)),
        Err(refusal) => {
            if is_memory(&refusal) {
                return Err(NoMemory);
            }
            Ok(None)
        }
    }
}

/// Puts another schema in the place of this one, if there is one.
fn renew(schema: &mut Schema, next: Option<Schema>)
    requires shape { HasShape schema.old }
    requires next { IfSome next HasShape }
    ensures value { schema.new ≡ renewed next schema.old }
    ensures shape { HasShape schema.new }
{
    if let Some(next) = next {
        *schema = next;
    }
}

impl Steps {
    /// No line yet.
    pub fn make(alloc: Global) -> Result<Steps, NoMemory>
        ensures { IfOk result (λ steps. steps ≡ first_world) }
    {
        Ok(Steps {
            world: World::make(alloc)?,
            schema: Schema::empty(alloc),
            parser: LineParser::new(alloc),
        })
    }

    /// The world behind the lines so far.
    pub fn world(&self) -> &World
        ensures { result.now.world ≡ self.now }
    {
        &self.world
    }

    /// What is declared.
    pub fn schema(&self) -> &Schema
        ensures { result.now ≡ self.now.schema }
    {
        &self.schema
    }

    /// Runs the command of a line, and answers what it prints, or why it is refused.
    #[tactic(auto, using(crate::proofs::Schemas::step_facts))]
    fn run(
        &mut self,
        alloc: Global,
        number: u32,
        command: &Command,
    ) -> Result<Result<Lines, Refused>, NoMemory>
        requires { NamesColumn command.now }
        ensures world { OnOk result (self.new ≡ world_step number command.now self.old) }
        ensures told { IfOk result (λ ran. refused_in ran ≡ step_refused number command.now self.old) }
        ensures text { IfOk result (λ ran. text_in ran ≡ line_text number command.now self.old) }
    {
        let next = schema_with(alloc, &self.schema, command)?;
        match self.world.step(alloc, number, command) {
            Ok(answer) => {
                renew(&mut self.schema, next);
                Ok(Ok(answer.lines))
            }
            Err(refused) => {
                if is_memory(&refused.refusal) {
                    return Err(NoMemory);
                }
                Ok(Err(refused))
            }
        }
    }

    /// The command that a line is, or what is wrong with it.
    pub fn read(&mut self, alloc: Global, line: &[u8]) -> Result<Command, LineError>
        ensures read { ReadsLine line.now result }
        ensures named { IfOk result NamesColumn }
        ensures kept { self.new ≡ self.old }
    {
        read_line(alloc, &mut self.parser, line)
    }

    /// What comes of the command of the line of a number, which is the next one. Where there is no memory, no further line may be taken.
    pub fn take_command(
        &mut self,
        alloc: Global,
        number: u32,
        command: Command,
    ) -> Result<Came, NoMemory>
        requires { NamesColumn command }
        ensures world { OnOk result (self.new ≡ world_step number command self.old) }
        ensures said { IfOk result (λ came. said_of number came ≡ refused_so (step_refused number command self.old)) }
        ensures prints { IfOk result (λ came. printed_by number came ≡ line_text number command self.old) }
    {
        Ok(match self.run(alloc, number, &command)? {
            Ok(lines) => Came::Done(command, lines),
            Err(refused) => Came::Refused(command, refused),
        })
    }

    /// What comes of the line of a number, which is the next one. Where there is no memory, no further line may be taken.
    #[tactic(auto, using(crate::proofs::Worlds::past_facts))]
    pub fn take(&mut self, alloc: Global, number: u32, line: &[u8]) -> Result<Came, NoMemory>
        ensures world { OnOk result (self.new ≡ world_past self.old number line.now) }
        ensures said { IfOk result (λ came. said_of number came ≡ said_at self.old number line.now) }
        ensures prints { IfOk result (λ came. printed_by number came ≡ prints_at self.old number line.now) }
    {
        match self.read(alloc, line) {
            Ok(command) => self.take_command(alloc, number, command),
            Err(LineError::Mistake(mistake)) => Ok(Came::Malformed(mistake)),
            Err(LineError::Memory) => Err(NoMemory),
        }
    }
}
