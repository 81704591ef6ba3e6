//! A storm that is being run, command by command.
ghost use Rattle.std.specs.Prelude.{◌≡◌, ◌+◌, ◌*◌, ◌^◌, ◌<◌, ◌≤◌, All, length, None, IfOk, OnOk};
ghost use Rattle.storm_script.specs.Laws.{IsLine, most_rounds};
ghost use Rattle.storm_script.specs.Rounds.{storm_rounds};
ghost use Rattle.storm_script.specs.Storm.{storm_commands};
ghost use Rattle.world.specs.Doing.{Does};
ghost use Rattle.replication_cli.specs.Runs.{storm_beginning, with_command, with_commands};

use crate::tally::Tally;
use page_tables::PageTables;
use parallel_apply::{Workers, beside_workers};
use rep_io::Watch;
use rep_lists::NoMemory;
use rep_values::Refusal;
use script_parse::Command;
use std::alloc::Global;
use std::marker::Model;
use std::sync::Wait;
use std::thread::Threads;
use storm_script::{Draws, closing, opening};
use world::Answer;
use world_run::World;
use world_state::Refused;

// Runs a command in a world beside workers. Where there are none it takes no lock.
fn step<X: Wait, W: Watch>(
    rt: &X,
    alloc: Global,
    workers: &Workers<PageTables>,
    world: &mut World,
    number: u32,
    command: &Command,
    watch: &W,
) -> Result<Answer, Refused>
    requires free { world.old.lent ≡ None }
    requires line { IsLine command.now }
    ensures free { world.new.lent ≡ None }
    ensures does { Does number command.now world.old.world world.new.world result }
{
    if workers.is_empty() {
        return world.step(alloc, number, command);
    }
    world.step_crew(rt, alloc, workers, number, command, watch)
}

/// A world, the number of the command that comes, and what came of those before it, counted. No master of the world is lent out.
#[derive(Drop)]
pub struct Run {
    world: World,
    number: u32,
    tally: Tally,
}

impl Model for Run {
    ghost use Rattle.std.specs.Prelude.{◌≡◌, None};
    ghost use Rattle.replication_cli.specs.Runs.{Running, IsCounted, IsNamedBlock};

    ghost Value = { Running };

    ghost view = { λ r. record { world = r.world.world; number = r.number; tally = r.tally } };

    ghost invariant = { λ r. IsCounted r.number r.tally × (r.world.lent ≡ None) × IsNamedBlock r.world.world.block };
}

impl Run {
    // A world in which nothing is declared.
    fn start(alloc: Global) -> Result<Run, NoMemory>
        ensures { IfOk result (λ run. run ≡ storm_beginning) }
    {
        Ok(Run {
            world: World::make(alloc)?,
            number: 1,
            tally: Tally::none(),
        })
    }

    /// The world behind the commands so far.
    pub fn world(&self) -> &World
        ensures world { result.now.world ≡ self.now.world }
        ensures free { result.now.lent ≡ None }
    {
        &self.world
    }

    /// What came of the commands so far.
    pub fn tally(&self) -> Tally
        ensures { result ≡ self.now.tally }
    {
        self.tally
    }

    // Runs a command, and counts what came of it.
    fn run<X: Wait, W: Watch>(
        &mut self,
        rt: &X,
        alloc: Global,
        workers: &Workers<PageTables>,
        command: &Command,
        watch: &W,
    ) -> Result<(), NoMemory>
        requires line { IsLine command.now }
        requires room { self.old.number + 1 < 2 ^ 32 }
        ensures { OnOk result (self.new ≡ with_command self.old command.now) }
    {
        let number = self.number;
        self.number += 1;
        match step(rt, alloc, workers, &mut self.world, number, command, watch) {
            Ok(answer) => {
                self.tally.add(answer.outcome);
                Ok(())
            }
            Err(refused) => {
                if let Refusal::Memory = refused.refusal {
                    return Err(NoMemory);
                }
                self.tally.refuse();
                Ok(())
            }
        }
    }

    // Runs commands one after another.
    fn run_all<X: Wait, W: Watch>(
        &mut self,
        rt: &X,
        alloc: Global,
        workers: &Workers<PageTables>,
        commands: &[Command],
        watch: &W,
    ) -> Result<(), NoMemory>
        requires lines { All IsLine commands.now }
        requires room { self.old.number + length commands.now < 2 ^ 32 }
        ensures { OnOk result (self.new ≡ with_commands self.old commands.now) }
    {
        for command in commands {
            self.run(rt, alloc, workers, command, watch)?;
        }
        Ok(())
    }

    // Runs so many rounds.
    fn run_rounds<X: Wait, W: Watch>(
        &mut self,
        rt: &X,
        alloc: Global,
        workers: &Workers<PageTables>,
        seed: u64,
        count: u32,
        watch: &W,
    ) -> Result<(), NoMemory>
        requires count { count ≤ most_rounds }
        requires room { self.old.number + 5 * count < 2 ^ 32 }
        ensures { OnOk result (self.new ≡ with_commands self.old (storm_rounds count 1 seed)) }
    {
        let mut draws = Draws { state: seed };
        for before in 0..count {
            let commands = draws.round(alloc, before + 1)?;
            self.run_all(rt, alloc, workers, &commands, watch)?;
        }
        Ok(())
    }

    // Runs all commands of a storm.
    fn storm<X: Wait, W: Watch>(
        &mut self,
        rt: &X,
        alloc: Global,
        workers: &Workers<PageTables>,
        seed: u64,
        count: u32,
        watch: &W,
    ) -> Result<(), NoMemory>
        requires first { self.old.number ≡ 1 }
        requires count { count ≤ most_rounds }
        ensures { OnOk result (self.new ≡ with_commands self.old (storm_commands seed count)) }
    {
        self.run_all(rt, alloc, workers, &opening(alloc)?, watch)?;
        self.run_rounds(rt, alloc, workers, seed, count, watch)?;
        self.run_all(rt, alloc, workers, &closing(alloc)?, watch)
    }
}

// Runs the storm of a seed and a number of rounds beside workers.
fn storm_beside<X: Wait, W: Watch>(
    rt: &X,
    alloc: Global,
    workers: &Workers<PageTables>,
    seed: u64,
    count: u32,
    watch: &W,
) -> Result<Run, NoMemory>
    requires { count ≤ most_rounds }
    ensures { IfOk result (λ run. run ≡ with_commands storm_beginning (storm_commands seed count)) }
{
    let mut run = Run::start(alloc)?;
    run.storm(rt, alloc, workers, seed, count, watch)?;
    Ok(run)
}

/// Runs the storm of a seed and a number of rounds, with so many appliers.
pub fn run_storm<X: Threads + Wait + Sync, W: Watch>(
    rt: &X,
    alloc: Global,
    seed: u64,
    count: u32,
    appliers: u32,
    watch: &W,
) -> Result<Run, NoMemory>
    requires count { count ≤ most_rounds }
    requires appliers { (1 ≤ appliers) × (appliers ≤ 8) }
    ensures { IfOk result (λ run. run ≡ with_commands storm_beginning (storm_commands seed count)) }
{
    let workers = Workers::new(alloc, appliers);
    let shared = &workers;
    let mut run = || -> Result<Run, NoMemory>
        requires { count ≤ most_rounds }
        ensures { IfOk result (λ run. run ≡ with_commands storm_beginning (storm_commands seed count)) }
    { storm_beside(rt, alloc, shared, seed, count, watch) };
    beside_workers(rt, alloc, shared, watch, &mut run)
}
