//! Each line of a script by its command.
ghost use Rattle.std.specs.Prelude.{◌≡◌, None};
ghost use Rattle.script_parse.specs.Named.{NamesColumn};
ghost use Rattle.world.specs.Following.{IsBuilt};
ghost use Rattle.world.specs.Precheck.{precheck_refusal};
ghost use Rattle.world.specs.Doing.{Does, at_line, AnswersPrecheck};

use script_parse::Command;
use site_rounds::Passing;
use std::alloc::Global;
use world::{Answer, CommandStop, WorldParts};
use world_calls::run_proc_line;
use world_commands::{
    abandon, add_fates, add_row, add_snapshot, add_statement, clear_fates, commit, declare,
    drop_error, execute, join, open_block, purge, purge_log, refresh, resume, set_clock, set_link,
    show, suspend,
};
use world_push::push;
use world_state::Refused;

/// Runs a line that meets no refusal that is known before it is tried. Passes are made as it is told.
pub fn run_line<P: Passing>(
    parts: &mut WorldParts,
    alloc: Global,
    passing: &P,
    line: u32,
    command: &Command,
) -> Result<Answer, CommandStop>
    requires able { P.able passing.now }
    requires built { IsBuilt parts.old }
    requires named { NamesColumn command.now }
    requires passes { precheck_refusal command.now parts.old ≡ None }
    ensures { Does line command.now parts.old parts.new (at_line line result) }
{
    match command {
        Command::Nothing => Ok(Answer::nothing(alloc)),
        Command::Declare(declaration) => declare(parts, alloc, declaration),
        Command::Row { table, values } => add_row(parts, alloc, table, values),
        Command::Resume => resume(parts, alloc),
        Command::Statement(statement) => add_statement(parts, alloc, line, statement),
        Command::Txn { site } => open_block(parts, alloc, site),
        Command::Commit => commit(parts, alloc, line),
        Command::Abandon => abandon(parts, alloc),
        Command::Push { from, to, count } => push(parts, alloc, passing, from, to, *count),
        Command::Fates { from, to, fates } => add_fates(parts, alloc, from, to, fates),
        Command::ClearFates { from, to } => clear_fates(parts, alloc, from, to),
        Command::Link { from, to, link } => set_link(parts, alloc, from, to, *link),
        Command::Clock { site, time } => set_clock(parts, alloc, site, *time),
        Command::Purge { site } => purge(parts, alloc, site),
        Command::Execute {
            site,
            origin,
            position,
        } => execute(parts, alloc, site, origin, *position),
        Command::DropError {
            site,
            origin,
            position,
        } => drop_error(parts, alloc, site, origin, *position),
        Command::Snapshot {
            site,
            table,
            parent,
            tests,
        } => add_snapshot(parts, alloc, site, table, parent, tests),
        Command::Refresh { site, how } => refresh(parts, alloc, site, *how),
        Command::PurgeLog { master, table } => purge_log(parts, alloc, master, table),
        Command::Suspend => suspend(parts, alloc),
        Command::Show { what, site } => show(parts, alloc, *what, site),
        Command::Join { site, source } => join(parts, alloc, site, source),
        Command::Procedures(asked) => run_proc_line(parts, alloc, line, asked),
    }
}

/// Runs a line, or leaves what a refused one leaves, where a refusal is known before it is tried. Here what is told of it gets its
/// line.
pub fn run_or_refuse<P: Passing>(
    parts: &mut WorldParts,
    alloc: Global,
    passing: &P,
    line: u32,
    command: &Command,
) -> Result<Answer, Refused>
    requires able { P.able passing.now }
    requires built { IsBuilt parts.old }
    requires named { NamesColumn command.now }
    ensures does { Does line command.now parts.old parts.new result }
    ensures known { AnswersPrecheck line command.now parts.old result }
{
    if let Some(refusal) = parts.refusal(command) {
        parts.refuse(command);
        return Err(Refused { line, refusal });
    }
    match run_line(parts, alloc, passing, line, command) {
        Ok(answer) => Ok(answer),
        Err(stop) => Err(stop.told_at(line)),
    }
}
