//! Lines about procedures.
ghost use Rattle.std.specs.Prelude.{◌≡◌, None};
ghost use Rattle.script_parse.specs.declared.command.Command.TheVariants as Command;
ghost use Rattle.world.specs.Following.{IsBuilt};
ghost use Rattle.world.specs.Precheck.{precheck_refusal};
ghost use Rattle.world.specs.Doing.{Does, at_line};

use crate::blocks::{add_call, open_calls};
use crate::declaring::{add_proc_table, add_procedure};
use crate::errors::execute_calls;
use crate::fates::add_call_fates;
use crate::pushing::push_calls;
use crate::sending::send;
use report_text::Lines;
use script_parse::ProcLine;
use std::alloc::Global;
use world::{Answer, CommandStop, WorldParts};

/// Does a line about procedures that meets no refusal known before. What it prints is answered, or why it is refused; for want of
/// memory a push of calls may be done in part, and every other line leaves all as it was.
pub fn run_proc_line(
    parts: &mut WorldParts,
    alloc: Global,
    line: u32,
    asked: &ProcLine,
) -> Result<Answer, CommandStop>
    requires built { IsBuilt parts.old }
    requires passes { precheck_refusal (Command.Procedures asked.now) parts.old ≡ None }
    ensures { Does line (Command.Procedures asked.now) parts.old parts.new (at_line line result) }
{
    match asked {
        ProcLine::Table { table, columns } => add_proc_table(parts, alloc, table, columns),
        ProcLine::Procedure {
            procedure,
            table,
            action,
        } => add_procedure(parts, alloc, procedure, table, action),
        ProcLine::Calls { site } => open_calls(parts, alloc, site),
        ProcLine::Call(call) => add_call(parts, alloc, line, call),
        ProcLine::Send { to } => send(parts, alloc, line, to),
        ProcLine::Push { from, to } => push_calls(parts, alloc, from, to),
        ProcLine::Fates { from, to, fates } => add_call_fates(parts, alloc, from, to, fates),
        ProcLine::Execute {
            site,
            origin,
            position,
        } => execute_calls(parts, alloc, site, origin, *position),
    }
}
