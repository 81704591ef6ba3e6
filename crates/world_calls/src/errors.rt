//! Errors of calls that are executed again.
ghost use Rattle.std.specs.Prelude.{◌≡◌, ◌⊎◌, None, Some, IfErr, OnOk, OnErr};
ghost use Rattle.rep_values.specs.declared.refusal.Refusal.TheVariants as refusal;
ghost use Rattle.proc_state.specs.Errors.{proc_execute};
ghost use Rattle.world_state.specs.Procs.{proc_of, at_proc};
ghost use Rattle.world.specs.Precheck.{precheck_refusal};
ghost use Rattle.world.specs.Doing.{DoesAnywhere};
ghost use Rattle.world_calls.specs.Sending.{execute_stop};

use rep_values::{Refusal, SiteName};
use report_text::execute_calls_line;
use script_parse::{Command, ProcLine};
use std::alloc::Global;
use world::{Answer, CommandStop, Outcome, Procs, WorldParts, proc_place_of, room_for_line};

/// Executes an error at a site again. Where the site isn't there nothing happens.
fn execute_at(
    procs: &mut Procs,
    alloc: Global,
    site: &SiteName,
    origin: &SiteName,
    position: u64,
) -> Result<(), Refusal>
    ensures ok { OnOk result (procs.new ≡ record procs.old { sites = at_proc site.now (proc_execute origin.now position) procs.old.sites }) }
    ensures executes { OnOk result (execute_stop origin.now position (proc_of site.now procs.old.sites) ≡ None) }
    ensures err { IfErr result (λ why. (why ≡ refusal.Memory) ⊎ (execute_stop origin.now position (proc_of site.now procs.old.sites) ≡ Some why)) }
    ensures kept { OnErr result (procs.new ≡ procs.old) }
{
    let Some(place) = proc_place_of(&procs.sites, site) else {
        return Ok(());
    };
    procs.sites[place].execute_error(alloc, origin, position)
}

/// `execute-calls`
pub(crate) fn execute_calls(
    parts: &mut WorldParts,
    alloc: Global,
    site: &SiteName,
    origin: &SiteName,
    position: u64,
) -> Result<Answer, CommandStop>
    requires { precheck_refusal (Command.Procedures (ProcLine.Execute site.now origin.now position)) parts.old ≡ None }
    ensures { DoesAnywhere (Command.Procedures (ProcLine.Execute site.now origin.now position)) parts.old parts.new result }
{
    let Ok(mut lines) = room_for_line(alloc) else {
        return Err(CommandStop::Memory);
    };
    match execute_at(&mut parts.procs, alloc, site, origin, position) {
        Ok(()) => {
            execute_calls_line(&mut lines, *site, *origin, position);
            Ok(Answer {
                lines,
                outcome: Outcome::Done,
            })
        }
        Err(refusal) => Err(CommandStop::Refused(refusal)),
    }
}
