//! The fates of packets that carry calls.
ghost use Rattle.std.specs.Prelude.{◌≡◌, None, OnOk, OnErr};
ghost use Rattle.net_plan.specs.Directions.{HasDirection, at_direction, with_fates};
ghost use Rattle.world.specs.Following.{IsBuilt};
ghost use Rattle.world.specs.Precheck.{precheck_refusal};
ghost use Rattle.world.specs.Doing.{DoesAnywhere};

use net_plan::Fate;
use rep_lists::{Items, NoMemory};
use rep_values::SiteName;
use script_parse::{Command, ProcLine};
use std::alloc::Global;
use world::{Answer, CommandStop, Procs, WorldParts};

/// These fates come behind those that are left between two sites.
fn put_fates(
    procs: &mut Procs,
    from: &SiteName,
    to: &SiteName,
    fates: &[Fate],
) -> Result<(), NoMemory>
    requires { HasDirection procs.old.net from.now to.now }
    ensures ok { OnOk result (procs.new ≡ record procs.old { net = at_direction from.now to.now (with_fates fates.now) procs.old.net }) }
    ensures err { OnErr result (procs.new ≡ procs.old) }
{
    procs.net.add_fates(from, to, fates)?;
    Ok(())
}

/// `fate-calls`
pub(crate) fn add_call_fates(
    parts: &mut WorldParts,
    alloc: Global,
    from: &SiteName,
    to: &SiteName,
    fates: &Items<Fate>,
) -> Result<Answer, CommandStop>
    requires built { IsBuilt parts.old }
    requires passes { precheck_refusal (Command.Procedures (ProcLine.Fates from.now to.now fates.now)) parts.old ≡ None }
    ensures { DoesAnywhere (Command.Procedures (ProcLine.Fates from.now to.now fates.now)) parts.old parts.new result }
{
    let Ok(()) = put_fates(&mut parts.procs, from, to, fates.as_slice()) else {
        return Err(CommandStop::Memory);
    };
    Ok(Answer::nothing(alloc))
}
