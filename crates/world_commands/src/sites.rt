//! One site: its clock, its queue and its errors.
ghost use Rattle.std.specs.Prelude.{◌≡◌, None};
ghost use Rattle.world.specs.Precheck.{precheck_refusal};
ghost use Rattle.world.specs.Doing.{DoesAnywhere};

use rep_values::SiteName;
use report_text::{drop_error_line, execute_line, purge_line};
use script_parse::Command;
use std::alloc::Global;
use world::{Answer, CommandStop, Outcome, WorldParts, place_of, room_for_line};

/// `clock`
pub fn set_clock(
    parts: &mut WorldParts,
    alloc: Global,
    site: &SiteName,
    time: u64,
) -> Result<Answer, CommandStop>
    requires passes { precheck_refusal (Command.Clock site.now time) parts.old ≡ None }
    ensures { DoesAnywhere (Command.Clock site.now time) parts.old parts.new result }
{
    let Some(place) = place_of(&parts.sites, site) else {
        unreachable!()
    };
    parts.sites[place].set_clock(time);
    Ok(Answer::nothing(alloc))
}

/// `purge`
pub fn purge(parts: &mut WorldParts, alloc: Global, site: &SiteName) -> Result<Answer, CommandStop>
    requires passes { precheck_refusal (Command.Purge site.now) parts.old ≡ None }
    ensures { DoesAnywhere (Command.Purge site.now) parts.old parts.new result }
{
    let Ok(mut lines) = room_for_line(alloc) else {
        return Err(CommandStop::Memory);
    };
    let Some(place) = place_of(&parts.sites, site) else {
        unreachable!()
    };
    let count = parts.sites[place].purge();
    purge_line(&mut lines, *site, count);
    Ok(Answer {
        lines,
        outcome: Outcome::Done,
    })
}

/// `execute`
pub fn execute(
    parts: &mut WorldParts,
    alloc: Global,
    site: &SiteName,
    origin: &SiteName,
    position: u64,
) -> Result<Answer, CommandStop>
    requires passes { precheck_refusal (Command.Execute site.now origin.now position) parts.old ≡ None }
    ensures { DoesAnywhere (Command.Execute site.now origin.now position) parts.old parts.new result }
{
    let Ok(mut lines) = room_for_line(alloc) else {
        return Err(CommandStop::Memory);
    };
    let Some(place) = place_of(&parts.sites, site) else {
        unreachable!()
    };
    // No machine gets so far.
    if parts.sites[place].moment() == u64::MAX {
        return Err(CommandStop::Memory);
    }
    match parts.sites[place].execute_error(alloc, origin, position) {
        Ok(()) => {
            execute_line(&mut lines, *site, *origin, position);
            Ok(Answer {
                lines,
                outcome: Outcome::Done,
            })
        }
        Err(refusal) => Err(CommandStop::Refused(refusal)),
    }
}

/// `drop-error`
pub fn drop_error(
    parts: &mut WorldParts,
    alloc: Global,
    site: &SiteName,
    origin: &SiteName,
    position: u64,
) -> Result<Answer, CommandStop>
    requires passes { precheck_refusal (Command.DropError site.now origin.now position) parts.old ≡ None }
    ensures { DoesAnywhere (Command.DropError site.now origin.now position) parts.old parts.new result }
{
    let Ok(mut lines) = room_for_line(alloc) else {
        return Err(CommandStop::Memory);
    };
    let Some(place) = place_of(&parts.sites, site) else {
        unreachable!()
    };
    // No machine gets so far.
    if parts.sites[place].moment() == u64::MAX {
        return Err(CommandStop::Memory);
    }
    match parts.sites[place].delete_error(origin, position) {
        Ok(()) => {
            drop_error_line(&mut lines, *site, *origin, position);
            Ok(Answer {
                lines,
                outcome: Outcome::Done,
            })
        }
        Err(refusal) => Err(CommandStop::Refused(refusal)),
    }
}
