//! A push of calls, whole.
ghost use Rattle.std.specs.Prelude.{◌≡◌, ◌++◌, ◌≤◌, None, true, length, is_some, IfOk, OnOk};
ghost use Rattle.net_plan.specs.Directions.{HasDirection};
ghost use Rattle.report_text.specs.Sheet.{most_line};
ghost use Rattle.world_state.specs.Procs.{proc_of};
ghost use Rattle.world_state.specs.CallPushes.{calls_positions, calls_pushed_in, calls_push};
ghost use Rattle.world.specs.Following.{IsBuilt};
ghost use Rattle.world.specs.Calling.{CallsPushInPart};
ghost use Rattle.world.specs.Precheck.{precheck_refusal};
ghost use Rattle.world.specs.Texts.{calls_pushed_text};
ghost use Rattle.world.specs.Doing.{DoesAnywhere};

use crate::applying::{Pushed, apply_and_tell};
use crate::deliver::deliver_all;
use crate::marks::return_mark;
use crate::outbound::{release, send_above};
use rep_lists::NoMemory;
use rep_values::SiteName;
use report_text::Lines;
use script_parse::{Command, ProcLine};
use std::alloc::Global;
use world::{Answer, CommandStop, Outcome, Procs, WorldParts, room_for_line};

/// What is held is released, what isn't acknowledged is sent, and all is taken in. It answers how many positions were sent.
fn send_and_deliver(
    procs: &mut Procs,
    alloc: Global,
    from: &SiteName,
    to: &SiteName,
) -> Result<u64, NoMemory>
    requires { HasDirection procs.old.net from.now to.now }
    ensures ok { OnOk result (procs.new ≡ calls_pushed_in from.now to.now procs.old) }
    ensures sent { IfOk result (λ sent. sent ≡ length (calls_positions from.now to.now procs.old)) }
    ensures part { CallsPushInPart from.now to.now procs.old procs.new }
{
    release(procs, from, to)?;
    let sent = send_above(procs, alloc, from, to)?;
    deliver_all(procs, alloc, from, to)?;
    Ok(sent)
}

/// A push for whose line there is room.
fn push_in_room(
    procs: &mut Procs,
    alloc: Global,
    lines: &mut Lines,
    is_up: bool,
    from: &SiteName,
    to: &SiteName,
) -> Result<(), NoMemory>
    requires room { most_line ≤ lines.old.room }
    requires there { is_some (proc_of to.now procs.old.sites) ≡ true }
    requires linked { HasDirection procs.old.net from.now to.now }
    requires back { HasDirection procs.old.net to.now from.now }
    ensures ok { OnOk result (procs.new ≡ calls_push is_up from.now to.now procs.old) }
    ensures text { OnOk result (lines.new.bytes ≡ lines.old.bytes ++ calls_pushed_text from.now to.now procs.old) }
    ensures part { CallsPushInPart from.now to.now procs.old procs.new }
{
    let sent = send_and_deliver(procs, alloc, from, to)?;
    let pushed = Pushed {
        from: *from,
        to: *to,
        sent,
    };
    apply_and_tell(procs, alloc, lines, pushed)?;
    return_mark(procs, alloc, is_up, to, from)?;
    Ok(())
}

/// A push between sites that are there, with a direction each way.
fn push_linked(
    procs: &mut Procs,
    alloc: Global,
    is_up: bool,
    from: &SiteName,
    to: &SiteName,
) -> Result<Lines, NoMemory>
    requires there { is_some (proc_of to.now procs.old.sites) ≡ true }
    requires linked { HasDirection procs.old.net from.now to.now }
    requires back { HasDirection procs.old.net to.now from.now }
    ensures ok { OnOk result (procs.new ≡ calls_push is_up from.now to.now procs.old) }
    ensures text { IfOk result (λ lines. lines.bytes ≡ calls_pushed_text from.now to.now procs.old) }
    ensures part { CallsPushInPart from.now to.now procs.old procs.new }
{
    // The room for the push's own line comes before anything changes.
    let mut lines = room_for_line(alloc)?;
    push_in_room(procs, alloc, &mut lines, is_up, from, to)?;
    Ok(lines)
}

/// `push-calls`. What is held between the masters goes on the way, what the receiver hasn't acknowledged is sent, and the receiver
/// takes all in, applies it and tells what came of it. Its mark goes back where the link back is up. Where there is no memory,
/// some of this may be done, a packet on the way may be lost, and nothing else.
pub(crate) fn push_calls(
    parts: &mut WorldParts,
    alloc: Global,
    from: &SiteName,
    to: &SiteName,
) -> Result<Answer, CommandStop>
    requires built { IsBuilt parts.old }
    requires passes { precheck_refusal (Command.Procedures (ProcLine.Push from.now to.now)) parts.old ≡ None }
    ensures { DoesAnywhere (Command.Procedures (ProcLine.Push from.now to.now)) parts.old parts.new result }
{
    let is_up = parts.net.is_up(to, from);
    match push_linked(&mut parts.procs, alloc, is_up, from, to) {
        Ok(lines) => Ok(Answer {
            lines,
            outcome: Outcome::Done,
        }),
        Err(NoMemory) => Err(CommandStop::Memory),
    }
}
