//! A push, whole.
ghost use Rattle.std.specs.Prelude.{◌≡◌, ◌++◌, ◌≤◌, None, true, false, length, IfOk, OnOk};
ghost use Rattle.net_plan.specs.Directions.{HasDirection};
ghost use Rattle.report_text.specs.Sheet.{most_line};
ghost use Rattle.script_parse.specs.declared.command.Command.TheVariants as Command;
ghost use Rattle.world_state.specs.World.{is_there};
ghost use Rattle.world_state.specs.Phases.{is_setup};
ghost use Rattle.world_state.specs.Pushes.{positions_above, pushed_in, world_push};
ghost use Rattle.world_state.specs.PushAnswers.{push_count};
ghost use Rattle.world.specs.Following.{PushesInPart, IsBuilt};
ghost use Rattle.world.specs.Precheck.{precheck_refusal};
ghost use Rattle.world.specs.Texts.{pushed_text};
ghost use Rattle.world.specs.Doing.{DoesAnywhere};

use crate::applying::{Pushed, apply_and_tell};
use crate::deliver::deliver_all;
use crate::marks::return_mark;
use crate::send::{release, send_above};
use rep_lists::NoMemory;
use rep_values::SiteName;
use report_text::{Lines, MOST_LINE, PushCount};
use site_rounds::Passing;
use std::alloc::Global;
use world::{Answer, CommandStop, Outcome, WorldParts};

/// What is held is released, what isn't acknowledged is sent, and all is taken in. It answers how many positions were sent.
pub(crate) fn send_and_deliver(
    parts: &mut WorldParts,
    alloc: Global,
    from: &SiteName,
    to: &SiteName,
    count: Option<u64>,
) -> Result<u64, NoMemory>
    requires { HasDirection parts.old.net from.now to.now }
    ensures ok { OnOk result (parts.new ≡ pushed_in from.now to.now count parts.old) }
    ensures sent { IfOk result (λ sent. sent ≡ length (positions_above from.now to.now count parts.old)) }
    ensures part { PushesInPart from.now to.now parts.old parts.new }
{
    release(parts, from, to)?;
    let sent = send_above(parts, alloc, from, to, count)?;
    deliver_all(parts, alloc, from, to)?;
    Ok(sent)
}

/// A push for whose line there is room.
fn push_in_room<P: Passing>(
    parts: &mut WorldParts,
    alloc: Global,
    passing: &P,
    lines: &mut Lines,
    from: &SiteName,
    to: &SiteName,
    count: Option<u64>,
) -> Result<PushCount, NoMemory>
    requires room { most_line ≤ lines.old.room }
    requires able { P.able passing.now }
    requires built { IsBuilt parts.old }
    requires behind { is_setup parts.old.phase ≡ false }
    requires there { is_there parts.old to.now ≡ true }
    requires linked { HasDirection parts.old.net from.now to.now }
    requires back { HasDirection parts.old.net to.now from.now }
    ensures ok { OnOk result (parts.new ≡ world_push from.now to.now count parts.old) }
    ensures text { OnOk result (lines.new.bytes ≡ lines.old.bytes ++ pushed_text from.now to.now count parts.old) }
    ensures told { IfOk result (λ told. told ≡ push_count from.now to.now count parts.old) }
    ensures part { PushesInPart from.now to.now parts.old parts.new }
{
    let sent = send_and_deliver(parts, alloc, from, to, count)?;
    let pushed = Pushed {
        from: *from,
        to: *to,
        sent,
    };
    let told = apply_and_tell(parts, alloc, passing, lines, pushed)?;
    return_mark(parts, alloc, to, from)?;
    Ok(told)
}

/// A push between sites that are there, with a direction each way.
fn push_linked<P: Passing>(
    parts: &mut WorldParts,
    alloc: Global,
    passing: &P,
    from: &SiteName,
    to: &SiteName,
    count: Option<u64>,
) -> Result<Answer, NoMemory>
    requires able { P.able passing.now }
    requires built { IsBuilt parts.old }
    requires behind { is_setup parts.old.phase ≡ false }
    requires there { is_there parts.old to.now ≡ true }
    requires linked { HasDirection parts.old.net from.now to.now }
    requires back { HasDirection parts.old.net to.now from.now }
    ensures ok { OnOk result (parts.new ≡ world_push from.now to.now count parts.old) }
    ensures text { IfOk result (λ answer. answer.lines.bytes ≡ pushed_text from.now to.now count parts.old) }
    ensures outcome { IfOk result (λ answer. answer.outcome ≡ Outcome.Pushed (push_count from.now to.now count parts.old)) }
    ensures part { PushesInPart from.now to.now parts.old parts.new }
{
    // The room for the push's own line comes before anything changes.
    let mut lines = Lines::make(alloc);
    lines.reserve(MOST_LINE)?;
    let told = push_in_room(parts, alloc, passing, &mut lines, from, to, count)?;
    Ok(Answer {
        lines,
        outcome: Outcome::Pushed { count: told },
    })
}

/// Does the line of a push that isn't refused: what is held between the sites goes on the way, what the receiver hasn't
/// acknowledged is sent, at most so many positions where a count is given, and the receiver takes all in, applies it and tells
/// what came of it. Its mark goes back where that direction is up. Whoever makes the receiver's passes, the site is the same.
/// Where there is no memory, some of this may be done, a packet on the way may be lost, and nothing else.
pub fn push<P: Passing>(
    parts: &mut WorldParts,
    alloc: Global,
    passing: &P,
    from: &SiteName,
    to: &SiteName,
    count: Option<u64>,
) -> Result<Answer, CommandStop>
    requires able { P.able passing.now }
    requires built { IsBuilt parts.old }
    requires passes { precheck_refusal (Command.Push from.now to.now count) parts.old ≡ None }
    ensures { DoesAnywhere (Command.Push from.now to.now count) parts.old parts.new result }
{
    match push_linked(parts, alloc, passing, from, to, count) {
        Ok(answer) => Ok(answer),
        Err(NoMemory) => Err(CommandStop::Memory),
    }
}
