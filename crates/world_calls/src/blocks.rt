//! Blocks of calls.
ghost use Rattle.std.specs.Prelude.{◌≡◌, None, OnOk, OnErr};
ghost use Rattle.world_state.specs.CallBlocks.{calls_opened, called_more, with_call};
ghost use Rattle.world.specs.Precheck.{precheck_refusal};
ghost use Rattle.world.specs.Doing.{Does, at_line, DoesAnywhere};

use rep_lists::{Copies, Items, NoMemory};
use rep_values::SiteName;
use script_parse::{CallWords, Command, ProcLine};
use std::alloc::Global;
use world::{Answer, CommandStop, Procs, WorldParts, drop_last};
use world_state::CallBlock;

/// So many calls, and one more, are kept.
const MOST_CALLS: usize = 1_000;

/// Opens a block of calls at a site.
fn open(procs: &mut Procs, alloc: Global, site: &SiteName)
    ensures { procs.new ≡ calls_opened site.now procs.old }
{
    procs.block = Some(CallBlock {
        site: *site,
        lines: Items::new(alloc),
        calls: Items::new(alloc),
    });
}

/// `calls`
pub(crate) fn open_calls(
    parts: &mut WorldParts,
    alloc: Global,
    site: &SiteName,
) -> Result<Answer, CommandStop>
    requires { precheck_refusal (Command.Procedures (ProcLine.Calls site.now)) parts.old ≡ None }
    ensures { DoesAnywhere (Command.Procedures (ProcLine.Calls site.now)) parts.old parts.new result }
{
    open(&mut parts.procs, alloc, site);
    Ok(Answer::nothing(alloc))
}

/// Keeps a call and its line, or neither where there is no memory.
fn keep_call(
    block: &mut CallBlock,
    alloc: Global,
    line: u32,
    call: &CallWords,
) -> Result<(), NoMemory>
    ensures ok { OnOk result (block.new ≡ called_more line call.now block.old) }
    ensures kept { OnErr result (block.new ≡ block.old) }
{
    if block.calls.len() > MOST_CALLS {
        return Ok(());
    }
    let copied = call.copy(alloc)?;
    block.lines.push(line)?;
    let Ok(()) = block.calls.push(copied) else {
        drop_last(&mut block.lines, alloc);
        return Err(NoMemory);
    };
    Ok(())
}

/// Keeps a call in the open block, where there is one.
fn put_call(procs: &mut Procs, alloc: Global, line: u32, call: &CallWords) -> Result<(), NoMemory>
    ensures ok { OnOk result (procs.new ≡ with_call line call.now procs.old) }
    ensures kept { OnErr result (procs.new ≡ procs.old) }
{
    let Some(block) = &mut procs.block else {
        return Ok(());
    };
    keep_call(block, alloc, line, call)?;
    Ok(())
}

/// `call`. One behind the first that is too many isn't kept.
pub(crate) fn add_call(
    parts: &mut WorldParts,
    alloc: Global,
    line: u32,
    call: &CallWords,
) -> Result<Answer, CommandStop>
    requires { precheck_refusal (Command.Procedures (ProcLine.Call call.now)) parts.old ≡ None }
    ensures { Does line (Command.Procedures (ProcLine.Call call.now)) parts.old parts.new (at_line line result) }
{
    let Ok(()) = put_call(&mut parts.procs, alloc, line, call) else {
        return Err(CommandStop::Memory);
    };
    Ok(Answer::nothing(alloc))
}
