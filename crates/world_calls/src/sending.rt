//! Calls that are made and queued for other masters.
ghost use Rattle.std.specs.Prelude.{◌≡◌, ◌≢◌, ◌≤◌, ◌-◌, ◌++◌, None, Some, Ok, slice_get, IfOk, IfErr, OnOk, OnErr};
ghost use Rattle.report_text.specs.Sheet.{Appends, most_line};
ghost use Rattle.proc_state.specs.Calling.{proc_call, proc_call_answer};
ghost use Rattle.proc_state.specs.Events.{AreCalls};
ghost use Rattle.world_state.specs.Blocks.{line_in};
ghost use Rattle.world_state.specs.Procs.{proc_of, at_proc};
ghost use Rattle.world_state.specs.CallBlocks.{masters_named, words_sent, words_number, calls_sent, sent_number, failed_stop, calls_stop, stop_at_proc, send_stop};
ghost use Rattle.world.specs.Precheck.{precheck_refusal};
ghost use Rattle.world.specs.Texts.{calls_sent_text, call_block_text};
ghost use Rattle.world.specs.Doing.{Does, at_line};
ghost use Rattle.world_calls.specs.Sending.{call_stop_of, StopsSend, EndsSend};

use crate::words::{calls_of, words_stop};
use proc_calls::{ProcSite, ProcStop};
use proc_state::ProcCall;
use rep_lists::{Items, NoMemory};
use rep_values::{Refusal, SiteName};
use report_text::{Lines, nothing_sent_line, sent_line};
use script_parse::{CallWords, Command, ProcLine};
use std::alloc::Global;
use world::{Answer, CommandStop, Outcome, Procs, WorldParts, proc_place_of, room_for_line};
use world_state::{CallBlock, CallStop, Refused};

/// Why the calls of a block aren't made.
#[derive(Clone, Copy)]
pub(crate) enum SendStop {
    /// This call is refused.
    At(CallStop),
    /// There is no memory.
    Memory,
}

impl From<NoMemory> for SendStop {
    ghost use Rattle.std.specs.Prelude.{◌≡◌};
    ghost use Rattle.world_calls.specs.declared.sending.SendStop.{SendStop};

    ghost from_gives = { λ _ stop. stop ≡ SendStop.Memory };

    fn from(_: NoMemory) -> SendStop {
        SendStop::Memory
    }
}

/// Why no block is sent.
#[derive(Clone, Copy)]
pub(crate) enum SendEnd {
    /// A call is refused, at this line.
    Refused(Refused),
    /// There is no memory.
    Memory,
}

/// A block that was sent: its site, and the number under which its calls are queued, 0 where there were none.
#[derive(Clone, Copy)]
struct Sent {
    site: SiteName,
    number: u64,
}

/// A call that fails takes a number out of its range.
fn stop_of(stop: ProcStop) -> SendStop
    ensures { result ≡ call_stop_of stop }
{
    match stop {
        ProcStop::Failed { call, .. } => SendStop::At(CallStop {
            call,
            refusal: Refusal::ValueRange,
        }),
        ProcStop::Memory => SendStop::Memory,
    }
}

/// These names.
fn copied(alloc: Global, names: &[SiteName]) -> Result<Items<SiteName>, NoMemory>
    ensures { IfOk result (λ made. made ≡ names.now) }
{
    let mut made = Items::new(alloc);
    for name in names {
        made.push(*name)?;
    }
    Ok(made)
}

/// The masters that are named, or all other ones where none is.
fn masters_named(
    alloc: Global,
    site: &ProcSite,
    to: &[SiteName],
) -> Result<Items<SiteName>, NoMemory>
    ensures { IfOk result (λ names. names ≡ masters_named to.now site.now) }
{
    if to.is_empty() {
        copied(alloc, site.masters())
    } else {
        copied(alloc, to)
    }
}

/// Makes calls at a site, and queues them for other masters. It answers the number under which they are queued.
fn make_calls(
    site: &mut ProcSite,
    alloc: Global,
    calls: &[ProcCall],
    to: &[SiteName],
) -> Result<u64, SendStop>
    requires { AreCalls site.old.schema site.old.procedures calls.now }
    ensures ok { OnOk result (site.new ≡ proc_call calls.now to.now site.old) }
    ensures number { IfOk result (λ number. proc_call_answer calls.now site.old ≡ Ok number) }
    ensures err { IfErr result (StopsSend (failed_stop (proc_call_answer calls.now site.old))) }
    ensures kept { OnErr result (site.new ≡ site.old) }
{
    match site.call(alloc, calls, to) {
        Ok(number) => Ok(number),
        Err(stop) => Err(stop_of(stop)),
    }
}

/// Sends calls from a site; with none nothing happens. It answers the number under which they are queued, 0 where there are none.
fn send_from(
    site: &mut ProcSite,
    alloc: Global,
    calls: &[CallWords],
    to: &[SiteName],
) -> Result<u64, SendStop>
    ensures ok { OnOk result (site.new ≡ words_sent calls.now to.now site.old) }
    ensures passes { OnOk result (calls_stop site.old calls.now ≡ None) }
    ensures number { IfOk result (λ number. number ≡ words_number calls.now (Some site.old)) }
    ensures err { IfErr result (StopsSend (calls_stop site.old calls.now)) }
    ensures kept { OnErr result (site.new ≡ site.old) }
{
    if calls.is_empty() {
        return Ok(0);
    }
    if let Some(stop) = words_stop(site, calls) {
        return Err(SendStop::At(stop));
    }
    let made = calls_of(alloc, site, calls)?;
    let masters = masters_named(alloc, site, to)?;
    make_calls(site, alloc, made.as_slice(), masters.as_slice())
}

/// Sends the calls of a block from its site. Where that isn't there nothing happens.
fn send_block(
    sites: &mut Vec<ProcSite>,
    alloc: Global,
    block: &CallBlock,
    to: &[SiteName],
) -> Result<u64, SendStop>
    ensures ok { OnOk result (sites.new.items ≡ at_proc block.now.site (words_sent block.now.calls to.now) sites.old.items) }
    ensures passes { OnOk result (stop_at_proc block.now.calls (proc_of block.now.site sites.old.items) ≡ None) }
    ensures number { IfOk result (λ number. number ≡ words_number block.now.calls (proc_of block.now.site sites.old.items)) }
    ensures err { IfErr result (StopsSend (stop_at_proc block.now.calls (proc_of block.now.site sites.old.items))) }
    ensures kept { OnErr result (sites.new.items ≡ sites.old.items) }
{
    let Some(place) = proc_place_of(sites, &block.site) else {
        return Ok(0);
    };
    send_from(&mut sites[place], alloc, block.calls.as_slice(), to)
}

/// The line of a call of a block, from 1; the send's where it has none.
fn line_of(block: &CallBlock, line: u32, call: u32) -> u32
    ensures { result ≡ line_in line (slice_get block.now.lines (call - 1)) }
{
    match block.lines.as_slice().get(call.saturating_sub(1) as usize) {
        Some(called) => *called,
        None => line,
    }
}

/// Sends the calls of the open block, and closes it. Where a call is refused, it is closed too.
fn send_open(procs: &mut Procs, alloc: Global, line: u32, to: &[SiteName]) -> Result<Sent, SendEnd>
    requires { procs.old.block ≢ None }
    ensures ok { OnOk result (procs.new ≡ calls_sent to.now procs.old) }
    ensures passes { OnOk result (send_stop procs.old ≡ None) }
    ensures text { IfOk result (λ sent. call_block_text procs.old.block (sent_number procs.old) ≡ calls_sent_text sent.site sent.number) }
    ensures ends { IfErr result (EndsSend line procs.old procs.new) }
{
    let Some(block) = &procs.block else {
        unreachable!()
    };
    let site = block.site;
    match send_block(&mut procs.sites, alloc, block, to) {
        Ok(number) => {
            procs.block = None;
            Ok(Sent { site, number })
        }
        Err(SendStop::At(stop)) => {
            let told = line_of(block, line, stop.call);
            procs.block = None;
            Err(SendEnd::Refused(Refused {
                line: told,
                refusal: stop.refusal,
            }))
        }
        Err(SendStop::Memory) => Err(SendEnd::Memory),
    }
}

/// The number under which calls are queued, or that nothing was sent.
fn put_sent(lines: &mut Lines, sent: Sent)
    requires { most_line ≤ lines.old.room }
    ensures { Appends lines.old lines.new (calls_sent_text sent.site sent.number) }
{
    if sent.number == 0 {
        nothing_sent_line(lines, sent.site);
    } else {
        sent_line(lines, sent.site, sent.number);
    }
}

/// `send`. Where a call is refused, the block is closed too.
pub(crate) fn send(
    parts: &mut WorldParts,
    alloc: Global,
    line: u32,
    to: &Items<SiteName>,
) -> Result<Answer, CommandStop>
    requires passes { precheck_refusal (Command.Procedures (ProcLine.Send to.now)) parts.old ≡ None }
    ensures { Does line (Command.Procedures (ProcLine.Send to.now)) parts.old parts.new (at_line line result) }
{
    let Ok(mut lines) = room_for_line(alloc) else {
        return Err(CommandStop::Memory);
    };
    match send_open(&mut parts.procs, alloc, line, to.as_slice()) {
        Ok(sent) => {
            put_sent(&mut lines, sent);
            Ok(Answer {
                lines,
                outcome: Outcome::Done,
            })
        }
        Err(SendEnd::Refused(refused)) => Err(CommandStop::RefusedAt(refused)),
        Err(SendEnd::Memory) => Err(CommandStop::Memory),
    }
}
