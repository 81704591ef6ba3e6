//! The call that runs a script with a live part.
ghost use Rattle.std.specs.Prelude.{◌≡◌, ◌≢◌, ◌≤◌, length};
ghost use Rattle.rep_io.specs.Faults.{Rose};
ghost use Rattle.world_run.specs.LiveParts.{most_sessions};
ghost use Rattle.world_run.specs.LiveScripts.{ReportsFully, RunsFully, LiveRunsToItsEnd};
ghost use Rattle.world_run.specs.LiveLaws.{EachLiveLineHolds};
ghost use Rattle.world_run.specs.Streaming.{AnswersStreams};

use crate::live_script::LiveRunner;
use crate::part_laws::live_worlds_hold;
use crate::streaming::{Streaming, Streams, streamed};
use live_laws::{LiveTurn, Session};
use page_tables::PageTables;
use rep_io::{Sink, Source, Watch};
use rep_lists::{Items, NoMemory};
use rep_values::SiteName;
use script_drive::{AtEnd, Reader, Status, Straight, drive};
use site_engine::Site;
use std::alloc::Global;
use std::sync::Wait;
use std::thread::Threads;

/// Runs a script with a live part, whoever makes the turns and whoever reads it.
fn run_by<T: Streaming + Drop, S, K: Sink, R: Reader<S, K>>(
    alloc: Global,
    json: bool,
    streaming: T,
    at_end: AtEnd,
    reader: &mut R,
    source: &mut S,
    sink: &mut K,
) -> Status
    requires { T.able streaming }
    ensures told { RunsFully json result (R.left source.old) (R.left source.new) (K.taken sink.old) (K.taken sink.new) (R.reads reader.old) (R.reads reader.new) }
    ensures read { result ≡ Status.ReadFault → Rose (R.faults source.old) (R.faults source.new) }
    ensures write { result ≡ Status.WriteFault → Rose (K.faults sink.old) (K.faults sink.new) }
    ensures ran { result ≢ Status.Usage }
    ensures complete { LiveRunsToItsEnd json (R.left source.old) (K.taken sink.old) (R.faults source.old) (R.faults source.new) (K.faults sink.old) (K.faults sink.new) result }
    ensures worlds { EachLiveLineHolds (R.left source.old) }
{
    live_worlds_hold();
    let Ok(runner) = LiveRunner::make(alloc, json, streaming) else {
        return Status::Memory;
    };
    drive(alloc, runner, at_end, reader, source, sink)
}

/// Runs a script that may have a live part, as `run_live` does, through any reader. Whenever more of the script is asked for, all
/// that the whole lines read by then print was written, none of them is malformed, and no read had failed, where the reader tells
/// its reads. The memory of the world stays taken at the end where the caller asks for that.
pub fn run_live_through<X: Threads + Wait + Sync, S, K: Sink, R: Reader<S, K>, W: Watch>(
    rt: &X,
    alloc: Global,
    json: bool,
    at_end: AtEnd,
    reader: &mut R,
    source: &mut S,
    sink: &mut K,
    watch: &W,
) -> Status
    ensures told { RunsFully json result (R.left source.old) (R.left source.new) (K.taken sink.old) (K.taken sink.new) (R.reads reader.old) (R.reads reader.new) }
    ensures read { result ≡ Status.ReadFault → Rose (R.faults source.old) (R.faults source.new) }
    ensures write { result ≡ Status.WriteFault → Rose (K.faults sink.old) (K.faults sink.new) }
    ensures ran { result ≢ Status.Usage }
    ensures complete { LiveRunsToItsEnd json (R.left source.old) (K.taken sink.old) (R.faults source.old) (R.faults source.new) (K.faults sink.old) (K.faults sink.new) result }
    ensures worlds { EachLiveLineHolds (R.left source.old) }
{
    let run = |alloc: Global, site: Site<PageTables>, origins: Items<SiteName>, sessions: Items<
        Session,
    >| -> Result<(Site<PageTables>, Items<LiveTurn>), NoMemory>
        requires { length sessions ≤ most_sessions }
        ensures { AnswersStreams origins sessions site result }
    { streamed(rt, alloc, site, origins.as_slice(), sessions, watch) };
    run_by(alloc, json, Streams { run }, at_end, reader, source, sink)
}

/// Runs a script that may have a live part: from a line `live` to a line `end` sessions are stated, and at `end` these commit their
/// blocks at a master while what the other masters sent is applied there, by one thread for each session and each origin. The turns
/// that they take are printed in their order, as lines or as one line of JSON. It may wait for a lock, and promises its result if it
/// returns.
///
/// What is written is the report of the script by a full list of turns: it commits each block of each session once, those of a
/// session in their order, and leaves nothing ready of the other masters.
/// `Done`: the script was read to its end, no line is malformed, and the whole report was written. `Malformed`: a
/// line is malformed, the report up to it and with it was written, and nothing was read behind the piece that shows it.
/// `ReadFault`, `WriteFault`, `Memory`: a front of the report was written; after a read fault it is the report of all whole
/// lines read, of which none is malformed. The laws of worlds hold behind each line, whatever the turns are.
pub fn run_live<X: Threads + Wait + Sync, S: Source, K: Sink, W: Watch>(
    rt: &X,
    alloc: Global,
    json: bool,
    source: &mut S,
    sink: &mut K,
    watch: &W,
) -> Status
    ensures told { ReportsFully json result (S.left source.old) (S.left source.new) (K.taken sink.old) (K.taken sink.new) }
    ensures read { result ≡ Status.ReadFault → Rose (S.faults source.old) (S.faults source.new) }
    ensures write { result ≡ Status.WriteFault → Rose (K.faults sink.old) (K.faults sink.new) }
    ensures ran { result ≢ Status.Usage }
    ensures complete { LiveRunsToItsEnd json (S.left source.old) (K.taken sink.old) (S.faults source.old) (S.faults source.new) (K.faults sink.old) (K.faults sink.new) result }
    ensures worlds { EachLiveLineHolds (S.left source.old) }
{
    let at_end = AtEnd::GiveBack;
    run_live_through(rt, alloc, json, at_end, &mut Straight, source, sink, watch)
}
