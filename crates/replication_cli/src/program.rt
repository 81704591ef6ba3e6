//! What the program does with the words of its command line.
ghost use Rattle.std.specs.Prelude.{◌≡◌, ◌≢◌, ◌↔◌, ℕ, Bool, None, Some};
ghost use Rattle.rep_io.specs.Faults.{Rose};
ghost use Rattle.script_drive.specs.Told.{Tells};
ghost use Rattle.world_state.specs.World.{first_world};
ghost use Rattle.script_drive.specs.LineBytes.{line_step};
ghost use Rattle.script_drive.specs.Outcome.{Told};
ghost use Rattle.script_drive.specs.Prompt.{ReadsPromptly};
ghost use Rattle.world_run.specs.Completeness.{RunsToItsEnd};
ghost use Rattle.world_run.specs.Scripts.{script_step, EachLineHolds};
ghost use Rattle.world_run.specs.LiveScripts.{ReportsFully, RunsFully, LiveRunsToItsEnd};
ghost use Rattle.world_run.specs.LiveLaws.{EachLiveLineHolds};
ghost use Rattle.replication_cli.specs.Outcome.{TellsOf, StormEnds};
ghost use Rattle.replication_cli.specs.Summary.{storm_summary};
ghost use Rattle.command_line.specs.Words.{asked_by};

use crate::whole::storm;
use command_line::{Asked, asked_by};
use rep_io::{Sink, Source, Watch};
use script_drive::{AtEnd, Reader, Status, Straight};
use std::alloc::Global;
use std::sync::Wait;
use std::thread::Threads;
use world_run::{
    live_worlds_hold, reported_worlds_hold, run_alone_through, run_crew_through, run_live_through,
    scripts_have_full_turns,
};

/// What the program does with the words behind its name. For `run` it runs the script of the source, as `run_alone` does, or with
/// more appliers than one as `run_crew` does: the report is the same. For `live` it runs the script as `run_live` does, whose report
/// is one by turns that it prints. For `storm SEED COUNT` it runs the script of that storm and writes its summary; it reads nothing.
/// For all other words it answers `Usage`, and reads and writes nothing. With more appliers than one, and in a live part, it may
/// wait for a lock. The memory of the world stays taken at the end, since the process ends then.
pub fn run_program<X: Threads + Wait + Sync, S: Source, K: Sink, W: Watch>(
    rt: &X,
    alloc: Global,
    words: &[&str],
    source: &mut S,
    sink: &mut K,
    watch: &W,
) -> Status
    ensures usage { (result ≡ Status.Usage) ↔ (asked_by words.now ≡ None) }
    ensures unread { ((appliers : ℕ) → asked_by words.now ≢ Some (Asked.Run appliers)) → ((json : Bool) → asked_by words.now ≢ Some (Asked.Live json)) → source.new ≡ source.old }
    ensures unwritten { result ≡ Status.Usage → sink.new ≡ sink.old }
    ensures told { (appliers : ℕ) → asked_by words.now ≡ Some (Asked.Run appliers) → Tells (Told (line_step script_step) first_world result)
        (S.left source.old) (S.left source.new) (K.taken sink.old) (K.taken sink.new) }
    ensures stormed { (seed count appliers : ℕ) → asked_by words.now ≡ Some (Asked.Storm seed count appliers)
        → TellsOf result (storm_summary seed count) (K.taken sink.old) (K.taken sink.new) }
    ensures ends { (seed count appliers : ℕ) → asked_by words.now ≡ Some (Asked.Storm seed count appliers) → StormEnds result }
    ensures read { result ≡ Status.ReadFault → Rose (S.faults source.old) (S.faults source.new) }
    ensures write { result ≡ Status.WriteFault → Rose (K.faults sink.old) (K.faults sink.new) }
    ensures worlds { (appliers : ℕ) → asked_by words.now ≡ Some (Asked.Run appliers) → EachLineHolds (S.left source.old) }
    ensures complete { (appliers : ℕ) → asked_by words.now ≡ Some (Asked.Run appliers) → RunsToItsEnd (S.left source.old) (K.taken sink.old) (S.faults source.old) (S.faults source.new) (K.faults sink.old) (K.faults sink.new) result }
    ensures live { (json : Bool) → asked_by words.now ≡ Some (Asked.Live json) → ReportsFully json result (S.left source.old) (S.left source.new) (K.taken sink.old) (K.taken sink.new) }
    ensures live_worlds { (json : Bool) → asked_by words.now ≡ Some (Asked.Live json) → EachLiveLineHolds (S.left source.old) }
    ensures live_complete { (json : Bool) → asked_by words.now ≡ Some (Asked.Live json) → LiveRunsToItsEnd json (S.left source.old) (K.taken sink.old) (S.faults source.old) (S.faults source.new) (K.faults sink.old) (K.faults sink.new) result }
{
    run_program_through(rt, alloc, words, &mut Straight, source, sink, watch)
}

/// Does as `run_program` does, and reads through any reader. Whenever more of a script is asked for, all that the whole lines read
/// by then print was written, none of them is malformed, and no read had failed, where the reader tells its reads.
pub fn run_program_through<X: Threads + Wait + Sync, S, K: Sink, R: Reader<S, K>, W: Watch>(
    rt: &X,
    alloc: Global,
    words: &[&str],
    reader: &mut R,
    source: &mut S,
    sink: &mut K,
    watch: &W,
) -> Status
    ensures usage { (result ≡ Status.Usage) ↔ (asked_by words.now ≡ None) }
    ensures unread { ((appliers : ℕ) → asked_by words.now ≢ Some (Asked.Run appliers)) → ((json : Bool) → asked_by words.now ≢ Some (Asked.Live json)) → source.new ≡ source.old }
    ensures unasked { ((appliers : ℕ) → asked_by words.now ≢ Some (Asked.Run appliers)) → ((json : Bool) → asked_by words.now ≢ Some (Asked.Live json)) → reader.new ≡ reader.old }
    ensures unwritten { result ≡ Status.Usage → sink.new ≡ sink.old }
    ensures told { (appliers : ℕ) → asked_by words.now ≡ Some (Asked.Run appliers) → Tells (Told (line_step script_step) first_world result)
        (R.left source.old) (R.left source.new) (K.taken sink.old) (K.taken sink.new) }
    ensures prompt { (appliers : ℕ) → asked_by words.now ≡ Some (Asked.Run appliers) → ReadsPromptly (line_step script_step) first_world result
        (R.reads reader.old) (R.reads reader.new) (R.left source.old) (K.taken sink.old) }
    ensures stormed { (seed count appliers : ℕ) → asked_by words.now ≡ Some (Asked.Storm seed count appliers)
        → TellsOf result (storm_summary seed count) (K.taken sink.old) (K.taken sink.new) }
    ensures ends { (seed count appliers : ℕ) → asked_by words.now ≡ Some (Asked.Storm seed count appliers) → StormEnds result }
    ensures read { result ≡ Status.ReadFault → Rose (R.faults source.old) (R.faults source.new) }
    ensures write { result ≡ Status.WriteFault → Rose (K.faults sink.old) (K.faults sink.new) }
    ensures worlds { (appliers : ℕ) → asked_by words.now ≡ Some (Asked.Run appliers) → EachLineHolds (R.left source.old) }
    ensures complete { (appliers : ℕ) → asked_by words.now ≡ Some (Asked.Run appliers) → RunsToItsEnd (R.left source.old) (K.taken sink.old) (R.faults source.old) (R.faults source.new) (K.faults sink.old) (K.faults sink.new) result }
    ensures live { (json : Bool) → asked_by words.now ≡ Some (Asked.Live json) → RunsFully json result (R.left source.old) (R.left source.new) (K.taken sink.old) (K.taken sink.new) (R.reads reader.old) (R.reads reader.new) }
    ensures live_worlds { (json : Bool) → asked_by words.now ≡ Some (Asked.Live json) → EachLiveLineHolds (R.left source.old) }
    ensures live_complete { (json : Bool) → asked_by words.now ≡ Some (Asked.Live json) → LiveRunsToItsEnd json (R.left source.old) (K.taken sink.old) (R.faults source.old) (R.faults source.new) (K.faults sink.old) (K.faults sink.new) result }
{
    reported_worlds_hold();
    live_worlds_hold();
    scripts_have_full_turns();
    let Ok(asked) = asked_by(alloc, words) else {
        return Status::Memory;
    };
    match asked {
        None => Status::Usage,
        Some(Asked::Run { appliers: 1 }) => run_alone_through(
            alloc,
            AtEnd::Leave,
            reader,
            source,
            sink,
        ),
        Some(Asked::Run { appliers }) => {
            run_crew_through(
                rt,
                alloc,
                appliers,
                AtEnd::Leave,
                reader,
                source,
                sink,
                watch,
            )
        }
        Some(Asked::Live { json }) => {
            run_live_through(rt, alloc, json, AtEnd::Leave, reader, source, sink, watch)
        }
        Some(
            Asked::Storm {
                seed,
                count,
                appliers,
            },
        ) => storm(rt, alloc, seed, count, appliers, sink, watch),
    }
}
