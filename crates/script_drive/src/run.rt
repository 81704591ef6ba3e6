//! A script that is run line by line, as its bytes come.
ghost use Rattle.std.specs.Prelude.{◌≡◌, ◌≢◌, ◌≤◌, ◌<◌, ◌+◌, ℕ, List, [], ◌∷◌, ◌++◌, length, take, slice_index, IfOk, IfErr, OnOk, OnErr};
ghost use Rattle.rep_io.specs.Faults.{Rose};
ghost use Rattle.script_drive.specs.Lines.{newline, IsUnbroken};
ghost use Rattle.script_drive.specs.Runs.{Stepped};
ghost use Rattle.script_drive.specs.Fed.{run_beginning};
ghost use Rattle.report_text.specs.Texts.{malformed_text};
ghost use Rattle.script_drive.specs.LineBytes.{GoesBy, StopsAnyway, most_bytes};
ghost use Rattle.script_drive.specs.Halts.{FeedsBy, FinishesBy, HaltsBy, RefusesInto, HasWriteCause, status_of, progress};

use crate::status::Status;
use memchr::memchr;
use rep_io::{Sink, offer};
use report_text::{Lines, MOST_LINE, malformed_line};
use script_lex::LineStop;
use std::alloc::{AllocError, Global};
use std::marker::Model;

/// The most lines of a script.
const MOST_LINES: u32 = 200_000;

/// The most bytes of a line before its end.
const MOST_BYTES: usize = 1_024;

/// No run goes on that is further: 1,025 bytes for each line up to the one that is too many, and 1,024 of that.
pub(crate) const MOST_PROGRESS: u32 = 205_002_049;

/// What runs the lines of a script.
///
/// What a line does may depend on choices that are made only as it runs, as where threads take turns in an order of their own.
/// No contract can name them before they are made. So contracts say what holds by all choices that agree with those made so
/// far, and whoever has run a script picks among these at its end.
pub trait LineRunner: Drop {
    /// What lines change.
    type State;

    /// What is chosen as lines run, and decides what they do. It is `()` where nothing is chosen.
    type Choices;

    /// The state that the lines so far led to.
    ghost state: { Self → Self.State };

    /// What a line within the limits does to a state, by its number and its bytes. Once the choices are given it is a function:
    /// so a report is one of a script and of choices.
    ghost step: { Self.Choices → Self.State → ℕ → List ℕ → Stepped Self.State };

    /// The choices that agree with those made on the way to a state. Lines only add to what was chosen: whatever is allowed
    /// behind a line was allowed before it.
    ghost allowed: { Self.State → Self.Choices → Type 0 };

    /// What is known of each state to which lines lead. A contract tells of a run's last state only that there is one: it is a
    /// value, without the runner that had it. So what the runner made sure of there has to be told by this.
    ghost known: { Self.State → Type 0 };

    /// Runs a line, and gives what it prints. After a stop no further line is run.
    fn run_line(&mut self, alloc: Global, number: u32, line: &[u8]) -> Result<Lines, LineStop>
        requires { known (state self.old) }
        ensures known { OnOk result (known (state self.new)) }
        ensures ok { IfOk result (λ lines. GoesBy step allowed (state self.old) number line.now (state self.new) lines.bytes) }
        ensures stop { IfErr result (StopsAnyway step allowed (state self.old) number line.now) };
}

/// Why a run ends before its script does.
#[derive(Clone, Copy, Debug, PartialEq, Eq)]
pub enum Halt {
    /// A line broke a rule, and this was told.
    Malformed,
    /// The sink failed.
    WriteFault,
    /// There was no memory.
    Memory,
}

impl Halt {
    /// The status of such a run.
    pub fn status(self) -> Status
        ensures { result ≡ status_of self }
    {
        match self {
            Halt::Malformed => Status::Malformed,
            Halt::WriteFault => Status::WriteFault,
            Halt::Memory => Status::Memory,
        }
    }
}

/// A script that is being run: what runs its lines, the number of the line that comes, and its bytes so far.
#[derive(Drop)]
pub struct Run<X: LineRunner> {
    runner: X,
    number: u32,
    line: Vec<u8>,
}

impl<X: LineRunner> Model for Run<X> {
    ghost use Rattle.std.specs.Prelude.{◌≤◌, length, vec_capacity};
    ghost use Rattle.script_drive.specs.Fed.{RunState};

    ghost Value = { RunState X.State };

    ghost view = { λ r. record { state = X.state r.runner; number = r.number; line = r.line.items } };

    ghost invariant = { λ r. (r.number ≤ 200001) × (length r.line.items ≤ 1024) × (1024 ≤ vec_capacity r.line) };
}

impl<X: LineRunner> Run<X> {
    /// A run of which nothing was read yet. The room for a line is taken now.
    pub fn start(alloc: Global, runner: X) -> Result<Run<X>, AllocError>
        ensures { IfOk result (λ run. run ≡ run_beginning (X.state runner)) }
    {
        let line = Vec::with_capacity(alloc, MOST_BYTES)?;
        Ok(Run {
            runner,
            number: 1,
            line,
        })
    }

    /// Runs each line that the piece ends, and offers what it prints.
    pub fn feed<K: Sink>(&mut self, alloc: Global, piece: &[u8], sink: &mut K) -> Result<(), Halt>
        requires { X.known self.old.state }
        ensures known { OnOk result (X.known self.new.state) }
        ensures fed { OnOk result (FeedsBy X.step X.allowed (K.taken sink.old) (K.taken sink.new) self.old piece.now self.new) }
        ensures halted { IfErr result (λ halt. HaltsBy X.step X.allowed X.known (K.taken sink.old) (K.taken sink.new) halt self.old piece.now) }
        ensures cause { HasWriteCause (K.faults sink.old) (K.faults sink.new) result }
        ensures further { OnOk result (progress self.old + length piece.now ≤ progress self.new) }
        ensures within { OnOk result (0 < length piece.now → progress self.new ≤ MOST_PROGRESS) }
    {
        let mut place = 0;
        while place < piece.len() {
            place += self.take(alloc, &piece[place..], sink)?;
        }
        Ok(())
    }

    /// Ends the run: its last line is run where it isn't empty, as if its end stood there.
    pub fn finish<K: Sink>(&mut self, alloc: Global, sink: &mut K) -> Result<(), Halt>
        requires { X.known self.old.state }
        ensures fed { OnOk result (FinishesBy X.step X.allowed (K.taken sink.old) (K.taken sink.new) self.old self.new.state) }
        ensures halted { IfErr result (λ halt. HaltsBy X.step X.allowed X.known (K.taken sink.old) (K.taken sink.new) halt self.old (newline ∷ [])) }
        ensures known { OnOk result (X.known self.new.state) }
        ensures some { OnErr result (self.old.line ≢ []) }
        ensures cause { HasWriteCause (K.faults sink.old) (K.faults sink.new) result }
    {
        if self.line.is_empty() {
            return Ok(());
        }
        self.feed(alloc, b"\n", sink)
    }

    // Takes the bytes up to the first that ends a line, or all, runs the line that is ended, and tells how many it took.
    fn take<K: Sink>(&mut self, alloc: Global, bytes: &[u8], sink: &mut K) -> Result<usize, Halt>
        requires some { 0 < length bytes.now }
        requires known { X.known self.old.state }
        ensures known { OnOk result (X.known self.new.state) }
        ensures count { IfOk result (λ count. (0 < count) × (count ≤ length bytes.now)) }
        ensures fed { IfOk result (λ count. FeedsBy X.step X.allowed (K.taken sink.old) (K.taken sink.new) self.old (take count bytes.now) self.new) }
        ensures halted { IfErr result (λ halt. HaltsBy X.step X.allowed X.known (K.taken sink.old) (K.taken sink.new) halt self.old bytes.now) }
        ensures cause { HasWriteCause (K.faults sink.old) (K.faults sink.new) result }
        ensures further { IfOk result (λ count. progress self.old + count ≤ progress self.new) }
        ensures within { OnOk result (progress self.new ≤ MOST_PROGRESS) }
    {
        if self.number > MOST_LINES {
            return Err(refuse(alloc, self.number, 2, sink));
        }
        let count = unbroken_len(bytes);
        if count > MOST_BYTES - self.line.len() {
            return Err(refuse(alloc, self.number, 1, sink));
        }
        self.append(&bytes[..count]);
        if count == bytes.len() {
            return Ok(count);
        }
        self.end_line(alloc, sink)?;
        Ok(count + 1)
    }

    // Appends bytes that don't end the line. There is room for them, so this takes no memory.
    fn append(&mut self, bytes: &[u8])
        requires unbroken { IsUnbroken bytes.now }
        requires room { length self.old.line + length bytes.now ≤ most_bytes }
        ensures line { self.new ≡ record { state = self.old.state; number = self.old.number; line = self.old.line ++ bytes.now } }
        ensures further { progress self.new ≡ progress self.old + length bytes.now }
    {
        let _ = self.line.extend_from_slice(bytes);
    }

    // Runs the line that stands, and offers what it prints.
    fn end_line<K: Sink>(&mut self, alloc: Global, sink: &mut K) -> Result<(), Halt>
        requires few { self.old.number ≤ 200000 }
        requires known { X.known self.old.state }
        ensures known { OnOk result (X.known self.new.state) }
        ensures fed { OnOk result (FeedsBy X.step X.allowed (K.taken sink.old) (K.taken sink.new) self.old (newline ∷ []) self.new) }
        ensures halted { IfErr result (λ halt. HaltsBy X.step X.allowed X.known (K.taken sink.old) (K.taken sink.new) halt self.old (newline ∷ [])) }
        ensures cause { HasWriteCause (K.faults sink.old) (K.faults sink.new) result }
        ensures further { OnOk result (progress self.old + 1 ≤ progress self.new) }
        ensures within { OnOk result (progress self.new ≤ MOST_PROGRESS) }
    {
        match self.runner.run_line(alloc, self.number, &self.line) {
            Ok(lines) => {
                let Ok(()) = offer(sink, lines.bytes()) else {
                    return Err(Halt::WriteFault);
                };
                self.line.clear();
                self.number += 1;
                Ok(())
            }
            Err(LineStop::Rule(rule)) => Err(refuse(alloc, self.number, rule, sink)),
            Err(LineStop::Memory) => Err(Halt::Memory),
        }
    }
}

// How many of the bytes stand before the first that ends a line, or all.
fn unbroken_len(bytes: &[u8]) -> usize
    ensures bound { result ≤ length bytes.now }
    ensures front { IsUnbroken (take result bytes.now) }
    ensures end { result < length bytes.now → slice_index bytes.now result ≡ newline }
{
    memchr(b'\n', bytes).unwrap_or(bytes.len())
}

// Tells of the rule that a line breaks.
fn refuse<K: Sink>(alloc: Global, number: u32, rule: u8, sink: &mut K) -> Halt
    ensures told { RefusesInto (K.taken sink.old) (K.taken sink.new) (malformed_text number rule) result }
    ensures later { K.faults sink.old ≤ K.faults sink.new }
    ensures cause { result ≡ Halt.WriteFault → Rose (K.faults sink.old) (K.faults sink.new) }
{
    let mut told = Lines::make(alloc);
    let Ok(()) = told.reserve(MOST_LINE) else {
        return Halt::Memory;
    };
    malformed_line(&mut told, number, rule);
    let Ok(()) = offer(sink, told.bytes()) else {
        return Halt::WriteFault;
    };
    Halt::Malformed
}
