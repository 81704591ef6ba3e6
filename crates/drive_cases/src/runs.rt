//! Runs of a script, with the reads and writes that fail.
ghost use Rattle.std.specs.Prelude.{◌≡◌, [], map, All, IfOk};
ghost use Rattle.script_drive.specs.LineBytes.{line_step};
ghost use Rattle.script_drive.specs.Prompt.{IsPrompt, FaultIsLast};
ghost use Rattle.drive_cases.specs.Notes.{asked_of};
ghost use Rattle.drive_cases.specs.Repeats.{repeat_step};

use crate::noting::Noting;
use crate::repeat::repeat_through;
use rep_io::{BytesSink, Failed, FailingSink, FailingSource, Source};
use script_drive::{AtEnd, Status, Straight};
use std::alloc::{AllocError, Global};

/// The most reads of what a run left.
const MOST_READS: u64 = 1_000;

/// How the calls of a run's source and sink are: how many bytes each moves at most, and which read and which write
/// fails, counted from 1, or 0 for none.
#[derive(Clone, Copy)]
pub struct Faults {
    pub most: u64,
    pub read: u64,
    pub write: u64,
}

impl Faults {
    /// No call fails.
    pub fn none(most: u64) -> Faults {
        Faults {
            most,
            read: 0,
            write: 0,
        }
    }

    /// A read fails.
    pub fn of_read(most: u64, read: u64) -> Faults {
        Faults {
            most,
            read,
            write: 0,
        }
    }

    /// A write fails.
    pub fn of_write(most: u64, write: u64) -> Faults {
        Faults {
            most,
            read: 0,
            write,
        }
    }

    fn source(&self, alloc: Global, script: &[u8]) -> Result<FailingSource, AllocError>
        ensures { IfOk result (λ source. source.bytes ≡ script.now) }
    {
        let script = script.to_vec(alloc)?;
        let read = vec![in alloc; self.read]?;
        Ok(FailingSource::make(script, read, self.most.max(1)))
    }

    fn sink(&self, alloc: Global) -> Result<FailingSink, AllocError> {
        let write = vec![in alloc; self.write]?;
        Ok(FailingSink::make(alloc, write, self.most.max(1)))
    }
}

/// How a run ended, what was written, and its source.
#[derive(Drop)]
pub struct Ended {
    pub status: Status,
    pub report: Vec<u8>,
    pub source: FailingSource,
}

/// How a run ended whose reader noted its reads, that reader, and its source.
#[derive(Drop)]
pub struct Noted {
    pub status: Status,
    pub reader: Noting,
    pub source: FailingSource,
}

/// Whether no fault ended a run.
pub fn is_whole(status: Status) -> bool {
    match status {
        Status::Done | Status::Malformed => true,
        Status::ReadFault | Status::WriteFault | Status::Memory | Status::Usage => false,
    }
}

/// The bytes in which a stroke stands for the end of a line.
pub fn with_line_ends(alloc: Global, text: &str) -> Result<Vec<u8>, AllocError> {
    let mut bytes = Vec::new(alloc);
    for byte in text.as_bytes() {
        bytes.push(if *byte == b'/' { b'\n' } else { *byte })?;
    }
    Ok(bytes)
}

/// Text of the bytes, with a stroke for each end of a line.
pub fn with_strokes(alloc: Global, bytes: &[u8]) -> Result<String, AllocError> {
    let mut strokes = Vec::new(alloc);
    for byte in bytes {
        strokes.push(if *byte == b'\n' { b'/' } else { *byte })?;
    }
    String::from_utf8_lossy(alloc, &strokes)
}

/// Runs a script, of which a line that begins with `!` breaks a rule.
pub fn run(alloc: Global, script: &[u8], faults: Faults) -> Result<Ended, AllocError> {
    let mut source = faults.source(alloc, script)?;
    let mut sink = faults.sink(alloc)?;
    let status = repeat_through(
        alloc,
        b'!',
        AtEnd::GiveBack,
        &mut Straight,
        &mut source,
        &mut sink,
    );
    let report = sink.taken().to_vec(alloc)?;
    Ok(Ended {
        status,
        report,
        source,
    })
}

/// Runs the same through a reader that notes its reads.
pub fn noted_run(alloc: Global, script: &[u8], faults: Faults) -> Result<Noted, AllocError>
    ensures prompt { IfOk result (λ run. All (IsPrompt (line_step repeat_step) 33 script.now []) (map asked_of run.reader.notes.items)) }
    ensures last { IfOk result (λ run. FaultIsLast run.status (map asked_of run.reader.notes.items)) }
{
    let mut source = faults.source(alloc, script)?;
    let mut sink = BytesSink::make(alloc);
    let mut reader = Noting {
        alloc,
        notes: Vec::new(alloc),
        whole: true,
    };
    let status = repeat_through(
        alloc,
        b'!',
        AtEnd::Leave,
        &mut reader,
        &mut source,
        &mut sink,
    );
    if reader.whole {
        Ok(Noted {
            status,
            reader,
            source,
        })
    } else {
        Err(AllocError)
    }
}

/// What a source still gives when its run has ended. Reads that fail are passed over.
pub fn left_by(alloc: Global, source: &mut FailingSource) -> Result<Vec<u8>, AllocError> {
    let mut left = Vec::new(alloc);
    let mut piece = [0u8; 16];
    for _ in 0..MOST_READS {
        match source.read(&mut piece) {
            Ok(0) => break,
            Ok(count) => left.extend_from_slice(&piece[..count])?,
            Err(Failed) => {}
        }
    }
    Ok(left)
}
