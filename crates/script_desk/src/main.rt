//! The program for people who write scripts: `lint` tells what is wrong with one, `picture` draws what it does, and `explain` runs it
//! with words behind what it prints.
#![tactic(auto)]

ghost use Rattle.std.specs.Prelude.{◌≡◌, ◌≢◌, map, string_bytes, IfOk};
ghost use Rattle.std.specs.IoError.{error_kind};
ghost use Rattle.std.specs.Process.{exit_status};
ghost use Rattle.script_drive.specs.Codes.{code_of};

mod drawing;
mod explaining;
mod linting;
mod program;
mod reading;
mod words;
mod writing;

pub use program::run_desk;
use rep_io::{StdSink, StdSource};
pub use script_drive::Status;
use std::alloc::{AllocError, Global};
use std::env::Env;
use std::io::ErrorKind;
use std::process::ExitCode;
use std::{env, io};
pub use words::{Asked, asked_by};

/// The words behind the program's name, or an error where they can't be had as text or there is no memory.
fn words_of<R: Env + AllocGlobal>(rt: &R) -> io::Result<Vec<String>> {
    let mut words = Vec::new(rt.alloc());
    for word in env::args(rt)?.skip(1) {
        words.push(word)?;
    }
    Ok(words)
}

/// The words as slices of text.
fn slices_of(alloc: Global, words: &[String]) -> Result<Vec<&str>, AllocError>
    ensures { IfOk result (λ slices. map (λ slice. slice.now) slices.items ≡ map string_bytes words.now) }
{
    words.iter().map(|word| word.as_str()).collect(alloc)
}

/// The status where the words can't be had: words that are no text are none that the program knows.
fn status_without_words(error: &io::Error) -> Status
    ensures memory { error_kind error.now ≡ ErrorKind.OutOfMemory → result ≡ Status.Memory }
    ensures usage { error_kind error.now ≢ ErrorKind.OutOfMemory → result ≡ Status.Usage }
{
    if error.kind() == ErrorKind::OutOfMemory {
        Status::Memory
    } else {
        Status::Usage
    }
}

/// What the process ends with.
fn exit_code(status: Status) -> ExitCode
    ensures { exit_status result ≡ code_of status }
{
    ExitCode::from(status.code())
}

fn main(rt: HostRuntime) -> ExitCode {
    let alloc = rt.alloc();
    let words = match words_of(&rt) {
        Ok(words) => words,
        Err(error) => return exit_code(status_without_words(&error)),
    };
    let Ok(words) = slices_of(alloc, &words) else {
        return exit_code(Status::Memory);
    };
    let mut source = StdSource::make(rt.reader());
    let mut sink = StdSink::make(io::writer(&rt));
    exit_code(run_desk(&rt, alloc, &words, &mut source, &mut sink))
}
