//! What a command printed that is no push, with words behind it.
ghost use Rattle.std.specs.Prelude.{◌≡◌, ◌++◌, OnOk};

use crate::told::Told;
use rep_lists::NoMemory;
use script_parse::{Command, ProcLine, Refresh};
use site_words::add_note;
use std::alloc::{AllocError, Global};

/// Appends why a block has no number.
fn add_nothing_done(bytes: &[u8], text: &mut String) -> Result<(), AllocError> {
    if !bytes.ends_with(b" none\n") {
        return Ok(());
    }
    add_note(
        text,
        &"the block changed nothing, so it is no transaction, and nothing is queued",
    )
}

/// The third word of a line.
fn third_word(bytes: &[u8]) -> Option<&[u8]> {
    let mut words = bytes.split(|byte| *byte == b' ').skip(2);
    words.next()
}

/// Appends why a refresh was made by all rows.
fn add_forced(bytes: &[u8], text: &mut String) -> Result<(), AllocError> {
    if third_word(bytes) != Some(b"complete".as_slice()) {
        return Ok(());
    }
    add_note(
        text,
        &"the log doesn't reach back to the last refresh, so all rows were looked at",
    )
}

/// Appends the words behind what a command printed that is no push.
fn add_done(command: &Command, bytes: &[u8], text: &mut String) -> Result<(), AllocError> {
    if let Command::Commit | Command::Procedures(ProcLine::Send { .. }) = command {
        return add_nothing_done(bytes, text);
    }
    if let Command::Refresh {
        how: Refresh::Force,
        ..
    } = command
    {
        return add_forced(bytes, text);
    }
    Ok(())
}

/// The words behind what a command printed that is no push.
fn done_words(alloc: Global, command: &Command, bytes: &[u8]) -> Result<String, NoMemory> {
    let mut text = String::new(alloc);
    add_done(command, bytes, &mut text)?;
    Ok(text)
}

/// Tells what a command printed that is no push, with words behind it.
pub fn tell_done(
    alloc: Global,
    command: &Command,
    bytes: &[u8],
    told: &mut Told,
) -> Result<(), NoMemory>
    ensures { OnOk result (told.new ≡ told.old ++ bytes.now) }
{
    told.add_report(alloc, bytes)?;
    let words = done_words(alloc, command, bytes)?;
    told.add_words(words)
}
