//! The command that was meant by a word that is none.

use crate::Hint;
use command_forms::{COMMANDS, Form};
use std::alloc::{AllocError, Global};
use strsim::generic_levenshtein;

/// Words that other languages have for commands.
const OTHERS: [(&[u8], Form); 8] = [
    (b"begin", Form::Txn),
    (b"start", Form::Resume),
    (b"rollback", Form::Abandon),
    (b"select", Form::Show),
    (b"create", Form::Table),
    (b"set", Form::Update),
    (b"sync", Form::Push),
    (b"master", Form::Site),
];

const LIVE: [&[u8]; 3] = [b"live", b"session", b"end"];

/// The form beside a word, written in small or great letters.
fn form_of(table: &[(&[u8], Form)], word: &[u8]) -> Option<Form> {
    for (written, form) in table {
        if word.eq_ignore_ascii_case(written) {
            return Some(*form);
        }
    }
    None
}

/// The command word that is nearest to this word, the first of several, where a third of its bytes or less are changed.
fn nearest(alloc: Global, word: &[u8]) -> Result<Option<Form>, AllocError> {
    let mut best = None;
    let mut least = word.len() / 3 + 1;
    for (written, form) in &COMMANDS {
        let edits = generic_levenshtein(alloc, word, written)?;
        if edits < least {
            least = edits;
            best = Some(*form);
        }
    }
    Ok(best)
}

/// What was meant by a word that stands in the place of a command.
pub fn command_hint(alloc: Global, word: &[u8]) -> Result<Hint, AllocError> {
    if word.is_empty() {
        return Ok(Hint::NoWord);
    }
    if LIVE.iter().any(|live| *live == word) {
        return Ok(Hint::LiveCommand);
    }
    if let Some(form) = form_of(&COMMANDS, word) {
        return Ok(Hint::NearCommand(form));
    }
    if let Some(form) = form_of(&OTHERS, word) {
        return Ok(Hint::OtherCommand(form));
    }
    Ok(match nearest(alloc, word)? {
        Some(form) => Hint::NearCommand(form),
        None => Hint::UnknownCommand,
    })
}
