//! What the words of the command line ask for.
ghost use Rattle.std.specs.Prelude.{◌≡◌, ◌≢◌, None, IfOk, IfSome, IfErr};
ghost use Rattle.command_line.specs.Words.{asked_by, IsInRange};

use crate::command::read;
use crate::forms::is_form;
use rep_lists::NoMemory;
use std::alloc::Global;

/// What the program is asked to do, and how many appliers do a run or a storm, from 1 to 8.
#[derive(Clone, Copy, Debug, PartialEq, Eq)]
pub enum Asked {
    /// `run`
    Run {
        appliers: u32,
    },
    /// `storm SEED COUNT`
    Storm {
        seed: u64,
        count: u32,
        appliers: u32,
    },
    /// `live`
    Live {
        json: bool,
    },
}

/// The most transactions of a storm.
pub(crate) const MOST_COUNT: u64 = 50_000;

/// The most appliers.
pub(crate) const MOST_APPLIERS: u64 = 8;

/// What the words behind the program's name ask for: `run`, or `storm SEED COUNT` with a seed of 64 bits and 1 to 50,000
/// transactions, and `--appliers N` or `--appliers=N` at most once behind the first word; or `live`, or `live --json`. The numbers
/// are decimal digits alone. None for all other words, and then no memory is taken.
pub fn asked_by(alloc: Global, words: &[&str]) -> Result<Option<Asked>, NoMemory>
    ensures value { IfOk result (λ asked. asked ≡ asked_by words.now) }
    ensures memory { IfErr result (λ _. asked_by words.now ≢ None) }
    ensures in_range { IfOk result (λ asked. IfSome asked IsInRange) }
{
    if !is_form(words) {
        return Ok(None);
    }
    read(alloc, words)
}
