//! The words of the command line as `clap` reads them.
ghost use Rattle.std.specs.Prelude.{◌≡◌, IfErr, IfOk, IfSome, codes, is_some, true};
ghost use Rattle.clap.specs.Words.{app_of, first_value, found_of, kind_of, one_text};
ghost use Rattle.command_line.specs.Command.{asked_of_found, command_app, is_up, names_live, run_or_storm};
ghost use Rattle.command_line.specs.Words.{asked_by, IsInRange};

use crate::numerals::number_in;
use crate::words::{Asked, MOST_APPLIERS, MOST_COUNT};
use clap::error::ErrorKind;
use clap::{Arg, ArgAction, ArgMatches, Command, Error};
use rep_lists::NoMemory;
use std::alloc::{AllocError, Global};

/// A form, a seed and a count in their places, the option and the flag.
fn command<'a>(alloc: Global) -> Result<Command<'a>, AllocError>
    ensures { IfOk result (λ command. app_of command ≡ command_app) }
{
    let command = Command::new(alloc, "pirkausu").no_binary_name(true);
    let command = command.arg(Arg::new(alloc, "form").action(ArgAction::Set))?;
    let command = command.arg(Arg::new(alloc, "seed").action(ArgAction::Set))?;
    let command = command.arg(Arg::new(alloc, "count").action(ArgAction::Set))?;
    let appliers = Arg::new(alloc, "appliers").long("appliers");
    let command = command.arg(appliers.action(ArgAction::Set))?;
    let json = Arg::new(alloc, "json").long("json");
    command.arg(json.action(ArgAction::SetTrue))
}

fn names_live(matches: &ArgMatches<'_>) -> bool
    ensures { result ≡ names_live (first_value (found_of matches.now) (codes "form")) }
{
    match matches.get_str("form") {
        Some(form) => form.as_bytes() == b"live".as_slice(),
        None => false,
    }
}

// `get_flag` is this call too, but its clauses leave out values that are no `bool`.
fn is_up(matches: &ArgMatches<'_>) -> bool
    ensures { result ≡ is_up (one_text (found_of matches.now) (codes "json")) }
{
    matches.get_one::<bool>("json").unwrap_or(false)
}

/// What the values that `clap` found ask for, where the form isn't `live`.
fn run_or_storm(matches: &ArgMatches<'_>) -> Option<Asked>
    ensures value { result ≡ run_or_storm (first_value (found_of matches.now) (codes "seed")) (first_value (found_of matches.now) (codes "count"))
        (first_value (found_of matches.now) (codes "appliers")) }
    ensures in_range { IfSome result IsInRange }
{
    let appliers = match matches.get_str("appliers") {
        Some(value) => number_in(value, 1, MOST_APPLIERS)? as u32,
        None => 1,
    };
    match (matches.get_str("seed"), matches.get_str("count")) {
        (Some(seed), Some(count)) => Some(Asked::Storm {
            seed: number_in(seed, 0, u64::MAX)?,
            count: number_in(count, 1, MOST_COUNT)? as u32,
            appliers,
        }),
        _ => Some(Asked::Run { appliers }),
    }
}

/// What the values that `clap` found ask for.
fn asked_of_found(matches: &ArgMatches<'_>) -> Option<Asked>
    ensures value { result ≡ asked_of_found (found_of matches.now) }
    ensures in_range { IfSome result IsInRange }
{
    if names_live(matches) {
        return Some(Asked::Live {
            json: is_up(matches),
        });
    }
    run_or_storm(matches)
}

/// The matches of words that ask for something. `clap` refuses them only for want of memory.
fn matches_of<'a>(alloc: Global, words: &'a [&'a str]) -> Result<ArgMatches<'a>, Error>
    requires { is_some (asked_by words.now) ≡ true }
    ensures value { IfOk result (λ matches. asked_of_found (found_of matches) ≡ asked_by words.now) }
    ensures memory { IfErr result (λ error. kind_of error ≡ ErrorKind.OutOfMemory) }
{
    command(alloc)?.try_get_matches_from(words)
}

/// What words that ask for something ask for.
pub(crate) fn read<'a>(alloc: Global, words: &'a [&'a str]) -> Result<Option<Asked>, NoMemory>
    requires { is_some (asked_by words.now) ≡ true }
    ensures value { IfOk result (λ asked. asked ≡ asked_by words.now) }
    ensures in_range { IfOk result (λ asked. IfSome asked IsInRange) }
{
    match matches_of(alloc, words) {
        Ok(matches) => Ok(asked_of_found(&matches)),
        Err(_) => Err(NoMemory),
    }
}
