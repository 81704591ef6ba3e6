//! The forms in which words ask for something, tested before `clap` reads them.
ghost use Rattle.std.specs.Prelude.{◌≡◌, ◌∷◌, [], is_some};
ghost use Rattle.command_line.specs.Words.{asked_by, is_flag, is_option};
ghost use Rattle.command_line.specs.Forms.{are_appliers, has_appliers, is_appliers, is_count, are_seed_and_count, is_live, is_run, is_seed, is_storm, texts};

use crate::numerals::number_in;
use crate::words::{MOST_APPLIERS, MOST_COUNT};

fn is_option(word: &str) -> bool
    ensures { result ≡ is_option word.now }
{
    word.as_bytes() == b"--appliers".as_slice()
}

fn is_flag(word: &str) -> bool
    ensures { result ≡ is_flag word.now }
{
    word.as_bytes() == b"--json".as_slice()
}

fn is_seed(word: &str) -> bool
    ensures { result ≡ is_seed word.now }
{
    number_in(word, 0, u64::MAX).is_some()
}

fn is_count(word: &str) -> bool
    ensures { result ≡ is_count word.now }
{
    number_in(word, 1, MOST_COUNT).is_some()
}

fn is_appliers(word: &str) -> bool
    ensures { result ≡ is_appliers word.now }
{
    number_in(word, 1, MOST_APPLIERS).is_some()
}

/// `--appliers=N`
fn has_appliers(word: &str) -> bool
    ensures { result ≡ has_appliers word.now }
{
    match word.strip_prefix("--appliers=") {
        Some(value) => is_appliers(value),
        None => false,
    }
}

/// `--appliers N`
fn are_appliers(option: &str, value: &str) -> bool
    ensures { result ≡ are_appliers option.now value.now }
{
    is_option(option) && is_appliers(value)
}

/// `SEED COUNT`
fn are_seed_and_count(seed: &str, count: &str) -> bool
    ensures { result ≡ are_seed_and_count seed.now count.now }
{
    is_seed(seed) && is_count(count)
}

/// Whether the words may stand behind `run`.
fn is_run(words: &[&str]) -> bool
    ensures { result ≡ is_run (texts words.now) }
{
    match words {
        [] => true,
        [joined] => has_appliers(joined),
        [option, value] => are_appliers(option, value),
        _ => false,
    }
}

/// Whether an option that is joined to its value, a seed and a count stand in a form.
fn is_joined_storm(first: &str, second: &str, third: &str) -> bool
    ensures { result ≡ is_storm (first.now ∷ second.now ∷ third.now ∷ []) }
{
    (has_appliers(first) && are_seed_and_count(second, third))
        || (has_appliers(second) && are_seed_and_count(first, third))
        || (has_appliers(third) && are_seed_and_count(first, second))
}

/// Whether an option, its value, a seed and a count stand in a form.
fn is_parted_storm(first: &str, second: &str, third: &str, fourth: &str) -> bool
    ensures { result ≡ is_storm (first.now ∷ second.now ∷ third.now ∷ fourth.now ∷ []) }
{
    (are_appliers(first, second) && are_seed_and_count(third, fourth))
        || (are_appliers(second, third) && are_seed_and_count(first, fourth))
        || (are_appliers(third, fourth) && are_seed_and_count(first, second))
}

/// Whether the words may stand behind `storm`.
fn is_storm(words: &[&str]) -> bool
    ensures { result ≡ is_storm (texts words.now) }
{
    match words {
        [] | [_] => false,
        [seed, count] => are_seed_and_count(seed, count),
        [first, second, third] => is_joined_storm(first, second, third),
        [first, second, third, fourth] => is_parted_storm(first, second, third, fourth),
        _ => false,
    }
}

/// Whether the words may stand behind `live`.
fn is_live(words: &[&str]) -> bool
    ensures { result ≡ is_live (texts words.now) }
{
    match words {
        [] => true,
        [flag] => is_flag(flag),
        _ => false,
    }
}

/// Whether the words ask for anything.
pub(crate) fn is_form(words: &[&str]) -> bool
    ensures { result ≡ is_some (asked_by words.now) }
{
    let Some((name, words)) = words.split_first() else {
        return false;
    };
    if name.as_bytes() == b"run".as_slice() {
        return is_run(words);
    }
    if name.as_bytes() == b"storm".as_slice() {
        return is_storm(words);
    }
    name.as_bytes() == b"live".as_slice() && is_live(words)
}
