//! The methods that take a number: additive and average.
ghost use Rattle.std.specs.Prelude.{◌≡◌, ◌<◌, ◌+ℤ◌, ◌-ℤ◌, length, option_copied, IfSome};
ghost use Rattle.std.specs.List.{AllByRecursion};
ghost use Rattle.rep_schema.specs.Tables.{IsInRange};
ghost use Rattle.rep_schema.specs.Groups.{values_at};
ghost use Rattle.resolve_methods.specs.Decide.{only, taken_in_range, added, averaged};

use crate::Decision;
use rep_schema::{is_in_range, value_at};
use rep_values::Value;

/// The one value of a group of one column.
pub(crate) fn only(values: &[Value]) -> Option<&Value>
    ensures { option_copied result ≡ only values.now }
{
    match values {
        [value] => Some(value),
        [] | [_, _, ..] => None,
    }
}

/// A row's one value at these places, where they are one.
pub(crate) fn only_at<'a>(places: &[u32], row: &'a [Value]) -> Option<&'a Value>
    requires { AllByRecursion (λ place. place < length row.now) places.now }
    ensures { option_copied result ≡ only (values_at places.now row.now) }
{
    if places.len() != 1 {
        return None;
    }
    value_at(row, places[0])
}

fn taken_in_range(number: i64) -> Decision
    ensures { result ≡ taken_in_range number }
{
    if is_in_range(number) {
        Decision::TakeNumber(number)
    } else {
        Decision::Range
    }
}

fn changed(old: i64, new: i64, current: i64) -> i64
    requires old { IsInRange old }
    requires new { IsInRange new }
    requires current { IsInRange current }
    ensures { result ≡ current +ℤ (new -ℤ old) }
{
    current + (new - old)
}

/// The amount between old and new is added to the current number.
pub(crate) fn added(old: Option<i64>, new: Option<i64>, current: Option<i64>) -> Decision
    requires old { IfSome old IsInRange }
    requires new { IfSome new IsInRange }
    requires current { IfSome current IsInRange }
    ensures { result ≡ added old new current }
{
    match (old, new, current) {
        (Some(old), Some(new), Some(current)) => taken_in_range(changed(old, new, current)),
        (None, _, _) | (Some(_), None, _) | (Some(_), Some(_), None) => Decision::Undecided,
    }
}

/// Half the sum of the current and the new number, towards zero.
pub(crate) fn averaged(new: Option<i64>, current: Option<i64>) -> Decision
    requires new { IfSome new IsInRange }
    requires current { IfSome current IsInRange }
    ensures { result ≡ averaged new current }
{
    match (new, current) {
        (Some(new), Some(current)) => Decision::TakeNumber((current + new) / 2),
        (None, _) | (Some(_), None) => Decision::Undecided,
    }
}
