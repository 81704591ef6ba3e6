//! The row that a part's new values would make.
ghost use Rattle.std.specs.Prelude.{◌≡◌, slice_get, option_copied};
ghost use Rattle.rep_schema.specs.Groups.{with_values};
ghost use Rattle.resolve_methods.specs.Written.{written};

use rep_schema::value_at;
use rep_values::Value;

fn written<'a>(here: bool, before: Option<&'a Value>, value: &'a Value) -> Option<&'a Value>
    ensures { option_copied result ≡ written here (option_copied before.entry) value.now }
{
    if here {
        before?;
        Some(value)
    } else {
        before
    }
}

/// The value in a column of the row with these values at these places.
pub(crate) fn value_with<'a>(
    places: &[u32],
    values: &'a [Value],
    row: &'a [Value],
    column: u32,
) -> Option<&'a Value>
    ensures { option_copied result ≡ slice_get (with_values places.now values.now row.now) column }
{
    let mut value = value_at(row, column);
    for i in 0..places.len().min(values.len()) {
        value = written(places[i] == column, value, &values[i]);
    }
    value
}
