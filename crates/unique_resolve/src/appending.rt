//! Texts that get bytes put behind them.
ghost use Rattle.std.specs.Prelude.{◌≡◌, ℕ, ◌+◌, ◌≤◌, ◌==◌, ◌++◌, length, take, drop, nat_le, true, Some, None, option_map, option_copied, slice_get, slice_set, if◌then◌else◌};
ghost use Rattle.std.specs.List.{list_any, list_all};
ghost use Rattle.rep_values.specs.Text.{is_text_byte};
ghost use Rattle.rep_schema.specs.Tables.{Cells};
ghost use Rattle.unique_resolve.specs.Appending.{may_change, most_bytes, text_appended, appended};

use rep_schema::{Column, has_place, is_key_at};
use rep_values::{Text, Value};

/// How many bytes a text has room for.
fn room(text: &Text) -> usize
    ensures { result + length text.now ≡ most_bytes }
{
    64 - text.bytes().len()
}

/// The cells with a piece written over them from a place on.
fn written(mut cells: [u8; 64], place: usize, piece: &[u8]) -> [u8; 64]
    requires { place + length piece.now ≤ 64 }
    ensures { result ≡ take place cells ++ (piece.now ++ drop (place + length piece.now) cells) }
{
    let end = place + piece.len();
    cells[place..end].copy_from_slice(piece);
    cells
}

/// Cells that begin with one piece and another behind it.
fn joined(head: &[u8], tail: &[u8]) -> [u8; 64]
    requires { length head.now + length tail.now ≤ 64 }
    ensures { take (length head.now + length tail.now) result ≡ head.now ++ tail.now }
{
    written(written([0; 64], 0, head), head.len(), tail)
}

/// A text with bytes behind it; None exactly where it gets too long.
fn text_with(text: &Text, bytes: &[u8]) -> Option<Text>
    requires { list_all is_text_byte bytes.now ≡ true }
    ensures { result ≡ (if nat_le (length text.now + length bytes.now) most_bytes then Some (text.now ++ bytes.now) else None) }
{
    if bytes.len() > room(text) {
        return None;
    }
    let end = text.bytes().len() + bytes.len();
    let cells = joined(text.bytes(), bytes);
    Text::of(&cells[..end])
}

/// A value with bytes behind its text; None where no text is there or it gets too long.
fn value_with(value: Option<&Value>, bytes: &[u8]) -> Option<Value>
    requires { list_all is_text_byte bytes.now ≡ true }
    ensures { (column : ℕ) (row : Cells)
        → text_appended column bytes.now row (option_copied value.entry) ≡ option_map (λ longer. slice_set row column longer) result }
{
    match value {
        Some(Value::Words(text)) => Some(Value::Words(text_with(text, bytes)?)),
        Some(Value::Num(_)) | None => None,
    }
}

/// Whether a column of a constraint is no key column.
fn may_change(columns: &[Column], places: &[u32], column: u32) -> bool
    ensures { result ≡ may_change columns.now places.now column }
{
    has_place(places, column as usize) && !is_key_at(columns, column)
}

/// What an append puts in the place of a row's value; None where it gives no row.
pub(crate) fn value_appended(
    columns: &[Column],
    places: &[u32],
    column: u32,
    bytes: &[u8],
    row: &[Value],
) -> Option<Value>
    requires { list_all is_text_byte bytes.now ≡ true }
    ensures { appended columns.now places.now column bytes.now row.now ≡ option_map (λ longer. slice_set row.now column longer) result }
{
    if !may_change(columns, places, column) {
        return None;
    }
    value_with(row.get(column as usize), bytes)
}
