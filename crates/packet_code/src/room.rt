//! How many bytes a transaction and a past take. A wrong number would cost time and nothing else; what is looked through
//! on the way tells that each text and each name has the form of one.
ghost use Rattle.std.specs.List.{AllByRecursion};
ghost use Rattle.packet_code.specs.Texts.{HasTextForm, HaveTextForm, PartHasTextForm, CallHasTextForm, TxnHasTextForm, PastEntryHasForm, PastHasForm};

use rep_calls::{Call, Part, PastEntry, Txn};
use rep_values::Value;

/// The kind, and the number or the length and the text.
#[inline(always)]
fn value_room(value: &Value) -> usize
    ensures { HasTextForm value.now }
{
    match value {
        Value::Num(_) => 9,
        Value::Words(text) => text.bytes().len() + 2,
    }
}

#[inline(always)]
fn values_room(values: &[Value]) -> usize
    ensures { HaveTextForm values.now }
{
    let mut room: usize = 0;
    for value in values {
        room = room.saturating_add(value_room(value));
    }
    room
}

fn part_room(part: &Part) -> usize
    ensures { PartHasTextForm part.now }
{
    values_room(part.old.as_slice())
        .saturating_add(values_room(part.new.as_slice()))
        .saturating_add(2)
}

fn parts_room(parts: &[Part]) -> usize
    ensures { AllByRecursion PartHasTextForm parts.now }
{
    let mut room: usize = 0;
    for part in parts {
        room = room.saturating_add(part_room(part));
    }
    room
}

/// The kind, the table, one or two counts, and what they count.
fn call_room(call: &Call) -> usize
    ensures { CallHasTextForm call.now }
{
    let room = match call {
        Call::Insert { table: _, row } | Call::Delete { table: _, row } => {
            values_room(row.values())
        }
        Call::Update {
            table: _,
            key,
            parts,
        } => values_room(key.values()).saturating_add(parts_room(parts.as_slice())),
    };
    room.saturating_add(5)
}

/// The bytes of all calls, or up to one more for each.
pub(crate) fn txn_room(txn: &Txn) -> usize
    ensures { TxnHasTextForm txn.now }
{
    let mut room: usize = 0;
    for call in txn.calls.as_slice() {
        room = room.saturating_add(call_room(call));
    }
    room
}

/// The length and the name, and a number of eight bytes.
fn past_entry_room(seen: &PastEntry) -> usize
    ensures { PastEntryHasForm seen.now }
{
    // What is read is known to have eight bytes.
    let _number = seen.number;
    seen.origin.0.bytes().len() + 9
}

/// The bytes of all that was seen, without its count.
pub(crate) fn past_room(past: &[PastEntry]) -> usize
    ensures { PastHasForm past.now }
{
    let mut room: usize = 0;
    for seen in past {
        room = room.saturating_add(past_entry_room(seen));
    }
    room
}
