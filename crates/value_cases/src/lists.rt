//! Lists, lists with room, and shared lists.

ghost use Rattle.std.specs.Prelude.{◌<◌, IfOk};

use case_reader::{CaseStop, Words, push_number, push_value, push_values};
use rep_lists::{Copies, Items, RoomyList, Shared};
use rep_values::Value;
use std::alloc::Global;
use std::slice::Iter;

/// A place below a length.
fn read_place(words: &mut Words, len: usize) -> Result<usize, CaseStop>
    ensures { IfOk result (λ place. place < len) }
{
    let place = words.whole()?;
    if place < len as u64 {
        Ok(place as usize)
    } else {
        Err(CaseStop::NoCase)
    }
}

fn push_popped(out: &mut String, alloc: Global, popped: Option<Value>) -> Result<(), CaseStop> {
    match popped {
        Some(value) => push_value(out, alloc, &value)?,
        None => out.push_str(" none")?,
    }
    Ok(())
}

/// How long a list is: ` len` and its length, or ` empty` in place of that word.
fn push_len(out: &mut String, alloc: Global, is_empty: bool, len: i64) -> Result<(), CaseStop> {
    out.push_str(if is_empty { " empty" } else { " len" })?;
    push_number(out, alloc, len)?;
    Ok(())
}

/// The values, one after the other.
fn push_each(out: &mut String, alloc: Global, values: Iter<'_, Value>) -> Result<(), CaseStop> {
    for value in values {
        push_value(out, alloc, value)?;
    }
    Ok(())
}

/// `VALUE`, put behind the others.
fn push_item(items: &mut Items<Value>, words: &mut Words) -> Result<(), CaseStop> {
    items.push(words.value()?)?;
    Ok(())
}

/// `PLACE VALUE`
fn set_item(items: &mut Items<Value>, words: &mut Words) -> Result<(), CaseStop> {
    let place = read_place(words, items.len())?;
    *items.at_mut(place) = words.value()?;
    Ok(())
}

/// The value at `PLACE`.
fn push_item_at(
    out: &mut String,
    alloc: Global,
    items: &Items<Value>,
    words: &mut Words,
) -> Result<(), CaseStop> {
    let place = read_place(words, items.len())?;
    push_value(out, alloc, items.at(place))?;
    Ok(())
}

/// One change of a list: `push VALUE`, `set PLACE VALUE`, `at PLACE` or `pop`.
fn change_items(
    out: &mut String,
    alloc: Global,
    items: &mut Items<Value>,
    words: &mut Words,
) -> Result<(), CaseStop> {
    match words.word()? {
        b"push" => push_item(items, words),
        b"set" => set_item(items, words),
        b"at" => push_item_at(out, alloc, items, words),
        b"pop" => push_popped(out, alloc, items.pop()),
        _ => Err(CaseStop::NoCase),
    }
}

/// All changes up to the end of the line.
fn change_all_items(
    out: &mut String,
    alloc: Global,
    items: &mut Items<Value>,
    words: &mut Words,
) -> Result<(), CaseStop> {
    for _ in 0..u64::MAX {
        if words.is_done() {
            break;
        }
        change_items(out, alloc, items, words)?;
    }
    Ok(())
}

/// So many values, taken from the end of a list.
fn push_all_popped(
    out: &mut String,
    alloc: Global,
    items: &mut Items<Value>,
    count: usize,
) -> Result<(), CaseStop> {
    out.push_str(" from the end")?;
    for _ in 0..count {
        push_popped(out, alloc, items.pop())?;
    }
    Ok(())
}

/// The values of the copy of a list, last first.
fn push_items_copy(out: &mut String, alloc: Global, items: &Items<Value>) -> Result<(), CaseStop> {
    let mut copy = Items::from_vec(items.copy(alloc)?.into_vec());
    push_all_popped(out, alloc, &mut copy, items.len())
}

/// The length of a list, its values, and those of its copy, last first.
fn push_items(
    out: &mut String,
    alloc: Global,
    items: &Items<Value>,
    len: i64,
) -> Result<(), CaseStop> {
    push_len(out, alloc, items.is_empty(), len)?;
    push_each(out, alloc, items.iter())?;
    push_items_copy(out, alloc, items)
}

/// Changes of a list that begins empty; then its length, its values, and those of its copy, last first.
pub fn items_case(out: &mut String, alloc: Global, words: &mut Words) -> Result<(), CaseStop> {
    let mut items = Items::with_capacity(alloc, 2)?;
    change_all_items(out, alloc, &mut items, words)?;
    push_items(out, alloc, &items, items.len() as i64)
}

/// `VALUE`, put behind the others.
fn push_roomy(list: &mut RoomyList<Value>, words: &mut Words) -> Result<(), CaseStop> {
    list.reserve(1)?;
    list.push(words.value()?);
    Ok(())
}

/// `PLACE VALUE`, put before the value of that place.
fn insert_roomy(list: &mut RoomyList<Value>, words: &mut Words) -> Result<(), CaseStop> {
    list.reserve(1)?;
    let place = read_place(words, list.len())?;
    list.insert(place, words.value()?);
    Ok(())
}

/// `PLACE VALUE`: shows the value that was there.
fn replace_roomy(
    out: &mut String,
    alloc: Global,
    list: &mut RoomyList<Value>,
    words: &mut Words,
) -> Result<(), CaseStop> {
    let place = read_place(words, list.len())?;
    let value = list.replace(place, words.value()?);
    push_value(out, alloc, &value)?;
    Ok(())
}

/// `PLACE`: shows the value that was there.
fn remove_roomy(
    out: &mut String,
    alloc: Global,
    list: &mut RoomyList<Value>,
    words: &mut Words,
) -> Result<(), CaseStop> {
    let place = read_place(words, list.len())?;
    push_value(out, alloc, &list.remove(place))?;
    Ok(())
}

/// One change of a list with room: `push VALUE`, `insert PLACE VALUE`, `replace PLACE VALUE`, `remove PLACE` or `pop`.
fn change_roomy(
    out: &mut String,
    alloc: Global,
    list: &mut RoomyList<Value>,
    kind: &[u8],
    words: &mut Words,
) -> Result<(), CaseStop> {
    match kind {
        b"push" => push_roomy(list, words),
        b"insert" => insert_roomy(list, words),
        b"replace" => replace_roomy(out, alloc, list, words),
        b"remove" => remove_roomy(out, alloc, list, words),
        b"pop" => push_popped(out, alloc, list.pop()),
        _ => Err(CaseStop::NoCase),
    }
}

/// All changes up to the end of the line.
fn change_all_roomy(
    out: &mut String,
    alloc: Global,
    list: &mut RoomyList<Value>,
    words: &mut Words,
) -> Result<(), CaseStop> {
    for _ in 0..u64::MAX {
        if words.is_done() {
            break;
        }
        let kind = words.word()?;
        change_roomy(out, alloc, list, kind, words)?;
    }
    Ok(())
}

/// The length of a list with room, and its values twice.
fn push_roomy_list(
    out: &mut String,
    alloc: Global,
    list: &RoomyList<Value>,
    len: i64,
) -> Result<(), CaseStop> {
    push_len(out, alloc, list.is_empty(), len)?;
    push_values(out, alloc, list.as_slice())?;
    push_each(out, alloc, list.iter())
}

/// Changes of a list with room that begins empty; then its length and its values.
pub fn roomy_case(out: &mut String, alloc: Global, words: &mut Words) -> Result<(), CaseStop> {
    let mut list = RoomyList::with_room(alloc, 1)?;
    change_all_roomy(out, alloc, &mut list, words)?;
    push_roomy_list(out, alloc, &list, list.len() as i64)
}

/// The first value of a shared list, if it has one.
fn push_first(out: &mut String, alloc: Global, list: &Shared<Value>) -> Result<(), CaseStop> {
    if list.len() > 0 {
        push_value(out, alloc, list.at(0))?;
    }
    Ok(())
}

/// The length of a list that two share, its values as both see them, and the first of them.
fn push_shared(
    out: &mut String,
    alloc: Global,
    owners: (&Shared<Value>, &Shared<Value>),
    len: i64,
) -> Result<(), CaseStop> {
    let (second, third) = owners;
    push_len(out, alloc, second.is_empty(), len)?;
    push_values(out, alloc, second.as_slice())?;
    push_each(out, alloc, third.iter())?;
    push_first(out, alloc, second)
}

/// A second and a third owner of a list, of which the first goes.
fn share(alloc: Global, first: Shared<Value>) -> Result<(Shared<Value>, Shared<Value>), CaseStop> {
    Ok((first.share()?, first.copy(alloc)?))
}

/// A list with three owners, of which the first goes: its values as the others see them.
pub fn shared_case(out: &mut String, alloc: Global, words: &mut Words) -> Result<(), CaseStop> {
    let values = words.values(alloc)?.into_vec();
    let (second, third) = share(alloc, Shared::new(alloc, values)?)?;
    push_shared(out, alloc, (&second, &third), second.len() as i64)
}
