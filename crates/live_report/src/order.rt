//! The turns of a part as one line of JSON.
ghost use Rattle.std.specs.Prelude.{◌≡◌, ◌++◌, map, IfOk, OnOk};
ghost use Rattle.serde_json.specs.Data.{string};
ghost use Rattle.serde_json.specs.View.{view};
ghost use Rattle.live_report.specs.PartTexts.{turn_text, part_data, order_line};

use crate::turns::{MOST_TURN, put_turn};
use live_laws::LiveTurn;
use rep_lists::NoMemory;
use rep_values::SiteName;
use report_text::Lines;
use serde_json::{Value, json};
use std::alloc::Global;

/// Bytes as a text of JSON. Those that are no UTF-8 are answered as want of memory: names and numbers are ASCII, so none come.
fn text_of(alloc: Global, bytes: &[u8]) -> Result<Value, NoMemory>
    ensures { IfOk result (λ value. view value ≡ string bytes.now) }
{
    let Ok(text) = str::from_utf8(bytes) else {
        return Err(NoMemory);
    };
    Ok(Value::try_from_str(alloc, text)?)
}

/// The text of a turn.
fn turn_of(alloc: Global, turn: &LiveTurn) -> Result<Value, NoMemory>
    ensures { IfOk result (λ value. view value ≡ string (turn_text turn.now)) }
{
    let mut lines = Lines::make(alloc);
    lines.reserve(MOST_TURN)?;
    put_turn(&mut lines, turn);
    let bytes = lines.bytes();
    text_of(alloc, &bytes[..bytes.len() - 1])
}

/// The texts of turns in their order.
fn texts_of(alloc: Global, turns: &[LiveTurn]) -> Result<Vec<Value>, NoMemory>
    ensures { IfOk result (λ texts. map view texts.items ≡ map (λ turn. string (turn_text turn)) turns.now) }
{
    let mut texts = Vec::new(alloc);
    for turn in turns {
        texts.push(turn_of(alloc, turn)?)?;
    }
    Ok(texts)
}

/// An object with the texts of the turns as `order`, and the name as `site`.
fn part_of(alloc: Global, site: &SiteName, turns: &[LiveTurn]) -> Result<Value, NoMemory>
    ensures { IfOk result (λ part. view part ≡ part_data site.now turns.now) }
{
    let order = texts_of(alloc, turns)?;
    let name = text_of(alloc, site.0.bytes())?;
    let part = json!(in alloc; {"order": order, "site": name})?;
    Ok(part)
}

/// The line of that object.
pub(crate) fn add_order(
    alloc: Global,
    lines: &mut Lines,
    site: &SiteName,
    turns: &[LiveTurn],
) -> Result<(), NoMemory>
    ensures { OnOk result (lines.new.bytes ≡ lines.old.bytes ++ order_line site.now turns.now) }
{
    let part = part_of(alloc, site, turns)?;
    lines.add(&part.to_vec(alloc)?)?;
    lines.add(b"\n")?;
    Ok(())
}
