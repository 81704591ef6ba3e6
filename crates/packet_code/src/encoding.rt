//! The bytes of a packet, one piece behind the other.
ghost use Rattle.std.specs.Prelude.{◌≡◌, ◌≤◌, ◌<◌, ◌∷◌, ◌++◌, List, length, IfOk, OnOk};
ghost use Rattle.std.specs.Int.{w16, w32, w64, to_be_bytes};
ghost use Rattle.std.specs.List.{AllByRecursion, flat_map};
ghost use Rattle.packet_code.specs.Limits.{IsPlainPart, ArePlainParts, IsPlainTable, IsPlainCall, IsPlainTxn, IsSiteName, IsCausalPast, IsPacket};
ghost use Rattle.rep_values.specs.declared.value.Value.TheVariants.{Num};
ghost use Rattle.rep_calls.specs.declared.call.Txn.{Txn as TxnValue};
ghost use Rattle.rep_calls.specs.declared.past.PastEntry.{PastEntry as PastValue};
ghost use Rattle.packet_code.specs.declared.packet.Packet.TheVariants.{Mark};
ghost use Rattle.packet_code.specs.Texts.{TxnHasTextForm, PastHasForm};
ghost use Rattle.packet_code.specs.Spelling.{name_bytes, value_bytes, values_bytes, part_bytes, parts_bytes, call_bytes, txn_bytes, past_entry_bytes, past_bytes, packet_bytes, IsEncoding};
ghost use Rattle.packet_code.specs.Route.{carried};
ghost use Rattle.packet_code.specs.Bodies.{IsBody, CanSeal};
ghost use Rattle.rep_values.specs.Number.{IsRowLen};

use crate::limits::is_plain_txn;
use crate::room::{past_room, txn_room};
use crate::{Packet, Route};
use rep_calls::{Call, Part, PastEntry, Txn};
use rep_lists::NoMemory;
use rep_values::{SiteName, Value};
use std::alloc::Global;

/// The bytes in front of the calls of a transaction without a past between sites whose names have 30 bytes.
const HEAD_ROOM: usize = 93;

/// The count of a past, and of the calls of a transaction.
const COUNTS_ROOM: usize = 5;

/// Its eight bytes.
fn push_number(out: &mut Vec<u8>, number: u64) -> Result<(), NoMemory>
    ensures { OnOk result (out.new.items ≡ out.old.items ++ to_be_bytes w64 number) }
{
    out.extend_from_slice(&number.to_be_bytes())?;
    Ok(())
}

/// The kind of a call, and the number of its table in two bytes.
fn push_kind(out: &mut Vec<u8>, kind: u8, table: u32) -> Result<(), NoMemory>
    requires { IsPlainTable table }
    ensures { OnOk result (out.new.items ≡ out.old.items ++ kind ∷ to_be_bytes w16 table) }
{
    let mut bytes = [kind; 3];
    bytes[1..].copy_from_slice(&(table as u16).to_be_bytes());
    out.extend_from_slice(&bytes)?;
    Ok(())
}

/// A name has the form of one, whatever it is.
fn push_name(out: &mut Vec<u8>, site: &SiteName) -> Result<(), NoMemory>
    ensures bytes { OnOk result (out.new.items ≡ out.old.items ++ name_bytes site.now) }
    ensures form { IsSiteName site.now }
{
    let bytes = site.0.bytes();
    out.push(bytes.len() as u8)?;
    out.extend_from_slice(bytes)?;
    Ok(())
}

/// 1, and its eight bytes.
fn push_number_value(out: &mut Vec<u8>, number: i64) -> Result<(), NoMemory>
    ensures { OnOk result (out.new.items ≡ out.old.items ++ value_bytes (Num number)) }
{
    let mut bytes = [1; 9];
    bytes[1..].copy_from_slice(&number.cast_unsigned().to_be_bytes());
    out.extend_from_slice(&bytes)?;
    Ok(())
}

fn push_value(out: &mut Vec<u8>, value: &Value) -> Result<(), NoMemory>
    ensures { OnOk result (out.new.items ≡ out.old.items ++ value_bytes value.now) }
{
    match value {
        Value::Num(number) => push_number_value(out, *number),
        Value::Words(text) => {
            let bytes = text.bytes();
            out.extend_from_slice(&[2, bytes.len() as u8])?;
            out.extend_from_slice(bytes)?;
            Ok(())
        }
    }
}

#[inline(always)]
fn push_each_value(out: &mut Vec<u8>, values: &[Value]) -> Result<(), NoMemory>
    ensures { OnOk result (out.new.items ≡ out.old.items ++ flat_map value_bytes values.now) }
{
    for value in values {
        push_value(out, value)?;
    }
    Ok(())
}

fn push_values(out: &mut Vec<u8>, values: &[Value]) -> Result<(), NoMemory>
    requires { IsRowLen (length values.now) }
    ensures { OnOk result (out.new.items ≡ out.old.items ++ values_bytes values.now) }
{
    out.push(values.len() as u8)?;
    push_each_value(out, values)
}

fn push_part(out: &mut Vec<u8>, part: &Part) -> Result<(), NoMemory>
    requires { IsPlainPart part.now }
    ensures { OnOk result (out.new.items ≡ out.old.items ++ part_bytes part.now) }
{
    out.push(part.group)?;
    push_values(out, part.old.as_slice())?;
    push_each_value(out, part.new.as_slice())
}

fn push_each_part(out: &mut Vec<u8>, parts: &[Part]) -> Result<(), NoMemory>
    requires { AllByRecursion IsPlainPart parts.now }
    ensures { OnOk result (out.new.items ≡ out.old.items ++ flat_map part_bytes parts.now) }
{
    for part in parts {
        push_part(out, part)?;
    }
    Ok(())
}

fn push_parts(out: &mut Vec<u8>, parts: &[Part]) -> Result<(), NoMemory>
    requires { ArePlainParts parts.now }
    ensures { OnOk result (out.new.items ≡ out.old.items ++ parts_bytes parts.now) }
{
    out.push(parts.len() as u8)?;
    push_each_part(out, parts)
}

fn push_call(out: &mut Vec<u8>, call: &Call) -> Result<(), NoMemory>
    requires { IsPlainCall call.now }
    ensures { OnOk result (out.new.items ≡ out.old.items ++ call_bytes call.now) }
{
    match call {
        Call::Insert { table, row } => {
            push_kind(out, 1, *table)?;
            push_values(out, row.values())
        }
        Call::Update { table, key, parts } => {
            push_kind(out, 2, *table)?;
            push_values(out, key.values())?;
            push_parts(out, parts.as_slice())
        }
        Call::Delete { table, row } => {
            push_kind(out, 3, *table)?;
            push_values(out, row.values())
        }
    }
}

fn push_each_call(out: &mut Vec<u8>, calls: &[Call]) -> Result<(), NoMemory>
    requires { AllByRecursion IsPlainCall calls.now }
    ensures { OnOk result (out.new.items ≡ out.old.items ++ flat_map call_bytes calls.now) }
{
    for call in calls {
        push_call(out, call)?;
    }
    Ok(())
}

fn push_txn(out: &mut Vec<u8>, txn: &Txn) -> Result<(), NoMemory>
    requires { IsPlainTxn txn.now }
    ensures { OnOk result (out.new.items ≡ out.old.items ++ txn_bytes txn.now) }
{
    out.extend_from_slice(&(txn.calls.len() as u32).to_be_bytes())?;
    push_each_call(out, txn.calls.as_slice())
}

/// The version, what the packet is, and its sites.
fn push_head(out: &mut Vec<u8>, kind: u8, from: &SiteName, to: &SiteName) -> Result<(), NoMemory>
    ensures head { OnOk result (out.new.items ≡ out.old.items ++ 2 ∷ kind ∷ name_bytes from.now ++ name_bytes to.now) }
    ensures from { OnOk result (IsSiteName from.now) }
    ensures to { OnOk result (IsSiteName to.now) }
{
    out.extend_from_slice(&[2, kind])?;
    push_name(out, from)?;
    push_name(out, to)
}

fn push_past_entry(out: &mut Vec<u8>, seen: &PastEntry) -> Result<(), NoMemory>
    ensures { OnOk result (out.new.items ≡ out.old.items ++ past_entry_bytes seen.now) }
{
    push_name(out, &seen.origin)?;
    push_number(out, seen.number)
}

fn push_each_past_entry(out: &mut Vec<u8>, past: &[PastEntry]) -> Result<(), NoMemory>
    ensures { OnOk result (out.new.items ≡ out.old.items ++ flat_map past_entry_bytes past.now) }
{
    for seen in past {
        push_past_entry(out, seen)?;
    }
    Ok(())
}

fn push_past(out: &mut Vec<u8>, past: &[PastEntry]) -> Result<(), NoMemory>
    requires { length past.now ≤ 7 }
    ensures { OnOk result (out.new.items ≡ out.old.items ++ past_bytes past.now) }
{
    out.push(past.len() as u8)?;
    push_each_past_entry(out, past)
}

/// The bytes of a packet that carries a transaction.
pub(crate) fn carry_bytes(
    alloc: Global,
    route: &Route,
    past: &[PastEntry],
    txn: &Txn,
) -> Result<Vec<u8>, NoMemory>
    requires from_one { 1 ≤ route.now.number }
    requires earlier { route.now.dep < route.now.position }
    requires seen { PastHasForm past.now → IsCausalPast route.now.from past.now }
    requires plain { TxnHasTextForm txn.now → IsPlainTxn txn.now }
    ensures { IfOk result (λ bytes. IsEncoding bytes.items (carried route.now past.now txn.now)) }
{
    let room = txn_room(txn)
        .saturating_add(past_room(past))
        .saturating_add(HEAD_ROOM);
    let mut out = Vec::with_capacity(alloc, room)?;
    push_head(&mut out, 1, &route.from, &route.to)?;
    push_number(&mut out, route.number)?;
    push_number(&mut out, route.position)?;
    push_number(&mut out, route.dep)?;
    push_past(&mut out, past)?;
    push_txn(&mut out, txn)?;
    Ok(out)
}

/// A past and a transaction, where they are within their limits.
fn push_body(out: &mut Vec<u8>, past: &[PastEntry], txn: &Txn) -> Result<(), NoMemory>
    ensures { OnOk result (IsPlainTxn txn.now → length past.now ≤ 7 → out.new.items ≡ out.old.items ++ past_bytes past.now ++ txn_bytes txn.now) }
{
    if past.len() > 7 || !is_plain_txn(txn) {
        return Ok(());
    }
    push_past(out, past)?;
    push_txn(out, txn)
}

/// The bytes of what a packet carries behind its head.
pub(crate) fn body_bytes(alloc: Global, past: &[PastEntry], txn: &Txn) -> Result<Vec<u8>, NoMemory>
    ensures { IfOk result (λ bytes. IsBody past.now txn.now bytes.items) }
{
    let room = txn_room(txn)
        .saturating_add(past_room(past))
        .saturating_add(COUNTS_ROOM);
    let mut out = Vec::with_capacity(alloc, room)?;
    push_body(&mut out, past, txn)?;
    Ok(out)
}

/// The bytes of a packet that carries what was encoded before.
pub(crate) fn loaded_bytes(alloc: Global, route: &Route, body: &[u8]) -> Result<Vec<u8>, NoMemory>
    requires from_one { 1 ≤ route.now.number }
    requires earlier { route.now.dep < route.now.position }
    ensures { (past : List PastValue) (txn : TxnValue) → CanSeal route.now past txn body.now
        → IfOk result (λ bytes. IsEncoding bytes.items (carried route.now past txn)) }
{
    let mut out = Vec::with_capacity(alloc, body.len().saturating_add(HEAD_ROOM))?;
    push_head(&mut out, 1, &route.from, &route.to)?;
    push_number(&mut out, route.number)?;
    push_number(&mut out, route.position)?;
    push_number(&mut out, route.dep)?;
    out.extend_from_slice(body)?;
    Ok(out)
}

/// The bytes of a mark.
pub(crate) fn mark_bytes(
    alloc: Global,
    from: &SiteName,
    to: &SiteName,
    mark: u64,
) -> Result<Vec<u8>, NoMemory>
    ensures { IfOk result (λ bytes. IsEncoding bytes.items (Mark from.now to.now mark)) }
{
    let mut out = Vec::with_capacity(alloc, HEAD_ROOM)?;
    push_head(&mut out, 2, from, to)?;
    push_number(&mut out, mark)?;
    Ok(out)
}

/// The bytes of a packet, version 2.
pub fn encode(alloc: Global, packet: &Packet) -> Result<Vec<u8>, NoMemory>
    requires { IsPacket packet.now }
    ensures { IfOk result (λ bytes. bytes.items ≡ packet_bytes packet.now) }
{
    match packet {
        Packet::Carry {
            from,
            to,
            number,
            position,
            dep,
            past,
            txn,
        } => {
            let route = Route {
                from: *from,
                to: *to,
                number: *number,
                position: *position,
                dep: *dep,
            };
            carry_bytes(alloc, &route, past.as_slice(), txn)
        }
        Packet::Mark { from, to, mark } => mark_bytes(alloc, from, to, *mark),
    }
}
