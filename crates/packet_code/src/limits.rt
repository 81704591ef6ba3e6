//! The test of the limits on a packet.
ghost use Rattle.std.specs.Prelude.{◌≡◌, ◌↔◌, true, IsTrue};
ghost use Rattle.std.specs.List.{AllByRecursion};
ghost use Rattle.packet_code.specs.Forms.{groups_rise, are_others, names_rise};
ghost use Rattle.packet_code.specs.Limits.{IsPlainValue, IsPlainRow, IsPlainKey, is_group_number, IsPlainPart, ArePlainParts, IsPlainTable, IsPlainCall, IsPlainTxn, IsPlace, IsSiteName, IsPastEntry, IsCausalPast, IsPacket};

use crate::Packet;
use rep_calls::{Call, Part, PastEntry, Txn};
use rep_schema::{SHADOW, is_in_range};
use rep_values::{SiteName, Value, compare_names, same_values};

/// A text has the form of one, whatever it is.
fn is_plain_value(value: &Value) -> bool
    ensures { IsTrue result ↔ IsPlainValue value.now }
{
    match value {
        Value::Num(number) => is_in_range(*number),
        Value::Words(text) => text.bytes().len() <= 64,
    }
}

fn are_plain_values(values: &[Value]) -> bool
    ensures { IsTrue result ↔ AllByRecursion IsPlainValue values.now }
{
    for value in values {
        if !is_plain_value(value) {
            return false;
        }
    }
    true
}

fn is_plain_row(row: &[Value]) -> bool
    ensures { IsTrue result ↔ IsPlainRow row.now }
{
    1 <= row.len() && row.len() <= 32 && are_plain_values(row)
}

fn is_plain_key(key: &[Value]) -> bool
    ensures { IsTrue result ↔ IsPlainKey key.now }
{
    1 <= key.len() && key.len() <= 4 && are_plain_values(key)
}

/// Whether it is the number of a named group or of the shadow group.
pub(crate) fn is_group_number(group: u8) -> bool
    ensures { result ≡ is_group_number group }
{
    group <= 31 || group == SHADOW
}

fn is_plain_part(part: &Part) -> bool
    ensures { IsTrue result ↔ IsPlainPart part.now }
{
    let old = part.old.as_slice();
    let new = part.new.as_slice();
    is_group_number(part.group)
        && is_plain_row(old)
        && is_plain_row(new)
        && new.len() == old.len()
        && !same_values(old, new)
}

fn is_each_part_plain(parts: &[Part]) -> bool
    ensures { IsTrue result ↔ AllByRecursion IsPlainPart parts.now }
{
    for part in parts {
        if !is_plain_part(part) {
            return false;
        }
    }
    true
}

/// Whether each part's group is above the one before it.
pub(crate) fn groups_rise(parts: &[Part]) -> bool
    ensures { result ≡ groups_rise parts.now }
{
    let Some((first, rest)) = parts.split_first() else {
        return true;
    };
    let mut last = first.group;
    for part in rest {
        if last >= part.group {
            return false;
        }
        last = part.group;
    }
    true
}

#[tactic(auto, using(crate::proofs::CallsExact::rise_test))]
fn are_plain_parts(parts: &[Part]) -> bool
    ensures { IsTrue result ↔ ArePlainParts parts.now }
{
    1 <= parts.len() && parts.len() <= 33 && is_each_part_plain(parts) && groups_rise(parts)
}

fn is_plain_table(table: u32) -> bool
    ensures { IsTrue result ↔ IsPlainTable table }
{
    table < 65_536
}

fn is_plain_call(call: &Call) -> bool
    ensures { IsTrue result ↔ IsPlainCall call.now }
{
    match call {
        Call::Insert { table, row } | Call::Delete { table, row } => {
            is_plain_table(*table) && is_plain_row(row.values())
        }
        Call::Update { table, key, parts } => {
            is_plain_table(*table)
                && is_plain_key(key.values())
                && are_plain_parts(parts.as_slice())
        }
    }
}

fn is_each_call_plain(calls: &[Call]) -> bool
    ensures { IsTrue result ↔ AllByRecursion IsPlainCall calls.now }
{
    for call in calls {
        if !is_plain_call(call) {
            return false;
        }
    }
    true
}

pub(crate) fn is_plain_txn(txn: &Txn) -> bool
    ensures { IsTrue result ↔ IsPlainTxn txn.now }
{
    let calls = txn.calls.as_slice();
    1 <= calls.len() && calls.len() <= 1_000 && is_each_call_plain(calls)
}

fn is_place(number: u64, position: u64, dep: u64) -> bool
    ensures { IsTrue result ↔ IsPlace number position dep }
{
    1 <= number && dep < position
}

/// Whether the name of a site has a byte: its type says the rest.
fn is_named(site: &SiteName) -> bool
    ensures { IsTrue result ↔ IsSiteName site.now }
{
    !site.0.bytes().is_empty()
}

/// Another site than the sender, and a number from 1.
fn is_past_entry(from: &SiteName, seen: &PastEntry) -> bool
    ensures { IsTrue result ↔ IsPastEntry from.now seen.now }
{
    is_named(&seen.origin) && !seen.origin.is_same(from) && 1 <= seen.number
}

fn is_each_past_entry(from: &SiteName, past: &[PastEntry]) -> bool
    ensures { IsTrue result ↔ AllByRecursion (IsPastEntry from.now) past.now }
{
    for seen in past {
        if !is_past_entry(from, seen) {
            return false;
        }
    }
    true
}

/// Whether none of them is this site.
pub(crate) fn are_others(from: &SiteName, past: &[PastEntry]) -> bool
    ensures { result ≡ are_others from.now past.now }
{
    past.iter().all(|seen| !seen.origin.is_same(from))
}

/// Whether each name is above the one before it.
pub(crate) fn names_rise(past: &[PastEntry]) -> bool
    ensures { result ≡ names_rise past.now }
{
    let Some((first, rest)) = past.split_first() else {
        return true;
    };
    let mut last = first;
    for seen in rest {
        if !compare_names(&last.origin.0, &seen.origin.0).is_lt() {
            return false;
        }
        last = seen;
    }
    true
}

#[tactic(auto, using(crate::proofs::PastsExact::names_rise_test))]
fn is_past(from: &SiteName, past: &[PastEntry]) -> bool
    ensures { IsTrue result ↔ IsCausalPast from.now past.now }
{
    past.len() <= 7 && is_each_past_entry(from, past) && names_rise(past)
}

/// Whether a packet is within all limits, so that it has bytes. It takes no memory.
pub fn is_packet(packet: &Packet) -> bool
    ensures { IsTrue result ↔ IsPacket packet.now }
{
    match packet {
        Packet::Carry {
            from,
            to,
            number,
            position,
            dep,
            past,
            txn,
        } => {
            is_named(from)
                && is_named(to)
                && is_place(*number, *position, *dep)
                && is_past(from, past.as_slice())
                && is_plain_txn(txn)
        }
        Packet::Mark { from, to, mark } => { is_named(from) && is_named(to) && *mark <= u64::MAX }
    }
}
