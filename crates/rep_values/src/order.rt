//! The order of values, of keys and of names.
ghost use Rattle.std.specs.Prelude.{◌≡◌, ◌↔◌, IsTrue};
ghost use Rattle.std.specs.Cmp.{IsTotalOrder};
ghost use Rattle.rep_values.specs.Order.{value_cmp, key_cmp, name_cmp, TellsApart};

use crate::{Key, Name, Value};
use std::cmp::Ordering;

/// Numbers by size, texts by bytes with a proper prefix first, a number before a text.
pub fn compare_values(a: &Value, b: &Value) -> Ordering
    ensures { result ≡ value_cmp a.now b.now }
{
    a.cmp(b)
}

/// Value by value; a proper prefix of a key comes first. It takes no memory.
pub fn compare_keys(a: &Key, b: &Key) -> Ordering
    ensures { result ≡ key_cmp a.now b.now }
{
    a.values().cmp(b.values())
}

/// The order of keys is total, and keys that compare equal are the same.
pub fn key_order_laws()
    ensures total { IsTotalOrder key_cmp }
    ensures exact { TellsApart key_cmp }
{}

/// Byte by byte; a proper prefix of a name comes first. It takes no memory.
pub fn compare_names(a: &Name, b: &Name) -> Ordering
    ensures { result ≡ name_cmp a.now b.now }
{
    a.cmp(b)
}

/// The order of names is total, and names that compare equal are the same.
pub fn name_order_laws()
    ensures total { IsTotalOrder name_cmp }
    ensures exact { TellsApart name_cmp }
{}

/// Whether two lists have the same values, place by place.
pub fn same_values(a: &[Value], b: &[Value]) -> bool
    ensures { IsTrue result ↔ (a.now ≡ b.now) }
{
    a == b
}

/// Whether two values are the same.
pub fn same_value(a: &Value, b: &Value) -> bool
    ensures { IsTrue result ↔ (a.now ≡ b.now) }
{
    a == b
}
