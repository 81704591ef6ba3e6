//! Tests of the column at a place.
ghost use Rattle.std.specs.Prelude.{◌≡◌};
ghost use Rattle.rep_schema.specs.Kinds.{is_number, is_text, is_stamp, is_site_kind, is_time, takes_amounts, is_plain, has_kind};

use rep_schema::{Column, kind_at};

pub(crate) fn is_number_at(columns: &[Column], place: u32) -> bool
    ensures { result ≡ has_kind is_number columns.now place }
{
    kind_at(columns, place).is_some_and(|kind| kind.is_number())
}

pub(crate) fn is_text_at(columns: &[Column], place: u32) -> bool
    ensures { result ≡ has_kind is_text columns.now place }
{
    kind_at(columns, place).is_some_and(|kind| kind.is_text())
}

pub(crate) fn is_stamp_at(columns: &[Column], place: u32) -> bool
    ensures { result ≡ has_kind is_stamp columns.now place }
{
    kind_at(columns, place).is_some_and(|kind| kind.is_stamp())
}

pub(crate) fn is_site_at(columns: &[Column], place: u32) -> bool
    ensures { result ≡ has_kind is_site_kind columns.now place }
{
    kind_at(columns, place).is_some_and(|kind| kind.is_site_kind())
}

/// Whether the column at a place is a DATE or a STAMP.
pub(crate) fn is_time_at(columns: &[Column], place: u32) -> bool
    ensures { result ≡ has_kind is_time columns.now place }
{
    kind_at(columns, place).is_some_and(|kind| kind.is_time())
}

/// Whether the column at a place is a NUMBER or a DATE.
pub(crate) fn is_amount_at(columns: &[Column], place: u32) -> bool
    ensures { result ≡ has_kind takes_amounts columns.now place }
{
    kind_at(columns, place).is_some_and(|kind| kind.takes_amounts())
}

/// Whether the column at a place is a NUMBER, TEXT or DATE.
pub(crate) fn is_plain_at(columns: &[Column], place: u32) -> bool
    ensures { result ≡ has_kind is_plain columns.now place }
{
    kind_at(columns, place).is_some_and(|kind| kind.is_plain())
}
