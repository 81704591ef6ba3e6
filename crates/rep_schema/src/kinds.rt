//! The kinds of columns.
ghost use Rattle.std.specs.Prelude.{◌≡◌};
ghost use Rattle.rep_schema.specs.Kinds.{is_number, is_text, is_stamp, is_site_kind, is_time, is_plain, takes_numbers, takes_amounts, is_filled, is_of_kind, kind_at, is_key_at, value_in_range, row_in_range};

use crate::{Column, Kind, is_in_range};
use rep_values::{Literal, Value};

impl Kind {
    /// Whether it is NUMBER.
    pub fn is_number(self) -> bool
        ensures { result ≡ is_number self }
    {
        match self {
            Kind::Number => true,
            Kind::Words | Kind::Date | Kind::Stamp | Kind::Site => false,
        }
    }

    /// Whether it is TEXT.
    pub fn is_text(self) -> bool
        ensures { result ≡ is_text self }
    {
        match self {
            Kind::Words => true,
            Kind::Number | Kind::Date | Kind::Stamp | Kind::Site => false,
        }
    }

    /// Whether it is STAMP.
    pub fn is_stamp(self) -> bool
        ensures { result ≡ is_stamp self }
    {
        match self {
            Kind::Stamp => true,
            Kind::Number | Kind::Words | Kind::Date | Kind::Site => false,
        }
    }

    /// Whether it is SITE.
    pub fn is_site_kind(self) -> bool
        ensures { result ≡ is_site_kind self }
    {
        match self {
            Kind::Site => true,
            Kind::Number | Kind::Words | Kind::Date | Kind::Stamp => false,
        }
    }

    /// Whether it is DATE or STAMP.
    pub fn is_time(self) -> bool
        ensures { result ≡ is_time self }
    {
        match self {
            Kind::Date | Kind::Stamp => true,
            Kind::Number | Kind::Words | Kind::Site => false,
        }
    }

    /// Whether it is NUMBER, TEXT or DATE.
    pub fn is_plain(self) -> bool
        ensures { result ≡ is_plain self }
    {
        match self {
            Kind::Number | Kind::Words | Kind::Date => true,
            Kind::Stamp | Kind::Site => false,
        }
    }

    /// Whether its values are numbers; those of the others are texts.
    pub fn takes_numbers(self) -> bool
        ensures { result ≡ takes_numbers self }
    {
        match self {
            Kind::Number | Kind::Date | Kind::Stamp => true,
            Kind::Words | Kind::Site => false,
        }
    }

    /// Whether an amount can be added in it: NUMBER and DATE.
    pub fn takes_amounts(self) -> bool
        ensures { result ≡ takes_amounts self }
    {
        match self {
            Kind::Number | Kind::Date => true,
            Kind::Words | Kind::Stamp | Kind::Site => false,
        }
    }
}

impl Column {
    /// Whether the site fills it: a STAMP, or a SITE outside the key. A script never writes it.
    pub fn is_filled(&self) -> bool
        ensures { result ≡ is_filled self.now }
    {
        self.kind.is_stamp() || (self.kind.is_site_kind() && !self.key)
    }
}

/// The kind of the column at a place.
pub fn kind_at(columns: &[Column], place: u32) -> Option<Kind>
    ensures { result ≡ kind_at columns.now place }
{
    match columns.get(place as usize) {
        None => None,
        Some(column) => Some(column.kind),
    }
}

/// Whether there is a key column at a place.
pub fn is_key_at(columns: &[Column], place: u32) -> bool
    ensures { result ≡ is_key_at columns.now place }
{
    match columns.get(place as usize) {
        None => false,
        Some(column) => column.key,
    }
}

/// Whether a literal is of a column's kind. Its range is not tested.
pub fn is_of_kind(kind: Kind, literal: &Literal) -> bool
    ensures { result ≡ is_of_kind kind literal.now }
{
    match literal {
        Literal::Num(_) => kind.takes_numbers(),
        Literal::Words(_) => !kind.takes_numbers(),
    }
}

/// Whether a number lies within ±10^15; a text always passes.
pub fn value_in_range(value: &Value) -> bool
    ensures { result ≡ value_in_range value.now }
{
    match value {
        Value::Num(number) => is_in_range(*number),
        Value::Words(_) => true,
    }
}

/// Whether each number of a row lies within ±10^15.
pub fn row_in_range(values: &[Value]) -> bool
    ensures { result ≡ row_in_range values.now }
{
    values.iter().all(|value| value_in_range(value))
}
