//! The columns of a table that goes by an order.
ghost use Rattle.std.specs.Prelude.{◌≡◌, ◌<◌};
ghost use Rattle.std.specs.Ordering.{ordering_index};

use std::cmp::Ordering;

/// The column for an order where the columns are below, equal and above: 0 to 2.
pub fn order_column(order: Ordering) -> usize
    ensures value { result ≡ ordering_index order }
    ensures below { result < 3 }
{
    match order {
        Ordering::Less => 0,
        Ordering::Equal => 1,
        Ordering::Greater => 2,
    }
}
