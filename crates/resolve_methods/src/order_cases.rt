//! What the methods decide that go by an order, or by nothing at all.
ghost use Rattle.std.specs.Prelude.{◌≡◌};
ghost use Rattle.resolve_methods.specs.Decide.{by_order};
ghost use Rattle.resolve_methods.specs.OrderCases.{row_of, decision_in, decided_at};

use crate::Decision;
use case_table::{CaseTable, cases, order_column};
use std::cmp::Ordering;

const KEEP: u8 = 0;

const UNDECIDED: u8 = 1;

const TAKE_NEW: u8 = 2;

const CASES: CaseTable<8, 3> = cases! {
    latest: KEEP UNDECIDED TAKE_NEW;
    earliest: TAKE_NEW UNDECIDED KEEP;
    maximum: KEEP UNDECIDED TAKE_NEW;
    minimum: TAKE_NEW UNDECIDED KEEP;
    priority: KEEP UNDECIDED TAKE_NEW;
    site_priority: KEEP UNDECIDED TAKE_NEW;
    overwrite: TAKE_NEW TAKE_NEW TAKE_NEW;
    discard: KEEP KEEP KEEP;
};

/// The methods that go by an order or by none, as rows of the table of cases.
#[derive(Clone, Copy)]
pub(crate) enum OrderMethod {
    Latest,
    Earliest,
    Maximum,
    Minimum,
    Priority,
    SitePriority,
    Overwrite,
    Discard,
}

fn row_of(method: OrderMethod) -> usize
    ensures { result ≡ row_of method }
{
    match method {
        OrderMethod::Latest => 0,
        OrderMethod::Earliest => 1,
        OrderMethod::Maximum => 2,
        OrderMethod::Minimum => 3,
        OrderMethod::Priority => 4,
        OrderMethod::SitePriority => 5,
        OrderMethod::Overwrite => 6,
        OrderMethod::Discard => 7,
    }
}

fn decision_in(cell: u8) -> Decision
    ensures { result ≡ decision_in cell }
{
    match cell {
        KEEP => Decision::Keep,
        TAKE_NEW => Decision::TakeNew,
        _ => Decision::Undecided,
    }
}

/// What a method decides where the new number or level stands so beside the current one.
pub(crate) fn decided_at(method: OrderMethod, order: Ordering) -> Decision
    ensures { result ≡ decided_at method order }
{
    decision_in(CASES.at(row_of(method), order_column(order)))
}

/// What a method decides of a new and a current number or level; undecided where one of them isn't there.
pub(crate) fn by_order(method: OrderMethod, new: Option<i64>, current: Option<i64>) -> Decision
    ensures { result ≡ by_order (decided_at method) new current }
{
    match (new, current) {
        (Some(new), Some(current)) => decided_at(method, new.cmp(&current)),
        (None, _) | (Some(_), None) => Decision::Undecided,
    }
}
