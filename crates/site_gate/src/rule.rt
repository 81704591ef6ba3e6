//! The rule of the gate's table.

use crate::turns::Turns;
use crate::view::View;
use atomic_table::TableRule;
use std::marker::PhantomData;
use std::snapshot::Snapshot;

/// Word 0 counts the turns that were made, word 1 is the next ticket, and the value is in the one slot.
pub struct GateRule<T> {
    value: PhantomData<T>,
}

impl<T: Turns> TableRule<Option<T>, View<T::Turn, T::Opening>, Snapshot<T>> for GateRule<T> {
    ghost use Rattle.site_gate.specs.Rule.{IsKept};
    ghost use Rattle.site_gate.specs.Views.{first_view};

    ghost holds = { λ _. IsKept T.history T.opening };

    ghost first = { λ key. first_view (T.opening key.value) };
}
