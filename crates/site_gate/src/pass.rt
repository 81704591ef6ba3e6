//! What a thread knows of a gate, outside a turn and in it.
ghost use Rattle.std.specs.Prelude.{◌≡◌, [], true, is_some};
ghost use Rattle.site_gate.specs.Views.{empty_handed};
ghost use Rattle.site_gate.specs.declared.view.Stage.TheVariants.{Outside, Inside};

use crate::turns::Turns;
use crate::view::View;
use atomic_table::Seat;
use std::snapshot::Snapshot;

/// The right to enter a gate, and what was seen there. It has no bytes.
#[derive(Drop)]
pub struct Pass<T: Turns> {
    pub(crate) seat: Seat<Option<T>, View<T::Turn, T::Opening>>,
    ghost outside: { seat.me.0.stage ≡ Outside },
    ghost empty: { seat.me.1 ≡ [] },
    ghost opened: { is_some seat.me.0.opening ≡ true },
}

/// A turn at a gate, with the value. It ends by `leave`; one that is dropped keeps the gate shut.
#[derive(Drop)]
pub struct Turn<T: Turns> {
    pub value: T,
    pub(crate) seat: Seat<Option<T>, View<T::Turn, T::Opening>>,
    pub(crate) ticket: Snapshot<u64>,
    ghost inside: { seat.me.0.stage ≡ Inside ticket.value },
    ghost out: { seat.me.1 ≡ empty_handed },
}
