//! What each step on the gate's table tells, and how views are split and joined.
ghost use Rattle.site_gate.specs.Plays.{Draws, Looks, Raises, Meets};
ghost use Rattle.site_gate.specs.Views.{split_view, joined_view, spent_view};

use crate::turns::Turns;
use crate::view::View;
use atomic_table::{Join, Play, Split};
use std::marker::PhantomData;

/// Of the word of tickets, by compare and exchange.
pub(crate) struct Draw<T> {
    value: PhantomData<T>,
}

impl<T: Turns> Play<Option<T>, View<T::Turn, T::Opening>> for Draw<T> {
    ghost then = { Draws T.history T.opening };
}

/// At the number of turns, with a ticket.
pub(crate) struct Look<T> {
    value: PhantomData<T>,
}

impl<T: Turns> Play<Option<T>, View<T::Turn, T::Opening>> for Look<T> {
    ghost then = { Looks T.history T.opening };
}

/// Of the number of turns, with the value put back.
pub(crate) struct Raise<T> {
    value: PhantomData<T>,
}

impl<T: Turns> Play<Option<T>, View<T::Turn, T::Opening>> for Raise<T> {
    ghost then = { Raises T.history T.opening };
}

/// At the number of turns, for what joined passes have seen.
pub(crate) struct Meet<T> {
    value: PhantomData<T>,
}

impl<T: Turns> Play<Option<T>, View<T::Turn, T::Opening>> for Meet<T> {
    ghost then = { Meets T.history T.opening };
}

/// A pass is split off, which owns no turn.
pub(crate) struct SplitOff;

impl<U, O> Split<View<U, O>> for SplitOff {
    ghost left = { λ v. v };

    ghost right = { split_view };
}

/// A pass takes in another.
pub(crate) struct TakeIn;

impl<U, O> Join<View<U, O>> for TakeIn {
    ghost both = { joined_view };

    ghost spent = { spent_view };
}
