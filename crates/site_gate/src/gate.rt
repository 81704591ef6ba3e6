//! The gate, and how a seat comes to the value.
ghost use Rattle.std.specs.Prelude.{◌≡◌, ◌+◌, ◌^◌, ◌<◌, [], ◌∷◌, ◌++◌, true, false, Some, length};
ghost use Rattle.site_gate.specs.Seen.{Begins, seen_to, turns_in};
ghost use Rattle.site_gate.specs.Views.{with_ticket, with_value, with_turn, empty_handed, IsSameSeat};
ghost use Rattle.site_gate.specs.Rule.{Agrees};
ghost use Rattle.site_gate.specs.declared.view.Stage.TheVariants.{Outside, Waiting, Inside};

use crate::plays::{Draw, Look, Raise};
use crate::rule::GateRule;
use crate::turns::Turns;
use crate::view::View;
use atomic_table::{Seat, Table};
use std::alloc::Global;
use std::snapshot::Snapshot;
use std::sync::Wait;
use std::thread;

/// A ticket lock round a value: it is entered in the order of tickets.
#[derive(Drop)]
pub struct SiteGate<T: Turns> {
    pub(crate) table: Table<Option<T>, View<T::Turn, T::Opening>, Snapshot<T>, GateRule<T>, Global>,
    ghost sized: { (table.shared.table_id.words ≡ 2) × (table.shared.table_id.slots ≡ 1) },
}

impl<T: Turns> SiteGate<T> {
    // Takes the next ticket of the lock. Where none is left, it waits for ever.
    pub(crate) fn draw<R: Wait>(
        &self,
        rt: &R,
        seat: &mut Seat<Option<T>, View<T::Turn, T::Opening>>,
    ) -> u64
        requires gate { seat.old.table_id ≡ self.now.table.shared.table_id }
        requires outside { seat.old.me.0.stage ≡ Outside }
        ensures seat { IsSameSeat seat.old seat.new }
        ensures view { seat.new.me.0 ≡ with_ticket seat.old.me.0 result }
        ensures held { seat.new.me.1 ≡ seat.old.me.1 }
        ensures few { result + 1 < 2 ^ 64 }
    {
        for _ in rt.forever() {
            let next = self.table.shared.peek(1);
            if next < u64::MAX {
                let found = self
                    .table
                    .shared
                    .compare_exchange::<Draw<T>>(seat, 1, next, next + 1);
                if found == next {
                    return next;
                }
            }
            thread::yield_now();
        }
        unreachable!()
    }

    // Waits until the ticket's turn has come, and takes the value out.
    pub(crate) fn take<R: Wait>(
        &self,
        rt: &R,
        seat: &mut Seat<Option<T>, View<T::Turn, T::Opening>>,
        ticket: u64,
    ) -> T
        requires gate { seat.old.table_id ≡ self.now.table.shared.table_id }
        requires waiting { seat.old.me.0.stage ≡ Waiting ticket }
        requires empty { seat.old.me.1 ≡ [] }
        ensures seat { IsSameSeat seat.old seat.new }
        ensures view { seat.new.me.0 ≡ with_value seat.old.me.0 ticket (T.history result) }
        ensures held { seat.new.me.1 ≡ empty_handed }
        ensures opening { Agrees (T.opening result) seat.old.me.0.opening }
        ensures seen { Begins (turns_in seat.old.me.0.seen) (T.history result) }
        ensures turn { length (T.history result) ≡ ticket }
    {
        for _ in rt.forever() {
            let made = self.table.shared.load::<Look<T>>(seat, 0);
            if made == ticket {
                let Some(value) = self.table.shared.exchange(seat, 0, None) else {
                    unreachable!()
                };
                return value;
            }
            thread::yield_now();
        }
        unreachable!()
    }

    // Puts the value back with one turn more, and lets the next ticket in.
    pub(crate) fn put_back(
        &self,
        seat: &mut Seat<Option<T>, View<T::Turn, T::Opening>>,
        ticket: Snapshot<u64>,
        value: T,
    )
        requires gate { seat.old.table_id ≡ self.now.table.shared.table_id }
        requires inside { seat.old.me.0.stage ≡ Inside ticket.value }
        requires held { seat.old.me.1 ≡ empty_handed }
        requires opening { seat.old.me.0.opening ≡ Some (T.opening value) }
        requires one { (done : T.Turn) × (T.history value ≡ turns_in seat.old.me.0.seen ++ done ∷ []) }
        ensures seat { IsSameSeat seat.old seat.new }
        ensures view { seat.new.me.0 ≡ with_turn seat.old.me.0 (T.history value) }
        ensures held { seat.new.me.1 ≡ [] }
    {
        let _ticket = ticket;
        self.table.shared.exchange(seat, 0, Some(value));
        self.table.shared.fetch_add::<Raise<T>>(seat, 0, 1);
    }
}
