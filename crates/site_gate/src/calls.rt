//! The calls of a pass's life at a gate.
ghost use Rattle.std.specs.Prelude.{◌≡◌, ◌+◌, ◌^◌, ◌<◌, ◌==◌, ◌||◌, ℕ, [], ◌∷◌, ◌++◌, false, Some, IfOk, IfErr, length};
ghost use Rattle.std.specs.List.{AllByRecursion};
ghost use Rattle.site_gate.specs.Seen.{Begins, joined, longer, meeting, Meets};
ghost use Rattle.site_gate.specs.Passes.{IsPassOf, IsTurnOf, seen_of, view_of, opening_of, seen_by, own_of, owns, joins_of, opening_at, seen_at, own_at, owns_at, joins_at};

use crate::gate::SiteGate;
use crate::pass::{Pass, Turn};
use crate::plays::{Meet, SplitOff, TakeIn};
use crate::turns::Turns;
use atomic_table::{Refused, Table};
use rep_lists::NoMemory;
use std::alloc::Global;
use std::snapshot::Snapshot;
use std::sync::Wait;

impl<T: Turns> SiteGate<T> {
    /// A gate round a value whose history is empty, and the first pass.
    pub fn make(alloc: Global, value: T) -> Result<(SiteGate<T>, Pass<T>), (T, NoMemory)>
        requires { T.history value ≡ [] }
        ensures gate { IfOk result (λ made. IsPassOf made.0 made.1) }
        ensures opening { IfOk result (λ made. opening_of made.1 ≡ Some (T.opening value)) }
        ensures seen { IfOk result (λ made. seen_of made.1 ≡ []) }
        ensures joins { IfOk result (λ made. joins_of made.1 ≡ []) }
        ensures err { IfErr result (λ refused. refused.0 ≡ value) }
    {
        let first = Snapshot::of(&value);
        let Ok(mut slots) = Vec::with_capacity(alloc, 1) else {
            return Err((value, NoMemory));
        };
        slots.push_reserved(Some(value));
        match Table::new(alloc, &[0, 0], slots, &first) {
            Ok((table, seat)) => Ok((SiteGate { table }, Pass { seat })),
            Err(Refused { mut slots }) => {
                let Some(Some(value)) = slots.pop() else {
                    unreachable!()
                };
                Err((value, NoMemory))
            }
        }
    }

    /// A pass for another thread, which has seen as much and owns no turn.
    pub fn split(&self, pass: &mut Pass<T>) -> Pass<T>
        requires gate { IsPassOf self.now pass.old }
        ensures gate { IsPassOf self.now result }
        ensures kept_gate { IsPassOf self.now pass.new }
        ensures kept { view_of pass.new ≡ view_of pass.old }
        ensures opening { opening_of result ≡ opening_of pass.old }
        ensures seen { seen_by result ≡ seen_by pass.old }
        ensures own { own_of result ≡ [] }
        ensures places { (place : ℕ) → owns result place ≡ false }
        ensures joins { joins_of result ≡ [] }
    {
        let seat = self.table.shared.split_seat::<SplitOff>(&mut pass.seat);
        Pass { seat }
    }

    /// Whether nobody is inside or waits for a turn, at some moment of the call. What it answers may be old when it is answered, and
    /// no clause says anything of it.
    pub fn is_free(&self) -> bool {
        self.table.shared.peek(0) == self.table.shared.peek(1)
    }

    /// Waits for the pass's turn. At 2^64 - 1 turns it waits for ever.
    pub fn enter<R: Wait>(&self, rt: &R, pass: Pass<T>) -> Turn<T>
        requires gate { IsPassOf self.now pass }
        ensures gate { IsTurnOf self.now result }
        ensures opening { opening_of pass ≡ Some (T.opening result.value) }
        ensures kept_opening { opening_at result ≡ opening_of pass }
        ensures history { seen_at result ≡ T.history result.value }
        ensures seen { Begins (seen_by pass) (T.history result.value) }
        ensures few { length (T.history result.value) + 1 < 2 ^ 64 }
        ensures own { own_at result ≡ own_of pass }
        ensures places { (place : ℕ) → owns_at result place ≡ owns pass place }
        ensures joins { joins_at result ≡ joins_of pass }
    {
        let Pass { mut seat } = pass;
        let ticket = self.draw(rt, &mut seat);
        let value = self.take(rt, &mut seat, ticket);
        Turn {
            value,
            seat,
            ticket: Snapshot::of(&ticket),
        }
    }

    /// Ends a turn, in which one thing was done to the value. The pass has seen it, and owns it.
    pub fn leave(&self, turn: Turn<T>) -> Pass<T>
        requires gate { IsTurnOf self.now turn }
        requires opening { opening_at turn ≡ Some (T.opening turn.value) }
        requires one { (done : T.Turn) × (T.history turn.value ≡ seen_at turn ++ done ∷ []) }
        ensures gate { IsPassOf self.now result }
        ensures opening { opening_of result ≡ opening_at turn }
        ensures seen { seen_by result ≡ T.history turn.value }
        ensures own { (done : T.Turn) → T.history turn.value ≡ seen_at turn ++ done ∷ [] → own_of result ≡ own_at turn ++ done ∷ [] }
        ensures places { (place : ℕ) → owns result place ≡ (owns_at turn place || place == length (seen_at turn)) }
        ensures joins { joins_of result ≡ joins_at turn }
    {
        let Turn {
            value,
            mut seat,
            ticket,
        } = turn;
        self.put_back(&mut seat, ticket, value);
        Pass { seat }
    }

    /// Takes in what another pass has seen, and the turns that it owns.
    pub fn join(&self, pass: &mut Pass<T>, other: Pass<T>)
        requires gate { IsPassOf self.now pass.old }
        requires other { IsPassOf self.now other }
        ensures gate { IsPassOf self.now pass.new }
        ensures opening { opening_of pass.new ≡ opening_of pass.old }
        ensures both { seen_of pass.new ≡ joined (seen_of pass.old) (seen_of other) }
        ensures seen { seen_by pass.new ≡ longer (seen_by pass.old) (seen_by other) }
        ensures places { (place : ℕ) → owns pass.new place ≡ (owns pass.old place || owns other place) }
        ensures joins { joins_of pass.new ≡ meeting (seen_of pass.old) (seen_of other) ∷ joins_of pass.old ++ joins_of other }
    {
        let Pass { seat } = other;
        self.table.shared.join_seat::<TakeIn>(&mut pass.seat, seat);
    }

    /// Shows of all passes that were joined to this one that the histories they had seen begin the one that is seen now,
    /// and that no turn was of two of them.
    pub fn meet(&self, pass: &mut Pass<T>)
        requires gate { IsPassOf self.now pass.old }
        ensures gate { IsPassOf self.now pass.new }
        ensures kept { view_of pass.new ≡ view_of pass.old }
        ensures joins { AllByRecursion (Meets (seen_by pass.old)) (joins_of pass.old) }
    {
        self.table.shared.load::<Meet<T>>(&mut pass.seat, 0);
    }

    /// Takes the value out, in a turn of its own.
    pub fn close<R: Wait>(self, rt: &R, pass: Pass<T>) -> T
        requires gate { IsPassOf self pass }
        ensures opening { opening_of pass ≡ Some (T.opening result) }
        ensures seen { Begins (seen_by pass) (T.history result) }
        ensures few { length (T.history result) + 1 < 2 ^ 64 }
    {
        let Turn { value, .. } = self.enter(rt, pass);
        value
    }
}
