//! What the gate's rule sees of a seat.

use std::collections::LinkedList;

/// Whether a seat has a ticket, and whether the value is with it.
pub enum Stage {
    Outside,
    Waiting(u64),
    Inside(u64),
}

/// What two passes had seen when they were joined.
pub struct Meeting<U> {
    pub one: LinkedList<(U, bool)>,
    pub other: LinkedList<(U, bool)>,
}

/// What a seat knows: the value's opening, the turns that it has seen, each with whether it is its own, its ticket, and
/// the joins that it comes from. No value of it is made.
pub struct View<U, O> {
    pub opening: Option<O>,
    pub seen: LinkedList<(U, bool)>,
    pub stage: Stage,
    pub joins: LinkedList<Meeting<U>>,
}
