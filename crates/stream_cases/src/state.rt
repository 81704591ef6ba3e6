//! What the lines so far have made.

use crate::tokens::Declared;
use deferred_queue::Queue;
use dependency_index::Index;
use origin_marks::Finished;
use rep_lists::NoMemory;
use std::alloc::Global;

/// The marks, the queue and the index that were begun last, and what was declared.
#[derive(Drop)]
pub struct State {
    pub finished: Finished,
    pub queue: Queue,
    pub index: Index,
    pub declared: Declared,
}

impl State {
    /// Nothing is finished or declared, and there are no destinations.
    pub fn new(alloc: Global) -> Result<State, NoMemory> {
        Ok(State {
            finished: Finished::make(alloc),
            queue: Queue::make(alloc, &[])?,
            index: Index::make(alloc, &[])?,
            declared: Declared::new(alloc),
        })
    }
}
