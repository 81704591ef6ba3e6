//! A watch that holds appliers until they meet, and looks at what was put meanwhile.

use crate::meeting::Meeting;
use crate::noting::Puts;
use rep_io::Watch;
use std::alloc::AllocError;
use std::sync::Arc;

/// Holds the appliers that work on the second and the third of three positions until both do, each for at most so many turns.
#[derive(Drop)]
pub struct Order {
    meeting: Meeting,
    first: u64,
}

impl Order {
    /// Nobody came yet. The first of the three positions is given.
    pub fn new(puts: Arc<Puts>, turns: u64, first: u64) -> Order {
        Order {
            meeting: Meeting::new(puts, turns),
            first,
        }
    }

    /// What is put is noted there.
    pub fn puts(&self) -> Result<Arc<Puts>, AllocError> {
        self.meeting.puts()
    }

    /// Nothing was put from now on.
    pub fn begin(&self) {
        self.meeting.begin();
    }

    /// The first of the three positions.
    pub fn first(&self) -> u64 {
        self.first
    }

    /// Whether a row was put too early, or not yet; and else whether both came, and neither was held in vain.
    pub fn word(&self) -> &'static str {
        self.meeting.word()
    }

    // No row of the first block was put before.
    fn work_on_first(&self) {
        self.meeting.expect(!self.meeting.has_first());
    }

    // No row of the second one is put as long as the applier is held.
    fn work_on_second(&self) {
        self.meeting.hold_one();
        self.meeting.expect(!self.meeting.has_second());
    }

    // A row of the first one was put before.
    fn work_on_third(&self) {
        self.meeting.expect(self.meeting.has_first());
        self.meeting.hold_other();
    }
}

impl Watch for Order {
    fn working(&self, _applier: u32, position: u64) {
        match position.checked_sub(self.first) {
            Some(0) => self.work_on_first(),
            Some(1) => self.work_on_second(),
            Some(2) => self.work_on_third(),
            Some(_) | None => {}
        }
    }
}
