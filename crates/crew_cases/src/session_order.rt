//! A watch that holds sessions until they meet, and looks at what was put meanwhile.

use crate::meeting::Meeting;
use crate::noting::Puts;
use rep_io::Watch;
use std::alloc::AllocError;
use std::sync::Arc;

/// Holds the first session at its first block and the second one at its second block until both have come, each for at most so
/// many turns.
#[derive(Drop)]
pub struct SessionOrder {
    meeting: Meeting,
}

impl SessionOrder {
    /// Nobody came yet.
    pub fn new(puts: Arc<Puts>, turns: u64) -> SessionOrder {
        SessionOrder {
            meeting: Meeting::new(puts, turns),
        }
    }

    /// What is put is noted there.
    pub fn puts(&self) -> Result<Arc<Puts>, AllocError> {
        self.meeting.puts()
    }

    /// Nothing was put from now on.
    pub fn begin(&self) {
        self.meeting.begin();
    }

    /// Whether a row was put too early, or not yet; and else whether both came, and neither was held in vain.
    pub fn word(&self) -> &'static str {
        self.meeting.word()
    }

    // No row of the first session's block is put as long as it is held.
    fn work_in_first(&self) {
        self.meeting.hold_one();
        self.meeting.expect(!self.meeting.has_first());
    }

    // A row of the second session's first block was put before.
    fn work_in_second(&self) {
        self.meeting.expect(self.meeting.has_second());
        self.meeting.hold_other();
    }
}

impl Watch for SessionOrder {
    fn working(&self, session: u32, block: u64) {
        match (session, block) {
            (1, 1) => self.work_in_first(),
            (2, 2) => self.work_in_second(),
            _ => {}
        }
    }
}
