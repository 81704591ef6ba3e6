//! A watch that holds appliers until they meet.

use rep_io::Watch;
use std::hint::spin_loop;
use std::sync::atomic::{AtomicU64, Ordering};

const SECOND: u64 = 1;

const THIRD: u64 = 2;

const BOTH: u64 = SECOND | THIRD;

const LATE: u64 = 4;

/// Holds the appliers that work on the second and the third of three positions until both do, each for at most so many turns.
#[derive(Drop)]
pub struct Meeting {
    turns: u64,
    first: u64,
    // A bit for each of the two positions that an applier came with, and one where an applier was held in vain.
    came: AtomicU64,
}

impl Meeting {
    /// Nobody came yet. The first of the three positions is given.
    pub fn new(turns: u64, first: u64) -> Meeting {
        Meeting {
            turns,
            first,
            came: AtomicU64::new(0),
        }
    }

    /// Whether both came, and neither was held in vain.
    pub fn took_place(&self) -> bool {
        self.came.load(Ordering::SeqCst) == BOTH
    }

    fn wait_for_both(&self) {
        for _ in 0..self.turns {
            if self.came.load(Ordering::SeqCst) & BOTH == BOTH {
                return;
            }
            spin_loop();
        }
        self.came.fetch_or(LATE, Ordering::SeqCst);
    }
}

impl Watch for Meeting {
    fn working(&self, _applier: u32, position: u64) {
        let bit = match position.checked_sub(self.first) {
            Some(1) => SECOND,
            Some(2) => THIRD,
            Some(_) | None => return,
        };
        self.came.fetch_or(bit, Ordering::SeqCst);
        self.wait_for_both();
    }
}
