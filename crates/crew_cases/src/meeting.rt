//! Two threads that wait for one another, and what was put meanwhile.

use crate::noting::Puts;
use std::alloc::AllocError;
use std::hint::spin_loop;
use std::sync::Arc;
use std::sync::atomic::{AtomicU64, Ordering};

const ONE: u64 = 1;

const OTHER: u64 = 2;

const BOTH: u64 = ONE | OTHER;

const LATE: u64 = 4;

const EARLY: u64 = 8;

/// Holds two threads until both have come, each for at most so many turns.
#[derive(Drop)]
pub struct Meeting {
    puts: Arc<Puts>,
    turns: u64,
    // A bit for each of the two that came, one where a thread was held in vain, and one where a row was put too early, or not yet.
    came: AtomicU64,
}

impl Meeting {
    /// Nobody came yet.
    pub fn new(puts: Arc<Puts>, turns: u64) -> Meeting {
        Meeting {
            puts,
            turns,
            came: AtomicU64::new(0),
        }
    }

    /// What is put is noted there.
    pub fn puts(&self) -> Result<Arc<Puts>, AllocError> {
        self.puts.clone()
    }

    /// Nothing was put from now on.
    pub fn begin(&self) {
        self.puts.clear();
    }

    /// Whether a row whose number begins with 1 was put.
    pub fn has_first(&self) -> bool {
        self.puts.has_first()
    }

    /// Whether a row whose number begins with 2 was put.
    pub fn has_second(&self) -> bool {
        self.puts.has_second()
    }

    fn add(&self, bits: u64) {
        self.came.fetch_or(bits, Ordering::SeqCst);
    }

    fn wait_for_both(&self) {
        for _ in 0..self.turns {
            if self.came.load(Ordering::SeqCst) & BOTH == BOTH {
                return;
            }
            spin_loop();
        }
        self.add(LATE);
    }

    /// One of the two comes, and is held.
    pub fn hold_one(&self) {
        self.add(ONE);
        self.wait_for_both();
    }

    /// The other one comes, and is held.
    pub fn hold_other(&self) {
        self.add(OTHER);
        self.wait_for_both();
    }

    /// Rows are in step as long as this is so.
    pub fn expect(&self, is_so: bool) {
        if !is_so {
            self.add(EARLY);
        }
    }

    /// Whether a row was put too early, or not yet; and else whether both came, and neither was held in vain.
    pub fn word(&self) -> &'static str {
        let came = self.came.load(Ordering::SeqCst);
        if came & EARLY != 0 {
            "rows out of step"
        } else if came == BOTH {
            "side by side"
        } else {
            "one after another"
        }
    }
}
