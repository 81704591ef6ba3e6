//! What the turns of a crew did, in their order.
ghost use Rattle.std.specs.Prelude.{◌≡◌, ◌+◌, ◌^◌, ◌<◌, ◌≤◌, [], ◌∷◌, ◌++◌, Some, None, length, OnOk};
ghost use Rattle.parallel_apply.specs.Turns.{turns_in};

use rep_lists::{NoMemory, RoomyList};
use std::alloc::Global;

/// A turn that applied a position, and how many turns that applied none stand between it and the one before it that did.
#[derive(Clone, Copy, Drop)]
pub struct Installed {
    pub quiet: u64,
    pub position: u64,
}

/// The turns of a crew, the oldest first. Those that apply nothing are counted, so that such a turn takes no memory.
#[derive(Drop)]
pub struct TurnLog {
    installed: RoomyList<Installed>,
    quiet: u64,
}

impl TurnLog {
    /// No turn was made.
    pub(crate) fn new(alloc: Global) -> TurnLog
        ensures { turns_in result ≡ [] }
    {
        TurnLog {
            installed: RoomyList::new(alloc),
            quiet: 0,
        }
    }

    /// Takes the room for a turn that applies a position.
    pub(crate) fn reserve(&mut self) -> Result<(), NoMemory>
        ensures room { OnOk result (1 ≤ self.new.installed.spare) }
        ensures same { turns_in self.new ≡ turns_in self.old }
    {
        self.installed.reserve(1)?;
        Ok(())
    }

    /// One turn more, which applied nothing.
    pub(crate) fn pass(&mut self)
        requires { length (turns_in self.old) + 1 < 2 ^ 64 }
        ensures { turns_in self.new ≡ turns_in self.old ++ None ∷ [] }
    {
        self.quiet += 1;
    }

    /// One turn more, which applied a position.
    pub(crate) fn apply(&mut self, position: u64)
        requires { 1 ≤ self.old.installed.spare }
        ensures { turns_in self.new ≡ turns_in self.old ++ Some position ∷ [] }
    {
        self.installed.push(Installed {
            quiet: self.quiet,
            position,
        });
        self.quiet = 0;
    }
}
