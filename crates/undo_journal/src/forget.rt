//! `forget`: keeps the state, and makes everything earlier impossible to undo.

ghost use Rattle.std.specs.Prelude.{◌≡◌};
ghost use Rattle.undo_journal.specs.Beginning.{forgets};

use crate::engine::Engine;
use crate::journal::drop_entries;
use pids_charge::Meter;
use std::alloc::Allocator;

impl<A: Allocator + Clone, M: Meter> Engine<A, M> {
    /// Forgets all recorded commands. The state stays, none of them can be undone, and the memory of their records is
    /// freed. The call allocates nothing and cannot fail. Costs as much as dropping the records.
    ///
    /// The engine counts its recorded commands, forgotten ones included. After 2^64 - 1 of them, an engine that has
    /// forgotten counts no more refused forks: a fork that a `pids.max` refuses is then out of memory.
    pub fn forget(&mut self)
        ensures { self.new ≡ forgets self.old }
    {
        let dropped = self.journal.len() as u64;
        self.forgotten = self.forgotten.saturating_add(dropped);
        drop_entries(&mut self.journal);
    }
}
