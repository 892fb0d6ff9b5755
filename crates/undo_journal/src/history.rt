//! `command_at`: reads the recorded commands.

ghost use Rattle.std.specs.Prelude.{◌≡◌, option_map};
ghost use Rattle.std.specs.List.{slice_get};
ghost use Rattle.undo_journal.specs.CommandMeaning.{command_of};
ghost use Rattle.undo_journal.specs.Answer.{recorded_commands};

use crate::command::Command;
use crate::engine::Engine;
use pids_charge::Meter;
use std::alloc::Allocator;

impl<A: Allocator + Clone, M: Meter> Engine<A, M> {
    /// The recorded command at this place, where the oldest has place 0. None if there are not so many.
    pub fn command_at(&self, place: usize) -> Option<&Command<A>>
        ensures { option_map (λ command. command_of command.now) result ≡ slice_get (recorded_commands self.now.machine.past) place }
    {
        match self.journal.get(place) {
            Some(entry) => Some(&entry.command),
            None => None,
        }
    }
}
