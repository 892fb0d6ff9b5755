//! Whether a command would be accepted. Nothing is changed, recorded or allocated.

ghost use Rattle.std.specs.Prelude.{◌≡◌, is_none};
ghost use Rattle.flat_model.specs.Step.{refusal};
ghost use Rattle.undo_journal.specs.CommandMeaning.{command_of};

use crate::command::Command;
use crate::engine::Engine;
use interface_files::refuses_show;
use pids_charge::Meter;
use std::alloc::Allocator;

impl<A: Allocator + Clone, M: Meter> Engine<A, M> {
    /// Whether the command would be accepted if memory suffices. An undo always is, even if there is nothing to undo.
    /// Costs as much as the command's refusals, and allocates nothing.
    pub fn accepts<B: Allocator + Clone>(&mut self, cmd: &Command<B>) -> bool
        ensures told { result ≡ is_none (refusal M.SLOTS self.old.machine.state (command_of cmd.now)) }
        ensures kept { self.new ≡ self.old }
    {
        match cmd {
            Command::MakeGroup(path) => self.charges.refuses_mkdir(path).is_none(),
            Command::RemoveGroup(path) => self.charges.refuses_rmdir(path).is_none(),
            Command::Fork { parent, child } => self.charges.refuses_fork(*parent, *child).is_none(),
            Command::Exit(pid) | Command::Locate(pid) => self.charges.refuses_exit(*pid).is_none(),
            Command::Move { path, pid } => self.charges.refuses_move(path, *pid).is_none(),
            Command::SetLimit { path, file, .. } => {
                self.charges.refuses_limit(path, *file).is_none()
            }
            Command::Kill(path) => self.charges.refuses_kill(path).is_none(),
            Command::Show { path, file } => refuses_show(&self.charges, path, *file).is_none(),
            Command::Undo => true,
        }
    }
}
