//! `exit`: the exit of a process, its record and its undo.

ghost use Rattle.std.specs.Prelude.{◌≡◌, IfOk, OnOk, OnErr};
ghost use Rattle.flat_model.specs.Step.{refusal};
ghost use Rattle.flat_model.specs.Inverse as model_inverse;
ghost use Rattle.flat_model.specs.Inverse.{back};
ghost use Rattle.flat_model.specs.Command as model;
ghost use Rattle.undo_journal.specs.Answer.{Answers};
ghost use Rattle.undo_journal.specs.History.{IsReady};

use crate::command::Command;
use crate::engine::Engine;
use crate::faults::refusal_at;
use crate::inverse::Inverse;
use crate::journal::JournalEntry;
use crate::reply::Reply;
use group_path::GroupPath;
use pids_charge::{Charges, Meter, Pid};
use std::alloc::{AllocError, Allocator};

impl<A: Allocator + Clone, M: Meter> Engine<A, M> {
    /// Removes a process, and records its group.
    pub(crate) fn exit(&mut self, who: u8, pid: Pid) -> Result<Reply<A>, AllocError>
        ensures ok { IfOk result (λ reply. Answers M.SLOTS self.old (model.Exit pid) reply self.new) }
        ensures err { OnErr result (self.new ≡ self.old) }
    {
        // A refusal comes before any memory is asked for.
        if self.journal.len() == self.journal.capacity() {
            if let Some(refusal) = self.charges.refuses_exit(pid) {
                let refusal = refusal_at(&self.alloc, self.charges.home(pid), refusal)?;
                return Ok(Reply::Refused(refusal));
            }
        }
        self.journal.reserve(1)?;
        match self.charges.take_process(who, pid) {
            Ok(path) => {
                self.journal.push(JournalEntry {
                    command: Command::Exit(pid),
                    inverse: Inverse::Exited { pid, path },
                })?;
                Ok(Reply::Done)
            }
            Err(refusal) => {
                let refusal = refusal_at(&self.alloc, self.charges.home(pid), refusal)?;
                Ok(Reply::Refused(refusal))
            }
        }
    }
}

/// Puts an exited process back into its group.
pub(crate) fn undo_exit<A: Allocator + Clone, M: Meter>(
    charges: &mut Charges<A, M>,
    who: u8,
    pid: Pid,
    path: &GroupPath<A>,
) -> Result<(), AllocError>
    requires { IsReady M.SLOTS charges.old (model_inverse.Exited pid path.now) }
    ensures ok { OnOk result (charges.new ≡ back (model_inverse.Exited pid path.now) charges.old) }
    ensures err { OnErr result (charges.new ≡ charges.old) }
{
    charges.put_process_back(who, pid, path)
}
