//! A write to `cgroup.procs`: moving a process, its record and its undo.

ghost use Rattle.std.specs.Prelude.{◌≡◌, IfOk, OnOk, OnErr};
ghost use Rattle.flat_model.specs.Step.{refusal};
ghost use Rattle.flat_model.specs.Inverse as model_inverse;
ghost use Rattle.flat_model.specs.Inverse.{back};
ghost use Rattle.flat_model.specs.Command as model;
ghost use Rattle.undo_journal.specs.Answer.{Answers};
ghost use Rattle.undo_journal.specs.History.{IsReady};

use crate::command::Command;
use crate::engine::Engine;
use crate::faults::refusal_at;
use crate::inverse::Inverse;
use crate::journal::JournalEntry;
use crate::reply::Reply;
use group_path::GroupPath;
use pids_charge::{Charges, Meter, MoveOutcome, Peaks, Pid};
use std::alloc::{AllocError, Allocator};

impl<A: Allocator + Clone, M: Meter> Engine<A, M> {
    /// Moves a process. Records its old group, and the old peaks along the path of the new one.
    pub(crate) fn move_process<B: Allocator + Clone>(
        &mut self,
        who: u8,
        path: &GroupPath<B>,
        pid: Pid,
    ) -> Result<Reply<A>, AllocError>
        ensures ok { IfOk result (λ reply. Answers M.SLOTS self.old (model.Move path.now pid) reply self.new) }
        ensures err { OnErr result (self.new ≡ self.old) }
    {
        // A refusal comes before any memory is asked for.
        if self.journal.len() == self.journal.capacity() {
            if let Some(refusal) = self.charges.refuses_move(path, pid) {
                let refusal = refusal_at(&self.alloc, Some(path), refusal)?;
                return Ok(Reply::Refused(refusal));
            }
        }
        self.journal.reserve(1)?;
        match self.charges.move_process(who, pid, path)? {
            MoveOutcome::Moved { to, left } => {
                self.journal.push(JournalEntry {
                    command: Command::Move { path: to, pid },
                    inverse: Inverse::Moved {
                        pid,
                        path: left.path,
                        peaks: left.peaks,
                    },
                })?;
                Ok(Reply::Done)
            }
            MoveOutcome::Refused(refusal) => {
                let refusal = refusal_at(&self.alloc, Some(path), refusal)?;
                Ok(Reply::Refused(refusal))
            }
        }
    }
}

/// Moves a process back, and restores the peaks along the path of the group that it leaves.
pub(crate) fn undo_move<A: Allocator + Clone, M: Meter>(
    charges: &mut Charges<A, M>,
    who: u8,
    pid: Pid,
    path: &GroupPath<A>,
    peaks: &Peaks<A>,
) -> Result<(), AllocError>
    requires { IsReady M.SLOTS charges.old (model_inverse.Moved pid path.now peaks.now) }
    ensures ok { OnOk result (charges.new ≡ back (model_inverse.Moved pid path.now peaks.now) charges.old) }
    ensures err { OnErr result (charges.new ≡ charges.old) }
{
    charges.unmove(who, pid, path, peaks)
}
