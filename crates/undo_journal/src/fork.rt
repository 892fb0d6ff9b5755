//! `fork`: makes a process, or counts a refusal by a limit, and records which; and the undo of both.

ghost use Rattle.std.specs.Prelude.{◌≡◌, ◌<◌, Some, IfOk, OnErr};
ghost use Rattle.flat_model.specs.Step.{refusal};
ghost use Rattle.flat_model.specs.Inverse as model_inverse;
ghost use Rattle.flat_model.specs.Inverse.{back};
ghost use Rattle.flat_model.specs.Command as model;
ghost use Rattle.undo_journal.specs.Answer.{Answers};
ghost use Rattle.undo_journal.specs.History.{IsReady};

use crate::command::Command;
use crate::engine::Engine;
use crate::faults::refusal_at;
use crate::inverse::Inverse;
use crate::journal::JournalEntry;
use crate::reply::{Refusal, Reply};
use group_path::GroupPath;
use pids_charge::{Charges, ForkOutcome, Meter, Peaks, Pid};
use std::alloc::{AllocError, Allocator};

impl<A: Allocator + Clone, M: Meter> Engine<A, M> {
    /// Makes a process in its parent's group, and records it with the peaks of that group and its ancestors as they were
    /// before. If a limit refuses it, counts and records that instead.
    pub(crate) fn fork(&mut self, who: u8, parent: Pid, child: Pid) -> Result<Reply<A>, AllocError>
        ensures ok { IfOk result (λ reply. Answers M.SLOTS self.old (model.Fork parent child) reply self.new) }
        ensures err { OnErr result (self.new ≡ self.old) }
    {
        // A refusal that names a process comes before any memory is asked for.
        if self.journal.len() == self.journal.capacity() {
            if let Some(refusal) = self.charges.refuses_pids(parent, child) {
                let refusal = refusal_at(&self.alloc, self.charges.home(parent), refusal)?;
                return Ok(Reply::Refused(refusal));
            }
        }
        self.journal.reserve(1)?;
        let can_count = u64::MAX - self.forgotten > self.journal.len() as u64;
        match self.charges.fork_or_count(who, parent, child, can_count)? {
            ForkOutcome::Made(peaks) => {
                self.journal.push(JournalEntry {
                    command: Command::Fork { parent, child },
                    inverse: Inverse::Forked { pid: child, peaks },
                })?;
                Ok(Reply::Done)
            }
            ForkOutcome::Counted { path, shared } => {
                self.journal.push(JournalEntry {
                    command: Command::Fork { parent, child },
                    inverse: Inverse::Counted { path: shared },
                })?;
                Ok(Reply::Refused(Refusal::PidsMax(path)))
            }
            ForkOutcome::Refused(refusal) => {
                let refusal = refusal_at(&self.alloc, self.charges.home(parent), refusal)?;
                Ok(Reply::Refused(refusal))
            }
        }
    }
}

/// Removes the process that a fork made, and restores the peaks of its group and that group's ancestors.
pub(crate) fn undo_fork<A: Allocator + Clone, M: Meter>(
    charges: &mut Charges<A, M>,
    who: u8,
    pid: Pid,
    peaks: &Peaks<A>,
)
    requires { IsReady M.SLOTS charges.old (model_inverse.Forked pid peaks.now) }
    ensures { charges.new ≡ back (model_inverse.Forked pid peaks.now) charges.old }
{
    charges.unfork(who, pid, peaks);
}

/// Subtracts a fork that this group's limit refused from the counts of refused forks.
pub(crate) fn undo_counted<A: Allocator + Clone, M: Meter>(
    charges: &mut Charges<A, M>,
    path: &GroupPath<A>,
)
    requires { IsReady M.SLOTS charges.old (model_inverse.Counted path.now) }
    ensures { charges.new ≡ back (model_inverse.Counted path.now) charges.old }
{
    charges.uncount(path);
}
