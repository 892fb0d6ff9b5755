//! A write to `cgroup.kill`: killing all processes at or below a group, its record and its undo.

ghost use Rattle.std.specs.Prelude.{◌≡◌, None, IfOk, OnOk, OnErr};
ghost use Rattle.flat_model.specs.Step.{refusal, after};
ghost use Rattle.flat_model.specs.Inverse as model_inverse;
ghost use Rattle.flat_model.specs.Inverse.{back};
ghost use Rattle.flat_model.specs.Machine.{recorded};
ghost use Rattle.flat_model.specs.Command as model;
ghost use Rattle.undo_journal.specs.Answer.{Answers};
ghost use Rattle.undo_journal.specs.History.{IsReady};
ghost use Rattle.undo_journal.specs.Timeline.{becomes};

use crate::command::Command;
use crate::engine::Engine;
use crate::faults::refusal_at;
use crate::inverse::Inverse;
use crate::journal::JournalEntry;
use crate::reply::Reply;
use group_path::GroupPath;
use pids_charge::{Charges, LostList, Meter, Settler};
use std::alloc::{AllocError, Allocator};

impl<A: Allocator + Clone, M: Meter> Engine<A, M> {
    /// Removes all processes of a group that may be killed, and records them with their groups.
    fn take_members<S: Settler, B: Allocator + Clone>(
        &mut self,
        settler: &S,
        who: u8,
        path: &GroupPath<B>,
    ) -> Result<(), AllocError>
        requires { refusal M.SLOTS self.old.machine.state (model.Kill path.now) ≡ None }
        ensures ok { OnOk result (self.new ≡ becomes self.old (recorded self.old.machine (model.Kill path.now) (after self.old.machine.state (model.Kill path.now)))) }
        ensures err { OnErr result (self.new ≡ self.old) }
    {
        let named = path.copy(self.alloc.clone()?)?;
        self.journal.reserve(1)?;
        let list = self.charges.take_processes(settler, who, path)?;
        self.journal.push(JournalEntry {
            command: Command::Kill(named),
            inverse: Inverse::Killed { list },
        })?;
        Ok(())
    }

    pub(crate) fn kill<S: Settler, B: Allocator + Clone>(
        &mut self,
        settler: &S,
        who: u8,
        path: &GroupPath<B>,
    ) -> Result<Reply<A>, AllocError>
        ensures ok { IfOk result (λ reply. Answers M.SLOTS self.old (model.Kill path.now) reply self.new) }
        ensures err { OnErr result (self.new ≡ self.old) }
    {
        if let Some(refusal) = self.charges.refuses_kill(path) {
            let refusal = refusal_at(&self.alloc, Some(path), refusal)?;
            return Ok(Reply::Refused(refusal));
        }
        self.take_members(settler, who, path)?;
        Ok(Reply::Done)
    }
}

/// Undoes a kill: puts each process back into its own group.
pub(crate) fn undo_kill<A: Allocator + Clone, M: Meter, S: Settler>(
    charges: &mut Charges<A, M>,
    settler: &S,
    who: u8,
    list: &LostList<A>,
) -> Result<(), AllocError>
    requires { IsReady M.SLOTS charges.old (model_inverse.Killed list.now) }
    ensures ok { OnOk result (charges.new ≡ back (model_inverse.Killed list.now) charges.old) }
    ensures err { OnErr result (charges.new ≡ charges.old) }
{
    charges.put_processes_back(settler, who, list.as_slice())
}
