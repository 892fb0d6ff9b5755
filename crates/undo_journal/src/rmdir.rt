//! `rmdir`: removing a group, its record and its undo.

ghost use Rattle.std.specs.Prelude.{◌≡◌, None, IfOk, OnOk, OnErr};
ghost use Rattle.flat_model.specs.Step.{refusal, after};
ghost use Rattle.flat_model.specs.Inverse as model_inverse;
ghost use Rattle.flat_model.specs.Inverse.{back};
ghost use Rattle.flat_model.specs.Machine.{recorded};
ghost use Rattle.flat_model.specs.Command as model;
ghost use Rattle.group_tree.specs.Flat.{group_of};
ghost use Rattle.undo_journal.specs.Answer.{Answers};
ghost use Rattle.undo_journal.specs.History.{IsReady};
ghost use Rattle.undo_journal.specs.Timeline.{becomes};

use crate::command::Command;
use crate::engine::Engine;
use crate::faults::refusal_at;
use crate::inverse::Inverse;
use crate::journal::JournalEntry;
use crate::reply::Reply;
use group_path::GroupPath;
use group_tree::Attr;
use pids_charge::{Charges, Meter};
use std::alloc::{AllocError, Allocator};

impl<A: Allocator + Clone, M: Meter> Engine<A, M> {
    /// Removes a group that may be removed, and records it with its attributes.
    fn take_group<B: Allocator + Clone>(&mut self, path: &GroupPath<B>) -> Result<(), AllocError>
        requires { refusal M.SLOTS self.old.machine.state (model.RemoveGroup path.now) ≡ None }
        ensures ok { OnOk result (self.new ≡ becomes self.old (recorded self.old.machine (model.RemoveGroup path.now) (after self.old.machine.state (model.RemoveGroup path.now)))) }
        ensures err { OnErr result (self.new ≡ self.old) }
    {
        let named = path.copy(self.alloc.clone()?)?;
        let removed = named.share()?;
        let mut attr = Box::new(self.alloc.clone()?, Attr::new(0))?;
        self.journal.reserve(1)?;
        *attr = self.charges.take_group(path);
        self.journal.push(JournalEntry {
            command: Command::RemoveGroup(named),
            inverse: Inverse::Removed {
                path: removed,
                attr,
            },
        })?;
        Ok(())
    }

    pub(crate) fn remove_group<B: Allocator + Clone>(
        &mut self,
        path: &GroupPath<B>,
    ) -> Result<Reply<A>, AllocError>
        ensures ok { IfOk result (λ reply. Answers M.SLOTS self.old (model.RemoveGroup path.now) reply self.new) }
        ensures err { OnErr result (self.new ≡ self.old) }
    {
        if let Some(refusal) = self.charges.refuses_rmdir(path) {
            let refusal = refusal_at(&self.alloc, Some(path), refusal)?;
            return Ok(Reply::Refused(refusal));
        }
        self.take_group(path)?;
        Ok(Reply::Done)
    }
}

/// Puts a removed group back under its parent, with its attributes.
pub(crate) fn undo_rmdir<A: Allocator + Clone, M: Meter>(
    charges: &mut Charges<A, M>,
    path: &GroupPath<A>,
    attr: Attr,
) -> Result<(), AllocError>
    requires { IsReady M.SLOTS charges.old (model_inverse.Removed path.now (group_of attr)) }
    ensures ok { OnOk result (charges.new ≡ back (model_inverse.Removed path.now (group_of attr)) charges.old) }
    ensures err { OnErr result (charges.new ≡ charges.old) }
{
    charges.put_group_back(path, attr)
}
