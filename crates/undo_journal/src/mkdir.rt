//! `mkdir`: making a group, its record and its undo.

ghost use Rattle.std.specs.Prelude.{◌≡◌, None, IfOk, OnOk, OnErr};
ghost use Rattle.flat_model.specs.Step.{refusal, after};
ghost use Rattle.flat_model.specs.Inverse as model_inverse;
ghost use Rattle.flat_model.specs.Inverse.{back};
ghost use Rattle.flat_model.specs.Machine.{recorded};
ghost use Rattle.flat_model.specs.Command as model;
ghost use Rattle.undo_journal.specs.Answer.{Answers};
ghost use Rattle.undo_journal.specs.History.{IsReady};
ghost use Rattle.undo_journal.specs.Timeline.{becomes};

use crate::command::Command;
use crate::engine::Engine;
use crate::faults::refusal_at;
use crate::inverse::Inverse;
use crate::journal::JournalEntry;
use crate::reply::Reply;
use group_path::GroupPath;
use pids_charge::{Charges, Meter};
use std::alloc::{AllocError, Allocator};

impl<A: Allocator + Clone, M: Meter> Engine<A, M> {
    /// Makes a group that may be made, and records it.
    fn add_group<B: Allocator + Clone>(&mut self, path: &GroupPath<B>) -> Result<(), AllocError>
        requires { refusal M.SLOTS self.old.machine.state (model.MakeGroup path.now) ≡ None }
        ensures ok { OnOk result (self.new ≡ becomes self.old (recorded self.old.machine (model.MakeGroup path.now) (after self.old.machine.state (model.MakeGroup path.now)))) }
        ensures err { OnErr result (self.new ≡ self.old) }
    {
        let named = path.copy(self.alloc.clone()?)?;
        let made = named.share()?;
        self.journal.reserve(1)?;
        self.charges.make_group(path)?;
        self.journal.push(JournalEntry {
            command: Command::MakeGroup(named),
            inverse: Inverse::Made { path: made },
        })?;
        Ok(())
    }

    pub(crate) fn make_group<B: Allocator + Clone>(
        &mut self,
        path: &GroupPath<B>,
    ) -> Result<Reply<A>, AllocError>
        ensures ok { IfOk result (λ reply. Answers M.SLOTS self.old (model.MakeGroup path.now) reply self.new) }
        ensures err { OnErr result (self.new ≡ self.old) }
    {
        if let Some(refusal) = self.charges.refuses_mkdir(path) {
            let refusal = refusal_at(&self.alloc, Some(path), refusal)?;
            return Ok(Reply::Refused(refusal));
        }
        self.add_group(path)?;
        Ok(Reply::Done)
    }
}

/// Removes a group that was made.
pub(crate) fn undo_mkdir<A: Allocator + Clone, M: Meter>(
    charges: &mut Charges<A, M>,
    path: &GroupPath<A>,
)
    requires { IsReady M.SLOTS charges.old (model_inverse.Made path.now) }
    ensures { charges.new ≡ back (model_inverse.Made path.now) charges.old }
{
    let _attr = charges.take_group(path);
}
