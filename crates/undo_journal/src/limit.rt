//! A write to `pids.max`, `cgroup.max.descendants` or `cgroup.max.depth`: setting a limit, its record and its undo.

ghost use Rattle.std.specs.Prelude.{◌≡◌, None, IfOk, OnOk, OnErr};
ghost use Rattle.flat_model.specs.Step.{refusal, after};
ghost use Rattle.flat_model.specs.Inverse as model_inverse;
ghost use Rattle.flat_model.specs.Inverse.{back};
ghost use Rattle.flat_model.specs.Machine.{recorded};
ghost use Rattle.flat_model.specs.Command as model;
ghost use Rattle.group_tree.specs.Flat.{limit_of, limit_file_of};
ghost use Rattle.undo_journal.specs.Answer.{Answers};
ghost use Rattle.undo_journal.specs.History.{IsReady};
ghost use Rattle.undo_journal.specs.Timeline.{becomes};

use crate::command::Command;
use crate::engine::Engine;
use crate::faults::refusal_at;
use crate::inverse::Inverse;
use crate::journal::JournalEntry;
use crate::reply::Reply;
use group_path::GroupPath;
use group_tree::{Limit, LimitFile};
use pids_charge::{Charges, Meter};
use std::alloc::{AllocError, Allocator};

impl<A: Allocator + Clone, M: Meter> Engine<A, M> {
    /// Sets a limit that may be set, and records the old one.
    fn write_limit<B: Allocator + Clone>(
        &mut self,
        path: &GroupPath<B>,
        file: LimitFile,
        value: Limit,
    ) -> Result<(), AllocError>
        requires { refusal M.SLOTS self.old.machine.state (model.SetLimit path.now (limit_file_of file) (limit_of value)) ≡ None }
        ensures ok { OnOk result (self.new ≡ becomes self.old (recorded self.old.machine
            (model.SetLimit path.now (limit_file_of file) (limit_of value))
            (after self.old.machine.state (model.SetLimit path.now (limit_file_of file) (limit_of value))))) }
        ensures err { OnErr result (self.new ≡ self.old) }
    {
        let named = path.copy(self.alloc.clone()?)?;
        let limited = named.share()?;
        self.journal.reserve(1)?;
        let Ok(older) = self.charges.replace_limit(path, file, value) else {
            unreachable!()
        };
        self.journal.push(JournalEntry {
            command: Command::SetLimit {
                path: named,
                file,
                value,
            },
            inverse: Inverse::Limited {
                path: limited,
                file,
                value: older,
            },
        })?;
        Ok(())
    }

    pub(crate) fn set_limit<B: Allocator + Clone>(
        &mut self,
        path: &GroupPath<B>,
        file: LimitFile,
        value: Limit,
    ) -> Result<Reply<A>, AllocError>
        ensures ok { IfOk result (λ reply. Answers M.SLOTS self.old (model.SetLimit path.now (limit_file_of file) (limit_of value)) reply self.new) }
        ensures err { OnErr result (self.new ≡ self.old) }
    {
        if let Some(refusal) = self.charges.refuses_limit(path, file) {
            let refusal = refusal_at(&self.alloc, Some(path), refusal)?;
            return Ok(Reply::Refused(refusal));
        }
        self.write_limit(path, file, value)?;
        Ok(Reply::Done)
    }
}

/// Sets the old limit again.
pub(crate) fn undo_limit<A: Allocator + Clone, M: Meter>(
    charges: &mut Charges<A, M>,
    path: &GroupPath<A>,
    file: LimitFile,
    value: Limit,
)
    requires { IsReady M.SLOTS charges.old (model_inverse.Limited path.now (limit_file_of file) (limit_of value)) }
    ensures { charges.new ≡ back (model_inverse.Limited path.now (limit_file_of file) (limit_of value)) charges.old }
{
    let Ok(_newer) = charges.replace_limit(path, file, value) else {
        unreachable!()
    };
}
