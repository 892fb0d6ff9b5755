//! `where`: the group that a process belongs to.

ghost use Rattle.std.specs.Prelude.{◌≡◌, IfOk};
ghost use Rattle.flat_model.specs.Command as model;
ghost use Rattle.undo_journal.specs.Answer.{Answers};

use crate::bytes::Bytes;
use crate::engine::Engine;
use crate::faults::refusal_at;
use crate::reply::Reply;
use interface_files::render_home;
use pids_charge::{Meter, Pid};
use std::alloc::{AllocError, Allocator};

impl<A: Allocator + Clone, M: Meter> Engine<A, M> {
    pub(crate) fn locate(&self, pid: Pid) -> Result<Reply<A>, AllocError>
        ensures { IfOk result (λ reply. Answers M.SLOTS self.now (model.Locate pid) reply self.now) }
    {
        if let Some(refusal) = self.charges.refuses_exit(pid) {
            let refusal = refusal_at(&self.alloc, self.charges.home(pid), refusal)?;
            return Ok(Reply::Refused(refusal));
        }
        match render_home(self.alloc.clone()?, &self.charges, pid) {
            Ok(text) => Ok(Reply::Text(Bytes::of(text))),
            Err(_) => Err(AllocError),
        }
    }
}
