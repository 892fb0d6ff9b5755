//! `cat`: reading a file of a group.

ghost use Rattle.std.specs.Prelude.{◌≡◌, IfOk, OnErr};
ghost use Rattle.flat_model.specs.Command as model;
ghost use Rattle.interface_files.specs.FileMeaning.{file_of};
ghost use Rattle.undo_journal.specs.Answer.{Answers};

use crate::bytes::Bytes;
use crate::engine::Engine;
use crate::faults::refusal_to_show;
use crate::reply::Reply;
use group_path::GroupPath;
use interface_files::{File, Shown, show};
use pids_charge::Meter;
use std::alloc::{AllocError, Allocator};

impl<A: Allocator + Clone, M: Meter> Engine<A, M> {
    pub(crate) fn show<B: Allocator + Clone>(
        &mut self,
        path: &GroupPath<B>,
        file: File,
    ) -> Result<Reply<A>, AllocError>
        ensures ok { IfOk result (λ reply. Answers M.SLOTS self.old (model.Show path.now (file_of file)) reply self.new) }
        ensures err { OnErr result (self.new ≡ self.old) }
    {
        match show(self.alloc.clone()?, &mut self.charges, path, file)? {
            Shown::Text(text) => Ok(Reply::Text(Bytes::of(text))),
            Shown::Refused(refusal) => {
                let refusal = refusal_to_show(&self.alloc, path, refusal)?;
                Ok(Reply::Refused(refusal))
            }
        }
    }
}
