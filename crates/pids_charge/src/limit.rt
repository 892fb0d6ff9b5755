//! Setting limits. The undo sets the old limit.

ghost use Rattle.std.specs.Prelude.{◌≡◌, ◌≤◌, ◌&&◌, None, IsOk, IfSome, IfOk, IfErr, length, option_map};
ghost use Rattle.flat_model.specs.Path.{is_root};
ghost use Rattle.flat_model.specs.File.{is_pids_max};
ghost use Rattle.flat_model.specs.Command.{SetLimit};
ghost use Rattle.flat_model.specs.State as flat;
ghost use Rattle.flat_model.specs.Step.{after_refusal, limit_at, attr_of, refusal};
ghost use Rattle.group_tree.specs.Flat.{limit_of, limit_file_of};
ghost use Rattle.pids_charge.specs.Answers.{Decides, names_in, refusal_along};

use crate::charges::Charges;
use crate::fault::ChargeRefusal;
use crate::meter::Meter;
use group_path::GroupPath;
use group_tree::{Limit, LimitFile};
use std::alloc::Allocator;

// Whether the group lacks the file: the root has no `pids.max`.
fn is_missing<B: Allocator + Clone>(path: &GroupPath<B>, file: LimitFile) -> bool
    ensures { result ≡ (is_root path.now && is_pids_max (limit_file_of file)) }
{
    match file {
        LimitFile::PidsMax => path.depth() == 0,
        LimitFile::MaxDescendants => false,
        LimitFile::MaxDepth => false,
    }
}

impl<A: Allocator + Clone, M: Meter> Charges<A, M> {
    /// The refusal that `replace_limit` would return, whatever the limit. Costs at most one descent of the tree.
    pub fn refuses_limit<B: Allocator + Clone>(
        &self,
        path: &GroupPath<B>,
        file: LimitFile,
    ) -> Option<ChargeRefusal>
        ensures first { (value : flat.Limit) → refusal M.SLOTS self.now (SetLimit path.now (limit_file_of file) value) ≡ option_map (refusal_along path.now) result }
        ensures inside { IfSome result (λ r. names_in r ≤ length path.now) }
        ensures kept { IfSome result (λ r. after_refusal self.now (refusal_along path.now r) ≡ self.now) }
    {
        if is_missing(path, file) {
            return Some(ChargeRefusal::NoFile);
        }
        if self.tree.find(path).is_none() {
            return Some(ChargeRefusal::NoGroup(path.depth()));
        }
        None
    }

    /// Sets a limit of a group, and returns the old one. A limit may be below the present count. Allocates nothing. Costs at
    /// most one descent of the tree.
    ///
    /// # Errors
    ///
    /// `NoFile` for the `pids.max` of the root, then `NoGroup`. Nothing has changed then.
    pub fn replace_limit<B: Allocator + Clone>(
        &mut self,
        path: &GroupPath<B>,
        file: LimitFile,
        limit: Limit,
    ) -> Result<Limit, ChargeRefusal>
        ensures state { Decides M.SLOTS self.old (SetLimit path.now (limit_file_of file) (limit_of limit)) path.now result self.new }
        ensures inside { IfErr result (λ r. names_in r ≤ length path.now) }
        ensures old_limit { IfOk result (λ old. limit_of old ≡ limit_at (limit_file_of file) (attr_of self.old path.now)) }
        ensures certain { refusal M.SLOTS self.old (SetLimit path.now (limit_file_of file) (limit_of limit)) ≡ None → IsOk result }
    {
        if is_missing(path, file) {
            return Err(ChargeRefusal::NoFile);
        }
        let Some(at) = self.tree.find_row(path) else {
            return Err(ChargeRefusal::NoGroup(path.depth()));
        };
        let attr = *self.tree.row(at);
        self.tree.put(at, attr.with_limit(file, limit));
        self.tree.known();
        Ok(attr.limit(file))
    }
}
