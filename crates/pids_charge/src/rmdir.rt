//! Removing groups, and undoing a removal.

ghost use Rattle.std.specs.Prelude.{◌≡◌, ◌≤◌, length, Some, None, IsSome, IfSome, OnErr, OnOk, option_map};
ghost use Rattle.std.specs.FinMap as fin;
ghost use Rattle.flat_model.specs.Path.{parent};
ghost use Rattle.flat_model.specs.Command.{RemoveGroup};
ghost use Rattle.flat_model.specs.Step.{after, after_refusal, refusal};
ghost use Rattle.flat_model.specs.Inverse.{back, Removed};
ghost use Rattle.group_tree.specs.Flat.{group_of};
ghost use Rattle.pids_charge.specs.Answers.{names_in, refusal_along};

use crate::charges::Charges;
use crate::fault::ChargeRefusal;
use crate::meter::Meter;
use crate::row::row_above;
use group_path::GroupPath;
use group_tree::Attr;
use std::alloc::{AllocError, Allocator};

impl<A: Allocator + Clone, M: Meter> Charges<A, M> {
    /// The refusal that `rmdir` would return. Costs at most one descent of the tree.
    pub fn refuses_rmdir<B: Allocator + Clone>(
        &mut self,
        path: &GroupPath<B>,
    ) -> Option<ChargeRefusal>
        ensures first { refusal M.SLOTS self.old (RemoveGroup path.now) ≡ option_map (refusal_along path.now) result }
        ensures inside { IfSome result (λ r. names_in r ≤ length path.now) }
        ensures unchanged { IfSome result (λ r. after_refusal self.old (refusal_along path.now r) ≡ self.old) }
        ensures kept { self.new ≡ self.old }
    {
        let depth = path.depth();
        if depth == 0 {
            return Some(ChargeRefusal::RootFixed);
        }
        self.tree.known();
        let Some(at) = self.tree.find_row(path) else {
            return Some(ChargeRefusal::NoGroup(depth));
        };
        if self.tree.below(at) > 0 {
            return Some(ChargeRefusal::HasChildren);
        }
        let slot = self.tree.row(at).slot;
        if self.meter.populated(slot) {
            return Some(ChargeRefusal::HasProcesses);
        }
        None
    }

    /// Removes a group that `rmdir` would not refuse, frees its slot, and returns its attributes. Allocates nothing. Costs
    /// one descent of the tree, and a step for each group above.
    pub fn take_group<B: Allocator + Clone>(&mut self, path: &GroupPath<B>) -> Attr
        requires { refusal M.SLOTS self.old (RemoveGroup path.now) ≡ None }
        ensures state { self.new ≡ after self.old (RemoveGroup path.now) }
        ensures attr { Some (group_of result) ≡ fin.get self.old.groups path.now }
    {
        self.tree.known();
        let Ok(attr) = self.tree.remove(path) else {
            unreachable!()
        };
        self.tree.known();
        let Ok(()) = self.free.push(attr.slot) else {
            unreachable!()
        };
        attr
    }

    /// Puts a group back with its limits, event totals and peak, on any free slot; the slot in `attr` is ignored. Tests no
    /// limit of the groups above it. Costs two descents of the tree: one finds the row of its parent.
    ///
    /// # Errors
    ///
    /// `AllocError`; nothing has changed then.
    pub fn put_group_back<B: Allocator + Clone>(
        &mut self,
        path: &GroupPath<B>,
        attr: Attr,
    ) -> Result<(), AllocError>
        requires new { fin.get self.old.groups path.now ≡ None }
        requires parent { IsSome (fin.get self.old.groups (parent path.now)) }
        requires slot { fin.len self.old.groups ≤ M.SLOTS }
        ensures restored { OnOk result (self.new ≡ back (Removed path.now (group_of attr)) self.old) }
        ensures kept { OnErr result (self.new ≡ self.old) }
    {
        path.known();
        self.tree.known();
        let last = self.free.len() - 1;
        let slot = self.free[last];
        let above = row_above(&self.tree, path);
        let made = self.tree.insert(path, Attr { slot, ..attr }, above);
        self.tree.known();
        if made.is_err() {
            return Err(AllocError);
        }
        self.free.truncate(last);
        Ok(())
    }
}
