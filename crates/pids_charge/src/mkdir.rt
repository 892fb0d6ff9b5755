//! Making groups.

ghost use Rattle.std.specs.Prelude.{◌≡◌, ◌≤◌, length, None, IfSome, OnErr, OnOk, option_map};
ghost use Rattle.flat_model.specs.Command.{MakeGroup};
ghost use Rattle.flat_model.specs.Step.{after, after_refusal, refusal};
ghost use Rattle.pids_charge.specs.Answers.{names_in, refusal_along};

use crate::charges::Charges;
use crate::fault::ChargeRefusal;
use crate::hierarchy::first_met;
use crate::meter::Meter;
use group_path::GroupPath;
use group_tree::Attr;
use std::alloc::{AllocError, Allocator};

impl<A: Allocator + Clone, M: Meter> Charges<A, M> {
    /// The refusal that `mkdir` would return, apart from memory. Costs at most two descents of the tree, and a step for each group
    /// above.
    pub fn refuses_mkdir<B: Allocator + Clone>(&self, path: &GroupPath<B>) -> Option<ChargeRefusal>
        ensures first { refusal M.SLOTS self.now (MakeGroup path.now) ≡ option_map (refusal_along path.now) result }
        ensures inside { IfSome result (λ r. names_in r ≤ length path.now) }
        ensures kept { IfSome result (λ r. after_refusal self.now (refusal_along path.now r) ≡ self.now) }
    {
        self.tree.known();
        if self.tree.find_row(path).is_some() {
            return Some(ChargeRefusal::Exists);
        }
        let n = path.depth().saturating_sub(1);
        let Some(above) = self.tree.find_row_at(path, n) else {
            return Some(ChargeRefusal::NoGroup(n));
        };
        if let Some(met) = first_met(&self.tree, above, n) {
            return Some(met);
        }
        if self.free.is_empty() {
            return Some(ChargeRefusal::NoSlot);
        }
        None
    }

    /// Makes a group that `mkdir` would not refuse, with no limits and event totals of 0, on a free slot. Costs two descents
    /// of the tree, and a step for each group above.
    ///
    /// # Errors
    ///
    /// `AllocError`; nothing has changed then.
    pub fn make_group<B: Allocator + Clone>(
        &mut self,
        path: &GroupPath<B>,
    ) -> Result<(), AllocError>
        requires { refusal M.SLOTS self.old (MakeGroup path.now) ≡ None }
        ensures made { OnOk result (self.new ≡ after self.old (MakeGroup path.now)) }
        ensures kept { OnErr result (self.new ≡ self.old) }
    {
        self.put_group_back(path, Attr::new(0))
    }
}
