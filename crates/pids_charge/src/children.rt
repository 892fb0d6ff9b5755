//! The names of a group's children.

ghost use Rattle.std.specs.Prelude.{◌≡◌, true, false, map, MatchOption};
ghost use Rattle.flat_model.specs.Counts as flat;
ghost use Rattle.flat_model.specs.Counts.{is_group};
ghost use Rattle.group_tree.specs.ChildNames.{last_name};

use crate::charges::Charges;
use crate::meter::Meter;
use group_path::GroupPath;
use group_tree::ChildNames;
use std::alloc::Allocator;

impl<A: Allocator + Clone, M: Meter> Charges<A, M> {
    /// The names of a group's children, in the order of their bytes; None if there is no such group. Costs one descent of
    /// the tree, and a step for each name. Allocates nothing.
    pub fn child_names<B: Allocator + Clone>(
        &self,
        path: &GroupPath<B>,
    ) -> Option<ChildNames<'_, A>>
        ensures { MatchOption result (is_group self.now path.now ≡ false) (λ names. (is_group self.now path.now ≡ true) × (names ≡ map last_name (flat.children self.now path.now))) }
    {
        self.tree.child_names(path)
    }
}
