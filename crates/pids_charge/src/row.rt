//! The row of a group, which is also that of its processes in their table.

ghost use Rattle.std.specs.Prelude.{◌≡◌, ◌<◌, length, IsSome};
ghost use Rattle.std.specs.FinMap as fin;
ghost use Rattle.flat_model.specs.Path.{parent};
ghost use Rattle.pids_charge.specs.Lists.{row_at};

use crate::groups::GroupTable;
use group_path::GroupPath;
use std::alloc::Allocator;

// The row of a group that exists. Costs at most one descent of the tree.
pub(crate) fn row_in<T: Allocator + Clone, A: Allocator + Clone>(
    tree: &GroupTable<T>,
    path: &GroupPath<A>,
) -> u16
    requires { IsSome (fin.get tree.now path.now) }
    ensures { result ≡ row_at tree.now path.now }
{
    let Some(row) = tree.find_row(path) else {
        unreachable!()
    };
    row
}

// The row of a group's parent, which exists. Costs one descent of the tree.
pub(crate) fn row_above<T: Allocator + Clone, A: Allocator + Clone>(
    tree: &GroupTable<T>,
    path: &GroupPath<A>,
) -> u16
    requires below_root { 0 < length path.now }
    requires parent { IsSome (fin.get tree.now (parent path.now)) }
    ensures { result ≡ row_at tree.now (parent path.now) }
{
    let Some(row) = tree.find_row_at(path, path.depth() - 1) else {
        unreachable!()
    };
    row
}
