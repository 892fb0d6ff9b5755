//! A tree copied into an arena.

use bumpalo::Bump;
use group_path::GroupPath;
use group_tree::GroupTree;
use std::alloc::{AllocError, Allocator, Global};
use std::mem;

/// Copies the tree into an arena, and drops the copy or forgets it. Returns how many groups the copy had beside the root, and
/// whether the arena can be freed then.
pub(crate) fn copied_into_an_arena<A: Allocator>(
    alloc: Global,
    tree: &GroupTree<A>,
    is_forgotten: bool,
) -> Result<(u64, bool), AllocError> {
    let root = GroupPath::root(alloc)?;
    let mut arena = Bump::new(alloc);
    let copy = tree.copy(&arena)?;
    let groups = copy.descendants(&root).unwrap_or(0);
    if is_forgotten {
        mem::forget(copy);
    } else {
        drop(copy);
    }
    let is_freed = arena.reset().is_ok();
    Ok((groups, is_freed))
}
