//! The answers of calls on a tree, as text. A group that is missing is `none`.

use crate::words::push_runs;
use group_path::GroupPath;
use group_tree::{ChildNames, GroupTree, TreeFault};
use std::alloc::{AllocError, Allocator, Global};
use test_support::Outcome;

pub(crate) fn push_count(said: &mut String, count: Option<u64>) -> Result<(), AllocError> {
    match count {
        Some(count) => write!(said, "{count}"),
        None => said.push_str("none"),
    }
}

/// How many groups are below each group on the way to this path, from the root down.
pub(crate) fn push_counts<A: Allocator>(
    said: &mut String,
    tree: &GroupTree<A>,
    path: &GroupPath<Global>,
) -> Result<(), AllocError> {
    push_count(said, tree.descendants_at(path, 0))?;
    let depth = path.depth();
    for n in 0..depth {
        said.push(' ')?;
        push_count(said, tree.descendants_at(path, n + 1))?;
    }
    Ok(())
}

pub(crate) fn push_children<A: Allocator>(
    said: &mut String,
    names: Option<ChildNames<'_, A>>,
) -> Result<(), AllocError> {
    let Some(names) = names else {
        return said.push_str("none");
    };
    for name in names {
        if !said.is_empty() {
            said.push(' ')?;
        }
        push_runs(said, name)?;
    }
    Ok(())
}

pub(crate) fn push_slots(said: &mut String, slots: &[u16]) -> Result<(), AllocError> {
    for slot in slots {
        if !said.is_empty() {
            said.push(' ')?;
        }
        write!(said, "{slot}")?;
    }
    Ok(())
}

/// The message of a refusal, except for out of memory.
pub(crate) fn push_fault(said: &mut String, fault: TreeFault) -> Result<Outcome, AllocError> {
    if fault == TreeFault::OutOfMemory {
        return Ok(Outcome::Refused);
    }
    write!(said, "{fault}")?;
    Ok(Outcome::Answered)
}
