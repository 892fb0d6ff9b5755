//! All that can be read of a tree, as text.

use crate::answers::push_count;
use crate::attributes::push_attributes;
use crate::words::push_runs;
use group_path::GroupPath;
use group_tree::GroupTree;
use std::alloc::{AllocError, Allocator, Global};

/// Appends a group and those below it, down to this many levels: path, attributes and number of descendants of each.
pub(crate) fn list<A: Allocator>(
    alloc: Global,
    tree: &GroupTree<A>,
    path: &GroupPath<Global>,
    levels: usize,
    text: &mut String,
) -> Result<(), AllocError> {
    push_runs(text, path.text())?;
    text.push(' ')?;
    push_attributes(text, tree.find(path))?;
    text.push(' ')?;
    push_count(text, tree.descendants(path))?;
    text.push_str("; ")?;
    if levels == 0 {
        return Ok(());
    }
    let Some(names) = tree.child_names(path) else {
        return Ok(());
    };
    for name in names {
        match path.child(alloc, name) {
            Ok(child) => list(alloc, tree, &child, levels - 1, text)?,
            Err(_) => return Err(AllocError),
        }
    }
    Ok(())
}
