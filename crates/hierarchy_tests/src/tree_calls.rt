//! The calls of a case on a tree. The heads of `trees.cases`, `limits.cases` and `wide_and_deep.cases` say what they do.

ghost use Rattle.std.specs.Prelude.{◌≤◌, length, IfOk};

use crate::answers::{push_children, push_count, push_counts, push_fault, push_slots};
use crate::attributes::{attributes, limit, limit_file, push_attributes, push_limit};
use crate::words::Words;
use group_path::GroupPath;
use group_tree::GroupTree;
use std::alloc::{AllocError, Allocator, Global};
use test_support::{CaseFault, Outcome};

/// Makes a call on the tree.
pub(crate) fn answer<A: Allocator + Copy>(
    tree: &mut GroupTree<A>,
    alloc: Global,
    words: &Words,
    said: &mut String,
) -> Result<Outcome, CaseFault> {
    let name = words.text(0);
    let Ok(path) = GroupPath::read(alloc, words.path(name)) else {
        return Err(CaseFault::Malformed);
    };
    match name {
        "find" => push_attributes(said, tree.find(&path))?,
        "find_at" => push_attributes(said, tree.find_at(&path, prefix(words, &path)?))?,
        "groups" | "descendants" => push_count(said, tree.descendants(&path))?,
        "descendants_at" => push_count(said, tree.descendants_at(&path, prefix(words, &path)?))?,
        "counts" => push_counts(said, tree, &path)?,
        "children" => push_children(said, tree.child_names(&path))?,
        "chain" => match tree.chain(&path) {
            Ok(Some(slots)) => push_slots(said, &slots)?,
            Ok(None) => said.push_str("none")?,
            Err(AllocError) => return Ok(Outcome::Refused),
        },
        "limit" if words.count() == 3 => {
            let file = limit_file(words, 2)?;
            match tree.find(&path) {
                Some(attr) => push_limit(said, attr.limit(file))?,
                None => said.push_str("none")?,
            }
        }
        _ => return change(tree, &path, words, said),
    }
    Ok(Outcome::Answered)
}

/// Makes a call that changes the tree.
fn change<A: Allocator + Copy>(
    tree: &mut GroupTree<A>,
    path: &GroupPath<Global>,
    words: &Words,
    said: &mut String,
) -> Result<Outcome, CaseFault> {
    let is_done = match words.text(0) {
        "insert" => match tree.insert(path, attributes(words, 2)?) {
            Ok(()) => true,
            Err(fault) => return Ok(push_fault(said, fault)?),
        },
        "remove" => match tree.remove(path) {
            Ok(attr) => {
                push_attributes(said, Some(&attr))?;
                return Ok(Outcome::Answered);
            }
            Err(fault) => return Ok(push_fault(said, fault)?),
        },
        "set" => tree.set(path, attributes(words, 2)?),
        "set_at" => tree.set_at(path, prefix(words, path)?, attributes(words, 3)?),
        "limit" => set_limit(tree, path, words)?,
        _ => return Err(CaseFault::Malformed),
    };
    said.push_str(if is_done { "done" } else { "none" })?;
    Ok(Outcome::Answered)
}

/// The number of names that the third word is, at most those of the path.
fn prefix(words: &Words, path: &GroupPath<Global>) -> Result<usize, CaseFault>
    ensures { IfOk result (λ n. n ≤ length path.now) }
{
    let n = words.number(2)? as usize;
    if n > path.depth() {
        return Err(CaseFault::Malformed);
    }
    Ok(n)
}

fn set_limit<A: Allocator>(
    tree: &mut GroupTree<A>,
    path: &GroupPath<Global>,
    words: &Words,
) -> Result<bool, CaseFault> {
    let file = limit_file(words, 2)?;
    let limit = limit(words, 3)?;
    match tree.find(path).copied() {
        Some(attr) => Ok(tree.set(path, attr.with_limit(file, limit))),
        None => Ok(false),
    }
}
