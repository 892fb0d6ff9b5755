//! A tree of groups with a copy of it, as the subject of cases.

use crate::arena::copied_into_an_arena;
use crate::attributes::attributes;
use crate::listing::list;
use crate::tree_calls::answer;
use crate::words::Words;
use group_path::{DEPTH_MAX, GroupPath};
use group_tree::{Attr, GroupTree, TreeFault};
use std::alloc::{AllocError, Allocator, Global};
use std::mem;
use std::sync::Wait;
use std::thread::Threads;
use test_support::{Case, CaseFault, Outcome, Subject};

/// `each` counts modulo this number.
const NUMBERS: u64 = 1024;

/// A tree, and a copy of it in the same allocator.
#[derive(Drop)]
pub(crate) struct Trees<A: Allocator> {
    home: A,
    tree: GroupTree<A>,
    copy: Option<GroupTree<A>>,
}

impl<A: Allocator + Copy + Drop> Trees<A> {
    /// A tree in this allocator, with a new root in slot 0.
    pub(crate) fn new(home: A) -> Result<Trees<A>, AllocError> {
        Ok(Trees {
            home,
            tree: GroupTree::new(home, Attr::new(0))?,
            copy: None,
        })
    }

    /// Makes a new tree with the root that the words say.
    fn plant(&mut self, words: &Words) -> Result<Outcome, CaseFault> {
        let root = attributes(words, 1)?;
        match GroupTree::new(self.home, root) {
            Ok(tree) => {
                self.tree = tree;
                Ok(Outcome::Answered)
            }
            Err(AllocError) => Ok(Outcome::Refused),
        }
    }

    /// Makes the copy.
    fn copy(&mut self) -> Outcome {
        match self.tree.copy(self.home) {
            Ok(copy) => {
                self.copy = Some(copy);
                Outcome::Answered
            }
            Err(AllocError) => Outcome::Refused,
        }
    }

    /// Exchanges the tree and its copy.
    fn swap(&mut self) -> Result<Outcome, CaseFault> {
        match &mut self.copy {
            Some(copy) => {
                mem::swap(copy, &mut self.tree);
                Ok(Outcome::Answered)
            }
            None => Err(CaseFault::Malformed),
        }
    }
}

impl<A: Allocator + Copy + Drop> Subject for Trees<A> {
    fn call<R: Threads + Wait + Sync>(
        &mut self,
        _rt: &R,
        alloc: Global,
        case: &Case,
        said: &mut String,
    ) -> Result<Outcome, CaseFault> {
        let words = Words::of(alloc, case)?;
        let outcome = match words.text(0) {
            "tree" => self.plant(&words)?,
            "copy" => self.copy(),
            "swap" => self.swap()?,
            "copied" => {
                let mut copy = self.tree.copy(alloc)?;
                let words = words.numbered(alloc, 1, words.count(), 0)?;
                return answer(&mut copy, alloc, &words, said);
            }
            "out_of_memory" => {
                write!(said, "{}", TreeFault::OutOfMemory)?;
                return Ok(Outcome::Answered);
            }
            "arena" => return in_an_arena(&self.tree, alloc, words.text(1), said),
            "each" => return each(&mut self.tree, alloc, &words, said),
            _ => return answer(&mut self.tree, alloc, &words, said),
        };
        said.push_str("done")?;
        Ok(outcome)
    }

    fn show(&mut self, alloc: Global, text: &mut String) -> Result<(), AllocError> {
        let root = GroupPath::root(alloc)?;
        list(alloc, &self.tree, &root, DEPTH_MAX, text)?;
        match &self.copy {
            Some(copy) => list(alloc, copy, &root, DEPTH_MAX, text),
            None => Ok(()),
        }
    }
}

/// Answers how many groups beside the root a copy in an arena has, and whether the arena can be freed after it.
fn in_an_arena<A: Allocator>(
    tree: &GroupTree<A>,
    alloc: Global,
    end: &str,
    said: &mut String,
) -> Result<Outcome, CaseFault> {
    let (groups, is_freed) = copied_into_an_arena(alloc, tree, end == "forgotten")?;
    let freed = if is_freed { "freed" } else { "not freed" };
    write!(said, "{groups} and {freed}")?;
    Ok(Outcome::Answered)
}

/// Answers how many of the calls with a number in place of `#` give the answer after the word `is`.
fn each<A: Allocator + Copy>(
    tree: &mut GroupTree<A>,
    alloc: Global,
    words: &Words,
    said: &mut String,
) -> Result<Outcome, CaseFault> {
    let (first, calls, step) = (words.number(1)?, words.number(2)?, words.number(3)?);
    let Some(end) = words.position(b"is") else {
        return Err(CaseFault::Malformed);
    };
    let mut count = 0u64;
    for turn in 0..calls {
        let number = first.wrapping_add(turn.wrapping_mul(step)) % NUMBERS;
        let call = words.numbered(alloc, 4, end, number)?;
        let wanted = words.numbered(alloc, end.saturating_add(1), words.count(), number)?;
        let mut text = String::new(alloc);
        let _ = answer(tree, alloc, &call, &mut text)?;
        if text.as_str() == wanted.joined(alloc)?.as_str() {
            count = count.saturating_add(1);
        }
    }
    write!(said, "{count}")?;
    Ok(Outcome::Answered)
}
