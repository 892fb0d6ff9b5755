//! The calls on trees that the specification names and no program of this repository makes: two at the first names of a path, and
//! the slots from a group upward.

ghost use Rattle.std.specs.Prelude.{◌≡◌, ◌<◌, ◌≤◌, ◌++◌, ◌%◌, ◌^◌, false, length, take, None, Ok, MatchBool, MatchOption, IfOk, IfSome, IsOk, IsSome};
ghost use Rattle.std.specs.FinMap as fin;
ghost use Rattle.group_tree.specs.Groups.{Sets, chain_of, descendant_count};
ghost use Rattle.group_tree.specs.Node.{PushesInPlace};

use crate::attr::Attr;
use crate::node::{Node, place};
use crate::tree::GroupTree;
use group_path::{GroupPath, Names};
use smallvec::SmallVec;
use std::alloc::{AllocError, Allocator};

impl<A: Allocator> GroupTree<A> {
    /// Sets the attributes of the group at the first `n` names of the path; false if there is no such group. Costs no more
    /// than `find`.
    pub fn set_at<B: Allocator + Clone>(
        &mut self,
        path: &GroupPath<B>,
        n: usize,
        attr: Attr,
    ) -> bool
        requires { n ≤ length path.now }
        ensures { Sets self.old self.new (take n path.now) attr result }
    {
        self.root.set(path.first_names(n), attr)
    }

    /// How many groups are strictly below the group at the first `n` names of the path, as `descendants` counts them.
    pub fn descendants_at<B: Allocator + Clone>(&self, path: &GroupPath<B>, n: usize) -> Option<u64>
        requires { n ≤ length path.now }
        ensures counted { MatchOption result (fin.get self.now (take n path.now) ≡ None)
            (λ k. IsSome (fin.get self.now (take n path.now)) × (k ≡ descendant_count self.now (take n path.now) % 2 ^ 64)) }
        ensures exact { fin.len self.now < 2 ^ 64 → IfSome result (λ k. k ≡ descendant_count self.now (take n path.now)) }
    {
        self.root.descendants(path.first_names(n))
    }

    /// The slots of the groups from the path's own group upward, without the root; None if there is no such group. Up to
    /// eight slots and None need no allocation. Descends once, as `find` does.
    ///
    /// # Errors
    ///
    /// `AllocError` if there are more than eight slots and their allocation fails.
    pub fn chain<B: Allocator + Clone>(
        &self,
        path: &GroupPath<B>,
    ) -> Result<Option<SmallVec<u16, 8, &A>>, AllocError>
        ensures chain { IfOk result (λ o. MatchOption o (fin.get self.now path.now ≡ None) (λ slots. IsSome (fin.get self.now path.now) × (slots.items ≡ chain_of self.now path.now))) }
        ensures inline { length path.now ≤ 8 → IsOk result }
        ensures absent { fin.get self.now path.now ≡ None → result ≡ Ok None }
    {
        let alloc = self.root.allocator();
        let mut slots = SmallVec::new(alloc);
        if self.root.push_chain(path.names(), &mut slots)? {
            Ok(Some(slots))
        } else {
            Ok(None)
        }
    }
}

impl<A: Allocator> Node<A> {
    /// Appends the slots of the groups from the one at these names up to this one, which is excluded. Returns false if there
    /// is no such group.
    pub(crate) fn push_chain<B: Allocator + Copy>(
        &self,
        names: Names<'_>,
        slots: &mut SmallVec<u16, 8, B>,
    ) -> Result<bool, AllocError>
        ensures chain { IfOk result (λ b. MatchBool b
            (IsSome (fin.get self.now.groups names.entry) × (slots.new.items ≡ slots.old.items ++ chain_of self.now.groups names.entry))
            (fin.get self.now.groups names.entry ≡ None)) }
        ensures absent { fin.get self.now.groups names.entry ≡ None → result ≡ Ok false }
        ensures in_place { PushesInPlace slots.old slots.new (length names.entry) result }
    {
        let inner = &*self.inner;
        let mut names = names;
        match names.next() {
            None => Ok(true),
            Some(name) => match place(&inner.children, name) {
                Err(_) => Ok(false),
                Ok(at) => {
                    let child = &inner.children[at];
                    if !child.push_chain(names, slots)? {
                        return Ok(false);
                    }
                    let attr = child.attr();
                    slots.push(attr.slot)?;
                    Ok(true)
                }
            },
        }
    }
}
