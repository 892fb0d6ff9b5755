//! A node: a group with the groups below it, and its readers.

ghost use Rattle.std.specs.Prelude.{◌≡◌, ◌≢◌, ◌<◌, ◌≤◌, ◌-◌, ◌%◌, ◌^◌, [], length, Some, MatchResult, option_map};
ghost use Rattle.std.specs.Option.{option_copied};
ghost use Rattle.std.specs.FinMap as fin;
ghost use Rattle.flat_model.specs.Path.{name_cmp};
ghost use Rattle.group_tree.specs.NameNumber.{IsNumberOf};
ghost use Rattle.group_tree.specs.Node.{HasAscendingNames, place_of, Counts, IsLeafOrNot};

use crate::attr::Attr;
use crate::number::{compare_behind, number_of};
use group_path::Names;
use inline_bytes::InlineBytes;
use std::alloc::Allocator;
use std::cmp::Ordering;
use std::marker::Model;

/// A group with the groups below it. All but the number of its name is in a block of its own. So a search among siblings reads
/// numbers, and names only where these are equal. An insert or a removal among them moves only numbers and pointers.
#[derive(Drop)]
#[cycle(node)]
pub struct Node<A: Allocator> {
    /// The number of the name.
    pub(crate) number: u64,
    pub(crate) inner: Box<Inner<A>, A>,
}

/// What a node has besides the number of its name.
#[derive(Drop)]
#[cycle(node)]
pub struct Inner<A: Allocator> {
    /// The last name of the group's path; empty for the root.
    pub(crate) name: InlineBytes<A>,
    pub(crate) attr: Attr,
    /// How many groups are below it, modulo 2^64.
    pub(crate) descendants: u64,
    /// The children, their names ascending.
    pub(crate) children: Vec<Node<A>, A>,
}

impl<A: Allocator> Model for Node<A> {
    ghost use Rattle.std.specs.Prelude.{◌≡◌, ℕ, List};
    ghost use Rattle.group_tree.specs.NameNumber.{IsNumberOf};
    ghost use Rattle.group_tree.specs.Node.{Branch, groups_of, IsNode};
    ghost use Rattle.group_tree.specs.TreeCodes.{branch_code};

    ghost Value = { Branch };

    ghost coded = { branch_code };

    ghost use Rattle.std.specs.FinMap as fin;
    ghost use Rattle.group_tree.specs.Sorted.{most_le-groups};

    ghost view = { λ n. record { name = n.inner.value.name; groups = groups_of n.inner.value.attr n.inner.value.children.items } };

    ghost invariant = { λ n. IsNode n.inner.value.children.items n.inner.value.descendants × IsNumberOf n.inner.value.name n.number };

    ghost size = { λ b. fin.len b.groups };

    ghost use Rattle.std.proofs.Common.{arith};

    ghost size_decreases = { λ n h. omega (arith, most_le-groups n.inner.value.attr n.inner.value.children.items h.0.ascending) };
}

/// The index of the child of this name, or the index to insert it at. O(log children) comparisons.
pub(crate) fn place<A: Allocator>(children: &[Node<A>], name: &[u8]) -> Result<usize, usize>
    requires { HasAscendingNames children.now }
    ensures value { result ≡ place_of name.now children.now }
    ensures bound { MatchResult result (λ at. at < length children.now) (λ at. at ≤ length children.now) }
{
    let number = number_of(name);
    children.binary_search_by(
        move |child| -> Ordering
            requires { IsNumberOf name.now number }
            ensures { result ≡ name_cmp child.now.name name.entry.now }
        { child.compare(name, number) },
    )
}

impl<A: Allocator> Node<A> {
    /// The last name of the group's path.
    pub(crate) fn name(&self) -> &[u8]
        ensures { result.now ≡ self.now.name }
    {
        self.inner.name.as_slice()
    }

    /// Compares its name with another one of this number.
    fn compare(&self, name: &[u8], number: u64) -> Ordering
        requires { IsNumberOf name.now number }
        ensures { result ≡ name_cmp self.now.name name.now }
    {
        if self.number < number {
            return Ordering::Less;
        }
        if self.number > number {
            return Ordering::Greater;
        }
        compare_behind(self.name(), name)
    }

    /// The allocator of its memory.
    pub(crate) fn allocator(&self) -> &A {
        Box::allocator(&self.inner)
    }

    /// The group's attributes.
    pub(crate) fn attr(&self) -> Attr
        ensures { Some result ≡ fin.get self.now.groups [] }
    {
        self.inner.attr
    }

    /// Whether no group is below it.
    pub(crate) fn is_leaf(&self) -> bool
        ensures { IsLeafOrNot self.now.groups result }
    {
        let children = self.inner.children.as_slice();
        if children.is_empty() {
            true
        } else {
            let child = &children[0];
            let _attr = child.attr();
            false
        }
    }

    /// The attributes of the group at these names from here.
    pub(crate) fn find(&self, names: Names<'_>) -> Option<&Attr>
        ensures { option_copied result ≡ fin.get self.now.groups names.entry }
    {
        match self.find_with_descendants(names) {
            Some((attr, _)) => Some(attr),
            None => None,
        }
    }

    /// How many groups are below the group at these names from here, modulo 2^64.
    pub(crate) fn descendants(&self, names: Names<'_>) -> Option<u64>
        ensures { Counts self.now.groups names.entry result }
    {
        match self.find_with_descendants(names) {
            Some((_, descendants)) => Some(descendants),
            None => None,
        }
    }

    /// The attributes of the group at these names from here, and how many groups are below it, modulo 2^64.
    pub(crate) fn find_with_descendants(&self, names: Names<'_>) -> Option<(&Attr, u64)>
        ensures found { option_map (λ f. f.0.now) result ≡ fin.get self.now.groups names.entry }
        ensures counted { Counts self.now.groups names.entry (option_map (λ f. f.1) result) }
    {
        let inner = &*self.inner;
        let mut names = names;
        match names.next() {
            None => Some((&inner.attr, inner.descendants)),
            Some(name) => match place(&inner.children, name) {
                Ok(at) => inner.children[at].find_with_descendants(names),
                Err(_) => None,
            },
        }
    }
}
