//! The tree, seen as a finite map, and its public calls.

ghost use Rattle.std.specs.Prelude.{◌≡◌, ◌<◌, ◌≤◌, ◌%◌, ◌^◌, true, length, take, None, MatchOption, IfOk, IfSome, IsSome};
ghost use Rattle.std.specs.Option.{option_copied};
ghost use Rattle.std.specs.FinMap as fin;
ghost use Rattle.flat_model.specs.Path.{Path, at_or_below};
ghost use Rattle.group_tree.specs.Flat.{CountsAsFlat};
ghost use Rattle.group_tree.specs.ChildNames.{NamesChildren};
ghost use Rattle.group_tree.specs.Groups.{IsClosed, Inserts, Sets, Removes, only_root, descendant_count};

use crate::attr::Attr;
use crate::child_names::ChildNames;
use crate::fault::TreeFault;
use crate::node::Node;
use group_path::GroupPath;
use std::alloc::{AllocError, Allocator};
use std::marker::Model;

/// A tree of groups, seen as a finite map from paths to attributes. It has the root and the parent of each group.
#[derive(Drop)]
pub struct GroupTree<A: Allocator> {
    pub(crate) root: Node<A>,
}

impl<A: Allocator> Model for GroupTree<A> {
    ghost use Rattle.group_tree.specs.Groups.{Groups, IsClosed};
    ghost use Rattle.group_tree.specs.TreeCodes.{groups_code};

    ghost Value = { Groups };

    ghost coded = { groups_code };

    ghost view = { λ t. t.root.groups };

    ghost invariant = { λ t. IsClosed t.root.groups };
}

impl<A: Allocator> GroupTree<A> {
    /// The attributes of the group at the path; None if there is no such group. O(depth · log children) comparisons of
    /// names.
    pub fn find<B: Allocator + Clone>(&self, path: &GroupPath<B>) -> Option<&Attr>
        ensures { option_copied result ≡ fin.get self.now path.now }
    {
        self.root.find(path.names())
    }

    /// The attributes of the group at the first `n` names of the path. Costs no more than `find`.
    pub fn find_at<B: Allocator + Clone>(&self, path: &GroupPath<B>, n: usize) -> Option<&Attr>
        requires { n ≤ length path.now }
        ensures { option_copied result ≡ fin.get self.now (take n path.now) }
    {
        self.root.find(path.first_names(n))
    }

    /// Sets the attributes of the group at the path; false if there is no such group. Costs as much as `find`.
    pub fn set<B: Allocator + Clone>(&mut self, path: &GroupPath<B>, attr: Attr) -> bool
        ensures { Sets self.old self.new path.now attr result }
    {
        self.root.set(path.names(), attr)
    }

    /// The names of the children of the group at the path, in the order of their bytes; None if there is no such group.
    /// Descends once, as `find` does, and allocates nothing.
    pub fn child_names<B: Allocator + Clone>(
        &self,
        path: &GroupPath<B>,
    ) -> Option<ChildNames<'_, A>>
        ensures { NamesChildren self.now path.now result }
    {
        self.root.child_names(path.names())
    }

    /// How many groups are strictly below the group at the path; None if there is no such group. The number is stored, so
    /// this costs no more than `find`. It is exact as long as the tree has fewer than 2^64 groups.
    pub fn descendants<B: Allocator + Clone>(&self, path: &GroupPath<B>) -> Option<u64>
        ensures counted { MatchOption result (fin.get self.now path.now ≡ None) (λ n. IsSome (fin.get self.now path.now) × (n ≡ descendant_count self.now path.now % 2 ^ 64)) }
        ensures exact { fin.len self.now < 2 ^ 64 → IfSome result (λ n. n ≡ descendant_count self.now path.now) }
    {
        self.root.descendants(path.names())
    }

    /// Removes a group that has no groups below it, and returns its attributes. Allocates nothing. Costs as much as `find`,
    /// and a move of each sibling after it.
    ///
    /// # Errors
    ///
    /// The first of these that applies: `RootFixed`, `NoGroup`, `HasChildren`. Each leaves the tree unchanged.
    pub fn remove<B: Allocator + Clone>(&mut self, path: &GroupPath<B>) -> Result<Attr, TreeFault>
        ensures { Removes self.old self.new path.now result }
    {
        let mut names = path.names();
        match names.next() {
            None => Err(TreeFault::RootFixed),
            Some(name) => self.root.remove(name, names),
        }
    }

    /// Gives callers that the tree has the root and the parent of each group, and that the groups below a group are those
    /// below it in the flat state of `map_values group_of`. Proof only.
    pub fn known(&self)
        ensures closed { IsClosed self.now }
        ensures prefixes { (p q : Path) → IsSome (fin.get self.now p) → at_or_below p q ≡ true → IsSome (fin.get self.now q) }
        ensures flat { CountsAsFlat self.now }
    {
        let _ = &self.root;
    }

    /// Copies the tree into another allocator. Linear in the groups and their names.
    ///
    /// # Errors
    ///
    /// `AllocError` when out of memory; the partial copy is dropped.
    pub fn copy<B: Allocator + Clone + Drop>(&self, alloc: B) -> Result<GroupTree<B>, AllocError>
        ensures { IfOk result (λ t. t ≡ self.now) }
    {
        let root = self.root.copy(alloc)?;
        Ok(GroupTree { root })
    }
}

impl<A: Allocator + Clone> GroupTree<A> {
    /// A tree with the root alone. It allocates the root's block.
    ///
    /// # Errors
    ///
    /// `AllocError` when out of memory.
    pub fn new(alloc: A, root: Attr) -> Result<GroupTree<A>, AllocError>
        ensures { IfOk result (λ t. t ≡ only_root root) }
    {
        let root = Node::leaf(alloc, b"", root)?;
        Ok(GroupTree { root })
    }

    /// Makes a group. Costs as much as `find`, and a move of each sibling after it.
    ///
    /// # Errors
    ///
    /// The first of these that applies: `Exists`, `NoParent`, `OutOfMemory`. Each leaves the tree unchanged.
    pub fn insert<B: Allocator + Clone>(
        &mut self,
        path: &GroupPath<B>,
        attr: Attr,
    ) -> Result<(), TreeFault>
        ensures { Inserts self.old self.new path.now attr result }
    {
        self.root.insert(path.names(), attr)
    }
}
