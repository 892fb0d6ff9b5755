//! The groups: their names in a tree, and their attributes in rows.

ghost use Rattle.std.specs.Prelude.{◌≡◌, ◌≢◌, ◌<◌, ◌≤◌, ◌+◌, ◌^◌, ℕ, true, length, take, get_or, None, Some, MatchOption, IfOk, OnOk, OnErr, IsSome, ◌-◌};
ghost use Rattle.std.specs.Option.{option_copied};
ghost use Rattle.std.specs.FinMap as fin;
ghost use Rattle.flat_model.specs.Path.{Path, parent, at_or_below};
ghost use Rattle.group_tree.specs.ChildNames.{NamesChildren};
ghost use Rattle.group_tree.specs.Flat.{CountsAsFlat};
ghost use Rattle.group_tree.specs.Groups.{Groups, IsClosed, Removes, only_root, descendant_count};
ghost use Rattle.group_tree.specs.declared.attr.Attr.{Attr};
ghost use Rattle.pids_charge.specs.declared.group.Group.{Group};
ghost use Rattle.pids_charge.specs.GroupRows.{ChangesCounts, IsOfGroup, IsRow, IsRowOf, attrs_of, stepped, belows_of, ups_of, with_rows};
ghost use Rattle.pids_charge.specs.Lists.{slot_at, row_at};

use crate::above::Change;
use crate::group::Group;
use crate::hints::KeptPaths;
use crate::notes::DEPTH_MAX;
use group_path::GroupPath;
use group_tree::{Attr, ChildNames, GroupTree, TreeFault};
use std::alloc::{AllocError, Allocator};
use std::marker::Model;

// Adds rows up to this one. It doesn't matter what is in them.
fn lengthen<A: Allocator>(rows: &mut Vec<Group, A>, row: u16) -> Result<(), AllocError>
    ensures long { OnOk result (row < length rows.new.items) }
    ensures kept { (k : ℕ) (d : Group) → k < length rows.old.items → get_or rows.new.items k d ≡ get_or rows.old.items k d }
    ensures no_fewer { length rows.old.items ≤ length rows.new.items }
{
    while rows.len() <= usize::from(row) {
        rows.push(Group {
            attr: Attr::new(0),
            below: 0,
            up: 0,
        })?;
    }
    Ok(())
}

// Changes the number of groups below the group in the row `first`, and below each group above it.
fn change_below<A: Allocator>(rows: &mut Vec<Group, A>, first: u16, change: Change)
    requires { IsRow rows.old.items first }
    ensures attrs { attrs_of rows.new.items ≡ attrs_of rows.old.items }
    ensures ups { ups_of rows.new.items ≡ ups_of rows.old.items }
    ensures below { (tree : Groups) (p : Path) → IsRowOf tree rows.old.items p first → ChangesCounts (stepped (2 ^ 32 - 1) change) (with_rows tree (attrs_of rows.old.items)) p (belows_of rows.old.items) (belows_of rows.new.items) }
{
    let mut at = usize::from(first);
    for _up in 0..DEPTH_MAX + 1 {
        let row = &mut rows[at];
        row.below = change.of_below(row.below);
        if at == 0 {
            return;
        }
        at = usize::from(row.up);
    }
}

// The groups, seen as a finite map from paths to attributes, as a `GroupTree` is. The attributes are in rows. The number of
// a group's row is 0 for the root, and one more than its slot in the meter for any other group. The table of processes
// has the same rows. The tree has that number in place of the slot, and its other attributes say nothing. So whoever knows a
// group's row reads and changes it without a descent. There are as many rows as the greatest number needs. A row has the row
// of its group's parent, so a walk up goes from row to row. A row counts the groups below its group. A row keeps the path of
// its group, and the path has a hint (`hints.rt`), by which it is found first.
#[derive(Drop)]
pub(crate) struct GroupTable<A: Allocator + Clone> {
    tree: GroupTree<A>,
    rows: Vec<Group, A>,
    kept: KeptPaths<A>,
}

impl<A: Allocator + Clone> Model for GroupTable<A> {
    ghost use Rattle.group_tree.specs.Groups.{Groups};
    ghost use Rattle.group_tree.specs.TreeCodes.{groups_code};
    ghost use Rattle.pids_charge.specs.GroupRows.{HasTable, attrs_of, with_rows};

    ghost Value = { Groups };

    ghost coded = { groups_code };

    ghost view = { λ g. with_rows g.tree (attrs_of g.rows.items) };

    ghost invariant = { λ g. HasTable g.tree g.rows.items g.kept };
}

impl<A: Allocator + Clone> GroupTable<A> {
    // Gives callers what `GroupTree::known` gives of a tree, and that no two groups have the same row. It is proof only.
    pub(crate) fn known(&self)
        ensures closed { IsClosed self.now }
        ensures prefixes { (p q : Path) → IsSome (fin.get self.now p) → at_or_below p q ≡ true → IsSome (fin.get self.now q) }
        ensures apart { (p q : Path) → IsSome (fin.get self.now p) → IsSome (fin.get self.now q) → row_at self.now p ≡ row_at self.now q → p ≡ q }
        ensures flat { CountsAsFlat self.now }
    {
        self.tree.known();
    }

    // The attributes of the group at the path. Costs one descent, unless there is a hint.
    pub(crate) fn find<B: Allocator + Clone>(&self, path: &GroupPath<B>) -> Option<&Attr>
        ensures { option_copied result ≡ fin.get self.now path.now }
    {
        match self.find_row(path) {
            Some(at) => Some(self.row(at)),
            None => None,
        }
    }

    // The row of the group at the path. Costs one descent, unless there is a hint.
    pub(crate) fn find_row<B: Allocator + Clone>(&self, path: &GroupPath<B>) -> Option<u16>
        ensures { MatchOption result (fin.get self.now path.now ≡ None) (λ at. IsSome (fin.get self.now path.now) × (at ≡ row_at self.now path.now)) }
    {
        if let Some(row) = self.kept.hinted(path) {
            return Some(row);
        }
        match self.tree.find(path) {
            Some(found) => Some(found.slot),
            None => None,
        }
    }

    // The same for the group at the first `n` names of the path.
    pub(crate) fn find_row_at<B: Allocator + Clone>(
        &self,
        path: &GroupPath<B>,
        n: usize,
    ) -> Option<u16>
        requires { n ≤ length path.now }
        ensures { MatchOption result (fin.get self.now (take n path.now) ≡ None) (λ at. IsSome (fin.get self.now (take n path.now)) × (at ≡ row_at self.now (take n path.now))) }
    {
        match self.tree.find_at(path, n) {
            Some(found) => Some(found.slot),
            None => None,
        }
    }

    // The attributes in a row.
    pub(crate) fn row(&self, at: u16) -> &Attr
        requires { IsOfGroup self.now at }
        ensures { (p : Path) → IsSome (fin.get self.now p) → at ≡ row_at self.now p → Some result.now ≡ fin.get self.now p }
    {
        &self.rows[usize::from(at)].attr
    }

    // The row of the parent of the group in a row. The root's is its own.
    pub(crate) fn up(&self, at: u16) -> u16
        requires { IsOfGroup self.now at }
        ensures { (p : Path) → IsSome (fin.get self.now p) → at ≡ row_at self.now p → result ≡ row_at self.now (parent p) }
    {
        self.rows[usize::from(at)].up
    }

    // Replaces the attributes in a row by others with the same slot.
    pub(crate) fn put(&mut self, at: u16, attr: Attr)
        requires group { IsOfGroup self.old at }
        requires same { (p : Path) (a : Attr) → fin.get self.old p ≡ Some a → at ≡ row_at self.old p → attr.slot ≡ a.slot }
        ensures { (p : Path) → IsSome (fin.get self.old p) → at ≡ row_at self.old p → self.new ≡ fin.insert self.old p attr }
    {
        self.rows[usize::from(at)].attr = attr;
    }

    // How many rows there are. Each group has one.
    pub(crate) fn rows(&self) -> usize
        ensures { (p : Path) → IsSome (fin.get self.now p) → row_at self.now p < result }
    {
        self.rows.len()
    }

    // The names of a group's children, as `GroupTree::child_names` returns them.
    pub(crate) fn child_names<B: Allocator + Clone>(
        &self,
        path: &GroupPath<B>,
    ) -> Option<ChildNames<'_, A>>
        ensures { NamesChildren self.now path.now result }
    {
        self.tree.child_names(path)
    }

    // How many groups are strictly below the group at the path. Costs one descent, unless there is a hint.
    pub(crate) fn descendants<B: Allocator + Clone>(&self, path: &GroupPath<B>) -> Option<u64>
        ensures { MatchOption result (fin.get self.now path.now ≡ None) (λ n. IsSome (fin.get self.now path.now) × (n ≡ descendant_count self.now path.now)) }
    {
        match self.find_row(path) {
            Some(at) => Some(self.below(at)),
            None => None,
        }
    }

    // How many groups are strictly below the group in a row.
    pub(crate) fn below(&self, at: u16) -> u64
        requires { IsOfGroup self.now at }
        ensures { (p : Path) → IsSome (fin.get self.now p) → at ≡ row_at self.now p → result ≡ descendant_count self.now p }
    {
        u64::from(self.rows[usize::from(at)].below)
    }

    // Removes a group that has no groups below it, and returns its attributes, as `GroupTree::remove` does. The row stays,
    // says nothing, and keeps no path.
    pub(crate) fn remove<B: Allocator + Clone>(
        &mut self,
        path: &GroupPath<B>,
    ) -> Result<Attr, TreeFault>
        ensures { Removes self.old self.new path.now result }
    {
        match self.tree.remove(path) {
            Ok(removed) => {
                self.tree.known();
                path.known();
                self.kept.forget(removed.slot);
                let row = self.rows[usize::from(removed.slot)];
                change_below(&mut self.rows, row.up, Change::Lower);
                Ok(row.attr)
            }
            Err(fault) => Err(fault),
        }
    }

    // Copies the groups into another allocator.
    pub(crate) fn copy<B: Allocator + Clone + Drop>(
        &self,
        alloc: B,
    ) -> Result<GroupTable<B>, AllocError>
        ensures { IfOk result (λ g. g ≡ self.now) }
    {
        let rows = Vec::from_slice(alloc.clone()?, self.rows.as_slice())?;
        let kept = self.kept.copy(alloc.clone()?)?;
        let tree = self.tree.copy(alloc)?;
        Ok(GroupTable { tree, rows, kept })
    }
}

impl<A: Allocator + Clone> GroupTable<A> {
    // The root alone, with these attributes.
    pub(crate) fn new(alloc: A, root: Attr) -> Result<GroupTable<A>, AllocError>
        requires { root.slot ≡ 0 }
        ensures { IfOk result (λ g. g ≡ only_root root) }
    {
        let tree = GroupTree::new(alloc.clone()?, root)?;
        tree.known();
        let mut rows = Vec::new(alloc.clone()?);
        rows.push(Group {
            attr: root,
            below: 0,
            up: 0,
        })?;
        let kept = KeptPaths::new(alloc)?;
        Ok(GroupTable { tree, rows, kept })
    }

    // Makes a group that there isn't, under one that there is and has the row `above`, on a slot that no group has. Costs one
    // descent.
    pub(crate) fn insert<B: Allocator + Clone>(
        &mut self,
        path: &GroupPath<B>,
        attr: Attr,
        above: u16,
    ) -> Result<(), AllocError>
        requires slot { attr.slot + 1 < 2 ^ 16 }
        requires few { fin.len self.old < 2 ^ 16 }
        requires below_root { 0 < length path.now }
        requires absent { fin.get self.old path.now ≡ None }
        requires parent { IsSome (fin.get self.old (parent path.now)) }
        requires above { above ≡ row_at self.old (parent path.now) }
        requires free { (q : Path) → 0 < length q → IsSome (fin.get self.old q) → slot_at self.old q ≢ attr.slot }
        ensures made { OnOk result (self.new ≡ fin.insert self.old path.now attr) }
        ensures kept { OnErr result (self.new ≡ self.old) }
    {
        let row = attr.slot + 1;
        lengthen(&mut self.rows, row)?;
        let copied = self.kept.admit(row, path)?;
        let numbered = Attr { slot: row, ..attr };
        if self.tree.insert(path, numbered).is_err() {
            return Err(AllocError);
        }
        self.tree.known();
        path.known();
        let made = Group {
            attr,
            below: 0,
            up: above,
        };
        self.rows[usize::from(row)] = made;
        change_below(&mut self.rows, above, Change::Raise);
        self.kept.keep(row, copied);
        Ok(())
    }
}
