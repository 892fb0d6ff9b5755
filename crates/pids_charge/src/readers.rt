//! Reading groups and processes.

ghost use Rattle.std.specs.Prelude.{◌≡◌, ◌&&◌, ◌++◌, not, is_some, false, true, IfOk, IsOk, IfSome, MatchOption, option_map};
ghost use Rattle.std.specs.List.{All};
ghost use Rattle.std.specs.List.Sorted.{IsPermutation, IsSorted};
ghost use Rattle.std.specs.Option.{option_copied};
ghost use Rattle.std.specs.Ordering.{nat_cmp};
ghost use Rattle.std.specs.FinMap as fin;
ghost use Rattle.flat_model.specs.Path.{is_root};
ghost use Rattle.flat_model.specs.CommandText.{IsPid};
ghost use Rattle.flat_model.specs.Counts as flat;
ghost use Rattle.flat_model.specs.Counts.{is_group};
ghost use Rattle.group_tree.specs.Flat.{group_of};

use crate::charges::Charges;
use crate::meter::Meter;
use crate::pid::Pid;
use crate::rows::find_row;
use group_path::GroupPath;
use group_tree::Attr;
use std::alloc::{AllocError, Allocator};

// The pids with these numbers, ascending.
fn ascending<B: Allocator>(numbers: &[u32], alloc: B) -> Result<Vec<Pid, B>, AllocError>
    requires { All IsPid numbers.now }
    ensures moved { IfOk result (λ pids. IsPermutation numbers.now pids.items) }
    ensures sorted { IfOk result (λ pids. IsSorted nat_cmp pids.items) }
{
    let mut pids = Vec::with_capacity(alloc, numbers.len())?;
    for number in numbers {
        pids.push(Pid::of(*number))?;
    }
    pids.sort_unstable();
    Ok(pids)
}

impl<A: Allocator + Clone, M: Meter> Charges<A, M> {
    /// The attributes of the group at the path; None if there is no such group. Costs at most one descent of the tree.
    pub fn attr<B: Allocator + Clone>(&self, path: &GroupPath<B>) -> Option<&Attr>
        ensures { option_map group_of (option_copied result) ≡ fin.get self.now.groups path.now }
    {
        self.tree.find(path)
    }

    /// How many groups are strictly below the group at the path; None if there is no such group. The number is stored, so
    /// this costs at most one descent of the tree.
    pub fn descendants<B: Allocator + Clone>(&self, path: &GroupPath<B>) -> Option<u64>
        ensures some { is_some result ≡ is_group self.now path.now }
        ensures count { IfSome result (λ n. n ≡ flat.descendant_count self.now path.now) }
    {
        self.tree.known();
        self.tree.descendants(path)
    }

    /// The group of a process; None if there is no such process. Takes constant time.
    pub fn home(&self, pid: Pid) -> Option<&GroupPath<A>>
        ensures { option_map (λ home. home.now) result ≡ fin.get self.now.home pid }
    {
        let process = find_row(&self.processes, pid)?;
        Some(&process.home)
    }

    /// The processes of the group itself, ascending; None if there is no such group. Costs one
    /// descent of the tree, and O(n log n) for n pids, whatever the number of other processes.
    ///
    /// # Errors
    ///
    /// `AllocError` if the allocation of the list fails. If there is no such group, nothing is allocated.
    pub fn members<B: Allocator, P: Allocator + Clone>(
        &self,
        alloc: B,
        path: &GroupPath<P>,
    ) -> Result<Option<Vec<Pid, B>>, AllocError>
        ensures listed { IfOk result (λ o. MatchOption o (is_group self.now path.now ≡ false) (λ pids. (is_group self.now path.now ≡ true) × (pids.items ≡ flat.members self.now path.now))) }
        ensures absent { is_group self.now path.now ≡ false → IsOk result }
    {
        let Some(row) = self.tree.find_row(path) else {
            return Ok(None);
        };
        let numbers = self.processes.unordered(row);
        let pids = ascending(numbers, alloc)?;
        Ok(Some(pids))
    }

    /// How many processes are at or below a group; None for the root, and if there is no such group. Costs at most one descent of
    /// the tree.
    pub fn current<B: Allocator + Clone>(&mut self, path: &GroupPath<B>) -> Option<u64>
        ensures some { is_some result ≡ (not (is_root path.now) && is_group self.old path.now) }
        ensures count { IfSome result (λ n. n ≡ flat.current self.old path.now) }
        ensures kept { self.new ≡ self.old }
    {
        if path.depth() == 0 {
            return None;
        }
        self.tree.known();
        let attr = self.tree.find(path)?;
        let slot = attr.slot;
        Some(self.meter.current(slot))
    }

    /// Whether a process is at or below a group; None for the root, and if there is no such group. Costs at most one descent of the
    /// tree.
    pub fn populated<B: Allocator + Clone>(&mut self, path: &GroupPath<B>) -> Option<bool>
        ensures some { is_some result ≡ (not (is_root path.now) && is_group self.old path.now) }
        ensures told { IfSome result (λ b. b ≡ flat.populated self.old path.now) }
        ensures kept { self.new ≡ self.old }
    {
        if path.depth() == 0 {
            return None;
        }
        self.tree.known();
        let attr = self.tree.find(path)?;
        let slot = attr.slot;
        Some(self.meter.populated(slot))
    }
}
