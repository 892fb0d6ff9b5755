//! The table of processes.

ghost use Rattle.std.specs.Prelude.{◌≡◌, ℕ, List, [], IsSome, map, filter, count_by, eqb, is_some, IfOk, OnOk, OnErr};
ghost use Rattle.std.specs.BTreeMap.{insert_entry, is_at};
ghost use Rattle.std.specs.List.{All};
ghost use Rattle.std.specs.List.Sorted.{IsStrictlySortedBy, IsPermutation, IsSorted};
ghost use Rattle.std.specs.Map.{keys_of, lookup, remove_entry};
ghost use Rattle.std.specs.Option.{option_copied};
ghost use Rattle.std.specs.Ordering.{nat_cmp};
ghost use Rattle.flat_model.specs.Path.{at_or_below};
ghost use Rattle.process_table.specs.Chosen.{HaveOneHome, member_at};

use crate::gather::gather;
use crate::members::RowMembers;
use crate::pages::Pages;
use crate::process::Process;
use crate::tied::{put_in, take_out};
use group_path::GroupPath;
use std::alloc::{AllocError, Allocator};
use std::marker::Model;

/// Processes by their pids, and by the rows of their groups. Contracts see the list of pids with processes, pids
/// ascending.
#[derive(Drop)]
pub struct ProcessTable<A: Allocator + Clone> {
    pages: Pages<A>,
    members: RowMembers<A>,
    alloc: A,
}

impl<A: Allocator + Clone> Model for ProcessTable<A> {
    ghost use Rattle.std.specs.Prelude.{ℕ, List};
    ghost use Rattle.process_table.specs.declared.process.Process.{Process};
    ghost use Rattle.process_table.specs.Cells.{cell_at};
    ghost use Rattle.process_table.specs.Rows.{table_of};
    ghost use Rattle.process_table.specs.Tied.{IsTied};

    ghost Value = { List (ℕ × Process A) };

    ghost view = { λ t. table_of t.pages };

    ghost invariant = { λ t. IsTied (cell_at t.pages) t.members };
}

impl<A: Allocator + Clone> ProcessTable<A> {
    /// Creates an empty table. Allocates nothing.
    ///
    /// # Errors
    ///
    /// `AllocError` if the allocator could not be cloned.
    pub fn new(alloc: A) -> Result<ProcessTable<A>, AllocError>
        ensures { IfOk result (λ t. t ≡ []) }
    {
        let pages = Pages::new(alloc.clone()?);
        let members = RowMembers::new(alloc.clone()?);
        Ok(ProcessTable {
            pages,
            members,
            alloc,
        })
    }

    /// Gives callers the fact that pids ascend. It is proof only.
    pub fn known(&self)
        ensures { IsStrictlySortedBy nat_cmp (keys_of self.now) }
    {
        let _ = &self.pages;
    }

    /// The process with this pid, in constant time.
    pub fn get(&self, pid: u32) -> Option<&Process<A>>
        ensures { option_copied result ≡ lookup (is_at (nat_cmp pid)) self.now }
    {
        let cell = self.pages.get(pid)?;
        Some(&cell.process)
    }

    /// Whether a process has this pid, in constant time.
    pub fn has(&self, pid: u32) -> bool
        ensures { result ≡ is_some (lookup (is_at (nat_cmp pid)) self.now) }
    {
        self.get(pid).is_some()
    }

    /// Inserts a process, and returns the one that had this pid, if any. Takes constant time besides allocation.
    ///
    /// # Errors
    ///
    /// `AllocError` when out of memory. The table is unchanged then, and the process is dropped.
    pub fn insert(
        &mut self,
        pid: u32,
        process: Process<A>,
    ) -> Result<Option<Process<A>>, AllocError>
        ensures old { IfOk result (λ old. old ≡ lookup (is_at (nat_cmp pid)) self.old) }
        ensures entries { OnOk result (self.new ≡ insert_entry nat_cmp self.old pid process) }
        ensures kept { OnErr result (self.new ≡ self.old) }
        ensures ordered { IsStrictlySortedBy nat_cmp (keys_of self.new) }
    {
        self.pages.grow(&self.alloc, pid)?;
        self.members.grow(&self.alloc, process.row)?;
        put_in(&mut self.pages, &mut self.members, pid, process)
    }

    /// Removes a process and returns it, in constant time. Allocates nothing.
    pub fn take(&mut self, pid: u32) -> Option<Process<A>>
        ensures value { result ≡ lookup (is_at (nat_cmp pid)) self.old }
        ensures entries { self.new ≡ remove_entry (is_at (nat_cmp pid)) self.old }
        ensures ordered { IsStrictlySortedBy nat_cmp (keys_of self.new) }
    {
        take_out(&mut self.pages, &mut self.members, pid)
    }

    /// The pids of the processes in a row, in no order. Takes constant time and allocates nothing.
    pub fn unordered(&self, row: u16) -> &[u32]
        ensures present { All (λ q. IsSome (lookup (is_at (nat_cmp q)) self.now)) result.now }
        ensures counted { (q : ℕ) → count_by (eqb q) result.now ≡ member_at row (lookup (is_at (nat_cmp q)) self.now) }
        ensures sorted { (pids : List ℕ) → IsPermutation result.now pids → IsSorted nat_cmp pids → pids ≡ map (λ e. e.0) (filter (λ e. eqb e.1.row row) self.now) }
    {
        self.members.pids(usize::from(row))
    }

    /// The pids of the processes at or below a group, ascending. The processes of a row must all be in one group.
    /// Takes O(n log n) for n pids, plus one test of a path for each row that has been used.
    ///
    /// # Errors
    ///
    /// `AllocError` when out of memory.
    pub fn inside<B: Allocator, P: Allocator + Clone>(
        &self,
        alloc: B,
        path: &GroupPath<P>,
    ) -> Result<Vec<u32, B>, AllocError>
        requires { HaveOneHome (λ q. lookup (is_at (nat_cmp q)) self.now) }
        ensures { IfOk result (λ pids. pids.items ≡ map (λ e. e.0) (filter (λ e. at_or_below e.1.home path.now) self.now)) }
    {
        let mut pids = gather(&self.pages, &self.members, alloc, path)?;
        pids.sort_unstable();
        Ok(pids)
    }
}
