//! Forks: making a process, counting a fork that a limit refuses, and undoing that count.

ghost use Rattle.std.specs.Prelude.{◌≡◌, ◌≢◌, ℕ, ◌<◌, ◌≤◌, true, false, Some, None, Err, IfSome, IfOk, IfErr, IsTrue, OnOk, OnErr, is_some, MatchOption, length, option_map};
ghost use Rattle.std.specs.BTreeMap.{insert_entry, is_at};
ghost use Rattle.std.specs.List.Sorted.{IsStrictlySortedBy};
ghost use Rattle.std.specs.Map.{keys_of, lookup};
ghost use Rattle.std.specs.Ordering.{nat_cmp};
ghost use Rattle.flat_model.specs.CommandText.{IsPid};
ghost use Rattle.process_table.specs.declared.process.Process.{Process};
ghost use Rattle.flat_model.specs.Path.{Path};
ghost use Rattle.flat_model.specs.Command.{Fork, is_counted};
ghost use Rattle.flat_model.specs.Counts.{has_process};
ghost use Rattle.flat_model.specs.Inverse.{back, Counted, Forked};
ghost use Rattle.flat_model.specs.Step.{after_refusal, refusal, home_of};
ghost use Rattle.flat_model.specs.State.{State};
ghost use Rattle.group_tree.specs.Groups.{Groups};
ghost use Rattle.pids_charge.specs.Answers.{ForksTo, names_in, refusal_along};
ghost use Rattle.pids_charge.specs.Events.{HasRoomForEvents, HasEvents};
ghost use Rattle.pids_charge.specs.Lists.{process_in};
ghost use Rattle.pids_charge.specs.Recount.{state_of};

use crate::above::{Change, change_totals};
use crate::charges::Charges;
use crate::fault::ChargeRefusal;
use crate::meter::Meter;
use crate::notes::{nearest_full, note_up};
use crate::peaks::{Peaks, charge_noted, set_list_up};
use crate::pid::Pid;
use crate::row::row_in;
use crate::rows::{find_row, has_row, put_row, take_row};
use crate::walk::uncharge_up;
use group_path::GroupPath;
use process_table::{Process, ProcessTable};
use std::alloc::{AllocError, Allocator};

/// What becomes of a fork.
#[derive(Drop)]
pub enum ForkOutcome<A: Allocator + Clone> {
    /// The process was made. These are the old peaks of its group and of those above it without the root, from the group upward.
    Made(Peaks<A>),
    /// A limit refused the fork, which was counted.
    Counted {
        /// The group with the limit.
        path: GroupPath<A>,
        /// The same path for another owner. They share a long text.
        shared: GroupPath<A>,
    },
    /// There is no parent, or the pid is in use. Nothing has changed.
    Refused(ChargeRefusal),
}

// The parent of a new process, if there is a parent and no such child. Else the refusal, which names no group and isn't counted.
fn find_parent<A: Allocator + Clone>(
    processes: &ProcessTable<A>,
    parent: Pid,
    child: Pid,
) -> Result<&Process<A>, ChargeRefusal>
    ensures parent { IfOk result (λ from. lookup (is_at (nat_cmp parent)) processes.now ≡ Some from.now) }
    ensures child { OnOk result (is_some (lookup (is_at (nat_cmp child)) processes.now) ≡ false) }
    ensures first { IfErr result (λ r. (slots : ℕ) (tree : Groups) (p : Path) → refusal slots (state_of tree processes.now) (Fork parent child) ≡ Some (refusal_along p r)) }
    ensures inside { IfErr result (λ r. names_in r ≡ 0) }
    ensures no_limit { IfErr result (λ r. (n : ℕ) → r ≢ ChargeRefusal.PidsMax n) }
    ensures uncounted { IfErr result (λ r. (p : Path) → is_counted (refusal_along p r) ≡ false) }
    ensures kept { IfErr result (λ r. (s : State) (p : Path) → after_refusal s (refusal_along p r) ≡ s) }
{
    processes.known();
    let Some(from) = find_row(processes, parent) else {
        return Err(ChargeRefusal::NoProcess(parent));
    };
    if has_row(processes, child) {
        return Err(ChargeRefusal::PidInUse(child));
    }
    Ok(from)
}

// A process in the group of another one, and charged at this leaf. They share the text of a long path.
fn beside<A: Allocator + Clone>(from: &Process<A>, leaf: u8) -> Result<Process<A>, AllocError>
    ensures { IfOk result (λ process. process ≡ process_in from.now.home from.now.row leaf) }
{
    let home = from.home.share()?;
    let row = from.row;
    Ok(Process { home, row, leaf })
}

// All memory for a process: its row of the table, and a list of the old peaks.
fn admit<A: Allocator + Clone>(
    processes: &mut ProcessTable<A>,
    alloc: &A,
    child: Pid,
    process: Process<A>,
    peaks: &[u64],
) -> Result<Peaks<A>, AllocError>
    ensures entries { OnOk result (processes.new ≡ insert_entry nat_cmp processes.old child process) }
    ensures ordered { IsStrictlySortedBy nat_cmp (keys_of processes.new) }
    ensures peaks { IfOk result (λ list. list ≡ peaks.now) }
    ensures kept { OnErr result (processes.new ≡ processes.old) }
    ensures pid { IsPid child }
{
    processes.known();
    child.get();
    let list = Peaks::copy_of(alloc, peaks)?;
    let _ = put_row(processes, child, process)?;
    Ok(list)
}

impl<A: Allocator + Clone, M: Meter> Charges<A, M> {
    /// The refusal that `fork` would return, apart from memory: `NoProcess` of the parent, `PidInUse` of the child, or
    /// `PidsMax`. Counts nothing and changes nothing. Costs a step for each group
    /// from the parent's upward, and no descent of the tree.
    pub fn refuses_fork(&mut self, parent: Pid, child: Pid) -> Option<ChargeRefusal>
        ensures first { refusal M.SLOTS self.old (Fork parent child) ≡ option_map (refusal_along (home_of self.old parent)) result }
        ensures ready { result ≡ None → (has_process self.old parent ≡ true) × (has_process self.old child ≡ false) }
        ensures inside { IfSome result (λ r. names_in r ≤ length (home_of self.old parent)) }
        ensures below_root { (n : ℕ) → result ≡ Some (ChargeRefusal.PidsMax n) → 0 < n }
        ensures kept { self.new ≡ self.old }
    {
        let process = match find_parent(&self.processes, parent, child) {
            Ok(process) => process,
            Err(refusal) => return Some(refusal),
        };
        self.tree.known();
        if let Some(full) = nearest_full(&self.tree, &mut self.meter, &process.home, process.row) {
            return Some(ChargeRefusal::PidsMax(full.names));
        }
        None
    }

    /// The refusal that `fork` would return for its pids: `NoProcess` of the parent, or `PidInUse` of the child. It names no
    /// group, and isn't counted. Takes constant time.
    pub fn refuses_pids(&self, parent: Pid, child: Pid) -> Option<ChargeRefusal>
        ensures first { MatchOption result ((has_process self.now parent ≡ true) × (has_process self.now child ≡ false)) (λ r. (p : Path) → refusal M.SLOTS self.now (Fork parent child) ≡ Some (refusal_along p r)) }
        ensures inside { IfSome result (λ r. names_in r ≡ 0) }
        ensures no_limit { IfSome result (λ r. (n : ℕ) → r ≢ ChargeRefusal.PidsMax n) }
        ensures uncounted { IfSome result (λ r. (p : Path) → is_counted (refusal_along p r) ≡ false) }
        ensures kept { IfSome result (λ r. (p : Path) → after_refusal self.now (refusal_along p r) ≡ self.now) }
    {
        match find_parent(&self.processes, parent, child) {
            Ok(_) => None,
            Err(refusal) => Some(refusal),
        }
    }

    /// Makes a process in the group of its parent, charged at the leaf of `who`, and raises the peaks of that group and of those
    /// above it other than the root. If the `pids.max` of one of these groups refuses it, counts the refused fork at the nearest
    /// such group: adds one to the local total of that group, and one to the totals of that group and of the groups above it other
    /// than the root. `can_count` says that the totals have room for one more. The first refusal that applies is `NoProcess` of the
    /// parent, `PidInUse` of the child, or that of a limit. Costs some steps for each of these groups, and no descent of the tree.
    ///
    /// # Errors
    ///
    /// `AllocError`, also for a fork that a limit refuses and that can't be counted. Nothing has changed then.
    pub fn fork_or_count(
        &mut self,
        who: u8,
        parent: Pid,
        child: Pid,
        can_count: bool,
    ) -> Result<ForkOutcome<A>, AllocError>
        requires { IsTrue can_count → HasRoomForEvents self.old }
        ensures forked { IfOk result (λ forked. ForksTo M.SLOTS self.old parent child forked self.new) }
        ensures ready { OnErr result ((has_process self.old parent ≡ true) × (has_process self.old child ≡ false)) }
        ensures kept { OnErr result (self.new ≡ self.old) }
    {
        self.tree.known();
        let from = match find_parent(&self.processes, parent, child) {
            Ok(from) => from,
            Err(refusal) => return Ok(ForkOutcome::Refused(refusal)),
        };
        let row = from.row;
        if let Some(full) = nearest_full(&self.tree, &mut self.meter, &from.home, row) {
            if !can_count {
                return Err(AllocError);
            }
            let path = from.home.front(self.alloc.clone()?, full.names)?;
            let shared = path.share()?;
            change_totals(&mut self.tree, full.row, Change::Raise);
            self.tree.known();
            return Ok(ForkOutcome::Counted { path, shared });
        }
        let notes = note_up(&self.tree, row);
        let leaf = who % M::LEAVES;
        let process = beside(from, leaf)?;
        let peaks = admit(
            &mut self.processes,
            &self.alloc,
            child,
            process,
            notes.peaks(),
        )?;
        charge_noted(&mut self.tree, &mut self.meter, row, leaf, &notes);
        Ok(ForkOutcome::Made(peaks))
    }

    /// Undoes a fork: removes the process, and sets the peaks of its group and of those above it, without the root. There is
    /// one peak for each, from the group upward. Allocates nothing, and does not descend the tree.
    pub fn unfork<B: Allocator + Clone>(&mut self, who: u8, pid: Pid, peaks: &Peaks<B>)
        requires process { has_process self.old pid ≡ true }
        requires many { length peaks.now ≡ length (home_of self.old pid) }
        ensures { self.new ≡ back (Forked pid peaks.now) self.old }
    {
        self.tree.known();
        let Some(process) = take_row(&mut self.processes, pid) else {
            unreachable!()
        };
        let stripe = who % M::LEAVES;
        uncharge_up(&self.tree, &mut self.meter, &process, stripe);
        process.home.known();
        set_list_up(&mut self.tree, process.row, peaks);
        self.tree.known();
    }

    /// Undoes the count of one refused fork. `path` is the group that refused it. Subtracts one from its local total, and
    /// one from the totals of it and of the groups above it other than the root. Allocates nothing. Costs at most one descent of the
    /// tree.
    pub fn uncount<B: Allocator + Clone>(&mut self, path: &GroupPath<B>)
        requires { HasEvents self.old path.now }
        ensures { self.new ≡ back (Counted path.now) self.old }
    {
        let at = row_in(&self.tree, path);
        change_totals(&mut self.tree, at, Change::Lower);
        self.tree.known();
    }
}
