//! The calls on charges that the specification names and no program of this repository makes: each decides and acts in one
//! call, or has one error for memory and refusals. The engine makes the calls that they are made of.

ghost use Rattle.std.specs.Prelude.{◌≡◌, true, ◌<◌, ◌≤◌, ◌&&◌, ℕ, [], length, eqb, map, take, IsOk, None, Some, IsSome, IfOk, IfErr, IfSome, OnErr, OnOk};
ghost use Rattle.std.specs.FinMap as fin;
ghost use Rattle.std.specs.List.{All, IsDistinct};
ghost use Rattle.flat_model.specs.Counts.{has_process};
ghost use Rattle.flat_model.specs.Path.{parent};
ghost use Rattle.flat_model.specs.Command.{MakeGroup, RemoveGroup, Fork, Exit, Move, SetLimit, Kill, OverPidsMax};
ghost use Rattle.flat_model.specs.Inverse as inverse;
ghost use Rattle.flat_model.specs.Inverse.{back, Removed, Exited, Killed};
ghost use Rattle.flat_model.specs.Step.{after_refusal, attr_of, home_of, limit_at, peaks_upward, refusal};
ghost use Rattle.flat_model.specs.Step as flat;
ghost use Rattle.group_tree.specs.Flat.{group_of, limit_file_of, limit_of};
ghost use Rattle.pids_charge.specs.Answers.{Does, names_in, refusal_in};
ghost use Rattle.pids_charge.specs.Events.{HasRoomForEvents};
ghost use Rattle.pids_charge.specs.Lists.{rows_of, row_at};

use crate::above::{Change, change_totals, row_up, set_peaks_up};
use crate::charges::Charges;
use crate::fault::{ChargeFault, ChargeRefusal};
use crate::fork::ForkOutcome;
use crate::gate::Gate;
use crate::groups::GroupTable;
use crate::lost::{Lost, LostList};
use crate::meter::Meter;
use crate::migrate::{MoveOutcome, Shifted};
use crate::peaks::Peaks;
use crate::pid::Pid;
use crate::rows::find_row;
use crate::settler::{Settler, with_threads};
use group_path::GroupPath;
use group_tree::{Attr, Limit, LimitFile};
use std::alloc::Allocator;
use std::sync::Wait;
use std::thread::Threads;

// How many first names of the path are a group, at most all of them, and that group's row.
fn find_longest<T: Allocator + Clone, A: Allocator + Clone>(
    tree: &GroupTable<T>,
    path: &GroupPath<A>,
) -> (usize, u16)
    ensures inside { result.0 ≤ length path.now }
    ensures group { IsSome (fin.get tree.now (take result.0 path.now)) }
    ensures row { result.1 ≡ row_at tree.now (take result.0 path.now) }
    ensures missing { (n : ℕ) → result.0 < n → n ≤ length path.now → fin.get tree.now (take n path.now) ≡ None }
{
    tree.known();
    let mut n = path.depth();
    while n > 0 {
        if let Some(row) = tree.find_row_at(path, n) {
            return (n, row);
        }
        n -= 1;
    }
    (0, 0)
}

impl<A: Allocator + Clone, M: Meter> Charges<A, M> {
    /// Makes a group under an existing one, with no limits and event totals of 0, on a free slot. Costs at most four descents of
    /// the tree: the group and its parent are looked up, the parent again, and the group is inserted. The limits above it are
    /// tested from row to row.
    ///
    /// # Errors
    ///
    /// The first of these that applies: `Exists`; `NoGroup` of the parent; `Descendants` or `Depth` of the first group from
    /// the parent upward whose limit is met; `NoSlot`; `OutOfMemory`. Nothing has changed then.
    pub fn mkdir<B: Allocator + Clone>(&mut self, path: &GroupPath<B>) -> Result<(), ChargeFault>
        ensures state { Does M.SLOTS self.old (MakeGroup path.now) path.now result self.new }
        ensures inside { IfErr result (λ f. IfSome (refusal_in f) (λ r. names_in r ≤ length path.now)) }
    {
        if let Some(refusal) = self.refuses_mkdir(path) {
            return Err(ChargeFault::from(refusal));
        }
        Ok(self.make_group(path)?)
    }

    /// Removes a group that has no groups below it and no processes, and returns its attributes. Allocates nothing. Costs at
    /// most two descents of the tree: the count says whether there are processes. The groups above it keep their event totals.
    ///
    /// # Errors
    ///
    /// The first of these that applies: `RootFixed`, `NoGroup`, `HasChildren`, `HasProcesses`. Nothing has changed then.
    pub fn rmdir<B: Allocator + Clone>(&mut self, path: &GroupPath<B>) -> Result<Attr, ChargeFault>
        ensures state { Does M.SLOTS self.old (RemoveGroup path.now) path.now result self.new }
        ensures inside { IfErr result (λ f. IfSome (refusal_in f) (λ r. names_in r ≤ length path.now)) }
        ensures attr { IfOk result (λ attr. Some (group_of attr) ≡ fin.get self.old.groups path.now) }
        ensures certain { refusal M.SLOTS self.old (RemoveGroup path.now) ≡ None → IsOk result }
    {
        if let Some(refusal) = self.refuses_rmdir(path) {
            return Err(ChargeFault::from(refusal));
        }
        Ok(self.take_group(path))
    }

    /// Counts a fork that the group at the first `n` names of the parent's path refuses. Adds one to the local total of that
    /// group, and one to the totals of that group and of the groups above it other than the root. Allocates nothing. Does not
    /// descend the tree.
    pub fn count_fork(&mut self, parent: Pid, n: usize)
        requires parent { has_process self.old parent ≡ true }
        requires below_root { 0 < n }
        requires at { n ≤ length (home_of self.old parent) }
        requires room { HasRoomForEvents self.old }
        ensures { self.new ≡ after_refusal self.old (OverPidsMax (take n (home_of self.old parent))) }
    {
        let Some(process) = find_row(&self.processes, parent) else {
            unreachable!()
        };
        self.tree.known();
        let levels = process.home.depth() - n;
        let at = row_up(&self.tree, process.row, levels);
        change_totals(&mut self.tree, at, Change::Raise);
        self.tree.known();
    }

    /// Makes a process in the group of its parent, charged at the leaf of `who`. Raises the peaks of that group and of those
    /// above it other than the root. Returns their old peaks, from the group upward. Costs some steps for each of these
    /// groups, and no descent of the tree, whether a limit refuses it or not.
    ///
    /// # Errors
    ///
    /// The first of these that applies: `NoProcess` of the parent, `PidInUse` of the child, `PidsMax`, `OutOfMemory`.
    /// `PidsMax(n)` names the nearest group, from the parent's upward, whose `pids.max` one more process would exceed: its
    /// path is the first n names of the parent's path. `PidsMax` counts the refused fork: it adds one to the local total of
    /// that group, and one to the totals of that group and of the groups above it other than the root. Nothing else changes,
    /// no peak either. The other three change nothing.
    pub fn fork(&mut self, who: u8, parent: Pid, child: Pid) -> Result<Peaks<A>, ChargeFault>
        requires { HasRoomForEvents self.old }
        ensures state { Does M.SLOTS self.old (Fork parent child) (home_of self.old parent) result self.new }
        ensures inside { IfErr result (λ f. IfSome (refusal_in f) (λ r. names_in r ≤ length (home_of self.old parent))) }
        ensures peaks { IfOk result (λ peaks. peaks ≡ peaks_upward self.old (home_of self.old parent)) }
    {
        if let Some(refusal) = self.refuses_fork(parent, child) {
            if let ChargeRefusal::PidsMax(n) = refusal {
                self.count_fork(parent, n);
            }
            return Err(ChargeFault::from(refusal));
        }
        match self.fork_or_count(who, parent, child, true)? {
            ForkOutcome::Made(peaks) => Ok(peaks),
            ForkOutcome::Counted { .. } => unreachable!(),
            ForkOutcome::Refused(_) => unreachable!(),
        }
    }

    /// `take_process`.
    ///
    /// # Errors
    ///
    /// `NoProcess`; nothing has changed then.
    pub fn exit(&mut self, who: u8, pid: Pid) -> Result<GroupPath<A>, ChargeFault>
        ensures state { Does M.SLOTS self.old (Exit pid) [] result self.new }
        ensures old_home { IfOk result (λ home. home ≡ home_of self.old pid) }
        ensures certain { refusal M.SLOTS self.old (Exit pid) ≡ None → IsOk result }
    {
        Ok(self.take_process(who, pid)?)
    }

    /// `replace_limit`.
    ///
    /// # Errors
    ///
    /// `NoFile` for the `pids.max` of the root, then `NoGroup`. Nothing has changed then.
    pub fn set_limit<B: Allocator + Clone>(
        &mut self,
        path: &GroupPath<B>,
        file: LimitFile,
        limit: Limit,
    ) -> Result<Limit, ChargeFault>
        ensures state { Does M.SLOTS self.old (SetLimit path.now (limit_file_of file) (limit_of limit)) path.now result self.new }
        ensures inside { IfErr result (λ f. IfSome (refusal_in f) (λ r. names_in r ≤ length path.now)) }
        ensures old_limit { IfOk result (λ old. limit_of old ≡ limit_at (limit_file_of file) (attr_of self.old path.now)) }
        ensures certain { refusal M.SLOTS self.old (SetLimit path.now (limit_file_of file) (limit_of limit)) ≡ None → IsOk result }
    {
        Ok(self.replace_limit(path, file, limit)?)
    }

    /// `move_process`, without the new path.
    ///
    /// # Errors
    ///
    /// The first of these that applies: `NoGroup`, `NoProcess`, `OutOfMemory`. Nothing has changed then.
    pub fn migrate<B: Allocator + Clone>(
        &mut self,
        who: u8,
        pid: Pid,
        path: &GroupPath<B>,
    ) -> Result<Shifted<A>, ChargeFault>
        ensures state { Does M.SLOTS self.old (Move path.now pid) path.now result self.new }
        ensures inside { IfErr result (λ f. IfSome (refusal_in f) (λ r. names_in r ≤ length path.now)) }
        ensures old_home { IfOk result (λ shifted. shifted.path ≡ home_of self.old pid) }
        ensures peaks { IfOk result (λ shifted. shifted.peaks ≡ peaks_upward self.old path.now) }
    {
        match self.move_process(who, pid, path)? {
            MoveOutcome::Moved { left, .. } => Ok(left),
            MoveOutcome::Refused(refusal) => Err(ChargeFault::from(refusal)),
        }
    }

    /// Removes all processes at or below the group, and returns each with its path; pids ascend. Costs time in the number
    /// of these processes, plus a look at each row, and a walk up from each that has processes. Passes all charges to the
    /// meter at once. It may wait for the threads that do parts of the settlement.
    ///
    /// # Errors
    ///
    /// The first of these that applies: `NoFile` for the root, `NoGroup`, `OutOfMemory`. Nothing has changed then.
    pub fn kill<R: Threads + Wait + Sync, B: Allocator + Clone>(
        &mut self,
        rt: &R,
        gate: &(dyn Gate + Sync),
        who: u8,
        path: &GroupPath<B>,
    ) -> Result<LostList<A>, ChargeFault>
        ensures state { Does M.SLOTS self.old (Kill path.now) path.now result self.new }
        ensures inside { IfErr result (λ f. IfSome (refusal_in f) (λ r. names_in r ≤ length path.now)) }
        ensures taken { IfOk result (λ list. list ≡ inverse.lost self.old path.now) }
    {
        self.kill_by(&with_threads(rt, gate), who, path)
    }

    /// `kill` by this settler.
    ///
    /// # Errors
    ///
    /// Those of `kill`.
    pub fn kill_by<S: Settler, B: Allocator + Clone>(
        &mut self,
        settler: &S,
        who: u8,
        path: &GroupPath<B>,
    ) -> Result<LostList<A>, ChargeFault>
        ensures state { Does M.SLOTS self.old (Kill path.now) path.now result self.new }
        ensures inside { IfErr result (λ f. IfSome (refusal_in f) (λ r. names_in r ≤ length path.now)) }
        ensures taken { IfOk result (λ list. list ≡ inverse.lost self.old path.now) }
    {
        if let Some(refusal) = self.refuses_kill(path) {
            return Err(ChargeFault::from(refusal));
        }
        Ok(self.take_processes(settler, who, path)?)
    }

    /// `put_group_back`.
    ///
    /// # Errors
    ///
    /// `OutOfMemory`; nothing has changed then.
    pub fn restore<B: Allocator + Clone>(
        &mut self,
        path: &GroupPath<B>,
        attr: Attr,
    ) -> Result<(), ChargeFault>
        requires new { fin.get self.old.groups path.now ≡ None }
        requires parent { IsSome (fin.get self.old.groups (parent path.now)) }
        requires slot { fin.len self.old.groups ≤ M.SLOTS }
        ensures restored { OnOk result (self.new ≡ back (Removed path.now (group_of attr)) self.old) }
        ensures memory { IfErr result (λ f. f ≡ ChargeFault.OutOfMemory) }
        ensures kept { OnErr result (self.new ≡ self.old) }
    {
        Ok(self.put_group_back(path, attr)?)
    }

    /// `put_process_back`.
    ///
    /// # Errors
    ///
    /// `OutOfMemory`; nothing has changed then.
    pub fn place<B: Allocator + Clone>(
        &mut self,
        who: u8,
        pid: Pid,
        path: &GroupPath<B>,
    ) -> Result<(), ChargeFault>
        requires group { IsSome (fin.get self.old.groups path.now) }
        requires new { fin.get self.old.home pid ≡ None }
        ensures placed { OnOk result (self.new ≡ back (Exited pid path.now) self.old) }
        ensures memory { IfErr result (λ f. f ≡ ChargeFault.OutOfMemory) }
        ensures kept { OnErr result (self.new ≡ self.old) }
    {
        Ok(self.put_process_back(who, pid, path)?)
    }

    /// Puts the listed processes back into their groups, charged at the leaf of `who`, or none of them. Passes all charges
    /// to the meter at once. It may wait for the threads that do parts of the settlement.
    ///
    /// # Errors
    ///
    /// `OutOfMemory`; nothing has changed then.
    pub fn place_all<R: Threads + Wait + Sync, B: Allocator + Clone>(
        &mut self,
        rt: &R,
        gate: &(dyn Gate + Sync),
        who: u8,
        list: &[Lost<B>],
    ) -> Result<(), ChargeFault>
        requires homes { All (λ l. IsSome (fin.get self.old.groups l.path)) list.now }
        requires new { All (λ l. fin.get self.old.home l.pid ≡ None) list.now }
        requires apart { IsDistinct eqb (map (λ l. l.pid) list.now) }
        ensures placed { OnOk result (self.new ≡ back (Killed (rows_of list.now)) self.old) }
        ensures memory { IfErr result (λ f. f ≡ ChargeFault.OutOfMemory) }
        ensures kept { OnErr result (self.new ≡ self.old) }
    {
        self.place_all_by(&with_threads(rt, gate), who, list)
    }

    /// `place_all` by this settler.
    ///
    /// # Errors
    ///
    /// That of `place_all`.
    pub fn place_all_by<S: Settler, B: Allocator + Clone>(
        &mut self,
        settler: &S,
        who: u8,
        list: &[Lost<B>],
    ) -> Result<(), ChargeFault>
        requires homes { All (λ l. IsSome (fin.get self.old.groups l.path)) list.now }
        requires new { All (λ l. fin.get self.old.home l.pid ≡ None) list.now }
        requires apart { IsDistinct eqb (map (λ l. l.pid) list.now) }
        ensures placed { OnOk result (self.new ≡ back (Killed (rows_of list.now)) self.old) }
        ensures memory { IfErr result (λ f. f ≡ ChargeFault.OutOfMemory) }
        ensures kept { OnErr result (self.new ≡ self.old) }
    {
        Ok(self.put_processes_back(settler, who, list)?)
    }

    /// Sets the peaks of the group at the path and of the groups above it, without the root: one for each name of the path,
    /// from the group upward. It doesn't compare them with the counts. If no given peak is lower than its group's count,
    /// none is afterwards. Allocates nothing. Costs one descent of the tree.
    pub fn set_peaks<B: Allocator + Clone>(&mut self, path: &GroupPath<B>, peaks: &[u64])
        requires { length peaks.now ≡ length path.now }
        ensures { self.new ≡ flat.set_peaks path.now peaks.now self.old }
    {
        self.tree.known();
        let (n, row) = find_longest(&self.tree, path);
        set_peaks_up(&mut self.tree, row, &peaks[peaks.len() - n..]);
        self.tree.known();
    }
}
