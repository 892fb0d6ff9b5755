//! Moving processes, and undoing a move.

ghost use Rattle.std.specs.Prelude.{◌≡◌, ◌≤◌, true, length, None, Some, IsSome, IfSome, IfOk, IfErr, OnOk, OnErr, option_map};
ghost use Rattle.std.specs.FinMap as fin;
ghost use Rattle.flat_model.specs.Command.{Move};
ghost use Rattle.flat_model.specs.Counts.{has_process};
ghost use Rattle.flat_model.specs.Inverse.{back, Moved};
ghost use Rattle.flat_model.specs.State.{State};
ghost use Rattle.flat_model.specs.Step.{after_refusal, home_of, refusal};
ghost use Rattle.pids_charge.specs.Answers.{MovesTo, names_in, refusal_along};
ghost use Rattle.pids_charge.specs.Lists.{row_at};
ghost use Rattle.pids_charge.specs.Recount.{state_of};

use crate::charges::Charges;
use crate::fault::ChargeRefusal;
use crate::groups::GroupTable;
use crate::meter::Meter;
use crate::notes::note_up;
use crate::peaks::{Peaks, charge_noted, set_list_up};
use crate::pid::Pid;
use crate::row::row_in;
use crate::rows::{has_row, put_copy, put_shared};
use crate::walk::{charge_up, uncharge_up};
use group_path::GroupPath;
use process_table::ProcessTable;
use std::alloc::{AllocError, Allocator};

/// What a move leaves behind: the old group of the process, and the old peaks of the groups along its new path.
#[derive(Drop)]
pub struct Shifted<A: Allocator + Clone> {
    pub path: GroupPath<A>,
    pub peaks: Peaks<A>,
}

/// What becomes of a move.
#[derive(Drop)]
pub enum MoveOutcome<A: Allocator + Clone> {
    /// The process was moved.
    Moved {
        /// The group that it moved to, in the allocator of the charges. A long text is shared with the process.
        to: GroupPath<A>,
        /// What it left.
        left: Shifted<A>,
    },
    /// There is no such group, or no such process. Nothing has changed.
    Refused(ChargeRefusal),
}

// The row of the group, if the process may move there. Else the refusal.
fn row_for<M: Meter, T: Allocator + Clone, A: Allocator + Clone, B: Allocator + Clone>(
    tree: &GroupTable<T>,
    processes: &ProcessTable<A>,
    path: &GroupPath<B>,
    pid: Pid,
) -> Result<u16, ChargeRefusal>
    ensures allowed { OnOk result (refusal M.SLOTS (state_of tree.now processes.now) (Move path.now pid) ≡ None) }
    ensures row { IfOk result (λ row. IsSome (fin.get tree.now path.now) × (row ≡ row_at tree.now path.now)) }
    ensures first { IfErr result (λ r. refusal M.SLOTS (state_of tree.now processes.now) (Move path.now pid) ≡ Some (refusal_along path.now r)) }
    ensures inside { IfErr result (λ r. names_in r ≤ length path.now) }
    ensures kept { IfErr result (λ r. (s : State) → after_refusal s (refusal_along path.now r) ≡ s) }
{
    processes.known();
    let Some(row) = tree.find_row(path) else {
        return Err(ChargeRefusal::NoGroup(path.depth()));
    };
    if !has_row(processes, pid) {
        return Err(ChargeRefusal::NoProcess(pid));
    }
    Ok(row)
}

impl<A: Allocator + Clone, M: Meter> Charges<A, M> {
    /// The refusal that `migrate` would return, apart from memory. Costs at most one descent of the tree.
    pub fn refuses_move<B: Allocator + Clone>(
        &self,
        path: &GroupPath<B>,
        pid: Pid,
    ) -> Option<ChargeRefusal>
        ensures first { refusal M.SLOTS self.now (Move path.now pid) ≡ option_map (refusal_along path.now) result }
        ensures inside { IfSome result (λ r. names_in r ≤ length path.now) }
        ensures kept { IfSome result (λ r. after_refusal self.now (refusal_along path.now r) ≡ self.now) }
    {
        match row_for::<M, _, _, _>(&self.tree, &self.processes, path, pid) {
            Ok(_) => None,
            Err(refusal) => Some(refusal),
        }
    }

    /// Moves a process to the group, where it is charged at the leaf of `who`, and then raises the peaks of the group and of
    /// those above it other than the root. Returns its old group, by the path that the table had, the old peaks of the groups
    /// along the new path, and that path. Tests no limit. The first refusal that applies is `NoGroup` or `NoProcess`. Costs at
    /// most one descent of the tree.
    ///
    /// # Errors
    ///
    /// `AllocError`; nothing has changed then.
    pub fn move_process<B: Allocator + Clone>(
        &mut self,
        who: u8,
        pid: Pid,
        path: &GroupPath<B>,
    ) -> Result<MoveOutcome<A>, AllocError>
        ensures moved { IfOk result (λ moved. MovesTo M.SLOTS self.old pid path.now moved self.new) }
        ensures ready { OnErr result (refusal M.SLOTS self.old (Move path.now pid) ≡ None) }
        ensures kept { OnErr result (self.new ≡ self.old) }
    {
        let row = match row_for::<M, _, _, _>(&self.tree, &self.processes, path, pid) {
            Ok(row) => row,
            Err(refusal) => return Ok(MoveOutcome::Refused(refusal)),
        };
        let notes = note_up(&self.tree, row);
        let peaks = Peaks::copy_of(&self.alloc, notes.peaks())?;
        self.tree.known();
        path.known();
        let leaf = who % M::LEAVES;
        let (to, replaced) = put_shared(&mut self.processes, &self.alloc, pid, path, row, leaf)?;
        let Some(before) = replaced else {
            unreachable!()
        };
        uncharge_up(&self.tree, &mut self.meter, &before, leaf);
        charge_noted(&mut self.tree, &mut self.meter, row, leaf, &notes);
        let left = Shifted {
            path: before.home,
            peaks,
        };
        Ok(MoveOutcome::Moved { to, left })
    }

    /// Undoes a move: puts the process into its old group, charged at the leaf of `who`, and sets the peaks of the group that
    /// it leaves and of those above it, without the root. There is one peak for each, from the group upward. Tests no limit.
    /// Costs at most one descent of the tree.
    ///
    /// # Errors
    ///
    /// `AllocError`; nothing has changed then.
    pub fn unmove<B: Allocator + Clone>(
        &mut self,
        who: u8,
        pid: Pid,
        path: &GroupPath<B>,
        peaks: &Peaks<B>,
    ) -> Result<(), AllocError>
        requires group { IsSome (fin.get self.old.groups path.now) }
        requires process { has_process self.old pid ≡ true }
        requires many { length peaks.now ≡ length (home_of self.old pid) }
        ensures placed { OnOk result (self.new ≡ back (Moved pid path.now peaks.now) self.old) }
        ensures kept { OnErr result (self.new ≡ self.old) }
    {
        self.tree.known();
        path.known();
        let row = row_in(&self.tree, path);
        let leaf = who % M::LEAVES;
        let replaced = put_copy(&mut self.processes, &self.alloc, pid, path, row, leaf)?;
        let Some(before) = replaced else {
            unreachable!()
        };
        uncharge_up(&self.tree, &mut self.meter, &before, leaf);
        charge_up(&self.tree, &mut self.meter, row, leaf);
        set_list_up(&mut self.tree, before.row, peaks);
        self.tree.known();
        Ok(())
    }
}
