//! The exit of a process, and its undo.

ghost use Rattle.std.specs.Prelude.{◌≡◌, [], None, IsSome, IsOk, IfSome, IfOk, OnErr, OnOk, option_map};
ghost use Rattle.std.specs.FinMap as fin;
ghost use Rattle.flat_model.specs.Command.{Exit};
ghost use Rattle.flat_model.specs.Step.{after_refusal, home_of, refusal};
ghost use Rattle.flat_model.specs.Inverse.{back, Exited};
ghost use Rattle.flat_model.specs.Path.{Path};
ghost use Rattle.pids_charge.specs.Answers.{Decides, names_in, refusal_along};

use crate::charges::Charges;
use crate::fault::ChargeRefusal;
use crate::meter::Meter;
use crate::pid::Pid;
use crate::row::row_in;
use crate::rows::{has_row, put_copy, take_row};
use crate::walk::{charge_up, uncharge_up};
use group_path::GroupPath;
use std::alloc::{AllocError, Allocator};

impl<A: Allocator + Clone, M: Meter> Charges<A, M> {
    /// The refusal that `take_process` would return. It names no group. It is also that of a read of the process's group. Takes
    /// constant time.
    pub fn refuses_exit(&self, pid: Pid) -> Option<ChargeRefusal>
        ensures first { (p : Path) → refusal M.SLOTS self.now (Exit pid) ≡ option_map (refusal_along p) result }
        ensures inside { IfSome result (λ r. names_in r ≡ 0) }
        ensures kept { IfSome result (λ r. (p : Path) → after_refusal self.now (refusal_along p r) ≡ self.now) }
    {
        if !has_row(&self.processes, pid) {
            return Some(ChargeRefusal::NoProcess(pid));
        }
        None
    }

    /// Removes a process and returns its group, by the path that the table had. Allocates nothing, and does not descend the
    /// tree.
    ///
    /// # Errors
    ///
    /// `NoProcess`; nothing has changed then.
    pub fn take_process(&mut self, who: u8, pid: Pid) -> Result<GroupPath<A>, ChargeRefusal>
        ensures state { Decides M.SLOTS self.old (Exit pid) [] result self.new }
        ensures old_home { IfOk result (λ home. home ≡ home_of self.old pid) }
        ensures certain { refusal M.SLOTS self.old (Exit pid) ≡ None → IsOk result }
    {
        let Some(process) = take_row(&mut self.processes, pid) else {
            return Err(ChargeRefusal::NoProcess(pid));
        };
        let stripe = who % M::LEAVES;
        uncharge_up(&self.tree, &mut self.meter, &process, stripe);
        Ok(process.home)
    }

    /// Puts a process into a group, charged at the leaf of `who`. Tests no limit. Costs at most one descent of the tree.
    ///
    /// # Errors
    ///
    /// `AllocError`; nothing has changed then.
    pub fn put_process_back<B: Allocator + Clone>(
        &mut self,
        who: u8,
        pid: Pid,
        path: &GroupPath<B>,
    ) -> Result<(), AllocError>
        requires group { IsSome (fin.get self.old.groups path.now) }
        requires new { fin.get self.old.home pid ≡ None }
        ensures placed { OnOk result (self.new ≡ back (Exited pid path.now) self.old) }
        ensures kept { OnErr result (self.new ≡ self.old) }
    {
        self.tree.known();
        path.known();
        let row = row_in(&self.tree, path);
        let leaf = who % M::LEAVES;
        let _ = put_copy(&mut self.processes, &self.alloc, pid, path, row, leaf)?;
        charge_up(&self.tree, &mut self.meter, row, leaf);
        Ok(())
    }
}
