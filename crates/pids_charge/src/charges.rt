//! Groups and processes with their charges.

ghost use Rattle.std.specs.Prelude.{◌≡◌, ◌≤◌, IfOk};
ghost use Rattle.std.specs.Vec.{vec_capacity};
ghost use Rattle.flat_model.specs.State.{start};
ghost use Rattle.pids_charge.specs.Content.{IsEmpty};
ghost use Rattle.pids_charge.specs.Recount.{AreAllFree};

use crate::groups::GroupTable;
use crate::meter::Meter;
use crate::pid::Pid;
use crate::rows::put_row;
use group_path::GroupPath;
use group_tree::Attr;
use process_table::{Process, ProcessTable};
use std::alloc::{AllocError, Allocator};
use std::marker::Model;

/// Groups and processes. Each process is charged at its group and at every group above it other than the root. Contracts see
/// the flat state.
#[derive(Drop)]
pub struct Charges<A: Allocator + Clone, M: Meter> {
    pub(crate) tree: GroupTable<A>,
    pub(crate) processes: ProcessTable<A>,
    pub(crate) free: Vec<u16, A>,
    pub(crate) meter: M,
    pub(crate) alloc: A,
}

impl<A: Allocator + Clone, M: Meter> Model for Charges<A, M> {
    ghost use Rattle.std.specs.Prelude.{◌≤◌};
    ghost use Rattle.std.specs.Vec.{vec_capacity};
    ghost use Rattle.flat_model.specs.State.{State};
    ghost use Rattle.flat_model.specs.StateCodes.{state_code};
    ghost use Rattle.pids_charge.specs.Recount.{IsWhole, state_of};

    ghost Value = { State };

    ghost coded = { state_code };

    ghost view = { λ c. state_of c.tree c.processes };

    ghost invariant = { λ c. IsWhole M.SLOTS M.LEAVES c.tree c.processes c.free.items (vec_capacity c.free) (M.content c.meter) (M.held c.meter) };
}

/// All slots, the lowest last, in a table with room for exactly these. The last is used first, so low slots are used
/// first.
fn all_slots<A: Allocator>(alloc: A, slots: u16) -> Result<Vec<u16, A>, AllocError>
    ensures free { IfOk result (λ free. AreAllFree slots free.items) }
    ensures room { IfOk result (λ free. slots ≤ vec_capacity free) }
{
    let mut free = Vec::with_capacity(alloc, usize::from(slots))?;
    for slot in (0..slots).rev() {
        free.push(slot)?;
    }
    Ok(free)
}

impl<A: Allocator + Clone, M: Meter + Drop> Charges<A, M> {
    /// The root with process 1 in it, over an empty meter. All slots are free. It allocates the root, the table of
    /// processes, and tables of free slots and of hints.
    ///
    /// # Errors
    ///
    /// `AllocError` when out of memory; the meter is then dropped.
    pub fn new(alloc: A, meter: M) -> Result<Charges<A, M>, AllocError>
        requires { IsEmpty (M.content meter) (M.held meter) }
        ensures { IfOk result (λ c. c ≡ start) }
    {
        let home = GroupPath::root(alloc.clone()?)?;
        let tree = GroupTable::new(alloc.clone()?, Attr::new(0))?;
        tree.known();
        let mut processes = ProcessTable::new(alloc.clone()?)?;
        let first = Process {
            home,
            row: 0,
            leaf: 0,
        };
        let _ = put_row(&mut processes, Pid::first(), first)?;
        let free = all_slots(alloc.clone()?, M::SLOTS)?;
        Ok(Charges {
            tree,
            processes,
            free,
            meter,
            alloc,
        })
    }
}
