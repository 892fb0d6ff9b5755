//! Copying charges into another allocator, over plain numbers.

ghost use Rattle.std.specs.Prelude.{◌≡◌, ℕ, ◌+◌, ◌%◌, ◌≤◌, IfOk, OnOk, IsSome, length, map};
ghost use Rattle.std.specs.List.{All, sum_by};
ghost use Rattle.std.specs.Map.{values_of, lookup};
ghost use Rattle.std.specs.Ordering.{nat_cmp};
ghost use Rattle.std.specs.BTreeMap.{insert_entry, is_at};
ghost use Rattle.std.specs.FinMap as fin;
ghost use Rattle.std.specs.Vec.{vec_capacity};
ghost use Rattle.flat_model.specs.Path.{Path};
ghost use Rattle.process_table.specs.Chosen.{HaveOneHome};
ghost use Rattle.pids_charge.specs.Lists.{at_leaf_below, row_below, row_at};
ghost use Rattle.pids_charge.specs.Recount.{charges_at, SlotsBelow};

use crate::charges::Charges;
use crate::groups::GroupTable;
use crate::meter::{HELD_MAX, Meter};
use crate::plain::PlainMeter;
use crate::rows::home_in;
use crate::walk::charge_up;
use group_path::GroupPath;
use process_table::{Process, ProcessTable};
use std::alloc::{AllocError, Allocator};

// The same slots in the same order, in a table with room for all slots.
fn copy_slots<A: Allocator, B: Allocator>(
    free: &Vec<u16, A>,
    alloc: B,
    slots: u16,
) -> Result<Vec<u16, B>, AllocError>
    ensures items { IfOk result (λ table. table.items ≡ free.now.items) }
    ensures room { IfOk result (λ table. slots ≤ vec_capacity table) }
{
    let mut table = Vec::with_capacity(alloc, usize::from(slots))?;
    table.extend_from_slice(free.as_slice())?;
    Ok(table)
}

// Inserts one process into a table, charged along its path at its leaf modulo the leaves of the meter.
fn copy_one<T: Allocator + Clone, M: Meter, A: Allocator + Clone, B: Allocator + Clone>(
    tree: &GroupTable<T>,
    table: &mut ProcessTable<B>,
    meter: &mut M,
    alloc: B,
    pid: u32,
    process: &Process<A>,
) -> Result<(), AllocError>
    requires home { IsSome (fin.get tree.now process.now.home) }
    requires row { process.now.row ≡ row_at tree.now process.now.home }
    requires shallow { (p : Path) → IsSome (fin.get tree.now p) → length p ≤ 32 }
    requires slots { SlotsBelow M.SLOTS tree.now }
    requires room { M.held meter.old + length process.now.home ≤ HELD_MAX }
    ensures put { OnOk result (table.new ≡ insert_entry nat_cmp table.old pid (at_leaf_below M.LEAVES process.now)) }
    ensures content { OnOk result ((s j : ℕ) → M.content meter.new s j ≡ M.content meter.old s j + charges_at tree.now process.now.home (process.now.leaf % M.LEAVES) s j) }
    ensures held { OnOk result (M.held meter.new ≡ M.held meter.old + length process.now.home) }
{
    tree.known();
    let leaf = process.leaf % M::LEAVES;
    let row = process.row;
    let home = home_in(table, &alloc, &process.home, row)?;
    charge_up(tree, meter, row, leaf);
    let _ = table.insert(pid, Process { home, row, leaf })?;
    Ok(())
}

// Inserts all processes into a table, each charged so.
fn copy_each<T: Allocator + Clone, M: Meter, A: Allocator + Clone, B: Allocator + Clone>(
    tree: &GroupTable<T>,
    processes: &ProcessTable<A>,
    meter: &mut M,
    alloc: B,
) -> Result<ProcessTable<B>, AllocError>
    requires one { HaveOneHome (λ q. lookup (is_at (nat_cmp q)) processes.now) }
    requires homes { All (λ p. IsSome (fin.get tree.now p.home) × (p.row ≡ row_at tree.now p.home)) (values_of processes.now) }
    requires shallow { (p : Path) → IsSome (fin.get tree.now p) → length p ≤ 32 }
    requires slots { SlotsBelow M.SLOTS tree.now }
    requires room { M.held meter.old + sum_by (λ p. length p.home) (values_of processes.now) ≤ HELD_MAX }
    ensures rows { IfOk result (λ table. table ≡ map (row_below M.LEAVES) processes.now) }
    ensures content { IfOk result (λ table. (s j : ℕ) → M.content meter.new s j ≡ M.content meter.old s j + sum_by (λ p. charges_at tree.now p.home (p.leaf % M.LEAVES) s j) (values_of processes.now)) }
    ensures held { IfOk result (λ table. M.held meter.new ≡ M.held meter.old + sum_by (λ p. length p.home) (values_of processes.now)) }
{
    processes.known();
    let root = GroupPath::root(alloc.clone()?)?;
    let pids = processes.inside(alloc.clone()?, &root)?;
    let mut table = ProcessTable::new(alloc.clone()?)?;
    for pid in pids.as_slice() {
        let Some(process) = processes.get(*pid) else {
            unreachable!()
        };
        copy_one(tree, &mut table, meter, alloc.clone()?, *pid, process)?;
    }
    Ok(table)
}

impl<A: Allocator + Clone, M: Meter> Charges<A, M> {
    /// Copies the groups and processes into another allocator, over plain numbers. Each process is charged along its path at
    /// its leaf modulo the copy's leaves. The meter must have as many slots as the copy's. Visits all groups and processes.
    /// No process costs a descent of the tree.
    ///
    /// # Errors
    ///
    /// `AllocError` when out of memory.
    pub fn copy_plain<B: Allocator + Clone>(
        &self,
        alloc: B,
    ) -> Result<Charges<B, PlainMeter<B>>, AllocError>
        requires { M.SLOTS ≡ ⟦<PlainMeter<B> as Meter>⟧.SLOTS }
        ensures { IfOk result (λ c. c ≡ self.now) }
    {
        let tree = self.tree.copy(alloc.clone()?)?;
        let free = copy_slots(&self.free, alloc.clone()?, M::SLOTS)?;
        let mut meter = PlainMeter::new(alloc.clone()?)?;
        let processes = copy_each(&tree, &self.processes, &mut meter, alloc.clone()?)?;
        Ok(Charges {
            tree,
            processes,
            free,
            meter,
            alloc,
        })
    }
}
