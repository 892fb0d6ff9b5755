//! The pids of the processes at or below a group, by rows.

ghost use Rattle.std.specs.Prelude.{◌≡◌, ℕ, ◌+◌, ◌≤◌, IfOk, IsSome, OnOk, count_by, eqb, length};
ghost use Rattle.std.specs.BTreeMap.{is_at};
ghost use Rattle.std.specs.FinMap as fin;
ghost use Rattle.std.specs.List.{All};
ghost use Rattle.std.specs.Map.{keys_of, lookup, values_of};
ghost use Rattle.std.specs.Ordering.{nat_cmp};
ghost use Rattle.flat_model.specs.Path.{Path};
ghost use Rattle.process_table.specs.Chosen.{chosen_at};
ghost use Rattle.pids_charge.specs.Lists.{inside, row_at};
ghost use Rattle.pids_charge.specs.Recount.{IsPlaced, SlotsBelow};

use crate::groups::GroupTable;
use crate::meter::Meter;
use crate::walk::is_at_or_below;
use process_table::ProcessTable;
use std::alloc::{AllocError, Allocator};

// Appends the pids of the processes in a row, if its group is at or below that of the row `top`.
fn append_row<M: Meter, T: Allocator + Clone, A: Allocator + Clone, B: Allocator>(
    tree: &GroupTable<T>,
    processes: &ProcessTable<A>,
    at: u16,
    top: u16,
    pids: &mut Vec<u32, B>,
) -> Result<(), AllocError>
    requires shallow { (p : Path) → IsSome (fin.get tree.now p) → length p ≤ 32 }
    requires placed { All (λ x. IsPlaced M.LEAVES tree.now x) (values_of processes.now) }
    ensures { OnOk result ((p : Path) → IsSome (fin.get tree.now p) → top ≡ row_at tree.now p → (q : ℕ) → count_by (eqb q) pids.new.items ≡ count_by (eqb q) pids.old.items + chosen_at at p (lookup (is_at (nat_cmp q)) processes.now)) }
{
    let own = processes.unordered(at);
    if own.is_empty() {
        return Ok(());
    }
    if is_at_or_below(tree, at, top) {
        return pids.extend_from_slice(own);
    }
    Ok(())
}

// The pids of the processes at or below the group in the row `top`, ascending. Goes over all rows, and up from each that has
// processes.
pub(crate) fn pids_inside<M: Meter, T: Allocator + Clone, A: Allocator + Clone, B: Allocator>(
    tree: &GroupTable<T>,
    processes: &ProcessTable<A>,
    alloc: B,
    top: u16,
) -> Result<Vec<u32, B>, AllocError>
    requires slots { SlotsBelow M.SLOTS tree.now }
    requires shallow { (p : Path) → IsSome (fin.get tree.now p) → length p ≤ 32 }
    requires placed { All (λ x. IsPlaced M.LEAVES tree.now x) (values_of processes.now) }
    ensures { IfOk result (λ pids. (p : Path) → IsSome (fin.get tree.now p) → top ≡ row_at tree.now p → pids.items ≡ keys_of (inside p processes.now)) }
{
    processes.known();
    let rows = tree.rows().min(usize::from(M::SLOTS) + 1);
    let mut pids = Vec::new(alloc);
    for at in 0..rows {
        append_row::<M, _, _, _>(tree, processes, at as u16, top, &mut pids)?;
    }
    pids.sort_unstable();
    Ok(pids)
}
