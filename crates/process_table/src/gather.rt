//! The pids at or below a group.

ghost use Rattle.std.specs.Prelude.{◌≡◌, ℕ, ◌+◌, Some, IfOk, OnOk, count_by, eqb, length};
ghost use Rattle.flat_model.specs.Path.{at_or_below};
ghost use Rattle.process_table.specs.declared.process.Process.{Process};
ghost use Rattle.process_table.specs.Cells.{cell_at};
ghost use Rattle.process_table.specs.Chosen.{HaveOneHome, chosen_at, chosen_below};
ghost use Rattle.process_table.specs.Rows.{process_at};
ghost use Rattle.process_table.specs.Tied.{IsTied};

use crate::members::RowMembers;
use crate::pages::Pages;
use group_path::GroupPath;
use std::alloc::{AllocError, Allocator};

// Whether the processes of a row are at or below the path. All are in one group, so it tests only one of them.
fn are_inside<A: Allocator + Clone, P: Allocator + Clone>(
    pages: &Pages<A>,
    members: &RowMembers<A>,
    row: usize,
    path: &GroupPath<P>,
) -> bool
    requires tied { IsTied (cell_at pages.now) members.now }
    requires homes { HaveOneHome (process_at pages.now) }
    ensures { (q : ℕ) (x : Process A) → process_at pages.now q ≡ Some x → x.row ≡ row → result ≡ at_or_below x.home path.now }
{
    let Some(pid) = members.first(row) else {
        return false;
    };
    let Some(cell) = pages.get(pid) else {
        return false;
    };
    cell.process.home.is_at_or_below(path)
}

// Appends the pids of a row, if they are at or below the path.
fn append_inside<A: Allocator + Clone, P: Allocator + Clone, B: Allocator>(
    pages: &Pages<A>,
    members: &RowMembers<A>,
    row: usize,
    path: &GroupPath<P>,
    pids: &mut Vec<u32, B>,
) -> Result<(), AllocError>
    requires tied { IsTied (cell_at pages.now) members.now }
    requires homes { HaveOneHome (process_at pages.now) }
    ensures { OnOk result ((q : ℕ) → count_by (eqb q) pids.new.items ≡ count_by (eqb q) pids.old.items + chosen_at row path.now (process_at pages.now q)) }
{
    if are_inside(pages, members, row, path) {
        return pids.extend_from_slice(members.pids(row));
    }
    Ok(())
}

// The pids at or below the path, in no order.
pub(crate) fn gather<A: Allocator + Clone, P: Allocator + Clone, B: Allocator>(
    pages: &Pages<A>,
    members: &RowMembers<A>,
    alloc: B,
    path: &GroupPath<P>,
) -> Result<Vec<u32, B>, AllocError>
    requires tied { IsTied (cell_at pages.now) members.now }
    requires homes { HaveOneHome (process_at pages.now) }
    ensures { IfOk result (λ v. (q : ℕ) → count_by (eqb q) v.items ≡ chosen_below (length members.now) path.now (process_at pages.now q)) }
{
    let mut pids = Vec::new(alloc);
    for row in 0..members.len() {
        append_inside(pages, members, row, path, &mut pids)?;
    }
    Ok(pids)
}
