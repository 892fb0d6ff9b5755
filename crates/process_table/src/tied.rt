//! The cells and the lists of the rows, changed together.

ghost use Rattle.std.specs.Prelude.{◌≡◌, ℕ, ◌<◌, None, Some, IfOk, OnOk, OnErr, eqb, if◌then◌else◌, length, slice_index};
ghost use Rattle.process_table.specs.Cells.{cell_at, HasPage};
ghost use Rattle.process_table.specs.Members.{list_at};
ghost use Rattle.process_table.specs.Rows.{process_at};
ghost use Rattle.process_table.specs.Tied.{IsTied, Owes};

use crate::members::RowMembers;
use crate::pages::Pages;
use crate::process::{Cell, Process};
use std::alloc::{AllocError, Allocator};

// Removes a pid that has left a row from the row's list.
fn leave<A: Allocator + Clone>(
    pages: &mut Pages<A>,
    members: &mut RowMembers<A>,
    row: u16,
    place: usize,
)
    requires { Owes (cell_at pages.old) members.old row place (slice_index (list_at members.old row) place) }
    ensures tied { IsTied (cell_at pages.new) members.new }
    ensures same { (q : ℕ) → process_at pages.new q ≡ process_at pages.old q }
{
    let Some(moved) = members.leave(row, place) else {
        return;
    };
    pages.set_place(moved, place);
}

// Removes the process of a pid and returns it.
pub(crate) fn take_out<A: Allocator + Clone>(
    pages: &mut Pages<A>,
    members: &mut RowMembers<A>,
    pid: u32,
) -> Option<Process<A>>
    requires { IsTied (cell_at pages.old) members.old }
    ensures tied { IsTied (cell_at pages.new) members.new }
    ensures before { result ≡ process_at pages.old pid }
    ensures after { (q : ℕ) → process_at pages.new q ≡ (if eqb pid q then None else process_at pages.old q) }
{
    let cell = pages.take(pid)?;
    leave(pages, members, cell.process.row, cell.place);
    Some(cell.process)
}

// Inserts a process, once the page of its pid and the list of its row exist. Returns the one that had the pid, if any. If
// that one was in the same row, the pid is in its list twice until the old index is given up.
pub(crate) fn put_in<A: Allocator + Clone>(
    pages: &mut Pages<A>,
    members: &mut RowMembers<A>,
    pid: u32,
    process: Process<A>,
) -> Result<Option<Process<A>>, AllocError>
    requires tied { IsTied (cell_at pages.old) members.old }
    requires page { HasPage pages.old pid }
    requires list { process.row < length members.old }
    ensures tied { IsTied (cell_at pages.new) members.new }
    ensures before { IfOk result (λ o. o ≡ process_at pages.old pid) }
    ensures after { OnOk result ((q : ℕ) → process_at pages.new q ≡ (if eqb pid q then Some process else process_at pages.old q)) }
    ensures kept { OnErr result ((q : ℕ) → process_at pages.new q ≡ process_at pages.old q) }
{
    let place = members.push(process.row, pid)?;
    let Some(before) = pages.put(pid, Cell { process, place }) else {
        return Ok(None);
    };
    leave(pages, members, before.process.row, before.place);
    Ok(Some(before.process))
}
