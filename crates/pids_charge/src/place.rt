//! Putting listed processes back: the undo of a kill.

ghost use Rattle.std.specs.Prelude.{◌≡◌, ◌≤◌, ◌<◌, ℕ, IfOk, IsSome, OnErr, OnOk, None, length, drop, eqb, map};
ghost use Rattle.std.specs.List.{All, sum_by, IsDistinct};
ghost use Rattle.std.specs.Ordering.{nat_cmp};
ghost use Rattle.std.specs.BTreeMap.{insert_entry, is_at};
ghost use Rattle.std.specs.FinMap as fin;
ghost use Rattle.std.specs.Map.{lookup};
ghost use Rattle.flat_model.specs.CommandText.{IsPid};
ghost use Rattle.flat_model.specs.Inverse.{back, Killed};
ghost use Rattle.flat_model.specs.Path.{Path};
ghost use Rattle.snzi_tokens.specs.Listed.{IsWithin, listed_at};
ghost use Rattle.pids_charge.specs.Lists.{with_lost, without, placed_at, rows_of};
ghost use Rattle.pids_charge.specs.Recount.{charges_at, SlotsBelow};

use crate::charges::Charges;
use crate::groups::GroupTable;
use crate::lost::Lost;
use crate::meter::Meter;
use crate::row::row_in;
use crate::rows::{put_copy, take_row};
use crate::settler::Settler;
use crate::walk::push_up;
use process_table::ProcessTable;
use snzi_tokens::Token;
use std::alloc::{AllocError, Allocator};

// A token for each charge of the listed processes.
fn tokens_of<M: Meter, T: Allocator + Clone, A: Allocator + Clone, B: Allocator + Clone>(
    tree: &GroupTable<T>,
    alloc: A,
    list: &[Lost<B>],
    leaf: u8,
) -> Result<Vec<Token, A>, AllocError>
    requires leaf_below { leaf < M.LEAVES }
    requires homes { All (λ l. IsSome (fin.get tree.now l.path)) list.now }
    requires shallow { (p : Path) → IsSome (fin.get tree.now p) → length p ≤ 32 }
    requires slots { SlotsBelow M.SLOTS tree.now }
    ensures counted { IfOk result (λ t. (s j : ℕ) → listed_at t.items s j ≡ sum_by (λ l. charges_at tree.now l.path leaf s j) list.now) }
    ensures many { IfOk result (λ t. length t.items ≡ sum_by (λ l. length l.path) list.now) }
    ensures within { IfOk result (λ t. IsWithin M.SLOTS M.LEAVES t.items) }
{
    let mut tokens = Vec::new(alloc);
    for lost in list {
        let row = row_in(tree, &lost.path);
        push_up::<M, _, _>(tree, row, leaf, &mut tokens)?;
    }
    Ok(tokens)
}

// Inserts one listed process with a copy of its path.
fn place_one<T: Allocator + Clone, A: Allocator + Clone, B: Allocator + Clone>(
    tree: &GroupTable<T>,
    processes: &mut ProcessTable<A>,
    alloc: &A,
    lost: &Lost<B>,
    leaf: u8,
) -> Result<(), AllocError>
    requires home { IsSome (fin.get tree.now lost.now.path) }
    ensures placed { OnOk result (processes.new ≡ insert_entry nat_cmp processes.old lost.now.pid (placed_at tree.now leaf lost.now)) }
    ensures kept { OnErr result (processes.new ≡ processes.old) }
    ensures pid { IsPid lost.now.pid }
{
    let row = row_in(tree, &lost.path);
    let _ = put_copy(processes, alloc, lost.pid, &lost.path, row, leaf)?;
    Ok(())
}

// Inserts as many of the list's last processes as memory allows. Returns the index of the first of them.
fn place_last<T: Allocator + Clone, A: Allocator + Clone, B: Allocator + Clone>(
    tree: &GroupTable<T>,
    processes: &mut ProcessTable<A>,
    alloc: &A,
    list: &[Lost<B>],
    leaf: u8,
) -> usize
    requires homes { All (λ l. IsSome (fin.get tree.now l.path)) list.now }
    ensures place { result ≤ length list.now }
    ensures placed { processes.new ≡ with_lost tree.now leaf (drop result list.now) processes.old }
    ensures pids { All (λ l. IsPid l.pid) (drop result list.now) }
{
    let mut at = list.len();
    while at > 0 {
        if place_one(tree, processes, alloc, &list[at - 1], leaf).is_err() {
            return at;
        }
        at -= 1;
    }
    at
}

// Removes the list's processes from index `at` on from the table.
fn take_out<A: Allocator + Clone, B: Allocator + Clone>(
    processes: &mut ProcessTable<A>,
    list: &[Lost<B>],
    at: usize,
)
    requires { at ≤ length list.now }
    ensures { processes.new ≡ without (drop at list.now) processes.old }
{
    for i in at..list.len() {
        let _ = take_row(processes, list[i].pid);
    }
}

// Inserts all of them, or none.
fn place_each<T: Allocator + Clone, A: Allocator + Clone, B: Allocator + Clone>(
    tree: &GroupTable<T>,
    processes: &mut ProcessTable<A>,
    alloc: &A,
    list: &[Lost<B>],
    leaf: u8,
) -> Result<(), AllocError>
    requires homes { All (λ l. IsSome (fin.get tree.now l.path)) list.now }
    requires apart { IsDistinct eqb (map (λ l. l.pid) list.now) }
    requires new { All (λ l. lookup (is_at (nat_cmp l.pid)) processes.old ≡ None) list.now }
    ensures placed { OnOk result (processes.new ≡ with_lost tree.now leaf list.now processes.old) }
    ensures pids { OnOk result (All (λ l. IsPid l.pid) list.now) }
    ensures kept { OnErr result (processes.new ≡ processes.old) }
{
    processes.known();
    let at = place_last(tree, processes, alloc, list, leaf);
    if at > 0 {
        take_out(processes, list, at);
        return Err(AllocError);
    }
    Ok(())
}

impl<A: Allocator + Clone, M: Meter> Charges<A, M> {
    /// Puts the listed processes back into their groups, charged at the leaf of `who`, or none of them. Passes all charges
    /// to the meter at once, by this settler.
    ///
    /// # Errors
    ///
    /// `AllocError`; nothing has changed then.
    pub fn put_processes_back<S: Settler, B: Allocator + Clone>(
        &mut self,
        settler: &S,
        who: u8,
        list: &[Lost<B>],
    ) -> Result<(), AllocError>
        requires homes { All (λ l. IsSome (fin.get self.old.groups l.path)) list.now }
        requires new { All (λ l. fin.get self.old.home l.pid ≡ None) list.now }
        requires apart { IsDistinct eqb (map (λ l. l.pid) list.now) }
        ensures placed { OnOk result (self.new ≡ back (Killed (rows_of list.now)) self.old) }
        ensures kept { OnErr result (self.new ≡ self.old) }
    {
        self.tree.known();
        let leaf = who % M::LEAVES;
        let tokens = tokens_of::<M, _, _, _>(&self.tree, self.alloc.clone()?, list, leaf)?;
        place_each(&self.tree, &mut self.processes, &self.alloc, list, leaf)?;
        settler.settle(&mut self.meter, leaf, &[], tokens.as_slice());
        Ok(())
    }
}
