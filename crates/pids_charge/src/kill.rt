//! Killing all processes of a group.

ghost use Rattle.std.specs.Prelude.{◌≡◌, ℕ, ◌+◌, ◌≤◌, ◌++◌, [], None, IsSome, IfSome, IfOk, OnOk, OnErr, length, option_map};
ghost use Rattle.std.specs.List.{All, sum_by};
ghost use Rattle.std.specs.List.Sorted.{IsStrictlySortedBy};
ghost use Rattle.std.specs.Ordering.{nat_cmp};
ghost use Rattle.std.specs.BTreeMap.{is_at};
ghost use Rattle.std.specs.Map.{values_of, keys_of, lookup, remove_entry};
ghost use Rattle.std.specs.FinMap as fin;
ghost use Rattle.std.specs.Vec.{vec_len, vec_capacity};
ghost use Rattle.flat_model.specs.Command.{Kill};
ghost use Rattle.flat_model.specs.CommandText.{IsPid};
ghost use Rattle.flat_model.specs.Inverse as inverse;
ghost use Rattle.flat_model.specs.Path.{Path};
ghost use Rattle.flat_model.specs.Step.{after, after_refusal, refusal};
ghost use Rattle.pids_charge.specs.Answers.{names_in, refusal_along};
ghost use Rattle.snzi_tokens.specs.Listed.{IsWithin, listed_at};
ghost use Rattle.pids_charge.specs.Lists.{inside, lost_each, lost_one, without_each};
ghost use Rattle.pids_charge.specs.Recount.{charges_of, IsPlaced, SlotsBelow};

use crate::charges::Charges;
use crate::fault::ChargeRefusal;
use crate::groups::GroupTable;
use crate::inside::pids_inside;
use crate::lost::{Lost, LostList};
use crate::meter::Meter;
use crate::pid::Pid;
use crate::settler::Settler;
use crate::walk::push_up;
use group_path::GroupPath;
use process_table::ProcessTable;
use snzi_tokens::Token;
use std::alloc::{AllocError, Allocator};

// The processes that a kill removes, and their charges.
#[derive(Drop)]
struct Gathered<A: Allocator + Clone> {
    pids: Vec<u32, A>,
    tokens: Vec<Token, A>,
    // An empty list with room for all of them.
    room: Vec<Lost<A>, A>,
}

// The pids at or below the path, ascending, and the charges of their processes.
fn gather<M: Meter, T: Allocator + Clone, A: Allocator + Clone, B: Allocator + Clone>(
    tree: &GroupTable<T>,
    processes: &ProcessTable<A>,
    alloc: &A,
    path: &GroupPath<B>,
) -> Result<Gathered<A>, AllocError>
    requires placed { All (λ p. IsPlaced M.LEAVES tree.now p) (values_of processes.now) }
    requires slots { SlotsBelow M.SLOTS tree.now }
    requires shallow { (p : Path) → IsSome (fin.get tree.now p) → length p ≤ 32 }
    requires group { IsSome (fin.get tree.now path.now) }
    ensures pids { IfOk result (λ g. g.pids.items ≡ keys_of (inside path.now processes.now)) }
    ensures counted { IfOk result (λ g. (s j : ℕ) → listed_at g.tokens.items s j ≡ sum_by (λ p. charges_of tree.now p s j) (values_of (inside path.now processes.now))) }
    ensures many { IfOk result (λ g. length g.tokens.items ≡ sum_by (λ p. length p.home) (values_of (inside path.now processes.now))) }
    ensures within { IfOk result (λ g. IsWithin M.SLOTS M.LEAVES g.tokens.items) }
    ensures empty { IfOk result (λ g. g.room.items ≡ []) }
    ensures room { IfOk result (λ g. length g.pids.items ≤ vec_capacity g.room) }
{
    processes.known();
    let Some(top) = tree.find_row(path) else {
        unreachable!()
    };
    let pids = pids_inside::<M, _, _, _>(tree, processes, alloc.clone()?, top)?;
    let room = Vec::with_capacity(alloc.clone()?, pids.len())?;
    let mut tokens = Vec::new(alloc.clone()?);
    for pid in pids.as_slice() {
        let Some(process) = processes.get(*pid) else {
            unreachable!()
        };
        push_up::<M, _, _>(tree, process.row, process.leaf, &mut tokens)?;
    }
    Ok(Gathered { pids, tokens, room })
}

// Moves one process from the table to the list, if there is one.
fn leave_one<A: Allocator + Clone>(
    processes: &mut ProcessTable<A>,
    pid: u32,
    lost: &mut Vec<Lost<A>, A>,
)
    requires pid { IsPid pid }
    requires room { vec_len lost.old + 1 ≤ vec_capacity lost.old }
    ensures stay { processes.new ≡ remove_entry (is_at (nat_cmp pid)) processes.old }
    ensures ordered { IsStrictlySortedBy nat_cmp (keys_of processes.new) }
    ensures lost { lost.new.items ≡ lost.old.items ++ lost_one pid (lookup (is_at (nat_cmp pid)) processes.old) }
    ensures len { vec_len lost.new ≤ vec_len lost.old + 1 }
    ensures capacity { vec_capacity lost.old ≤ vec_capacity lost.new }
{
    let Some(process) = processes.take(pid) else {
        return;
    };
    lost.push_reserved(Lost {
        pid: Pid::of(pid),
        path: process.home,
    });
}

// Moves the processes of these pids from the table to the list, in this order.
fn leave<A: Allocator + Clone>(
    processes: &mut ProcessTable<A>,
    pids: &[u32],
    room: Vec<Lost<A>, A>,
) -> Vec<Lost<A>, A>
    requires pids { All IsPid pids.now }
    requires empty { room.items ≡ [] }
    requires room { length pids.now ≤ vec_capacity room }
    ensures stay { processes.new ≡ without_each pids.now processes.old }
    ensures ordered { IsStrictlySortedBy nat_cmp (keys_of processes.new) }
    ensures lost { result.items ≡ lost_each pids.now processes.old }
{
    processes.known();
    let mut lost = room;
    for pid in pids {
        leave_one(processes, *pid, &mut lost);
    }
    lost
}

impl<A: Allocator + Clone, M: Meter> Charges<A, M> {
    /// The refusal that `kill` would return, apart from memory. Costs at most one descent of the tree.
    pub fn refuses_kill<B: Allocator + Clone>(&self, path: &GroupPath<B>) -> Option<ChargeRefusal>
        ensures first { refusal M.SLOTS self.now (Kill path.now) ≡ option_map (refusal_along path.now) result }
        ensures inside { IfSome result (λ r. names_in r ≤ length path.now) }
        ensures kept { IfSome result (λ r. after_refusal self.now (refusal_along path.now r) ≡ self.now) }
    {
        if path.depth() == 0 {
            return Some(ChargeRefusal::NoFile);
        }
        if self.tree.find(path).is_none() {
            return Some(ChargeRefusal::NoGroup(path.depth()));
        }
        None
    }

    /// Removes all processes at or below a group that `kill` would not refuse, and returns each with its path; pids ascend.
    /// Costs time in the number of these processes, plus a look at each row, and a walk up from each that has processes.
    /// Passes all charges to the meter at once, by this settler.
    ///
    /// # Errors
    ///
    /// `AllocError`; nothing has changed then.
    pub fn take_processes<S: Settler, B: Allocator + Clone>(
        &mut self,
        settler: &S,
        who: u8,
        path: &GroupPath<B>,
    ) -> Result<LostList<A>, AllocError>
        requires { refusal M.SLOTS self.old (Kill path.now) ≡ None }
        ensures state { OnOk result (self.new ≡ after self.old (Kill path.now)) }
        ensures taken { IfOk result (λ list. list ≡ inverse.lost self.old path.now) }
        ensures kept { OnErr result (self.new ≡ self.old) }
    {
        self.tree.known();
        let Gathered { pids, tokens, room } = gather::<M, _, _, _>(
            &self.tree,
            &self.processes,
            &self.alloc,
            path,
        )?;
        settler.settle(&mut self.meter, who % M::LEAVES, tokens.as_slice(), &[]);
        let lost = leave(&mut self.processes, pids.as_slice(), room);
        Ok(LostList::of(lost))
    }
}
