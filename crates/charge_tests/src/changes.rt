//! The calls that change charges. Each lets the event totals get by one at most, so that there is room for those of a fork.

ghost use Rattle.std.specs.Prelude.{ℕ, ◌+◌, ◌≤◌, ◌≡◌, true, length, IsTrue, IsSome, IfOk, None};
ghost use Rattle.std.specs.FinMap as fin;
ghost use Rattle.flat_model.specs.Counts.{has_process};
ghost use Rattle.flat_model.specs.EventTotals.{HasEventsUpTo};
ghost use Rattle.flat_model.specs.Step.{home_of};
ghost use Rattle.pids_charge.specs.Events.{HasRoomForEvents};

use group_path::GroupPath;
use group_tree::{Attr, Limit, LimitFile};
use pids_charge::{
    ChargeFault, Charges, ForkOutcome, Lost, LostList, Meter, Peaks, Pid, PlainMeter, SLOTS,
    Settler, Shifted,
};
use std::alloc::{AllocError, Allocator, Global};

/// Charges whose groups and processes are in any allocator, with their meter elsewhere. All calls are made with `who` 0.
pub(crate) type Apart<A> = Charges<A, PlainMeter<Global>>;

pub(crate) fn mkdir<A: Allocator + Clone>(
    charges: &mut Apart<A>,
    path: &GroupPath<Global>,
) -> Result<(), ChargeFault>
    ensures up { (n : ℕ) → HasEventsUpTo n charges.old → HasEventsUpTo (n + 1) charges.new }
{
    charges.mkdir(path)
}

/// The same in its two halves: decided, then made.
pub(crate) fn make_group<A: Allocator + Clone>(
    charges: &mut Apart<A>,
    path: &GroupPath<Global>,
) -> Result<(), ChargeFault>
    ensures up { (n : ℕ) → HasEventsUpTo n charges.old → HasEventsUpTo (n + 1) charges.new }
{
    match charges.refuses_mkdir(path) {
        Some(refusal) => Err(ChargeFault::from(refusal)),
        None => Ok(charges.make_group(path)?),
    }
}

/// A removal. Remembers the attributes of the group.
pub(crate) fn rmdir<A: Allocator + Clone>(
    charges: &mut Apart<A>,
    removed: &mut Option<Attr>,
    path: &GroupPath<Global>,
) -> Result<Attr, ChargeFault>
    ensures up { (n : ℕ) → HasEventsUpTo n charges.old → HasEventsUpTo (n + 1) charges.new }
{
    match charges.rmdir(path) {
        Ok(attr) => {
            *removed = Some(attr);
            Ok(attr)
        }
        Err(fault) => Err(fault),
    }
}

/// A removal in its two halves: decided, then made.
pub(crate) fn take_group<A: Allocator + Clone>(
    charges: &mut Apart<A>,
    path: &GroupPath<Global>,
) -> Result<Attr, ChargeFault>
    ensures up { (n : ℕ) → HasEventsUpTo n charges.old → HasEventsUpTo (n + 1) charges.new }
{
    match charges.refuses_rmdir(path) {
        Some(refusal) => Err(ChargeFault::from(refusal)),
        None => Ok(charges.take_group(path)),
    }
}

/// Whether there is a free slot.
fn has_room<A: Allocator + Clone>(alloc: Global, charges: &Apart<A>) -> Result<bool, AllocError>
    ensures { IfOk result (λ is. IsTrue is → fin.len charges.now.groups ≤ SLOTS) }
{
    let root = GroupPath::root(alloc)?;
    match charges.descendants(&root) {
        Some(below) => Ok(below < u64::from(PlainMeter::<Global>::SLOTS)),
        None => Ok(false),
    }
}

/// Restores a group with these attributes, under a group whose total is not below theirs. None if it may not be restored.
pub(crate) fn restore<A: Allocator + Clone>(
    alloc: Global,
    charges: &mut Apart<A>,
    attr: Attr,
    path: &GroupPath<Global>,
) -> Result<Option<Result<(), ChargeFault>>, AllocError>
    ensures up { (n : ℕ) → HasEventsUpTo n charges.old → HasEventsUpTo (n + 1) charges.new }
{
    let Some(above) = path.parent(alloc)? else {
        return Ok(None);
    };
    let Some(parent) = charges.attr(&above) else {
        return Ok(None);
    };
    if attr.local.max(attr.total) > parent.total {
        return Ok(None);
    }
    if charges.attr(path).is_some() || !has_room(alloc, charges)? {
        return Ok(None);
    }
    Ok(Some(charges.restore(path, attr)))
}

pub(crate) fn set_limit<A: Allocator + Clone>(
    charges: &mut Apart<A>,
    path: &GroupPath<Global>,
    file: LimitFile,
    limit: Limit,
) -> Result<Limit, ChargeFault>
    ensures up { (n : ℕ) → HasEventsUpTo n charges.old → HasEventsUpTo (n + 1) charges.new }
{
    charges.set_limit(path, file, limit)
}

pub(crate) fn migrate<A: Allocator + Clone>(
    charges: &mut Apart<A>,
    pid: Pid,
    path: &GroupPath<Global>,
) -> Result<Shifted<A>, ChargeFault>
    ensures up { (n : ℕ) → HasEventsUpTo n charges.old → HasEventsUpTo (n + 1) charges.new }
{
    charges.migrate(0, pid, path)
}

pub(crate) fn fork<A: Allocator + Clone>(
    charges: &mut Apart<A>,
    parent: Pid,
    child: Pid,
) -> Result<Peaks<A>, ChargeFault>
    requires { HasRoomForEvents charges.old }
    ensures up { (n : ℕ) → HasEventsUpTo n charges.old → HasEventsUpTo (n + 1) charges.new }
{
    charges.fork(0, parent, child)
}

/// A fork that is counted where a limit refuses it, if it can be counted.
pub(crate) fn fork_or_count<A: Allocator + Clone>(
    charges: &mut Apart<A>,
    parent: Pid,
    child: Pid,
    can_count: bool,
) -> Result<ForkOutcome<A>, AllocError>
    requires { IsTrue can_count → HasRoomForEvents charges.old }
    ensures up { (n : ℕ) → HasEventsUpTo n charges.old → HasEventsUpTo (n + 1) charges.new }
{
    charges.fork_or_count(0, parent, child, can_count)
}

pub(crate) fn exit<A: Allocator + Clone>(
    charges: &mut Apart<A>,
    pid: Pid,
) -> Result<GroupPath<A>, ChargeFault>
    ensures up { (n : ℕ) → HasEventsUpTo n charges.old → HasEventsUpTo (n + 1) charges.new }
{
    charges.exit(0, pid)
}

pub(crate) fn kill<S: Settler, A: Allocator + Clone>(
    settler: &S,
    charges: &mut Apart<A>,
    path: &GroupPath<Global>,
) -> Result<LostList<A>, ChargeFault>
    ensures up { (n : ℕ) → HasEventsUpTo n charges.old → HasEventsUpTo (n + 1) charges.new }
{
    charges.kill_by(settler, 0, path)
}

/// Undoes the count of a refused fork. Only for a group below the root, whose totals are the only ones.
pub(crate) fn uncount<A: Allocator + Clone>(
    charges: &mut Apart<A>,
    path: &GroupPath<Global>,
) -> Option<Result<(), ChargeFault>>
    ensures up { (n : ℕ) → HasEventsUpTo n charges.old → HasEventsUpTo (n + 1) charges.new }
{
    if path.depth() != 1 {
        return None;
    }
    let Some(attr) = charges.attr(path) else {
        return None;
    };
    let counted = attr.local.min(attr.total);
    if counted == 0 {
        return None;
    }
    charges.uncount(path);
    Some(Ok(()))
}

/// Places a process that exited. None if it may not be placed.
pub(crate) fn place<A: Allocator + Clone>(
    charges: &mut Apart<A>,
    pid: Pid,
    path: &GroupPath<Global>,
) -> Option<Result<(), ChargeFault>>
    ensures up { (n : ℕ) → HasEventsUpTo n charges.old → HasEventsUpTo (n + 1) charges.new }
{
    if charges.attr(path).is_none() || charges.home(pid).is_some() {
        return None;
    }
    Some(charges.place(0, pid, path))
}

/// Places a process that was killed. None if it may not be placed.
pub(crate) fn place_one<S: Settler, A: Allocator + Clone>(
    settler: &S,
    charges: &mut Apart<A>,
    one: Lost<Global>,
) -> Option<Result<(), ChargeFault>>
    ensures up { (n : ℕ) → HasEventsUpTo n charges.old → HasEventsUpTo (n + 1) charges.new }
{
    if !can_be_placed(charges, &one) {
        return None;
    }
    Some(charges.place_all_by(settler, 0, &[one]))
}

/// Whether the process can be placed: its group exists, and its number is free.
fn can_be_placed<A: Allocator + Clone>(charges: &Apart<A>, lost: &Lost<Global>) -> bool
    ensures group { IsTrue result → IsSome (fin.get charges.now.groups lost.now.path) }
    ensures free { IsTrue result → fin.get charges.now.home lost.now.pid ≡ None }
{
    charges.attr(&lost.path).is_some() && charges.home(lost.pid).is_none()
}

/// Places two processes that were killed. None if they may not be placed.
pub(crate) fn place_two<S: Settler, A: Allocator + Clone>(
    settler: &S,
    charges: &mut Apart<A>,
    one: Lost<Global>,
    other: Lost<Global>,
) -> Option<Result<(), ChargeFault>>
    ensures up { (n : ℕ) → HasEventsUpTo n charges.old → HasEventsUpTo (n + 1) charges.new }
{
    if one.pid.get() == other.pid.get() {
        return None;
    }
    if !can_be_placed(charges, &one) || !can_be_placed(charges, &other) {
        return None;
    }
    Some(charges.place_all_by(settler, 0, &[one, other]))
}

/// Whether the list has a peak for each group from that of the process upward, without the root.
fn fits<A: Allocator + Clone>(charges: &Apart<A>, pid: Pid, peaks: &Peaks<Global>) -> bool
    ensures process { IsTrue result → has_process charges.now pid ≡ true }
    ensures many { IsTrue result → length peaks.now ≡ length (home_of charges.now pid) }
{
    match charges.home(pid) {
        Some(home) => home.depth() == peaks.len(),
        None => false,
    }
}

/// Undoes a fork. None if there is no such process, or not a peak for each of its groups.
pub(crate) fn unfork<A: Allocator + Clone>(
    charges: &mut Apart<A>,
    pid: Pid,
    peaks: &Peaks<Global>,
) -> Option<Result<(), ChargeFault>>
    ensures up { (n : ℕ) → HasEventsUpTo n charges.old → HasEventsUpTo (n + 1) charges.new }
{
    if !fits(charges, pid, peaks) {
        return None;
    }
    charges.unfork(0, pid, peaks);
    Some(Ok(()))
}

/// Undoes a move. None if it may not be made.
pub(crate) fn unmove<A: Allocator + Clone>(
    charges: &mut Apart<A>,
    pid: Pid,
    path: &GroupPath<Global>,
    peaks: &Peaks<Global>,
) -> Option<Result<(), ChargeFault>>
    ensures up { (n : ℕ) → HasEventsUpTo n charges.old → HasEventsUpTo (n + 1) charges.new }
{
    if charges.attr(path).is_none() || !fits(charges, pid, peaks) {
        return None;
    }
    match charges.unmove(0, pid, path, peaks) {
        Ok(()) => Some(Ok(())),
        Err(AllocError) => Some(Err(ChargeFault::OutOfMemory)),
    }
}

/// Sets the peaks of the group and of those above it. None if there are not as many as groups below the root.
pub(crate) fn set_peaks<A: Allocator + Clone>(
    charges: &mut Apart<A>,
    path: &GroupPath<Global>,
    peaks: &[u64],
) -> Option<Result<(), ChargeFault>>
    ensures up { (n : ℕ) → HasEventsUpTo n charges.old → HasEventsUpTo (n + 1) charges.new }
{
    if peaks.len() != path.depth() {
        return None;
    }
    charges.set_peaks(path, peaks);
    Some(Ok(()))
}
