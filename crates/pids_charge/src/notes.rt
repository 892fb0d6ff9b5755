//! What walks up from a group note: the nearest full group, and the slots and the peaks of the group and those above it.

ghost use Rattle.std.specs.Prelude.{◌≡◌, ◌<◌, ◌≤◌, ◌++◌, ◌∷◌, [], length, option_map, take, IfSome, IsSome, Some};
ghost use Rattle.std.specs.FinMap as fin;
ghost use Rattle.flat_model.specs.Path.{Path, upward};
ghost use Rattle.flat_model.specs.Counts.{first_path};
ghost use Rattle.pids_charge.specs.Events.{full_by, is_full_by};
ghost use Rattle.pids_charge.specs.GroupRows.{IsOfGroup};
ghost use Rattle.pids_charge.specs.Lists.{row_at};
ghost use Rattle.pids_charge.specs.Peaks.{IsNoted, Noted};
ghost use Rattle.pids_charge.specs.Recount.{SlotsBelow};

use crate::groups::GroupTable;
use crate::meter::Meter;
use group_path::GroupPath;
use group_tree::{Attr, Limit};
use std::alloc::Allocator;
use std::marker::Model;

// The most names of a path.
pub(crate) const DEPTH_MAX: usize = 32;

// The slots and the peaks of groups, from a group upward, without the root.
#[derive(Drop)]
pub(crate) struct Notes {
    slots: [u16; DEPTH_MAX],
    peaks: [u64; DEPTH_MAX],
    len: usize,
}

impl Model for Notes {
    ghost use Rattle.std.specs.Prelude.{◌≤◌, take};
    ghost use Rattle.pids_charge.specs.Peaks.{Noted};

    ghost Value = { Noted };

    ghost view = { λ n. record { slots = take n.len n.slots; peaks = take n.len n.peaks } };

    ghost invariant = { λ n. n.len ≤ 32 };
}

impl Notes {
    // No groups.
    fn new() -> Notes
        ensures { result ≡ record { slots = []; peaks = [] } }
    {
        Notes {
            slots: [0; DEPTH_MAX],
            peaks: [0; DEPTH_MAX],
            len: 0,
        }
    }

    // Notes the next group upward.
    fn push(&mut self, slot: u16, peak: u64)
        requires { length self.old.slots < 32 }
        ensures { self.new ≡ record { slots = self.old.slots ++ slot ∷ []; peaks = self.old.peaks ++ peak ∷ [] } }
    {
        self.slots[self.len] = slot;
        self.peaks[self.len] = peak;
        self.len += 1;
    }

    // The slots, from the path's own group upward.
    pub(crate) fn slots(&self) -> &[u16]
        ensures { result.now ≡ self.now.slots }
    {
        &self.slots[..self.len]
    }

    // The peaks, from the path's own group upward.
    pub(crate) fn peaks(&self) -> &[u64]
        ensures same { result.now ≡ self.now.peaks }
        ensures few { length result.now ≤ 32 }
    {
        &self.peaks[..self.len]
    }
}

// Whether one more process would exceed the group's `pids.max`.
fn is_full<M: Meter>(meter: &mut M, attr: &Attr) -> bool
    requires slot { attr.now.slot < M.SLOTS }
    ensures answer { result ≡ full_by M.LEAVES (M.content meter.old) (Some attr.now) }
    ensures content { M.content meter.new ≡ M.content meter.old }
    ensures held { M.held meter.new ≡ M.held meter.old }
{
    match attr.limits.pids {
        Limit::Unlimited => false,
        Limit::At(most) => meter.current(attr.slot) >= u64::from(most),
    }
}

// A group whose `pids.max` refuses a fork: how many names its path has, and its row.
#[derive(Clone, Copy)]
pub(crate) struct FullGroup {
    pub(crate) names: usize,
    pub(crate) row: u16,
}

// The nearest group, from the path's upward, whose `pids.max` one more process would exceed. `row` is that of the path's
// group. Does not descend the tree.
pub(crate) fn nearest_full<T: Allocator + Clone, M: Meter, A: Allocator + Clone>(
    tree: &GroupTable<T>,
    meter: &mut M,
    path: &GroupPath<A>,
    row: u16,
) -> Option<FullGroup>
    requires home { IsSome (fin.get tree.now path.now) }
    requires row { row ≡ row_at tree.now path.now }
    requires slots { SlotsBelow M.SLOTS tree.now }
    ensures answer { option_map (λ full. take full.names path.now) result ≡ first_path (is_full_by M.LEAVES (M.content meter.old) tree.now) (upward path.now) }
    ensures row { IfSome result (λ full. full.row ≡ row_at tree.now (take full.names path.now)) }
    ensures inside { IfSome result (λ full. (0 < full.names) × (full.names ≤ length path.now)) }
    ensures content { M.content meter.new ≡ M.content meter.old }
    ensures held { M.held meter.new ≡ M.held meter.old }
{
    tree.known();
    path.known();
    let mut at = row;
    for up in 0..DEPTH_MAX {
        if at == 0 {
            break;
        }
        if is_full(meter, tree.row(at)) {
            let names = path.depth() - up;
            return Some(FullGroup { names, row: at });
        }
        at = tree.up(at);
    }
    None
}

// Notes the group in a row and those above it, without the root. Does not descend the tree.
pub(crate) fn note_up<T: Allocator + Clone>(tree: &GroupTable<T>, row: u16) -> Notes
    requires group { IsOfGroup tree.now row }
    requires shallow { (p : Path) → IsSome (fin.get tree.now p) → length p ≤ 32 }
    ensures { (p : Path) → IsSome (fin.get tree.now p) → row ≡ row_at tree.now p → IsNoted tree.now p result }
{
    tree.known();
    let mut notes = Notes::new();
    let mut at = row;
    for _up in 0..DEPTH_MAX {
        if at == 0 {
            break;
        }
        let attr = tree.row(at);
        notes.push(attr.slot, attr.peak);
        at = tree.up(at);
    }
    notes
}
