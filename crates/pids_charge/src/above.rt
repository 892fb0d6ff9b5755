//! Changes of a group and of the groups above it, from row to row.

ghost use Rattle.std.specs.Prelude.{◌≡◌, ◌-◌, ◌^◌, ◌≤◌, length, take, IsSome};
ghost use Rattle.std.specs.FinMap as fin;
ghost use Rattle.flat_model.specs.Path.{Path};
ghost use Rattle.pids_charge.specs.Events.{CountsRefusals};
ghost use Rattle.pids_charge.specs.GroupRows.{stepped, IsOfGroup};
ghost use Rattle.pids_charge.specs.Lists.{row_at};
ghost use Rattle.pids_charge.specs.Peaks.{SetsPeaks};

use crate::groups::GroupTable;
use crate::notes::DEPTH_MAX;
use group_tree::Attr;
use std::alloc::Allocator;

// Sets the peaks of the group in a row and of those above it without the root, from that group upward. There is one for each.
pub(crate) fn set_peaks_up<T: Allocator + Clone>(tree: &mut GroupTable<T>, row: u16, peaks: &[u64])
    requires group { IsOfGroup tree.old row }
    requires many { (p : Path) → IsSome (fin.get tree.old p) → row ≡ row_at tree.old p → length peaks.now ≡ length p }
    ensures { (p : Path) → IsSome (fin.get tree.old p) → row ≡ row_at tree.old p → SetsPeaks tree.old tree.new p peaks.now }
{
    tree.known();
    let mut at = row;
    for i in 0..peaks.len() {
        let attr = *tree.row(at);
        let above = tree.up(at);
        let peak = peaks[i];
        tree.put(at, Attr { peak, ..attr });
        at = above;
    }
}

// One more or one fewer: what a refused fork, or its undo, does to an event total, and a group that is made or removed to the
// number of groups below another.
#[derive(Clone, Copy)]
pub(crate) enum Change {
    Raise,
    Lower,
}

impl Change {
    // The greatest total and 0 stay.
    fn of(self, total: u64) -> u64
        ensures { result ≡ stepped (2 ^ 64 - 1) self total }
    {
        match self {
            Change::Raise => total.saturating_add(1),
            Change::Lower => total.saturating_sub(1),
        }
    }

    // The greatest number that a row can hold and 0 stay.
    pub(crate) fn of_below(self, below: u32) -> u32
        ensures { result ≡ stepped (2 ^ 32 - 1) self below }
    {
        match self {
            Change::Raise => below.saturating_add(1),
            Change::Lower => below.saturating_sub(1),
        }
    }
}

// Changes the local total of the group in a row, and the totals of it and of the groups above it other than the root.
pub(crate) fn change_totals<T: Allocator + Clone>(
    tree: &mut GroupTable<T>,
    row: u16,
    change: Change,
)
    requires group { IsOfGroup tree.old row }
    requires shallow { (p : Path) → IsSome (fin.get tree.old p) → length p ≤ 32 }
    ensures { (p : Path) → IsSome (fin.get tree.old p) → row ≡ row_at tree.old p → CountsRefusals (stepped (2 ^ 64 - 1) change) tree.old tree.new p }
{
    tree.known();
    let mut at = row;
    for _up in 0..DEPTH_MAX {
        if at == 0 {
            break;
        }
        let attr = *tree.row(at);
        let above = tree.up(at);
        let total = change.of(attr.total);
        tree.put(at, Attr { total, ..attr });
        at = above;
    }
    let own = *tree.row(row);
    let local = change.of(own.local);
    tree.put(row, Attr { local, ..own });
}

// The row of the group so many levels above the one in a row. The root is above itself.
pub(crate) fn row_up<T: Allocator + Clone>(tree: &GroupTable<T>, row: u16, levels: usize) -> u16
    requires group { IsOfGroup tree.now row }
    ensures { (p : Path) → IsSome (fin.get tree.now p) → row ≡ row_at tree.now p → result ≡ row_at tree.now (take (length p - levels) p) }
{
    tree.known();
    let mut at = row;
    for _up in 0..levels {
        at = tree.up(at);
    }
    at
}
