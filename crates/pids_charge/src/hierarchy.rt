//! Limits of the hierarchy: which of them a new group meets first, from row to row.

ghost use Rattle.std.specs.Prelude.{◌≡◌, ◌+◌, ◌-◌, ◌≤◌, length, take, IfSome, IsSome, option_map};
ghost use Rattle.std.specs.FinMap as fin;
ghost use Rattle.flat_model.specs.Counts.{reaches};
ghost use Rattle.flat_model.specs.Path.{Path, parent};
ghost use Rattle.flat_model.specs.State.{State};
ghost use Rattle.flat_model.specs.Step.{after_refusal, limit_met};
ghost use Rattle.group_tree.specs.Flat.{limit_of};
ghost use Rattle.pids_charge.specs.Answers.{names_in, refusal_along};
ghost use Rattle.pids_charge.specs.Events.{flat_of};
ghost use Rattle.pids_charge.specs.GroupRows.{IsOfGroup};
ghost use Rattle.pids_charge.specs.HierarchyLimits.{IsFirstMet};
ghost use Rattle.pids_charge.specs.Lists.{row_at};

use crate::fault::ChargeRefusal;
use crate::groups::GroupTable;
use group_tree::Limit;
use std::alloc::Allocator;

// Whether `n` is at the limit or past it.
fn is_reached(limit: Limit, n: u64) -> bool
    ensures { result ≡ reaches n (limit_of limit) }
{
    match limit {
        Limit::Unlimited => false,
        Limit::At(most) => u64::from(most) <= n,
    }
}

// Which limit of the group in a row a new group meets (admin-guide, "Core Interface Files"), so many levels below that group's
// children. The path of the group in the row has `n` names. The limit on descendants is tested before that on depth.
fn met_in<T: Allocator + Clone>(
    tree: &GroupTable<T>,
    at: u16,
    levels: usize,
    n: usize,
) -> Option<ChargeRefusal>
    requires { IsOfGroup tree.now at }
    ensures met { (p q : Path) → IsSome (fin.get tree.now q) → at ≡ row_at tree.now q → take n p ≡ q → levels ≡ length (parent p) - length q
        → option_map (refusal_along p) result ≡ limit_met (flat_of tree.now fin.empty) (parent p) q }
    ensures inside { IfSome result (λ met. names_in met ≡ n) }
    ensures uncounted { IfSome result (λ met. (p : Path) (s : State) → after_refusal s (refusal_along p met) ≡ s) }
{
    let limits = tree.row(at).limits;
    if is_reached(limits.descendants, tree.below(at)) {
        return Some(ChargeRefusal::Descendants(n));
    }
    if is_reached(limits.depth, levels as u64) {
        return Some(ChargeRefusal::Depth(n));
    }
    None
}

// The first limit that a new group meets, from its parent, which has `n` names and is in the row `above`, up to the root.
pub(crate) fn first_met<T: Allocator + Clone>(
    tree: &GroupTable<T>,
    above: u16,
    n: usize,
) -> Option<ChargeRefusal>
    requires parent { IsOfGroup tree.now above }
    requires shallow { n ≤ 32 }
    ensures first { (p : Path) → length p ≡ n + 1 → IsSome (fin.get tree.now (parent p)) → above ≡ row_at tree.now (parent p) → IsFirstMet tree.now p result }
    ensures uncounted { IfSome result (λ met. (p : Path) (s : State) → after_refusal s (refusal_along p met) ≡ s) }
{
    tree.known();
    let mut at = above;
    for levels in 0..n + 1 {
        if let Some(met) = met_in(tree, at, levels, n - levels) {
            return Some(met);
        }
        at = tree.up(at);
    }
    None
}
