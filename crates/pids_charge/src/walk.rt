//! Walks from a group up to the root, from row to row: what they charge and uncharge, and which groups they meet.

ghost use Rattle.std.specs.Prelude.{◌≡◌, ℕ, ◌+◌, ◌<◌, ◌≤◌, length, IsSome, OnOk};
ghost use Rattle.std.specs.FinMap as fin;
ghost use Rattle.flat_model.specs.Path.{Path, at_or_below};
ghost use Rattle.snzi_tokens.specs.Listed.{IsWithin, listed_at};
ghost use Rattle.pids_charge.specs.GroupRows.{IsOfGroup};
ghost use Rattle.pids_charge.specs.Lists.{row_at};
ghost use Rattle.pids_charge.specs.Recount.{charges_at, charges_of, IsPlaced, SlotsBelow};

use crate::groups::GroupTable;
use crate::meter::{HELD_MAX, Meter};
use crate::notes::DEPTH_MAX;
use process_table::Process;
use snzi_tokens::Token;
use std::alloc::{AllocError, Allocator};

// Adds one charge at the group in a row and at each group above it other than the root. Does not descend the tree.
pub(crate) fn charge_up<T: Allocator + Clone, M: Meter>(
    tree: &GroupTable<T>,
    meter: &mut M,
    row: u16,
    leaf: u8,
)
    requires leaf_below { leaf < M.LEAVES }
    requires group { IsOfGroup tree.now row }
    requires shallow { (p : Path) → IsSome (fin.get tree.now p) → length p ≤ 32 }
    requires slots { SlotsBelow M.SLOTS tree.now }
    requires room { (p : Path) → IsSome (fin.get tree.now p) → row ≡ row_at tree.now p → M.held meter.old + length p ≤ HELD_MAX }
    ensures content { (p : Path) → IsSome (fin.get tree.now p) → row ≡ row_at tree.now p → (s j : ℕ) → M.content meter.new s j ≡ M.content meter.old s j + charges_at tree.now p leaf s j }
    ensures held { (p : Path) → IsSome (fin.get tree.now p) → row ≡ row_at tree.now p → M.held meter.new ≡ M.held meter.old + length p }
{
    tree.known();
    let mut at = row;
    for _up in 0..DEPTH_MAX {
        if at == 0 {
            break;
        }
        meter.charge(at - 1, leaf);
        at = tree.up(at);
    }
}

// Removes the charges of a process, from its own group upward. Does not descend the tree.
pub(crate) fn uncharge_up<T: Allocator + Clone, M: Meter, A: Allocator + Clone>(
    tree: &GroupTable<T>,
    meter: &mut M,
    process: &Process<A>,
    stripe: u8,
)
    requires stripe_below { stripe < M.LEAVES }
    requires placed { IsPlaced M.LEAVES tree.now process.now }
    requires slots { SlotsBelow M.SLOTS tree.now }
    requires charged { (s j : ℕ) → charges_of tree.now process.now s j ≤ M.content meter.old s j }
    ensures content { (s j : ℕ) → M.content meter.new s j + charges_of tree.now process.now s j ≡ M.content meter.old s j }
    ensures held { M.held meter.new + length process.now.home ≡ M.held meter.old }
{
    tree.known();
    process.home.known();
    let mut at = process.row;
    for _up in 0..DEPTH_MAX {
        if at == 0 {
            break;
        }
        meter.uncharge(at - 1, process.leaf, stripe);
        at = tree.up(at);
    }
}

// Appends a token for the group in a row and for each group above it other than the root. Does not descend the tree.
pub(crate) fn push_up<M: Meter, T: Allocator + Clone, B: Allocator>(
    tree: &GroupTable<T>,
    row: u16,
    leaf: u8,
    tokens: &mut Vec<Token, B>,
) -> Result<(), AllocError>
    requires leaf_below { leaf < M.LEAVES }
    requires group { IsOfGroup tree.now row }
    requires shallow { (p : Path) → IsSome (fin.get tree.now p) → length p ≤ 32 }
    requires slots { SlotsBelow M.SLOTS tree.now }
    requires within { IsWithin M.SLOTS M.LEAVES tokens.old.items }
    ensures counted { OnOk result ((p : Path) → IsSome (fin.get tree.now p) → row ≡ row_at tree.now p → (s j : ℕ) → listed_at tokens.new.items s j ≡ listed_at tokens.old.items s j + charges_at tree.now p leaf s j) }
    ensures many { OnOk result ((p : Path) → IsSome (fin.get tree.now p) → row ≡ row_at tree.now p → length tokens.new.items ≡ length tokens.old.items + length p) }
    ensures within { IsWithin M.SLOTS M.LEAVES tokens.new.items }
{
    tree.known();
    let mut at = row;
    for _up in 0..DEPTH_MAX {
        if at == 0 {
            break;
        }
        let slot = at - 1;
        tokens.push(Token { slot, leaf })?;
        at = tree.up(at);
    }
    Ok(())
}

// Whether the group in a row is at or below that in the row `top`. Compares no names.
pub(crate) fn is_at_or_below<T: Allocator + Clone>(tree: &GroupTable<T>, at: u16, top: u16) -> bool
    requires group { IsOfGroup tree.now at }
    requires shallow { (p : Path) → IsSome (fin.get tree.now p) → length p ≤ 32 }
    ensures { (p q : Path) → IsSome (fin.get tree.now p) → IsSome (fin.get tree.now q) → at ≡ row_at tree.now p → top ≡ row_at tree.now q → result ≡ at_or_below p q }
{
    tree.known();
    let mut met = at;
    for _up in 0..DEPTH_MAX + 1 {
        if met == top {
            return true;
        }
        if met == 0 {
            return false;
        }
        met = tree.up(met);
    }
    false
}
