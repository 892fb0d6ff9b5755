//! Removing the charges of one list from a meter and adding those of another, and what two meters answer.
ghost use Rattle.std.specs.Prelude.{◌≡◌, ℕ, ◌+◌, ◌<◌, ◌≤◌, length, IsTrue};
ghost use Rattle.snzi_tokens.specs.Listed.{IsWithin, listed_at};
ghost use Rattle.board_tests.specs.Tokens.{HoldsTokens};

use pids_charge::{Gate, HELD_MAX, LEAVES, Meter, SLOTS, Token};
use std::sync::Wait;
use std::thread::Threads;

/// The last slot of both meters.
pub(crate) const LAST: u16 = SLOTS as u16 - 1;

/// Whether the tokens are at slots and leaves of both meters, and at most a thousand.
pub(crate) fn fits(tokens: &[Token]) -> bool
    ensures within { IsTrue result → IsWithin SLOTS LEAVES tokens.now }
    ensures few { IsTrue result → length tokens.now ≤ 1000 }
{
    tokens.len() <= 1000
        && tokens.iter().all(|t| usize::from(t.slot) < SLOTS && usize::from(t.leaf) < LEAVES)
}

// Removes the charges one by one.
fn uncharge_each<M: Meter>(meter: &mut M, stripe: u8, leaving: &[Token])
    requires within { IsWithin M.SLOTS M.LEAVES leaving.now }
    requires stripe { stripe < M.LEAVES }
    requires charged { (s j : ℕ) → listed_at leaving.now s j ≤ M.content meter.old s j }
    ensures content { (s j : ℕ) → M.content meter.new s j + listed_at leaving.now s j ≡ M.content meter.old s j }
    ensures held { M.held meter.new + length leaving.now ≡ M.held meter.old }
{
    for token in leaving {
        meter.uncharge(token.slot, token.leaf, stripe);
    }
}

// Adds the charges one by one.
fn charge_each<M: Meter>(meter: &mut M, arriving: &[Token])
    requires within { IsWithin M.SLOTS M.LEAVES arriving.now }
    requires room { M.held meter.old + length arriving.now ≤ HELD_MAX }
    ensures content { (s j : ℕ) → M.content meter.new s j ≡ M.content meter.old s j + listed_at arriving.now s j }
    ensures held { M.held meter.new ≡ M.held meter.old + length arriving.now }
{
    for token in arriving {
        meter.charge(token.slot, token.leaf);
    }
}

/// How charges are removed and added: each by a call, or all by a settlement.
#[derive(Clone, Copy)]
pub(crate) enum Way {
    Calls,
    Settlement,
}

/// The charges to be removed, from this stripe, and those to be added, each by a call or all by a settlement.
#[derive(Clone, Copy)]
pub(crate) struct Exchange<'a> {
    pub(crate) way: Way,
    pub(crate) stripe: u8,
    pub(crate) leaving: &'a [Token],
    pub(crate) arriving: &'a [Token],
}

/// Removes the leaving charges, which are all that there are, and adds the arriving ones.
pub(crate) fn swap<R: Threads + Wait, M: Meter>(
    rt: &R,
    meter: &mut M,
    gate: &(dyn Gate + Sync),
    exchange: &Exchange,
)
    requires within { IsWithin M.SLOTS M.LEAVES exchange.now.leaving.now × IsWithin M.SLOTS M.LEAVES exchange.now.arriving.now }
    requires stripe { exchange.now.stripe < M.LEAVES }
    requires few { (length exchange.now.leaving.now ≤ 1000) × (length exchange.now.arriving.now ≤ 1000) }
    requires held { HoldsTokens exchange.now.leaving.now (M.content meter.old) (M.held meter.old) }
    ensures held { HoldsTokens exchange.now.arriving.now (M.content meter.new) (M.held meter.new) }
{
    let Exchange {
        way,
        stripe,
        leaving,
        arriving,
    } = *exchange;
    match way {
        Way::Calls => {
            uncharge_each(meter, stripe, leaving);
            charge_each(meter, arriving);
        }
        Way::Settlement => meter.settle(rt, gate, stripe, leaving, arriving),
    }
}

/// The counts at slots 0 and 1 and at the last slot.
pub(crate) fn counts<M: Meter>(meter: &mut M) -> [u64; 3]
    requires { LAST < M.SLOTS }
    ensures content { M.content meter.new ≡ M.content meter.old }
    ensures held { M.held meter.new ≡ M.held meter.old }
{
    [meter.current(0), meter.current(1), meter.current(LAST)]
}

/// Whether both meters have the same count at each slot below `slots`, and a charge where it is positive.
pub(crate) fn alike<M: Meter, N: Meter>(one: &mut M, other: &mut N, slots: u16) -> bool
    requires slots { (slots ≤ M.SLOTS) × (slots ≤ N.SLOTS) }
    ensures one { (M.content one.new ≡ M.content one.old) × (M.held one.new ≡ M.held one.old) }
    ensures other { (N.content other.new ≡ N.content other.old) × (N.held other.new ≡ N.held other.old) }
{
    let mut same = true;
    for slot in 0..slots {
        let count = one.current(slot);
        let number = count == other.current(slot);
        let flag = one.populated(slot) == (count > 0);
        let other_flag = other.populated(slot) == (count > 0);
        same = same & number & flag & other_flag;
    }
    same
}
