//! Settlers: where the charges of a kill, and of its undo, are settled.

ghost use Rattle.std.specs.Prelude.{◌≡◌, ℕ, ◌+◌, ◌<◌, ◌≤◌, length};
ghost use Rattle.snzi_tokens.specs.Listed.{IsWithin, listed_at};

use crate::gate::Gate;
use crate::meter::{HELD_MAX, Meter};
use snzi_tokens::Token;
use std::sync::Wait;
use std::thread::Threads;

/// Settles charges at any meter.
pub trait Settler {
    /// Removes the leaving charges and adds the arriving ones. It refuses nothing.
    fn settle<M: Meter>(&self, meter: &mut M, stripe: u8, leaving: &[Token], arriving: &[Token])
        requires leaving_within { IsWithin M.SLOTS M.LEAVES leaving.now }
        requires arriving_within { IsWithin M.SLOTS M.LEAVES arriving.now }
        requires stripe_below { stripe < M.LEAVES }
        requires charged { (s j : ℕ) → listed_at leaving.now s j ≤ M.content meter.old s j }
        requires room { M.held meter.old + length arriving.now ≤ HELD_MAX }
        ensures content { (s j : ℕ) → M.content meter.new s j + listed_at leaving.now s j ≡ M.content meter.old s j + listed_at arriving.now s j }
        ensures held { M.held meter.new + length leaving.now ≡ M.held meter.old + length arriving.now };
}

/// Settles on the calling thread, one charge after another. It calls no test hook and waits for nobody.
#[derive(Clone, Copy, Drop)]
pub struct Alone;

impl Settler for Alone {
    fn settle<M: Meter>(&self, meter: &mut M, stripe: u8, leaving: &[Token], arriving: &[Token]) {
        uncharge_each(meter, stripe, leaving);
        charge_each(meter, arriving);
    }
}

/// Settles by the meter's own `settle`, with this runtime and test hook. It may wait for the threads that do parts.
#[derive(Drop)]
pub struct WithThreads<'a, R, G> {
    rt: &'a R,
    gate: G,
}

/// A settler by this runtime and test hook.
pub fn with_threads<'a, R: Threads + Wait>(
    rt: &'a R,
    gate: &'a (dyn Gate + Sync),
) -> WithThreads<'a, R, &'a (dyn Gate + Sync)>
    ensures { (result.rt.now ≡ rt.now) × (result.gate.now ≡ gate.now) }
{
    WithThreads { rt, gate }
}

impl<'a, R: Threads + Wait> Settler for WithThreads<'a, R, &'a (dyn Gate + Sync)> {
    fn settle<M: Meter>(&self, meter: &mut M, stripe: u8, leaving: &[Token], arriving: &[Token]) {
        meter.settle(self.rt, self.gate, stripe, leaving, arriving);
    }
}

// Removes the charges one by one.
fn uncharge_each<M: Meter>(meter: &mut M, stripe: u8, leaving: &[Token])
    requires within { IsWithin M.SLOTS M.LEAVES leaving.now }
    requires stripe { stripe < M.LEAVES }
    requires charged { (s j : ℕ) → listed_at leaving.now s j ≤ M.content meter.old s j }
    ensures content { (s j : ℕ) → M.content meter.new s j + listed_at leaving.now s j ≡ M.content meter.old s j }
    ensures held { M.held meter.new + length leaving.now ≡ M.held meter.old }
{
    for token in leaving {
        meter.uncharge(token.slot, token.leaf, stripe);
    }
}

// Adds the charges one by one.
fn charge_each<M: Meter>(meter: &mut M, arriving: &[Token])
    requires within { IsWithin M.SLOTS M.LEAVES arriving.now }
    requires room { M.held meter.old + length arriving.now ≤ HELD_MAX }
    ensures content { (s j : ℕ) → M.content meter.new s j ≡ M.content meter.old s j + listed_at arriving.now s j }
    ensures held { M.held meter.new ≡ M.held meter.old + length arriving.now }
{
    for token in arriving {
        meter.charge(token.slot, token.leaf);
    }
}
