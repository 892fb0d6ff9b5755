//! The trait of meters, which keep charges.

ghost use Rattle.std.specs.Prelude.{◌≡◌, ℕ, ◌+◌, ◌-◌, ◌^◌, ◌<◌, ◌≤◌, ◌↔◌, IsTrue, length, List};
ghost use Rattle.snzi_tokens.specs.Listed.{IsWithin, listed_at, one_at, over_leaves};
ghost use Rattle.pids_charge.specs.Content.{Content};
ghost use Rattle.pids_charge.specs.Parts.{in_parts};

use crate::gate::Gate;
use snzi_tokens::Token;
use std::sync::Wait;
use std::thread::Threads;

/// The most charges that a meter may hold: 2^40 - 8.
pub const HELD_MAX: u64 = 1_099_511_627_768;

/// Charges at slots and leaves. The results of a meter's calls are those of one content: a number for each slot and leaf. In
/// which stripe an amount is stored is not part of the content.
pub trait Meter {
    /// The number of slots.
    const SLOTS: u16;

    /// The number of leaves of each slot, and of its stripes.
    const LEAVES: u8;

    ghost SLOTS: { ℕ };

    ghost LEAVES: { ℕ };

    // the number at each slot and leaf
    ghost content: { Self → Content };

    // the number of charges in all
    ghost held: { Self → ℕ };

    /// Adds one charge at the slot and leaf.
    fn charge(&mut self, slot: u16, leaf: u8)
        requires slot_below { slot < SLOTS }
        requires leaf_below { leaf < LEAVES }
        requires room { held self.old < HELD_MAX }
        ensures content { (s j : ℕ) → content self.new s j ≡ content self.old s j + one_at slot leaf s j }
        ensures held { held self.new ≡ held self.old + 1 };

    /// Removes one charge at the slot and leaf, subtracting it in the stripe.
    fn uncharge(&mut self, slot: u16, leaf: u8, stripe: u8)
        requires slot_below { slot < SLOTS }
        requires leaf_below { leaf < LEAVES }
        requires stripe_below { stripe < LEAVES }
        requires charged { 0 < content self.old slot leaf }
        ensures content { (s j : ℕ) → content self.new s j + one_at slot leaf s j ≡ content self.old s j }
        ensures held { held self.new + 1 ≡ held self.old };

    /// The number of charges at the slot.
    fn current(&mut self, slot: u16) -> u64
        requires slot_below { slot < SLOTS }
        ensures answer { result ≡ over_leaves LEAVES (content self.old slot) }
        ensures content { content self.new ≡ content self.old }
        ensures held { held self.new ≡ held self.old };

    /// Whether there is a charge at the slot.
    fn populated(&mut self, slot: u16) -> bool
        requires slot_below { slot < SLOTS }
        ensures answer { IsTrue result ↔ 0 < over_leaves LEAVES (content self.old slot) }
        ensures content { content self.new ≡ content self.old }
        ensures held { held self.new ≡ held self.old };

    /// Removes the leaving charges and adds the arriving ones, in as many parts as `part_count` says. A part does one run of
    /// each list (`last_run`), the leaving ones first. Before that it calls the test hook, even if its runs are empty. The
    /// result is the same for any number of parts. It refuses nothing. It may wait for the threads that do parts.
    fn settle<R: Threads + Wait>(
        &mut self,
        rt: &R,
        gate: &(dyn Gate + Sync),
        stripe: u8,
        leaving: &[Token],
        arriving: &[Token],
    )
        requires leaving_within { IsWithin SLOTS LEAVES leaving.now }
        requires arriving_within { IsWithin SLOTS LEAVES arriving.now }
        requires stripe_below { stripe < LEAVES }
        requires charged { (s j : ℕ) → listed_at leaving.now s j ≤ content self.old s j }
        requires room { held self.old + length arriving.now ≤ HELD_MAX }
        ensures content { (s j : ℕ) → content self.new s j + listed_at leaving.now s j ≡ content self.old s j + listed_at arriving.now s j }
        ensures parts { (helpers s j : ℕ) → content self.new s j ≡ in_parts helpers leaving.now arriving.now (content self.old) s j }
        ensures held { held self.new + length leaving.now ≡ held self.old + length arriving.now };

    ghost slots_positive: { 1 ≤ SLOTS };

    ghost leaves_positive: { 1 ≤ LEAVES };
}
