//! A meter of plain numbers, for one thread.

ghost use Rattle.std.specs.Prelude.{◌≡◌, ℕ, ◌+◌, ◌-◌, ◌%◌, ◌^◌, ◌<◌, ◌≤◌, ◌↔◌, IsTrue, IfOk, List, length, sum, slice_index, slice_set, replicate};
ghost use Rattle.snzi_tokens.specs.Listed.{IsWithin, listed_at};
ghost use Rattle.pids_charge.specs.Content.{IsEmpty};
ghost use Rattle.pids_charge.specs.Table.{table_at, table_held};

use crate::gate::Gate;
use crate::meter::{HELD_MAX, Meter};
use crate::parts::{last_run, part_count};
use snzi_tokens::Token;
use std::alloc::{AllocError, Allocator};
use std::marker::Model;
use std::sync::Wait;
use std::thread::Threads;
use striped_adder::Stripes;

/// The number of slots.
pub const SLOTS: usize = 1024;

/// The number of leaves of a slot, and of its stripes.
pub const LEAVES: usize = 8;

// The numbers at the leaves of one slot, and the stripes that add up to them.
#[derive(Drop)]
struct Row {
    leaves: [u64; LEAVES],
    stripes: Stripes<LEAVES>,
}

impl Model for Row {
    ghost use Rattle.std.specs.Prelude.{◌≡◌, ◌<◌, ◌%◌, ◌^◌, ℕ, List, length, sum};

    ghost Value = { List ℕ };

    ghost view = { λ r. r.leaves };

    ghost invariant = { λ r. r.stripes ≡ sum r.leaves % 2 ^ 64 };
}

impl Row {
    fn new() -> Row
        ensures { result ≡ replicate LEAVES 0 }
    {
        Row {
            leaves: [0; LEAVES],
            stripes: Stripes::new(),
        }
    }

    fn charge(&mut self, leaf: u8)
        requires leaf { leaf < LEAVES }
        requires room { sum self.old < 2 ^ 41 }
        ensures { self.new ≡ slice_set self.old leaf (slice_index self.old leaf + 1) }
    {
        self.leaves[leaf as usize] += 1;
        self.stripes.add(leaf as usize, 1);
    }

    fn uncharge(&mut self, leaf: u8, stripe: u8)
        requires leaf { leaf < LEAVES }
        requires stripe { stripe < LEAVES }
        requires charged { 0 < slice_index self.old leaf }
        ensures { self.new ≡ slice_set self.old leaf (slice_index self.old leaf - 1) }
    {
        self.leaves[leaf as usize] -= 1;
        self.stripes.take(stripe as usize, 1);
    }

    fn current(&self) -> u64
        requires { sum self.now < 2 ^ 64 }
        ensures { result ≡ sum self.now }
    {
        self.stripes.sum()
    }

    fn populated(&self) -> bool
        ensures { IsTrue result ↔ 0 < sum self.now }
    {
        self.leaves.iter().any(|n| *n > 0)
    }
}

/// A meter of plain numbers: for each of 1,024 slots, a number for each of 8 leaves, and 8 stripes with the same sum.
#[derive(Drop)]
pub struct PlainMeter<A: Allocator> {
    rows: Vec<Row, A>,
}

impl<A: Allocator> Model for PlainMeter<A> {
    ghost use Rattle.std.specs.Prelude.{◌≡◌, ◌<◌, ◌≤◌, ℕ, List, length};

    ghost Value = { List (List ℕ) };

    ghost use Rattle.pids_charge.specs.Table.{IsTable};

    ghost view = { λ m. m.rows.items };

    ghost invariant = { λ m. IsTable m.rows.items };
}

impl<A: Allocator> PlainMeter<A> {
    /// An empty meter, in one allocation.
    ///
    /// # Errors
    ///
    /// `AllocError` when out of memory.
    pub fn new(alloc: A) -> Result<PlainMeter<A>, AllocError>
        ensures zeros { IfOk result (λ m. m ≡ replicate SLOTS (replicate LEAVES 0)) }
        ensures empty { IfOk result (λ m. IsEmpty (table_at m) (table_held m)) }
    {
        let mut rows = Vec::with_capacity(alloc, SLOTS)?;
        for _slot in 0..SLOTS {
            rows.push(Row::new())?;
        }
        Ok(PlainMeter { rows })
    }

    // Calls the test hook, then removes the leaving charges, then adds the arriving ones.
    fn do_part(
        &mut self,
        gate: &(dyn Gate + Sync),
        part: u8,
        stripe: u8,
        leaving: &[Token],
        arriving: &[Token],
    )
        requires part { (1 ≤ part) × (part ≤ 24) }
        requires place { IsWithin SLOTS LEAVES leaving.now × IsWithin SLOTS LEAVES arriving.now × (stripe < LEAVES) }
        requires charged { (s j : ℕ) → listed_at leaving.now s j ≤ table_at self.old s j }
        requires room { table_held self.old + length arriving.now ≤ HELD_MAX }
        ensures content { (s j : ℕ) → table_at self.new s j + listed_at leaving.now s j ≡ table_at self.old s j + listed_at arriving.now s j }
        ensures held { table_held self.new + length leaving.now ≡ table_held self.old + length arriving.now }
    {
        gate.pass(part);
        for token in leaving {
            self.uncharge(token.slot, token.leaf, stripe);
        }
        for token in arriving {
            self.charge(token.slot, token.leaf);
        }
    }

    // Does the parts 1 to `parts` one after another, or part 1 if that is 0.
    fn settle_parts(
        &mut self,
        gate: &(dyn Gate + Sync),
        parts: u8,
        stripe: u8,
        leaving: &[Token],
        arriving: &[Token],
    )
        requires few { parts ≤ 24 }
        requires place { IsWithin SLOTS LEAVES leaving.now × IsWithin SLOTS LEAVES arriving.now × (stripe < LEAVES) }
        requires charged { (s j : ℕ) → listed_at leaving.now s j ≤ table_at self.old s j }
        requires room { table_held self.old + length arriving.now ≤ HELD_MAX }
        ensures content { (s j : ℕ) → table_at self.new s j + listed_at leaving.now s j ≡ table_at self.old s j + listed_at arriving.now s j }
        ensures held { table_held self.new + length leaving.now ≡ table_held self.old + length arriving.now }
    {
        if parts <= 1 {
            self.do_part(gate, 1, stripe, leaving, arriving);
            return;
        }
        let (rest_leaving, last_leaving) = last_run(leaving, parts);
        let (rest_arriving, last_arriving) = last_run(arriving, parts);
        self.settle_parts(gate, parts - 1, stripe, rest_leaving, rest_arriving);
        self.do_part(gate, parts, stripe, last_leaving, last_arriving);
    }
}

impl<A: Allocator> Meter for PlainMeter<A> {
    const SLOTS: u16 = SLOTS as u16;

    const LEAVES: u8 = LEAVES as u8;

    ghost use Rattle.pids_charge.specs.Table.{table_at, table_held};
    ghost use Rattle.pids_charge.specs.declared.plain.TheConstants.{SLOTS, LEAVES};
    ghost use Rattle.std.proofs.Common.{rules};

    ghost SLOTS = { SLOTS };

    ghost LEAVES = { LEAVES };

    ghost content = { table_at };

    ghost held = { table_held };

    fn charge(&mut self, slot: u16, leaf: u8) {
        self.rows[slot as usize].charge(leaf);
    }

    fn uncharge(&mut self, slot: u16, leaf: u8, stripe: u8) {
        self.rows[slot as usize].uncharge(leaf, stripe);
    }

    fn current(&mut self, slot: u16) -> u64 {
        self.rows[slot as usize].current()
    }

    fn populated(&mut self, slot: u16) -> bool {
        self.rows[slot as usize].populated()
    }

    fn settle<R: Threads + Wait>(
        &mut self,
        _rt: &R,
        gate: &(dyn Gate + Sync),
        stripe: u8,
        leaving: &[Token],
        arriving: &[Token],
    ) {
        let parts = part_count(leaving, arriving);
        self.settle_parts(gate, parts, stripe, leaving, arriving);
    }

    ghost slots_positive = { Prim.search rules };

    ghost leaves_positive = { Prim.search rules };
}
