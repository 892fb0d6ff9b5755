//! The core: words and hands, seen by contracts as one state.
ghost use Rattle.std.specs.Prelude.{◌≡◌, ℕ, ◌+◌, ◌-◌, ◌*◌, ◌/◌, ◌%◌, ◌^◌, ◌<◌, ◌≤◌, ◌⊎◌, length, IfOk};
ghost use Rattle.snzi_core.specs.CoreState.{start};

use crate::hand::Hand;
use crate::holding::Role;
use std::alloc::{AllocError, Allocator};
use std::marker::Model;

/// The words of some slots, and the hands that act on them.
#[derive(Drop)]
pub struct Core<A: Allocator + Clone> {
    pub(crate) slots: u16,
    pub(crate) nodes: u8,
    pub(crate) words: Vec<u64, A>,
    pub(crate) hands: Vec<Hand<A>, A>,
}

impl<A: Allocator + Clone> Model for Core<A> {
    ghost use Rattle.snzi_core.specs.CoreState.{CoreState};

    ghost Value = { CoreState };

    ghost use Rattle.snzi_core.specs.Kept.{IsCore};

    ghost view = { λ c. record { slots = c.slots; nodes = c.nodes; words = c.words.items; hands = c.hands.items } };

    ghost invariant = { λ c. IsCore (record { slots = c.slots; nodes = c.nodes; words = c.words.items; hands = c.hands.items }) };
}

impl<A: Allocator + Clone> Core<A> {
    /// A core of `slots` slots with `nodes` nodes each: all words are zero, and main holds nothing.
    /// Allocates three numbers for each word.
    ///
    /// # Errors
    ///
    /// `AllocError` when out of memory.
    pub fn new(alloc: A, slots: u16, nodes: u8) -> Result<Core<A>, AllocError>
        requires slots { 1 ≤ slots }
        requires nodes { (nodes ≡ 1) ⊎ (nodes ≡ 3) ⊎ (nodes ≡ 7) ⊎ (nodes ≡ 15) }
        ensures { IfOk result (λ c. c ≡ start slots nodes) }
    {
        let leaves = (nodes as usize + 1) / 2;
        let size = slots as usize * (nodes as usize + leaves);
        let words = Vec::from_elem(alloc.clone()?, 0, size)?;
        let main = Hand::fresh(alloc.clone()?, Role::Main(0), size)?;
        let mut hands = Vec::new(alloc);
        hands.push(main)?;
        Ok(Core {
            slots,
            nodes,
            words,
            hands,
        })
    }
}
