//! The atomic steps of a board, as plain data.
use snzi_tokens::Token;

/// A node of a slot. Node 0 is the root, and the parent of node k > 0 is (k - 1) / 2.
#[derive(Clone, Copy)]
pub struct At {
    pub slot: u16,
    pub node: u8,
}

/// One step of one hand. Main is hand 0.
#[derive(Clone, Copy)]
pub enum Event<'a> {
    /// Reads a word. If a slot has w nodes and l stripes, words 0 to w - 1 are nodes and words w to w + l - 1 are stripes.
    Load {
        hand: u32,
        slot: u16,
        word: u8,
    },
    /// Adds one at a node that is not zero. The hand gets a token there.
    FastAdd {
        hand: u32,
        at: At,
    },
    /// Adds one at a root. The hand gets a token there.
    RootAdd {
        hand: u32,
        slot: u16,
    },
    /// Adds one at a node below a root, by a hand with a token at the parent. The hand gets a token at the node. If the node
    /// was zero, the parent's token is used up.
    ChildAdd {
        hand: u32,
        at: At,
    },
    /// Subtracts one at a node, for one of the hand's tokens there. If a node below a root becomes zero, the hand gets a
    /// token at the parent.
    Leave {
        hand: u32,
        at: At,
    },
    /// Adds `n` in a stripe, modulo 2^64.
    StripeAdd {
        hand: u32,
        slot: u16,
        stripe: u8,
        n: u64,
    },
    /// Main gives these tokens to a new hand, whose number is the number of hands made before.
    Split {
        share: &'a [Token],
    },
    /// Main takes all that a helper has. The helper's number is then spent.
    Join {
        helper: u32,
    },
}
