//! Why an event is refused.
use thiserror::Error;

/// Why an event is refused. If several causes apply, the first in this order is returned: `NoNode`,
/// `NoHand`, `ZeroNode`, `NoToken`, `Cap`, `StillHolding`, `OutOfMemory`.
#[derive(Clone, Copy, Debug, PartialEq, Eq, Error)]
pub enum Unlawful {
    /// The hand was never made or is spent, or a join names main.
    #[error("there is no such hand")]
    NoHand,
    /// The hand lacks the token that the event uses up: at the node, at the parent of a node that
    /// is added to, or in the share of a split.
    #[error("the hand lacks the token")]
    NoToken,
    /// One hand would have more than `TOKEN_CAP` tokens at one node, more than `HELPER_CAP` helpers
    /// would be out, or 2^32 - 1 hands were made.
    #[error("a cap is met")]
    Cap,
    /// A join of a helper with a token at a node that is not a leaf.
    #[error("the helper has a token at a node that is no leaf")]
    StillHolding,
    /// The allocation for a new hand failed. Only a split returns this.
    #[error("out of memory")]
    OutOfMemory,
    /// The slot, node, word, stripe or leaf is not in the shape, or a child's add names a root.
    #[error("there is no such node")]
    NoNode,
    /// A fast add at a node that is zero.
    #[error("the node is zero")]
    ZeroNode,
}
