//! What a hand holds, as contracts see it.
use std::collections::LinkedList;

/// The role of a hand.
#[derive(Clone, Copy)]
pub enum Role {
    /// The main hand, with the number of helpers that are out.
    Main(u64),
    /// A hand that was split off main.
    Helper,
    /// A helper that was joined, or a number that was never made. It holds nothing.
    Spent,
}

/// What a hand holds, by the number of a word: tokens at nodes, and amounts in stripes modulo 2^64.
///
/// A list that ends before a word's number has 0 there. No value of this type is made at run time.
/// It is what contracts see of a hand, and what the rule of a board of atomic words can keep for
/// each seat.
#[derive(Drop)]
pub struct Holding {
    pub role: Role,
    pub tokens: LinkedList<u64>,
    pub amounts: LinkedList<u64>,
}
