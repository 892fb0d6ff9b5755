//! Tokens: arrivals at the leaves of slots, as meters count them and an indicator keeps them.
//!
//! A slot is a row of numbers, one for each leaf. A token names a slot and a leaf, and counts one there. A charge of a
//! process at a group is a token, and so is an arrival of a hand at an indicator.
//!
//! What a user can rely on:
//! - `Token` is plain data: any two numbers are one. Whether a meter or a board has such a slot and leaf is a condition of
//!   their own calls (`IsWithin`).
//! - A list of tokens counts as many at each slot and leaf as it has tokens there, in any order (`listed_at`).
//!
//! The crate has no function. It stands below the indicator (`snzi_core`), so that crates which only speak of lists of tokens
//! don't wait for its proofs. The definitions are in `specs/Listed.antt`.
#![tactic(auto)]

mod token;

pub use token::Token;
