//! The laws of the definitions that the contracts of `group_path` and `group_tree` use. This crate has no code.
//!
//! Each function's contract is a law, and its body is empty. A law says what a definition amounts to, as an equivalence
//! where possible, so that a weaker definition would not satisfy it.
//!
//! - `paths`: what a call of `group_path` returns for each result of the grammar, and the result for a text with each fault.
//! - `below`: the groups below one, how many they are, and the names of the children.
//! - `trees`: what the calls of `group_tree` return and leave, depending on the tree; and the tree's values in the flat
//!   state.
//!
//! The laws of paths, of their order and of their grammar are in `flat_model_laws`.
#![tactic(auto)]

pub mod below;
pub mod paths;
pub mod trees;
