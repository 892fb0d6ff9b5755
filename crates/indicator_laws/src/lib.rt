//! The laws of the definitions in `snzi_tokens`, `snzi_core` and `snzi_tree`, and examples computed from them.
//!
//! Each function is proof only: its contract is a law, which a check of this crate proves. A law holds for every core,
//! board, hand and list unless it says otherwise.
//!
//! - `answers`: what each result of the core means, which refusal an event meets first, and where a list of events leads;
//!   how hands and lists by word change.
//! - `boards`: the depth of leaves and the cost of calls, what is counted where, what a board and a view are.
//! - `events`: each step of a board is one event of the core; a step of two adds is not; cores whose hands hold the same
//!   stay alike; the core does every run to fewer than 2^32 hands; a run of no events leaves main with nothing.
//! - `words`: the words of a slot by number, sums over leaves, and what an event changes in a hand.
//!
//! The laws that say what each kind of event keeps are in `snzi_core::laws`, where the board's rule uses them. Cores and
//! boards written out are in `specs/`. No program uses this crate.
#![tactic(auto)]

pub mod answers;
pub mod boards;
pub mod events;
pub mod words;
