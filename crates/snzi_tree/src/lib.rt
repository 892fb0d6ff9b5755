//! The board: indicator trees and their stripes on atomic words, for any number of threads.
//!
//! A board has `G` slots. Each has `W` nodes in heap order, an indicator after "SNZI: Scalable NonZero Indicators" (Ellen,
//! Lev, Luchangco, Moir, PODC 2007), and `L` stripes of one sum, like `LongAdder` of `java.util.concurrent.atomic`. Threads
//! share the board by `&` and act on it by hands of their own: main, which `new` returns, and the helpers that main splits
//! off.
//!
//! What a user can rely on:
//! - At every moment, whatever threads do, a run of lawful events leads from a new SNZI core to the board, with one event
//!   for each step. So balance and caps hold between any two steps.
//! - `close` gives its caller such a run. It leads to a core in which main alone holds what it holds, and has as many events
//!   as main and the helpers that it has joined have made steps.
//! - `arrive` gives the hand one token at a leaf, and `depart` removes one. `add` and `take` change the hand's amount in one
//!   stripe modulo 2^64. Nothing else of the hand changes but `steps`, and no other hand changes. `split` moves exactly the
//!   share; `join` gives main all that the helper holds.
//! - `query` returns true to a hand that has a token in the slot, whatever others do. For main with no helper out, `query`
//!   and `sum` are exact.
//! - `arrive`, `depart`, `query`, `add`, `take` and `sum` use no lock, no runtime and no memory, wait for nobody and always
//!   succeed. An arrival at depth d takes at most 1 + 3d + d(d+1)/2 steps, a departure at most d + 1.
//!
//! Not promised: what `query` returns to a hand without a token while helpers are out; that a sum during other threads' adds
//! is a snapshot; time. A helper that is dropped instead of joined stays out.
//!
//! The definitions are in `specs/`: the rule and what a hand's seat knows (`View`), what each kind of step says (`Tell`),
//! that a step is an event (`BoardEvents`), that the board has a run of as many events as its hands count (`Tallies`), what is
//! left at the end (`Ended`), what contracts say about a hand (`Hands`), by slots, leaves and stripes (`Contents`), and the
//! bounds (`Depths`). Balance, caps and presence are those of `snzi_core`.
//!
//! The first promise is kept as follows. The board's words are private to the module `board`. Only functions of its child
//! `words` step on them, and each that changes a word or a count requires that its step is one event (`IsStep`, `IsSplit`,
//! `IsJoin`). The loads that prepare a split and the end of the board change nothing, and are no events. From this the rule
//! of a running board keeps that a run leads to it (`HasRun`). The law `indicator_laws::events` says which event each kind
//! of step is, and that a step of two adds is not an event.
#![tactic(auto)]

mod board;
mod hand;
mod hands;
mod plays;
mod query;
mod steps;
mod stripes;
mod tokens;

pub use board::{Board, Hand};
pub use snzi_core::Token;
pub use tokens::HELD_MAX;
