//! A meter over a board of atomic words.
//!
//! A `BoardMeter` keeps charges as `pids_charge::Meter` requires, on a board of `snzi_tree` with 1,024 slots of fifteen
//! nodes and eight stripes. Its content is what the board's main hand holds: a charge is a token of main at a leaf and 1 in
//! a stripe.
//!
//! What a user can rely on:
//! - The five calls meet the law of `Meter`: every result is that of one content, which each call changes as it says.
//! - `charge`, `uncharge`, `current` and `populated` allocate nothing, wait for nobody and always succeed. `current` is the
//!   sum of the slot's stripes; `populated` is one load of the slot's root.
//! - Outside `settle` no helper is out, and every token is main's.
//! - `settle` works in as many parts as there are tokens in both lists, but at least 2 and at most 8. Each list is cut into
//!   as many runs. Their lengths differ by at most one, the longer runs first. Part 1 does the first runs with main on the
//!   calling thread. Each other part runs on a thread of its own, with a hand that is split off main with the part's leaving
//!   tokens and joined before `settle` returns. All hands are split off, and all threads started, before the first is
//!   joined. No thread outlives the call. A thread's stack has 256 KiB. Within a part the leaving charges are removed before
//!   the arriving ones are added. Each part first calls the test hook, even if its runs are empty. If a thread cannot be
//!   started, the thread that would have started it does the part. The final content is the same for any number of parts and
//!   threads. `settle` may wait for its threads, and for nothing else.
//!
//! Not promised: that a thread was started, and in which stripe an amount is stored.
//!
//! The definitions are in `specs/Held.antt`: what main holds between calls (`IsMeter`), what a part leaves (`Settled`), and
//! a hand that is split (`CutOff`) and joined (`PutTogether`).
#![tactic(auto)]

mod charges;
mod hands;
mod meter;
mod part;
mod parts;
mod shape;

pub use meter::BoardMeter;
