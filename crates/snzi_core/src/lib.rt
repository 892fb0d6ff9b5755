//! The counting core: an indicator tree and its stripes as a machine over events.
//!
//! A core has slots. Each slot has nodes in heap order, one word each, and as many stripes as
//! leaves. The nodes are an indicator after "SNZI: Scalable NonZero Indicators" (Ellen, Lev,
//! Luchangco, Moir, PODC 2007): a node arrives at its parent when it leaves zero, and departs there
//! when it returns to zero. The stripes keep one sum, as `LongAdder` of
//! `java.util.concurrent.atomic` does. Hands act on the slots: main, which is hand 0, and the
//! helpers that it splits off. A token is an arrival of a hand that has not departed. No word here
//! is atomic: a core says, one event at a time, what a board of atomic words may do.
//!
//! What a user can rely on:
//! - `step` does an event if it is lawful within the caps. Otherwise it returns the first refusal
//!   and changes nothing. `replay` stops at the first event that is refused.
//! - After every event each node's word is the hands' tokens there plus the number of its children
//!   that are not zero, and each stripe is the hands' amounts there, modulo 2^64.
//! - So `query`, which reads one word and no hand, says whether some hand has a token at the node
//!   or below it, and `sum` is the hands' amounts in all stripes of the slot.
//! - Only `new` and a split can be out of memory; then nothing changes.
//!
//! Not promised: the published tree's retry loop, version number and half value; anything about
//! threads. A hand's number means nothing outside the core.
//!
//! The definitions are in `specs/`: the shape of a slot (`Shape`), what a hand holds and how it
//! changes (`Holding`, `Changes`), the caps (`Caps`), the balance and presence (`Balance`), the
//! state that contracts see (`CoreState`), the refusals (`Lawful`) and the effects (`Effect`). The laws
//! that other rules over words can use are the contracts of the module `laws` (`specs/Laws`).
#![tactic(auto)]

mod caps;
mod changes;
mod checks;
mod event;
mod hand;
mod holding;
pub mod laws;
mod machine;
mod reading;
mod refusals;
mod regrouping;
mod stepping;
mod table;
mod unlawful;

pub use caps::{HELPER_CAP, TOKEN_CAP};
pub use event::{At, Event};
pub use holding::{Holding, Role};
pub use machine::Core;
pub use snzi_tokens::Token;
pub use unlawful::Unlawful;
