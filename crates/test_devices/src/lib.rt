//! The devices of the crates of tests: sources that come in pieces, fail or are long, sinks with little room, and a source and
//! a sink that talk.
//!
//! Contracts see no bytes of these devices, only their marks: a source that fails is failed from then on, and so is a sink.
//! What they give and take is for tests to see. No program uses this crate.
#![tactic(auto)]

mod narrow;
mod pieces;
mod repeated;
mod stuck;
mod talk;

pub use narrow::{Limits, Narrow};
pub use pieces::Pieces;
pub use repeated::Repeated;
pub use stuck::Stuck;
pub use talk::{Asker, Listener};
