//! What a program over the trace language reads and writes: its arguments, a source, a sink.
//!
//! - A `Source` gives bytes and a `Sink` takes them. Their contracts name the bytes, if the device exposes them, and a mark
//!   that is set once a call failed. So a program can be stated over any device and run on any.
//! - `MemorySource` and `MemorySink` are devices in memory; `StreamSource` and `StreamSink` are over the readers and writers
//!   of std. Those over standard input and output expose no bytes.
//! - `write_whole` writes all bytes and flushes them. If it fails, a prefix was written.
//! - `collect_arguments` returns the program's arguments, or why they could not be read (`LineFault`). `cluster_first` finds a
//!   cluster of flags among them.
//!
//! Nothing here knows commands, engines or threads. Not promised: when a device answers, and what it allocates.
//!
//! `specs/Device.antt` says what reads and writes leave of a device, `specs/Arguments.antt` what collecting the arguments
//! gives, and `specs/Clusters.antt` what a cluster of flags is. `proofs/CommandLines.antt` has what the command lines of both
//! programs need of `clap`.
#![tactic(auto)]

mod arguments;
mod device;
mod memory;
mod output;
mod streams;

pub use arguments::{LineFault, cluster_first, collect_arguments, without_name};
pub use device::{DeviceFault, Sink, Source};
pub use memory::{MemorySink, MemorySource};
pub use output::write_whole;
pub use streams::{StreamSink, StreamSource};
