//! The engine for C: the private calls `mk0_..`, which the C code of `bindings/c` uses.
//!
//! - C owns a handle. It has an engine or none; all bytes 0 means none. Each call takes the engine out of its handle, uses
//!   it, and puts it back.
//! - For each line, from each state, the status, the code, the output and the new state are those of the machine of
//!   `flat_model`, and the journal can undo. If the buffer is too small, or when out of memory, the engine stays unchanged.
//! - `mk0_path_fault` has no handle: it says which fault a text has that is not a path, and where.
//! - No call starts a thread, takes a lock or waits. No proof says that a handle may cross threads.
//!
//! Only tests check that C declares these calls correctly, and that a caller meets their conditions.
//!
//! `specs/Status.antt` says what each call returns and leaves, with its laws in `laws`; `specs/Sealed.antt` what a handle owns.
#![tactic(auto)]

mod exports;
mod handle;
mod info;
pub mod laws;
mod numbers;
mod parts;
mod paths;
mod seal;
