//! Paths of groups in the cgroup hierarchy.
//!
//! A path is `/`, the root, or one or more names, each after a slash. A name has 1 to 255 bytes from 0x21 to 0x7E other than
//! the slash. It is not `.` or `..`, and it does not begin with `cgroup.` or `pids.`, like the kernel's interface files. A
//! path has at most 32 names and at most 4,095 bytes. These bounds are this crate's own.
//!
//! `GroupPath::read` accepts exactly these texts. For any other text it returns the first fault from the left. A path has
//! one text, so two paths are equal exactly if their texts are. Contracts see a path as its list of names and a name as its
//! list of bytes. Every path that a call takes or returns is in the grammar; `known` gives a caller its bounds.
//!
//! A path may use any allocator. A call that takes or makes a second path accepts another allocator for it. A text of up to
//! 22 bytes is stored in the path itself. For longer texts `read`, `parent`, `front`, `child` and `copy` allocate twice. They
//! return `OutOfMemory` or `AllocError` only if an allocation fails and nothing else is wrong. `share` makes the same path
//! again in the same allocator, and allocates nothing. Paths that share a text may be in different threads, and the last of
//! them frees it. No other call allocates. Every call is at most linear in the texts.
//!
//! Paths are ordered name by name: a group comes before the groups below it, and these come before its next sibling. This is
//! not the order of the texts.
//!
//! Not promised: that the group of a path exists, or that the kernel would accept the name.
//!
//! The definitions are in `flat_model`: `specs/Path.antt` (paths, their order, at or below) and `specs/PathText.antt`
//! (texts, the grammar, the first fault). `specs/FollowsGrammar.antt` in this crate says how a call returns one of those
//! faults. `hierarchy_laws` says what such a result means.
#![tactic(auto)]

mod child;
mod fault;
mod grammar;
mod names;
mod order;
mod path;

pub use fault::PathFault;
pub use grammar::{DEPTH_MAX, NAME_MAX, TEXT_MAX};
pub use names::Names;
pub use path::GroupPath;
