//! The groups as a recursive tree, under any allocator.
//!
//! - A tree is a finite map from paths to attributes. It always has the root. If it has a group, it has every group on the
//!   path to it.
//! - `insert`, `set` and `remove` change one path and nothing else. A refusal changes nothing, even if
//!   memory runs out in the middle of an insert.
//! - Refusals come in a fixed order, and each names its cause. Only `insert`, `copy`, `new`, and a `chain` of more than
//!   eight groups allocate. Each group has a block of its own, a name of more than 22 bytes needs two others, and the parent's
//!   list of children grows. That list has the first eight bytes of the names, as numbers, and the pointers to the blocks.
//! - A look-up descends once, in O(depth · log children) comparisons, most of them of numbers. Each group records how many
//!   groups are below it, so `descendants` is a look-up.
//! - `child_names` returns the names of a group's children in order. It allocates nothing.
//! - The calls that end in `_at` do the same at the first n names of a path, and copy nothing. `specified.rt` has the calls that
//!   no program of this repository makes.
//! - A path may use another allocator than the tree. Attributes are passed and returned by value. The tree interprets none of
//!   them, and tests no limit: two groups may have the same slot.
//!
//! Not promised: exact counts of descendants in a tree of 2^64 groups or more (they are modulo 2^64), and how much memory a
//! tree uses.
//!
//! `specs/Groups.antt` says what each call returns and leaves. `specs/Flat.antt` relates the tree to the flat state of
//! `flat_model`. The laws of these definitions are in `hierarchy_laws`.
#![tactic(auto)]

mod attr;
mod child_names;
mod copy;
mod fault;
mod insert;
mod node;
mod number;
mod remove;
mod set;
mod specified;
mod tree;

pub use attr::{Attr, Limit, LimitFile, Limits};
pub use child_names::ChildNames;
pub use fault::TreeFault;
pub use tree::GroupTree;
