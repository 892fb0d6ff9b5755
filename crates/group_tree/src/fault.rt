//! Why a tree refuses a change.

ghost use Rattle.std.specs.Prelude.{◌≡◌};
ghost use Rattle.group_tree.specs.declared.fault.TreeFault.TheVariants.{OutOfMemory};

use std::alloc::{AllocError, AllocFailed};
use thiserror::Error;

/// Why a tree refuses a change.
#[derive(Clone, Copy, Debug, PartialEq, Eq, Error)]
pub enum TreeFault {
    /// The group exists already.
    #[error("there is such a group already")]
    Exists,
    /// The parent group does not exist.
    #[error("there is no parent group")]
    NoParent,
    /// The group does not exist.
    #[error("there is no such group")]
    NoGroup,
    /// The group has groups below it.
    #[error("there are groups below it")]
    HasChildren,
    /// The root cannot be removed.
    #[error("the root cannot be removed")]
    RootFixed,
    /// The allocation for the group failed.
    #[error("out of memory")]
    OutOfMemory,
}
