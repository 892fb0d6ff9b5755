//! Why a text is not a path.

ghost use Rattle.std.specs.Prelude.{◌≡◌};
ghost use Rattle.group_path.specs.declared.fault.PathFault.TheVariants.{OutOfMemory};

use crate::grammar::{DEPTH_MAX, NAME_MAX, TEXT_MAX};
use std::alloc::AllocError;
use thiserror::Error;

/// Why a text is not a path, or a name is not the name of a child.
#[derive(Clone, Copy, Debug, PartialEq, Eq, Error)]
pub enum PathFault {
    /// The text is empty or does not begin with a slash.
    #[error("a path begins with a slash")]
    NotRooted,
    /// A name is empty, as after a slash at the end.
    #[error("a name is empty")]
    EmptyName,
    /// A name contains a byte that is not allowed. The number is its index in the text, or in a child's name, counted from
    /// 0.
    #[error("the byte at {0} may not stand in a name")]
    BadByte(usize),
    /// A name is `.` or `..`.
    #[error("a name is `.` or `..`")]
    DotName,
    /// A name begins with `cgroup.` or `pids.`, like the kernel's interface files.
    #[error("a name begins with `cgroup.` or `pids.`")]
    Reserved,
    /// A name has more than `NAME_MAX` bytes.
    #[error("a name has more than {max} bytes", max = NAME_MAX)]
    NameTooLong,
    /// There are more than `DEPTH_MAX` names.
    #[error("there are more than {max} names", max = DEPTH_MAX)]
    TooDeep,
    /// The text has more than `TEXT_MAX` bytes.
    #[error("the path has more than {max} bytes", max = TEXT_MAX)]
    TooLong,
    /// The allocation of the path failed.
    #[error("out of memory")]
    OutOfMemory,
}

impl From<AllocError> for PathFault {
    ghost from_gives = { λ _ fault. fault ≡ OutOfMemory };

    fn from(_error: AllocError) -> PathFault {
        PathFault::OutOfMemory
    }
}
