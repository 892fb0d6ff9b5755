//! Why a value is refused, and why a file is not shown.

ghost use Rattle.std.specs.Prelude.{◌≡◌, Some};
ghost use Rattle.interface_files.specs.Shown.{show_refusal_in};
ghost use Rattle.interface_files.specs.declared.fault.ShowFault.TheVariants.{OutOfMemory};

use std::alloc::AllocError;
use thiserror::Error;

/// Why a text is not a value of a file.
#[derive(Clone, Copy, Debug, PartialEq, Eq, Error)]
pub enum ValueFault {
    /// The text is empty but for spaces.
    #[error("there is no value")]
    Empty,
    /// A byte is not a decimal digit.
    #[error("a byte is no decimal digit")]
    NotANumber,
    /// A zero comes before other digits.
    #[error("a zero stands before other digits")]
    LeadingZero,
    /// The number is below or above the file's range, however many digits it has.
    #[error("the number is out of its range")]
    OutOfRange,
}

/// Why a file of a group is refused to a reader.
#[derive(Clone, Copy, Debug, PartialEq, Eq, Error)]
pub enum ShowRefusal {
    /// The group does not exist.
    #[error("there is no such group")]
    NoGroup,
    /// The root has no such file.
    #[error("the group has no such file")]
    NoFile,
    /// The file can only be written.
    #[error("the file cannot be read")]
    NotReadable,
}

/// Why a file is not shown.
#[derive(Clone, Copy, Debug, PartialEq, Eq, Error)]
pub enum ShowFault {
    /// The group does not exist.
    #[error("there is no such group")]
    NoGroup,
    /// The root has no such file.
    #[error("the group has no such file")]
    NoFile,
    /// The file can only be written.
    #[error("the file cannot be read")]
    NotReadable,
    /// The allocation of the text failed.
    #[error("out of memory")]
    OutOfMemory,
    /// The process does not exist.
    #[error("there is no such process")]
    NoProcess,
}

impl From<AllocError> for ShowFault {
    ghost from_gives = { λ _ fault. fault ≡ OutOfMemory };

    fn from(_error: AllocError) -> ShowFault {
        ShowFault::OutOfMemory
    }
}

impl From<ShowRefusal> for ShowFault {
    ghost from_gives = { λ refusal fault. show_refusal_in fault ≡ Some refusal };

    fn from(refusal: ShowRefusal) -> ShowFault {
        match refusal {
            ShowRefusal::NoGroup => ShowFault::NoGroup,
            ShowRefusal::NoFile => ShowFault::NoFile,
            ShowRefusal::NotReadable => ShowFault::NotReadable,
        }
    }
}
