//! Why a command on charges is refused, and why a call on charges fails.

ghost use Rattle.std.specs.Prelude.{◌≡◌, Some};
ghost use Rattle.pids_charge.specs.Answers.{refusal_in};
ghost use Rattle.pids_charge.specs.declared.fault.ChargeFault.TheVariants.{OutOfMemory};

use crate::pid::Pid;
use std::alloc::AllocError;
use thiserror::Error;

/// Why a command on charges is refused. A number counts names: the group is that prefix of the given path, or for `PidsMax` of
/// the parent process's path.
#[derive(Clone, Copy, Debug, PartialEq, Eq, Error)]
pub enum ChargeRefusal {
    /// The group exists already.
    #[error("there is such a group already")]
    Exists,
    /// The group does not exist. For a new group, this is its parent.
    #[error("there is no such group")]
    NoGroup(usize),
    /// This group has as many groups below it as its limit allows.
    #[error("a limit on descendants is met")]
    Descendants(usize),
    /// This group has as many levels below it as its limit allows.
    #[error("a limit on depth is met")]
    Depth(usize),
    /// All slots are taken.
    #[error("there is no slot for another group")]
    NoSlot,
    /// The root cannot be removed.
    #[error("the root cannot be removed")]
    RootFixed,
    /// The group has groups below it.
    #[error("there are groups below it")]
    HasChildren,
    /// The group has processes.
    #[error("there are processes in it")]
    HasProcesses,
    /// The process does not exist.
    #[error("there is no such process")]
    NoProcess(Pid),
    /// The pid is in use.
    #[error("there is such a process already")]
    PidInUse(Pid),
    /// One more process would exceed this group's `pids.max`.
    #[error("a limit on processes would be exceeded")]
    PidsMax(usize),
    /// The group has no such file.
    #[error("the group has no such file")]
    NoFile,
}

/// Why a call on charges fails: a refusal, or memory. The numbers are those of `ChargeRefusal`.
#[derive(Clone, Copy, Debug, PartialEq, Eq, Error)]
pub enum ChargeFault {
    /// The group exists already.
    #[error("there is such a group already")]
    Exists,
    /// The group does not exist. For a new group, this is its parent.
    #[error("there is no such group")]
    NoGroup(usize),
    /// This group has as many groups below it as its limit allows.
    #[error("a limit on descendants is met")]
    Descendants(usize),
    /// This group has as many levels below it as its limit allows.
    #[error("a limit on depth is met")]
    Depth(usize),
    /// All slots are taken.
    #[error("there is no slot for another group")]
    NoSlot,
    /// The root cannot be removed.
    #[error("the root cannot be removed")]
    RootFixed,
    /// The group has groups below it.
    #[error("there are groups below it")]
    HasChildren,
    /// The group has processes.
    #[error("there are processes in it")]
    HasProcesses,
    /// The process does not exist.
    #[error("there is no such process")]
    NoProcess(Pid),
    /// The pid is in use.
    #[error("there is such a process already")]
    PidInUse(Pid),
    /// One more process would exceed this group's `pids.max`.
    #[error("a limit on processes would be exceeded")]
    PidsMax(usize),
    /// An allocation failed.
    #[error("out of memory")]
    OutOfMemory,
    /// The group has no such file.
    #[error("the group has no such file")]
    NoFile,
}

impl From<AllocError> for ChargeFault {
    ghost from_gives = { λ _ fault. fault ≡ OutOfMemory };

    fn from(_error: AllocError) -> ChargeFault {
        ChargeFault::OutOfMemory
    }
}

impl From<ChargeRefusal> for ChargeFault {
    ghost from_gives = { λ refusal fault. refusal_in fault ≡ Some refusal };

    fn from(refusal: ChargeRefusal) -> ChargeFault {
        match refusal {
            ChargeRefusal::Exists => ChargeFault::Exists,
            ChargeRefusal::NoGroup(n) => ChargeFault::NoGroup(n),
            ChargeRefusal::Descendants(n) => ChargeFault::Descendants(n),
            ChargeRefusal::Depth(n) => ChargeFault::Depth(n),
            ChargeRefusal::NoSlot => ChargeFault::NoSlot,
            ChargeRefusal::RootFixed => ChargeFault::RootFixed,
            ChargeRefusal::HasChildren => ChargeFault::HasChildren,
            ChargeRefusal::HasProcesses => ChargeFault::HasProcesses,
            ChargeRefusal::NoProcess(pid) => ChargeFault::NoProcess(pid),
            ChargeRefusal::PidInUse(pid) => ChargeFault::PidInUse(pid),
            ChargeRefusal::PidsMax(n) => ChargeFault::PidsMax(n),
            ChargeRefusal::NoFile => ChargeFault::NoFile,
        }
    }
}
