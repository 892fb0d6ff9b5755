//! The refusals that the engine returns. Which refusal comes first is decided where the charges and the files are.

ghost use Rattle.std.specs.Prelude.{◌≡◌, [], IfOk, option_map, take, unwrap_or};
ghost use Rattle.interface_files.specs.Shown as files;
ghost use Rattle.pids_charge.specs.Answers as charges;
ghost use Rattle.undo_journal.specs.CommandMeaning.{refusal_of};

use crate::reply::Refusal;
use group_path::GroupPath;
use interface_files::ShowRefusal;
use pids_charge::ChargeRefusal;
use std::alloc::{AllocError, Allocator};

// The path of the first `n` names. The root's, if there is no path.
fn front_of<A: Allocator + Clone, B: Allocator + Clone>(
    alloc: &B,
    path: Option<&GroupPath<A>>,
    n: usize,
) -> Result<GroupPath<B>, AllocError>
    ensures { IfOk result (λ front. front ≡ take n (unwrap_or (option_map (λ p. p.now) path.entry) [])) }
{
    match path {
        Some(path) => path.front(alloc.clone()?, n),
        None => GroupPath::root(alloc.clone()?),
    }
}

/// Gives a refusal its path. A refusal of the charges names a group by a number of names of a path; the engine's has that group's
/// path. It is the path of the command, or else of the process's group, if there is one.
///
/// # Errors
///
/// `AllocError` if the path can't be allocated.
pub(crate) fn refusal_at<A: Allocator + Clone, B: Allocator + Clone>(
    alloc: &B,
    path: Option<&GroupPath<A>>,
    refusal: ChargeRefusal,
) -> Result<Refusal<B>, AllocError>
    ensures { IfOk result (λ r. refusal_of r ≡ charges.refusal_along (unwrap_or (option_map (λ p. p.now) path.entry) []) refusal) }
{
    match refusal {
        ChargeRefusal::Exists => Ok(Refusal::Exists),
        ChargeRefusal::NoGroup(n) => Ok(Refusal::NoGroup(front_of(alloc, path, n)?)),
        ChargeRefusal::Descendants(n) => Ok(Refusal::Descendants(front_of(alloc, path, n)?)),
        ChargeRefusal::Depth(n) => Ok(Refusal::Depth(front_of(alloc, path, n)?)),
        ChargeRefusal::NoSlot => Ok(Refusal::NoSlot),
        ChargeRefusal::RootFixed => Ok(Refusal::RootFixed),
        ChargeRefusal::HasChildren => Ok(Refusal::HasChildren),
        ChargeRefusal::HasProcesses => Ok(Refusal::HasProcesses),
        ChargeRefusal::NoProcess(pid) => Ok(Refusal::NoProcess(pid)),
        ChargeRefusal::PidInUse(pid) => Ok(Refusal::PidInUse(pid)),
        ChargeRefusal::PidsMax(n) => Ok(Refusal::PidsMax(front_of(alloc, path, n)?)),
        ChargeRefusal::NoFile => Ok(Refusal::NoFile),
    }
}

/// Gives a refusal of a file of the group at the path that path.
///
/// # Errors
///
/// `AllocError` if the path can't be copied.
pub(crate) fn refusal_to_show<A: Allocator + Clone, B: Allocator + Clone>(
    alloc: &B,
    path: &GroupPath<A>,
    refusal: ShowRefusal,
) -> Result<Refusal<B>, AllocError>
    ensures { IfOk result (λ r. refusal_of r ≡ files.refusal_to_show path.now refusal) }
{
    match refusal {
        ShowRefusal::NotReadable => Ok(Refusal::NotReadable),
        ShowRefusal::NoGroup => Ok(Refusal::NoGroup(path.copy(alloc.clone()?)?)),
        ShowRefusal::NoFile => Ok(Refusal::NoFile),
    }
}
