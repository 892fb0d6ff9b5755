//! The texts of files with one value, and of the list of processes.

ghost use Rattle.std.specs.Prelude.{◌≡◌, ◌++◌, IfOk, codes, decimal, flat_map};
ghost use Rattle.flat_model.specs.FileText.{line, limit_text, flag_text};
ghost use Rattle.group_tree.specs.Flat.{limit_of};

use group_tree::Limit;
use itoa::Buffer;
use pids_charge::Pid;
use std::alloc::{AllocError, Allocator};

// A line with a number.
pub(crate) fn number_line<B: Allocator>(alloc: B, n: u64) -> Result<Vec<u8, B>, AllocError>
    ensures { IfOk result (λ text. text.items ≡ line (decimal n)) }
{
    let mut digits = Buffer::new();
    let mut text = Vec::with_capacity(alloc, 21)?;
    text.extend_from_slice(digits.format(n).as_bytes())?;
    text.extend_from_slice(b"\n")?;
    Ok(text)
}

// A line with a limit.
pub(crate) fn limit_line<B: Allocator>(alloc: B, limit: Limit) -> Result<Vec<u8, B>, AllocError>
    ensures { IfOk result (λ text. text.items ≡ line (limit_text (limit_of limit))) }
{
    match limit {
        Limit::Unlimited => Vec::from_slice(alloc, b"max\n"),
        Limit::At(most) => number_line(alloc, u64::from(most)),
    }
}

// `pids.events` or `pids.events.local` of a group that refused this number of forks.
pub(crate) fn events_line<B: Allocator>(alloc: B, refused: u64) -> Result<Vec<u8, B>, AllocError>
    ensures { IfOk result (λ text. text.items ≡ line (codes "max " ++ decimal refused)) }
{
    let mut digits = Buffer::new();
    let mut text = Vec::with_capacity(alloc, 25)?;
    text.extend_from_slice(b"max ")?;
    text.extend_from_slice(digits.format(refused).as_bytes())?;
    text.extend_from_slice(b"\n")?;
    Ok(text)
}

// `cgroup.stat` of a group with this number of groups below it. No group is ever dying, because a removed
// group is gone at once.
pub(crate) fn stat_text<B: Allocator>(alloc: B, below: u64) -> Result<Vec<u8, B>, AllocError>
    ensures { IfOk result (λ text. text.items ≡ line (codes "nr_descendants " ++ decimal below) ++ line (codes "nr_dying_descendants 0")) }
{
    let mut digits = Buffer::new();
    let mut text = Vec::with_capacity(alloc, 59)?;
    text.extend_from_slice(b"nr_descendants ")?;
    text.extend_from_slice(digits.format(below).as_bytes())?;
    text.extend_from_slice(b"\n")?;
    text.extend_from_slice(b"nr_dying_descendants 0\n")?;
    Ok(text)
}

// `cgroup.events` of a group. No group is ever frozen.
pub(crate) fn populated_text<B: Allocator>(
    alloc: B,
    populated: bool,
) -> Result<Vec<u8, B>, AllocError>
    ensures { IfOk result (λ text. text.items ≡ line (codes "populated " ++ flag_text populated) ++ line (codes "frozen 0")) }
{
    if populated {
        Vec::from_slice(alloc, b"populated 1\nfrozen 0\n")
    } else {
        Vec::from_slice(alloc, b"populated 0\nfrozen 0\n")
    }
}

// `cgroup.procs` of a group with these processes.
pub(crate) fn pids_text<B: Allocator>(alloc: B, pids: &[Pid]) -> Result<Vec<u8, B>, AllocError>
    ensures { IfOk result (λ text. text.items ≡ flat_map (λ pid. line (decimal pid)) pids.now) }
{
    let mut digits = Buffer::new();
    let mut text = Vec::new(alloc);
    for pid in pids {
        text.extend_from_slice(digits.format(pid.get()).as_bytes())?;
        text.extend_from_slice(b"\n")?;
    }
    Ok(text)
}
