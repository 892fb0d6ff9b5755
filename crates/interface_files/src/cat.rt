//! Reading a file of a group.

ghost use Rattle.std.specs.Prelude.{◌≡◌, true, None, IfOk, IfSome, OnErr, is_none, is_some, option_map};
ghost use Rattle.flat_model.specs.Command.{Show};
ghost use Rattle.flat_model.specs.Counts.{is_group};
ghost use Rattle.flat_model.specs.FileText.{file_text};
ghost use Rattle.flat_model.specs.File as model_file;
ghost use Rattle.flat_model.specs.Step.{refusal};
ghost use Rattle.interface_files.specs.FileMeaning.{file_of};
ghost use Rattle.interface_files.specs.Shown.{Shows, ShowsTo, refusal_to_show};

use crate::fault::{ShowFault, ShowRefusal};
use crate::file::File;
use crate::texts::{events_line, limit_line, number_line, pids_text, populated_text, stat_text};
use group_path::GroupPath;
use pids_charge::{Charges, Meter};
use std::alloc::{AllocError, Allocator};

/// What reading a file leads to.
#[derive(Drop)]
pub enum Shown<B: Allocator> {
    /// The text of the file.
    Text(Vec<u8, B>),
    /// There is no such group or file, or the file can't be read.
    Refused(ShowRefusal),
}

/// The refusal that `show` would return. Costs at most one descent of the tree.
pub fn refuses_show<A: Allocator + Clone, M: Meter, P: Allocator + Clone>(
    charges: &Charges<A, M>,
    path: &GroupPath<P>,
    file: File,
) -> Option<ShowRefusal>
    ensures { refusal M.SLOTS charges.now (Show path.now (file_of file)) ≡ option_map (refusal_to_show path.now) result }
{
    if !file.readable() {
        return Some(ShowRefusal::NotReadable);
    }
    if charges.attr(path).is_none() {
        return Some(ShowRefusal::NoGroup);
    }
    if file.on_root() {
        return None;
    }
    if path.depth() == 0 {
        return Some(ShowRefusal::NoFile);
    }
    None
}

// `cgroup.procs` of a group that exists.
fn procs_text<A: Allocator + Clone, M: Meter, B: Allocator + Clone, P: Allocator + Clone>(
    alloc: B,
    charges: &Charges<A, M>,
    path: &GroupPath<P>,
) -> Result<Vec<u8, B>, AllocError>
    requires { is_group charges.now path.now ≡ true }
    ensures { IfOk result (λ text. text.items ≡ file_text charges.now path.now model_file.Procs) }
{
    let Some(pids) = charges.members(alloc.clone()?, path)? else {
        unreachable!()
    };
    pids_text(alloc, pids.as_slice())
}

// The text of a file, unless it is refused. One descent of the tree, two for `cgroup.procs`.
fn text_of<A: Allocator + Clone, M: Meter, B: Allocator + Clone, P: Allocator + Clone>(
    alloc: B,
    charges: &mut Charges<A, M>,
    path: &GroupPath<P>,
    file: File,
) -> Option<Result<Vec<u8, B>, AllocError>>
    ensures refused { is_none result ≡ is_some (refusal M.SLOTS charges.old (Show path.now (file_of file))) }
    ensures shown { IfSome result (λ r. IfOk r (λ text. text.items ≡ file_text charges.old path.now (file_of file))) }
    ensures kept { charges.new ≡ charges.old }
{
    if path.depth() == 0 {
        if !file.on_root() {
            return None;
        }
    }
    match file {
        File::KillFile => None,
        File::Procs => {
            charges.attr(path)?;
            Some(procs_text(alloc, charges, path))
        }
        File::Events => Some(populated_text(alloc, charges.populated(path)?)),
        File::Stat => Some(stat_text(alloc, charges.descendants(path)?)),
        File::MaxDescendants => Some(limit_line(alloc, charges.attr(path)?.limits.descendants)),
        File::MaxDepth => Some(limit_line(alloc, charges.attr(path)?.limits.depth)),
        File::PidsMax => Some(limit_line(alloc, charges.attr(path)?.limits.pids)),
        File::PidsCurrent => Some(number_line(alloc, charges.current(path)?)),
        File::PidsPeak => Some(number_line(alloc, charges.attr(path)?.peak)),
        File::PidsEvents => Some(events_line(alloc, charges.attr(path)?.total)),
        File::PidsEventsLocal => Some(events_line(alloc, charges.attr(path)?.local)),
    }
}

/// The text of a file of the group at the path, or the first refusal that applies: `NotReadable` for `cgroup.kill`; `NoGroup`;
/// `NoFile` for a file that the root doesn't have. It changes nothing; it borrows the charges mutably because reading a meter
/// requires it.
///
/// `cgroup.procs` costs O(n log n) for n processes of the group. Every other file costs one descent of the tree, and every
/// refusal at most two, however many groups and processes there are.
///
/// # Errors
///
/// `AllocError`, only for a file that is not refused.
pub fn show<A: Allocator + Clone, M: Meter, B: Allocator + Clone, P: Allocator + Clone>(
    alloc: B,
    charges: &mut Charges<A, M>,
    path: &GroupPath<P>,
    file: File,
) -> Result<Shown<B>, AllocError>
    ensures shown { IfOk result (λ shown. ShowsTo M.SLOTS charges.old path.now (file_of file) shown) }
    ensures ready { OnErr result (refusal M.SLOTS charges.old (Show path.now (file_of file)) ≡ None) }
    ensures kept { charges.new ≡ charges.old }
{
    match text_of(alloc, charges, path, file) {
        Some(Ok(text)) => Ok(Shown::Text(text)),
        Some(Err(error)) => Err(error),
        None => match refuses_show(charges, path, file) {
            Some(refusal) => Ok(Shown::Refused(refusal)),
            None => unreachable!(),
        },
    }
}

/// `show`, with one error for memory and refusals.
///
/// # Errors
///
/// The first of these that applies: `NotReadable` for `cgroup.kill`; `NoGroup`; `NoFile` for a file that the root doesn't
/// have; `OutOfMemory`.
pub fn render<A: Allocator + Clone, M: Meter, B: Allocator + Clone, P: Allocator + Clone>(
    alloc: B,
    charges: &mut Charges<A, M>,
    path: &GroupPath<P>,
    file: File,
) -> Result<Vec<u8, B>, ShowFault>
    ensures shown { Shows M.SLOTS charges.old path.now (file_of file) result }
    ensures kept { charges.new ≡ charges.old }
{
    match show(alloc, charges, path, file)? {
        Shown::Text(text) => Ok(text),
        Shown::Refused(refusal) => Err(ShowFault::from(refusal)),
    }
}
