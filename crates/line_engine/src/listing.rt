//! Listings of groups.

ghost use Rattle.std.specs.Prelude.{◌≡◌, IfOk, length};
ghost use Rattle.flat_model.specs.PathText.{read_path};
ghost use Rattle.line_engine.specs.Listings.{ReadsListedPath, TellsChildren, TellsChildrenAt, TellsGroup, TellsAll, names_bytes};

use crate::engine::LineEngine;
use crate::writing::put_out;
use group_path::{GroupPath, PathFault};
use group_tree::ChildNames;
use std::alloc::{AllocError, Global};

/// The result of listing names, paths or commands.
#[derive(Clone, Copy, Debug, PartialEq, Eq)]
pub enum Listing {
    /// The entries are in the buffer.
    Listed {
        /// How many bytes of the buffer they take.
        len: usize,
        /// How many there are.
        count: usize,
    },
    /// The group does not exist.
    NoGroup,
    /// The text is not a path.
    BadPath,
    /// The buffer is too small.
    TooSmall {
        /// The length of all entries.
        needed: usize,
    },
    /// An allocation failed.
    OutOfMemory,
}

/// Whether a group exists.
#[derive(Clone, Copy, Debug, PartialEq, Eq)]
pub enum Found {
    /// The group exists.
    There,
    /// The group does not exist.
    NoGroup,
    /// The text is not a path.
    BadPath,
    /// The allocation of the path failed.
    OutOfMemory,
}

/// Why no path was read.
#[derive(Clone, Copy, PartialEq, Eq)]
pub(crate) enum Unread {
    /// The text is not a path.
    BadPath,
    /// The allocation failed.
    OutOfMemory,
}

pub(crate) fn read(alloc: Global, text: &[u8]) -> Result<GroupPath<Global>, Unread>
    ensures { ReadsListedPath result (read_path text.now) }
{
    match GroupPath::read(alloc, text) {
        Ok(path) => Ok(path),
        Err(PathFault::OutOfMemory) => Err(Unread::OutOfMemory),
        Err(
            PathFault::NotRooted
            | PathFault::EmptyName
            | PathFault::BadByte(_)
            | PathFault::DotName
            | PathFault::Reserved
            | PathFault::NameTooLong
            | PathFault::TooDeep
            | PathFault::TooLong,
        ) => Err(Unread::BadPath),
    }
}

// Collects each name followed by a zero byte, and how many there are. It also returns out of memory for 2^64 names or more.
fn gather(alloc: Global, names: ChildNames<'_, Global>) -> Result<(Vec<u8>, usize), AllocError>
    ensures bytes { IfOk result (λ r. r.0.items ≡ names_bytes names.entry) }
    ensures count { IfOk result (λ r. r.1 ≡ length names.entry) }
{
    let mut bytes = Vec::new(alloc);
    let mut count = 0usize;
    for name in names {
        if count == usize::MAX {
            return Err(AllocError);
        }
        bytes.extend_from_slice(name)?;
        bytes.push(0)?;
        count += 1;
    }
    Ok((bytes, count))
}

/// Puts bytes with `count` entries into the start of the buffer.
pub(crate) fn put_listing(out: &mut [u8], bytes: &[u8], count: usize) -> Listing
    ensures { TellsAll bytes.now count out.new result }
{
    match put_out(out, bytes) {
        Some(len) => Listing::Listed { len, count },
        None => Listing::TooSmall {
            needed: bytes.len(),
        },
    }
}

impl LineEngine {
    fn children_at(&self, alloc: Global, path: &GroupPath<Global>, out: &mut [u8]) -> Listing
        ensures { TellsChildrenAt self.now.engine.machine.state path.now out.new result }
    {
        let Some(names) = self.engine.charges().child_names(path) else {
            return Listing::NoGroup;
        };
        let Ok((bytes, count)) = gather(alloc, names) else {
            return Listing::OutOfMemory;
        };
        match put_out(out, bytes.as_slice()) {
            Some(len) => Listing::Listed { len, count },
            None => Listing::TooSmall {
                needed: bytes.len(),
            },
        }
    }

    /// Puts the names of the children of the group at the path into the start of the buffer, in the order of their bytes,
    /// each followed by a zero byte.
    pub fn children(&self, alloc: Global, path: &[u8], out: &mut [u8]) -> Listing
        ensures { TellsChildren self.now.engine.machine.state (read_path path.now) out.new result }
    {
        match read(alloc, path) {
            Ok(path) => self.children_at(alloc, &path, out),
            Err(Unread::BadPath) => Listing::BadPath,
            Err(Unread::OutOfMemory) => Listing::OutOfMemory,
        }
    }

    /// Whether the group exists.
    pub fn has_group(&self, alloc: Global, path: &[u8]) -> Found
        ensures { TellsGroup self.now.engine.machine.state (read_path path.now) result }
    {
        match read(alloc, path) {
            Ok(path) => {
                if self.engine.charges().attr(&path).is_some() {
                    Found::There
                } else {
                    Found::NoGroup
                }
            }
            Err(Unread::BadPath) => Found::BadPath,
            Err(Unread::OutOfMemory) => Found::OutOfMemory,
        }
    }
}
