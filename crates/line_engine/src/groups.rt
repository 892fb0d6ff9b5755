//! The paths of all groups, and of those below a group.

ghost use Rattle.std.specs.Prelude.{◌≡◌, ◌++◌, IfOk, length};
ghost use Rattle.flat_model.specs.PathText.{read_path};
ghost use Rattle.line_engine.specs.Listings.{TellsAll, TellsGroups, TellsSubtree, TellsSubtreeAt, groups_from, paths_bytes, subtree};

use crate::engine::LineEngine;
use crate::listing::{Listing, Unread, put_listing, read};
use group_path::{DEPTH_MAX, GroupPath};
use pids_charge::{Charges, PlainMeter};
use std::alloc::{AllocError, Global};

/// The root's level, and one for each name of a path.
const LEVELS: u8 = DEPTH_MAX as u8 + 1;

// Appends the path, and those of the groups below it down to `levels` levels, each followed by a zero byte. Returns how many
// there are. It also returns out of memory for 2^64 paths or more.
fn gather_groups(
    alloc: Global,
    charges: &Charges<Global, PlainMeter<Global>>,
    path: &GroupPath<Global>,
    levels: u8,
    bytes: &mut Vec<u8>,
) -> Result<usize, AllocError>
    ensures bytes { IfOk result (λ count. bytes.new.items ≡ bytes.old.items ++ paths_bytes (groups_from charges.now levels path.now)) }
    ensures count { IfOk result (λ count. count ≡ length (groups_from charges.now levels path.now)) }
{
    if levels == 0 {
        return Ok(0);
    }
    bytes.extend_from_slice(path.text())?;
    bytes.push(0)?;
    let Some(names) = charges.child_names(path) else {
        return Err(AllocError);
    };
    let mut count = 1usize;
    for name in names {
        let Ok(child) = path.child(alloc, name) else {
            return Err(AllocError);
        };
        let below = gather_groups(alloc, charges, &child, levels - 1, bytes)?;
        if usize::MAX - count < below {
            return Err(AllocError);
        }
        count += below;
    }
    Ok(count)
}

impl LineEngine {
    fn subtree_from(&self, alloc: Global, path: &GroupPath<Global>, out: &mut [u8]) -> Listing
        ensures { TellsAll (paths_bytes (subtree self.now.engine.machine.state path.now)) (length (subtree self.now.engine.machine.state path.now)) out.new result }
    {
        let mut bytes = Vec::new(alloc);
        let Ok(count) = gather_groups(alloc, self.engine.charges(), path, LEVELS, &mut bytes) else {
            return Listing::OutOfMemory;
        };
        put_listing(out, bytes.as_slice(), count)
    }

    fn subtree_at(&self, alloc: Global, path: &GroupPath<Global>, out: &mut [u8]) -> Listing
        ensures { TellsSubtreeAt self.now.engine.machine.state path.now out.new result }
    {
        if self.engine.charges().attr(path).is_none() {
            return Listing::NoGroup;
        }
        self.subtree_from(alloc, path, out)
    }

    /// Puts the paths of all groups into the start of the buffer, each followed by a zero byte. The root comes first. After
    /// each group come the groups below it, child by child in the order of their names.
    pub fn groups(&self, alloc: Global, out: &mut [u8]) -> Listing
        ensures { TellsGroups self.now.engine.machine.state out.new result }
    {
        let Ok(root) = GroupPath::root(alloc) else {
            return Listing::OutOfMemory;
        };
        self.subtree_from(alloc, &root, out)
    }

    /// Puts the paths of the group and of the groups below it into the start of the buffer, in the order of `groups`, each
    /// followed by a zero byte.
    pub fn subtree(&self, alloc: Global, path: &[u8], out: &mut [u8]) -> Listing
        ensures { TellsSubtree self.now.engine.machine.state (read_path path.now) out.new result }
    {
        match read(alloc, path) {
            Ok(path) => self.subtree_at(alloc, &path, out),
            Err(Unread::BadPath) => Listing::BadPath,
            Err(Unread::OutOfMemory) => Listing::OutOfMemory,
        }
    }
}
