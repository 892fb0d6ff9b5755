//! The record from which a command is undone.

ghost use Rattle.std.specs.Prelude.{◌≡◌, IfOk};
ghost use Rattle.undo_journal.specs.CommandMeaning.{inverse_of};

use group_path::GroupPath;
use group_tree::{Attr, Limit, LimitFile};
use pids_charge::{LostList, Peaks, Pid};
use std::alloc::{AllocError, Allocator};

/// The record from which one command is undone.
#[derive(Drop)]
pub enum Inverse<A: Allocator + Clone> {
    /// A group was made. The undo removes it.
    Made {
        /// The group.
        path: GroupPath<A>,
    },
    /// A group was removed. The undo puts it back.
    Removed {
        /// The group.
        path: GroupPath<A>,
        /// Its attributes, apart, so that the other records are smaller. The slot is not binding.
        attr: Box<Attr, A>,
    },
    /// A process was made. The undo removes it, and restores the peaks along its group's path.
    Forked {
        /// The process.
        pid: Pid,
        /// The old peaks of its group and of the groups above it, from the group upward, without the root.
        peaks: Peaks<A>,
    },
    /// A process has exited. The undo puts it back.
    Exited {
        /// The process.
        pid: Pid,
        /// The group that it was in.
        path: GroupPath<A>,
    },
    /// A process was moved. The undo moves it back, and restores the peaks along the path of the group that it moved
    /// to.
    Moved {
        /// The process.
        pid: Pid,
        /// The group that it was in.
        path: GroupPath<A>,
        /// The old peaks of the group that it moved to and of the groups above that one, from the group upward, without
        /// the root.
        peaks: Peaks<A>,
    },
    /// A limit was set. The undo sets the old one.
    Limited {
        /// The group.
        path: GroupPath<A>,
        /// Which limit.
        file: LimitFile,
        /// The old limit.
        value: Limit,
    },
    /// A fork was refused by a `pids.max`. The undo lowers the event totals that it raised.
    Counted {
        /// The group whose limit refused it.
        path: GroupPath<A>,
    },
    /// The processes at and below a group were killed. The undo puts each back into its own group.
    Killed {
        /// The processes with their groups, pids ascending.
        list: LostList<A>,
    },
}

impl<A: Allocator + Clone> Inverse<A> {
    /// Copies the record into another allocator, in time linear in its paths and peaks.
    ///
    /// # Errors
    ///
    /// `AllocError` when out of memory.
    pub fn copy<B: Allocator + Clone>(&self, alloc: B) -> Result<Inverse<B>, AllocError>
        ensures { IfOk result (λ i. inverse_of i ≡ inverse_of self.now) }
    {
        match self {
            Inverse::Made { path } => Ok(Inverse::Made {
                path: path.copy(alloc)?,
            }),
            Inverse::Removed { path, attr } => {
                let path = path.copy(alloc.clone()?)?;
                let attr = Box::new(alloc, **attr)?;
                Ok(Inverse::Removed { path, attr })
            }
            Inverse::Forked { pid, peaks } => Ok(Inverse::Forked {
                pid: *pid,
                peaks: peaks.copy(alloc)?,
            }),
            Inverse::Exited { pid, path } => Ok(Inverse::Exited {
                pid: *pid,
                path: path.copy(alloc)?,
            }),
            Inverse::Moved { pid, path, peaks } => {
                let path = path.copy(alloc.clone()?)?;
                let peaks = peaks.copy(alloc)?;
                Ok(Inverse::Moved {
                    pid: *pid,
                    path,
                    peaks,
                })
            }
            Inverse::Limited { path, file, value } => Ok(Inverse::Limited {
                path: path.copy(alloc)?,
                file: *file,
                value: *value,
            }),
            Inverse::Counted { path } => Ok(Inverse::Counted {
                path: path.copy(alloc)?,
            }),
            Inverse::Killed { list } => Ok(Inverse::Killed {
                list: list.copy(alloc)?,
            }),
        }
    }
}
