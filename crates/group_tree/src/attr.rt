//! The attributes of a group: its limits, its event totals, its peak and its slot.

/// A limit of a group.
#[derive(Clone, Copy, Debug, PartialEq, Eq)]
pub enum Limit {
    /// `max`: no limit.
    Unlimited,
    /// At most this many.
    At(u32),
}

/// The file of a limit.
#[derive(Clone, Copy, Debug, PartialEq, Eq)]
pub enum LimitFile {
    /// `pids.max`
    PidsMax,
    /// `cgroup.max.descendants`
    MaxDescendants,
    /// `cgroup.max.depth`
    MaxDepth,
}

/// The limits of a group (admin-guide, "Core Interface Files" and "PID Interface Files").
#[derive(Clone, Copy, Debug, PartialEq, Eq)]
pub struct Limits {
    /// On processes: `pids.max`.
    pub pids: Limit,
    /// On groups below: `cgroup.max.descendants`.
    pub descendants: Limit,
    /// On levels below: `cgroup.max.depth`.
    pub depth: Limit,
}

/// The attributes of a group.
#[derive(Clone, Copy, Debug, PartialEq, Eq)]
pub struct Attr {
    pub limits: Limits,
    /// How many forks the group's own `pids.max` refused (`pids.events.local`).
    pub local: u64,
    /// How many forks the group's own `pids.max` or that of a group below it refused (`pids.events`).
    pub total: u64,
    /// The most processes that were in the group and below it at once (`pids.peak`). The tree stores this number without
    /// interpreting it.
    pub peak: u64,
    /// The slot that counts the group's processes. The tree stores this number without interpreting it.
    pub slot: u16,
}

impl Attr {
    ghost use Rattle.std.specs.Prelude.{◌≡◌};
    ghost use Rattle.flat_model.specs.State.{fresh};
    ghost use Rattle.flat_model.specs.Step.{limit_at, with_limit};
    ghost use Rattle.group_tree.specs.Flat.{group_of, limit_of, limit_file_of};

    /// The attributes of a new group: no limits, event totals of 0, no peak, and this slot.
    pub fn new(slot: u16) -> Attr
        ensures group { group_of result ≡ fresh }
        ensures slot { result.slot ≡ slot }
    {
        Attr {
            limits: Limits {
                pids: Limit::Unlimited,
                descendants: Limit::Unlimited,
                depth: Limit::Unlimited,
            },
            local: 0,
            total: 0,
            peak: 0,
            slot,
        }
    }

    /// The limit of this file.
    pub fn limit(self, file: LimitFile) -> Limit
        ensures { limit_of result ≡ limit_at (limit_file_of file) (group_of self) }
    {
        match file {
            LimitFile::PidsMax => self.limits.pids,
            LimitFile::MaxDescendants => self.limits.descendants,
            LimitFile::MaxDepth => self.limits.depth,
        }
    }

    /// These attributes with another limit for this file. The other limits, the event totals, the peak and the slot stay.
    pub fn with_limit(self, file: LimitFile, limit: Limit) -> Attr
        ensures group { group_of result ≡ with_limit (limit_file_of file) (limit_of limit) (group_of self) }
        ensures slot { result.slot ≡ self.slot }
    {
        let mut attr = self;
        match file {
            LimitFile::PidsMax => attr.limits.pids = limit,
            LimitFile::MaxDescendants => attr.limits.descendants = limit,
            LimitFile::MaxDepth => attr.limits.depth = limit,
        }
        attr
    }
}
