//! A row of the table of groups.

use group_tree::Attr;
use std::mem::size_of;

// The attributes of a group, how many groups are strictly below it, and the row of its parent.
#[derive(Clone, Copy)]
pub(crate) struct Group {
    pub(crate) attr: Attr,
    pub(crate) below: u32,
    pub(crate) up: u16,
}

// So the rows of 1,024 groups and the root take 65,600 bytes.
const _: () = prove!(size_of::<Group>() == 64);
