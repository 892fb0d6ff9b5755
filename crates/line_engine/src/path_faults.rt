//! The first fault of a text that is not a path, and where it is.

ghost use Rattle.std.specs.Prelude.{◌≡◌, ◌+◌, ◌<◌, ◌≤◌, ◌^◌, is_some, length};
ghost use Rattle.std.specs.List.{position, slice_split};
ghost use Rattle.flat_model.specs.PathText.{depth_max, is_slash, name_fault, names_in};
ghost use Rattle.line_engine.specs.PathFaults.{fault_at, faulty_name, found, number_of, place_of};

use group_path::{DEPTH_MAX, GroupPath, PathFault, TEXT_MAX};
use std::alloc::Global;

/// The first fault of a text that is not a path.
#[derive(Clone, Copy, Debug, PartialEq, Eq)]
pub struct FaultAt {
    /// Its number.
    pub number: u32,
    /// The index of the bad byte, of the first byte of the bad name, or of the first byte too many.
    pub at: usize,
}

fn number_of(fault: PathFault) -> u32
    ensures { result ≡ number_of fault }
{
    match fault {
        PathFault::OutOfMemory => 0,
        PathFault::NotRooted => 1,
        PathFault::TooLong => 2,
        PathFault::TooDeep => 3,
        PathFault::EmptyName => 4,
        PathFault::BadByte(_) => 5,
        PathFault::NameTooLong => 6,
        PathFault::DotName => 7,
        PathFault::Reserved => 8,
    }
}

// Whether the text of a name has a fault: whether the root has no child of that name.
fn is_faulty(alloc: Global, name: &[u8]) -> bool
    ensures { result ≡ is_some (name_fault 0 name.now) }
{
    let Ok(root) = GroupPath::root(alloc) else {
        return false;
    };
    match root.child(alloc, name) {
        Ok(_) => false,
        Err(fault) => number_of(fault) != 0,
    }
}

// The index of the first name with a fault, or of the first name too many; 0 if there is none.
fn faulty_name(alloc: Global, text: &[u8]) -> usize
    ensures { result ≡ faulty_name (names_in text.now) }
{
    if text.len() < 2 {
        return 0;
    }
    let mut at = 1usize;
    let mut count = 0usize;
    for name in text[1..].split(|b| *b == b'/') {
        if count == DEPTH_MAX || is_faulty(alloc, name) {
            return at;
        }
        at += name.len() + 1;
        count += 1;
    }
    0
}

fn place_of(alloc: Global, text: &[u8], fault: PathFault) -> usize
    ensures { result ≡ place_of text.now fault }
{
    match fault {
        PathFault::OutOfMemory | PathFault::NotRooted => 0,
        PathFault::TooLong => TEXT_MAX,
        PathFault::BadByte(at) => at,
        PathFault::TooDeep
        | PathFault::EmptyName
        | PathFault::NameTooLong
        | PathFault::DotName
        | PathFault::Reserved => faulty_name(alloc, text),
    }
}

// Number and place of a fault; None if it is not one of the text, but a refused allocation.
fn found(alloc: Global, text: &[u8], fault: PathFault) -> Option<FaultAt>
    ensures { result ≡ found text.now fault }
{
    let number = number_of(fault);
    if number == 0 {
        return None;
    }
    let at = place_of(alloc, text, fault);
    Some(FaultAt { number, at })
}

/// The first fault of a text that is not a path; None for a path.
pub fn path_fault(alloc: Global, text: &[u8]) -> Option<FaultAt>
    ensures { result ≡ fault_at text.now }
{
    match GroupPath::read(alloc, text) {
        Ok(_) => None,
        Err(fault) => found(alloc, text, fault),
    }
}
