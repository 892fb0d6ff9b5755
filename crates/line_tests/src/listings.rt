//! Lists of groups and of recorded commands in a buffer, and numbers of a group.

use crate::lines::{BUFFER_MAX, size_of};
use line_engine::{Found, LineEngine, Listing, Number};
use std::alloc::{AllocError, Global};
use test_support::{Case, CaseFault, push_escaped};

/// Appends how many entries there are, and the entries.
fn push_listing(
    said: &mut String,
    listing: Listing,
    buffer: &[u8; BUFFER_MAX],
) -> Result<(), CaseFault> {
    match listing {
        Listing::Listed { len, count } => {
            write!(said, "{count}: ")?;
            push_escaped(said, &buffer[..len.min(BUFFER_MAX)])?;
        }
        Listing::NoGroup => said.push_str("no group")?,
        Listing::BadPath => said.push_str("no path")?,
        Listing::TooSmall { needed } => write!(said, "needs {needed}")?,
        Listing::OutOfMemory => return Err(CaseFault::OutOfMemory),
    }
    Ok(())
}

pub(crate) fn push_children(
    alloc: Global,
    lines: &LineEngine,
    said: &mut String,
    case: &Case,
) -> Result<(), CaseFault> {
    let mut buffer = [0u8; BUFFER_MAX];
    let size = size_of(case, 1)?;
    let listing = lines.children(alloc, case.word(2), &mut buffer[..size]);
    push_listing(said, listing, &buffer)
}

pub(crate) fn push_groups(
    alloc: Global,
    lines: &LineEngine,
    said: &mut String,
    case: &Case,
) -> Result<(), CaseFault> {
    let mut buffer = [0u8; BUFFER_MAX];
    let size = size_of(case, 1)?;
    let listing = lines.groups(alloc, &mut buffer[..size]);
    push_listing(said, listing, &buffer)
}

pub(crate) fn push_subtree(
    alloc: Global,
    lines: &LineEngine,
    said: &mut String,
    case: &Case,
) -> Result<(), CaseFault> {
    let mut buffer = [0u8; BUFFER_MAX];
    let size = size_of(case, 1)?;
    let listing = lines.subtree(alloc, case.word(2), &mut buffer[..size]);
    push_listing(said, listing, &buffer)
}

pub(crate) fn push_history(
    alloc: Global,
    lines: &LineEngine,
    said: &mut String,
    case: &Case,
) -> Result<(), CaseFault> {
    let mut buffer = [0u8; BUFFER_MAX];
    let size = size_of(case, 1)?;
    let from = usize::try_from(case.number(2)?).map_err(|_| CaseFault::Malformed)?;
    let listing = lines.history(alloc, from, &mut buffer[..size]);
    push_listing(said, listing, &buffer)
}

/// Appends whether there is a group.
pub(crate) fn push_found(said: &mut String, found: Found) -> Result<(), CaseFault> {
    match found {
        Found::There => said.push_str("there")?,
        Found::NoGroup => said.push_str("no group")?,
        Found::BadPath => said.push_str("no path")?,
        Found::OutOfMemory => return Err(CaseFault::OutOfMemory),
    }
    Ok(())
}

/// Appends a number of a group.
pub(crate) fn push_number(said: &mut String, number: Number) -> Result<(), CaseFault> {
    match number {
        Number::Told(number) => write!(said, "{number}")?,
        Number::NoGroup => said.push_str("no group")?,
        Number::NoFile => said.push_str("no file")?,
        Number::BadPath => said.push_str("no path")?,
        Number::OutOfMemory => return Err(CaseFault::OutOfMemory),
    }
    Ok(())
}
