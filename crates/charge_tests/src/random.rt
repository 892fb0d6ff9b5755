//! Many calls, compared with a plain list.

use crate::homed::Homed;
use std::alloc::{AllocError, Global};

/// The next number of a linear congruential generator, with the constants of PCG and Knuth's MMIX.
fn next(state: &mut u64) -> u64 {
    *state = state
        .wrapping_mul(6_364_136_223_846_793_005)
        .wrapping_add(1_442_695_040_888_963_407);
    *state >> 33
}

/// One of 96 pids: the first ones, those around the border of a page, and the last possible ones.
fn pid_of(number: u64) -> u32 {
    let low = (number % 32) as u32;
    match number / 32 % 3 {
        0 => low + 1,
        1 => low + 112,
        _ => 4_194_303 - low,
    }
}

/// A process of the plain list: its pid, its row and its leaf.
type Entry = (u32, u16, u8);

/// Removes the entry of a pid from the plain list.
fn without(entries: &mut Vec<Entry>, pid: u32) -> Option<(u16, u8)> {
    let at = entries.iter().position(|entry| entry.0 == pid)?;
    if at < entries.len() {
        let entry = entries.remove(at);
        Some((entry.1, entry.2))
    } else {
        None
    }
}

/// The pids of the plain list from this row to that one, ascending.
fn pids(alloc: Global, entries: &[Entry], from: u16, to: u16) -> Result<Vec<u32>, AllocError> {
    let mut pids = Vec::new(alloc);
    for entry in entries {
        if from <= entry.1 && entry.1 <= to {
            pids.push(entry.0)?;
        }
    }
    pids.sort()?;
    Ok(pids)
}

/// Whether the lists of all rows are those of the plain list. Each group is in the one before it, so the groups below
/// that of a row are those of the later rows.
fn are_same(alloc: Global, table: &Homed<Global>, entries: &[Entry]) -> Result<bool, AllocError> {
    for row in 0..4u16 {
        if table.members(alloc, row)? != pids(alloc, entries, row, row)?
            || table.inside(alloc, row)? != pids(alloc, entries, row, 3)?
        {
            return Ok(false);
        }
    }
    Ok(true)
}

/// Makes the call with that number on both, and returns whether both give the same result.
fn is_step_same(
    table: &mut Homed<Global>,
    entries: &mut Vec<Entry>,
    number: u64,
) -> Result<bool, AllocError> {
    let pid = pid_of(number);
    let row = (number / 96 % 4) as u16;
    let leaf = (number / 384 % 8) as u8;
    if number / 3072 % 5 < 2 {
        let taken = table.take(pid);
        let seen = taken.map(|process| (process.row, process.leaf));
        return Ok(seen == without(entries, pid));
    }
    let before = table.put(pid, row, leaf)?;
    let is_same = before == without(entries, pid) && table.read(pid) == Some((row, leaf));
    entries.push((pid, row, leaf))?;
    Ok(is_same)
}

/// Makes this number of calls on a new table and on a plain list. Returns the first call with another answer.
pub(crate) fn many_calls(alloc: Global, calls: u32) -> Result<Option<u32>, AllocError> {
    let mut table = Homed::new(alloc, alloc)?;
    let mut entries = Vec::new(alloc);
    let mut state = 1u64;
    for call in 0..calls {
        let number = next(&mut state);
        if !is_step_same(&mut table, &mut entries, number)? {
            return Ok(Some(call));
        }
        if call % 64 == 0 && !are_same(alloc, &table, &entries)? {
            return Ok(Some(call));
        }
    }
    Ok(None)
}
