//! Whether receipts are the entries of a log, each once, and the first fault if they are not.

ghost use Rattle.std.specs.Prelude.{
  ◌≡◌,
  ◌+◌,
  ◌<◌,
  ℕ,
  length,
  take,
  IfOk,
  IfErr,
  IfSome,
  IfNone,
  vec_len,
  slice_set,
  slice_index_or,
  slice_get,
  true,
  Some,
  IsTrue,
  ◌↔◌,
};
ghost use Rattle.flat_model.specs.Log.{entry_of};
ghost use Rattle.flat_model.specs.Audit.{AreEntries, handed};
ghost use Rattle.sessions.specs.Faults.{IsFirstFault};
ghost use Rattle.sessions.specs.Marks.{Audited, AllClear, IsNew, IsRefusedBy, IsFirstClear};

use crate::{CloseFault, Entry, Receipt, Session};
use std::alloc::{AllocError, Global};

/// Tests whether the sessions' receipts are the entries of the log, each once, of sessions below
/// `n`.
///
/// It takes time linear in the entries and receipts, and memory for one mark per entry.
///
/// # Errors
///
/// The first of these that applies: `OutOfMemory`; `Stranger` or `Mismatch` for the first faulty
/// receipt in the given order; `Missing`.
pub fn audit(alloc: Global, n: u8, log: &[Entry], sessions: &[Session]) -> Result<(), CloseFault>
    ensures ok { IfOk result (λ _. AreEntries n log.now sessions.now) }
    ensures fault { IfErr result (λ f. IsFirstFault n log.now sessions.now f) }
{
    let Ok(mut marks) = unmarked(alloc, log.len()) else {
        return Err(CloseFault::OutOfMemory);
    };
    for place in 0..sessions.len() {
        mark_session(n, log, sessions, place, &mut marks)?;
    }
    match first_unmarked(marks.as_slice()) {
        Some(number) => Err(CloseFault::Missing(number as u64)),
        None => Ok(()),
    }
}

fn unmarked(alloc: Global, len: usize) -> Result<Vec<bool>, AllocError>
    ensures { IfOk result (λ v. AllClear len v.items) }
{
    vec![in alloc; false; len]
}

fn first_unmarked(marks: &[bool]) -> Option<usize>
    ensures some { IfSome result (λ i. IsFirstClear marks.now i) }
    ensures none { IfNone result ((i : ℕ) → i < length marks.now
        → slice_index_or marks.now i true ≡ true) }
{
    for (i, is_marked) in marks.iter().enumerate() {
        if !*is_marked {
            return Some(i);
        }
    }
    None
}

/// Checks the receipts of the session at this index, after those of the sessions before it.
fn mark_session(
    n: u8,
    log: &[Entry],
    sessions: &[Session],
    place: usize,
    marks: &mut Vec<bool>,
) -> Result<(), CloseFault>
    requires within { place < length sessions.now }
    requires so_far { Audited n log.now marks.old.items (handed (take place sessions.now)) }
    ensures ok { IfOk result (λ _. Audited n log.now marks.new.items
        (handed (take (place + 1) sessions.now))) }
    ensures fault { IfErr result (λ f. IsFirstFault n log.now sessions.now f) }
{
    let session = &sessions[place];
    let number = session.number;
    let mut least = 0;
    for receipt in &session.receipts {
        mark(n, log, number, least, receipt, marks)?;
        least = receipt.number + 1;
    }
    Ok(())
}

/// Marks the entry of one receipt, in a list whose next number is at least `least`.
fn mark(
    n: u8,
    log: &[Entry],
    session: u8,
    least: u64,
    receipt: &Receipt,
    marks: &mut Vec<bool>,
) -> Result<(), CloseFault>
    requires { vec_len marks.old ≡ length log.now }
    ensures new { IfOk result (λ _. IsNew n log.now marks.old.items session least receipt.now) }
    ensures entry { IfOk result (λ _. slice_get log.now receipt.now.number
        ≡ Some (entry_of session receipt.now)) }
    ensures marks { IfOk result (λ _. marks.new.items
        ≡ slice_set marks.old.items receipt.now.number true) }
    ensures fault { IfErr result (λ f. IsRefusedBy n log.now marks.old.items session least
        receipt.now f) }
{
    let number = receipt.number;
    if session >= n {
        return Err(CloseFault::Stranger(session));
    }
    if number >= log.len() as u64 {
        return Err(CloseFault::Stranger(session));
    }
    if number < least {
        return Err(CloseFault::Stranger(session));
    }
    let at = number as usize;
    if marks[at] {
        return Err(CloseFault::Stranger(session));
    }
    if !is_of(&log[at], session, receipt) {
        return Err(CloseFault::Mismatch(number));
    }
    marks[at] = true;
    Ok(())
}

/// Whether the entry is the one that the session's receipt records.
fn is_of(entry: &Entry, session: u8, receipt: &Receipt) -> bool
    ensures { IsTrue result ↔ (entry.now ≡ entry_of session receipt.now) }
{
    entry.session == session && entry.command.is(&receipt.command) && entry.reply.is(&receipt.reply)
}
