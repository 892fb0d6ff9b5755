//! The third phase: each worker writes the answers to one piece of the trace, and compares the log
//! with its commands.

ghost use Rattle.std.specs.Prelude.{◌≡◌, ◌++◌, ◌+◌, ◌<◌, ◌≤◌, ◌^◌, drop, length, map, take, true, is_some, IfOk, OnOk, IsTrue};
ghost use Rattle.std.specs.List.{All, flat_map, count_by, sum_by};
ghost use Rattle.flat_model.specs.Replies.{reply_bytes, is_refused};
ghost use Rattle.replay_main.specs.Script.{AreLogged, IsCounted, IsPart, IsPartAt, all_commands, all_places, answers_from, place_of};

use crate::logged::are_logged;
use crate::reading::{NumberedLine, Script, count_faults, sizes};
use crate::runs::{behind, first, in_runs};
use pids_charge::Gate;
use sessions::Entry;
use std::alloc::{AllocError, Global};
use std::thread::Threads;
use trace_lines::{is_refused, put_fault, put_reply};

/// The answers to one piece of a trace.
#[derive(Drop)]
pub(crate) struct Part {
    pub(crate) bytes: Vec<u8>,
    /// How many of its lines are answered `refused`.
    pub(crate) refused: u64,
    /// Whether the log has the commands of the piece, each run by the session whose turn it was.
    pub(crate) is_logged: bool,
}

/// Writes the answers; each worker writes those to one script.
pub(crate) fn answers_of<R: Threads + Sync, G: Gate>(
    rt: &R,
    alloc: Global,
    gate: &G,
    scripts: &[Script],
    log: &[Entry],
) -> Result<Vec<Part>, AllocError>
    requires workers { (1 ≤ length scripts.now) × (length scripts.now ≤ 8) }
    requires places { length (all_places scripts.now) < 2 ^ 60 }
    requires commands { length (all_commands scripts.now) < 2 ^ 60 }
    requires counted { All IsCounted scripts.now }
    requires log { length log.now ≡ length (all_commands scripts.now) }
    ensures bytes { IfOk result (λ parts. flat_map (λ part. part.bytes.items) parts.items
        ≡ answers_from 1 (all_places scripts.now) (map (λ e. e.reply) log.now)) }
    ensures refused { IfOk result (λ parts. sum_by (λ part. part.refused) parts.items
        ≡ count_by is_some (all_places scripts.now)
        + count_by is_refused (map (λ e. e.reply) log.now)) }
    ensures logged { IfOk result (λ parts. All (λ part. part.is_logged ≡ true) parts.items
        → AreLogged (length scripts.now) 0 (all_commands scripts.now) log.now) }
{
    let workers = scripts.len() as u8;
    let answer = |worker: usize| -> Result<Part, AllocError>
        requires { (worker < length scripts.now) × (length (all_places scripts.now) < 2 ^ 60)
            × (length (all_commands scripts.now) < 2 ^ 60) }
        ensures { IfOk result (λ part. IsPartAt worker scripts.entry.now log.entry.now part) }
    { answer_at(alloc, scripts, worker, log) };
    in_runs(rt, alloc, gate, 2 * workers, workers, &answer)
}

/// The answers to the script at this index.
fn answer_at(
    alloc: Global,
    scripts: &[Script],
    at: usize,
    log: &[Entry],
) -> Result<Part, AllocError>
    requires at { at < length scripts.now }
    requires places { length (all_places scripts.now) < 2 ^ 60 }
    requires commands { length (all_commands scripts.now) < 2 ^ 60 }
    ensures { IfOk result (λ part. IsPartAt at scripts.now log.now part) }
{
    let (lines, turn) = sizes(first(scripts, at));
    let part = answer_script(
        alloc,
        scripts.len(),
        lines,
        turn,
        &scripts[at],
        behind(log, turn),
    )?;
    Ok(part)
}

/// The answers to a script, behind this many lines with a number. Its first command is at this
/// turn, and the log from there on is this.
fn answer_script(
    alloc: Global,
    workers: usize,
    lines: usize,
    turn: usize,
    script: &Script,
    log: &[Entry],
) -> Result<Part, AllocError>
    requires workers { 0 < workers }
    requires lines { lines < 2 ^ 60 }
    requires turn { turn < 2 ^ 60 }
    ensures { IfOk result (λ part. IsPart workers lines turn script.now log.now part) }
{
    let places = script.places.as_slice();
    let commands = script.commands.as_slice();
    let entries = first(log, commands.len());
    let bytes = answer(alloc, lines, places, entries)?;
    Ok(Part {
        bytes,
        refused: count_faults(places) as u64 + count_refused(entries),
        is_logged: are_logged(workers, turn, commands, entries),
    })
}

/// The answers to these lines, which come after this many lines with a number. `log` has the
/// replies to the commands among them.
fn answer(
    alloc: Global,
    before: usize,
    places: &[NumberedLine],
    log: &[Entry],
) -> Result<Vec<u8>, AllocError>
    requires { before < 2 ^ 63 }
    ensures { IfOk result (λ v. v.items
        ≡ answers_from (before + 1) (map place_of places.now) (map (λ e. e.reply) log.now)) }
{
    let mut bytes = Vec::new(alloc);
    let mut number = before as u64;
    let mut at = 0;
    for place in places {
        number += 1;
        match place {
            NumberedLine::Fault(fault) => put_fault(&mut bytes, number, *fault)?,
            NumberedLine::Command => {
                if at < log.len() {
                    put_text(alloc, &mut bytes, number, &log[at])?;
                    at += 1;
                }
            }
        }
    }
    Ok(bytes)
}

/// Appends the answer to the command of an entry to the bytes.
fn put_text(
    alloc: Global,
    bytes: &mut Vec<u8>,
    number: u64,
    entry: &Entry,
) -> Result<(), AllocError>
    ensures { OnOk result
        (bytes.new.items ≡ bytes.old.items ++ reply_bytes number entry.now.reply) }
{
    put_reply(alloc, bytes, number, &entry.reply)
}

/// Joins the answers of these parts in order.
pub(crate) fn join(alloc: Global, parts: Vec<Part>) -> Result<Vec<u8>, AllocError>
    ensures { IfOk result (λ v. v.items ≡ flat_map (λ part. part.bytes.items) parts.items) }
{
    let mut all = Vec::with_capacity(alloc, count_bytes(parts.as_slice()))?;
    for part in parts {
        let mut bytes = part.bytes;
        all.append(&mut bytes)?;
    }
    Ok(all)
}

/// How many bytes the answers have together.
fn count_bytes(parts: &[Part]) -> usize {
    let mut count = 0usize;
    for part in parts {
        count = count.saturating_add(part.bytes.len());
    }
    count
}

/// How many answers are `refused`.
pub(crate) fn count_all_refused(parts: &[Part]) -> u64
    requires { sum_by (λ part. part.refused) parts.now < 2 ^ 63 }
    ensures { result ≡ sum_by (λ part. part.refused) parts.now }
{
    let mut refused = 0;
    for part in parts {
        refused += part.refused;
    }
    refused
}

/// Whether the log has the commands of all parts.
pub(crate) fn all_logged(parts: &[Part]) -> bool
    ensures { IsTrue result → All (λ part. part.is_logged ≡ true) parts.now }
{
    for part in parts {
        if !part.is_logged {
            return false;
        }
    }
    true
}

/// How many replies of these entries are refusals.
fn count_refused(log: &[Entry]) -> u64
    ensures { result ≡ count_by is_refused (map (λ e. e.reply) log.now) }
{
    let mut refused = 0u64;
    for entry in log {
        if is_refusal(entry) {
            refused += 1;
        }
    }
    refused
}

/// Whether the reply of an entry is a refusal.
fn is_refusal(entry: &Entry) -> bool
    ensures { result ≡ is_refused entry.now.reply }
{
    is_refused(&entry.reply)
}
