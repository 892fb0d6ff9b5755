//! Answering the lines that one read brought: their output is collected, then written and flushed once.

ghost use Rattle.std.specs.Prelude.{◌≡◌, ◌<◌, ◌≤◌, ◌++◌, ◌&&◌, [], false, length, IfErr, IfOk, OnOk};
ghost use Rattle.std.specs.List.{position};
ghost use Rattle.flat_model.specs.Replies.{is_fault};
ghost use Rattle.flat_model.specs.Trace.{is_line_feed, read_line, trace_max};
ghost use Rattle.shell_main.specs.Forgetful.{remembered};
ghost use Rattle.shell_main.specs.Talks.{Answered, Finishes, GoesOn, Halts, IsUnended, KeepsBytes, AnswersShellLine, StopsShell};

use crate::{Options, ShellFault};
use program_io::{Sink, write_whole};
use std::alloc::{AllocError, Global};
use trace_lines::{Line, parse_line};
use trace_talk::{TRACE_MAX, Talk};

/// So much output is written before more lines are answered.
const OUTPUT_MAX: usize = 65_536;

/// Answers lines that end in these bytes, then writes their output and flushes it, once. Also the lines before one that
/// can't be answered get their output. Returns the bytes after these lines: there are some if the output got long.
pub(crate) fn answer_some<'a, W: Sink>(
    alloc: Global,
    options: Options,
    writer: &mut W,
    talk: &mut Talk,
    line: &mut Vec<u8>,
    bytes: &'a [u8],
) -> Result<&'a [u8], ShellFault>
    requires good { W.is_failed writer.old ≡ false }
    requires line { IsUnended line.old.items }
    requires some { 0 < length bytes.now }
    ensures fewer { IfOk result (λ rest. length rest.now < length bytes.now) }
    ensures ok { IfOk result (λ rest. GoesOn options talk.old (line.old.items ++ bytes.now)
        (W.taken writer.old)
        (record { taken = W.taken writer.new; failed = W.is_failed writer.new; flushed = W.is_flushed writer.new })
        talk.new line.new.items rest.now) }
    ensures err { IfErr result (StopsShell options talk.old (line.old.items ++ bytes.now)
        (W.taken writer.old)
        (record { taken = W.taken writer.new; failed = W.is_failed writer.new; flushed = W.is_flushed writer.new })) }
{
    let mut out = Vec::new(alloc);
    let answered = answer_lines(alloc, options, talk, line, bytes, &mut out);
    match write_whole(writer, out.as_slice()) {
        Ok(()) => answered,
        Err(_) => Err(ShellFault::Write),
    }
}

/// Answers lines that end in these bytes, and keeps the line that does not end.
fn answer_lines<'a>(
    alloc: Global,
    options: Options,
    talk: &mut Talk,
    line: &mut Vec<u8>,
    bytes: &'a [u8],
    out: &mut Vec<u8>,
) -> Result<&'a [u8], ShellFault>
    requires line { IsUnended line.old.items }
    requires some { 0 < length bytes.now }
    requires empty { out.old.items ≡ [] }
    ensures fewer { IfOk result (λ rest. length rest.now < length bytes.now) }
    ensures ok { IfOk result (λ rest. Answered options talk.old (line.old.items ++ bytes.now)
        (line.new.items ++ rest.now) out.new.items talk.new) }
    ensures unended { OnOk result (IsUnended line.new.items) }
    ensures err { IfErr result (Halts options talk.old (line.old.items ++ bytes.now) out.new.items) }
{
    let mut rest = bytes;
    while let Some(end) = line_end(rest) {
        keep(line, &rest[..end])?;
        say(alloc, options, talk, line.as_slice(), out)?;
        line.clear();
        rest = &rest[end + 1..];
        if out.len() >= OUTPUT_MAX {
            return Ok(rest);
        }
    }
    keep(line, rest)?;
    Ok(&rest[rest.len()..])
}

/// Answers the last line, which has no line feed, then writes the output and flushes it.
pub(crate) fn answer_last<W: Sink>(
    alloc: Global,
    options: Options,
    writer: &mut W,
    talk: &mut Talk,
    line: &[u8],
) -> Result<(), ShellFault>
    requires { W.is_failed writer.old ≡ false }
    ensures { Finishes options talk.old (read_line line.now) (W.taken writer.old)
        (record { taken = W.taken writer.new; failed = W.is_failed writer.new; flushed = W.is_flushed writer.new })
        result talk.new }
{
    let mut answer = Vec::new(alloc);
    let said = say(alloc, options, talk, line, &mut answer);
    match write_whole(writer, answer.as_slice()) {
        Ok(()) => said,
        Err(_) => Err(ShellFault::Write),
    }
}

/// The index of the first line feed.
fn line_end(bytes: &[u8]) -> Option<usize>
    ensures { result ≡ position is_line_feed bytes.now }
{
    bytes.iter().position(|byte| *byte == b'\n')
}

/// Appends these bytes to the line that has not ended.
fn keep(line: &mut Vec<u8>, bytes: &[u8]) -> Result<(), ShellFault>
    requires { length line.old.items ≤ trace_max }
    ensures { KeepsBytes line.old.items bytes.now result line.new.items }
{
    if bytes.len() > TRACE_MAX - line.len() {
        return Err(ShellFault::InputTooLong);
    }
    match line.extend_from_slice(bytes) {
        Ok(()) => Ok(()),
        Err(_) => Err(ShellFault::OutOfMemory),
    }
}

/// Answers one line, and appends its output.
fn say(
    alloc: Global,
    options: Options,
    talk: &mut Talk,
    line: &[u8],
    out: &mut Vec<u8>,
) -> Result<(), ShellFault>
    ensures { AnswersShellLine options talk.old (read_line line.now) out.old.items out.new.items result talk.new }
{
    if talk.summary().commands == u64::MAX {
        return Err(ShellFault::InputTooLong);
    }
    let Ok(stops) = stops_at(alloc, options.is_strict, line) else {
        return Err(ShellFault::OutOfMemory);
    };
    let mut said = Vec::new(alloc);
    let Ok(()) = talk.put_answer(alloc, line, &mut said) else {
        return Err(ShellFault::OutOfMemory);
    };
    let Ok(()) = out.extend_from_slice(said.as_slice()) else {
        return Err(ShellFault::OutOfMemory);
    };
    forget(options.keeps_history, talk);
    if stops {
        Err(ShellFault::NotACommand)
    } else {
        Ok(())
    }
}

/// Forgets what was recorded, unless a history is kept.
fn forget(keeps_history: bool, talk: &mut Talk)
    ensures { talk.new ≡ remembered keeps_history talk.old }
{
    if !keeps_history {
        talk.forget();
    }
}

/// Whether a strict shell stops at this line: it is not a command, nor is it skipped.
fn stops_at(alloc: Global, is_strict: bool, line: &[u8]) -> Result<bool, AllocError>
    ensures { IfOk result (λ stops. stops ≡ (is_strict && is_fault (read_line line.now))) }
{
    if !is_strict {
        return Ok(false);
    }
    match parse_line(alloc, line)? {
        Line::Fault(_) => Ok(true),
        Line::Skip | Line::Run(_) => Ok(false),
    }
}
