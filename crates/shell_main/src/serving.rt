//! The shell: it reads, answers all lines that it has read, writes their output, and reads on.

ghost use Rattle.std.specs.Prelude.{◌≡◌, ◌≤◌, ℕ, List, [], Bool, Option, false, true, OnOk};
ghost use Rattle.shell_main.specs.Shelled.{Shelled, ShelledBy};
ghost use Rattle.shell_main.specs.Talks.{Serves, StandsBeforeRead};

use crate::answering::{answer_last, answer_some};
use crate::reading::next_chunk;
use crate::{Options, ShellFault};
use program_io::{Sink, Source, write_whole};
use std::alloc::Global;
use std::sync::Wait;
use std::thread::Threads;
use trace_talk::{Summary, Talk};

/// Reads lines to the end of the source, and answers those of each read before the next read. A strict shell stops after the
/// first line that is neither a command nor skipped. A shell without a history keeps no records, and nothing can be undone.
///
/// The output for the lines of one read is written and flushed at once, before more is read; long output is written in
/// parts. The writer is also flushed before the first read. It may wait for its devices, but for nothing else. It keeps the
/// engine with its journal, of the input only the last read and the line that has not ended, and of the output only what is
/// not written yet. Apart from what the engine takes for each command, it is linear in the lines and their output. Without
/// a history it also drops each record.
///
/// # Errors
///
/// `Read` if a read failed; exactly the whole lines that were read are answered. `InputTooLong` if the next line has more
/// than `TRACE_MAX` bytes, or no number is left for it. `OutOfMemory`. For all these, exactly the output for whole lines was
/// written and flushed. `Write` if a write or a flush failed or a write took no bytes; then a prefix of the output was
/// written, and a strict shell answered no line after the first that is not a command. `NotACommand` after such a line, in
/// a strict shell: its answer, and those of the lines before it, are all that was written, and flushed.
pub fn shell_by<R: Threads + Wait + Sync, S: Source, W: Sink>(
    rt: &R,
    alloc: Global,
    options: Options,
    reader: &mut S,
    writer: &mut W,
) -> Result<Summary, ShellFault>
    requires reader { S.is_failed reader.old ≡ false }
    requires writer { W.is_failed writer.old ≡ false }
    ensures { ShelledBy options (S.left reader.old)
        (record { left = S.left reader.new; failed = S.is_failed reader.new }) (W.taken writer.old)
        (record { taken = W.taken writer.new; failed = W.is_failed writer.new; flushed = W.is_flushed writer.new })
        result }
{
    if write_whole(writer, &[]).is_err() {
        return Err(ShellFault::Write);
    }
    let Ok(mut talk) = Talk::new(alloc) else {
        return Err(ShellFault::OutOfMemory);
    };
    serve(rt, alloc, options, reader, writer, &mut talk)
}

/// Reads and answers, from the start.
fn serve<R: Threads + Wait + Sync, S: Source, W: Sink>(
    rt: &R,
    alloc: Global,
    options: Options,
    reader: &mut S,
    writer: &mut W,
    talk: &mut Talk,
) -> Result<Summary, ShellFault>
    ghost start: { Option (List ℕ) × Option (List ℕ) }
    requires good { S.is_failed reader.old ≡ false }
    requires stands { (lines : List ℕ) × StandsBeforeRead options start.0 (S.left reader.old) start.1
        (record { taken = W.taken writer.old; failed = W.is_failed writer.old; flushed = W.is_flushed writer.old })
        talk.old lines [] [] }
    ensures { ShelledBy options start.0
        (record { left = S.left reader.new; failed = S.is_failed reader.new }) start.1
        (record { taken = W.taken writer.new; failed = W.is_failed writer.new; flushed = W.is_flushed writer.new })
        result }
{
    let mut line = Vec::new(alloc);
    for _ in rt.forever() {
        if serve_read(alloc, options, reader, writer, talk, &mut line)? {
            return Ok(talk.summary());
        }
    }
    unreachable!()
}

/// Reads once, and answers the lines that end in what was read. Returns true at the end of the source, after answering a
/// last line without a line feed.
fn serve_read<S: Source, W: Sink>(
    alloc: Global,
    options: Options,
    reader: &mut S,
    writer: &mut W,
    talk: &mut Talk,
    line: &mut Vec<u8>,
) -> Result<bool, ShellFault>
    ghost start: { Option (List ℕ) × Option (List ℕ) }
    requires good { S.is_failed reader.old ≡ false }
    requires stands { (lines : List ℕ) × StandsBeforeRead options start.0 (S.left reader.old) start.1
        (record { taken = W.taken writer.old; failed = W.is_failed writer.old; flushed = W.is_flushed writer.old })
        talk.old lines line.old.items [] }
    ensures good { OnOk result (S.is_failed reader.new ≡ false) }
    ensures serves { Serves options start.0
        (record { left = S.left reader.new; failed = S.is_failed reader.new }) start.1
        (record { taken = W.taken writer.new; failed = W.is_failed writer.new; flushed = W.is_flushed writer.new })
        result talk.new line.new.items }
{
    let mut buf = [0u8; 4096];
    let Ok(count) = next_chunk(options, reader, writer, line.as_slice(), &mut buf) else {
        return Err(ShellFault::Read);
    };
    if count == 0 {
        if !line.is_empty() {
            answer_last(alloc, options, writer, talk, line.as_slice())?;
        }
        return Ok(true);
    }
    let mut rest = &buf[..count];
    'more: while !rest.is_empty() {
        rest = answer_some(alloc, options, writer, talk, line, rest)?;
    }
    Ok(false)
}
