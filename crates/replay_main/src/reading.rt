//! The first phase: each worker reads the lines in one piece of a trace.

ghost use Rattle.std.specs.Prelude.{◌≡◌, ◌<◌, ◌≤◌, ◌^◌, ◌++◌, length, map, take, drop, vec_len, is_some, IfOk, OnOk};
ghost use Rattle.std.specs.List.{flat_map, count_by, position};
ghost use Rattle.flat_model.specs.Replies.{command_in};
ghost use Rattle.flat_model.specs.Trace.{is_line_feed, lines_in, read_trace};
ghost use Rattle.undo_journal.specs.CommandMeaning.{command_of};
ghost use Rattle.trace_lines.specs.LineMeaning.{trace_line_of};
ghost use Rattle.replay_main.specs.Script.{AreScripts, IsScript, all_commands, all_places, place_in, place_of, run_of};

use crate::runs::in_runs;
use pids_charge::Gate;
use std::alloc::{AllocError, Global};
use std::thread::Threads;
use trace_lines::{Line, Lines, TextFault, parse_line};
use undo_journal::Command;

/// What a line with a number says.
#[derive(Clone, Copy)]
pub(crate) enum NumberedLine {
    /// A command.
    Command,
    /// Something that is not a command.
    Fault(TextFault),
}

/// The commands of a piece of a trace in order, and what each of its lines with a number says.
#[derive(Drop)]
pub(crate) struct Script {
    pub(crate) commands: Vec<Command<Global>>,
    pub(crate) places: Vec<NumberedLine>,
}

/// Reads the lines of a trace; each worker reads one piece of it.
pub(crate) fn read_scripts<R: Threads + Sync, G: Gate>(
    rt: &R,
    alloc: Global,
    gate: &G,
    workers: u8,
    trace: &[u8],
) -> Result<Vec<Script>, AllocError>
    requires { (1 ≤ workers) × (workers ≤ 8) }
    ensures number { IfOk result (λ scripts. vec_len scripts ≡ workers) }
    ensures scripts { IfOk result (λ scripts. AreScripts scripts.items (read_trace trace.now)) }
{
    let pieces = cut(alloc, workers, trace)?;
    read_pieces(rt, alloc, gate, workers, pieces.as_slice())
}

/// Cuts a trace at ends of lines into pieces of about the same size, one for each worker. The last
/// ones may be empty.
fn cut(alloc: Global, workers: u8, trace: &[u8]) -> Result<Vec<&[u8]>, AllocError>
    requires { 1 ≤ workers }
    ensures number { IfOk result (λ pieces. vec_len pieces ≡ workers) }
    ensures lines { IfOk result (λ pieces.
        flat_map (λ piece. lines_in piece.now) pieces.items ≡ lines_in trace.now) }
{
    let size = trace.len() / usize::from(workers);
    let mut pieces = Vec::with_capacity(alloc, usize::from(workers))?;
    let mut rest = trace;
    for _ in 1..workers {
        let (piece, behind) = rest.split_at(line_end(rest, size));
        pieces.push(piece)?;
        rest = behind;
    }
    pieces.push(rest)?;
    Ok(pieces)
}

/// Where the line that has the byte at `least` ends; the end of the text if it has none.
fn line_end(text: &[u8], least: usize) -> usize
    ensures within { result ≤ length text.now }
    ensures lines { lines_in (take result text.now) ++ lines_in (drop result text.now)
        ≡ lines_in text.now }
{
    let before = least.min(text.len());
    match line_feed(&text[before..]) {
        Some(at) => before + at + 1,
        None => text.len(),
    }
}

/// The index of the first line feed.
fn line_feed(text: &[u8]) -> Option<usize>
    ensures { result ≡ position is_line_feed text.now }
{
    text.iter().position(|byte| *byte == b'\n')
}

/// Reads these pieces; each worker reads one.
fn read_pieces<R: Threads + Sync, G: Gate>(
    rt: &R,
    alloc: Global,
    gate: &G,
    workers: u8,
    pieces: &[&[u8]],
) -> Result<Vec<Script>, AllocError>
    requires workers { (1 ≤ workers) × (workers ≤ 8) }
    requires pieces { length pieces.now ≡ workers }
    ensures number { IfOk result (λ scripts. vec_len scripts ≡ workers) }
    ensures scripts { IfOk result (λ scripts. AreScripts scripts.items
        (flat_map (λ piece. read_trace piece.now) pieces.now)) }
{
    let read = |worker: usize| -> Result<Script, AllocError>
        requires { worker < length pieces.now }
        ensures { IfOk result (λ script. IsScript script
            (flat_map (λ piece. read_trace piece.now) (run_of 1 worker pieces.entry.now))) }
    { read_lines(alloc, pieces[worker]) };
    in_runs(rt, alloc, gate, 0, workers, &read)
}

/// Reads the lines of a text.
pub(crate) fn read_lines(alloc: Global, text: &[u8]) -> Result<Script, AllocError>
    ensures { IfOk result (λ script. IsScript script (read_trace text.now)) }
{
    let lines = count_lines(text);
    let mut script = Script {
        commands: Vec::with_capacity(alloc, lines)?,
        places: Vec::with_capacity(alloc, lines)?,
    };
    for line in Lines::of(text) {
        add(&mut script, parse_line(alloc, line)?)?;
    }
    Ok(script)
}

/// The lines of a text, and one more if its last byte ends one.
fn count_lines(text: &[u8]) -> usize {
    text.iter().filter(|byte| **byte == b'\n').count() + 1
}

/// Appends what a line says to the script.
fn add(script: &mut Script, line: Line) -> Result<(), AllocError>
    ensures commands { OnOk result (map command_of script.new.commands.items
        ≡ map command_of script.old.commands.items ++ command_in (trace_line_of line)) }
    ensures places { OnOk result (map place_of script.new.places.items
        ≡ map place_of script.old.places.items ++ place_in (trace_line_of line)) }
{
    match line {
        Line::Skip => {}
        Line::Fault(fault) => script.places.push(NumberedLine::Fault(fault))?,
        Line::Run(command) => {
            script.commands.push(command)?;
            script.places.push(NumberedLine::Command)?;
        }
    }
    Ok(())
}

/// How many lines with a number and how many commands these scripts have.
pub(crate) fn sizes(scripts: &[Script]) -> (usize, usize)
    requires places { length (all_places scripts.now) < 2 ^ 60 }
    requires commands { length (all_commands scripts.now) < 2 ^ 60 }
    ensures places { result.0 ≡ length (all_places scripts.now) }
    ensures commands { result.1 ≡ length (all_commands scripts.now) }
{
    let mut places = 0;
    let mut commands = 0;
    for script in scripts {
        places += script.places.len();
        commands += script.commands.len();
    }
    (places, commands)
}

/// How many lines with a number are not commands.
pub(crate) fn count_faults(places: &[NumberedLine]) -> usize
    ensures { result ≡ count_by is_some (map place_of places.now) }
{
    places
        .iter()
        .filter(|place| matches!(place, NumberedLine::Fault(_)))
        .count()
}
