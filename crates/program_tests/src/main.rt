//! Tests of the two programs: a program whose cases are in `data/`. Expected output was written by hand.
//!
//! They test what no contract says: that a trace is answered if there is memory, in each way with the same bytes, what devices
//! that fail, end or wait for an answer see, and what the programs do for their arguments. They don't test again what a
//! contract says of every input.
//!
//! A call has whole traces, in which a semicolon is a line feed; so it is in an answer. A fault is said after the output.
//!
//! | Call | Answer |
//! |---|---|
//! | `trace TRACE` | the output with 1, 2, 3 and 8 workers, in a rehearsal and in a shell, with and without a last line feed |
//! | `run WAY TRACE`, `once WAY TRACE` | the output in that way, in pieces of several sizes, or in one; WAY is 1 to 8, `rehearsed`, `shell`, `strict`, `forgetful` or `strict_forgetful` |
//! | `grow LINE` | what the line adds to the output, cut after each byte since the last call; `;` ends the line |
//! | `fail`, `fail_alone`, `over`, `full`, `long`, `stream`, `stuck`, `memory`, `talk` | with devices that fail, end or wait (`faults.rt`) |
//! | `meet TRACE`, `meet_alone TRACE` | the output with three workers, each of which is a thread in each phase; with one, which passes each phase |
//! | `rounds TIMES TRACE` | the counts of the trace that many times, with 1, 2, 3 and 8 workers, in a rehearsal and in a shell |
//! | `put FIRST LAST TEXT`, `want FIRST LAST TEXT` | nothing; the subject's trace, or its wanted output, has the text once for each number, which replaces `%` |
//! | `play` | the counts of that trace in these ways, if the output is the wanted |
//! | `line`, `helps`, `cgreplay`, `cgshell`, `file`, `collect`, `collect_error`, `endings`, `shell_endings`, `closed_endings`, `text_faults` | of command lines (`arguments.rt`) |
#![tactic(auto)]

ghost use Rattle.std.specs.Prelude.{◌≤◌};

mod arguments;
mod faults;
mod plays;
mod texts;
mod ways;

use crate::arguments::{
    collect, put_endings, put_file, put_help, put_line, put_shell_endings, put_text_faults, run,
};
use crate::faults::{fail_each, play_in_memory, play_long, play_over, play_streams, talk};
use crate::plays::{BOTH, EACH_WAY, Growing, Run, alike, in_pieces, play};
use crate::texts::{lines, put_answer};
use crate::ways::{SHELL, Way, way_of};
use replay_main::{Gate, MemorySink, MemorySource, replay_gated};
use std::alloc::{AllocError, Global};
use std::process::ExitCode;
use std::sync::Wait;
use std::thread::{Threads, yield_now};
use test_support::{
    Barrier, Case, CaseFault, Group, Outcome, Subject, Suite, Tally, run_ample, run_suite,
};

/// The runs of a trace of many lines.
const OF_MANY: [Run; 6] = [
    (Way::Workers(1), 4096, 4096),
    (Way::Workers(2), 4096, 4096),
    (Way::Workers(3), 4096, 4096),
    (Way::Workers(8), 4096, 4096),
    (Way::Rehearsal, 4096, 4096),
    (SHELL, 4096, 4096),
];

/// A trace and its wanted output, and a trace that grows.
#[derive(Drop)]
struct Played {
    trace: Vec<u8>,
    wanted: Vec<u8>,
    growing: Growing,
}

/// Where the parts of a phase meet. Each lets other threads run first, by a call that `.ci/refused/run` sees.
#[derive(Drop)]
struct Meeting(Barrier);

impl Gate for Meeting {
    fn pass(&self, part: u8) {
        yield_now();
        self.0.pass(part);
    }
}

/// Says the output by one or three workers, if each passed the hook in each phase, those of a phase at the same time.
fn meet<R: Threads + Wait + Sync>(
    rt: &R,
    alloc: Global,
    workers: u8,
    trace: &[u8],
    said: &mut String,
) -> Result<(), CaseFault>
    requires { (1 ≤ workers) × (workers ≤ 3) }
{
    let size = usize::from(workers);
    let barrier = Meeting(Barrier::new(3 * size, size));
    let mut source = MemorySource::new(trace);
    let mut sink = MemorySink::new(alloc);
    let answer = replay_gated(rt, alloc, &barrier, &mut source, &mut sink, workers);
    match answer {
        Ok(summary) => put_answer(said, Ok(summary), sink.bytes())?,
        Err(fault) => write!(said, "{fault}")?,
    }
    if !barrier.0.met() {
        said.push_str(", but a part missed another")?;
    }
    Ok(())
}

/// Says the output of a trace in each way, with and without a last line feed.
fn play_trace<R: Threads + Wait + Sync>(
    rt: &R,
    alloc: Global,
    trace: &[u8],
    said: &mut String,
) -> Result<(), CaseFault> {
    let mut ended = Vec::from_slice(alloc, trace)?;
    ended.extend_from_slice(b"\n")?;
    let Some((_, whole)) = alike(rt, alloc, &EACH_WAY, ended.as_slice(), said)? else {
        return Ok(());
    };
    let Some((answer, sink)) = alike(rt, alloc, &BOTH, trace, said)? else {
        return Ok(());
    };
    if sink.bytes() != whole.bytes() {
        said.push_str("otherwise without a last line feed: ")?;
    }
    put_answer(said, answer, sink.bytes())
}

/// Says the counts of a trace this many times.
fn play_rounds<R: Threads + Wait + Sync>(
    rt: &R,
    alloc: Global,
    times: u64,
    trace: &[u8],
    said: &mut String,
) -> Result<(), CaseFault> {
    let mut rounds = Vec::new(alloc);
    for _ in 0..times {
        rounds.extend_from_slice(trace)?;
    }
    if let Some((Ok(summary), _)) = alike(rt, alloc, &OF_MANY, rounds.as_slice(), said)? {
        write!(
            said,
            "{} commands, {} refused",
            summary.commands, summary.refused
        )?;
    }
    Ok(())
}

/// Appends a text for each of these numbers, which replaces `%`.
fn put_numbered(bytes: &mut Vec<u8>, alloc: Global, case: &Case) -> Result<(), CaseFault> {
    let (first, last) = (case.number(1)?, case.number(2)?);
    let text = lines(alloc, case, 3)?;
    for number in first..=last {
        let digits = number.to_string(alloc)?;
        for byte in text.iter() {
            match byte {
                b'%' => bytes.extend_from_slice(digits.as_bytes())?,
                byte => bytes.extend_from_slice(&[*byte])?,
            }
        }
    }
    Ok(())
}

impl Played {
    /// Nothing.
    fn new(alloc: Global) -> Played {
        Played {
            trace: Vec::new(alloc),
            wanted: Vec::new(alloc),
            growing: Growing::new(alloc),
        }
    }

    /// Says the counts of the trace, if it has the wanted output.
    fn play<R: Threads + Wait + Sync>(
        &self,
        rt: &R,
        alloc: Global,
        said: &mut String,
    ) -> Result<(), CaseFault> {
        match alike(rt, alloc, &OF_MANY, self.trace.as_slice(), said)? {
            Some((Ok(summary), sink)) if sink.bytes() == self.wanted.as_slice() => {
                write!(
                    said,
                    "{} commands, {} refused",
                    summary.commands, summary.refused
                )?;
                Ok(())
            }
            Some((answer, sink)) => put_answer(said, answer, sink.bytes()),
            None => Ok(()),
        }
    }
}

/// Calls with a way and a trace.
fn answer_in_a_way<R: Threads + Wait + Sync>(
    rt: &R,
    alloc: Global,
    case: &Case,
    said: &mut String,
) -> Result<(), CaseFault> {
    let Some(way) = way_of(case.word(1)) else {
        return Err(CaseFault::Malformed);
    };
    match case.word(0) {
        b"run" => {
            let trace = lines(alloc, case, 2)?;
            play(rt, alloc, &in_pieces(way), trace.as_slice(), said)
        }
        b"once" => {
            let trace = lines(alloc, case, 2)?;
            play(rt, alloc, &[(way, 4096, 4096)], trace.as_slice(), said)
        }
        b"memory" => {
            let trace = lines(alloc, case, 2)?;
            play_in_memory(rt, alloc, way, trace.as_slice(), said)
        }
        b"over" | b"full" => {
            let trace = lines(alloc, case, 6)?;
            play_over(rt, alloc, case, way, trace.as_slice(), said)
        }
        b"long" => match case.word(2) {
            b"endless" => play_long(rt, alloc, way, None, said),
            _ => play_long(rt, alloc, way, Some(case.number(2)? as usize), said),
        },
        _ => Err(CaseFault::Malformed),
    }
}

/// Calls with a trace.
fn answer_trace<R: Threads + Wait + Sync>(
    rt: &R,
    alloc: Global,
    case: &Case,
    said: &mut String,
) -> Result<(), CaseFault> {
    let trace = match case.word(0) {
        b"rounds" => lines(alloc, case, 2)?,
        _ => lines(alloc, case, 1)?,
    };
    let trace = trace.as_slice();
    match case.word(0) {
        b"trace" => play_trace(rt, alloc, trace, said),
        b"fail" => fail_each(rt, alloc, false, trace, said),
        b"fail_alone" => fail_each(rt, alloc, true, trace, said),
        b"stream" => play_streams(rt, alloc, false, trace, said),
        b"stuck" => play_streams(rt, alloc, true, trace, said),
        b"talk" => talk(rt, alloc, trace, said),
        b"meet" => meet(rt, alloc, 3, trace, said),
        b"meet_alone" => meet(rt, alloc, 1, trace, said),
        b"rounds" => play_rounds(rt, alloc, case.number(1)?, trace, said),
        b"helps" => put_help(alloc, trace, said),
        _ => answer_in_a_way(rt, alloc, case, said),
    }
}

/// Makes a call.
fn answer<R: Threads + Wait + Sync>(
    rt: &R,
    alloc: Global,
    played: &mut Played,
    case: &Case,
    said: &mut String,
) -> Result<(), CaseFault> {
    match case.word(0) {
        b"grow" => {
            let line = lines(alloc, case, 1)?;
            played.growing.grow(rt, alloc, line.as_slice(), said)
        }
        b"put" => put_numbered(&mut played.trace, alloc, case),
        b"want" => put_numbered(&mut played.wanted, alloc, case),
        b"play" => played.play(rt, alloc, said),
        b"cgreplay" | b"cgshell" => run(rt, alloc, case, played.trace.as_slice(), said),
        b"line" => put_line(alloc, case, said),
        b"file" => put_file(alloc, case, said),
        b"collect" | b"collect_error" => collect(alloc, case, said),
        b"endings" => put_endings(said),
        b"shell_endings" => put_shell_endings(false, said),
        b"closed_endings" => put_shell_endings(true, said),
        b"text_faults" => put_text_faults(said),
        _ => answer_trace(rt, alloc, case, said),
    }
}

impl Subject for Played {
    fn call<R: Threads + Wait + Sync>(
        &mut self,
        rt: &R,
        alloc: Global,
        case: &Case,
        said: &mut String,
    ) -> Result<Outcome, CaseFault> {
        answer(rt, alloc, self, case, said)?;
        Ok(Outcome::Answered)
    }

    fn show(&mut self, _alloc: Global, text: &mut String) -> Result<(), AllocError> {
        write!(
            text,
            "{} bytes of trace, {} of output",
            self.trace.len(),
            self.wanted.len()
        )
    }
}

/// The calls with traces.
struct Traces;

impl Suite for Traces {
    fn run<R: Threads + Wait + Sync>(
        &self,
        rt: &R,
        alloc: Global,
        group: &Group,
        tally: &mut Tally,
    ) -> Result<(), AllocError> {
        let mut played = Played::new(alloc);
        run_ample(rt, alloc, &mut played, group, tally)
    }
}

fn main(rt: HostRuntime) -> ExitCode {
    run_suite(&rt, &Traces)
}
