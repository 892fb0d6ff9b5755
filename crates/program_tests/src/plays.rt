//! Traces answered in several ways, whose output is the same.

use crate::texts::{put_answer, put_output};
use crate::ways::{Answer, SHELL, Way, is_out_of_memory, run_over, sound};
use std::alloc::Global;
use std::sync::Wait;
use std::thread::Threads;
use test_devices::Narrow;
use test_support::CaseFault;

/// A way, and the most bytes of a read and of a write.
pub(crate) type Run = (Way, usize, usize);

/// Each way, with devices that give and take a byte, a few bytes, or many.
pub(crate) const EACH_WAY: [Run; 12] = [
    (Way::Workers(1), 4096, 4096),
    (Way::Workers(1), 1, 1),
    (Way::Workers(2), 4096, 3),
    (Way::Workers(3), 4096, 4096),
    (Way::Workers(8), 7, 1),
    (Way::Rehearsal, 4096, 4096),
    (Way::Rehearsal, 1, 1),
    (SHELL, 1, 3),
    (SHELL, 2, 1),
    (SHELL, 3, 3),
    (SHELL, 7, 4096),
    (SHELL, 4096, 1),
];

/// One worker and a rehearsal.
pub(crate) const BOTH: [Run; 2] = [(Way::Workers(1), 4096, 4096), (Way::Rehearsal, 4096, 3)];

/// This way, with each kind of devices.
pub(crate) const fn in_pieces(way: Way) -> [Run; 5] {
    [
        (way, 4096, 4096),
        (way, 1, 1),
        (way, 2, 3),
        (way, 3, 1),
        (way, 7, 4096),
    ]
}

/// Whether output may stand before a run ended out of memory: a replay has none, a shell a prefix.
fn may_stand(way: Way, output: &[u8], whole: &[u8]) -> bool {
    match way {
        Way::Workers(_) | Way::Rehearsal => output.is_empty(),
        Way::Shell(_) => whole.starts_with(output),
    }
}

/// The answer of the first of these runs, if all others have the same answer and output. If one is out of memory, that is the
/// fault, unless it left output that it may not.
pub(crate) fn alike<R: Threads + Wait + Sync>(
    rt: &R,
    alloc: Global,
    runs: &[Run],
    trace: &[u8],
    said: &mut String,
) -> Result<Option<(Answer, Narrow)>, CaseFault> {
    let mut first: Option<(Answer, Narrow)> = None;
    for (way, piece, size) in runs {
        let devices = sound(*piece, *size);
        let (answer, sink) = run_over(rt, alloc, *way, trace, devices)?;
        if is_out_of_memory(answer) {
            let (_, whole) = run_over(rt, alloc, *way, trace, devices)?;
            if may_stand(*way, sink.bytes(), whole.bytes()) {
                return Err(CaseFault::OutOfMemory);
            }
        }
        match &first {
            None => first = Some((answer, sink)),
            Some((wanted, whole)) => {
                if answer != *wanted || sink.bytes() != whole.bytes() {
                    write!(said, "in pieces of {piece} and {size} bytes otherwise: ")?;
                    put_answer(said, answer, sink.bytes())?;
                    return Ok(None);
                }
            }
        }
    }
    Ok(first)
}

/// Says what all these runs answer.
pub(crate) fn play<R: Threads + Wait + Sync>(
    rt: &R,
    alloc: Global,
    runs: &[Run],
    trace: &[u8],
    said: &mut String,
) -> Result<(), CaseFault> {
    match alike(rt, alloc, runs, trace, said)? {
        Some((answer, sink)) => put_answer(said, answer, sink.bytes()),
        None => Ok(()),
    }
}

/// A trace that grows byte by byte: its whole lines with their output, and the line that has not ended.
#[derive(Drop)]
pub(crate) struct Growing {
    trace: Vec<u8>,
    output: Vec<u8>,
    /// How many bytes of the line were tried.
    tried: usize,
    /// The output of the line up to there.
    told: Vec<u8>,
}

impl Growing {
    /// No line.
    pub(crate) fn new(alloc: Global) -> Growing {
        Growing {
            trace: Vec::new(alloc),
            output: Vec::new(alloc),
            tried: 0,
            told: Vec::new(alloc),
        }
    }

    /// Says what the line adds to the output when it is these bytes. With any bytes that were not yet tried it adds what it
    /// added before.
    pub(crate) fn grow<R: Threads + Wait + Sync>(
        &mut self,
        rt: &R,
        alloc: Global,
        text: &[u8],
        said: &mut String,
    ) -> Result<(), CaseFault> {
        let line = text.strip_suffix(b"\n").unwrap_or(text);
        for len in self.tried..=line.len() {
            let mut trace = Vec::from_slice(alloc, self.trace.as_slice())?;
            trace.extend_from_slice(line.get(..len).unwrap_or(line))?;
            let Some((answer, sink)) = alike(rt, alloc, &BOTH, trace.as_slice(), said)? else {
                return Ok(());
            };
            let Some(added) = sink.bytes().strip_prefix(self.output.as_slice()) else {
                said.push_str("other output for the lines before: ")?;
                return put_answer(said, answer, sink.bytes());
            };
            if len == line.len() {
                self.told = Vec::from_slice(alloc, added)?;
            } else if added != self.told.as_slice() {
                write!(said, "cut to {len} bytes: ")?;
                return put_output(said, added);
            }
        }
        put_output(said, self.told.as_slice())?;
        self.tried = line.len().saturating_add(1);
        if line.len() < text.len() {
            self.trace.extend_from_slice(text)?;
            self.output.extend_from_slice(self.told.as_slice())?;
            self.told = Vec::new(alloc);
            self.tried = 0;
        }
        Ok(())
    }
}
