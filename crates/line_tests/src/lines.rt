//! Lines answered by an engine, and whole texts.

ghost use Rattle.std.specs.Prelude.{◌≤◌, IfOk};

use crate::listings::{
    push_children, push_found, push_groups, push_history, push_number, push_subtree,
};
use line_engine::{Answer, LineEngine};
use std::alloc::{AllocError, Global};
use std::sync::Wait;
use std::thread::Threads;
use test_support::{Case, CaseFault, Outcome, Subject, push_escaped};
use trace_lines::Lines;

/// The greatest size of a buffer.
pub(crate) const BUFFER_MAX: usize = 64;

/// An engine that answers lines, and another one, once it was copied.
#[derive(Drop)]
pub(crate) struct Tested {
    pub(crate) lines: LineEngine,
    other: Option<LineEngine>,
    /// How many lines had output.
    number: u64,
}

/// The words of the call from this one on, with a blank between two.
fn text_of(alloc: Global, case: &Case, from: usize) -> Result<Vec<u8>, AllocError> {
    let mut text = Vec::new(alloc);
    for at in from..case.count() {
        if at > from {
            text.push(b' ')?;
        }
        text.extend_from_slice(case.word(at))?;
    }
    Ok(text)
}

/// The size of a buffer that the word with this index is.
pub(crate) fn size_of(case: &Case, at: usize) -> Result<usize, CaseFault>
    ensures { IfOk result (λ size. size ≤ BUFFER_MAX) }
{
    match usize::try_from(case.number(at)?) {
        Ok(size) if size <= BUFFER_MAX => Ok(size),
        _ => Err(CaseFault::Malformed),
    }
}

/// Appends the answers of a new engine to the lines of a text.
fn push_answers(alloc: Global, said: &mut String, text: &[u8]) -> Result<(), AllocError> {
    let mut lines = LineEngine::new(alloc)?;
    let mut number = 1u64;
    for line in Lines::of(text) {
        let mut buffer = [0u8; BUFFER_MAX];
        match lines.answer(alloc, number, line, &mut buffer) {
            Answer::Answered { len, .. } => {
                push_escaped(said, &buffer[..len.min(BUFFER_MAX)])?;
                number = number.saturating_add(1);
            }
            Answer::Skipped => {}
            Answer::TooSmall { .. } => said.push_str("too small")?,
            Answer::OutOfMemory => return Err(AllocError),
        }
    }
    Ok(())
}

/// The text, then this byte repeated.
fn with_more(alloc: Global, text: &[u8], byte: u8, times: u64) -> Result<Vec<u8>, AllocError> {
    let mut more = Vec::from_slice(alloc, text)?;
    for _ in 0..times {
        more.push(byte)?;
    }
    Ok(more)
}

/// Appends the answers that the text has with each of these bytes, or the first other ones.
fn push_each_byte(alloc: Global, said: &mut String, case: &Case) -> Result<(), CaseFault> {
    let (first, last) = (case.number(1)?, case.number(2)?);
    let front = text_of(alloc, case, 3)?;
    for number in first..=last {
        let byte = u8::try_from(number).map_err(|_| CaseFault::Malformed)?;
        let text = with_more(alloc, front.as_slice(), byte, 1)?;
        let mut other = String::new(alloc);
        push_answers(alloc, &mut other, text.as_slice())?;
        if number == first {
            said.push_str(other.as_str())?;
        }
        if said.as_str() != other.as_str() {
            write!(said, ", at {number} {}", other.as_str())?;
            break;
        }
    }
    Ok(())
}

/// Appends the answers to the text followed by letters.
fn push_long(alloc: Global, said: &mut String, case: &Case) -> Result<(), CaseFault> {
    let letters = case.number(1)?;
    let text = text_of(alloc, case, 2)?;
    let text = with_more(alloc, text.as_slice(), b'x', letters)?;
    Ok(push_answers(alloc, said, text.as_slice())?)
}

impl Tested {
    /// A new engine.
    ///
    /// # Errors
    ///
    /// `AllocError` when out of memory.
    pub(crate) fn new(alloc: Global) -> Result<Tested, AllocError> {
        let lines = LineEngine::new(alloc)?;
        Ok(Tested {
            lines,
            other: None,
            number: 1,
        })
    }

    /// Appends the answer to a line in a buffer.
    fn answer(&mut self, alloc: Global, said: &mut String, case: &Case) -> Result<(), CaseFault> {
        let mut buffer = [0u8; BUFFER_MAX];
        let size = size_of(case, 1)?;
        let line = text_of(alloc, case, 2)?;
        match self
            .lines
            .answer(alloc, self.number, line.as_slice(), &mut buffer[..size])
        {
            Answer::Skipped => said.push_str("skipped")?,
            Answer::Answered { len, code } => {
                write!(said, "code {code}: ")?;
                push_escaped(said, &buffer[..len.min(BUFFER_MAX)])?;
                self.number = self.number.saturating_add(1);
            }
            Answer::TooSmall { needed } => write!(said, "needs {needed}")?,
            Answer::OutOfMemory => return Err(CaseFault::OutOfMemory),
        }
        Ok(())
    }

    /// The line is answered, or is out of memory and leaves no record.
    fn one_line(&mut self, alloc: Global, said: &mut String, case: &Case) -> Result<(), CaseFault> {
        let mut buffer = [0u8; BUFFER_MAX];
        let line = text_of(alloc, case, 1)?;
        let depth = self.lines.depth();
        let is_right = match self.lines.answer(alloc, 1, line.as_slice(), &mut buffer) {
            Answer::Answered { len: 5, code: 0 } => {
                &buffer[..5] == b"1 ok\n".as_slice()
                    && self.lines.depth() == depth.saturating_add(1)
            }
            other => other == Answer::OutOfMemory && self.lines.depth() == depth,
        };
        said.push_str(if is_right {
            "answered or unchanged"
        } else {
            "something else"
        })?;
        Ok(())
    }

    /// Copies the engine. The copy is called from now on.
    fn copy(&mut self, alloc: Global) -> Result<(), AllocError> {
        let copy = self.lines.copy(alloc)?;
        self.other = Some(copy);
        self.exchange();
        Ok(())
    }

    /// The other engine is called from now on.
    fn exchange(&mut self) {
        if let Some(other) = &mut self.other {
            std::mem::swap(&mut self.lines, other);
        }
    }
}

impl Subject for Tested {
    fn call<R: Threads + Wait + Sync>(
        &mut self,
        _rt: &R,
        alloc: Global,
        case: &Case,
        said: &mut String,
    ) -> Result<Outcome, CaseFault> {
        match str::from_utf8(case.word(0)).unwrap_or("") {
            "answer" => self.answer(alloc, said, case)?,
            "one_line" => self.one_line(alloc, said, case)?,
            "records" => write!(said, "{}", self.lines.depth())?,
            "forget" => self.lines.forget(),
            "copy" => self.copy(alloc)?,
            "exchange" => self.exchange(),
            "children" => push_children(alloc, &self.lines, said, case)?,
            "groups" => push_groups(alloc, &self.lines, said, case)?,
            "subtree" => push_subtree(alloc, &self.lines, said, case)?,
            "history" => push_history(alloc, &self.lines, said, case)?,
            "has" => push_found(said, self.lines.has_group(alloc, case.word(1)))?,
            "current" => push_number(said, self.lines.current(alloc, case.word(1)))?,
            "populated" => push_number(said, self.lines.populated(alloc, case.word(1)))?,
            "peak" => push_number(said, self.lines.peak(alloc, case.word(1)))?,
            "limit" => push_number(said, self.lines.limit(alloc, case.word(1)))?,
            "trace" => push_answers(alloc, said, text_of(alloc, case, 1)?.as_slice())?,
            "each_byte" => push_each_byte(alloc, said, case)?,
            "long" => push_long(alloc, said, case)?,
            _ => return Err(CaseFault::Malformed),
        }
        Ok(Outcome::Answered)
    }

    fn show(&mut self, _alloc: Global, text: &mut String) -> Result<(), AllocError> {
        write!(text, "{}", self.lines.depth())
    }
}
