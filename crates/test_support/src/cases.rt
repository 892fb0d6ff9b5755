//! Cases: calls with their answers, read from the text of a case file.

use crate::escapes::unescape;
use group_path::{GroupPath, PathFault};
use std::alloc::{AllocError, Global};

/// Why a line of a case file, or a word of a call, can't be used.
#[derive(Clone, Copy, Debug, PartialEq, Eq)]
pub enum CaseFault {
    /// It is not in the form that it should have.
    Malformed,
    /// Out of memory.
    OutOfMemory,
}

impl From<AllocError> for CaseFault {
    fn from(_error: AllocError) -> CaseFault {
        CaseFault::OutOfMemory
    }
}

/// A call and its answer.
#[derive(Drop)]
pub struct Case {
    pub(crate) line: usize,
    pub(crate) call: String,
    pub(crate) answer: String,
    /// Whether it takes no memory.
    pub(crate) is_free: bool,
    words: Vec<Vec<u8>>,
}

impl Case {
    /// The word with this index, without escapes; an empty one if there are not so many. Word 0 names the call.
    pub fn word(&self, at: usize) -> &[u8] {
        match self.words.get(at) {
            Some(word) => word.as_slice(),
            None => b"",
        }
    }

    /// How many words there are, with the name of the call.
    pub fn count(&self) -> usize {
        self.words.len()
    }

    /// The number that the word with this index is.
    ///
    /// # Errors
    ///
    /// `Malformed` if it is no decimal number below 2^64.
    pub fn number(&self, at: usize) -> Result<u64, CaseFault> {
        let Ok(text) = str::from_utf8(self.word(at)) else {
            return Err(CaseFault::Malformed);
        };
        text.parse::<u64>().map_err(|_| CaseFault::Malformed)
    }

    /// The path that the word with this index is.
    ///
    /// # Errors
    ///
    /// `Malformed` if it is no path; `OutOfMemory` when out of memory.
    pub fn path(&self, alloc: Global, at: usize) -> Result<GroupPath<Global>, CaseFault> {
        GroupPath::read(alloc, self.word(at)).map_err(|fault| match fault {
            PathFault::OutOfMemory => CaseFault::OutOfMemory,
            _ => CaseFault::Malformed,
        })
    }
}

/// A subject: the calls on it in order.
#[derive(Drop)]
pub struct Group {
    /// The word of the last line `subject WORD` before it; empty if there is none.
    pub subject: String,
    /// The size of the last line `heap BYTES` before it.
    pub heap: Option<usize>,
    // The rooms that `run_refused` leaves out: from the first number of blocks to below the second.
    pub(crate) gap: (usize, usize),
    /// The calls.
    pub cases: Vec<Case>,
}

/// What has been read of a case file.
#[derive(Drop)]
struct Reader {
    subject: String,
    heap: Option<usize>,
    gap: (usize, usize),
    groups: Vec<Group>,
}

/// The call and the answer of a line, and whether the call takes no memory.
fn cut(line: &str) -> Option<(&str, &str, bool)> {
    if let Some((call, answer)) = line.split_once(" => ") {
        if call.split_once(" -> ").is_none() {
            return Some((call, answer, false));
        }
    }
    let (call, answer) = line.split_once(" -> ")?;
    Some((call, answer, true))
}

fn read_case(alloc: Global, number: usize, line: &str) -> Result<Case, CaseFault> {
    let Some((call, answer, is_free)) = cut(line) else {
        return Err(CaseFault::Malformed);
    };
    let mut words = Vec::new(alloc);
    for word in call.split(' ') {
        let Some(word) = unescape(alloc, word)? else {
            return Err(CaseFault::Malformed);
        };
        if words.push(word).is_err() {
            return Err(CaseFault::OutOfMemory);
        }
    }
    Ok(Case {
        line: number,
        call: String::from_str(alloc, call)?,
        answer: String::from_str(alloc, answer)?,
        is_free,
        words,
    })
}

/// The size of a heap, and the rooms that are left out, if there are any.
fn read_heap(sizes: &str) -> Option<(usize, usize, usize)> {
    let Some((size, gap)) = sizes.split_once(' ') else {
        return Some((sizes.parse::<usize>().ok()?, 0, 0));
    };
    let (from, to) = gap.split_once(' ')?;
    Some((
        size.parse::<usize>().ok()?,
        from.parse::<usize>().ok()?,
        to.parse::<usize>().ok()?,
    ))
}

impl Reader {
    /// Reads the line with this number.
    fn read(&mut self, alloc: Global, number: usize, line: &str) -> Result<(), CaseFault> {
        if line.is_empty() || line.starts_with('#') {
            return Ok(());
        }
        if line.starts_with("== ") {
            return self.begin(alloc);
        }
        if let Some(word) = line.strip_prefix("subject ") {
            self.subject = String::from_str(alloc, word)?;
            return Ok(());
        }
        if let Some(sizes) = line.strip_prefix("heap ") {
            let Some((heap, from, to)) = read_heap(sizes) else {
                return Err(CaseFault::Malformed);
            };
            self.heap = Some(heap);
            self.gap = (from, to);
            return Ok(());
        }
        let case = read_case(alloc, number, line)?;
        match self.groups.last_mut() {
            Some(group) if !case.is_free || group.heap.is_some() => {
                group.cases.push(case).map_err(|_| CaseFault::OutOfMemory)
            }
            _ => Err(CaseFault::Malformed),
        }
    }

    /// Begins a subject.
    fn begin(&mut self, alloc: Global) -> Result<(), CaseFault> {
        let group = Group {
            subject: String::from_str(alloc, self.subject.as_str())?,
            heap: self.heap,
            gap: self.gap,
            cases: Vec::new(alloc),
        };
        self.groups.push(group).map_err(|_| CaseFault::OutOfMemory)
    }
}

/// The subjects of a case file, or the number of the first line that is in no known form.
pub(crate) fn read_groups(
    alloc: Global,
    text: &str,
) -> Result<Result<Vec<Group>, usize>, AllocError> {
    let mut reader = Reader {
        subject: String::new(alloc),
        heap: None,
        gap: (0, 0),
        groups: Vec::new(alloc),
    };
    let mut number = 0usize;
    for line in text.lines() {
        number = number.saturating_add(1);
        match reader.read(alloc, number, line) {
            Ok(()) => {}
            Err(CaseFault::Malformed) => return Ok(Err(number)),
            Err(CaseFault::OutOfMemory) => return Err(AllocError),
        }
    }
    Ok(Ok(reader.groups))
}
