//! The words of a call. A run of one byte is written short: `x{255}` is `x`, 255 times.

use std::alloc::{AllocError, Global};
use test_support::{Case, CaseFault, push_escaped};

/// The least run of one byte that an answer writes short.
const SHORT_FROM: usize = 10;

/// The words of a call, from its name on.
#[derive(Drop)]
pub(crate) struct Words {
    words: Vec<Vec<u8>>,
}

impl Words {
    /// The words of a case, with their runs written out.
    pub(crate) fn of(alloc: Global, case: &Case) -> Result<Words, CaseFault> {
        let mut words = Vec::new(alloc);
        for at in 0..case.count() {
            let word = spread(alloc, case.word(at))?;
            if words.push(word).is_err() {
                return Err(CaseFault::OutOfMemory);
            }
        }
        Ok(Words { words })
    }

    /// The words from one of these indices up to the other, with the number in place of each `#`.
    pub(crate) fn numbered(
        &self,
        alloc: Global,
        from: usize,
        to: usize,
        number: u64,
    ) -> Result<Words, CaseFault> {
        let mut words = Vec::new(alloc);
        for at in from..to {
            let mut text = String::new(alloc);
            for byte in self.get(at) {
                match *byte {
                    b'#' => write!(text, "{number}")?,
                    byte => text.push(char::from(byte))?,
                }
            }
            if words.push(text.into_bytes()).is_err() {
                return Err(CaseFault::OutOfMemory);
            }
        }
        Ok(Words { words })
    }

    /// How many words there are.
    pub(crate) fn count(&self) -> usize {
        self.words.len()
    }

    /// The word with this index; an empty one if there are not that many.
    pub(crate) fn get(&self, at: usize) -> &[u8] {
        match self.words.get(at) {
            Some(word) => word.as_slice(),
            None => b"",
        }
    }

    /// The same as text; empty if it is not UTF-8.
    pub(crate) fn text(&self, at: usize) -> &str {
        str::from_utf8(self.get(at)).unwrap_or("")
    }

    /// The number that the word with this index is.
    pub(crate) fn number(&self, at: usize) -> Result<u64, CaseFault> {
        match self.text(at).parse::<u64>() {
            Ok(number) => Ok(number),
            Err(_) => Err(CaseFault::Malformed),
        }
    }

    /// The path of a call on a tree with this name: the second word; the root for `groups`.
    pub(crate) fn path(&self, name: &str) -> &[u8] {
        if name == "groups" { b"/" } else { self.get(1) }
    }

    /// The index of the first such word.
    pub(crate) fn position(&self, word: &[u8]) -> Option<usize> {
        self.words.iter().position(|other| other.as_slice() == word)
    }

    /// The words separated by blanks.
    pub(crate) fn joined(&self, alloc: Global) -> Result<String, AllocError> {
        let mut text = String::new(alloc);
        for at in 0..self.count() {
            if at > 0 {
                text.push(' ')?;
            }
            text.push_str(self.text(at))?;
        }
        Ok(text)
    }
}

/// A word with its runs written out.
fn spread(alloc: Global, word: &[u8]) -> Result<Vec<u8>, AllocError> {
    let mut bytes = Vec::new(alloc);
    let mut count: Option<usize> = None;
    for byte in word {
        let byte = *byte;
        let Some(times) = count else {
            if byte == b'{' {
                count = Some(0);
            } else {
                bytes.push(byte)?;
            }
            continue;
        };
        if byte == b'}' {
            repeat_last(&mut bytes, times)?;
            count = None;
        } else {
            let digit = usize::from(byte.saturating_sub(b'0'));
            count = Some(times.saturating_mul(10).saturating_add(digit));
        }
    }
    Ok(bytes)
}

/// Appends the last byte until it is there this many times.
fn repeat_last(bytes: &mut Vec<u8>, times: usize) -> Result<(), AllocError> {
    let last = bytes.last().copied().unwrap_or(b'x');
    for _ in 1..times {
        bytes.push(last)?;
    }
    Ok(())
}

/// Appends a text with its long runs written short, and with the escapes of case files.
pub(crate) fn push_runs(said: &mut String, text: &[u8]) -> Result<(), AllocError> {
    let mut run: Option<(u8, usize)> = None;
    for byte in text {
        run = match run {
            Some((last, times)) if last == *byte => Some((last, times.saturating_add(1))),
            other => {
                push_run(said, other)?;
                Some((*byte, 1usize))
            }
        };
    }
    push_run(said, run)
}

/// Appends a run of one byte, short or in full.
fn push_run(said: &mut String, run: Option<(u8, usize)>) -> Result<(), AllocError> {
    let Some((byte, times)) = run else {
        return Ok(());
    };
    if times >= SHORT_FROM {
        push_escaped(said, &[byte])?;
        return write!(said, "{{{times}}}");
    }
    for _ in 0..times {
        push_escaped(said, &[byte])?;
    }
    Ok(())
}
