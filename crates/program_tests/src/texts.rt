//! Traces and their output in the words of the case files, where a semicolon is a line feed.

use crate::ways::Answer;
use replay_main::Summary;
use std::alloc::{AllocError, Global};
use test_support::{Case, CaseFault, push_escaped};

/// The words of a call from this index on, separated by blanks, with a line feed for each semicolon.
pub(crate) fn lines(alloc: Global, case: &Case, from: usize) -> Result<Vec<u8>, AllocError> {
    let mut text = Vec::new(alloc);
    for at in from..case.count() {
        if at > from {
            text.push(b' ')?;
        }
        for byte in case.word(at) {
            text.push(if *byte == b';' { b'\n' } else { *byte })?;
        }
    }
    Ok(text)
}

/// The words of a call from this index on, as arguments.
pub(crate) fn words(alloc: Global, case: &Case, from: usize) -> Result<Vec<String>, CaseFault> {
    let mut words = Vec::new(alloc);
    for at in from..case.count() {
        let Ok(text) = str::from_utf8(case.word(at)) else {
            return Err(CaseFault::Malformed);
        };
        let word = String::from_str(alloc, text)?;
        if words.push(word).is_err() {
            return Err(CaseFault::OutOfMemory);
        }
    }
    Ok(words)
}

/// Says output, with a semicolon for each line feed.
pub(crate) fn put_output(said: &mut String, output: &[u8]) -> Result<(), CaseFault> {
    for byte in output {
        match byte {
            b'\n' => said.push(';')?,
            byte => push_escaped(said, &[*byte])?,
        }
    }
    Ok(())
}

/// The counts of whole output: the lines without a bar, and those of them that are refused.
pub(crate) fn counted(output: &[u8]) -> Summary {
    let mut summary = Summary {
        commands: 0,
        refused: 0,
    };
    for line in output.split(|byte| *byte == b'\n') {
        if line.is_empty() || line.starts_with(b"| ") {
            continue;
        }
        summary.commands = summary.commands.saturating_add(1);
        let is_refused = line
            .split(|byte| *byte == b' ')
            .any(|word| word == b"refused".as_slice());
        summary.refused = summary.refused.saturating_add(u64::from(is_refused));
    }
    summary
}

/// Says output, and why it ends; also the counts, if they are not those of the output.
pub(crate) fn put_answer(
    said: &mut String,
    answer: Answer,
    output: &[u8],
) -> Result<(), CaseFault> {
    put_output(said, output)?;
    match answer {
        Ok(summary) if summary == counted(output) => {}
        Ok(summary) => write!(
            said,
            "{} commands, {} refused",
            summary.commands, summary.refused
        )?,
        Err(fault) => write!(said, "{fault}")?,
    }
    Ok(())
}
