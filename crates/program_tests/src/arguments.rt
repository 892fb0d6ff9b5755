//! The command lines of the two programs, what the programs do for them, and how they end.

use crate::faults::limits;
use crate::texts::{put_output, words};
use replay_main::{
    Ask, LineFault, MemorySource, ReplayFault, Source, TextFault, collect_arguments, command_line,
};
use shell_main::{ShellFault, bad_word, input_file, with_closed_pipe};
use std::alloc::{AllocError, Global};
use std::io;
use std::sync::Wait;
use std::thread::Threads;
use test_devices::Narrow;
use test_support::{Case, CaseFault};

/// Why a command line can't be read, as a fault of a call or as its answer.
fn put_line_fault(said: &mut String, fault: LineFault) -> Result<(), CaseFault> {
    match fault {
        LineFault::Bad => said.push_str("bad command line")?,
        LineFault::OutOfMemory => return Err(CaseFault::OutOfMemory),
    }
    Ok(())
}

/// The texts of these words.
fn texts<'a>(alloc: Global, words: &'a [String]) -> Result<Vec<&'a str>, AllocError> {
    let mut texts = Vec::new(alloc);
    for word in words {
        texts.push(word.as_str())?;
    }
    Ok(texts)
}

/// `line WORDS`: what the words ask `cgreplay` for, without its name.
pub(crate) fn put_line(alloc: Global, case: &Case, said: &mut String) -> Result<(), CaseFault> {
    let args = words(alloc, case, 1)?;
    let words = texts(alloc, args.as_slice())?;
    match command_line(alloc, words.as_slice()) {
        Ok(Ask::Run { workers, rehearse }) => {
            write!(said, "{workers}")?;
            if rehearse {
                said.push_str(" rehearsed")?;
            }
            Ok(())
        }
        Ok(Ask::Help(_)) => {
            said.push_str("help")?;
            Ok(())
        }
        Err(fault) => put_line_fault(said, fault),
    }
}

/// `helps TEXT`: `yes` if the help text of `cgreplay` contains the text.
pub(crate) fn put_help(alloc: Global, text: &[u8], said: &mut String) -> Result<(), CaseFault> {
    let Ok(text) = str::from_utf8(text) else {
        return Err(CaseFault::Malformed);
    };
    match command_line(alloc, &["--help"]) {
        Ok(Ask::Help(help)) if help.as_str().contains(text) => said.push_str("yes")?,
        Ok(_) => said.push_str("no")?,
        Err(fault) => put_line_fault(said, fault)?,
    }
    Ok(())
}

/// How many bytes the source still has, at most 4,096.
fn left(source: &mut MemorySource<'_>) -> usize {
    let mut buf = [0u8; 4096];
    source.read(&mut buf).unwrap_or(0)
}

/// `cgreplay ROOM FLUSHES WORDS`: what the program writes for these arguments, of which the first is its name, and its fault.
/// `cgshell` is the same of the shell. After a bad command line, whether the whole input is still there.
pub(crate) fn run<R: Threads + Wait + Sync>(
    rt: &R,
    alloc: Global,
    case: &Case,
    input: &[u8],
    said: &mut String,
) -> Result<(), CaseFault> {
    let args = words(alloc, case, 3)?;
    let mut source = MemorySource::new(input);
    let mut sink = Narrow::new(alloc, limits(case, 1)?)?;
    let is_bad = if case.word(0) == b"cgreplay".as_slice() {
        match replay_main::run_program(rt, alloc, args.as_slice(), &mut source, &mut sink) {
            Ok(()) => false,
            Err(fault) => {
                put_output(said, sink.bytes())?;
                write!(said, "{fault}")?;
                fault == replay_main::ProgramFault::Line(LineFault::Bad)
            }
        }
    } else {
        match shell_main::run_program(rt, alloc, args.as_slice(), &mut source, &mut sink) {
            Ok(()) => false,
            Err(fault) => {
                put_output(said, sink.bytes())?;
                write!(said, "{fault}")?;
                fault == shell_main::ProgramFault::Line(LineFault::Bad)
            }
        }
    };
    if said.is_empty() {
        return put_output(said, sink.bytes());
    }
    if is_bad && left(&mut source) != input.len() {
        said.push_str(", but input was read")?;
    }
    Ok(())
}

/// `file WORDS`: the file that the arguments of `cgshell` name, or the first bad word.
pub(crate) fn put_file(alloc: Global, case: &Case, said: &mut String) -> Result<(), CaseFault> {
    let args = words(alloc, case, 1)?;
    match input_file(alloc, args.as_slice()) {
        Ok(Some(file)) => write!(said, "file {file}")?,
        Ok(None) => said.push_str("no file")?,
        Err(fault) => put_line_fault(said, fault)?,
    }
    if let Some(word) = bad_word(alloc, args.as_slice()) {
        write!(said, ": {word}")?;
    }
    Ok(())
}

/// `collect WORDS`: the arguments that were collected. `collect_error` is the same where they can't be had, since there is no
/// memory or one is no text.
pub(crate) fn collect(alloc: Global, case: &Case, said: &mut String) -> Result<(), CaseFault> {
    let args = words(alloc, case, 1)?;
    let came = match case.word(0) {
        b"collect" => Ok(args.into_iter()),
        _ => match case.word(1) {
            b"memory" => Err(io::Error::from(io::ErrorKind::OutOfMemory)),
            _ => Err(io::Error::from(io::ErrorKind::InvalidData)),
        },
    };
    match collect_arguments(alloc, came) {
        Ok(args) => {
            for word in args.iter() {
                write!(said, "<{word}>")?;
            }
        }
        Err(fault) => write!(said, "{fault}")?,
    }
    Ok(())
}

/// `endings`: the status and the message of each fault of `cgreplay`.
pub(crate) fn put_endings(said: &mut String) -> Result<(), CaseFault> {
    use replay_main::{ProgramFault, exit_status};
    let faults = [
        ProgramFault::Line(LineFault::Bad),
        ProgramFault::Line(LineFault::OutOfMemory),
        ProgramFault::Replay(ReplayFault::Read),
        ProgramFault::Replay(ReplayFault::Write),
        ProgramFault::Replay(ReplayFault::InputTooLong),
        ProgramFault::Replay(ReplayFault::OutOfMemory),
        ProgramFault::Replay(ReplayFault::Close),
    ];
    write!(said, "{}", exit_status(Ok(())))?;
    for fault in faults {
        write!(said, ";{} {fault}", exit_status(Err(fault)))?;
    }
    Ok(())
}

/// `shell_endings`: the status and the message of each fault of `cgshell`, with a pipe that is open; and where it is closed.
pub(crate) fn put_shell_endings(is_closed: bool, said: &mut String) -> Result<(), CaseFault> {
    use shell_main::{ProgramFault, exit_status};
    let faults = [
        ProgramFault::Line(LineFault::Bad),
        ProgramFault::Line(LineFault::OutOfMemory),
        ProgramFault::Shell(ShellFault::Read),
        ProgramFault::Shell(ShellFault::Write),
        ProgramFault::Shell(ShellFault::InputTooLong),
        ProgramFault::Shell(ShellFault::OutOfMemory),
        ProgramFault::Shell(ShellFault::NotACommand),
        ProgramFault::Open,
        ProgramFault::ClosedPipe,
    ];
    write!(said, "{}", exit_status(with_closed_pipe(Ok(()), is_closed)))?;
    for fault in faults {
        if let Err(fault) = with_closed_pipe(Err(fault), is_closed) {
            write!(said, ";{} {fault}", exit_status(Err(fault)))?;
        }
    }
    Ok(())
}

/// `text_faults`: the message of each fault of a line.
pub(crate) fn put_text_faults(said: &mut String) -> Result<(), CaseFault> {
    let faults = [
        TextFault::Syntax,
        TextFault::Path,
        TextFault::File,
        TextFault::Direction,
        TextFault::Value,
    ];
    for fault in faults {
        write!(said, "{fault};")?;
    }
    Ok(())
}
