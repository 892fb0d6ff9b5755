//! The names of files, the values that can be written to them, and texts.

use group_tree::{Limit, LimitFile};
use interface_files::{
    File, ShowFault, ValueFault, Written, limit_file_name, limit_text, read_kill, read_limit,
    read_pid,
};
use pids_charge::Pid;
use std::alloc::{AllocError, Global};
use test_support::{Case, CaseFault, Outcome, push_escaped};
use undo_journal::Bytes;

/// Appends the file of this name, and what it has.
fn push_file(said: &mut String, name: &[u8]) -> Result<(), AllocError> {
    let Some(file) = File::read(name) else {
        return said.push_str("no file");
    };
    push_escaped(said, file.name())?;
    for (word, is_so) in [
        (" on_root", file.on_root()),
        (" readable", file.readable()),
        (" writable", file.writable()),
    ] {
        if is_so {
            said.push_str(word)?;
        }
    }
    Ok(())
}

/// The limit that is written to the file with this name.
fn limit_file(name: &[u8]) -> Result<LimitFile, CaseFault> {
    match File::read(name).and_then(|file| file.written()) {
        Some(Written::Limit(file)) => Ok(file),
        _ => Err(CaseFault::Malformed),
    }
}

/// Appends a number, or why there is none.
fn push_number(said: &mut String, read: Result<u32, ValueFault>) -> Result<(), AllocError> {
    match read {
        Ok(number) => write!(said, "{number}"),
        Err(fault) => write!(said, "{fault}"),
    }
}

/// Appends the limit that the text is for the file, by the text of the limit.
fn push_limit(alloc: Global, said: &mut String, case: &Case) -> Result<(), CaseFault> {
    let file = limit_file(case.word(1))?;
    match read_limit(file, case.word(2)) {
        Ok(limit) => {
            let text = limit_text(alloc, limit)?;
            push_escaped(said, text.as_slice())?;
        }
        Err(fault) => write!(said, "{fault}")?,
    }
    Ok(())
}

/// A call that needs no engine.
pub(crate) fn value(alloc: Global, said: &mut String, case: &Case) -> Result<Outcome, CaseFault> {
    match str::from_utf8(case.word(0)).unwrap_or("") {
        "file" => push_file(said, case.word(1))?,
        "limit" => push_limit(alloc, said, case)?,
        "limit_name" => push_escaped(said, limit_file_name(limit_file(case.word(1))?))?,
        "limit_text" => {
            let number = u32::try_from(case.number(1)?).map_err(|_| CaseFault::Malformed)?;
            let text = limit_text(alloc, Limit::At(number))?;
            push_escaped(said, text.as_slice())?;
        }
        "pid" => push_number(said, read_pid(case.word(1)).map(|pid| pid.get()))?,
        "kill" => push_number(said, read_kill(case.word(1)).map(|()| 1))?,
        "pid_of" => {
            let number = u32::try_from(case.number(1)?).map_err(|_| CaseFault::Malformed)?;
            if let Some(pid) = Pid::new(number) {
                write!(said, "{}", pid.get())?;
            }
        }
        "bytes" => {
            let bytes = Bytes::of(Vec::from_slice(alloc, case.word(1))?);
            push_escaped(said, bytes.as_slice())?;
        }
        "no_memory_to_show" => write!(said, "{}", ShowFault::OutOfMemory)?,
        _ => return Err(CaseFault::Malformed),
    }
    Ok(Outcome::Answered)
}
