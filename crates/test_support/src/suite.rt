//! The program of a crate of tests: the loop over the case files, the counts and the reports.

ghost use Rattle.std.specs.Thread.{IsSync};

use crate::cases::{Case, Group, read_groups};
use std::alloc::{AllocError, Global};
use std::process::ExitCode;
use std::rt::{Env, Files};
use std::sync::Wait;
use std::thread::Threads;
use std::{env, fs, io};

/// What a crate of tests does with the calls on a subject.
pub trait Suite {
    /// Makes a new subject, and makes these calls on it by `run_ample` or, if they say the size of a heap, by `run_refused`.
    ///
    /// # Errors
    ///
    /// `AllocError` if the subject, or what is read of it, cannot be allocated.
    fn run<R: Threads + Wait + Sync>(
        &self,
        rt: &R,
        alloc: Global,
        group: &Group,
        tally: &mut Tally,
    ) -> Result<(), AllocError>
        requires { IsSync R.row };
}

/// What has been found in a case file: how many calls were made, and the report of those that failed.
#[derive(Drop)]
pub struct Tally {
    file: String,
    calls: u64,
    report: String,
}

impl Tally {
    /// Counts a call.
    pub(crate) fn count(&mut self) {
        self.calls = self.calls.saturating_add(1);
    }

    /// Reports what is wrong at a line.
    pub(crate) fn tell(&mut self, line: usize, what: &str) -> Result<(), AllocError> {
        let file = self.file.as_str();
        write!(self.report, "{file}:{line}: {what}\n")
    }

    /// Reports a call that failed.
    pub(crate) fn fail(&mut self, case: &Case, what: &str, said: &str) -> Result<(), AllocError> {
        let (file, line, call) = (self.file.as_str(), case.line, case.call.as_str());
        let wanted = case.answer.as_str();
        write!(
            self.report,
            "{file}:{line}: {call}: {what}{said}, wanted {wanted}\n"
        )
    }
}

/// Makes all calls of a case file with this text.
fn run_file<S: Suite, R: Threads + Wait + Sync>(
    rt: &R,
    alloc: Global,
    suite: &S,
    text: &str,
    tally: &mut Tally,
) -> Result<(), AllocError> {
    match read_groups(alloc, text)? {
        Ok(groups) => {
            for group in groups.iter() {
                suite.run(rt, alloc, group, tally)?;
            }
            Ok(())
        }
        Err(line) => tally.tell(line, "not a line of a case file"),
    }
}

/// Makes the calls of all files. Returns whether each call passed.
fn run_files<S: Suite, R: Files + Env + Print + AllocGlobal + Threads + Wait + Sync>(
    rt: &R,
    suite: &S,
) -> io::Result<bool> {
    let alloc = rt.alloc();
    let mut passed = true;
    for file in env::args(rt)?.skip(1) {
        let text = fs::read_to_string(rt, file.as_str())?;
        let mut tally = Tally {
            file,
            calls: 0,
            report: String::new(alloc),
        };
        run_file(rt, alloc, suite, text.as_str(), &mut tally)?;
        passed &= tally.report.is_empty();
        let (file, calls) = (tally.file.as_str(), tally.calls);
        print!(rt; "{}", tally.report)?;
        println!(rt; "{file}: {calls} calls")?;
    }
    Ok(passed)
}

/// Makes the calls of the case files that the program's arguments name, and prints a line for each file, after a line for
/// each call that failed. The exit status is 1 if a call failed, or a file can't be read.
pub fn run_suite<S: Suite, R: Files + Env + Print + Eprint + AllocGlobal + Threads + Wait + Sync>(
    rt: &R,
    suite: &S,
) -> ExitCode {
    match run_files(rt, suite) {
        Ok(true) => ExitCode::SUCCESS,
        Ok(false) => ExitCode::FAILURE,
        Err(error) => {
            let _ = eprintln!(rt; "the case files can't be read: {error}");
            ExitCode::FAILURE
        }
    }
}
