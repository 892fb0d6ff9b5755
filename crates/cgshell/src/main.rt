//! Answers each line of a trace before it waits for the next: commands on standard input or in a
//! file, their replies on standard output.
//!
//! `run_program` of `shell_main` says what the program does and leaves, `exit_status` its statuses.
//! The text of a fault is its message, with the word or the file that it is about. A closed pipe
//! has no message.
#![tactic(auto)]

ghost use Rattle.std.specs.Prelude.{◌≡◌, false};

use program_io::{LineFault, Source, StreamSource, collect_arguments};
use shell_main::{
    PipeSink, ProgramFault, bad_word, exit_status, input_file, run_program, with_closed_pipe,
};
use std::alloc::Global;
use std::fs::File;
use std::io::Read;
use std::process::ExitCode;
use std::rt::Runtime;
use std::sync::Wait;
use std::thread::Threads;
use std::{env, io};

fn main(rt: HostRuntime) -> ExitCode {
    let alloc: Global = rt.alloc();
    let outcome = match collect_arguments(alloc, env::args(&rt)) {
        Ok(args) => run(&rt, alloc, args.as_slice()),
        Err(fault) => {
            let _ = eprintln!(rt; "cgshell: {fault}");
            Err(ProgramFault::Line(fault))
        }
    };
    ExitCode::from(exit_status(outcome))
}

/// Runs the program over the file that the arguments name, or over standard input.
fn run<R: Runtime + Threads + Wait + Sync>(
    rt: &R,
    alloc: Global,
    args: &[String],
) -> Result<(), ProgramFault> {
    let outcome = match input_file(alloc, args) {
        Ok(Some(name)) => match File::open(rt, name) {
            Ok(file) => serve(rt, alloc, args, StreamSource::new(file)),
            Err(error) => {
                let _ = eprintln!(rt; "cgshell: {}: {name:?}: {error}", ProgramFault::Open);
                return Err(ProgramFault::Open);
            }
        },
        Ok(None) => serve(rt, alloc, args, StreamSource::new(rt.reader())),
        Err(fault) => Err(ProgramFault::Line(fault)),
    };
    tell(rt, alloc, args, outcome);
    outcome
}

/// Runs the program over this source and standard output.
fn serve<R: Runtime + Threads + Wait + Sync, I: Read + Drop>(
    rt: &R,
    alloc: Global,
    args: &[String],
    mut reader: StreamSource<I>,
) -> Result<(), ProgramFault>
    requires { ⟦<StreamSource<I> as Source>⟧.is_failed reader ≡ false }
{
    let mut writer = PipeSink::new(io::writer(rt));
    let outcome = run_program(rt, alloc, args, &mut reader, &mut writer);
    with_closed_pipe(outcome, writer.is_closed())
}

/// Writes the message of a fault, with the word that was not understood.
fn tell<R: Runtime>(rt: &R, alloc: Global, args: &[String], outcome: Result<(), ProgramFault>) {
    let Err(fault) = outcome else { return };
    match fault {
        ProgramFault::ClosedPipe => {}
        ProgramFault::Line(LineFault::Bad) => {
            let _ = match bad_word(alloc, args) {
                Some(word) => eprintln!(rt; "cgshell: {fault}: {word:?}"),
                None => eprintln!(rt; "cgshell: {fault}"),
            };
        }
        _ => {
            let _ = eprintln!(rt; "cgshell: {fault}");
        }
    }
}
