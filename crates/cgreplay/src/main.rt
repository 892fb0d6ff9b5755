//! Replays a trace: commands on standard input, their replies on standard output.
//!
//! `run_program` of `replay_main` says what the program does and leaves, `exit_status` its
//! statuses. The text of a fault is its message.
#![tactic(auto)]

use replay_main::{
    ProgramFault, StreamSink, StreamSource, collect_arguments, exit_status, run_program,
};
use std::alloc::Global;
use std::process::ExitCode;
use std::{env, io};

fn main(rt: HostRuntime) -> ExitCode {
    let alloc: Global = rt.alloc();
    let mut reader = StreamSource::new(rt.reader());
    let mut writer = StreamSink::new(io::writer(&rt));
    let outcome = match collect_arguments(alloc, env::args(&rt)) {
        Ok(args) => run_program(&rt, alloc, args.as_slice(), &mut reader, &mut writer),
        Err(fault) => Err(ProgramFault::Line(fault)),
    };
    if let Err(fault) = outcome {
        let _ = eprintln!(rt; "cgreplay: {fault}");
    }
    ExitCode::from(exit_status(outcome))
}
