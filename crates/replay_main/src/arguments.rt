//! The command line of the program.

ghost use Rattle.std.specs.Prelude.{◌≡◌, ◌≤◌, drop, map, option_map, string_bytes, IfOk, IfSome};
ghost use Rattle.clap.specs.Words.{app_of, kind_of};
ghost use Rattle.replay_main.specs.ReplayArguments.{AsksReplay, AsksReplayBy, app, digit_said, rehearsal_said, workers_said};

use clap::error::ErrorKind;
use clap::{Arg, ArgAction, Command, Error};
use program_io::{LineFault, cluster_first, without_name};
use std::alloc::{AllocError, Global};
use std::convert::AsStr;

/// What the command line asks for.
#[derive(Drop)]
pub enum Ask {
    /// A replay, or a rehearsal.
    Run {
        /// How many workers replay the trace, 1 to 8. A rehearsal ignores it.
        workers: u8,
        /// Whether to rehearse the trace instead of replaying it.
        rehearse: bool,
    },
    /// The help text.
    Help(String),
}

/// Reads the words after the program's name: `--workers N`, where N is a digit from 1 to 8 and 1 by
/// default; `--rehearse`; or `--help`.
///
/// # Errors
///
/// `Bad` for any other words; `OutOfMemory` when out of memory.
pub fn command_line(alloc: Global, words: &[&str]) -> Result<Ask, LineFault>
    ensures { AsksReplay (map (λ word. word.now) words.now) result }
{
    read_words(alloc, words)
}

/// Reads the program's arguments, of which the first is its name.
pub(crate) fn read_arguments(alloc: Global, args: &[String]) -> Result<Ask, LineFault>
    ensures { AsksReplay (map string_bytes (drop 1 args.now)) result }
{
    read_words(alloc, without_name(args))
}

/// The program's arguments, described for `clap`.
fn program<'a>(alloc: Global) -> Result<Command<'a>, AllocError>
    ensures { IfOk result (λ command. app_of command ≡ app) }
{
    let workers = Arg::new(alloc, "workers")
        .long("workers")
        .value_name("1-8")
        .help("How many workers replay the trace; one where this is left out");
    let rehearse = Arg::new(alloc, "rehearse")
        .long("rehearse")
        .action(ArgAction::SetTrue)
        .help("Rehearse the trace: answer it on a copy of the engine in an arena");
    let bare = Command::new(alloc, "cgreplay").no_binary_name(true);
    let one = bare.arg(workers)?;
    let both = one.arg(rehearse)?;
    Ok(both)
}

fn read_words<S: AsStr>(alloc: Global, words: &[S]) -> Result<Ask, LineFault>
    ensures { AsksReplay (map S.text words.now) result }
{
    let Ok(command) = program(alloc) else {
        return Err(LineFault::OutOfMemory);
    };
    match command.try_get_matches_from(words) {
        Ok(matches) => match read_workers(matches.get_str("workers")) {
            Some(workers) => Ok(Ask::Run {
                workers,
                rehearse: is_true(matches.get_str("rehearse")),
            }),
            None => Err(LineFault::Bad),
        },
        Err(error) => asked_by(alloc, &error, cluster_first(words)),
    }
}

/// Whether the value of a flag is `true`.
fn is_true(value: Option<&str>) -> bool
    ensures { result ≡ rehearsal_said (option_map (λ text. text.now) value.entry) }
{
    match value {
        Some(text) => text == "true",
        None => false,
    }
}

/// The number of workers that the value of `--workers` gives, if it gives one.
fn read_workers(value: Option<&str>) -> Option<u8>
    ensures said { result ≡ workers_said (option_map (λ text. text.now) value.entry) }
    ensures bounds { IfSome result (λ n. (1 ≤ n) × (n ≤ 8)) }
{
    match value {
        Some(text) => read_digit(text.as_bytes()),
        None => Some(1),
    }
}

fn read_digit(text: &[u8]) -> Option<u8>
    ensures said { result ≡ digit_said text.now }
    ensures bounds { IfSome result (λ n. (1 ≤ n) × (n ≤ 8)) }
{
    match text {
        [digit @ b'1'..=b'8'] => Some(*digit - b'0'),
        _ => None,
    }
}

/// What an error of `clap` asks for. A call for help by a cluster of flags is a bad command line.
fn asked_by(alloc: Global, error: &Error, is_clustered: bool) -> Result<Ask, LineFault>
    ensures { AsksReplayBy is_clustered (kind_of error.now) result }
{
    match error.kind() {
        ErrorKind::DisplayHelp if is_clustered => Err(LineFault::Bad),
        ErrorKind::DisplayHelp => match format!(in alloc; "{error}") {
            Ok(text) => Ok(Ask::Help(text)),
            Err(_) => Err(LineFault::OutOfMemory),
        },
        ErrorKind::OutOfMemory => Err(LineFault::OutOfMemory),
        _ => Err(LineFault::Bad),
    }
}
