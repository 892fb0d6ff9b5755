//! The command line of the program.

ghost use Rattle.std.specs.Prelude.{◌≡◌, ◌+◌, ℕ, drop, map, option_map, slice_get, string_bytes, take, Err, IfErr, IfOk, IfSome, IsTrue, Some};
ghost use Rattle.clap.specs.Words.{app_of, kind_of};
ghost use Rattle.shell_main.specs.ShellArguments.{AsksShell, AsksShellBy, IsBad, Names, app, flag_said};

use crate::Options;
use clap::error::ErrorKind;
use clap::{Arg, ArgAction, Command, Error};
use program_io::{LineFault, cluster_first, without_name};
use std::alloc::{AllocError, Global};

/// The version of the project.
const VERSION: &str = "1.0.0";

/// What the command line requests.
#[derive(Drop)]
pub(crate) enum Ask<'a> {
    /// A shell.
    Serve {
        /// The file with the commands, if not standard input.
        file: Option<&'a str>,
        /// How it answers.
        options: Options,
    },
    /// The help text.
    Help(String),
    /// The version.
    Version(String),
}

/// Reads the arguments of the program, whose first is its name: `--strict`, `--no-undo` and the name of a file, each
/// optional; or `--help`, or `--version`.
pub(crate) fn read_arguments<'a>(alloc: Global, args: &'a [String]) -> Result<Ask<'a>, LineFault>
    ensures { AsksShell (map string_bytes (drop 1 args.entry.now)) result }
{
    read_words(alloc, without_name(args))
}

/// Reads the words after the name of the program.
fn read_words<'a>(alloc: Global, words: &'a [String]) -> Result<Ask<'a>, LineFault>
    ensures { AsksShell (map string_bytes words.entry.now) result }
{
    let Ok(command) = program(alloc) else {
        return Err(LineFault::OutOfMemory);
    };
    match command.try_get_matches_from(words) {
        Ok(matches) => Ok(Ask::Serve {
            file: matches.get_str("FILE"),
            options: Options {
                is_strict: is_true(matches.get_str("strict")),
                keeps_history: !is_true(matches.get_str("no-undo")),
            },
        }),
        Err(error) => asked_by(alloc, &error, cluster_first(words)),
    }
}

/// The file that the program's arguments name, of which the first is its name. There is none if the commands are on
/// standard input, or if help or the version is requested.
///
/// # Errors
///
/// `Bad` if the arguments request nothing; `OutOfMemory` when out of memory.
pub fn input_file<'a>(alloc: Global, args: &'a [String]) -> Result<Option<&'a str>, LineFault>
    ensures named { IfOk result (λ file. Names (map string_bytes (drop 1 args.entry.now)) (option_map (λ text. text.now) file)) }
    ensures bad { IfErr result (λ fault. AsksShell (map string_bytes (drop 1 args.entry.now)) (Err fault)) }
{
    match read_arguments(alloc, args) {
        Ok(Ask::Serve { file, .. }) => Ok(file),
        Ok(Ask::Help(_) | Ask::Version(_)) => Ok(None),
        Err(fault) => Err(fault),
    }
}

/// The first of the arguments, after the name of the program, with which the words up to it are a bad command line.
pub fn bad_word<'a>(alloc: Global, args: &'a [String]) -> Option<&'a str>
    ensures { IfSome result (λ word. (n : ℕ)
        × (slice_get (map string_bytes (drop 1 args.entry.now)) n ≡ Some word.now)
        × IsBad (map string_bytes (take (n + 1) (drop 1 args.entry.now)))) }
{
    let words = without_name(args);
    for n in 0..words.len() {
        if is_bad(alloc, &words[..n + 1]) {
            return Some(words[n].as_str());
        }
    }
    None
}

/// Whether these words are known to be a bad command line.
fn is_bad(alloc: Global, words: &[String]) -> bool
    ensures { IsTrue result → IsBad (map string_bytes words.now) }
{
    matches!(read_words(alloc, words), Err(LineFault::Bad))
}

/// The program's arguments, as given to `clap`.
fn program<'a>(alloc: Global) -> Result<Command<'a>, AllocError>
    ensures { IfOk result (λ command. app_of command ≡ app) }
{
    let file = Arg::new(alloc, "FILE").help(
        "Reads the lines of this file instead of standard input",
    );
    let strict = Arg::new(alloc, "strict")
        .long("strict")
        .action(ArgAction::SetTrue)
        .help("Stops after the first line that is not a command, with status 1");
    let no_undo = Arg::new(alloc, "no-undo")
        .long("no-undo")
        .action(ArgAction::SetTrue)
        .help("Keeps no history: nothing can be undone, and no record takes memory");
    let bare = Command::new(alloc, "cgshell")
        .version(VERSION)
        .about("Answers each line of a trace before it waits for the next")
        .no_binary_name(true);
    let one = bare.arg(file)?;
    let both = one.arg(strict)?;
    let whole = both.arg(no_undo)?;
    Ok(whole)
}

/// Whether the value of a flag is `true`.
fn is_true(value: Option<&str>) -> bool
    ensures { result ≡ flag_said (option_map (λ text. text.now) value.entry) }
{
    match value {
        Some(text) => text == "true",
        None => false,
    }
}

/// What an error of `clap` requests. A request by a cluster of flags is a bad command line.
fn asked_by<'a>(alloc: Global, error: &Error, is_clustered: bool) -> Result<Ask<'a>, LineFault>
    ensures { AsksShellBy is_clustered (kind_of error.now) result }
{
    let kind = error.kind();
    match kind {
        ErrorKind::DisplayHelp | ErrorKind::DisplayVersion if is_clustered => Err(LineFault::Bad),
        ErrorKind::DisplayHelp | ErrorKind::DisplayVersion => {
            match format!(in alloc; "{error}") {
                Ok(text) if matches!(kind, ErrorKind::DisplayHelp) => Ok(Ask::Help(text)),
                Ok(text) => Ok(Ask::Version(text)),
                Err(_) => Err(LineFault::OutOfMemory),
            }
        }
        ErrorKind::OutOfMemory => Err(LineFault::OutOfMemory),
        _ => Err(LineFault::Bad),
    }
}
