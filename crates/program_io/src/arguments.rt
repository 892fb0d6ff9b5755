//! The arguments of a program.

ghost use Rattle.std.specs.Prelude.{◌≡◌, drop, map};
ghost use Rattle.program_io.specs.Arguments.{Collects};
ghost use Rattle.program_io.specs.Clusters.{asks_text, cluster_first, is_cluster};

use std::alloc::Global;
use std::convert::AsStr;
use std::{env, io};
use thiserror::Error;

/// Why the command line could not be read. (A fault in a line of a trace is a `TextFault`.)
#[derive(Clone, Copy, Debug, PartialEq, Eq, Error)]
pub enum LineFault {
    /// A word is unknown or not text, or the number of workers is not from 1 to 8.
    #[error("bad command line")]
    Bad,
    /// Out of memory.
    #[error("out of memory")]
    OutOfMemory,
}

/// The program's arguments, including its name.
///
/// # Errors
///
/// `OutOfMemory` when out of memory, and `Bad` if an argument is not text.
pub fn collect_arguments(
    alloc: Global,
    args: io::Result<env::Args>,
) -> Result<Vec<String>, LineFault>
    ensures { Collects args result }
{
    match args {
        Ok(args) => match args.collect(alloc) {
            Ok(args) => Ok(args),
            Err(_) => Err(LineFault::OutOfMemory),
        },
        Err(error) => match error.kind() {
            io::ErrorKind::OutOfMemory => Err(LineFault::OutOfMemory),
            _ => Err(LineFault::Bad),
        },
    }
}

/// The arguments after the program's name, which is the first.
pub fn without_name(args: &[String]) -> &[String]
    ensures { result.now ≡ drop 1 args.now }
{
    match args {
        [_, words @ ..] => words,
        [] => args,
    }
}

/// Whether a cluster of flags, as `-hV`, comes before every word that asks for a text. `clap` reads such a word flag by
/// flag, so it takes `-V1` for a request for the version.
pub fn cluster_first<S: AsStr>(words: &[S]) -> bool
    ensures { result ≡ cluster_first (map S.text words.now) }
{
    for word in words {
        let text = word.as_str();
        if asks_text(text) {
            return false;
        }
        if is_cluster(text) {
            return true;
        }
    }
    false
}

/// Whether a word asks for the help text or the version.
fn asks_text(word: &str) -> bool
    ensures { result ≡ asks_text word.now }
{
    word == "-h" || word == "-V" || word == "--help" || word == "--version"
}

/// Whether a word is a cluster: a dash and more than one flag.
fn is_cluster(word: &str) -> bool
    ensures { result ≡ is_cluster word.now }
{
    match word.as_bytes() {
        [b'-', second, _, ..] => *second != b'-',
        _ => false,
    }
}
