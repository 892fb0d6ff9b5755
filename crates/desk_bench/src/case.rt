//! What the command line asks for.

ghost use Rattle.std.specs.Prelude.{◌≤◌, IfSome};

/// Where the threads make their calls.
#[derive(Clone, Copy)]
pub(crate) enum Way {
    /// At a desk.
    Desk,
    /// At an engine over a board.
    Board,
    /// At an engine over a plain meter.
    Plain,
}

/// A case to time.
#[derive(Clone, Copy)]
pub(crate) struct Case {
    pub(crate) way: Way,
    /// Whether each thread has a group of its own.
    pub(crate) is_apart: bool,
    pub(crate) threads: u8,
    /// The calls of each thread.
    pub(crate) calls: u32,
}

/// The case that the program's arguments name, of which the first is its name.
pub(crate) fn case_of(args: &[String]) -> Option<Case>
    ensures { IfSome result (λ case. (1 ≤ case.threads) × (case.threads ≤ 8)) }
{
    let [_, way, workload, threads, calls] = args else {
        return None;
    };
    Some(Case {
        way: way_of(way.as_str())?,
        is_apart: is_apart(workload.as_str())?,
        threads: thread_count(threads.as_str())?,
        calls: calls.parse::<u32>().ok()?,
    })
}

fn way_of(word: &str) -> Option<Way> {
    match word {
        "desk" => Some(Way::Desk),
        "board" => Some(Way::Board),
        "plain" => Some(Way::Plain),
        _ => None,
    }
}

fn is_apart(word: &str) -> Option<bool> {
    match word {
        "own" => Some(true),
        "one" => Some(false),
        _ => None,
    }
}

fn thread_count(word: &str) -> Option<u8>
    ensures { IfSome result (λ n. (1 ≤ n) × (n ≤ 8)) }
{
    match word.parse::<u8>() {
        Ok(threads) if 1 <= threads && threads <= 8 => Some(threads),
        _ => None,
    }
}
