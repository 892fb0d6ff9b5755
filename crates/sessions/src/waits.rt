//! The turns that sessions wait for.

ghost use Rattle.std.specs.Prelude.{◌≡◌, ◌↔◌, ◌≤◌, ◌%◌, ℕ, IsTrue, IfSome, Some, None, replicate, slice_index_or, true};
ghost use Rattle.sessions.specs.Waits.{AreDue, AreLeft, AreNoEarlier, IsDue, IsLeft, IsNoLater, IsWoken};

use std::marker::Model;

/// For each session number the least turn that is waited for, if any. Contracts see the list of
/// these turns.
///
/// Each command asks whether one of them has come, and mostly none has. So the least of all is
/// kept, and the eight are looked at only if that one has come.
#[derive(Drop)]
pub(crate) struct Waits {
    turns: [Option<u64>; 8],
    /// No later than any of the turns.
    first: Option<u64>,
}

impl Model for Waits {
    ghost use Rattle.std.specs.Prelude.{ℕ, List, Option};
    ghost use Rattle.sessions.specs.Waits.{AreNoEarlier};

    ghost Value = { List (Option ℕ) };

    ghost view = { λ w. w.turns };

    ghost invariant = { λ w. AreNoEarlier w.first w.turns };
}

impl Waits {
    /// No turn is waited for.
    pub(crate) fn none() -> Waits
        ensures { result ≡ replicate 8 None }
    {
        Waits {
            turns: [None; 8],
            first: None,
        }
    }

    /// Notes that the session waits for this turn.
    pub(crate) fn note(&mut self, session: u8, turn: u64)
        ensures noted { IsWoken turn (slice_index_or self.new (session % 8) None) }
        ensures others { (at : ℕ) → IsNoLater (slice_index_or self.old at None)
            (slice_index_or self.new at None) }
    {
        let at = usize::from(session % 8);
        let least = least_of(self.turns[at], turn);
        self.turns[at] = Some(least);
        self.first = Some(least_of(self.first, least));
    }

    /// The indices at which the awaited turn has come. Those turns are removed.
    pub(crate) fn take_due(&mut self, reached: Option<u64>) -> [bool; 8]
        ensures due { AreDue reached self.old result }
        ensures left { AreLeft reached self.old self.new }
    {
        if !is_due(self.first, reached) {
            return [false; 8];
        }
        let (due, first) = due_of(&mut self.turns, reached);
        self.first = first;
        due
    }
}

/// The lesser of this turn and the noted one, if any.
fn least_of(noted: Option<u64>, turn: u64) -> u64
    ensures this { result ≤ turn }
    ensures noted { IfSome noted (λ t. result ≤ t) }
{
    match noted {
        Some(least) => least.min(turn),
        None => turn,
    }
}

/// The indices at which the awaited turn has come, and the least of the other turns, if any. The
/// turns that have come are removed.
fn due_of(waits: &mut [Option<u64>; 8], reached: Option<u64>) -> ([bool; 8], Option<u64>)
    ensures due { AreDue reached waits.old result.0 }
    ensures left { AreLeft reached waits.old waits.new }
    ensures first { AreNoEarlier result.1 waits.new }
{
    let mut due = [false; 8];
    let mut first = None;
    for at in 0..8 {
        let noted = waits[at];
        let left = left_of(noted, reached);
        due[at] = is_due(noted, reached);
        waits[at] = left;
        first = first_of(first, left);
    }
    (due, first)
}

/// The lesser of two turns, if any.
fn first_of(first: Option<u64>, turn: Option<u64>) -> Option<u64>
    ensures one { IsNoLater first result }
    ensures other { IsNoLater turn result }
{
    match turn {
        Some(turn) => Some(least_of(first, turn)),
        None => first,
    }
}

/// Whether a turn is noted and has come: the log is long enough, or the desk is halted or closed.
fn is_due(noted: Option<u64>, reached: Option<u64>) -> bool
    ensures { IsTrue result ↔ IsDue reached noted }
{
    match (noted, reached) {
        (Some(turn), Some(len)) => turn <= len,
        (Some(_), None) => true,
        (None, _) => false,
    }
}

/// The noted turn, if it has not come.
fn left_of(noted: Option<u64>, reached: Option<u64>) -> Option<u64>
    ensures { IsLeft reached noted result }
{
    if is_due(noted, reached) { None } else { noted }
}
