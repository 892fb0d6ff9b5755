//! How many parts a settlement has, and which tokens each part does.

ghost use Rattle.std.specs.Prelude.{◌≡◌, ℕ, ◌+◌, ◌<◌, length};
ghost use Rattle.snzi_tokens.specs.Listed.{IsWithin, listed_at};
ghost use Rattle.pids_charge.specs.Parts.{parts_for, but_last_run, the_last_run};

use snzi_tokens::Token;

/// The number of parts of a settlement: the number of its tokens, but at least 2 and at most 8.
pub fn part_count(leaving: &[Token], arriving: &[Token]) -> u8
    ensures { result ≡ parts_for (length leaving.now + length arriving.now) }
{
    let tokens = leaving.len().min(8) + arriving.len().min(8);
    tokens.clamp(2, 8) as u8
}

/// Cuts `runs` runs into all but the last, and the last. The lengths of runs differ by at most one, the longer runs first.
pub fn last_run(tokens: &[Token], runs: u8) -> (&[Token], &[Token])
    requires { 0 < runs }
    ensures runs { (result.0.now ≡ but_last_run runs tokens.now) × (result.1.now ≡ the_last_run runs tokens.now) }
    ensures tokens { (s j : ℕ) → listed_at result.0.now s j + listed_at result.1.now s j ≡ listed_at tokens.now s j }
    ensures place { (g l : ℕ) → IsWithin g l tokens.now → IsWithin g l result.0.now × IsWithin g l result.1.now }
    ensures len { length result.0.now + length result.1.now ≡ length tokens.now }
{
    tokens.split_at(tokens.len() - tokens.len() / usize::from(runs))
}
