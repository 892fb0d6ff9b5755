//! The laws of a settlement in parts: how many there are, which tokens each takes, and what they leave together.

ghost use Rattle.std.specs.Prelude.{◌≡◌, ◌+◌, ◌-◌, ◌≤◌, ◌∷◌, ℕ, suc, List, [], length, map};
ghost use Rattle.snzi_tokens.specs.declared.token.Token.{Token};
ghost use Rattle.snzi_tokens.specs.Listed.{listed_at};
ghost use Rattle.pids_charge.specs.Content.{Content};
ghost use Rattle.pids_charge.specs.Parts.{but_last_run, in_parts, parts_for, the_last_run};
ghost use Rattle.charge_laws.specs.Cuts.{AreEven, eight, joined, runs, token};

/// A settlement has as many parts as tokens, but at least two and at most eight.
pub fn parts_of_a_settlement()
    ensures few { (parts_for 0 ≡ 2) × (parts_for 1 ≡ 2) × (parts_for 2 ≡ 2) }
    ensures each { (n : ℕ) → 2 ≤ n → n ≤ 8 → parts_for n ≡ n }
    ensures many { (n : ℕ) → 8 ≤ n → parts_for n ≡ 8 }
{}

/// The runs are the list, cut into so many pieces. Their lengths differ by at most one, and the longer ones come first.
pub fn runs_of_a_list()
    ensures cut { (n : ℕ) (ts : List Token) → joined (runs (suc n) ts) ≡ ts }
    ensures many { (n : ℕ) (ts : List Token) → length (runs n ts) ≡ n }
    ensures even { (n : ℕ) (ts : List Token) → AreEven (runs n ts) }
{}

/// Eight tokens in three runs: three, three and two of them. In one run all, and in nine one each, and none in the last.
pub fn runs_of_eight()
    ensures last { the_last_run 3 eight ≡ token 6 ∷ token 7 ∷ [] }
    ensures second { the_last_run 2 (but_last_run 3 eight) ≡ token 3 ∷ token 4 ∷ token 5 ∷ [] }
    ensures first { but_last_run 2 (but_last_run 3 eight) ≡ token 0 ∷ token 1 ∷ token 2 ∷ [] }
    ensures one { (the_last_run 1 eight ≡ eight) × (but_last_run 1 eight ≡ []) }
    ensures nine { map length (runs 9 eight) ≡ 0 ∷ 1 ∷ 1 ∷ 1 ∷ 1 ∷ 1 ∷ 1 ∷ 1 ∷ 1 ∷ [] }
{}

/// Whatever the number of helpers, the parts together leave what was there, less the leaving tokens, plus the arriving ones.
pub fn parts_leave_the_same()
    ensures { (helpers : ℕ) (leaving arriving : List Token) (at : Content) → ((s j : ℕ) → listed_at leaving s j ≤ at s j)
        → (s j : ℕ) → in_parts helpers leaving arriving at s j ≡ at s j - listed_at leaving s j + listed_at arriving s j }
{}
