//! The laws of logs of any length: where a log ends, and whether it is legal, entry by entry.

ghost use Rattle.std.specs.Prelude.{◌≡◌, ◌↔◌, ◌++◌, ◌∷◌, ℕ, List, []};
ghost use Rattle.flat_model.specs.Machine.{new_machine, tick};
ghost use Rattle.flat_model.specs.Log.{Entry, IsLegal, log_end};

/// The empty log ends at the machine's start. A log with one more entry ends one step later, after that entry's command.
pub fn log_ends_by_steps()
    ensures empty { (slots : ℕ) → log_end slots [] ≡ new_machine }
    ensures longer { (slots : ℕ) (log : List Entry) (e : Entry)
        → log_end slots (log ++ e ∷ []) ≡ (tick slots (log_end slots log) e.command).0 }
{}

/// The empty log is legal. A log with one more entry is legal exactly if it was legal before, and the entry has the reply
/// that the machine gives at its end.
pub fn legal_by_each_reply()
    ensures empty { (slots : ℕ) → IsLegal slots [] }
    ensures longer { (slots : ℕ) (log : List Entry) (e : Entry) → IsLegal slots (log ++ e ∷ [])
        ↔ IsLegal slots log × (e.reply ≡ (tick slots (log_end slots log) e.command).1) }
{}
