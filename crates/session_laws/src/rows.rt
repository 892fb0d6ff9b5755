//! The laws of commands that sessions run in a row.

ghost use Rattle.std.specs.Prelude.{◌≡◌, ◌∷◌, ℕ, List, [], length};
ghost use Rattle.flat_model.specs.Command.{Command};
ghost use Rattle.flat_model.specs.Log.{Session};
ghost use Rattle.flat_model_laws.specs.AuditExamples.{made, receipt, session, shown};
ghost use Rattle.sessions.specs.Turns.{TakeSomeTurns, TakeTurns};

/// Of two sessions the second runs the command at turn 1, and the first that at turn 2. If the
/// second command doesn't run, the first session is unchanged.
pub fn rows_of_two_sessions()
    ensures both { TakeTurns 1 (made.command ∷ shown.command ∷ [])
        (session 0 [] ∷ session 1 [] ∷ [])
        (session 0 (receipt 2 shown ∷ []) ∷ session 1 (receipt 1 made ∷ []) ∷ []) }
    ensures first { TakeSomeTurns 1 (made.command ∷ shown.command ∷ [])
        (session 0 [] ∷ session 1 [] ∷ [])
        (session 0 [] ∷ session 1 (receipt 1 made ∷ []) ∷ []) }
    ensures other_session { TakeTurns 1 (made.command ∷ [])
        (session 0 [] ∷ session 1 [] ∷ [])
        (session 0 (receipt 1 made ∷ []) ∷ session 1 [] ∷ []) → ⊥ }
{}

/// A row of commands keeps the number of sessions. A row that stopped has a command that didn't
/// run.
pub fn rows_of_all_sessions()
    ensures many { (turn : ℕ) (cs : List Command) (before after : List Session)
        → TakeTurns turn cs before after → length after ≡ length before }
    ensures stopped { (turn : ℕ) (before after : List Session)
        → TakeSomeTurns turn [] before after → ⊥ }
{}
