//! A shell without a history, compared with one that has one.

ghost use Rattle.std.specs.Prelude.{◌≡◌, ◌+◌, ◌++◌, [], ◌∷◌, List, ℕ, true, false, not, filter};
ghost use Rattle.std.specs.List.{All};
ghost use Rattle.flat_model.specs.Command.{Command, NothingToUndo, Undo, is_undo};
ghost use Rattle.flat_model.specs.Machine.{after_all, tick};
ghost use Rattle.flat_model.specs.Replies.{answers, command_count, commands_in, reply_bytes};
ghost use Rattle.flat_model.specs.Trace.{Line, Run, read_trace};
ghost use Rattle.undo_journal.specs.Beginning.{forgotten};
ghost use Rattle.sessions.specs.SessionMeaning.{slots};
ghost use Rattle.trace_talk.specs.Points.{start_point};
ghost use Rattle.shell_main.specs.Forgetful.{after_by, answers_by, output_of};

/// With a history the output is that of a replay.
pub fn with_a_history()
    ensures { (text : List ℕ) → output_of true text ≡ answers slots text }
{}

/// Without one, any lines leave the state of the same lines without their undos, and nothing to undo.
pub fn undos_are_dropped()
    ensures { (lines : List Line) → (after_by false start_point lines).machine
        ≡ forgotten (after_all slots (filter (λ c. not (is_undo c)) (commands_in lines))) }
{}

/// Without one, after any lines, an undo is answered as with an empty history; and any other command as after the same
/// lines without their undos.
pub fn each_answer()
    ensures undo { (lines : List Line) → answers_by false start_point (lines ++ Run Undo ∷ [])
        ≡ answers_by false start_point lines ++ reply_bytes (command_count lines + 1) NothingToUndo }
    ensures other { (lines : List Line) (c : Command) → is_undo c ≡ false
        → answers_by false start_point (lines ++ Run c ∷ [])
        ≡ answers_by false start_point lines ++ reply_bytes (command_count lines + 1)
        (tick slots (after_all slots (filter (λ d. not (is_undo d)) (commands_in lines))) c).1 }
{}

/// A text without undos has the same output with a history and without.
pub fn no_undo_no_difference()
    ensures { (text : List ℕ) → All (λ c. is_undo c ≡ false) (commands_in (read_trace text))
        → output_of false text ≡ output_of true text }
{}
