//! What is at the numbered lines of a trace, and the output there, by several workers or from
//! replies that are given.

ghost use Rattle.std.specs.Prelude.{
  ◌≡◌,
  ◌∷◌,
  ℕ,
  true,
  false,
  List,
  [],
  Option,
  Some,
  None,
  codes,
  length,
  map,
};
ghost use Rattle.flat_model.specs.Command as model;
ghost use Rattle.flat_model.specs.Replies.{
  answers_to,
  command_count,
  commands_in,
  line_replies,
  out,
};
ghost use Rattle.flat_model.specs.Trace as trace;
ghost use Rattle.undo_journal.specs.CommandMeaning.{command_of};
ghost use Rattle.replay_main.specs.Rehearsed.{answers_at_hand, is_refusal};
ghost use Rattle.replay_main.specs.Script.{
  IsScript,
  TraceScript,
  answers_from,
  is_command,
  place_of,
  places_in,
  run_of,
};

/// The output by places and replies is that of the model, if each command has its reply. So is the
/// output from the given replies, as far as there are any. After a command for which the workers
/// were out of memory there is no output.
pub fn answers_of_scripts()
    ensures model { (slots : ℕ) (lines : List trace.Line)
        → answers_from 1 (places_in lines) (line_replies slots lines) ≡ answers_to slots lines }
    ensures answers { (n : ℕ) (lines : List trace.Line) (rs : List model.Reply)
        → length rs ≡ length (commands_in lines)
        → answers_from n (places_in lines) rs ≡ out n lines rs }
    ensures at_hand { (n : ℕ) (lines : List trace.Line) (rs : List model.Reply)
        → answers_at_hand n (places_in lines) (map (λ r. Some r) rs) ≡ out n lines rs }
    ensures out_of_memory { (n : ℕ) (places : List (Option trace.TextFault)) (rs : List (Option model.Reply))
        → answers_at_hand n (None ∷ places) (None ∷ rs) ≡ [] }
    ensures refused { is_refusal (Some model.NothingToUndo) ≡ true }
    ensures done { is_refusal (Some model.Done) ≡ false }
    ensures no_memory { is_refusal None ≡ false }
{}

/// Two workers answer three lines: a command that is done, a bad path, and an undo with nothing to
/// undo. The first answers two lines. The second begins with the third number and the second reply.
pub fn answers_of_workers()
    ensures first { answers_from 1 (None ∷ Some trace.BadPath ∷ []) (model.Done ∷ [])
        ≡ codes "1 ok\n2 refused path\n" }
    ensures second { answers_from 3 (None ∷ []) (model.NothingToUndo ∷ [])
        ≡ codes "3 refused nothing\n" }
    ensures together { answers_from 1 (None ∷ Some trace.BadPath ∷ None ∷ []) (model.Done ∷ model.NothingToUndo ∷ [])
        ≡ codes "1 ok\n2 refused path\n3 refused nothing\n" }
    ensures run { run_of {X = ℕ} 2 1 (10 ∷ 11 ∷ 12 ∷ 13 ∷ 14 ∷ []) ≡ 12 ∷ 13 ∷ [] }
    ensures last_run { run_of {X = ℕ} 2 2 (10 ∷ 11 ∷ 12 ∷ 13 ∷ 14 ∷ []) ≡ 14 ∷ [] }
{}

/// A line with a command or a fault has a place, in order; no other line has one. A script has as
/// many places as there are numbered lines, and as many commands as there are among them.
pub fn places_of_scripts()
    ensures places { (c : model.Command) (f : trace.TextFault)
        → places_in (trace.Skip ∷ trace.Run c ∷ trace.Skip ∷ trace.Fault f ∷ []) ≡ None ∷ Some f ∷ [] }
    ensures command { is_command None ≡ true }
    ensures fault { (f : trace.TextFault) → is_command (Some f) ≡ false }
    ensures numbered { (script : TraceScript) (lines : List trace.Line) → IsScript script lines
        → length script.places.items ≡ command_count lines }
    ensures commands { (script : TraceScript) (lines : List trace.Line) → IsScript script lines
        → map command_of script.commands.items ≡ commands_in lines }
    ensures faults { (script : TraceScript) (lines : List trace.Line) → IsScript script lines
        → map place_of script.places.items ≡ places_in lines }
{}
