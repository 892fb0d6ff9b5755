//! The laws of records: each undoes its command, and a journal of them describes a past.

ghost use Rattle.std.specs.Prelude.{◌≡◌, ◌∷◌, ℕ, List, [], Some, None, is_some};
ghost use Rattle.flat_model.specs.State.{State};
ghost use Rattle.flat_model.specs.Command.{Command, Refusal, changes, is_counted};
ghost use Rattle.flat_model.specs.Step.{refusal, after, after_refusal};
ghost use Rattle.flat_model.specs.Inverse.{Inverse, back, inverse, inverse_of_refusal, past_of};

/// A recorded command, undone by its record, gives the state before it, from any state in which it is accepted. So does a
/// fork that `pids.max` refused and that was counted.
pub fn taken_back()
    ensures accepted { (slots : ℕ) (s : State) (c : Command) (i : Inverse)
        → refusal slots s c ≡ None → inverse s c ≡ Some i → back i (after s c) ≡ s }
    ensures counted { (s : State) (r : Refusal) (i : Inverse) → inverse_of_refusal r ≡ Some i
        → back i (after_refusal s r) ≡ s }

    // Exactly the commands that the machine records have a record.
    ensures recorded { (s : State) (c : Command) → is_some (inverse s c) ≡ changes c }
    ensures counted_recorded { (r : Refusal) → is_some (inverse_of_refusal r) ≡ is_counted r }
{}

/// A journal describes a past. That of an empty journal is empty. With a recorded command in front, read from the state
/// after that command, it is the command with the state before it, then the rest of the past as read from that state.
pub fn journal_is_a_past()
    ensures empty { (s : State) → past_of s [] ≡ [] }
    ensures accepted { (slots : ℕ) (s : State) (c : Command) (i : Inverse)
        (journal : List (Command × Inverse)) → refusal slots s c ≡ None → inverse s c ≡ Some i
        → past_of (after s c) ((c, i) ∷ journal) ≡ (c, s) ∷ past_of s journal }
    ensures counted { (s : State) (c : Command) (r : Refusal) (i : Inverse)
        (journal : List (Command × Inverse)) → inverse_of_refusal r ≡ Some i
        → past_of (after_refusal s r) ((c, i) ∷ journal) ≡ (c, s) ∷ past_of s journal }
{}
