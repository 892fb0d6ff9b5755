//! A worked example of a log: a group is made, its count is shown, and the group is undone.

ghost use Rattle.std.specs.Prelude.{◌≡◌};
ghost use Rattle.flat_model.specs.Command.{Done};
ghost use Rattle.flat_model.specs.Machine.{new_machine};
ghost use Rattle.flat_model.specs.Log.{IsLegal, log_end};
ghost use Rattle.flat_model_laws.specs.AuditExamples.{made, shown, undone, three};

/// The log ends at the machine's start. It is legal (`audits::made_shown_undone`), but not with
/// another reply to the second or third command.
pub fn group_made_and_undone()
    ensures end { log_end 256 (three made shown undone) ≡ new_machine }
    ensures other_second { IsLegal 256 (three made (record shown { reply = Done }) undone) → ⊥ }
    ensures other_third { IsLegal 256 (three made shown (record undone { reply = Done })) → ⊥ }
{}
