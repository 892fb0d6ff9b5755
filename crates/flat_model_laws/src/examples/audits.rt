//! Worked examples of an audit, each with its result. Session 0 ran the commands 0 and 2, session 1
//! the command 1.

ghost use Rattle.std.specs.Prelude.{◌≡◌, ◌≢◌, ◌∷◌, []};
ghost use Rattle.flat_model.specs.Log.{IsLegal};
ghost use Rattle.flat_model.specs.Command.{Done};
ghost use Rattle.flat_model.specs.Audit.{Stranger, Mismatch, Missing, AreEntries, FirstFault};
ghost use Rattle.flat_model_laws.specs.AuditExamples.{
  made,
  shown,
  undone,
  Exchange,
  entry,
  receipt,
  session,
  three,
};

/// All receipts, with the sessions in either order.
pub fn all_receipts()
    ensures given { (a b c : Exchange)
        → AreEntries 2 (three a b c) (session 0 (receipt 0 a ∷ receipt 2 c ∷ [])
        ∷ session 1 (receipt 1 b ∷ []) ∷ []) }
    ensures turned { (a b c : Exchange) → AreEntries 2 (three a b c) (session 1 (receipt 1 b ∷ [])
        ∷ session 0 (receipt 0 a ∷ receipt 2 c ∷ []) ∷ []) }
{}

/// The last receipt is missing.
pub fn receipt_taken_out()
    ensures { (a b c : Exchange) → FirstFault 2 (three a b c) (session 0 (receipt 0 a ∷ [])
        ∷ session 1 (receipt 1 b ∷ []) ∷ []) (Missing 2) }
{}

/// A reply is changed.
pub fn reply_changed()
    ensures { (a b c x : Exchange) → x.reply ≢ b.reply
        → FirstFault 2 (three a b c) (session 0 (receipt 0 a ∷ receipt 2 c ∷ [])
        ∷ session 1 (receipt 1 x ∷ []) ∷ []) (Mismatch 1) }
{}

/// A copy of receipt 0 is at the end of the other session's list too.
pub fn receipt_copied()
    ensures { (a b c : Exchange)
        → FirstFault 2 (three a b c) (session 0 (receipt 0 a ∷ receipt 2 c ∷ [])
        ∷ session 1 (receipt 1 b ∷ receipt 0 a ∷ []) ∷ []) (Stranger 1) }
{}

/// The receipts of the two sessions are exchanged.
pub fn receipts_exchanged()
    ensures { (a b c : Exchange)
        → FirstFault 2 (three a b c) (session 0 (receipt 2 c ∷ receipt 0 a ∷ [])
        ∷ session 1 (receipt 1 b ∷ []) ∷ []) (Stranger 0) }
{}

/// If there are several faults, the first in the given order is returned: a changed reply; then a
/// number that came before, and a session that is not one of the desk's.
pub fn first_of_several()
    ensures { (a b c x : Exchange) → x.reply ≢ a.reply
        → FirstFault 2 (three a b c) (session 0 (receipt 0 x ∷ receipt 0 a ∷ [])
        ∷ session 7 (receipt 1 b ∷ []) ∷ []) (Mismatch 0) }
{}

/// A receipt has a number beyond the log.
pub fn receipt_past_the_log()
    ensures { (a b c : Exchange)
        → FirstFault 2 (three a b c) (session 0 (receipt 0 a ∷ receipt 3 c ∷ [])
        ∷ session 1 (receipt 1 b ∷ []) ∷ []) (Stranger 0) }
{}

/// A log with one entry, by session 0: that session has another number, is not handed in, or is
/// handed in alone. A session without receipts needs nothing.
pub fn one_entry()
    ensures renumbered { (a : Exchange) → FirstFault 2 (entry 0 a
        ∷ []) (session 2 (receipt 0 a ∷ []) ∷ session 1 [] ∷ []) (Stranger 2) }
    ensures other_alone { (a : Exchange)
        → FirstFault 2 (entry 0 a ∷ []) (session 1 [] ∷ []) (Missing 0) }
    ensures alone { (a : Exchange)
        → AreEntries 2 (entry 0 a ∷ []) (session 0 (receipt 0 a ∷ []) ∷ []) }
    ensures without_receipts { (a : Exchange)
        → AreEntries 2 (entry 0 a ∷ []) (session 7 [] ∷ session 0 (receipt 0 a ∷ []) ∷ []) }
{}

/// Making a group, reading its count and undoing, with the reply to the second command changed.
pub fn made_shown_undone()
    ensures legal { IsLegal 256 (three made shown undone) }
    ensures changed { FirstFault 2 (three made shown undone)
        (session 0 (receipt 0 made ∷ receipt 2 undone ∷ [])
        ∷ session 1 (receipt 1 (record shown { reply = Done }) ∷ []) ∷ []) (Mismatch 1) }
{}
