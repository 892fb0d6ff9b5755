//! The laws of the definitions of `sessions`: what a call of a session leaves, in the session and behind the lock, and the
//! result of an audit.

ghost use Rattle.std.specs.Prelude.{
  ◌≡◌,
  ◌≢◌,
  ◌⊎◌,
  ◌↔◌,
  ◌++◌,
  ◌∷◌,
  ◌+◌,
  ◌≤◌,
  ℕ,
  Bool,
  true,
  false,
  List,
  [],
  Option,
  Some,
  None,
  Ok,
  Err,
  length,
  slice_index_or,
  vec_len,
};
ghost use denote.Ref.{Bor};
ghost use Rattle.std.specs.declared.alloc.Global.{Global};
ghost use Rattle.flat_model.specs.Audit.{AreEntries};
ghost use Rattle.flat_model_laws.specs.AuditExamples.{Exchange, entry, receipt, session, three};
ghost use Rattle.flat_model.specs.Command as model;
ghost use Rattle.flat_model.specs.Log.{Entry, Receipt, Session};
ghost use Rattle.undo_journal.specs.Answer.{Answers};
ghost use Rattle.undo_journal.specs.declared.reply.Reply.{Reply};
ghost use Rattle.undo_journal.specs.declared.reply.Reply.TheVariants as reply;
ghost use Rattle.undo_journal.specs.CommandMeaning.{reply_of};
ghost use Rattle.undo_journal.specs.Timeline.{Timeline};
ghost use Rattle.pids_charge.specs.declared.plain.TheConstants.{SLOTS};
ghost use Rattle.sessions.specs.declared.book.Book.{Book};
ghost use Rattle.sessions.specs.declared.state.DeskState.{DeskState};
ghost use Rattle.sessions.specs.declared.fault.CloseFault.{CloseFault};
ghost use Rattle.sessions.specs.declared.fault.CloseFault.TheVariants as fault;
ghost use Rattle.sessions.specs.declared.fault.RunFault.{RunFault};
ghost use Rattle.sessions.specs.declared.fault.RunFault.TheVariants as run_fault;
ghost use Rattle.sessions.specs.Faults.{IsFirstFault, IsRefused};
ghost use Rattle.sessions.specs.SessionMeaning.{slots, answer_of};
ghost use Rattle.sessions.specs.Receipts.{Last, LastAt, AddsReceipt, AddsReceiptAt};
ghost use Rattle.sessions.specs.Marks.{AllClear, IsFirstClear};
ghost use Rattle.sessions.specs.Served.{
  Answer,
  AnswerAt,
  AnswersTwice,
  Appends,
  AppendsAt,
  IsEarly,
  IsLate,
  IsServing,
  NamesNoTurn,
  Served,
  log_in,
  log_len,
  reached_of,
};
ghost use Rattle.sessions.specs.Waits.{AreDue, AreLeft, AreNoEarlier, HasCome, IsNoLater, IsWoken};

/// A call that ran keeps the session's number and receipts, and appends one receipt: the one that it returns, of the command
/// that was run. A call that failed leaves the session unchanged.
pub fn receipts_of_a_call()
    ensures ran { (c : model.Command) (before after : Session) (r : Bor Receipt)
        → AddsReceipt c before after (Ok r) ↔ ((after.number ≡ before.number)
        × (after.receipts ≡ before.receipts ++ r.now ∷ []) × (r.now.command ≡ c)) }
    ensures one_more { (c : model.Command) (before after : Session) (r : Bor Receipt)
        → AddsReceipt c before after (Ok r)
        → length after.receipts ≡ length before.receipts + 1 }
    ensures failed { (c : model.Command) (before after : Session) (e : RunFault)
        → AddsReceipt c before after (Err e)
        ↔ ((after.number ≡ before.number) × (after.receipts ≡ before.receipts)) }
    ensures last { (c : model.Command) (before after : Session)
        → Last c before after ↔ ((n : ℕ) × (answer : model.Reply)
        × (after ≡ session before.number (before.receipts
        ++ record { number = n; command = c; reply = answer } ∷ []))) }
    ensures appended { (c : model.Command) (before after : List Receipt)
        → Appends c before after ↔ ((n : ℕ) × (answer : model.Reply)
        × (after ≡ before ++ record { number = n; command = c; reply = answer } ∷ [])) }
{}

/// A call at a turn leaves the same, and the receipt's number is the turn.
pub fn receipts_of_a_call_at_a_turn()
    ensures ran { (turn : ℕ) (c : model.Command) (before after : Session) (r : Bor Receipt)
        → AddsReceiptAt turn c before after (Ok r) ↔ ((after.number ≡ before.number)
        × (after.receipts ≡ before.receipts ++ r.now ∷ [])
        × (r.now ≡ record { number = turn; command = c; reply = r.now.reply })) }
    ensures one_more { (turn : ℕ) (c : model.Command) (before after : Session) (r : Bor Receipt)
        → AddsReceiptAt turn c before after (Ok r) → AddsReceipt c before after (Ok r) }
    ensures failed { (turn : ℕ) (c : model.Command) (before after : Session) (e : RunFault)
        → AddsReceiptAt turn c before after (Err e)
        ↔ ((after.number ≡ before.number) × (after.receipts ≡ before.receipts)) }
    ensures last { (turn : ℕ) (c : model.Command) (before after : Session)
        → LastAt turn c before after ↔ ((answer : model.Reply)
        × (after ≡ session before.number (before.receipts
        ++ record { number = turn; command = c; reply = answer } ∷ []))) }
    ensures appended { (turn : ℕ) (c : model.Command) (before after : List Receipt)
        → AppendsAt turn c before after ↔ ((answer : model.Reply)
        × (after ≡ before ++ record { number = turn; command = c; reply = answer } ∷ [])) }
{}

/// A turn has passed if the log has an entry with its number: with five entries turn 4 has passed, and turn 5 has not. A
/// call without a turn never returns that one has passed, and the other two faults say nothing about turns.
pub fn turns_that_passed()
    ensures exactly { (turn len : ℕ) → IsLate turn (run_fault.TurnPassed len)
        ↔ ((k : ℕ) × (len ≡ turn + 1 + k)) }
    ensures passed { IsLate 4 (run_fault.TurnPassed 5) }
    ensures next { IsLate 5 (run_fault.TurnPassed 5) → ⊥ }
    ensures later { IsLate 6 (run_fault.TurnPassed 5) → ⊥ }
    ensures without_a_turn { (e : RunFault)
        → NamesNoTurn e ↔ ((e ≡ run_fault.Halted) ⊎ (e ≡ run_fault.OutOfMemory)) }
    ensures never { (len : ℕ) → NamesNoTurn (run_fault.TurnPassed len) → ⊥ }
    ensures others { (turn : ℕ) (e : RunFault) → NamesNoTurn e → IsLate turn e }
{}

/// Apart from out of memory, at most one fault is the first; there is none exactly if the receipts are the log's entries.
/// Out of memory is possible for any receipts.
pub fn first_faults()
    ensures one { (n : ℕ) (log : List Entry) (ss : List Session) (f g : CloseFault)
        → f ≢ fault.OutOfMemory → g ≢ fault.OutOfMemory
        → IsFirstFault n log ss f → IsFirstFault n log ss g → f ≡ g }
    ensures none { (n : ℕ) (log : List Entry) (ss : List Session) (f : CloseFault)
        → AreEntries n log ss → IsFirstFault n log ss f → f ≡ fault.OutOfMemory }
    ensures found { (n : ℕ) (log : List Entry) (ss : List Session) → AreEntries n log ss
        ⊎ ((f : CloseFault) × (f ≢ fault.OutOfMemory) × IsFirstFault n log ss f) }
    ensures memory { (n : ℕ) (log : List Entry) (ss : List Session)
        → IsFirstFault n log ss fault.OutOfMemory }
{}

/// Three commands by the sessions 0, 1 and 0: a receipt left out is missing, one with another reply differs, and one with a
/// number beyond the log makes its session a stranger.
pub fn first_faults_of_three()
    ensures missing { (a b c : Exchange)
        → IsFirstFault 2 (three a b c) (session 0 (receipt 0 a ∷ [])
        ∷ session 1 (receipt 1 b ∷ []) ∷ []) (fault.Missing 2) }
    ensures differs { (a b c x : Exchange) → x.reply ≢ b.reply
        → IsFirstFault 2 (three a b c) (session 0 (receipt 0 a ∷ receipt 2 c ∷ [])
        ∷ session 1 (receipt 1 x ∷ []) ∷ []) (fault.Mismatch 1) }
    ensures stranger { (a b c : Exchange)
        → IsFirstFault 2 (three a b c) (session 0 (receipt 0 a ∷ receipt 3 c ∷ [])
        ∷ session 1 (receipt 1 b ∷ []) ∷ []) (fault.Stranger 0) }
{}

/// A desk's fault is that of a legal log, whichever it is. Without sessions only the first entry can be missing. A receipt
/// whose reply no machine gives is never that of an entry, so no entry after it is missing.
pub fn faults_of_legal_logs()
    ensures memory { (n : ℕ) (ss : List Session) → IsRefused n ss fault.OutOfMemory }
    ensures missing { (n i : ℕ) → IsRefused n [] (fault.Missing i) ↔ (i ≡ 0) }
    ensures no_stranger { (n k : ℕ) → IsRefused n [] (fault.Stranger k) → ⊥ }
    ensures no_mismatch { (n i : ℕ) → IsRefused n [] (fault.Mismatch i) → ⊥ }
    ensures illegal { (n i : ℕ) → IsRefused n (session 0 (receipt 0 (record { command = model.Undo; reply = model.Done }) ∷ []) ∷ []) (fault.Missing i)
        → ⊥ }
{}

/// A desk has as many slots as a plain meter, so a rehearsal has the same replies as a desk.
pub fn slots_of_a_desk()
    ensures { slots ≡ SLOTS }
{}

/// The reply in an entry or a receipt is the reply that was given.
pub fn answers_that_are_kept()
    ensures same { (r : Reply Global) → reply_of r ≢ None → Some (answer_of r) ≡ reply_of r }
    ensures done { answer_of {A = Global} reply.Done ≡ model.Done }
    ensures nothing { answer_of {A = Global} reply.NothingToUndo ≡ model.NothingToUndo }
{}

/// The reply in the log and the reply in the receipt are both the machine's, so they are equal.
pub fn answers_for_log_and_receipt()
    ensures both { (old new : Timeline) (c : model.Command) (r q : Reply Global)
        → AnswersTwice old c r q new ↔ (Answers slots old c r new × Answers slots old c q new) }
    ensures same { (old new : Timeline) (c : model.Command) (r q : Reply Global)
        → AnswersTwice old c r q new → reply_of r ≡ reply_of q }
{}

/// A turn is early if the log has fewer entries. It is never early at a halted or closed desk, or after it has passed.
pub fn turns_that_are_early()
    ensures exactly { (state : DeskState) (book : Book) (turn : ℕ) → state.book ≡ Some book
        → IsEarly state turn ↔ ((state.is_halted ≡ false) × (vec_len book.log + 1 ≤ turn)) }
    ensures closed { (state : DeskState) (turn : ℕ) → state.book ≡ None → IsEarly state turn → ⊥ }
    ensures halted { (state : DeskState) (turn : ℕ) → state.is_halted ≡ true → IsEarly state turn → ⊥ }
    ensures not_late { (state : DeskState) (turn : ℕ) → IsEarly state turn
        → IsLate turn (run_fault.TurnPassed (log_len state)) → ⊥ }
    ensures no_log { (state : DeskState) → state.book ≡ None → log_len state ≡ 0 }
{}

/// A turn has come exactly if it is not early: with five entries turn 5 has come, and turn 6 has not. At a halted or closed
/// desk every turn has come.
pub fn turns_that_have_come()
    ensures exactly { (state : DeskState) (turn : ℕ)
        → HasCome (reached_of state) turn ↔ (IsEarly state turn → ⊥) }
    ensures reached { HasCome (Some 5) 5 }
    ensures next { HasCome (Some 5) 6 → ⊥ }
    ensures halted { HasCome None 6 }
{}

/// Turns 5, 6 and 4 are noted, at the indices 0, 2 and 3. With five entries those of 0 and 3 are due and removed, and that of
/// 2 stays. Once the desk is halted, all three are due.
pub fn turns_that_are_due()
    ensures due { AreDue (Some 5) (Some 5 ∷ None ∷ Some 6 ∷ Some 4 ∷ [])
        (true ∷ false ∷ false ∷ true ∷ []) }
    ensures left { AreLeft (Some 5) (Some 5 ∷ None ∷ Some 6 ∷ Some 4 ∷ [])
        (None ∷ None ∷ Some 6 ∷ None ∷ []) }
    ensures halted { AreDue None (Some 5 ∷ None ∷ Some 6 ∷ Some 4 ∷ [])
        (true ∷ false ∷ true ∷ true ∷ []) }
    ensures none_left { AreLeft None (Some 5 ∷ None ∷ Some 6 ∷ Some 4 ∷ []) [] }
    ensures no_other { (due : List Bool)
        → AreDue (Some 5) (Some 5 ∷ None ∷ Some 6 ∷ Some 4 ∷ []) due
        → slice_index_or due 2 false ≡ false }
    ensures kept { (after : List (Option ℕ))
        → AreLeft (Some 5) (Some 5 ∷ None ∷ Some 6 ∷ Some 4 ∷ []) after
        → slice_index_or after 2 None ≡ Some 6 }
{}

/// A session that waits for turn 5 is woken if turn 5 or an earlier one is noted. None of the turns 5, 6 and 4 is earlier
/// than 4.
pub fn turns_that_are_noted()
    ensures same { IsWoken 5 (Some 5) }
    ensures earlier { IsWoken 5 (Some 4) }
    ensures later { IsWoken 5 (Some 6) → ⊥ }
    ensures nothing { IsWoken 5 None → ⊥ }
    ensures kept { IsNoLater (Some 5) (Some 5) }
    ensures lost { IsNoLater (Some 5) None → ⊥ }
    ensures moved { IsNoLater (Some 5) (Some 6) → ⊥ }
    ensures new { IsNoLater None (Some 6) }
    ensures least { AreNoEarlier (Some 4) (Some 5 ∷ None ∷ Some 6 ∷ Some 4 ∷ []) }
    ensures not_least { AreNoEarlier (Some 5) (Some 5 ∷ None ∷ Some 6 ∷ Some 4 ∷ []) → ⊥ }
    ensures without { AreNoEarlier None (Some 5 ∷ None ∷ Some 6 ∷ Some 4 ∷ []) → ⊥ }
    ensures empty { AreNoEarlier None (None ∷ None ∷ []) }
{}

/// A desk serves until it is halted or closed. A call returns `Halted` exactly if the desk doesn't serve, and `TurnPassed`
/// exactly if the log is longer than the turn, with the log's length. A call that ran leaves a log with one more entry.
pub fn answers_behind_the_lock()
    ensures serving { (state : DeskState) (book : Book) → state.book ≡ Some book
        → IsServing state ↔ (state.is_halted ≡ false) }
    ensures closed { (state : DeskState) → state.book ≡ None → IsServing state → ⊥ }
    ensures halted { (state : DeskState)
        → Answer state (Err run_fault.Halted) ↔ (IsServing state → ⊥) }
    ensures halted_at { (turn : ℕ) (state : DeskState)
        → AnswerAt turn state (Err run_fault.Halted) ↔ (IsServing state → ⊥) }
    ensures passed { (turn len : ℕ) (state : DeskState)
        → AnswerAt turn state (Err (run_fault.TurnPassed len))
        ↔ (IsServing state × (len ≡ log_len state) × (turn + 1 ≤ len)) }
    ensures never { (len : ℕ) (state : DeskState) → Answer state (Err (run_fault.TurnPassed len)) → ⊥ }
    ensures in_turn { (turn : ℕ) (state : DeskState) (u : Unit {0})
        → AnswerAt turn state (Ok u) ↔ (IsServing state × (log_len state ≡ turn)) }
    ensures longer { (session : ℕ) (c : model.Command) (before after : DeskState) (rs more : List Receipt)
        → Served session c before after rs more
        → length (log_in after.book) ≡ length (log_in before.book) + 1 }
    ensures receipt { (session : ℕ) (c : model.Command) (before after : DeskState) (rs more : List Receipt)
        → Served session c before after rs more → AppendsAt (log_len before) c rs more }
{}

/// There is at most one first number without a mark, and it is not beyond the marks.
pub fn marks_of_an_audit()
    ensures third { IsFirstClear (true ∷ true ∷ false ∷ false ∷ []) 2 }
    ensures one { (marks : List Bool) (i j : ℕ) → IsFirstClear marks i → IsFirstClear marks j
        → i ≡ j }
    ensures all_marked { (i : ℕ) → IsFirstClear (true ∷ true ∷ []) i → ⊥ }
    ensures clear { AllClear 3 (false ∷ false ∷ false ∷ []) }
    ensures not_clear { AllClear 3 (false ∷ true ∷ false ∷ []) → ⊥ }
    ensures as_many { (n : ℕ) (marks : List Bool) → AllClear n marks → length marks ≡ n }
{}
