//! What the engine of the C library answers: lines, lists and numbers.

ghost use Rattle.std.specs.Prelude.{◌≡◌, ◌≤◌, ◌<◌, ◌⊎◌, ◌↔◌, ◌∷◌, ℕ, true, false, List, [], Some, Ok, Err, codes, decimal, length, take};
ghost use Rattle.std.specs.FinMap.{get};
ghost use Rattle.flat_model.specs.Path.{Path, is_root};
ghost use Rattle.flat_model.specs.PathText.{PathFault, read_path};
ghost use Rattle.flat_model.specs.State.{At, Attr, State, Unlimited};
ghost use Rattle.flat_model.specs.Counts.{IsInhabited, children, current, is_group};
ghost use Rattle.flat_model.specs.File.{LimitOf, PidsMax, PidsPeak};
ghost use Rattle.flat_model.specs.FileText.{file_text, line};
ghost use Rattle.flat_model.specs.Command.{Command, Exit};
ghost use Rattle.flat_model.specs.Machine.{new_machine, tick};
ghost use Rattle.flat_model.specs.Replies.{reply_bytes};
ghost use Rattle.flat_model.specs.Trace.{Line, Run, read_line};
ghost use Rattle.undo_journal.specs.Slots.{slots};
ghost use Rattle.undo_journal.specs.Timeline.{Timeline, from_start};
ghost use Rattle.line_engine.specs.LineAnswers.{AnswersLine};
ghost use Rattle.line_engine.specs.Listings.{TellsChildren, TellsGroup, TellsGroups, TellsHistory, TellsSubtree, all_groups, subtree};
ghost use Rattle.line_engine.specs.Numbers.{TellsNumber, peak_number, pids_limit, populated_number};
ghost use Rattle.line_engine.specs.declared.answer.Answer.{Answer};
ghost use Rattle.line_engine.specs.declared.answer.Answer.TheVariants as answer;
ghost use Rattle.line_engine.specs.declared.listing.Found.{Found};
ghost use Rattle.line_engine.specs.declared.listing.Found.TheVariants as found;
ghost use Rattle.line_engine.specs.declared.listing.Listing.{Listing};
ghost use Rattle.line_engine.specs.declared.listing.Listing.TheVariants as listing;
ghost use Rattle.line_engine.specs.declared.numbers.Number.{Number};
ghost use Rattle.line_engine.specs.declared.numbers.Number.TheVariants as number;

/// An answer's bytes fit into the buffer, and no buffer has both an answer and too little room for it. A command that was
/// answered has run; out of memory leaves the engine unchanged, and a command is never skipped.
pub fn lines_are_answered_once()
    ensures fits { (t u : Timeline) (n len code : ℕ) (l : Line) (out : List ℕ)
        → AnswersLine t n l out (answer.Answered len code) u → len ≤ length out }
    ensures lacks { (t u : Timeline) (n needed : ℕ) (l : Line) (out : List ℕ)
        → AnswersLine t n l out (answer.TooSmall needed) u → (length out < needed) × (u ≡ t) }
    ensures one { (t u v : Timeline) (n len code needed : ℕ) (l : Line) (out : List ℕ)
        → AnswersLine t n l out (answer.Answered len code) u → AnswersLine t n l out (answer.TooSmall needed) v → ⊥ }
    ensures ran { (t u : Timeline) (n len code : ℕ) (c : Command) (out : List ℕ)
        → AnswersLine t n (Run c) out (answer.Answered len code) u
        → (u.machine ≡ (tick slots t.machine c).0) × (take len out ≡ reply_bytes n (tick slots t.machine c).1) }
    ensures memory { (t u : Timeline) (n : ℕ) (l : Line) (out : List ℕ)
        → AnswersLine t n l out answer.OutOfMemory u → u ≡ t }
    ensures skipped { (t u : Timeline) (n : ℕ) (c : Command) (out : List ℕ)
        → AnswersLine t n (Run c) out answer.Skipped u → ⊥ }
{}

/// The answers to a comment, to a line with a fault and to an undo at the start, with their bytes and codes.
pub fn answers_to_three_lines()
    ensures comment { (t u : Timeline) (n : ℕ) (out : List ℕ) (a : Answer)
        → AnswersLine t n (read_line (codes "# note")) out a u ↔ ((u ≡ t) × (a ≡ answer.Skipped)) }
    ensures fault { (t u : Timeline) (len code : ℕ) (out : List ℕ)
        → AnswersLine t 7 (read_line (codes "cat / cgroup.kill")) out (answer.Answered len code) u
        ↔ ((u ≡ t) × (len ≡ 20) × (take len out ≡ codes "7 refused direction\n") × (code ≡ 35)) }
    ensures no_room { (t u : Timeline) (needed : ℕ) (out : List ℕ)
        → AnswersLine t 7 (read_line (codes "cat / cgroup.kill")) out (answer.TooSmall needed) u
        ↔ ((u ≡ t) × (needed ≡ 20) × (length out < 20)) }
    ensures undo { (u : Timeline) (len code : ℕ) (out : List ℕ)
        → AnswersLine (from_start new_machine) 1 (read_line (codes "undo")) out (answer.Answered len code) u
        → (u ≡ from_start new_machine) × (len ≡ 18) × (take len out ≡ codes "1 refused nothing\n") × (code ≡ 14) }
{}

/// The lists of the groups `/`, `/a`, `/a/b` and `/c`: each name or path with a zero byte behind it.
pub fn lists_of_four_groups()
    ensures children { (s : State) (out : List ℕ) (len count : ℕ) → is_group s [] ≡ true
        → children s [] ≡ (codes "a" ∷ []) ∷ (codes "c" ∷ []) ∷ []
        → TellsChildren s (read_path (codes "/")) out (listing.Listed len count)
        ↔ ((len ≡ 4) × (take len out ≡ 97 ∷ 0 ∷ 99 ∷ 0 ∷ []) × (count ≡ 2)) }
    ensures groups { (s : State) (out : List ℕ) (len count : ℕ)
        → all_groups s ≡ [] ∷ (codes "a" ∷ []) ∷ (codes "a" ∷ codes "b" ∷ []) ∷ (codes "c" ∷ []) ∷ []
        → TellsGroups s out (listing.Listed len count)
        ↔ ((len ≡ 13) × (take len out ≡ 47 ∷ 0 ∷ 47 ∷ 97 ∷ 0 ∷ 47 ∷ 97 ∷ 47 ∷ 98 ∷ 0 ∷ 47 ∷ 99 ∷ 0 ∷ []) × (count ≡ 4)) }
    ensures subtree { (s : State) (out : List ℕ) (len count : ℕ) → is_group s (codes "a" ∷ []) ≡ true
        → subtree s (codes "a" ∷ []) ≡ (codes "a" ∷ []) ∷ (codes "a" ∷ codes "b" ∷ []) ∷ []
        → TellsSubtree s (read_path (codes "/a")) out (listing.Listed len count)
        ↔ ((len ≡ 8) × (take len out ≡ 47 ∷ 97 ∷ 0 ∷ 47 ∷ 97 ∷ 47 ∷ 98 ∷ 0 ∷ []) × (count ≡ 2)) }
    ensures no_room { (s : State) (out : List ℕ) (needed : ℕ)
        → all_groups s ≡ [] ∷ (codes "a" ∷ []) ∷ (codes "a" ∷ codes "b" ∷ []) ∷ (codes "c" ∷ []) ∷ []
        → TellsGroups s out (listing.TooSmall needed) ↔ ((needed ≡ 13) × (length out < 13)) }
{}

/// Without a group at the path, or without a path, nothing is listed.
pub fn lists_of_no_group()
    ensures children { (s : State) (p : Path) (out : List ℕ) (a : Listing) → is_group s p ≡ false
        → TellsChildren s (Ok p) out a ↔ ((a ≡ listing.NoGroup) ⊎ (a ≡ listing.OutOfMemory)) }
    ensures subtree { (s : State) (p : Path) (out : List ℕ) (a : Listing) → is_group s p ≡ false
        → TellsSubtree s (Ok p) out a ↔ ((a ≡ listing.NoGroup) ⊎ (a ≡ listing.OutOfMemory)) }
    ensures no_path_of_children { (s : State) (out : List ℕ) (a : Listing)
        → TellsChildren s (read_path (codes "a")) out a ↔ (a ≡ listing.BadPath) }
    ensures no_path_of_subtree { (s : State) (out : List ℕ) (a : Listing)
        → TellsSubtree s (read_path (codes "a")) out a ↔ (a ≡ listing.BadPath) }
    ensures all { (s : State) (out : List ℕ)
        → ¬ (TellsGroups s out listing.NoGroup) × ¬ (TellsGroups s out listing.BadPath) }
{}

/// The answer says whether a group exists, unless memory runs out.
pub fn groups_that_are_found()
    ensures there { (s : State) (p : Path) (a : Found) → is_group s p ≡ true
        → TellsGroup s (Ok p) a ↔ ((a ≡ found.There) ⊎ (a ≡ found.OutOfMemory)) }
    ensures absent { (s : State) (p : Path) (a : Found) → is_group s p ≡ false
        → TellsGroup s (Ok p) a ↔ ((a ≡ found.NoGroup) ⊎ (a ≡ found.OutOfMemory)) }
    ensures no_path { (s : State) (a : Found) → TellsGroup s (read_path (codes "/a/")) a ↔ (a ≡ found.BadPath) }
{}

/// The history of two exits, from each place on, oldest first.
pub fn history_of_two()
    ensures all { (s t : State) (out : List ℕ) (len count : ℕ)
        → TellsHistory ((Exit 2, s) ∷ (Exit 1, t) ∷ []) 0 out (listing.Listed len count)
        ↔ ((len ≡ 14) × (take len out ≡ codes "exit 1\nexit 2\n") × (count ≡ 2)) }
    ensures later { (s t : State) (out : List ℕ) (len count : ℕ)
        → TellsHistory ((Exit 2, s) ∷ (Exit 1, t) ∷ []) 1 out (listing.Listed len count)
        ↔ ((len ≡ 7) × (take len out ≡ codes "exit 2\n") × (count ≡ 1)) }
    ensures beyond { (s t : State) (out : List ℕ) (len count : ℕ)
        → TellsHistory ((Exit 2, s) ∷ (Exit 1, t) ∷ []) 2 out (listing.Listed len count)
        ↔ ((len ≡ 0) × (take len out ≡ []) × (count ≡ 0)) }
    ensures no_room { (s t : State) (out : List ℕ) (needed : ℕ)
        → TellsHistory ((Exit 2, s) ∷ (Exit 1, t) ∷ []) 0 out (listing.TooSmall needed)
        ↔ ((needed ≡ 14) × (length out < 14)) }
{}

/// The numbers are those of the group's files. The greatest u64 stands for `max`. A group is populated by 1 exactly if a
/// process is in it or below it.
pub fn numbers_are_of_the_files()
    ensures peak { (s : State) (p : Path) → file_text s p PidsPeak ≡ line (decimal (peak_number s p)) }
    ensures limit { (s : State) (p : Path) (a : Attr) (n : ℕ) → get s.groups p ≡ Some a → a.limits.pids ≡ At n
        → (pids_limit s p ≡ n) × (file_text s p (LimitOf PidsMax) ≡ line (decimal n)) }
    ensures no_limit { (s : State) (p : Path) (a : Attr) → get s.groups p ≡ Some a → a.limits.pids ≡ Unlimited
        → (pids_limit s p ≡ 18446744073709551615) × (file_text s p (LimitOf PidsMax) ≡ codes "max\n") }
    ensures populated { (s : State) (p : Path) → (populated_number s p ≡ 1) ↔ IsInhabited s p }
    ensures empty { (s : State) (p : Path) → (populated_number s p ≡ 0) ↔ (current s p ≡ 0) }
{}

/// A group other than the root has its number; the root has none.
pub fn numbers_that_are_told()
    ensures told { (s : State) (of : State → Path → ℕ) (p : Path) (a : Number) → is_root p ≡ false → is_group s p ≡ true
        → TellsNumber s of (Ok p) a ↔ ((a ≡ number.Told (of s p)) ⊎ (a ≡ number.OutOfMemory)) }
    ensures absent { (s : State) (of : State → Path → ℕ) (p : Path) (a : Number) → is_root p ≡ false → is_group s p ≡ false
        → TellsNumber s of (Ok p) a ↔ ((a ≡ number.NoGroup) ⊎ (a ≡ number.OutOfMemory)) }
    ensures root { (s : State) (of : State → Path → ℕ) (a : Number) → is_group s [] ≡ true
        → TellsNumber s of (read_path (codes "/")) a ↔ ((a ≡ number.NoFile) ⊎ (a ≡ number.OutOfMemory)) }
    ensures no_path { (s : State) (of : State → Path → ℕ) (f : PathFault) (a : Number)
        → TellsNumber s of (Err f) a ↔ (a ≡ number.BadPath) }
{}
