//! The laws of what the calls return and leave: by each status, and for lines, texts and groups written out.
//!
//! Each function is proof only. They stand here since no crate can use a static library.

ghost use Rattle.std.specs.Prelude.{◌≡◌, ◌≢◌, ◌⊎◌, ◌↔◌, ◌++◌, ◌<◌, ◌∷◌, ℕ, true, false, List, [], Option, Some, None, Ok, Err, codes, flat_map, length, replicate, take};
ghost use Rattle.flat_model.specs.Command.{Exit};
ghost use Rattle.flat_model.specs.Counts.{is_group};
ghost use Rattle.flat_model.specs.Machine.{new_machine};
ghost use Rattle.flat_model.specs.Path.{Path, is_root};
ghost use Rattle.flat_model.specs.PathText.{PathFault};
ghost use Rattle.flat_model.specs.State.{State};
ghost use Rattle.flat_model.specs.Trace.{Line, read_line};
ghost use Rattle.undo_journal.specs.Timeline.{from_start};
ghost use Rattle.line_engine.specs.Listings.{all_groups};
ghost use Rattle.line_engine.specs.PathFaults.{fault_at};
ghost use Rattle.line_engine.specs.declared.engine.LineEngine.{LineEngine};
ghost use Rattle.c_library.specs.Status.{
  AnswersAt,
  ClosesHandle,
  CopiesAt,
  DepthAt,
  FindsAt,
  ForgetsAt,
  IsOpened,
  ListsAt,
  TellsAt,
  TellsChildrenOf,
  TellsFault,
  TellsGroupsOf,
  TellsHistoryOf,
  TellsSubtreeOf,
};
ghost use Rattle.c_library.specs.declared.info.Info.{Info};

/// A line is answered by status 6 exactly if the handle has no engine. The answers to a comment, to a line with a fault, with
/// room and without, and to an undo at the start.
pub fn answers_by_status()
    ensures closed { (n status : ℕ) (line : Line) (out : List ℕ) (info : Info) (new : Option LineEngine)
        → AnswersAt None n line out status info new → (status ≡ 6) × (new ≡ None) }
    ensures held { (e : LineEngine) (n status : ℕ) (line : Line) (out : List ℕ) (info : Info) (new : Option LineEngine)
        → AnswersAt (Some e) n line out status info new → status ≢ 6 }
    ensures comment { (e : LineEngine) (n status : ℕ) (out : List ℕ) (info : Info) (new : Option LineEngine)
        → AnswersAt (Some e) n (read_line (codes "# a")) out status info new → (status ≡ 5) × (new ≡ Some e) }
    ensures fault { (e : LineEngine) (out : List ℕ) (info : Info) (new : Option LineEngine)
        → AnswersAt (Some e) 7 (read_line (codes "cat / cgroup.kill")) out 2 info new
        → (info ≡ record { len = 20; count = 0; needed = 0; code = 35 }) × (take 20 out ≡ codes "7 refused direction\n") }
    ensures no_room { (e : LineEngine) (out : List ℕ) (info : Info) (new : Option LineEngine)
        → AnswersAt (Some e) 7 (read_line (codes "cat / cgroup.kill")) out 3 info new
        → (info ≡ record { len = 0; count = 0; needed = 20; code = 0 }) × (length out < 20) }
    ensures refused { (e : LineEngine) (out : List ℕ) (info : Info) (new : Option LineEngine) → e.engine ≡ from_start new_machine
        → AnswersAt (Some e) 1 (read_line (codes "undo")) out 1 info new
        → (info ≡ record { len = 18; count = 0; needed = 0; code = 14 }) × (take 18 out ≡ codes "1 refused nothing\n") }
{}

/// A handle gets an engine once: a new one, which has done nothing. A closed handle has none, so it can't be closed again.
pub fn handles_open_and_close()
    ensures opened { (new : Option LineEngine) → IsOpened None 0 new
        → (e : LineEngine) × (new ≡ Some e) × (e.engine ≡ from_start new_machine) }
    ensures memory { (new : Option LineEngine) → IsOpened None 4 new → new ≡ None }
    ensures others { (status : ℕ) (new : Option LineEngine) → IsOpened None status new → (status ≡ 0) ⊎ (status ≡ 4) }
    ensures again { (e : LineEngine) (status : ℕ) (new : Option LineEngine) → IsOpened (Some e) status new
        → (status ≡ 6) × (new ≡ Some e) }
    ensures closed { (h : Option LineEngine) (status : ℕ) (new : Option LineEngine) → ClosesHandle h status new → new ≡ None }
    ensures held { (e : LineEngine) (status : ℕ) (new : Option LineEngine) → ClosesHandle (Some e) status new → status ≡ 0 }
    ensures twice { (h : Option LineEngine) (s t : ℕ) (new again : Option LineEngine)
        → ClosesHandle h s new → ClosesHandle new t again → t ≡ 6 }
{}

/// The depth of a journal of two records is 2, and 0 once they were forgotten, which keeps groups and processes. A handle
/// without an engine has no depth.
pub fn journals_of_handles()
    ensures two { (e : LineEngine) (s t : State) (status depth : ℕ) (new : Option LineEngine)
        → e.engine.machine.past ≡ (Exit 2, s) ∷ (Exit 1, t) ∷ [] → DepthAt (Some e) status depth new
        → (status ≡ 0) × (depth ≡ 2) × (new ≡ Some e) }
    ensures closed { (status depth : ℕ) (new : Option LineEngine) → DepthAt None status depth new → (status ≡ 6) × (depth ≡ 0) }
    ensures forgotten { (e : LineEngine) (s t depth : ℕ) (new again : Option LineEngine)
        → ForgetsAt (Some e) s new → DepthAt new t depth again → (s ≡ 0) × (t ≡ 0) × (depth ≡ 0) }
    ensures kept { (e f : LineEngine) (s : ℕ) → ForgetsAt (Some e) s (Some f) → f.engine.machine.state ≡ e.engine.machine.state }
    ensures none { (s : ℕ) (new : Option LineEngine) → ForgetsAt None s new → (s ≡ 6) × (new ≡ None) }
{}

/// A copy leaves the engine that is copied. A handle with an engine keeps it; another one gets the same groups, processes and
/// journal, or nothing.
pub fn copies_of_handles()
    ensures source { (h to new new_to : Option LineEngine) (s : ℕ) → CopiesAt h to s new new_to → new ≡ h }
    ensures taken { (h new new_to : Option LineEngine) (held : LineEngine) (s : ℕ) → CopiesAt h (Some held) s new new_to
        → (s ≡ 6) × (new_to ≡ Some held) }
    ensures copied { (e : LineEngine) (new new_to : Option LineEngine) → CopiesAt (Some e) None 0 new new_to
        → (c : LineEngine) × (new_to ≡ Some c) × (c.engine ≡ e.engine) }
    ensures memory { (e : LineEngine) (new new_to : Option LineEngine) → CopiesAt (Some e) None 4 new new_to → new_to ≡ None }
    ensures nothing { (to new new_to : Option LineEngine) (s : ℕ) → CopiesAt None to s new new_to → (s ≡ 6) × (new_to ≡ to) }
{}

/// The lists of a handle: the groups `/`, `/a`, `/a/b` and `/c`, and the history of two exits from its second command on. No
/// list changes the engine.
pub fn lists_by_status()
    ensures groups { (e : LineEngine) (out : List ℕ) (info : Info) (new : Option LineEngine)
        → all_groups e.engine.machine.state ≡ [] ∷ (codes "a" ∷ []) ∷ (codes "a" ∷ codes "b" ∷ []) ∷ (codes "c" ∷ []) ∷ []
        → ListsAt TellsGroupsOf (Some e) out 0 info new
        → (info ≡ record { len = 13; count = 4; needed = 0; code = 0 })
        × (take 13 out ≡ 47 ∷ 0 ∷ 47 ∷ 97 ∷ 0 ∷ 47 ∷ 97 ∷ 47 ∷ 98 ∷ 0 ∷ 47 ∷ 99 ∷ 0 ∷ []) × (new ≡ Some e) }
    ensures history { (e : LineEngine) (s t : State) (out : List ℕ) (info : Info) (new : Option LineEngine)
        → e.engine.machine.past ≡ (Exit 2, s) ∷ (Exit 1, t) ∷ []
        → ListsAt (TellsHistoryOf 1) (Some e) out 0 info new
        → (info ≡ record { len = 7; count = 1; needed = 0; code = 0 }) × (take 7 out ≡ codes "exit 2\n") × (new ≡ Some e) }
    ensures no_children { (e : LineEngine) (p : Path) (out : List ℕ) (status : ℕ) (info : Info) (new : Option LineEngine)
        → is_group e.engine.machine.state p ≡ false → ListsAt (TellsChildrenOf (Ok p)) (Some e) out status info new
        → ((status ≡ 1) × (info ≡ record { len = 0; count = 0; needed = 0; code = 2 })) ⊎ (status ≡ 4) }
    ensures no_subtree { (e : LineEngine) (p : Path) (out : List ℕ) (status : ℕ) (info : Info) (new : Option LineEngine)
        → is_group e.engine.machine.state p ≡ false → ListsAt (TellsSubtreeOf (Ok p)) (Some e) out status info new
        → ((status ≡ 1) × (info ≡ record { len = 0; count = 0; needed = 0; code = 2 })) ⊎ (status ≡ 4) }
    ensures no_path { (e : LineEngine) (f : PathFault) (out : List ℕ) (status : ℕ) (info : Info) (new : Option LineEngine)
        → ListsAt (TellsChildrenOf (Err f)) (Some e) out status info new
        → (status ≡ 2) × (info ≡ record { len = 0; count = 0; needed = 0; code = 33 }) }
    ensures closed { (out : List ℕ) (status : ℕ) (info : Info) (new : Option LineEngine)
        → ListsAt TellsGroupsOf None out status info new → (status ≡ 6) × (new ≡ None) }
{}

/// Whether a group exists, and a number of it, by status: 0 for an existing group, 1 for none, and for the number also for the
/// root, 2 without a path, 4 out of memory, and 6 without an engine. Only status 0 comes with a number.
pub fn groups_and_numbers_by_status()
    ensures there { (e : LineEngine) (p : Path) (status : ℕ) (info : Info) (new : Option LineEngine)
        → is_group e.engine.machine.state p ≡ true → FindsAt (Some e) (Ok p) status info new
        → ((status ≡ 0) ⊎ (status ≡ 4)) × (new ≡ Some e) }
    ensures absent { (e : LineEngine) (p : Path) (status : ℕ) (info : Info) (new : Option LineEngine)
        → is_group e.engine.machine.state p ≡ false → FindsAt (Some e) (Ok p) status info new → (status ≡ 1) ⊎ (status ≡ 4) }
    ensures no_path { (e : LineEngine) (f : PathFault) (status : ℕ) (info : Info) (new : Option LineEngine)
        → FindsAt (Some e) (Err f) status info new → (status ≡ 2) × (info ≡ record { len = 0; count = 0; needed = 0; code = 33 }) }
    ensures closed { (f : PathFault) (status : ℕ) (info : Info) (new : Option LineEngine) → FindsAt None (Err f) status info new
        → (status ≡ 6) × (new ≡ None) }
    ensures told { (e : LineEngine) (of : State → Path → ℕ) (p : Path) (value : ℕ) (info : Info) (new : Option LineEngine)
        → TellsAt (Some e) of (Ok p) 0 value info new → (value ≡ of e.engine.machine.state p) × (is_root p ≡ false) × (new ≡ Some e) }
    ensures root { (e : LineEngine) (of : State → Path → ℕ) (value : ℕ) (info : Info) (new : Option LineEngine)
        → is_group e.engine.machine.state [] ≡ true → TellsAt (Some e) of (Ok []) 1 value info new
        → (value ≡ 0) × (info ≡ record { len = 0; count = 0; needed = 0; code = 12 }) }
    ensures no_number { (of : State → Path → ℕ) (f : PathFault) (status value : ℕ) (info : Info) (new : Option LineEngine)
        → TellsAt None of (Err f) status value info new → (status ≡ 6) × (value ≡ 0) }
{}

/// The number and the place of a text's first fault: of the empty name, of the byte, the name and the byte too many, and of the
/// name that is too long; two zeros for a path.
pub fn faults_of_texts()
    ensures path { (number at : ℕ) → TellsFault (fault_at (codes "/a")) number at ↔ ((number ≡ 0) × (at ≡ 0)) }
    ensures empty { (number at : ℕ) → TellsFault (fault_at (codes "/a//b")) number at ↔ ((number ≡ 4) × (at ≡ 3)) }
    ensures byte { (number at : ℕ) → TellsFault (fault_at (codes "/a b")) number at ↔ ((number ≡ 5) × (at ≡ 2)) }
    ensures long_text { (number at : ℕ) → TellsFault (fault_at (codes "/" ++ replicate 4095 97)) number at ↔ ((number ≡ 2) × (at ≡ 4095)) }
    ensures many_names { (number at : ℕ) → TellsFault (fault_at (flat_map codes (replicate 33 "/a"))) number at ↔ ((number ≡ 3) × (at ≡ 65)) }
    ensures long_name { (number at : ℕ) → TellsFault (fault_at (codes "/a/" ++ replicate 256 97)) number at ↔ ((number ≡ 6) × (at ≡ 3)) }
{}
