//! The laws of tables: the processes of a row, the charges of a meter, what a kill lists, and event totals.

ghost use Rattle.std.specs.Prelude.{◌≡◌, ◌≢◌, ◌↔◌, ◌+◌, ◌<◌, ◌≤◌, ◌^◌, ◌++◌, ◌∷◌, ℕ, true, List, [], Option, Some, None, codes, length};
ghost use Rattle.std.specs.FinMap.{get};
ghost use Rattle.flat_model.specs.Command.{OverPidsMax};
ghost use Rattle.flat_model.specs.Counts.{is_group};
ghost use Rattle.flat_model.specs.Path.{Path};
ghost use Rattle.flat_model.specs.State.{Attr, State, start};
ghost use Rattle.flat_model.specs.Step.{after_refusal};
ghost use Rattle.process_table.specs.Chosen.{HaveOneHome, chosen_at, member_at};
ghost use Rattle.process_table.specs.declared.process.Process.{Process};
ghost use Rattle.snzi_tokens.specs.Listed.{one_at, over_leaves};
ghost use Rattle.pids_charge.specs.Content.{Content, IsEmpty};
ghost use Rattle.pids_charge.specs.Events.{HasEvents, HasRoomForEvents};
ghost use Rattle.pids_charge.specs.Lists.{rows_of};
ghost use Rattle.pids_charge.specs.Table.{table_at, table_held};
ghost use Rattle.pids_charge.specs.declared.lost.Lost.{Lost};
ghost use Rattle.charge_laws.specs.Tables.{rows, two};

/// Two processes of one row have one home exactly if their homes are equal; processes of two rows may have any. A process
/// is a member of its own row, once. Those at or below the root are all members.
pub fn processes_of_a_row()
    ensures same { (x y : Process ℕ) → x.row ≡ y.row → HaveOneHome (two x y) ↔ (x.home ≡ y.home) }
    ensures others { (x y : Process ℕ) → x.row ≢ y.row → HaveOneHome (two x y) }
    ensures member { (s : ℕ) (x : Process ℕ) → (member_at s (Some x) ≡ 1) ↔ (x.row ≡ s) }
    ensures once { (s : ℕ) (o : Option (Process ℕ)) → member_at s o ≤ 1 }
    ensures nobody { (s : ℕ) → member_at {A = ℕ} s None ≡ 0 }
    ensures root { (s : ℕ) (o : Option (Process ℕ)) → chosen_at s [] o ≡ member_at s o }
{}

/// In a table of two slots with two leaves each, the number at each slot and leaf, and all charges. A slot or a leaf that it
/// lacks has none. A table is empty only if no slot counts anything.
pub fn charges_of_a_table()
    ensures first { (table_at rows 0 0 ≡ 1) × (table_at rows 0 1 ≡ 2) }
    ensures second { (table_at rows 1 0 ≡ 3) × (table_at rows 1 1 ≡ 4) }
    ensures outside { (table_at rows 0 2 ≡ 0) × (table_at rows 2 0 ≡ 0) }
    ensures held { table_held rows ≡ 10 }
    ensures empty { (c : Content) (held n s : ℕ) → IsEmpty c held → (over_leaves n (c s) ≡ 0) × (held ≡ 0) }
    ensures nothing { IsEmpty (λ s j. 0) 0 }
    ensures charged { (held s j : ℕ) → IsEmpty (one_at s j) held → ⊥ }
    ensures counted { IsEmpty (λ s j. 0) 1 → ⊥ }
{}

/// Each listed process is a row of its pid and its path, in the order of the list.
pub fn rows_of_lost_processes()
    ensures two { rows_of {A = ℕ} (record { pid = 5; path = codes "a" ∷ [] } ∷ record { pid = 2; path = [] } ∷ [])
        ≡ (5, codes "a" ∷ []) ∷ (2, []) ∷ [] }
    ensures joined { (ls ms : List (Lost ℕ)) → rows_of (ls ++ ms) ≡ rows_of ls ++ rows_of ms }
    ensures many { (ls : List (Lost ℕ)) → length (rows_of ls) ≡ length ls }
{}

/// There is room for a refused fork at the start, and none once a total is the greatest u64. A refused fork leaves totals
/// from which it can be taken back; the start has none.
pub fn totals_of_refused_forks()
    ensures start { HasRoomForEvents start }
    ensures full { (s : State) (p : Path) (a : Attr) → get s.groups p ≡ Some a → a.total ≡ 18446744073709551615
        → HasRoomForEvents s → ⊥ }
    ensures full_locally { (s : State) (p : Path) (a : Attr) → get s.groups p ≡ Some a → a.local ≡ 18446744073709551615
        → HasRoomForEvents s → ⊥ }
    ensures next { (s : State) (p : Path) (a : Attr) → get s.groups p ≡ Some a → HasRoomForEvents s
        → (a.local + 1 < 2 ^ 64) × (a.total + 1 < 2 ^ 64) }
    ensures refused { (s : State) (a : Path) → is_group s a ≡ true → HasEvents (after_refusal s (OverPidsMax a)) a }
    ensures none { (a : Path) → HasEvents start a → ⊥ }
{}
