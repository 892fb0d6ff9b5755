//! The list of all groups, and that of a group and those below it.

ghost use Rattle.std.specs.Prelude.{◌≡◌, ◌≤◌, ◌↔◌, ℕ, true, List, length, filter};
ghost use Rattle.std.specs.FinMap.{keys};
ghost use Rattle.std.specs.List.{AllPairs, Contains};
ghost use Rattle.std.specs.declared.cmp.Ordering.TheVariants.{Less};
ghost use Rattle.flat_model.specs.Path.{Path, path_cmp, at_or_below};
ghost use Rattle.flat_model.specs.State.{State};
ghost use Rattle.flat_model.specs.Counts.{is_group};
ghost use Rattle.flat_model.specs.Command.{Command, MakeGroup};
ghost use Rattle.flat_model.specs.Machine.{Machine, after_all, end_of};
ghost use Rattle.flat_model.specs.WellFormed.{WellFormed};
ghost use Rattle.undo_journal.specs.Beginning.{forgotten};
ghost use Rattle.line_engine.specs.Listings.{all_groups, subtree};

/// The list of all groups has exactly the groups that exist, if no group's path has more than 32 names.
pub fn all_groups_are_listed()
    ensures listed { (slots : ℕ) (s : State) → WellFormed slots s
        → ((p : Path) → is_group s p ≡ true → length p ≤ 32)
        → (q : Path) → Contains (all_groups s) q ↔ (is_group s q ≡ true) }
{}

/// The list has each group once, in the order of paths: a group comes before those below it, and siblings come in the order
/// of their names. So it is the list of keys of the state's groups.
pub fn all_groups_are_in_order()
    ensures ascending { (s : State) → AllPairs (λ p q. path_cmp p q ≡ Less) (all_groups s) }
    ensures keys { (slots : ℕ) (s : State) → WellFormed slots s
        → ((p : Path) → is_group s p ≡ true → length p ≤ 32) → all_groups s ≡ keys s.groups }
{}

/// If commands make groups at paths of at most 32 names, as every path that is read has, they reach only states in which no
/// group's path has more. So the list has all groups there.
pub fn reached_groups_are_listed()
    ensures shallow { (slots : ℕ) (cs : List Command)
        → ((p : Path) → Contains cs (MakeGroup p) → length p ≤ 32)
        → (p : Path) → is_group (after_all slots cs).state p ≡ true → length p ≤ 32 }
    ensures keys { (slots : ℕ) (cs : List Command)
        → ((p : Path) → Contains cs (MakeGroup p) → length p ≤ 32)
        → all_groups (after_all slots cs).state ≡ keys (after_all slots cs).state.groups }
{}

/// The list of a group has exactly the groups at or below it, each once and in order: it is what is left of the keys of the
/// state's groups without the others.
pub fn a_subtree_is_listed()
    ensures { (slots : ℕ) (s : State) → WellFormed slots s
        → ((p : Path) → is_group s p ≡ true → length p ≤ 32)
        → (p : Path) → is_group s p ≡ true → subtree s p ≡ filter (λ q. at_or_below q p) (keys s.groups) }
{}

/// Both laws hold after an engine has forgotten its history too: the state is unchanged by that, and commands that make groups
/// at paths of at most 32 names lead from it to states of the same kind.
pub fn forgetting_keeps_the_lists()
    ensures well_formed { (slots : ℕ) (m : Machine) (cs : List Command) → WellFormed slots m.state
        → WellFormed slots (end_of slots (forgotten m) cs).state }
    ensures shallow { (slots : ℕ) (m : Machine) (cs : List Command)
        → ((p : Path) → is_group m.state p ≡ true → length p ≤ 32)
        → ((p : Path) → Contains cs (MakeGroup p) → length p ≤ 32)
        → (p : Path) → is_group (end_of slots (forgotten m) cs).state p ≡ true → length p ≤ 32 }
{}
