//! The laws of what the tree says of the groups below one: their number, and the names of its children.

ghost use Rattle.std.specs.Prelude.{◌≡◌, ◌≢◌, ℕ, ◌↔◌, ◌++◌, List, [], ◌∷◌, Option, Some, None, IsSome, codes, decimal};
ghost use Rattle.std.specs.Ordering.{nat_cmp};
ghost use Rattle.std.specs.FinMap.{FinMap, get, keys};
ghost use Rattle.flat_model.specs.Path.{Name, Path, parent};
ghost use Rattle.flat_model.specs.Command as model;
ghost use Rattle.flat_model.specs.File.{Stat};
ghost use Rattle.flat_model.specs.FileText.{file_text, line};
ghost use Rattle.flat_model.specs.Mapped.{map_values};
ghost use Rattle.flat_model.specs.Step.{refusal};
ghost use Rattle.group_tree.specs.Groups.{Groups, HasBelow, descendant_count};
ghost use Rattle.group_tree.specs.Flat.{CountsAsFlat, group_of};
ghost use Rattle.group_tree.specs.ChildNames.{NamesChildren, last_name};

/// What the tree counts below a group is what `cgroup.stat` shows, whatever the processes. A group without processes at it
/// has children exactly if its removal is refused for them.
pub fn groups_below_are_flat()
    ensures always { (m : Groups) → CountsAsFlat m }
    ensures shown { (m : Groups) (home : FinMap nat_cmp Path) (p : Path) → CountsAsFlat m
        → file_text (record { groups = map_values group_of m; home = home }) p Stat
        ≡ line (codes "nr_descendants " ++ decimal (descendant_count m p)) ++ line (codes "nr_dying_descendants 0") }
    ensures refused { (slots : ℕ) (m : Groups) (home : FinMap nat_cmp Path) (n : Name) (p : Path) → CountsAsFlat m → IsSome (get m (n ∷ p))
        → (refusal slots (record { groups = map_values group_of m; home = home }) (model.RemoveGroup (n ∷ p)) ≡ Some model.HasChildren)
        ↔ HasBelow m (n ∷ p) }
{}

/// The groups `/`, `/a`, `/a/b` and `/c`: how many are below each, and the names of each one's children. `/b` is no group.
pub fn four_groups()
    ensures below_root { (m : Groups) → keys m ≡ [] ∷ (codes "a" ∷ []) ∷ (codes "a" ∷ codes "b" ∷ []) ∷ (codes "c" ∷ []) ∷ []
        → descendant_count m [] ≡ 3 }
    ensures below_a { (m : Groups) → keys m ≡ [] ∷ (codes "a" ∷ []) ∷ (codes "a" ∷ codes "b" ∷ []) ∷ (codes "c" ∷ []) ∷ []
        → descendant_count m (codes "a" ∷ []) ≡ 1 }
    ensures below_c { (m : Groups) → keys m ≡ [] ∷ (codes "a" ∷ []) ∷ (codes "a" ∷ codes "b" ∷ []) ∷ (codes "c" ∷ []) ∷ []
        → descendant_count m (codes "c" ∷ []) ≡ 0 }
    ensures names_of_root { (m : Groups) (r : Option (List Name)) → keys m ≡ [] ∷ (codes "a" ∷ []) ∷ (codes "a" ∷ codes "b" ∷ []) ∷ (codes "c" ∷ []) ∷ []
        → NamesChildren m [] r ↔ (r ≡ Some (codes "a" ∷ codes "c" ∷ [])) }
    ensures names_of_a { (m : Groups) (r : Option (List Name)) → keys m ≡ [] ∷ (codes "a" ∷ []) ∷ (codes "a" ∷ codes "b" ∷ []) ∷ (codes "c" ∷ []) ∷ []
        → NamesChildren m (codes "a" ∷ []) r ↔ (r ≡ Some (codes "b" ∷ [])) }
    ensures names_of_c { (m : Groups) (r : Option (List Name)) → keys m ≡ [] ∷ (codes "a" ∷ []) ∷ (codes "a" ∷ codes "b" ∷ []) ∷ (codes "c" ∷ []) ∷ []
        → NamesChildren m (codes "c" ∷ []) r ↔ (r ≡ Some []) }
    ensures no_group { (m : Groups) (r : Option (List Name)) → keys m ≡ [] ∷ (codes "a" ∷ []) ∷ (codes "a" ∷ codes "b" ∷ []) ∷ (codes "c" ∷ []) ∷ []
        → NamesChildren m (codes "b" ∷ []) r ↔ (r ≡ None) }
{}

/// A path is its parent's with its last name behind it.
pub fn last_names()
    ensures child { (p : Path) (n : Name) → last_name (p ++ n ∷ []) ≡ n }
    ensures joined { (p : Path) → p ≢ [] → parent p ++ last_name p ∷ [] ≡ p }
    ensures root { last_name [] ≡ [] }
    ensures second { last_name (codes "a" ∷ codes "b" ∷ []) ≡ codes "b" }
{}
