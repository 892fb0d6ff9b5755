//! The laws of paths and of their texts. Each function is proof only: its contract is a law.

ghost use Rattle.std.specs.Prelude.{
  ◌≡◌,
  ℕ,
  ◌≤◌,
  true,
  false,
  ◌⊎◌,
  ◌↔◌,
  List,
  [],
  ◌∷◌,
  ◌++◌,
  length,
  take,
  Ok,
};
ghost use Rattle.std.specs.Cmp.{IsTotalOrder};
ghost use Rattle.std.specs.FinMap.{IsAntisymmetric};
ghost use Rattle.std.specs.List.{Contains};
ghost use Rattle.flat_model.specs.Path.{
  Name,
  Path,
  name_cmp,
  path_cmp,
  same_name,
  same_path,
  at_or_below,
  strictly_below,
  HasPrefix,
  parent,
  prefixes,
  upward,
};
ghost use Rattle.flat_model.specs.PathText.{IsPath, path_text, read_path, child_path};

/// Names have one order, and so do paths; only equal ones compare as equal.
pub fn paths_are_ordered()
    ensures names { IsTotalOrder name_cmp }
    ensures names_exactly { IsAntisymmetric name_cmp }
    ensures paths { IsTotalOrder path_cmp }
    ensures paths_exactly { IsAntisymmetric path_cmp }
    ensures name_test { (n m : Name) → (same_name n m ≡ true) ↔ (n ≡ m) }
    ensures path_test { (p q : Path) → (same_path p q ≡ true) ↔ (p ≡ q) }
{}

/// A group is at or below another exactly if its path begins with the other's names.
pub fn below_is_prefix()
    ensures test { (p q : Path) → (at_or_below p q ≡ true) ↔ HasPrefix p q }
    ensures strictly { (p q : Path)
        → (strictly_below p q ≡ true) ↔ ((at_or_below p q ≡ true) × (same_path p q ≡ false)) }
    ensures itself { (p : Path) → at_or_below p p ≡ true }
    ensures through { (p q r : Path) → at_or_below p q ≡ true → at_or_below q r ≡ true
        → at_or_below p r ≡ true }
    ensures both { (p q : Path) → at_or_below p q ≡ true → at_or_below q p ≡ true → p ≡ q }
    ensures front { (n : ℕ) (p : Path) → at_or_below p (take n p) ≡ true }
    ensures parent { (p : Path) → at_or_below p (parent p) ≡ true }
    ensures child { (p : Path) (name : Name) → parent (p ++ name ∷ []) ≡ p }

    // Of two groups at or above one group, one is at or above the other.
    ensures line { (p q r : Path) → at_or_below p q ≡ true → at_or_below p r ≡ true
        → (at_or_below q r ≡ true) ⊎ (at_or_below r q ≡ true) }
    ensures shorter { (p q : Path) → at_or_below p q ≡ true → length q ≤ length p }
{}

/// The groups on the way from the root to p, and from p up to the root, are those that p is at or
/// below.
pub fn ancestors_are_prefixes()
    ensures prefixes { (p q : Path) → Contains (prefixes p) q ↔ (at_or_below p q ≡ true) }
    ensures upward { (p q : Path) → Contains (upward p) q ↔ (at_or_below p q ≡ true) }
{}

/// The text of a path is read as that path, and no other text is.
pub fn path_is_read_back()
    ensures read { (p : Path) → IsPath p → read_path (path_text p) ≡ Ok p }
    ensures only { (t : List ℕ) (p : Path) → read_path t ≡ Ok p → IsPath p × (t ≡ path_text p) }
    ensures apart { (p q : Path) → IsPath p → IsPath q → path_text p ≡ path_text q → p ≡ q }
{}

/// The first names of a path are a path. A child of a path is a path exactly if the grammar allows
/// it.
pub fn neighbours_are_paths()
    ensures front { (n : ℕ) (p : Path) → IsPath p → IsPath (take n p) }
    ensures child { (p : Path) (name : Name) → IsPath p
        → (child_path p name ≡ Ok (p ++ name ∷ [])) ↔ IsPath (p ++ name ∷ []) }
    ensures only { (p q : Path) (name : Name) → child_path p name ≡ Ok q → q ≡ p ++ name ∷ [] }
{}
