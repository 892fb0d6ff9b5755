//! The laws of what calls return and leave, and of the tree's values in the flat state.

ghost use Rattle.std.specs.Prelude.{◌≡◌, ◌≢◌, ℕ, ◌≤◌, ◌↔◌, ◌⊎◌, Bool, true, false, [], ◌∷◌, Some, None, IsSome, is_some, Result, Ok, Err, codes};
ghost use Rattle.std.specs.List.{list_any};
ghost use Rattle.std.specs.FinMap.{get, insert, remove, keys};
ghost use Rattle.flat_model.specs.Path.{Name, Path, parent, at_or_below, strictly_below};
ghost use Rattle.flat_model.specs.Counts.{reaches, is_group, has_process};
ghost use Rattle.flat_model.specs.File.{LimitOf, file_name};
ghost use Rattle.flat_model.specs.Step.{limit_at};
ghost use Rattle.group_tree.specs.declared.attr.Attr.{Attr};
ghost use Rattle.group_tree.specs.declared.attr.Limit.{Limit};
ghost use Rattle.group_tree.specs.declared.attr.Limit.TheVariants.{Unlimited, At};
ghost use Rattle.group_tree.specs.declared.attr.LimitFile.TheVariants.{PidsMax, MaxDescendants, MaxDepth};
ghost use Rattle.group_tree.specs.declared.fault.TreeFault.{TreeFault};
ghost use Rattle.group_tree.specs.declared.fault.TreeFault.TheVariants.{Exists, NoParent, NoGroup, HasChildren, RootFixed, OutOfMemory};
ghost use Rattle.group_tree.specs.Groups.{Groups, IsClosed, only_root, HasBelow, HasNoneBelow, Inserts, Sets, Removes, chain_of};
ghost use Rattle.group_tree.specs.Flat.{limit_of, limit_file_of, group_of, without_processes};

/// What inserting a group returns, depending on the tree: one fault if the group exists, one if its parent doesn't exist,
/// and otherwise only out of memory. Each fault leaves the tree unchanged.
pub fn faults_of_a_new_group()
    ensures exists { (old new : Groups) (p : Path) (attr : Attr) (r : Result (Unit {0}) TreeFault) → IsSome (get old p) → Inserts old new p attr r ↔ ((r ≡ Err Exists) × (new ≡ old)) }
    ensures no_parent { (old new : Groups) (p : Path) (attr : Attr) (r : Result (Unit {0}) TreeFault) → get old p ≡ None
        → get old (parent p) ≡ None → Inserts old new p attr r ↔ ((r ≡ Err NoParent) × (new ≡ old)) }
    ensures made { (old new : Groups) (p : Path) (attr : Attr) (r : Result (Unit {0}) TreeFault) → get old p ≡ None
        → IsSome (get old (parent p)) → Inserts old new p attr r
        ↔ (((r ≡ Ok tt) × (new ≡ insert old p attr)) ⊎ ((r ≡ Err OutOfMemory) × (new ≡ old))) }
{}

/// Setting attributes succeeds exactly if the group exists.
pub fn only_a_group_is_set()
    ensures there { (old new : Groups) (p : Path) (attr : Attr) (done : Bool) → IsSome (get old p) → Sets old new p attr done ↔ ((done ≡ true) × (new ≡ insert old p attr)) }
    ensures absent { (old new : Groups) (p : Path) (attr : Attr) (done : Bool) → get old p ≡ None → Sets old new p attr done ↔ ((done ≡ false) × (new ≡ old)) }
{}

/// What removing a group returns, depending on the tree. Each fault leaves the tree unchanged, and there are no others.
pub fn faults_of_a_removal()
    ensures root { (old new : Groups) (r : Result Attr TreeFault) → Removes old new [] r ↔ ((r ≡ Err RootFixed) × (new ≡ old)) }
    ensures absent { (old new : Groups) (p : Path) (r : Result Attr TreeFault) → p ≢ [] → get old p ≡ None → Removes old new p r ↔ ((r ≡ Err NoGroup) × (new ≡ old)) }
    ensures children { (old new : Groups) (p : Path) (attr : Attr) (r : Result Attr TreeFault) → p ≢ [] → get old p ≡ Some attr
        → HasBelow old p → Removes old new p r ↔ ((r ≡ Err HasChildren) × (new ≡ old)) }
    ensures removed { (old new : Groups) (p : Path) (attr : Attr) (r : Result Attr TreeFault) → p ≢ [] → get old p ≡ Some attr
        → HasNoneBelow old p → Removes old new p r ↔ ((r ≡ Ok attr) × (new ≡ remove old p)) }
{}

/// Whether some group is below a path: the test of the tree's paths decides it.
pub fn below_or_none()
    ensures some { (m : Groups) (p : Path) → HasBelow m p ↔ (list_any (λ q. strictly_below q p) (keys m) ≡ true) }
    ensures none { (m : Groups) (p : Path) → HasNoneBelow m p ↔ (list_any (λ q. strictly_below q p) (keys m) ≡ false) }
{}

/// A group of the tree is one of the flat state. Each limit is that of its own file. No two limits, files or groups become
/// the same there, apart from their slots.
pub fn groups_are_flat_groups()
    ensures limits { (a b : Limit) → limit_of a ≡ limit_of b → a ≡ b }
    ensures groups { (a b : Attr) → group_of a ≡ group_of b → a.slot ≡ b.slot → a ≡ b }
    ensures local { (a : Attr) → (group_of a).local ≡ a.local }
    ensures total { (a : Attr) → (group_of a).total ≡ a.total }
    ensures peak { (a : Attr) → (group_of a).peak ≡ a.peak }
    ensures pids { (a : Attr) → limit_at (limit_file_of PidsMax) (group_of a) ≡ limit_of a.limits.pids }
    ensures descendants { (a : Attr) → limit_at (limit_file_of MaxDescendants) (group_of a) ≡ limit_of a.limits.descendants }
    ensures depth { (a : Attr) → limit_at (limit_file_of MaxDepth) (group_of a) ≡ limit_of a.limits.depth }
    ensures unlimited { (n : ℕ) → reaches n (limit_of Unlimited) ≡ false }
    ensures reached { (n m : ℕ) → (reaches n (limit_of (At m)) ≡ true) ↔ (m ≤ n) }
    ensures pids_file { file_name (LimitOf (limit_file_of PidsMax)) ≡ codes "pids.max" }
    ensures descendants_file { file_name (LimitOf (limit_file_of MaxDescendants)) ≡ codes "cgroup.max.descendants" }
    ensures depth_file { file_name (LimitOf (limit_file_of MaxDepth)) ≡ codes "cgroup.max.depth" }
    ensures there { (m : Groups) (p : Path) → is_group (without_processes m) p ≡ is_some (get m p) }
    ensures nobody { (m : Groups) (pid : ℕ) → has_process (without_processes m) pid ≡ false }
{}

/// A group, its child and its grandchild: their slots upward. The root's is not among them.
pub fn three_groups()
    ensures chain { (m : Groups) (a b c : Name) (x y z : Attr) → get m (a ∷ []) ≡ Some x → get m (a ∷ b ∷ []) ≡ Some y
        → get m (a ∷ b ∷ c ∷ []) ≡ Some z → chain_of m (a ∷ b ∷ c ∷ []) ≡ z.slot ∷ y.slot ∷ x.slot ∷ [] }
    ensures root_chain { (m : Groups) → chain_of m [] ≡ [] }
{}

/// A new tree has only the root, with the given attributes. Each tree has the root, and each group above one of its groups.
pub fn trees_are_closed()
    ensures alone { (a x : Attr) (p : Path) → (get (only_root a) p ≡ Some x) ↔ ((p ≡ []) × (x ≡ a)) }
    ensures root { (m : Groups) → IsClosed m → is_group (without_processes m) [] ≡ true }
    ensures above { (m : Groups) (p q : Path) → IsClosed m → IsSome (get m p) → at_or_below p q ≡ true → IsSome (get m q) }
{}
