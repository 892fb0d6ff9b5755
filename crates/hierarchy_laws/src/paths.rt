//! The laws of what a call returns for a result of the grammar.

ghost use Rattle.std.specs.Prelude.{◌≡◌, ◌≢◌, ◌↔◌, ◌++◌, Option, Some, None, Result, Ok, Err, IsOk, codes, replicate};
ghost use Rattle.std.specs.List.{repeat};
ghost use Rattle.flat_model.specs.Path.{Path};
ghost use Rattle.flat_model.specs.PathText as grammar;
ghost use Rattle.group_path.specs.declared.fault.PathFault.{PathFault};
ghost use Rattle.group_path.specs.declared.fault.PathFault.TheVariants.{NotRooted, EmptyName, BadByte, DotName, Reserved, NameTooLong, TooDeep, TooLong, OutOfMemory};
ghost use Rattle.group_path.specs.FollowsGrammar.{FollowsGrammar, fault_of, checked};

/// A path returned is the grammar's path; a fault of the grammar returned is exactly that fault; and out of memory comes
/// only instead of a path.
pub fn answers_follow_the_grammar()
    ensures found { (p : Path) (g : Result Path grammar.PathFault) → FollowsGrammar (Ok p) g ↔ (g ≡ Ok p) }
    ensures fault { (f : grammar.PathFault) (g : Result Path grammar.PathFault) → FollowsGrammar (Err (fault_of f)) g ↔ (g ≡ Err f) }
    ensures memory { (g : Result Path grammar.PathFault) → FollowsGrammar (Err OutOfMemory) g ↔ IsOk g }
{}

/// A test of the grammar passes exactly if there is no fault; otherwise it returns that fault. It is never out of memory.
pub fn tests_follow_the_grammar()
    ensures passed { (o : Option grammar.PathFault) → (checked o ≡ Ok tt) ↔ (o ≡ None) }
    ensures fault { (f : grammar.PathFault) (o : Option grammar.PathFault) → (checked o ≡ Err (fault_of f)) ↔ (o ≡ Some f) }
    ensures memory { (o : Option grammar.PathFault) → checked o ≢ Err OutOfMemory }
{}

/// The result for a text with each of the eight faults.
pub fn each_fault_has_its_name()
    ensures not_rooted { (r : Result Path PathFault) → FollowsGrammar r (grammar.read_path (codes "a")) ↔ (r ≡ Err NotRooted) }
    ensures empty_name { (r : Result Path PathFault) → FollowsGrammar r (grammar.read_path (codes "/a/")) ↔ (r ≡ Err EmptyName) }
    ensures bad_byte { (r : Result Path PathFault) → FollowsGrammar r (grammar.read_path (codes "/a b")) ↔ (r ≡ Err (BadByte 2)) }
    ensures dots { (r : Result Path PathFault) → FollowsGrammar r (grammar.read_path (codes "/a/..")) ↔ (r ≡ Err DotName) }
    ensures reserved { (r : Result Path PathFault) → FollowsGrammar r (grammar.read_path (codes "/pids.max")) ↔ (r ≡ Err Reserved) }
    ensures long_name { (r : Result Path PathFault) → FollowsGrammar r (grammar.read_path (codes "/" ++ replicate 256 97)) ↔ (r ≡ Err NameTooLong) }
    ensures deep { (r : Result Path PathFault) → FollowsGrammar r (grammar.read_path (repeat 33 (codes "/a"))) ↔ (r ≡ Err TooDeep) }
    ensures long { (r : Result Path PathFault) → FollowsGrammar r (grammar.read_path (codes "/" ++ replicate 4095 97)) ↔ (r ≡ Err TooLong) }
{}
