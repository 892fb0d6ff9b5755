//! The place of the first fault of a text that is not a path, computed.

ghost use Rattle.std.specs.Prelude.{◌≡◌, ◌++◌, codes, flat_map, replicate, Some, None};
ghost use Rattle.line_engine.specs.PathFaults.{fault_at};

/// The place is that of the bad byte, or of the first byte of the bad name, or of the first name or byte too many.
#[tactic(auto, unfolding(flat_model::specs::PathText::path_fault, flat_model::specs::PathText::name_fault))]
pub fn places_of_faults()
    ensures path { fault_at (codes "/a/b") ≡ None }
    ensures root { fault_at (codes "/") ≡ None }
    ensures not_rooted { fault_at (codes "a/b") ≡ Some (record { number = 1; at = 0 }) }
    ensures empty_name { fault_at (codes "/a//b") ≡ Some (record { number = 4; at = 3 }) }
    ensures slash_at_the_end { fault_at (codes "/a/") ≡ Some (record { number = 4; at = 3 }) }
    ensures bad_byte { fault_at (codes "/a/b c") ≡ Some (record { number = 5; at = 4 }) }
    ensures dot_name { fault_at (codes "/a/../b") ≡ Some (record { number = 7; at = 3 }) }
    ensures reserved { fault_at (codes "/a/b/pids.x") ≡ Some (record { number = 8; at = 5 }) }
    ensures long_text { fault_at (codes "/" ++ replicate 4095 97) ≡ Some (record { number = 2; at = 4095 }) }
    ensures many_names { fault_at (flat_map codes (replicate 33 "/a")) ≡ Some (record { number = 3; at = 65 }) }
    ensures long_name { fault_at (codes "/a/" ++ replicate 256 97) ≡ Some (record { number = 6; at = 3 }) }
{}
