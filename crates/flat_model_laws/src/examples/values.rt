//! Worked examples of the values of files, each with the result of reading it.

ghost use Rattle.std.specs.Prelude.{◌≡◌, [], ◌∷◌, ◌++◌, Ok, Err, codes, map, replicate};
ghost use Rattle.flat_model.specs.State.{Unlimited, At};
ghost use Rattle.flat_model.specs.File.{PidsMax, MaxDescendants, MaxDepth};
ghost use Rattle.flat_model.specs.Values.{
  read_limit,
  read_pid,
  read_kill,
  Empty,
  NotANumber,
  LeadingZero,
  OutOfRange,
};

/// The texts of `pids.max`.
pub fn pids_max_values()
    ensures no_limit { read_limit PidsMax (codes "max") ≡ Ok Unlimited }
    ensures blanks_dropped { read_limit PidsMax (codes " 5\n") ≡ Ok (At 5) }
    ensures least { read_limit PidsMax (codes "0") ≡ Ok (At 0) }
    ensures greatest { read_limit PidsMax (codes "4194304") ≡ Ok (At 4194304) }
    ensures past_it { read_limit PidsMax (codes "4194305") ≡ Err OutOfRange }
    ensures leading_zero { read_limit PidsMax (codes "05") ≡ Err LeadingZero }
    ensures hexadecimal { read_limit PidsMax (codes "0x5") ≡ Err NotANumber }
    ensures sign { read_limit PidsMax (codes "-1") ≡ Err NotANumber }
    ensures capitals { read_limit PidsMax (codes "MAX") ≡ Err NotANumber }
    ensures nothing { read_limit PidsMax (codes "") ≡ Err Empty }
{}

/// The greatest number of a hierarchy limit means no limit.
pub fn hierarchy_limit_values()
    ensures depth_below { read_limit MaxDepth (codes "2147483646") ≡ Ok (At 2147483646) }
    ensures depth_greatest { read_limit MaxDepth (codes "2147483647") ≡ Ok Unlimited }
    ensures depth_past_it { read_limit MaxDepth (codes "2147483648") ≡ Err OutOfRange }
    ensures descendants_below { read_limit MaxDescendants (codes "2147483646")
        ≡ Ok (At 2147483646) }
    ensures descendants_greatest { read_limit MaxDescendants (codes "2147483647") ≡ Ok Unlimited }
    ensures descendants_past_it { read_limit MaxDescendants (codes "2147483648") ≡ Err OutOfRange }
{}

/// The texts of a pid.
pub fn pid_values()
    ensures zero { read_pid (codes "0") ≡ Err OutOfRange }
    ensures leading_zero { read_pid (codes "05") ≡ Err LeadingZero }
    ensures greatest { read_pid (codes "4194303") ≡ Ok 4194303 }
    ensures past_it { read_pid (codes "4194304") ≡ Err OutOfRange }
    ensures word { read_pid (codes "max") ≡ Err NotANumber }
{}

/// The one text of `cgroup.kill`.
pub fn kill_values()
    ensures one { read_kill (codes "1") ≡ Ok 1 }
    ensures zero { read_kill (codes "0") ≡ Err OutOfRange }
    ensures two { read_kill (codes "2") ≡ Err OutOfRange }
    ensures leading_zero { read_kill (codes "01") ≡ Err LeadingZero }
{}

/// Spaces at both ends are not part of a value: space, tab, line feed, carriage return, and no
/// other byte.
pub fn spaces_around_values()
    ensures pid { map (λ b. read_pid (b ∷ codes "7" ++ b ∷ [])) (0x20 ∷ 0x09 ∷ 0x0A ∷ 0x0D ∷ [])
        ≡ replicate 4 (Ok 7) }
    ensures limit { map (λ b. read_limit MaxDepth (b ∷ codes "7" ++ b ∷ [])) (0x20 ∷ 0x09 ∷ 0x0A ∷ 0x0D ∷ [])
        ≡ replicate 4 (Ok (At 7)) }
    ensures no_limit { map (λ b. read_limit PidsMax (b ∷ codes "max" ++ b ∷ [])) (0x20 ∷ 0x09 ∷ 0x0A ∷ 0x0D ∷ [])
        ≡ replicate 4 (Ok Unlimited) }
    ensures kill { map (λ b. read_kill (b ∷ codes "1" ++ b ∷ [])) (0x20 ∷ 0x09 ∷ 0x0A ∷ 0x0D ∷ [])
        ≡ replicate 4 (Ok 1) }
    ensures no_other { map (λ b. read_pid (b ∷ codes "7")) (0x00 ∷ 0x08 ∷ 0x0B ∷ 0x0C ∷ 0x0E ∷ 0x1F
        ∷ 0x21 ∷ 0xA0 ∷ []) ≡ replicate 8 (Err NotANumber) }
    ensures not_inside { read_pid (codes "1 2") ≡ Err NotANumber }
    ensures alone { read_limit PidsMax (codes " \t\r\n") ≡ Err Empty }
{}

/// The first fault of a value: no text, not a number, a leading zero, out of range.
pub fn value_faults_in_order()
    ensures number_first { read_pid (codes "0x5") ≡ Err NotANumber }
    ensures then_zero { read_pid (codes "00") ≡ Err LeadingZero }
    ensures then_zero_of_a_limit { read_limit PidsMax (codes "04194305") ≡ Err LeadingZero }
    ensures then_zero_of_a_kill { read_kill (codes "02") ≡ Err LeadingZero }
    ensures then_range { read_pid (codes "99999999999999999999") ≡ Err OutOfRange }
    ensures no_other_word { map (λ w. read_limit PidsMax w) (codes "maxi" ∷ codes "ma" ∷ codes "Max"
        ∷ codes "infinity" ∷ codes "+1" ∷ []) ≡ replicate 5 (Err NotANumber) }
{}
