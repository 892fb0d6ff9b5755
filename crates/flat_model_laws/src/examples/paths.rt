//! Worked examples of paths, each with the result of reading its text.

ghost use Rattle.std.specs.Prelude.{◌≡◌, ◌++◌, [], ◌∷◌, Ok, Err, codes, replicate, flat_map, take};
ghost use Rattle.flat_model.specs.Path.{parent};
ghost use Rattle.flat_model.specs.PathText.{
  path_text,
  read_path,
  child_path,
  NotRooted,
  EmptyName,
  BadByte,
  DotName,
  Reserved,
  NameTooLong,
  TooDeep,
  TooLong,
};

/// Texts of paths, up to the longest name and the most names.
pub fn paths_read()
    ensures root { read_path (codes "/") ≡ Ok [] }
    ensures begins_like_a_file { read_path (codes "/cgroup") ≡ Ok (codes "cgroup" ∷ []) }
    ensures longest_name { read_path (codes "/" ++ replicate 255 97) ≡ Ok (replicate 255 97 ∷ []) }
    ensures most_names { read_path (flat_map codes (replicate 32 "/a"))
        ≡ Ok (replicate 32 (codes "a")) }
{}

/// Texts that are not paths, each with its first fault.
pub fn paths_refused()
    ensures nothing { read_path (codes "") ≡ Err NotRooted }
    ensures no_slash { read_path (codes "a") ≡ Err NotRooted }
    ensures empty_first { read_path (codes "//a") ≡ Err EmptyName }
    ensures empty_last { read_path (codes "/a/") ≡ Err EmptyName }
    ensures long_name { read_path (codes "/" ++ replicate 256 97) ≡ Err NameTooLong }
    ensures many_names { read_path (flat_map codes (replicate 33 "/a")) ≡ Err TooDeep }
    ensures dots { read_path (codes "/..") ≡ Err DotName }
    ensures of_a_file { read_path (codes "/cgroup.x") ≡ Err Reserved }
    ensures tab { read_path (codes "/a\tb") ≡ Err (BadByte 2) }
    ensures long_text { read_path (codes "/" ++ replicate 4095 97) ≡ Err TooLong }
{}

/// The names, the parent and a child of `/a/b`.
pub fn path_neighbours()
    ensures names { read_path (codes "/a/b") ≡ Ok (codes "a" ∷ codes "b" ∷ []) }
    ensures above { path_text (parent (codes "a" ∷ codes "b" ∷ [])) ≡ codes "/a" }
    ensures below { child_path (codes "a" ∷ codes "b" ∷ []) (codes "c")
        ≡ Ok (codes "a" ∷ codes "b" ∷ codes "c" ∷ []) }
    ensures below_text { path_text (codes "a" ∷ codes "b" ∷ codes "c" ∷ []) ≡ codes "/a/b/c" }
    ensures cut { path_text (take 1 (codes "a" ∷ codes "b" ∷ [])) ≡ codes "/a" }
{}

/// The order of a text's faults: the first byte, the length, then name by name.
pub fn path_faults_in_order()
    ensures rooted_first { read_path (replicate 4096 97) ≡ Err NotRooted }
    ensures then_length { read_path (codes "//" ++ replicate 4094 97) ≡ Err TooLong }
    ensures then_depth { read_path (flat_map codes (replicate 32 "/a") ++ codes "/") ≡ Err TooDeep }
    ensures name_by_name { read_path (codes "/../\t") ≡ Err DotName }
    ensures byte_before_length { read_path (codes "/" ++ replicate 256 97 ++ codes "\t")
        ≡ Err (BadByte 257) }
    ensures length_before_word { read_path (codes "/pids." ++ replicate 251 97) ≡ Err NameTooLong }
    ensures dot { read_path (codes "/.") ≡ Err DotName }
    ensures of_the_pids_controller { read_path (codes "/a/pids.x") ≡ Err Reserved }
    ensures like_it { read_path (codes "/pids") ≡ Ok (codes "pids" ∷ []) }
    ensures longest_text { read_path (flat_map (λ n. 47 ∷ n)
        (replicate 15 (replicate 255 97) ++ replicate 254 97 ∷ []))
        ≡ Ok (replicate 15 (replicate 255 97) ++ replicate 254 97 ∷ []) }
{}

/// The order of the faults of a child's name: the name's own faults, then depth, then the length of
/// the whole text.
pub fn child_faults_in_order()
    ensures nothing { child_path (replicate 32 (codes "a")) [] ≡ Err EmptyName }
    ensures slash { child_path (replicate 32 (codes "a")) (codes "b/c") ≡ Err (BadByte 1) }
    ensures byte_before_length { child_path [] (replicate 256 97 ++ codes "\t")
        ≡ Err (BadByte 256) }
    ensures length_before_word { child_path [] (codes "cgroup." ++ replicate 249 97)
        ≡ Err NameTooLong }
    ensures length_before_depth { child_path (replicate 32 (codes "a")) (replicate 256 97)
        ≡ Err NameTooLong }
    ensures dots_before_depth { child_path (replicate 32 (codes "a")) (codes "..") ≡ Err DotName }
    ensures word_before_depth { child_path (replicate 32 (codes "a")) (codes "pids.x")
        ≡ Err Reserved }
    ensures depth_before_text { child_path (replicate 31 (replicate 127 97) ++ replicate 126 97 ∷ []) (codes "b")
        ≡ Err TooDeep }
    ensures then_text { child_path (replicate 15 (replicate 255 97)) (replicate 255 97)
        ≡ Err TooLong }
    ensures deepest { child_path (replicate 31 (codes "a")) (codes "b")
        ≡ Ok (replicate 31 (codes "a") ++ codes "b" ∷ []) }
    ensures longest { child_path (replicate 15 (replicate 255 97)) (replicate 254 97)
        ≡ Ok (replicate 15 (replicate 255 97) ++ replicate 254 97 ∷ []) }
{}
