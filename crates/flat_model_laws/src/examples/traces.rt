//! Worked examples of traces, each with its output.

ghost use Rattle.std.specs.Prelude.{
  ◌≡◌,
  cond,
  not,
  ◌&&◌,
  ◌||◌,
  ◌==◌,
  nat_le,
  ◌++◌,
  [],
  ◌∷◌,
  codes,
  decimal,
  map,
  replicate,
  flat_map,
};
ghost use Rattle.std.specs.List.{list_any, range_with_len};
ghost use Rattle.flat_model.specs.Trace.{read_trace};
ghost use Rattle.flat_model.specs.Replies.{answers, command_count, refused_count};

/// The empty trace has no output.
pub fn empty_trace()
    ensures answered { answers 256 [] ≡ [] }
    ensures commands { command_count (read_trace []) ≡ 0 }
    ensures refused { refused_count 256 (read_trace []) ≡ 0 }
{}

/// Fork, move, a read and an undo.
pub fn first_trace()
    ensures { answers 256 (codes "mkdir /a\nfork 1 2\nwrite /a cgroup.procs 2\ncat /a pids.current\n"
        ++ codes "undo\ncat /a pids.current\n")
        ≡ codes "1 ok\n2 ok\n3 ok\n4 ok\n| 1\n5 ok\n| write /a cgroup.procs 2\n6 ok\n| 0\n" }
{}

/// An undo is refused if nothing is recorded; the next command gets the next number.
pub fn undo_without_journal()
    ensures { answers 256 (codes "undo\nmkdir /a\n")
        ≡ codes "1 refused nothing\n2 ok\n" }
{}

/// A fork refused by `pids.max` is counted at its group, and its undo undoes the count.
pub fn fork_counted_at_the_limit()
    ensures { answers 256 (codes "mkdir /a\nwrite /a pids.max 1\nwrite /a cgroup.procs 1\nfork 1 2\n"
        ++ codes "cat /a pids.events.local\ncat /a pids.events\nundo\n"
        ++ codes "cat /a pids.events.local\ncat /a pids.events\n")
        ≡ codes "1 ok\n2 ok\n3 ok\n4 refused pidsmax /a\n5 ok\n| max 1\n6 ok\n"
        ++ codes "| max 1\n7 ok\n| fork 1 2\n8 ok\n| max 0\n9 ok\n| max 0\n" }
{}

/// The refused fork is counted in the local total of the group whose limit is met, which is above the process's own group,
/// and in the totals from there upward.
pub fn fork_counted_at_an_ancestor()
    ensures { answers 256 (codes "mkdir /a\nmkdir /a/b\nwrite /a pids.max 1\n"
        ++ codes "write /a/b cgroup.procs 1\nfork 1 2\ncat /a/b pids.events\n"
        ++ codes "cat /a pids.events\ncat /a pids.events.local\n")
        ≡ codes "1 ok\n2 ok\n3 ok\n4 ok\n5 refused pidsmax /a\n6 ok\n| max 0\n"
        ++ codes "7 ok\n| max 1\n8 ok\n| max 1\n" }
{}

/// A move may exceed `pids.max`, which only forks meet.
pub fn move_past_a_limit()
    ensures { answers 256 (codes "mkdir /a\nwrite /a pids.max 0\nfork 1 2\nwrite /a cgroup.procs 1\n"
        ++ codes "write /a cgroup.procs 2\ncat /a pids.current\n"
        ++ codes "cat /a cgroup.procs\nfork 2 3\n")
        ≡ codes "1 ok\n2 ok\n3 ok\n4 ok\n5 ok\n6 ok\n| 2\n7 ok\n| 1\n| 2\n8 refused pidsmax /a\n" }
{}

/// An event total above a removed group stays. Undoing the removal restores the group's limit and total.
pub fn totals_outlive_a_group()
    ensures { answers 256 (codes "mkdir /t\nmkdir /t/a\nwrite /t/a pids.max 1\n"
        ++ codes "write /t/a cgroup.procs 1\nfork 1 2\nexit 1\nrmdir /t/a\n"
        ++ codes "cat /t pids.events\ncat /t pids.events.local\nundo\n"
        ++ codes "cat /t/a pids.max\ncat /t/a pids.events\n")
        ≡ codes "1 ok\n2 ok\n3 ok\n4 ok\n5 refused pidsmax /t/a\n6 ok\n7 ok\n8 ok\n"
        ++ codes "| max 1\n9 ok\n| max 0\n10 ok\n| rmdir /t/a\n11 ok\n| 1\n12 ok\n"
        ++ codes "| max 1\n" }
{}

/// No group is made deeper below a group than that group's `cgroup.max.depth`.
pub fn depth_limit()
    ensures { answers 256 (codes "mkdir /a\nwrite /a cgroup.max.depth 0\nmkdir /a/b\nmkdir /b\n")
        ≡ codes "1 ok\n2 ok\n3 refused depth /a\n4 ok\n" }
{}

/// `cgroup.max.descendants` of the root bounds every group.
pub fn descendants_limit()
    ensures { answers 256 (codes "write / cgroup.max.descendants 1\nmkdir /a\nmkdir /b\nmkdir /a/b\n"
        ++ codes "cat / cgroup.stat\n")
        ≡ codes "1 ok\n2 ok\n3 refused descendants /\n4 refused descendants /\n"
        ++ codes "5 ok\n| nr_descendants 1\n| nr_dying_descendants 0\n" }
{}

/// A group with children, a group with processes, a removed group and the root cannot be removed.
pub fn rmdir_refusals_in_order()
    ensures { answers 256 (codes "mkdir /a\nmkdir /a/b\nwrite /a cgroup.procs 1\nrmdir /a\n"
        ++ codes "rmdir /a/b\nrmdir /a\nwrite / cgroup.procs 1\nrmdir /a\nrmdir /a\n"
        ++ codes "rmdir /\n")
        ≡ codes "1 ok\n2 ok\n3 ok\n4 refused haschildren\n5 ok\n"
        ++ codes "6 refused hasprocesses\n7 ok\n8 ok\n9 refused nogroup /a\n"
        ++ codes "10 refused rootfixed\n" }
{}

/// A kill removes every process at or below the group; its undo puts each back into its group.
pub fn kill_and_its_undo()
    ensures { answers 256 (codes "mkdir /k\nmkdir /k/a\nmkdir /k/b\nfork 1 2\nfork 1 3\nfork 1 4\n"
        ++ codes "write /k cgroup.procs 2\nwrite /k/a cgroup.procs 3\n"
        ++ codes "write /k/b cgroup.procs 4\nfork 3 5\nfork 4 6\n"
        ++ codes "cat /k pids.current\nwrite /k cgroup.kill 1\ncat /k pids.current\n"
        ++ codes "cat /k cgroup.events\nundo\ncat /k/a cgroup.procs\n"
        ++ codes "cat /k/b cgroup.procs\ncat /k cgroup.procs\ncat /k cgroup.events\n"
        ++ codes "where 5\n")
        ≡ codes "1 ok\n2 ok\n3 ok\n4 ok\n5 ok\n6 ok\n7 ok\n8 ok\n9 ok\n10 ok\n"
        ++ codes "11 ok\n12 ok\n| 5\n13 ok\n14 ok\n| 0\n15 ok\n| populated 0\n"
        ++ codes "| frozen 0\n16 ok\n| write /k cgroup.kill 1\n17 ok\n| 3\n| 5\n"
        ++ codes "18 ok\n| 4\n| 6\n19 ok\n| 2\n20 ok\n| populated 1\n| frozen 0\n"
        ++ codes "21 ok\n| 0::/k/a\n" }
{}

/// A fork tests its parent first, then whether the pid is free.
pub fn pids_checked_in_order()
    ensures { answers 256 (codes "fork 1 1\nfork 2 1\nfork 2 3\nfork 1 2\nfork 1 2\n")
        ≡ codes "1 refused pidinuse 1\n2 refused noprocess 2\n"
        ++ codes "3 refused noprocess 2\n4 ok\n5 refused pidinuse 2\n" }
{}

/// An incomplete last line counts as a line.
pub fn cut_trace()
    ensures word { answers 256 (codes "mkdir /a\nmkdi") ≡ codes "1 ok\n2 refused syntax\n" }
    ensures root { answers 256 (codes "mkdir /a\nmkdir /") ≡ codes "1 ok\n2 refused exists\n" }
    ensures shorter_name { answers 256 (codes "mkdir /a\nmkdir /b") ≡ codes "1 ok\n2 ok\n" }
{}

/// A line with a command has at most 8,192 bytes.
pub fn longest_line()
    ensures read { answers 256 (codes "mkdir /" ++ replicate 8185 97) ≡ codes "1 refused path\n" }
    ensures too_long { answers 256 (codes "mkdir /" ++ replicate 8186 97)
        ≡ codes "1 refused syntax\n" }
{}

/// Text faults come before refusals. A comment gets no number.
pub fn faults_before_refusals()
    ensures answered { answers 256 (codes "write a nofile x\nwrite /a foo x\nwrite /a pids.current x\n"
        ++ codes "write /a pids.max x\nwrite /a pids.max 5\ncat / pids.max\n"
        ++ codes "cat /a cgroup.kill\nwrite / cgroup.kill 1\n"
        ++ codes "write / cgroup.procs 0\n# note\nbogus\nmkdir\nmkdir /a/b\n"
        ++ codes "mkdir /\nwhere 2\nwhere 1\ncat / cgroup.procs\nexit 1\n"
        ++ codes "cat / cgroup.procs\n")
        ≡ codes "1 refused path\n2 refused file\n3 refused direction\n"
        ++ codes "4 refused value\n5 refused nogroup /a\n6 refused nofile\n"
        ++ codes "7 refused direction\n8 refused nofile\n9 refused value\n"
        ++ codes "10 refused syntax\n11 refused syntax\n12 refused nogroup /a\n"
        ++ codes "13 refused exists\n14 refused noprocess 2\n15 ok\n| 0::/\n16 ok\n"
        ++ codes "| 1\n17 ok\n18 ok\n" }
    ensures commands { command_count (read_trace (
        codes "write a nofile x\nwrite /a foo x\nwrite /a pids.current x\n"
        ++ codes "write /a pids.max x\nwrite /a pids.max 5\ncat / pids.max\n"
        ++ codes "cat /a cgroup.kill\nwrite / cgroup.kill 1\n"
        ++ codes "write / cgroup.procs 0\n# note\nbogus\nmkdir\nmkdir /a/b\n"
        ++ codes "mkdir /\nwhere 2\nwhere 1\ncat / cgroup.procs\nexit 1\n"
        ++ codes "cat / cgroup.procs\n")) ≡ 18 }
    ensures refused { refused_count 256 (read_trace (
        codes "write a nofile x\nwrite /a foo x\nwrite /a pids.current x\n"
        ++ codes "write /a pids.max x\nwrite /a pids.max 5\ncat / pids.max\n"
        ++ codes "cat /a cgroup.kill\nwrite / cgroup.kill 1\n"
        ++ codes "write / cgroup.procs 0\n# note\nbogus\nmkdir\nmkdir /a/b\n"
        ++ codes "mkdir /\nwhere 2\nwhere 1\ncat / cgroup.procs\nexit 1\n"
        ++ codes "cat / cgroup.procs\n")) ≡ 14 }
{}

/// When all slots are taken, a new group is refused; an undo frees a slot.
pub fn slots_run_out()
    ensures { answers 256 (
        flat_map (λ n. codes "mkdir /g" ++ decimal n ++ codes "\n") (range_with_len 0 257)
        ++ codes "undo\nmkdir /g256\n")
        ≡ flat_map (λ n. decimal n ++ codes " ok\n") (range_with_len 1 256)
        ++ codes "257 refused noslot\n258 ok\n| mkdir /g255\n259 ok\n" }
{}

/// Each byte as a whole trace, and each at the end of a name.
pub fn every_byte()
    ensures alone { map (λ b. answers 256 (b ∷ [])) (range_with_len 0 256)
        ≡ map (λ b. cond (list_any (λ x. x == b) (0x09 ∷ 0x0A ∷ 0x0D ∷ 0x20 ∷ 0x23 ∷ [])) []
        (codes "1 refused syntax\n")) (range_with_len 0 256) }
    ensures in_a_name { map (λ b. answers 256 (codes "mkdir /a" ++ b ∷ 0x0A ∷ [])) (range_with_len 0 256)
        ≡ map (λ b. cond ((nat_le 0x21 b && nat_le b 0x7E && not (b == 0x2F))
        || list_any (λ x. x == b) (0x09 ∷ 0x0A ∷ 0x0D ∷ 0x20 ∷ []))
        (codes "1 ok\n") (codes "1 refused path\n")) (range_with_len 0 256) }
{}

/// A new group is refused if it exists, if its parent doesn't exist, by a limit, and if no slot is free, in this order.
pub fn mkdir_refusals_in_order()
    ensures { answers 1 (codes "mkdir /a\nwrite / cgroup.max.descendants 1\nmkdir /a\nmkdir /x/y\n"
        ++ codes "mkdir /b\nwrite / cgroup.max.descendants max\nmkdir /b\n")
        ≡ codes "1 ok\n2 ok\n3 refused exists\n4 refused nogroup /x\n"
        ++ codes "5 refused descendants /\n6 ok\n7 refused noslot\n" }
{}

/// A limit of 0 at the root, on descendants or on depth, refuses the first group. If both are 0, the refusal names the limit
/// on descendants. A depth of 1 refuses a group below the first one.
pub fn first_group_is_refused()
    ensures { answers 256 (codes "write / cgroup.max.descendants 0\nmkdir /a\n"
        ++ codes "write / cgroup.max.depth 0\nmkdir /a\n"
        ++ codes "write / cgroup.max.descendants max\nmkdir /a\n"
        ++ codes "write / cgroup.max.depth 1\nmkdir /a\nmkdir /a/b\n")
        ≡ codes "1 ok\n2 refused descendants /\n3 ok\n4 refused descendants /\n5 ok\n"
        ++ codes "6 refused depth /\n7 ok\n8 ok\n9 refused depth /\n" }
{}

/// If a new group meets two limits, the nearest refuses it; at one group, that on descendants.
pub fn nearest_limit()
    ensures { answers 256 (codes "mkdir /a\nmkdir /a/b\nwrite / cgroup.max.descendants 2\n"
        ++ codes "write /a cgroup.max.depth 1\nmkdir /a/b/c\n"
        ++ codes "write /a/b cgroup.max.depth 0\nmkdir /a/b/c\n"
        ++ codes "write /a/b cgroup.max.descendants 0\nmkdir /a/b/c\nmkdir /b\n")
        ≡ codes "1 ok\n2 ok\n3 ok\n4 ok\n5 refused depth /a\n6 ok\n"
        ++ codes "7 refused depth /a/b\n8 ok\n9 refused descendants /a/b\n"
        ++ codes "10 refused descendants /\n" }
{}

/// A refused fork raises the totals of all groups from the refusing one upward, and no others. A pid in use is refused
/// before, and counts nothing.
pub fn totals_up_to_the_top()
    ensures { answers 256 (codes "mkdir /t\nmkdir /t/a\nmkdir /t/a/b\nmkdir /t/c\n"
        ++ codes "write /t/a/b pids.max 1\nwrite /t/a/b cgroup.procs 1\nfork 1 1\n"
        ++ codes "fork 1 2\ncat /t/a/b pids.events\ncat /t/a/b pids.events.local\n"
        ++ codes "cat /t/a pids.events\ncat /t/a pids.events.local\n"
        ++ codes "cat /t pids.events\ncat /t pids.events.local\n"
        ++ codes "cat /t/c pids.events\n")
        ≡ codes "1 ok\n2 ok\n3 ok\n4 ok\n5 ok\n6 ok\n7 refused pidinuse 1\n"
        ++ codes "8 refused pidsmax /t/a/b\n9 ok\n| max 1\n10 ok\n| max 1\n11 ok\n"
        ++ codes "| max 1\n12 ok\n| max 0\n13 ok\n| max 1\n14 ok\n| max 0\n15 ok\n"
        ++ codes "| max 0\n" }
{}

/// A new group has no limits and event totals of 0, whatever its parent has. It is one more descendant of each group above
/// it.
pub fn new_group()
    ensures { answers 256 (codes "mkdir /a\nwrite /a pids.max 1\nwrite /a cgroup.max.depth 9\n"
        ++ codes "write /a cgroup.max.descendants 8\nwrite /a cgroup.procs 1\n"
        ++ codes "fork 1 2\nmkdir /a/b\nmkdir /a/b/c\ncat /a/b pids.max\n"
        ++ codes "cat /a/b cgroup.max.depth\ncat /a/b cgroup.max.descendants\n"
        ++ codes "cat /a/b pids.events\ncat /a/b pids.events.local\n"
        ++ codes "cat /a pids.events\ncat / cgroup.stat\ncat /a cgroup.stat\n"
        ++ codes "cat /a/b/c cgroup.stat\n")
        ≡ codes "1 ok\n2 ok\n3 ok\n4 ok\n5 ok\n6 refused pidsmax /a\n7 ok\n8 ok\n"
        ++ codes "9 ok\n| max\n10 ok\n| max\n11 ok\n| max\n12 ok\n| max 0\n13 ok\n"
        ++ codes "| max 0\n14 ok\n| max 1\n15 ok\n| nr_descendants 3\n"
        ++ codes "| nr_dying_descendants 0\n16 ok\n| nr_descendants 2\n"
        ++ codes "| nr_dying_descendants 0\n17 ok\n| nr_descendants 0\n"
        ++ codes "| nr_dying_descendants 0\n" }
{}

/// The root has the files for its own processes, counts and hierarchy limits, and no others. A move tests the group before
/// the process.
pub fn files_of_the_root()
    ensures { answers 256 (codes "write /b cgroup.procs 9\nwrite / cgroup.procs 9\n"
        ++ codes "write / pids.max 5\ncat / cgroup.procs\ncat / cgroup.events\n"
        ++ codes "cat / cgroup.stat\ncat / cgroup.max.descendants\n"
        ++ codes "cat / cgroup.max.depth\ncat / pids.max\ncat / pids.current\n"
        ++ codes "cat / pids.events\ncat / pids.events.local\n"
        ++ codes "write / cgroup.max.depth 3\ncat / cgroup.max.depth\n")
        ≡ codes "1 refused nogroup /b\n2 refused noprocess 9\n3 refused nofile\n"
        ++ codes "4 ok\n| 1\n5 refused nofile\n6 ok\n| nr_descendants 0\n"
        ++ codes "| nr_dying_descendants 0\n7 ok\n| max\n8 ok\n| max\n"
        ++ codes "9 refused nofile\n10 refused nofile\n11 refused nofile\n"
        ++ codes "12 refused nofile\n13 ok\n14 ok\n| 3\n" }
{}

/// A peak stays when processes exit and move away. Undos restore the peaks that a fork and a move raised. The root has no
/// peak.
pub fn peak_outlives_an_exit()
    ensures { answers 256 (codes "mkdir /a\ncat /a pids.peak\nwrite /a cgroup.procs 1\nfork 1 2\n"
        ++ codes "cat /a pids.peak\nexit 2\ncat /a pids.peak\n"
        ++ codes "write / cgroup.procs 1\ncat /a pids.current\ncat /a pids.peak\n"
        ++ codes "undo\nundo\nundo\ncat /a pids.peak\ncat / pids.peak\n")
        ≡ codes "1 ok\n2 ok\n| 0\n3 ok\n4 ok\n5 ok\n| 2\n6 ok\n7 ok\n| 2\n8 ok\n"
        ++ codes "9 ok\n| 0\n10 ok\n| 2\n11 ok\n| write / cgroup.procs 1\n12 ok\n"
        ++ codes "| exit 2\n13 ok\n| fork 1 2\n14 ok\n| 1\n15 refused nofile\n" }
{}

/// A refused fork raises no peak. Undoing a move restores the peak of the group that the process entered. A peak cannot be
/// written.
pub fn refused_fork_raises_no_peak()
    ensures { answers 256 (codes "mkdir /a\nmkdir /a/b\nwrite /a pids.max 1\n"
        ++ codes "write /a cgroup.procs 1\nwrite /a/b cgroup.procs 1\nfork 1 2\n"
        ++ codes "cat /a pids.peak\ncat /a/b pids.peak\nundo\nundo\n"
        ++ codes "cat /a/b pids.peak\nwrite /a pids.peak 0\n")
        ≡ codes "1 ok\n2 ok\n3 ok\n4 ok\n5 ok\n6 refused pidsmax /a\n7 ok\n| 1\n"
        ++ codes "8 ok\n| 1\n9 ok\n| fork 1 2\n10 ok\n| write /a/b cgroup.procs 1\n"
        ++ codes "11 ok\n| 0\n12 refused direction\n" }
{}
