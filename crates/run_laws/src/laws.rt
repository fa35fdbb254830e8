//! What holds of the definitions of turns, traces and ends, whatever the group.

ghost use Rattle.std.specs.Prelude.{◌≡◌, ◌↔◌, ◌<◌, ◌≤◌, ◌-◌, ◌+◌, ◌⊎◌, ℕ, Bool, List, [], ◌∷◌, ◌++◌, IsTrue, true, false, Some, drop, length, map, slice_index};
ghost use Rattle.std.specs.List.{list_any};
ghost use Rattle.group_defs.specs.declared.frame.Proc.{Proc};
ghost use Rattle.group_defs.specs.Group.{Group, runner};
ghost use Rattle.group_defs.specs.Numbers.{HasUnwornNumbers};
ghost use Rattle.group_defs.specs.Output.{last_position, room, with_output};
ghost use Rattle.group_defs.specs.Pages.{is_among, nonzero_pages, touched_by_reply};
ghost use Rattle.group_defs.specs.Standing.{State, barrier, state_at};
ghost use Rattle.group_defs.specs.Step.{after_reply, call_in, do_step, group_step, group_waits, is_waiting};
ghost use Rattle.group_defs.specs.Valid.{GroupIsValid};
ghost use Rattle.group_laws.specs.Fresh.{IsFresh};
ghost use Rattle.run_defs.specs.declared.run.Limits.{Limits};
ghost use Rattle.run_defs.specs.declared.run.Mark.{Mark};
ghost use Rattle.run_defs.specs.declared.run.Mark.TheVariants.{Barrier};
ghost use Rattle.run_laws.specs.EpochGroups.{EpochsHaveGroups};
ghost use Rattle.run_laws.specs.OutputBetween.{BarriersLetOut, OutputHasParts};
ghost use Rattle.run_laws.specs.Rests.{RestsFollow};
ghost use Rattle.run_defs.specs.Marks.{barriers_in, is_ack_of, is_barrier, is_barrier_of, is_fetch_of, is_take_of};
ghost use Rattle.run_laws.specs.Counts.{IsCounted, did_something};
ghost use Rattle.run_defs.specs.Ends.{HasEnded, IsDone};
ghost use Rattle.run_defs.specs.Legal.{AckAllowed, Allowed, FetchAllowed, Legal, has_moved, ready};
ghost use Rattle.run_defs.specs.Limits.{LimitsFit};
ghost use Rattle.run_defs.specs.Progress.{EachMark, Progress, after_mark, appended, checkpoint, checkpoint_of, group_of_epoch, is_lease, progress_after, progress_at};
ghost use Rattle.run_laws.specs.Leases.{AreDistinct, AreOfRunning};
ghost use Rattle.run_laws.specs.Order.{IsInOrder, Follows};
ghost use Rattle.run_laws.specs.Smallest.{default_limits, exits_at_once, exit_trace, says_hi, hi_trace, asks_in_vain, family, family_left, two_processes, two_workers, two_workers_trace};
ghost use Rattle.run_defs.specs.Solo.{IsSoloPrefix, IsSoloSoFar, IsSoloTrace};
ghost use Rattle.run_defs.specs.Touched.{touched_with_turn};
ghost use Rattle.run_defs.specs.Turns.{IsTurn, steps_of, turned};
ghost use Rattle.run_laws.specs.Untouched.{LeavesUntouched};

/// As long as no call that is served reads the standing, steps and turns read the group alone.
pub fn turns_read_the_group()
    ensures step { (s : State) (pid : ℕ) → (do_step s pid).group ≡ group_step true s.group pid }
    ensures waits { (s : State) (pid : ℕ) → is_waiting s pid ≡ group_waits true s.group pid }
    ensures steps { (s t : State) (pid n : ℕ) → s.group ≡ t.group
        → (steps_of s pid n).group ≡ (steps_of t pid n).group }
    ensures turn { (quantum : ℕ) (s t : State) (pid n : ℕ) → s.group ≡ t.group
        → IsTurn quantum s pid n → IsTurn quantum t pid n }
    ensures ready { (s t : State) → s.group ≡ t.group → ready s ≡ ready t }
{}

/// A barrier puts the mark at the last position, which stays, and makes the whole room free.
pub fn barriers_mark_the_end()
    ensures marks { (s : State) (epoch : ℕ)
        → (barrier s epoch).group.frame.out.mark ≡ last_position s.group.frame.out }
    ensures stays { (s : State) (epoch : ℕ) → s.group.frame.out.from ≤ s.group.frame.out.mark
        → s.group.frame.out.mark ≤ last_position s.group.frame.out
        → last_position (barrier s epoch).group.frame.out ≡ last_position s.group.frame.out }
    ensures frees { (s : State) (epoch : ℕ) → s.group.frame.out.from ≤ s.group.frame.out.mark
        → s.group.frame.out.mark ≤ last_position s.group.frame.out
        → room (barrier s epoch).group.frame.out ≡ 1048576 }
{}

/// A turn only adds to the output, and the output that a group holds is the end of all output.
pub fn output_only_grows()
    ensures turns { (quantum : ℕ) (s : State) (pid n : ℕ) → (turned quantum s pid n).group.frame.out
        ≡ with_output s.group.frame.out (appended s.group (turned quantum s pid n).group) }
    ensures held { (quantum origin_epoch : ℕ) (g : Group) (marks : List Mark) (r : Progress)
        → g.frame.out.from ≤ g.frame.out.mark → g.frame.out.mark ≤ last_position g.frame.out
        → progress_after quantum (progress_at origin_epoch g) marks ≡ r
        → drop (r.state.group.frame.out.from - g.frame.out.from) r.output
        ≡ r.state.group.frame.out.bytes }
    ensures last { (quantum origin_epoch : ℕ) (g : Group) (marks : List Mark) (r : Progress)
        → g.frame.out.from ≤ g.frame.out.mark → g.frame.out.mark ≤ last_position g.frame.out
        → progress_after quantum (progress_at origin_epoch g) marks ≡ r
        → last_position r.state.group.frame.out ≡ g.frame.out.from + length r.output }
    ensures parts { (start : Group) (limits : Limits) → OutputHasParts start limits }
    ensures lets_out { (start : Group) (origin_epoch : ℕ) (limits : Limits)
        → start.frame.out.from ≤ start.frame.out.mark
        → start.frame.out.mark ≤ last_position start.frame.out
        → BarriersLetOut start origin_epoch limits }
{}

/// What stands after marks and further marks, and the groups of their epochs.
pub fn marks_follow_marks()
    ensures progress { (quantum : ℕ) (r : Progress) (a b : List Mark)
        → progress_after quantum r (a ++ b)
        ≡ progress_after quantum (progress_after quantum r a) b }
    ensures epochs { (start : Group) (origin_epoch : ℕ) (limits : Limits)
        → EpochsHaveGroups start origin_epoch limits }
{}

/// A trace is legal exactly where each mark is allowed after those before it.
pub fn legal_mark_by_mark()
    ensures none { (start : Group) (origin_epoch : ℕ) (limits : Limits)
        → Legal start origin_epoch limits [] }
    ensures before { (start : Group) (origin_epoch : ℕ) (limits : Limits) (a b : List Mark)
        → Legal start origin_epoch limits (a ++ b) → Legal start origin_epoch limits a }
    ensures each { (start : Group) (origin_epoch : ℕ) (limits : Limits) (a : List Mark) (m : Mark)
        (b : List Mark) → Legal start origin_epoch limits (a ++ m ∷ b)
        → Allowed limits (progress_after limits.quantum (progress_at origin_epoch start) a) m }
    ensures one_more { (start : Group) (origin_epoch : ℕ) (limits : Limits) (a : List Mark) (m :
        Mark)
        → Legal start origin_epoch limits a
        → Allowed limits (progress_after limits.quantum (progress_at origin_epoch start) a) m
        → Legal start origin_epoch limits (a ++ m ∷ []) }
{}

/// Turns, leases, barriers and epochs after a legal trace are what its marks say by counting and searching. So a Fetch is
/// allowed where its Barrier stands before and no Fetch of its epoch does, and an Ack where the Fetch does and no Ack.
pub fn marks_are_counted()
    ensures counted { (start : Group) (origin_epoch : ℕ) (limits : Limits) (marks : List Mark)
        → Legal start origin_epoch limits marks
        → IsCounted origin_epoch marks (progress_after limits.quantum (progress_at origin_epoch
        start) marks) }
    ensures fetch { (start : Group) (origin_epoch : ℕ) (limits : Limits) (marks : List Mark)
        → Legal start origin_epoch limits marks → (epoch : ℕ)
        → FetchAllowed (progress_after limits.quantum (progress_at origin_epoch start) marks) epoch
        ↔ ((list_any (is_barrier_of epoch) marks ≡ true)
        × (list_any (is_fetch_of epoch) marks ≡ false)) }
    ensures ack { (start : Group) (origin_epoch : ℕ) (limits : Limits) (marks : List Mark)
        → Legal start origin_epoch limits marks → (epoch : ℕ)
        → AckAllowed (progress_after limits.quantum (progress_at origin_epoch start) marks) epoch
        ↔ ((list_any (is_fetch_of epoch) marks ≡ true)
        × (list_any (is_ack_of epoch) marks ≡ false)) }
{}

/// A lease has moved just where a Turn that did something stands behind its Take.
pub fn idle_turns_follow_others()
    ensures found { (worker pid : ℕ) (start : Group) (origin_epoch : ℕ) (limits : Limits)
        (marks : List Mark)
        → Legal start origin_epoch limits marks
        → IsTrue (has_moved (progress_after limits.quantum (progress_at origin_epoch start)
        marks).leases worker pid)
        → (b : List Mark) × (m : Mark) × (c : List Mark) × (marks ≡ b ++ m ∷ c)
        × IsTrue (did_something (progress_after limits.quantum (progress_at origin_epoch start) b)
        m)
        × (list_any (is_take_of worker pid) c ≡ false) }
    ensures stands { (worker pid quantum : ℕ) (r : Progress) (b : List Mark) (m : Mark)
        (c : List Mark)
        → IsTrue (did_something (progress_after quantum r b) m)
        → list_any (is_take_of worker pid) c ≡ false
        → IsTrue (list_any (is_lease worker pid) (progress_after quantum r (b ++ m ∷ c)).leases)
        → IsTrue (has_moved (progress_after quantum r (b ++ m ∷ c)).leases worker pid) }
{}

/// What each legal trace keeps to; so at most one Barrier, the last one, has no Ack.
pub fn one_commit_at_a_time()
    ensures order { (start : Group) (origin_epoch : ℕ) (limits : Limits) (marks : List Mark)
        → Legal start origin_epoch limits marks → IsInOrder limits origin_epoch
        (progress_after limits.quantum (progress_at origin_epoch start) marks) }
    ensures one { (start : Group) (origin_epoch : ℕ) (limits : Limits) (marks : List Mark)
        → Legal start origin_epoch limits marks
        → (epoch : ℕ) → list_any (is_barrier_of epoch) marks ≡ true
        → (list_any (is_ack_of epoch) marks ≡ true) ⊎ (epoch ≡ origin_epoch + barriers_in marks) }
{}

/// A Barrier makes its epoch's checkpoint: the group right after it, with the pages that the interval before it touched,
/// whatever follows. No other mark makes one.
pub fn barriers_make_checkpoints()
    ensures made { (start : Group) (origin_epoch : ℕ) (limits : Limits) (a : List Mark) (epoch : ℕ)
        (b : List Mark) → Legal start origin_epoch limits (a ++ Barrier epoch ∷ b)
        → checkpoint_of (progress_after limits.quantum (progress_at origin_epoch start)
        (a ++ Barrier epoch ∷ b)) epoch
        ≡ Some (checkpoint (progress_after limits.quantum (progress_at origin_epoch start) a)
        epoch) }
    ensures others { (quantum : ℕ) (r : Progress) (marks : List Mark) (epoch : ℕ)
        → list_any (is_barrier_of epoch) marks ≡ false
        → checkpoint_of (progress_after quantum r marks) epoch ≡ checkpoint_of r epoch }
{}

/// The smallest run: a process that ends at once, whatever stands behind its code and on its stack.
pub fn smallest_run()
    ensures solo { (rest stack : List ℕ)
        → IsSoloTrace (exits_at_once rest stack) 0 default_limits exit_trace }
    ensures done { (rest stack : List ℕ)
        → IsDone (progress_after 1000 (progress_at 0 (exits_at_once rest stack))
        exit_trace).state.group }
    ensures output { (rest stack : List ℕ)
        → (progress_after 1000 (progress_at 0 (exits_at_once rest stack)) exit_trace).output ≡ [] }
{}

/// The next run: a process that writes three bytes and ends.
pub fn second_run()
    ensures solo { (rest stack : List ℕ)
        → IsSoloTrace (says_hi rest stack) 0 default_limits hi_trace }
    ensures done { (rest stack : List ℕ)
        → IsDone (progress_after 1000 (progress_at 0 (says_hi rest stack)) hi_trace).state.group }
    ensures output { (rest stack : List ℕ)
        → (progress_after 1000 (progress_at 0 (says_hi rest stack)) hi_trace).output
        ≡ 0x68 ∷ 0x69 ∷ 0x0a ∷ [] }
{}

/// Calls that are refused: write on a descriptor that isn't open (-9), write from an address that can't be read (-14), and
/// a number that is no call (-38).
pub fn refused_calls()
    ensures closed { (rest stack : List ℕ)
        → map (λ (p : Proc). slice_index p.regs 9)
        (steps_of (state_at 0 (asks_in_vain rest stack)) 1 3).group.frame.procs
        ≡ 18446744073709551607 ∷ [] }
    ensures unreadable { (rest stack : List ℕ)
        → map (λ (p : Proc). slice_index p.regs 9)
        (steps_of (state_at 0 (asks_in_vain rest stack)) 1 7).group.frame.procs
        ≡ 18446744073709551602 ∷ [] }
    ensures unknown { (rest stack : List ℕ)
        → map (λ (p : Proc). slice_index p.regs 9)
        (steps_of (state_at 0 (asks_in_vain rest stack)) 1 9).group.frame.procs
        ≡ 18446744073709551578 ∷ [] }
{}

/// The end of a process in a family: it stays with its status, its running child has no parent any more, its ended child is
/// gone, and so are its memory object and the description that it alone had.
pub fn end_in_a_family()
    ensures { (rest parents childs : List ℕ)
        → (steps_of (state_at 0 (family rest parents childs)) 2 3).group
        ≡ family_left parents childs }
{}

/// Two workers with a process each, from a checkpoint of epoch 1: both leases are out at once, and end in either order. After
/// two barriers both processes have ended.
pub fn two_workers_run()
    ensures legal { (rest others : List ℕ)
        → Legal (two_processes rest others) 1 two_workers two_workers_trace }
    ensures done { (rest others : List ℕ)
        → let r = progress_after 1000 (progress_at 1 (two_processes rest others))
        two_workers_trace in IsDone r.state.group }
    ensures acked { (rest others : List ℕ)
        → let r = progress_after 1000 (progress_at 1 (two_processes rest others))
        two_workers_trace in r.state.standing.acked ≡ 3 }
{}

/// There is at most one whole trace of a run on one thread, what such a run has logged so far is its beginning, and it comes
/// from one rest to the next. In it a Take is followed by its Turn, a Barrier by its Fetch and that by its Ack.
pub fn one_trace_on_one_thread()
    ensures one { (start : Group) (origin_epoch : ℕ) (limits : Limits) (a b : List Mark)
        → IsSoloTrace start origin_epoch limits a → IsSoloTrace start origin_epoch limits b
        → a ≡ b }
    ensures follows { (start : Group) (origin_epoch : ℕ) (limits : Limits) (a : List Mark) (x y :
        Mark)
        (b : List Mark) → IsSoloSoFar start origin_epoch limits (a ++ x ∷ y ∷ b) → Follows x y }
    ensures legal { (start : Group) (origin_epoch : ℕ) (limits : Limits) (marks : List Mark)
        → IsSoloSoFar start origin_epoch limits marks → Legal start origin_epoch limits marks }
    ensures so_far { (start : Group) (origin_epoch : ℕ) (limits : Limits) (marks : List Mark)
        → IsSoloPrefix start origin_epoch limits marks
        → IsSoloSoFar start origin_epoch limits marks }
    // where the start's mark is its last position, as at the start of every run
    ensures goes_on { (start : Group) (origin_epoch : ℕ) (limits : Limits) (marks : List Mark)
        → start.frame.out.from ≤ start.frame.out.mark
        → start.frame.out.mark ≡ last_position start.frame.out → 0 < limits.every
        → IsSoloSoFar start origin_epoch limits marks
        → IsSoloPrefix start origin_epoch limits marks }
    ensures rests { (start : Group) (origin_epoch : ℕ) (limits : Limits)
        → RestsFollow start origin_epoch limits }
{}

/// A turn in a valid group, and each call that is defined, changes no page that it doesn't touch, of an object that was there
/// before: its bytes stay, or its object has gone. A page of a new object that isn't touched is all zero, or the copy of one
/// that wasn't touched so far. What was touched stays touched until the barrier, which begins an interval anew.
pub fn untouched_pages_stay()
    ensures stay { (quantum : ℕ) (s : State) (pid n : ℕ) (so_far : List (ℕ × ℕ))
        → GroupIsValid s.group
        → LeavesUntouched s.group so_far (touched_with_turn quantum s pid n so_far)
        (turned quantum s pid n).group }
    ensures calls { (durable : Bool) (g : Group) (pid : ℕ) (p : Proc) (number : ℕ)
        (so_far : List (ℕ × ℕ)) → GroupIsValid g → runner g pid ≡ Some p
        → let reply = call_in durable g p number in
        LeavesUntouched g so_far (touched_by_reply g p so_far number reply)
        (after_reply g p reply) }
    ensures grow { (quantum : ℕ) (s : State) (pid n : ℕ) (so_far : List (ℕ × ℕ)) (page : ℕ × ℕ)
        → is_among so_far page ≡ true
        → is_among (touched_with_turn quantum s pid n so_far) page ≡ true }
    ensures begins { (quantum : ℕ) (r : Progress) (epoch : ℕ)
        → (after_mark quantum r (Barrier epoch)).touched ≡ [] }
{}

/// At a new disk's first barrier each page that isn't all zero is touched.
pub fn first_checkpoint_has_all()
    ensures { (quantum : ℕ) (start : Group) (marks : List Mark) (epoch : ℕ) → GroupIsValid start
        → list_any is_barrier marks ≡ false
        → (page : ℕ × ℕ) → let r = progress_after quantum (progress_at 0 start) marks in
        is_among (nonzero_pages r.state.group) page ≡ true
        → is_among (checkpoint r epoch).touched page ≡ true }
{}

/// After a legal trace no worker has two leases and no process has, and where the group was valid and isn't worn each lease
/// is of a running process.
pub fn leases_are_apart()
    ensures apart { (start : Group) (origin_epoch : ℕ) (limits : Limits) (marks : List Mark)
        → Legal start origin_epoch limits marks
        → AreDistinct (progress_after limits.quantum (progress_at origin_epoch start) marks).leases }
    ensures running { (limits : Limits) (origin_epoch : ℕ) (start : Group) (marks : List Mark)
        → LimitsFit limits
        → GroupIsValid start → HasUnwornNumbers start.frame → Legal start origin_epoch limits marks
        → let r = progress_after limits.quantum (progress_at origin_epoch start) marks in
        AreOfRunning r.state.group r.leases }
{}

/// A legal run from a valid group that isn't worn keeps it valid, and its numbers far from their types' ends: after each
/// mark, and within a turn after each step.
pub fn runs_keep_validity()
    ensures marks { (limits : Limits) (origin_epoch : ℕ) (start : Group) (marks : List Mark)
        → LimitsFit limits
        → GroupIsValid start → HasUnwornNumbers start.frame → Legal start origin_epoch limits marks
        → let r = progress_after limits.quantum (progress_at origin_epoch start) marks in
        GroupIsValid r.state.group × IsFresh r.state.group }
    ensures steps { (limits : Limits) (origin_epoch : ℕ) (start : Group) (marks : List Mark)
        → LimitsFit limits
        → GroupIsValid start → HasUnwornNumbers start.frame → Legal start origin_epoch limits marks
        → (pid n : ℕ) → n ≤ limits.quantum
        → let s = (progress_after limits.quantum (progress_at origin_epoch start) marks).state in
        GroupIsValid (steps_of s pid n).group × IsFresh (steps_of s pid n).group }
    // each further mark is allowed where it stands, and the group is valid there
    ensures each { (limits : Limits) (origin_epoch : ℕ) (start : Group) (before marks : List Mark)
        → LimitsFit limits → GroupIsValid start → HasUnwornNumbers start.frame
        → Legal start origin_epoch limits (before ++ marks)
        → EachMark (λ r m. GroupIsValid r.state.group × Allowed limits r m) limits.quantum
        (progress_after limits.quantum (progress_at origin_epoch start) before) marks }
{}
