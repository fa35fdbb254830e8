//! What holds of a group's parts, whatever the group.

ghost use Rattle.std.specs.Prelude.{◌≡◌, ◌↔◌, ◌⊎◌, ◌<◌, ◌==◌, ◌+◌, ◌++◌, ◌-◌, ◌^◌, Any, if◌then◌else◌, ℕ, Bool, IsTrue, List, [], Option, find, map, Some, true, false};
ghost use Rattle.std.specs.List.{list_any};
ghost use Rattle.group_defs.specs.Calls.{answers, refuses, waits};
ghost use Rattle.group_defs.specs.Cells.{bytes_in, cells_of, sight};
ghost use Rattle.group_defs.specs.Family.{ended};
ghost use Rattle.group_defs.specs.Fork.{maps_privately};
ghost use Rattle.group_defs.specs.Group.{Group, regs_of, runner};
ghost use Rattle.group_defs.specs.Pages.{is_among, touched_with_step};
ghost use Rattle.group_defs.specs.Standing.{State, group_barrier, is_durable};
ghost use Rattle.group_defs.specs.Step.{after_reply, call_in, do_step, effect_in, group_step, is_local, reply_to};
ghost use Rattle.group_defs.specs.Valid.{GroupIsValid};
ghost use Rattle.group_defs.specs.declared.calls.TheConstants.{CLONE};
ghost use Rattle.group_defs.specs.declared.frame.ObjectRec.{ObjectRec};
ghost use Rattle.group_defs.specs.declared.frame.Proc.{Proc};
ghost use Rattle.group_parts.specs.Kept.{KeptParts, PutsPart, StandsFor, TakesPart, all_parts, filled, kept_part, with_part};
ghost use Rattle.group_parts.specs.Leases.{IsLeaseOf, LeasesStand, LeavesLease};
ghost use Rattle.group_parts.specs.Local.{AllLocalPart, OnlyPartChanges, continued_part, is_local_part, steps_of_part, pages_of_steps};
ghost use Rattle.group_parts.specs.Marks.{AreAllowed, is_turn_by, is_turn_of};
ghost use Rattle.group_parts.specs.Parts.{IsApart, PrivatePart, part_in, part_of, public_part};
ghost use Rattle.group_parts.specs.Served.{answered_part, public_ended, step_clones, stored_in};
ghost use Rattle.run_defs.specs.Legal.{Allowed, TakeAllowed, TurnAllowed, is_unleased};
ghost use Rattle.run_defs.specs.Marks.{is_barrier};
ghost use Rattle.run_defs.specs.Progress.{Lease, Progress, after_mark, is_lease, leases_after_turn, progress_after, progress_at};
ghost use Rattle.run_defs.specs.Touched.{touched_with_steps};
ghost use Rattle.run_defs.specs.Turns.{AllLocal, steps_of, turned};
ghost use Rattle.run_defs.specs.declared.run.Limits.{Limits};
ghost use Rattle.run_defs.specs.declared.run.Mark.{Mark};
ghost use Rattle.run_defs.specs.declared.run.Mark.TheVariants.{Take, Turn};
ghost use Rattle.rv64_isa.specs.Instruction.{calls, list_of, steps};
ghost use Rattle.rv64_isa.specs.Memory.{Write};
ghost use Rattle.rv64_isa.specs.Registers.{answered, call_number};
ghost use Rattle.rv64_isa.specs.declared.regs.Regs.{Regs};
ghost use Rattle.tables.specs.Rising.{Rise};

/// The frame law: what one process does leaves the private part of every other, which is its registers, its mappings and the
/// objects that it maps privately. This holds of a step of any kind, its end too, and of every call that is defined; of a mark
/// that is allowed and is no Turn of the other process; and of any such marks in a run. Nor does such a mark touch a page of an
/// object that the other maps privately, but a Barrier, with which the next interval begins.
pub fn frame_law()
    ensures step { (durable : Bool) (g : Group) (pid other : ℕ) (part : PrivatePart)
        → GroupIsValid g → (pid == other) ≡ false → part_of g other ≡ Some part
        → part_of (group_step durable g pid) other ≡ Some part }
    ensures calls { (durable : Bool) (g : Group) (pid other number : ℕ) (p : Proc)
        (part : PrivatePart) → GroupIsValid g → (pid == other) ≡ false → runner g pid ≡ Some p
        → part_of g other ≡ Some part
        → part_of (after_reply g p (call_in durable g p number)) other ≡ Some part }
    ensures mark { (limits : Limits) (r : Progress) (m : Mark) (p : ℕ) (part : PrivatePart)
        → GroupIsValid r.state.group → Allowed limits r m → is_turn_of p m ≡ false
        → part_of r.state.group p ≡ Some part
        → part_of (after_mark limits.quantum r m).state.group p ≡ Some part }
    ensures marks { (limits : Limits) (r : Progress) (marks : List Mark) (p : ℕ)
        (part : PrivatePart) → AreAllowed limits r marks → list_any (is_turn_of p) marks ≡ false
        → part_of r.state.group p ≡ Some part
        → part_of (progress_after limits.quantum r marks).state.group p ≡ Some part }
    ensures pages { (limits : Limits) (r : Progress) (m : Mark) (p : ℕ) (part : PrivatePart)
        (object page : ℕ) → GroupIsValid r.state.group → Allowed limits r m
        → is_turn_of p m ≡ false → is_barrier m ≡ false → part_of r.state.group p ≡ Some part
        → maps_privately part.maps object ≡ true
        → is_among (after_mark limits.quantum r m).touched (object, page)
        ≡ is_among r.touched (object, page) }
{}

/// In a valid group no running process maps what another one maps privately. A legal run keeps its group valid
/// (`runs_keep_validity` of `run_laws`), and so processes apart; and within a turn local steps keep them apart.
pub fn apart_from_the_start()
    ensures valid { (g : Group) → GroupIsValid g → IsApart g }
    ensures within { (s : State) (pid : ℕ) (part : PrivatePart) (n : ℕ) → IsApart s.group
        → part_of s.group pid ≡ Some part → AllLocalPart part n → IsApart (steps_of s pid n).group }
{}

/// Local steps are steps of the private part alone. A process's next step is local where its part's is, and the next n are
/// where the part's are. These make of the part what its own steps make of it, leave the public part and every other private
/// part, and touch the pages that the part's steps store to, which are of objects that it maps privately.
pub fn local_steps_are_of_the_part()
    ensures same { (g : Group) (pid : ℕ) (part : PrivatePart) → part_of g pid ≡ Some part
        → is_local g pid ≡ is_local_part part }
    ensures all { (s : State) (pid : ℕ) (part : PrivatePart) (n : ℕ) → IsApart s.group
        → part_of s.group pid ≡ Some part → AllLocalPart part n ↔ AllLocal s pid n }
    ensures steps { (s : State) (pid : ℕ) (part : PrivatePart) (n : ℕ) → IsApart s.group
        → part_of s.group pid ≡ Some part → AllLocalPart part n
        → OnlyPartChanges pid s.group (steps_of s pid n).group (steps_of_part part n) }
    ensures touched { (s : State) (pid : ℕ) (part : PrivatePart) (n : ℕ) (so_far : List (ℕ × ℕ))
        → IsApart s.group → part_of s.group pid ≡ Some part → AllLocalPart part n
        → touched_with_steps s pid n so_far ≡ so_far ++ pages_of_steps part n }
    ensures own_pages { (part : PrivatePart) (n object page : ℕ)
        → maps_privately part.maps object ≡ false
        → is_among (pages_of_steps part n) (object, page) ≡ false }
{}

/// A lease commutes with what others do: its part is what its local steps make of its process's private part in the present
/// group, from the Take on, after each run of local steps, and after any marks that aren't its worker's Turn. These leave the
/// lease out, touch no page of an object that it maps privately, and make no barrier.
pub fn leases_commute()
    ensures begins { (g : Group) (pid : ℕ) (part : PrivatePart) → part_of g pid ≡ Some part
        → IsLeaseOf g pid 0 part }
    ensures runs { (g : Group) (pid done more : ℕ) (part : PrivatePart)
        → IsLeaseOf g pid done part → AllLocalPart part more
        → IsLeaseOf g pid (done + more) (steps_of_part part more) }
    ensures pages { (part : PrivatePart) (done more : ℕ) → pages_of_steps part (done + more)
        ≡ pages_of_steps part done ++ pages_of_steps (steps_of_part part done) more }
    ensures found { (limits : Limits) (r : Progress) (marks : List Mark) (worker pid done : ℕ)
        (part : PrivatePart) → AreAllowed limits r marks → LeasesStand r
        → IsTrue (list_any (is_lease worker pid) r.leases)
        → list_any (is_turn_by worker) marks ≡ false → IsLeaseOf r.state.group pid done part
        → LeavesLease r (progress_after limits.quantum r marks) worker pid done part }
{}

/// What stands of the leases that are out: each is of a running process, no process has two, and one that hasn't moved is of a
/// process that doesn't wait. So it is at the start, and after each mark that is allowed. Nobody has a lease of the next pid,
/// and giving a lease back lets no other be out.
pub fn leases_stand()
    ensures start { (origin : ℕ) (g : Group) → LeasesStand (progress_at origin g) }
    ensures marks { (limits : Limits) (r : Progress) (marks : List Mark)
        → AreAllowed limits r marks → LeasesStand r
        → LeasesStand (progress_after limits.quantum r marks) }
    ensures next { (r : Progress) → LeasesStand r → GroupIsValid r.state.group
        → is_unleased r.leases r.state.group.frame.next.pid ≡ true }
    ensures back { (leases : List Lease) (worker pid : ℕ) (did : Bool) (other : ℕ)
        → is_unleased leases other ≡ true
        → is_unleased (leases_after_turn worker pid did leases) other ≡ true }
{}

/// All parts of a group stand for it.
pub fn starts()
    ensures { (g : Group) → StandsFor [] (all_parts g) g }
{}

/// A Take hands out what the group has of its process, whose part is here; what is kept then stands for the same group with one
/// lease more out.
pub fn takes()
    ensures stands { (limits : Limits) (r : Progress) (k : KeptParts) (worker pid : ℕ)
        (here : List (ℕ × PrivatePart)) → StandsFor r.leases k r.state.group
        → TakesPart k.here here pid
        → let r' = after_mark limits.quantum r (Take worker pid) in
        StandsFor r'.leases (record k { here = here }) r'.state.group }
    ensures lease { (limits : Limits) (r : Progress) (k : KeptParts) (worker pid : ℕ)
        (part : PrivatePart) → StandsFor r.leases k r.state.group
        → TakeAllowed limits r worker pid → kept_part k.here pid ≡ Some part
        → IsLeaseOf r.state.group pid 0 part }
    ensures here { (limits : Limits) (r : Progress) (k : KeptParts) (worker pid : ℕ)
        → StandsFor r.leases k r.state.group → TakeAllowed limits r worker pid
        → (part : PrivatePart) × (kept_part k.here pid ≡ Some part) }
{}

/// A lease is given back at the quantum, or before a step that isn't local: its Turn is allowed then, also where it did
/// nothing. At the quantum what is kept with its part stands for the group after the Turn, and its own pages are all that the
/// Turn touches. Before it the same stands for the group before the step that isn't local, which is part of the Turn and may
/// touch further pages.
pub fn gives()
    ensures allowed { (limits : Limits) (r : Progress) (worker pid done : ℕ) (part : PrivatePart)
        → LeasesStand r → IsApart r.state.group
        → IsTrue (list_any (is_lease worker pid) r.leases) → IsLeaseOf r.state.group pid done part
        → (done ≡ limits.quantum) ⊎ ((done < limits.quantum) × (is_local_part part ≡ false))
        → TurnAllowed limits r worker pid done }
    ensures whole { (limits : Limits) (r : Progress) (worker pid done : ℕ) (part : PrivatePart)
        (k : KeptParts) (here : List (ℕ × PrivatePart)) → LeasesStand r → IsApart r.state.group
        → IsTrue (list_any (is_lease worker pid) r.leases) → IsLeaseOf r.state.group pid done part
        → done ≡ limits.quantum → StandsFor r.leases k r.state.group → PutsPart k.here here pid part
        → let r' = after_mark limits.quantum r (Turn worker pid done) in
        StandsFor r'.leases (record k { here = here }) r'.state.group }
    ensures touched { (limits : Limits) (r : Progress) (worker pid done : ℕ) (part : PrivatePart)
        → IsApart r.state.group → (lease : IsLeaseOf r.state.group pid done part)
        → done ≡ limits.quantum → (after_mark limits.quantum r (Turn worker pid done)).touched
        ≡ r.touched ++ pages_of_steps lease.taken done }
    ensures touched_before { (limits : Limits) (r : Progress) (worker pid done : ℕ)
        (part : PrivatePart) → IsApart r.state.group
        → (lease : IsLeaseOf r.state.group pid done part) → done < limits.quantum
        → let s = steps_of r.state pid done in
        (after_mark limits.quantum r (Turn worker pid done)).touched
        ≡ touched_with_step (is_durable s.standing pid) s.group pid
        (r.touched ++ pages_of_steps lease.taken done) }
    ensures back { (r : Progress) (worker pid done : ℕ) (part : PrivatePart) (k : KeptParts)
        (here : List (ℕ × PrivatePart)) (did : Bool) → LeasesStand r → IsApart r.state.group
        → IsTrue (list_any (is_lease worker pid) r.leases) → IsLeaseOf r.state.group pid done part
        → StandsFor r.leases k r.state.group → PutsPart k.here here pid part
        → StandsFor (leases_after_turn worker pid did r.leases) (record k { here = here })
        (steps_of r.state pid done).group }
    ensures short { (limits : Limits) (s : State) (pid n : ℕ) → n < limits.quantum
        → turned limits.quantum s pid n ≡ do_step (steps_of s pid n) pid }
{}

/// A barrier leaves all but the output. Where no lease is out, the frame that a fetch copies is that of the public part with
/// the private parts in their processes' rows, and each object is in one of the parts: its bytes are those of its entry in the
/// public part, or those in the private part of who maps it privately.
pub fn barriers_and_fetches()
    ensures stands { (leases : List Lease) (k : KeptParts) (g : Group) → StandsFor leases k g
        → StandsFor leases (record k { public = group_barrier k.public }) (group_barrier g) }
    ensures frame { (g : Group) (k : KeptParts) → StandsFor [] k g
        → Rise (λ p. p.pid) g.frame.procs → g.frame
        ≡ record k.public.frame { procs = map (with_part k.here) k.public.frame.procs } }
    ensures private_bytes { (leases : List Lease) (k : KeptParts) (g : Group) (pid object : ℕ)
        (part : PrivatePart) → StandsFor leases k g → is_unleased leases pid ≡ true
        → kept_part k.here pid ≡ Some part → maps_privately part.maps object ≡ true
        → bytes_in part.memory object ≡ bytes_in g.memory object }
    ensures public_bytes { (leases : List Lease) (k : KeptParts) (g : Group) (object : ℕ)
        (entry : ℕ × List ℕ) → StandsFor leases k g
        → find (λ o. o.0 == object) k.public.memory ≡ Some entry
        → bytes_in g.memory object ≡ entry.1 }
    ensures objects { (k : KeptParts) (g : Group) (o : ObjectRec) → StandsFor [] k g
        → GroupIsValid g → Any (λ x. x ≡ o) g.frame.objects
        → ((entry : ℕ × List ℕ) × (find (λ e. e.0 == o.number) k.public.memory ≡ Some entry))
        ⊎ ((pid : ℕ) × (part : PrivatePart) × (kept_part k.here pid ≡ Some part)
        × (maps_privately part.maps o.number ≡ true)) }
{}

/// A call's caller is its row of the public part with its private part. What it sees lies in these two parts, and what has to
/// be shown of it is what becomes of them: no step and no call changes what another process has, or lets one run that didn't,
/// but clone's child, which has the next pid.
pub fn calls_by_their_parts()
    ensures sees { (g : Group) (pid : ℕ) (p : Proc) → GroupIsValid g → runner g pid ≡ Some p
        → sight g p ≡ cells_of ((part_in g p).memory ++ (public_part g).memory) p.maps }
    ensures others { (durable : Bool) (g : Group) (pid other : ℕ) → GroupIsValid g
        → (pid == other) ≡ false → step_clones g pid ≡ false
        → part_of (group_step durable g pid) other ≡ part_of g other }
    ensures but_new { (durable : Bool) (g : Group) (pid other : ℕ) → GroupIsValid g
        → (pid == other) ≡ false → (g.frame.next.pid == other) ≡ false
        → part_of (group_step durable g pid) other ≡ part_of g other }
    ensures others_by_calls { (durable : Bool) (g : Group) (pid other number : ℕ) (p : Proc)
        → GroupIsValid g → (pid == other) ≡ false → runner g pid ≡ Some p
        → (number == CLONE) ≡ false
        → part_of (after_reply g p (call_in durable g p number)) other ≡ part_of g other }
    ensures stands { (leases : List Lease) (k new : KeptParts) (g h : Group) (pid : ℕ)
        → StandsFor leases k g → is_unleased leases pid ≡ true
        → ((other : ℕ) → (pid == other) ≡ false → part_of h other ≡ part_of g other)
        → new.public ≡ public_part h → kept_part new.here pid ≡ part_of h pid
        → ((other : ℕ) → (pid == other) ≡ false
        → kept_part new.here other ≡ kept_part k.here other) → StandsFor leases new h }
    ensures caller { (leases : List Lease) (k : KeptParts) (g : Group) (pid : ℕ) (row : Proc)
        (part : PrivatePart) → StandsFor leases k g → is_unleased leases pid ≡ true
        → runner k.public pid ≡ Some row → kept_part k.here pid ≡ Some part
        → runner g pid ≡ Some (filled (Some part) row) }
{}

/// The step of a process whose part is here, by what comes of it: an instruction that isn't local; a call that waits, is
/// refused, or answers; and the end of the process. Where a call answers, h is the group that the answer names and x what its
/// caller is there: its part and the public one are those of h, with new registers, and what is stored lands in both, by the
/// mappings that the caller had. Clone stores nothing, and its child's part is one more. An ended process leaves what the rows
/// of the public part and its own mappings say.
pub fn steps_served()
    ensures instruction { (durable : Bool) (leases : List Lease) (k : KeptParts) (g : Group)
        (pid : ℕ) (p : Proc) → StandsFor leases k g → GroupIsValid g → runner g pid ≡ Some p
        → is_unleased leases pid ≡ true → (r : Regs) (stored : Option Write)
        (here : List (ℕ × PrivatePart)) → effect_in g p ≡ steps r stored
        → PutsPart k.here here pid (continued_part (part_in g p) r (list_of stored))
        → StandsFor leases (record {
          public = stored_in k.public p.maps (list_of stored);
          here = here;
        }) (group_step durable g pid) }
    ensures wait { (durable : Bool) (leases : List Lease) (k : KeptParts) (g : Group) (pid : ℕ)
        (p : Proc) → StandsFor leases k g → GroupIsValid g → runner g pid ≡ Some p
        → is_unleased leases pid ≡ true → effect_in g p ≡ calls → reply_to durable g p ≡ waits
        → StandsFor leases k (group_step durable g pid) }
    ensures refusal { (durable : Bool) (leases : List Lease) (k : KeptParts) (g : Group)
        (pid : ℕ) (p : Proc) → StandsFor leases k g → GroupIsValid g → runner g pid ≡ Some p
        → is_unleased leases pid ≡ true → (errno : ℕ) (here : List (ℕ × PrivatePart))
        → effect_in g p ≡ calls → reply_to durable g p ≡ refuses errno → PutsPart k.here here pid
        (record (part_in g p) { regs = answered (regs_of p) (2 ^ 64 - errno) })
        → StandsFor leases (record k { here = here }) (group_step durable g pid) }
    ensures answer { (durable : Bool) (leases : List Lease) (k : KeptParts) (g : Group)
        (pid : ℕ) (p : Proc) → StandsFor leases k g → GroupIsValid g → runner g pid ≡ Some p
        → is_unleased leases pid ≡ true → (value : ℕ) (h : Group) (writes : List Write) (x : Proc)
        (public : Group) (here : List (ℕ × PrivatePart)) → effect_in g p ≡ calls
        → (call_number (regs_of p) == CLONE) ≡ false
        → reply_to durable g p ≡ answers value h writes → runner h pid ≡ Some x
        → public ≡ public_part h → PutsPart k.here here pid
        (answered_part (part_in h x) (answered (regs_of p) value) p.maps writes)
        → StandsFor leases (record { public = stored_in public p.maps writes; here = here })
        (group_step durable g pid) }
    ensures clone { (durable : Bool) (leases : List Lease) (k : KeptParts) (g : Group) (pid : ℕ)
        (p : Proc) → StandsFor leases k g → GroupIsValid g → runner g pid ≡ Some p
        → is_unleased leases pid ≡ true → (value : ℕ) (h : Group) (x child : Proc)
        (public : Group) (here : List (ℕ × PrivatePart)) → effect_in g p ≡ calls
        → reply_to durable g p ≡ answers value h [] → runner h pid ≡ Some x
        → runner h g.frame.next.pid ≡ Some child → is_unleased leases g.frame.next.pid ≡ true
        → public ≡ public_part h → ((other : ℕ) → kept_part here other ≡ (if pid == other
        then Some (record (part_in h x) { regs = answered (regs_of p) value })
        else if g.frame.next.pid == other then Some (part_in h child)
        else kept_part k.here other))
        → StandsFor leases (record { public = public; here = here }) (group_step durable g pid) }
    ensures end { (durable : Bool) (leases : List Lease) (k : KeptParts) (g : Group) (pid : ℕ)
        (p : Proc) → StandsFor leases k g → GroupIsValid g → runner g pid ≡ Some p
        → is_unleased leases pid ≡ true → (status : ℕ) (here : List (ℕ × PrivatePart))
        → group_step durable g pid ≡ ended g p status → TakesPart k.here here pid
        → StandsFor leases (record { public = public_ended k.public p status; here = here })
        (group_step durable g pid) }
{}
