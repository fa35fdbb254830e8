//! What holds of the definitions of a step, whatever the group.

ghost use Rattle.std.specs.Prelude.{Any, ◌≡◌, ◌⊎◌, ◌+◌, ◌<◌, ◌≤◌, ◌==◌, if◌then◌else◌, ℕ, Bool, List, Some, IsTrue, true, false, Option};
ghost use Rattle.rv64_isa.specs.Instruction.{instruction, list_of, steps};
ghost use Rattle.rv64_isa.specs.declared.regs.Regs.{Regs};
ghost use Rattle.rv64_isa.specs.Memory.{Cell, Write, is_same_place, private_cells, stored_all};
ghost use Rattle.address_maps.specs.Mappings.{mapping_at};
ghost use Rattle.std.specs.Option.{option_map};
ghost use Rattle.group_defs.specs.declared.frame.Proc.{Proc};
ghost use Rattle.address_maps.specs.declared.maps.Mapping.{Mapping};
ghost use Rattle.group_defs.specs.Cells.{AllInside, bytes_in, cells_of, sight, with_byte_at, with_writes};
ghost use Rattle.group_defs.specs.Fork.{maps_privately};
ghost use Rattle.group_defs.specs.Group.{Group, runner, regs_of, with_regs};
ghost use Rattle.group_defs.specs.Objects.{is_of_file, maps_object};
ghost use Rattle.group_defs.specs.Output.{with_output};
ghost use Rattle.group_defs.specs.Standing.{Standing, State, acknowledged, barrier, is_durable, since_of, stepped};
ghost use Rattle.group_laws.specs.Fresh.{IsFresh, Rises};
ghost use Rattle.group_laws.specs.Outside.{bytes_for_outside, step_writes_outside, call_writes_outside};
ghost use Rattle.group_defs.specs.Step.{after_effect, after_reply, call_in, group_step, group_waits, is_local};
ghost use Rattle.group_defs.specs.Pages.{is_among, touched_by_reply, touched_with_step};
ghost use Rattle.group_defs.specs.Valid.{GroupIsValid};
ghost use Rattle.tables.specs.Rising.{Rise};

/// A step of any process, by an instruction or a call, keeps a group valid while its next numbers and its last position are
/// far from their types' ends. So does every call that is defined, of any running process, whether the program has it or not.
pub fn steps_keep_validity()
    ensures step { (durable : Bool) (g : Group) (pid : ℕ) → GroupIsValid g → IsFresh g
        → GroupIsValid (group_step durable g pid) }
    ensures calls { (durable : Bool) (g : Group) (pid number : ℕ) (p : Proc) → GroupIsValid g
        → IsFresh g → runner g pid ≡ Some p
        → GroupIsValid (after_reply g p (call_in durable g p number)) }
{}

/// So do a barrier and an acknowledgement.
pub fn barriers_keep_validity()
    ensures made { (s : State) (epoch : ℕ) → GroupIsValid s.group → GroupIsValid (barrier s epoch).group }
    ensures acknowledged { (s : State) (epoch : ℕ) → GroupIsValid s.group
        → GroupIsValid (acknowledged s epoch).group }
{}

/// How far the next numbers and the last position rise at most in a step, and by every call that is defined.
pub fn steps_rise()
    ensures step { (durable : Bool) (g : Group) (pid : ℕ) → GroupIsValid g
        → Rises g (group_step durable g pid) }
    ensures calls { (durable : Bool) (g : Group) (p : Proc) (number : ℕ) → GroupIsValid g
        → Rises g (after_reply g p (call_in durable g p number)) }
{}

/// A waiting process's step changes nothing, and a process that waits isn't local.
pub fn waiting_changes_nothing()
    ensures same { (durable : Bool) (g : Group) (pid : ℕ) → IsTrue (group_waits durable g pid)
        → group_step durable g pid ≡ g }
    ensures not_local { (durable : Bool) (g : Group) (pid : ℕ) → IsTrue (is_local g pid)
        → group_waits durable g pid ≡ false }
{}

/// A local step is the step on the cells of private mappings alone. It is made from the process's registers and what it sees
/// of its private mappings, and so are these afterwards, whatever the other processes are. It stores to these alone: the bytes
/// of every object that the process doesn't map privately stay, and so does every byte that it or another running process sees
/// through a shared mapping.
pub fn local_steps_are_private()
    ensures step { (durable : Bool) (g : Group) (pid : ℕ) (p : Proc) → runner g pid ≡ Some p
        → IsTrue (is_local g pid) → group_step durable g pid
        ≡ after_effect durable g p (instruction (private_cells (sight g p)) (regs_of p)) }
    ensures own { (durable : Bool) (g : Group) (pid : ℕ) (p : Proc) → GroupIsValid g
        → runner g pid ≡ Some p → IsTrue (is_local g pid) → (r : Regs) × (stored : Option Write)
        × (instruction (private_cells (sight g p)) (regs_of p) ≡ steps r stored)
        × (runner (group_step durable g pid) pid ≡ Some (with_regs r p))
        × (private_cells (cells_of (group_step durable g pid).memory p.maps)
        ≡ stored_all (private_cells (sight g p)) (list_of stored)) }
    ensures elsewhere { (durable : Bool) (g : Group) (pid : ℕ) (p : Proc) (object : ℕ)
        → runner g pid ≡ Some p → IsTrue (is_local g pid) → maps_privately p.maps object ≡ false
        → bytes_in (group_step durable g pid).memory object ≡ bytes_in g.memory object }
    ensures shared { (durable : Bool) (g : Group) (pid other : ℕ) (p q : Proc) (a : ℕ) (c : Cell)
        → GroupIsValid g → runner g pid ≡ Some p → runner g other ≡ Some q
        → IsTrue (is_local g pid) → sight g q a ≡ Some c → c.shared ≡ true
        → cells_of (group_step durable g pid).memory q.maps a ≡ Some c }
{}

/// A step of one process, by an instruction or any call, leaves every other running process as it is, but for a parent that it
/// ends, who is none then; it changes no byte of an object that its own process doesn't map and another running one does, so
/// each other sees the same of its private mappings; and it touches no page of an object of the group that its own process
/// doesn't map and that isn't a file's.
pub fn others_stay()
    ensures processes { (durable : Bool) (g : Group) (pid other : ℕ) (p : Proc)
        → Rise (λ q. q.pid) g.frame.procs → (pid == other) ≡ false → runner g other ≡ Some p
        → (q : Proc) × (runner (group_step durable g pid) other ≡ Some q)
        × (q ≡ record p { parent = q.parent })
        × ((q.parent ≡ p.parent) ⊎ ((q.parent ≡ 0) × (p.parent ≡ pid))) }
    ensures bytes { (durable : Bool) (g : Group) (pid other : ℕ) (p q : Proc) (object : ℕ)
        → GroupIsValid g → (pid == other) ≡ false → runner g pid ≡ Some p → runner g other ≡ Some q
        → maps_object object q ≡ true → maps_object object p ≡ false
        → bytes_in (group_step durable g pid).memory object ≡ bytes_in g.memory object }
    ensures private { (durable : Bool) (g : Group) (pid other : ℕ) (p : Proc) → GroupIsValid g
        → (pid == other) ≡ false → runner g other ≡ Some p
        → private_cells (cells_of (group_step durable g pid).memory p.maps)
        ≡ private_cells (sight g p) }
    ensures pages { (durable : Bool) (g : Group) (pid : ℕ) (p : Proc) (so_far : List (ℕ × ℕ))
        (object page : ℕ) → GroupIsValid g → runner g pid ≡ Some p
        → maps_object object p ≡ false → is_of_file g.frame.files object ≡ false
        → object < g.frame.next.object → is_among so_far (object, page) ≡ false
        → is_among (touched_with_step durable g pid so_far) (object, page) ≡ false }
{}

/// So does every call that is defined, whether the program has it or not: it leaves every other running process as a step does;
/// it changes no byte of an object that the caller doesn't map and another running process does, so each other sees the same of
/// its private mappings; and it touches no page of an object of the group that the caller doesn't map and that isn't a file's.
pub fn others_stay_by_calls()
    ensures processes { (durable : Bool) (g : Group) (pid other number : ℕ) (p x : Proc)
        → Rise (λ q. q.pid) g.frame.procs → (pid == other) ≡ false → runner g pid ≡ Some p
        → runner g other ≡ Some x
        → (q : Proc)
        × (runner (after_reply g p (call_in durable g p number)) other ≡ Some q)
        × (q ≡ record x { parent = q.parent })
        × ((q.parent ≡ x.parent) ⊎ ((q.parent ≡ 0) × (x.parent ≡ pid))) }
    ensures bytes { (durable : Bool) (g : Group) (pid other number : ℕ) (p q : Proc) (object : ℕ)
        → GroupIsValid g → (pid == other) ≡ false → runner g pid ≡ Some p → runner g other ≡ Some q
        → maps_object object q ≡ true → maps_object object p ≡ false
        → bytes_in (after_reply g p (call_in durable g p number)).memory object
        ≡ bytes_in g.memory object }
    ensures private { (durable : Bool) (g : Group) (pid other number : ℕ) (p q : Proc)
        → GroupIsValid g → (pid == other) ≡ false → runner g pid ≡ Some p → runner g other ≡ Some q
        → private_cells (cells_of (after_reply g p (call_in durable g p number)).memory q.maps)
        ≡ private_cells (sight g q) }
    ensures pages { (durable : Bool) (g : Group) (pid number : ℕ) (p : Proc)
        (so_far : List (ℕ × ℕ)) (object page : ℕ) → GroupIsValid g → runner g pid ≡ Some p
        → maps_object object p ≡ false → is_of_file g.frame.files object ≡ false
        → object < g.frame.next.object
        → is_among (touched_by_reply g p so_far number (call_in durable g p number)) (object, page)
        ≡ false }
{}

/// Only a call of write to the outside appends to the group's output: every other call that is defined, and every step that
/// isn't such a call, leaves the output as it was. Such a call appends the bytes at its buffer, as many as there is room for,
/// and none where one of them can't be read.
pub fn others_leave_the_output()
    ensures calls { (durable : Bool) (g : Group) (p : Proc) (number : ℕ)
        → call_writes_outside g p number ≡ false
        → (after_reply g p (call_in durable g p number)).frame.out ≡ g.frame.out }
    ensures step { (durable : Bool) (g : Group) (pid : ℕ) → step_writes_outside g pid ≡ false
        → (group_step durable g pid).frame.out ≡ g.frame.out }
    ensures written { (durable : Bool) (g : Group) (p : Proc) (number : ℕ)
        → call_writes_outside g p number ≡ true
        → (after_reply g p (call_in durable g p number)).frame.out
        ≡ with_output g.frame.out (bytes_for_outside g p) }
    ensures written_by_step { (durable : Bool) (g : Group) (pid : ℕ) (p : Proc)
        → runner g pid ≡ Some p → step_writes_outside g pid ≡ true
        → (group_step durable g pid).frame.out
        ≡ with_output g.frame.out (bytes_for_outside g p) }
{}

/// After a step the next barrier is the first that covers the process that made it, and a child that it made, which has the
/// number that was next: so it isn't durable until that barrier is acknowledged. Every other process stays as it was.
pub fn steps_want_the_next_barrier()
    ensures own { (s : Standing) (pid next : ℕ) (procs : List Proc)
        → Rise (λ q. q.pid) procs → (q : Proc) → Any (λ x. x ≡ q) procs
        → q.pid ≡ pid → since_of (stepped s pid next procs) q.pid ≡ s.last + 1 }
    ensures child { (s : Standing) (pid next : ℕ) (procs : List Proc)
        → Rise (λ q. q.pid) procs → (q : Proc) → Any (λ x. x ≡ q) procs
        → q.pid ≡ next → since_of (stepped s pid next procs) q.pid ≡ s.last + 1 }
    ensures others { (s : Standing) (pid next : ℕ) (procs : List Proc)
        → Rise (λ q. q.pid) procs → (q : Proc) → Any (λ x. x ≡ q) procs
        → (q.pid ≡ pid → ⊥) → (q.pid ≡ next → ⊥)
        → since_of (stepped s pid next procs) q.pid ≡ since_of s q.pid }
    ensures waits { (s : Standing) (pid next : ℕ) (procs : List Proc)
        → Rise (λ q. q.pid) procs → (q : Proc) → Any (λ x. x ≡ q) procs → s.acked ≤ s.last
        → q.pid ≡ pid → is_durable (stepped s pid next procs) q.pid ≡ false }
{}

/// What a process stores in the flat table is what it then sees, and each byte is seen through every mapping of its object,
/// of other processes too.
pub fn stores_are_seen()
    ensures inside { (g : Group) (pid : ℕ) (p : Proc) → GroupIsValid g → runner g pid ≡ Some p
        → AllInside g.memory p.maps }
    ensures seen { (memory : List (ℕ × List ℕ)) (maps : List Mapping) (writes : List Write)
        → AllInside memory maps → cells_of (with_writes memory maps writes) maps
        ≡ stored_all (cells_of memory maps) writes }
    ensures by_all { (memory : List (ℕ × List ℕ)) (maps others : List Mapping) (a b x : ℕ)
        → AllInside memory maps → cells_of (with_byte_at memory (mapping_at maps a) a b) others x
        ≡ option_map (λ d. if is_same_place (cells_of memory maps a) d then record d { byte = b }
        else d) (cells_of memory others x) }
{}
