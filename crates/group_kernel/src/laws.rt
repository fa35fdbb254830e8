//! What holds of leases that are out, whatever the kernel.

ghost use Rattle.std.specs.Prelude.{◌≡◌, ◌-◌, ◌≤◌, ◌↔◌, ℕ, Bool, List, IsTrue, false};
ghost use Rattle.std.specs.List.{list_any};
ghost use Rattle.group_defs.specs.Numbers.{HasUnwornNumbers};
ghost use Rattle.group_defs.specs.Valid.{GroupIsValid};
ghost use Rattle.group_parts.specs.Local.{is_local_part};
ghost use Rattle.group_parts.specs.Marks.{is_turn_by};
ghost use Rattle.group_kernel.specs.Leases.{IsLeased, MayGive, part_held};
ghost use Rattle.group_kernel.specs.View.{KernelView, after_marks};
ghost use Rattle.proc_lease.specs.Private.{private_in, views_of};
ghost use Rattle.proc_lease.specs.Running.{AreAfterLocalSteps, Stops};
ghost use Rattle.proc_lease.specs.declared.lease.Halt.TheVariants.{Quantum, Shared};
ghost use Rattle.proc_lease.specs.declared.lease.Lease.{Lease};
ghost use Rattle.run_defs.specs.Legal.{Legal};
ghost use Rattle.run_defs.specs.Limits.{LimitsFit};
ghost use Rattle.run_defs.specs.declared.run.Mark.{Mark};
ghost use Rattle.rv64_isa.specs.Instruction.{instruction};

/// A worker's lease stays one while it runs, and while others log marks: any that are legal, but a Turn of this worker. Where
/// a run of it stopped at the quantum, or before a step that isn't local, it may be given back.
pub fn leases_stay()
    ensures run { (v : KernelView) (worker : ℕ) (old new : Lease) → IsLeased v worker old
        → new.pid ≡ old.pid → old.done ≤ new.done
        → new.process.map.entries ≡ old.process.map.entries
        → AreAfterLocalSteps (new.done - old.done) old.process.map.entries
        old.process.regs (views_of old.process.faces.entries)
        new.process.regs (views_of new.process.faces.entries)
        → IsLeased v worker new }
    ensures others { (v : KernelView) (marks : List Mark) (stopped prepared : Bool) (worker : ℕ)
        (lease : Lease)
        → GroupIsValid v.start → HasUnwornNumbers v.start.frame → LimitsFit v.limits
        → Legal v.start v.origin_epoch v.limits (after_marks v marks).marks
        → list_any (is_turn_by worker) marks ≡ false
        → IsLeased v worker lease → IsLeased (record (after_marks v marks) {
          stopped = stopped;
          prepared = prepared;
        }) worker lease }
    ensures quantum { (quantum : ℕ) (lease : Lease) → Stops Quantum lease.done quantum
        (instruction (private_in (views_of lease.process.faces.entries)
        lease.process.map.entries) lease.process.regs) → MayGive quantum lease }
    ensures shared { (quantum : ℕ) (lease : Lease) → Stops Shared lease.done quantum
        (instruction (private_in (views_of lease.process.faces.entries)
        lease.process.map.entries) lease.process.regs) → MayGive quantum lease }
{}
