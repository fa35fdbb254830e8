//! The step of a process that isn't local: a system call, a trap, or an instruction that reaches shared memory.
ghost use Rattle.std.specs.Prelude.{◌≡◌, ◌<◌, ◌↔◌, ℕ, Some, length, IfOk, IfSome, IsTrue, OnErr, OnOk};
ghost use Rattle.descriptors.specs.Opens.{descriptions};
ghost use Rattle.group_kernel.specs.Held.{FileFacesOfFiles, pid_at, seen, with_process};
ghost use Rattle.group_kernel.specs.Leases.{IsSameProcess};
ghost use Rattle.group_defs.specs.Valid.{OutValid};
ghost use Rattle.group_kernel.specs.Readiness.{is_ready_row};
ghost use Rattle.group_kernel.specs.SameTables.{IsSameTables};
ghost use Rattle.group_kernel.specs.ServedCalls.{after_call, call_end};
ghost use Rattle.group_kernel.specs.Accesses.{HasAccessed};
ghost use Rattle.proc_lease.specs.Sight.{SeenFits, cells_between, seen_by};
ghost use Rattle.group_kernel.specs.Stepping.{HasEnded, HasStepped, IsUnchanged};
ghost use Rattle.group_kernel.specs.Steps.{ComesToEnd, MakesStep};
ghost use Rattle.group_kernel.specs.declared.calls.StepEnd.TheVariants.{Ends, GoesOn};
ghost use Rattle.rv64_isa.specs.Instruction.{calls, instruction, traps};
ghost use Rattle.shadow_chains.specs.Entries.{number_of};
ghost use Rattle.syscalls_proc.specs.Accessing.{IsNoCall};
ghost use Rattle.tables.specs.Rising.{Rise};

use crate::calls::{StepEnd, call};
use crate::group_tables::GroupTables;
use crate::row::Row;
use descriptors::DescTable;
use lists::NoMemory;
use proc_lease::{CallerMemory, Process, is_at_call};
use shadow_chains::FaceTable;
use std::alloc::Global;
use std::mem;
use syscalls_io::{IoTables, must_wait};
use syscalls_proc::{Access, shared_access};

// Carries out an instruction that is no system call, on private and shared memory alike.
fn access(memory: &mut CallerMemory) -> Result<StepEnd, NoMemory>
    requires { IsNoCall (instruction (cells_between memory.old.process memory.old.shared)
        memory.old.process.regs) }
    ensures goes_on { IfOk result (λ end. end ≡ GoesOn → HasAccessed
        (instruction (cells_between memory.old.process memory.old.shared) memory.old.process.regs)
        (seen_by memory.old.process memory.old.shared)
        (seen_by memory.new.process memory.new.shared) memory.new.process.regs) }
    ensures ends { IfOk result (λ end. (status : ℕ) → end ≡ Ends status
        → (instruction (cells_between memory.old.process memory.old.shared) memory.old.process.regs
        ≡ traps status) × (memory.new.process.regs ≡ memory.old.process.regs)
        × (seen_by memory.new.process memory.new.shared
        ≡ seen_by memory.old.process memory.old.shared)) }
    ensures err { OnErr result ((memory.new.process.regs ≡ memory.old.process.regs)
        × (seen_by memory.new.process memory.new.shared
        ≡ seen_by memory.old.process memory.old.shared)) }
{
    let mut regs = memory.process.regs;
    let accessed = shared_access(&mut regs, memory);
    memory.process.regs = regs;
    match accessed {
        Ok(Access::Stepped) => Ok(StepEnd::GoesOn),
        Ok(Access::Trap { code }) => Ok(StepEnd::Ends { status: code }),
        Err(NoMemory) => Err(NoMemory),
    }
}

// Carries out a system call: the end that it comes to.
fn answer(
    alloc: Global,
    io: &mut IoTables,
    fds: &mut DescTable,
    memory: &mut CallerMemory,
) -> Result<StepEnd, NoMemory>
    requires out { OutValid io.old.out }
    ensures ok { IfOk result (λ end. call_end end memory.new.process.regs io.new.out
        ≡ after_call fds.old.entries (descriptions io.old.opens.entries)
        (cells_between memory.old.process memory.old.shared) memory.old.process.regs
        io.old.out) }
    ensures others { OnOk result (io.new ≡ record io.old { out = io.new.out }) }
    ensures fds { fds.new ≡ fds.old }
    ensures sees { seen_by memory.new.process memory.new.shared
        ≡ seen_by memory.old.process memory.old.shared }
    ensures err { OnErr result ((memory.new.process.regs ≡ memory.old.process.regs)
        × (io.new ≡ io.old)) }
{
    let mut regs = memory.process.regs;
    let end = call(alloc, io, fds, &mut regs, memory)?;
    memory.process.regs = regs;
    Ok(end)
}

// The step on the caller's memory, which was taken out of the tables.
fn step_on(
    alloc: Global,
    io: &mut IoTables,
    fds: &mut DescTable,
    memory: &mut CallerMemory,
) -> Result<StepEnd, NoMemory>
    requires out { OutValid io.old.out }
    ensures private_rise { Rise number_of memory.old.process.faces.entries }
    ensures shared_rise { Rise number_of memory.old.shared.entries }
    ensures fds { fds.new ≡ fds.old }
    ensures goes_on { IfOk result (λ end. end ≡ GoesOn → HasStepped fds.old.entries io.old io.new
        memory.old.process memory.new.process memory.old.shared memory.new.shared) }
    ensures ends { IfOk result (λ end. (status : ℕ) → end ≡ Ends status
        → HasEnded fds.old.entries io.old io.new memory.old.process memory.new.process
        memory.old.shared memory.new.shared status) }
    ensures err { OnErr result (IsUnchanged io.old io.new memory.old.process memory.new.process
        memory.old.shared memory.new.shared) }
{
    let _private = memory.process.faces.len();
    let _shared = memory.shared.len();
    if is_at_call(&memory.process, &memory.shared) {
        return answer(alloc, io, fds, memory);
    }
    access(memory)
}

impl GroupTables {
    /// Whether a row's process is here and doesn't wait.
    pub fn is_ready(&self, row: &Row) -> bool
        requires fits { IfSome row.now.process (λ process. SeenFits
            (seen_by process self.now.shared)) }
        requires out { OutValid self.now.io.out }
        ensures { result ≡ is_ready_row (seen self.now) row.now }
    {
        match &row.process {
            Some(process) => {
                !(is_at_call(process, &self.shared) && must_wait(&self.io, &row.fds, &process.regs))
            }
            None => false,
        }
    }

    /// Makes the step of a process that was given back, whose row is at this place; where it ends by the step, nothing is done
    /// to its row yet. Where there is no memory the process and the tables are as before, though faces may have more room.
    pub fn step(
        &mut self,
        alloc: Global,
        place: usize,
        process: Process,
    ) -> (Process, Result<StepEnd, NoMemory>)
        requires within { place < length self.old.rows.items }
        requires fits { SeenFits (seen_by process self.old.shared) }
        requires files { FileFacesOfFiles (seen self.old) }
        requires out { OutValid self.old.io.out }
        ensures rows { self.new.rows.items ≡ self.old.rows.items }
        ensures goes_on { IfOk result.1 (λ end. end ≡ GoesOn
            → let pid = pid_at (seen self.old) place in
            MakesStep (with_process (seen self.old) pid (Some process))
            (with_process (seen self.new) pid (Some result.0)) pid) }
        ensures ends { IfOk result.1 (λ end. (status : ℕ) → end ≡ Ends status
            → let pid = pid_at (seen self.old) place in
            ComesToEnd (with_process (seen self.old) pid (Some process)) pid status
            × IsSameTables (seen self.old) (seen self.new) × IsSameProcess process result.0) }
        ensures tables { OnErr result.1 (IsSameTables (seen self.old) (seen self.new)) }
        ensures process { OnErr result.1 (IsSameProcess process result.0) }
    {
        let shared = mem::replace(&mut self.shared, FaceTable::new(alloc));
        let mut memory = CallerMemory { process, shared };
        let fds = &mut self.rows[place].fds;
        let end = step_on(alloc, &mut self.io, fds, &mut memory);
        let CallerMemory { process, shared } = memory;
        self.shared = shared;
        (process, end)
    }
}
