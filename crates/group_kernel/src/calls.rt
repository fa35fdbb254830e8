//! The system calls that are served, by their numbers.
ghost use Rattle.std.specs.Prelude.{◌≡◌, ◌≤◌, ◌-◌, ◌^◌, IfOk, IsTrue, OnErr, OnOk};
ghost use Rattle.descriptors.specs.Opens.{descriptions};
ghost use Rattle.group_defs.specs.Valid.{OutValid};
ghost use Rattle.group_kernel.specs.ServedCalls.{after_answer, after_call, after_outcome, call_end};
ghost use Rattle.rv64_isa.specs.Registers.{answered, call_number};
ghost use Rattle.syscalls_io.specs.IoCalls.{after_io_call, is_io_call};

use descriptors::DescTable;
use group_defs::UserMem;
use group_defs::calls::{ENOSYS, EXIT, EXIT_GROUP, WRITE};
use lists::NoMemory;
use rv64_core::Regs;
use std::alloc::Global;
use syscalls_io::{CallAnswer, IoTables, io_call};

/// What comes of the step that isn't local.
#[derive(Clone, Copy, Debug, Drop, PartialEq, Eq)]
pub enum StepEnd {
    /// The process goes on, or waits where it stands.
    GoesOn,
    /// The process ends with this wait status.
    Ends { status: u32 },
}

fn refuse(regs: &mut Regs, errno: u64)
    requires { 1 ≤ errno }
    ensures { regs.new ≡ answered regs.old (2 ^ 64 - errno) }
{
    regs.answer(errno.wrapping_neg());
}

// Gives the registers what a call answers; where it waits they stay.
fn give(regs: &mut Regs, answer: CallAnswer)
    ensures { regs.new ≡ after_answer regs.old answer }
{
    if let CallAnswer::Done(value) = answer {
        regs.answer(value.cast_unsigned());
    }
}

// Carries out a call on a descriptor.
fn call_on_descriptor<M: UserMem>(
    alloc: Global,
    io: &mut IoTables,
    fds: &mut DescTable,
    regs: &mut Regs,
    memory: &mut M,
) -> Result<StepEnd, NoMemory>
    requires number { IsTrue (is_io_call (call_number regs.old)) }
    requires out { OutValid io.old.out }
    ensures ok { IfOk result (λ end. call_end end regs.new io.new.out
        ≡ after_outcome regs.old (after_io_call fds.old.entries (descriptions io.old.opens.entries)
        (M.cells memory.old) regs.old io.old.out)) }
    ensures others { OnOk result (io.new ≡ record io.old { out = io.new.out }) }
    ensures err { OnErr result ((regs.new ≡ regs.old) × (io.new ≡ io.old)) }
    ensures fds { fds.new ≡ fds.old }
    ensures memory { memory.new ≡ memory.old }
{
    let answer = io_call(alloc, regs, fds, io, memory, false)?;
    give(regs, answer);
    Ok(StepEnd::GoesOn)
}

/// Carries out the call that a process stands at. It changes nothing where it waits, or finds no memory.
pub fn call<M: UserMem>(
    alloc: Global,
    io: &mut IoTables,
    fds: &mut DescTable,
    regs: &mut Regs,
    memory: &mut M,
) -> Result<StepEnd, NoMemory>
    requires { OutValid io.old.out }
    ensures ok { IfOk result (λ end. call_end end regs.new io.new.out
        ≡ after_call fds.old.entries (descriptions io.old.opens.entries) (M.cells memory.old)
        regs.old io.old.out) }
    ensures others { OnOk result (io.new ≡ record io.old { out = io.new.out }) }
    ensures err { OnErr result ((regs.new ≡ regs.old) × (io.new ≡ io.old)) }
    ensures fds { fds.new ≡ fds.old }
    ensures memory { memory.new ≡ memory.old }
{
    match regs.get(17) {
        WRITE => return call_on_descriptor(alloc, io, fds, regs, memory),
        EXIT | EXIT_GROUP => {
            let status = 256 * (regs.get(10) % 256);
            return Ok(StepEnd::Ends {
                status: status as u32,
            });
        }
        _ => refuse(regs, ENOSYS),
    }
    Ok(StepEnd::GoesOn)
}
