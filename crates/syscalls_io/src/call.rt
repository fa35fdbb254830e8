//! The calls on descriptors, by their numbers.

ghost use Rattle.std.specs.Prelude.{◌≡◌, ◌↔◌, IfOk, IsTrue, OnErr, OnOk};
ghost use Rattle.descriptors.specs.Opens.{descriptions};
ghost use Rattle.group_defs.specs.Valid.{OutValid};
ghost use Rattle.rv64_isa.specs.Registers.{call_number};
ghost use Rattle.syscalls_io.specs.IoCalls.{after_io_call, is_io_call, outcome};
ghost use Rattle.syscalls_io.specs.Outside.{waits_for_room};
ghost use Rattle.syscalls_io.specs.declared.answer.CallAnswer.TheVariants.{Waits};

use crate::answer::{CallAnswer, refuse};
use crate::io_tables::IoTables;
use crate::outside::{is_outside, write_outside};
use descriptors::DescTable;
use group_defs::UserMem;
use group_defs::calls::{EBADF, WRITE};
use lists::NoMemory;
use rv64_core::Regs;
use std::alloc::Global;

/// Carries out the call on a descriptor that a process stands at. Where it waits, or there is no memory, nothing changes.
/// `durable` says whether all that the process did is in an acknowledged checkpoint.
pub fn io_call<M: UserMem>(
    alloc: Global,
    regs: &Regs,
    descs: &mut DescTable,
    io: &mut IoTables,
    memory: &mut M,
    durable: bool,
) -> Result<CallAnswer, NoMemory>
    requires number { IsTrue (is_io_call (call_number regs.now)) }
    requires out { OutValid io.old.out }
    ensures ok { IfOk result (λ answer. outcome answer io.new.out
        ≡ after_io_call descs.old.entries (descriptions io.old.opens.entries)
        (M.cells memory.old) regs.now io.old.out) }
    ensures waits { IfOk result (λ answer. (answer ≡ Waits) ↔ IsTrue (waits_for_room
        descs.old.entries (descriptions io.old.opens.entries) io.old.out regs.now)) }
    ensures others { OnOk result (io.new ≡ record io.old { out = io.new.out }) }
    ensures err { OnErr result (io.new ≡ io.old) }

    // No call that is served so far changes descriptors or memory.
    ensures descs { descs.new ≡ descs.old }
    ensures memory { memory.new ≡ memory.old }
{
    match regs.get(17) {
        WRITE => write(alloc, regs, descs, io, memory),
        _ => unreachable!(),
    }
}

// Writes to what a descriptor is open at. Only the outside can be written to so far.
fn write<M: UserMem>(
    alloc: Global,
    regs: &Regs,
    descs: &DescTable,
    io: &mut IoTables,
    memory: &M,
) -> Result<CallAnswer, NoMemory>
    requires { OutValid io.old.out }
    ensures ok { IfOk result (λ answer. outcome answer io.new.out
        ≡ after_io_call descs.now.entries (descriptions io.old.opens.entries)
        (M.cells memory.now) regs.now io.old.out) }
    ensures others { OnOk result (io.new ≡ record io.old { out = io.new.out }) }
    ensures err { OnErr result (io.new ≡ io.old) }
{
    if is_outside(io, descs, regs) {
        return write_outside(alloc, regs, &mut io.out, memory);
    }
    Ok(refuse(EBADF))
}
