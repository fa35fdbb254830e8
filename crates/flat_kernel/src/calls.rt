//! The system calls of the process.
ghost use Rattle.std.specs.Prelude.{◌≡◌, ◌≤◌, ◌-◌, ◌^◌, ◌==◌, ◌↔◌, true, false, IsTrue, OnOk};
ghost use Rattle.std.specs.List.{find};
ghost use Rattle.std.specs.Option.{option_map};
ghost use Rattle.rv64_isa.specs.Instruction.{instruction, calls};
ghost use Rattle.rv64_isa.specs.Memory.{readable};
ghost use Rattle.rv64_isa.specs.Numbers.{low_word};
ghost use Rattle.rv64_isa.specs.Registers.{a1, a2, answered};
ghost use Rattle.group_defs.specs.Changes.{open_at};
ghost use Rattle.group_defs.specs.ReadWrite.{put_outside, write_outside};
ghost use Rattle.group_defs.specs.Standing.{Standing};
ghost use Rattle.group_defs.specs.Step.{after_reply, continued, group_step, is_local, is_waiting, reply_to};
ghost use Rattle.descriptors.specs.Descriptors.{number_at};
ghost use Rattle.flat_kernel.specs.Descriptors.{is_at_outside, must_wait, writes_outside};
ghost use Rattle.flat_kernel.specs.Engine.{cells_in, ended_group, group_in, process_in, state_in, IsRunnable};

use crate::engine_group::{EngineGroup, Fixed};
use group_defs::calls::{EBADF, EFAULT, ENOSYS, EXIT, EXIT_GROUP, WRITE};
use group_defs::{Open, OpenKind};
use lists::NoMemory;
use rv64_core::Regs;
use rv64_isa::{Act, act_at};

/// Whether the instruction at pc is a system call.
fn is_at_call(g: &EngineGroup) -> bool
    ensures { IsTrue result ↔ (instruction (cells_in g.now) g.now.regs ≡ calls) }
{
    match g.memory.word_at(g.regs.pc) {
        Some(word) => matches!(act_at(&g.regs, word), Act::Calls),
        None => false,
    }
}

/// The number of the description that a descriptor is at.
fn number_of(fds: &[(u32, u64)], descriptor: u64) -> Option<u64>
    ensures { result ≡ number_at fds.now descriptor }
{
    fds.iter()
        .find(|entry| u64::from(entry.0) == descriptor)
        .map(|entry| entry.1)
}

/// What the description of this number is of.
fn kind_of(opens: &[Open], number: u64) -> Option<OpenKind>
    ensures { result ≡ option_map (λ o. o.kind) (find (λ o. o.number == number) opens.now) }
{
    opens
        .iter()
        .find(|open| open.number == number)
        .map(|open| open.kind)
}

/// Whether a descriptor, the low 32 bits of a register, is at the outside.
fn is_outside(fixed: &Fixed, register: u64) -> bool
    ensures { result ≡ is_at_outside (open_at fixed.now.fds fixed.now.opens (low_word register)) }
{
    match number_of(fixed.fds.as_slice(), register % (1 << 32)) {
        Some(number) => matches!(
            kind_of(fixed.opens.as_slice(), number),
            Some(OpenKind::Outside)
        ),
        None => false,
    }
}

/// Whether a call writes to the outside.
fn writes_outside(fixed: &Fixed, regs: &Regs) -> bool
    ensures { result ≡ writes_outside fixed.now regs.now }
{
    regs.get(17) == WRITE && is_outside(fixed, regs.get(10))
}

/// Whether the call that the process stands at must wait: it writes bytes to the outside, which has no room.
fn must_wait(g: &EngineGroup) -> bool
    requires { IsRunnable (group_in g.now) }
    ensures { result ≡ must_wait g.now }
{
    writes_outside(&g.fixed, &g.regs) && g.regs.get(12) != 0 && g.room() == 0
}

/// Whether the process runs, and stands at a system call that must wait.
pub fn is_waiting(g: &EngineGroup) -> bool
    requires { IsRunnable (group_in g.now) }
    ensures { (standing : Standing)
        → result ≡ is_waiting (state_in g.now standing) g.now.fixed.pid }
{
    g.running && is_at_call(g) && must_wait(g)
}

/// Answers the call: x10 gets the value, and the process goes on.
fn answer(g: &mut EngineGroup, value: u64)
    requires running { IsTrue g.old.running }
    ensures goes { group_in g.new ≡ continued (group_in g.old) (process_in g.old)
        (answered g.old.regs value) }
    ensures fixed { g.new.fixed ≡ g.old.fixed }
{
    g.regs.answer(value);
}

/// Refuses the call: the answer is the error's number with a minus.
fn refuse(g: &mut EngineGroup, errno: u64)
    requires running { IsTrue g.old.running }
    requires errno { 1 ≤ errno }
    ensures goes { group_in g.new ≡ continued (group_in g.old) (process_in g.old)
        (answered g.old.regs (2 ^ 64 - errno)) }
    ensures fixed { g.new.fixed ≡ g.old.fixed }
{
    answer(g, errno.wrapping_neg());
}

/// Ends the process: only the next numbers and the output stay.
fn end(g: &mut EngineGroup)
    ensures gone { group_in g.new ≡ ended_group g.old.fixed.next g.old.out }
    ensures fixed { g.new.fixed ≡ g.old.fixed }
{
    g.running = false;
}

/// Writes n bytes to the outside, which has room for them, where they can be read.
fn put(g: &mut EngineGroup, n: u64) -> Result<(), NoMemory>
    requires running { IsTrue g.old.running }
    ensures ok { OnOk result (group_in g.new
        ≡ after_reply (group_in g.old) (process_in g.old)
        (put_outside (group_in g.old) (readable (cells_in g.old) (a1 g.old.regs) n))) }
    ensures fixed { OnOk result (g.new.fixed ≡ g.old.fixed) }
{
    let address = g.regs.get(11);
    if g.memory.readable_into(address, n, &mut g.out.bytes)? {
        answer(g, n);
    } else {
        refuse(g, EFAULT);
    }
    Ok(())
}

/// Writes to the outside: as many bytes as there is room for. Without room it waits.
fn write(g: &mut EngineGroup) -> Result<(), NoMemory>
    requires running { IsTrue g.old.running }
    requires runnable { IsRunnable (group_in g.old) }
    ensures ok { OnOk result (group_in g.new
        ≡ after_reply (group_in g.old) (process_in g.old)
        (write_outside (group_in g.old) (cells_in g.old) (a1 g.old.regs) (a2 g.old.regs))) }
    ensures fixed { OnOk result (g.new.fixed ≡ g.old.fixed) }
{
    let wanted = g.regs.get(12);
    let room = g.room();
    if wanted == 0 {
        answer(g, 0);
        return Ok(());
    }
    if room == 0 {
        return Ok(());
    }
    put(g, wanted.min(room))
}

/// Carries out the call that the process stands at.
fn call(g: &mut EngineGroup) -> Result<(), NoMemory>
    requires running { IsTrue g.old.running }
    requires runnable { IsRunnable (group_in g.old) }
    ensures ok { OnOk result (group_in g.new
        ≡ after_reply (group_in g.old) (process_in g.old)
        (reply_to true (group_in g.old) (process_in g.old))) }
    ensures fixed { OnOk result (g.new.fixed ≡ g.old.fixed) }
{
    match g.regs.get(17) {
        WRITE => {
            if is_outside(&g.fixed, g.regs.get(10)) {
                return write(g);
            }
            refuse(g, EBADF);
        }
        EXIT | EXIT_GROUP => end(g),
        _ => refuse(g, ENOSYS),
    }
    Ok(())
}

/// The step that isn't local: a system call, or a trap, which ends the process.
pub fn other_step(g: &mut EngineGroup) -> Result<(), NoMemory>
    requires running { IsTrue g.old.running }
    requires runnable { IsRunnable (group_in g.old) }
    requires other { is_local (group_in g.old) g.old.fixed.pid ≡ false }
    ensures ok { OnOk result (group_in g.new ≡ group_step true (group_in g.old) g.old.fixed.pid) }
    ensures fixed { OnOk result (g.new.fixed ≡ g.old.fixed) }
{
    if is_at_call(g) {
        return call(g);
    }
    end(g);
    Ok(())
}
