//! Descriptors at the outside: which calls reach it, which wait for it, and what a write leaves there.

ghost use Rattle.std.specs.Prelude.{◌≡◌, ◌≤◌, IfOk, IfSome, OnErr, length};
ghost use Rattle.std.specs.Option.{option_map};
ghost use Rattle.descriptors.specs.Opens.{descriptions};
ghost use Rattle.group_defs.specs.Calls.{fd_of};
ghost use Rattle.group_defs.specs.Changes.{open_at};
ghost use Rattle.group_defs.specs.Valid.{OutValid};
ghost use Rattle.rv64_isa.specs.Memory.{readable};
ghost use Rattle.rv64_isa.specs.Numbers.{low_word};
ghost use Rattle.syscalls_io.specs.IoCalls.{after_reading, after_write, outcome};
ghost use Rattle.syscalls_io.specs.Outside.{is_at_outside, waits_for_room, writes_to_outside};

use crate::answer::{CallAnswer, refuse};
use crate::io_tables::IoTables;
use crate::output::room_of;
use descriptors::{DescTable, OpenKind};
use group_defs::calls::{EFAULT, WRITE};
use group_defs::{Fault, Out, UserMem};
use lists::NoMemory;
use rv64_core::Regs;
use std::alloc::Global;

// What a descriptor, the low 32 bits of a register, is open at.
fn kind_at(io: &IoTables, descs: &DescTable, register: u64) -> Option<OpenKind>
    ensures { result ≡ option_map (λ o. o.kind) (open_at descs.now.entries
        (descriptions io.now.opens.entries) (low_word register)) }
{
    match descs.get((register % (1 << 32)) as u32) {
        Some(number) => match io.opens.get(number) {
            Some(open) => Some(open.kind),
            None => None,
        },
        None => None,
    }
}

/// Whether a call's descriptor is at the outside.
pub fn is_outside(io: &IoTables, descs: &DescTable, regs: &Regs) -> bool
    ensures { result ≡ is_at_outside (open_at descs.now.entries
        (descriptions io.now.opens.entries) (fd_of regs.now)) }
{
    matches!(kind_at(io, descs, regs.get(10)), Some(OpenKind::Outside))
}

// Whether a call writes to the outside.
fn writes_outside(io: &IoTables, descs: &DescTable, regs: &Regs) -> bool
    ensures { result ≡ writes_to_outside descs.now.entries (descriptions io.now.opens.entries)
        regs.now }
{
    regs.get(17) == WRITE && is_outside(io, descs, regs)
}

/// Whether the call that a process stands at must wait: it writes bytes to the outside, which has no room.
pub fn must_wait(io: &IoTables, descs: &DescTable, regs: &Regs) -> bool
    requires { OutValid io.now.out }
    ensures { result ≡ waits_for_room descs.now.entries (descriptions io.now.opens.entries)
        io.now.out regs.now }
{
    writes_outside(io, descs, regs) && regs.get(12) != 0 && room_of(&io.out) == 0
}

// The n bytes from an address on, where the caller can read them.
fn bytes_at<M: UserMem>(
    alloc: Global,
    memory: &M,
    from: u64,
    n: usize,
) -> Result<Option<Vec<u8>>, NoMemory>
    ensures bytes { IfOk result (λ o. option_map (λ bytes. bytes.items) o
        ≡ readable (M.cells memory.now) from n) }
    ensures count { IfOk result (λ o. IfSome o (λ bytes. length bytes.items ≡ n)) }
{
    let mut bytes = Vec::new(alloc);
    bytes.resize(n, 0)?;
    match memory.copy_in(from, bytes.as_mut_slice()) {
        Ok(()) => Ok(Some(bytes)),
        Err(Fault) => Ok(None),
    }
}

// Writes n bytes to the outside, which has room for them, where they can be read.
fn put<M: UserMem>(
    alloc: Global,
    out: &mut Out,
    memory: &M,
    from: u64,
    n: u64,
) -> Result<CallAnswer, NoMemory>
    requires { n ≤ 1048576 }
    ensures ok { IfOk result (λ answer. outcome answer out.new
        ≡ after_reading out.old (readable (M.cells memory.now) from n)) }
    ensures err { OnErr result (out.new ≡ out.old) }
{
    match bytes_at(alloc, memory, from, n as usize)? {
        Some(bytes) => {
            out.bytes.append(bytes.as_slice())?;
            Ok(CallAnswer::Done(bytes.len() as i64))
        }
        None => Ok(refuse(EFAULT)),
    }
}

/// Writes to the outside: as many bytes as there is room for. Without room the call waits.
pub fn write_outside<M: UserMem>(
    alloc: Global,
    regs: &Regs,
    out: &mut Out,
    memory: &M,
) -> Result<CallAnswer, NoMemory>
    requires { OutValid out.old }
    ensures ok { IfOk result (λ answer. outcome answer out.new
        ≡ after_write (M.cells memory.now) regs.now out.old) }
    ensures err { OnErr result (out.new ≡ out.old) }
{
    let wanted = regs.get(12);
    let room = room_of(out);
    if wanted == 0 {
        return Ok(CallAnswer::Done(0));
    }
    if room == 0 {
        return Ok(CallAnswer::Waits);
    }
    put(alloc, out, memory, regs.get(11), wanted.min(room))
}
