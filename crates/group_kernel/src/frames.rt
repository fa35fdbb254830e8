//! The frame of the group after its next barrier, as a copy.
ghost use Rattle.std.specs.Prelude.{◌≡◌, ◌≤◌, IfOk, drop, length, map};
ghost use Rattle.group_defs.specs.Output.{out_after_barrier};
ghost use Rattle.group_defs.specs.Valid.{OutValid};
ghost use Rattle.group_kernel.specs.Held.{marked_frame, public_frame, seen, with_part_here};

use crate::group_tables::GroupTables;
use crate::row::Row;
use address_maps::Mapping;
use group_defs::{Frame, Out, Proc};
use lists::{NoMemory, Seq};
use rv64_core::Regs;
use std::alloc::Global;
use syscalls_io::{IoTables, last_of};

fn copy_of<T: Copy + Drop>(alloc: Global, items: &[T]) -> Result<Seq<T>, NoMemory>
    ensures { IfOk result (λ list. list ≡ items.now) }
{
    Ok(Seq::of(Vec::from_slice(alloc, items)?))
}

// Registers of zeros where the private part isn't here.
fn regs_of(row: &Row) -> Regs
    ensures pc { result.pc ≡ (with_part_here row.now).pc }
    ensures x { result.x ≡ (with_part_here row.now).regs }
{
    match &row.process {
        Some(process) => process.regs,
        None => Regs { pc: 0, x: [0; 31] },
    }
}

fn maps_of(alloc: Global, row: &Row) -> Result<Seq<Mapping>, NoMemory>
    ensures { IfOk result (λ maps. maps ≡ (with_part_here row.now).maps) }
{
    match &row.process {
        Some(process) => process.map.list(alloc),
        None => copy_of(alloc, row.shared.as_slice()),
    }
}

fn copy_row(alloc: Global, row: &Row) -> Result<Proc, NoMemory>
    ensures { IfOk result (λ p. p ≡ with_part_here row.now) }
{
    let regs = regs_of(row);
    Ok(Proc {
        pid: row.pid,
        parent: row.parent,
        state: row.state,
        pc: regs.pc,
        regs: regs.x,
        brk_base: row.brk_base,
        brk: row.brk,
        maps: maps_of(alloc, row)?,
        fds: row.fds.list(alloc)?,
    })
}

fn copy_rows(alloc: Global, rows: &[Row]) -> Result<Seq<Proc>, NoMemory>
    ensures { IfOk result (λ procs. procs ≡ map with_part_here rows.now) }
{
    let mut procs = Seq::new(alloc);
    for row in rows {
        procs.push(copy_row(alloc, row)?)?;
    }
    Ok(procs)
}

fn copy_behind(alloc: Global, bytes: &[u8], dropped: usize) -> Result<Seq<u8>, NoMemory>
    requires { dropped ≤ length bytes.now }
    ensures { IfOk result (λ list. list ≡ drop dropped bytes.now) }
{
    copy_of(alloc, &bytes[dropped..])
}

// The output as the barrier leaves it.
fn marked_copy(alloc: Global, out: &Out) -> Result<Out, NoMemory>
    requires { OutValid out.now }
    ensures { IfOk result (λ copy. copy ≡ out_after_barrier out.now) }
{
    let dropped = (out.mark - out.from) as usize;
    Ok(Out {
        from: out.mark,
        mark: last_of(out),
        bytes: copy_behind(alloc, out.bytes.as_slice(), dropped)?,
    })
}

fn frame_with(
    alloc: Global,
    procs: Seq<Proc>,
    t: &GroupTables,
    io: &IoTables,
) -> Result<Frame, NoMemory>
    requires { OutValid io.now.out }
    ensures { IfOk result (λ frame. frame
        ≡ record (public_frame (record (seen t.now) { io = io.now })) {
          procs = procs;
          out = out_after_barrier io.now.out;
        }) }
{
    Ok(Frame {
        procs,
        objects: copy_of(alloc, t.objects.as_slice())?,
        opens: io.opens.list(alloc)?,
        pipes: io.pipes.list(alloc)?,
        pairs: io.pairs.list(alloc)?,
        files: io.files.list(alloc)?,
        next: io.next,
        out: marked_copy(alloc, &io.out)?,
    })
}

/// The frame as it is after a barrier; a process on lease is without its private part there.
pub fn marked_frame(alloc: Global, t: &GroupTables) -> Result<Frame, NoMemory>
    requires { OutValid t.now.io.out }
    ensures { IfOk result (λ frame. frame ≡ marked_frame (seen t.now)) }
{
    let procs = copy_rows(alloc, t.rows.as_slice())?;
    frame_with(alloc, procs, t, &t.io)
}
