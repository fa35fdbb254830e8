//! The group at a barrier: its output, its frame, and its pages.
ghost use Rattle.std.specs.Prelude.{◌≡◌, ◌≤◌, ◌<◌, ◌^◌, ◌++◌, [], length, drop, map, IfOk, OnOk, IsTrue};
ghost use Rattle.ckpt_records.specs.Holds.{IsCheckpointed};
ghost use Rattle.ckpt_records.specs.Pages.{ArePagesOf};
ghost use Rattle.std.specs.List.{AllByRecursion};
ghost use Rattle.group_defs.specs.Output.{last_position};
ghost use Rattle.group_defs.specs.Standing.{group_barrier};
ghost use Rattle.group_defs.specs.Valid.{GroupIsValid};
ghost use Rattle.flat_kernel.specs.Engine.{frame_with, group_in, running_process, IsRunnable};
ghost use Rattle.flat_kernel.specs.Placing.{is_zero as all_zero, memory_pages, object_pages as all_pages_of};

use crate::engine_group::EngineGroup;
use ckpt_records::Page;
use group_defs::{Frame, ObjectRec, Open, Out, Proc, ProcState};
use lists::{NoMemory, Seq};
use std::alloc::Global;
use std::mem;

/// The bytes of a page.
const PAGE: usize = 4_096;

fn list_of<T: Copy + Drop>(alloc: Global, items: &[T]) -> Result<Seq<T>, NoMemory>
    ensures { IfOk result (λ list. list ≡ items.now) }
{
    Ok(Seq::of(Vec::from_slice(alloc, items)?))
}

// Where its output lies, for contracts alone.
fn output_lies(_g: &EngineGroup)
    requires { IsRunnable (group_in _g.now) }
    ensures from { _g.now.out.from ≤ _g.now.out.mark }
    ensures mark { _g.now.out.mark ≤ last_position _g.now.out }
    ensures last { last_position _g.now.out < 2 ^ 64 }
{}

/// A list without its first bytes, in the same memory.
fn without_first(bytes: Seq<u8>, count: usize) -> Seq<u8>
    requires { count ≤ length bytes }
    ensures { result ≡ drop count bytes }
{
    let mut bytes = bytes.into_vec();
    let left = bytes.len() - count;
    bytes.rotate_left(count);
    bytes.truncate(left);
    Seq::of(bytes)
}

// Drops the bytes before the mark, and makes the last position the mark.
fn move_mark(alloc: Global, g: &mut EngineGroup)
    requires from { g.old.out.from ≤ g.old.out.mark }
    requires mark { g.old.out.mark ≤ last_position g.old.out }
    requires last { last_position g.old.out < 2 ^ 64 }
    ensures group { group_in g.new ≡ group_barrier (group_in g.old) }
    ensures fixed { g.new.fixed ≡ g.old.fixed }
{
    let dropped = (g.out.mark - g.out.from) as usize;
    let last = g.out.from + g.out.bytes.len() as u64;
    let bytes = mem::replace(&mut g.out.bytes, Seq::new(alloc));
    g.out = Out {
        from: g.out.mark,
        mark: last,
        bytes: without_first(bytes, dropped),
    };
}

/// Makes the barrier: the bytes before the mark are dropped, and the mark becomes the last position. No memory is taken.
pub fn mark_output(alloc: Global, g: &mut EngineGroup)
    requires { IsRunnable (group_in g.old) }
    ensures group { group_in g.new ≡ group_barrier (group_in g.old) }
    ensures checkpointed { IsCheckpointed (group_in g.new) }
    ensures fixed { g.new.fixed ≡ g.old.fixed }
{
    output_lies(g);
    move_mark(alloc, g);
}

fn copy_of(alloc: Global, out: &Out) -> Result<Out, NoMemory>
    ensures { IfOk result (λ copy. copy ≡ out.now) }
{
    Ok(Out {
        from: out.from,
        mark: out.mark,
        bytes: list_of(alloc, out.bytes.as_slice())?,
    })
}

// The process that runs.
fn process_of(alloc: Global, g: &EngineGroup) -> Result<Proc, NoMemory>
    ensures { IfOk result (λ proc. proc ≡ running_process g.now.fixed g.now.memory.maps
        g.now.regs) }
{
    let maps = list_of(alloc, g.memory.maps.as_slice())?;
    let fds = list_of(alloc, g.fixed.fds.as_slice())?;
    Ok(Proc {
        pid: g.fixed.pid,
        parent: 0,
        state: ProcState::Running,
        pc: g.regs.pc,
        regs: g.regs.x,
        brk_base: g.fixed.brk_base,
        brk: g.fixed.brk,
        maps,
        fds,
    })
}

/// What a frame has beside its processes, objects, descriptions and output.
fn frame_of_lists(
    alloc: Global,
    procs: Seq<Proc>,
    objects: Seq<ObjectRec>,
    opens: Seq<Open>,
    g: &EngineGroup,
) -> Result<Frame, NoMemory>
    ensures { IfOk result (λ frame. frame
        ≡ frame_with procs objects opens g.now.fixed.next g.now.out) }
{
    Ok(Frame {
        procs,
        objects,
        opens,
        pipes: Seq::new(alloc),
        pairs: Seq::new(alloc),
        files: Seq::new(alloc),
        next: g.fixed.next,
        out: copy_of(alloc, &g.out)?,
    })
}

fn running_frame(alloc: Global, g: &EngineGroup) -> Result<Frame, NoMemory>
    requires { IsTrue g.now.running }
    ensures { IfOk result (λ frame. frame ≡ (group_in g.now).frame) }
{
    let mut procs = Seq::new(alloc);
    procs.push(process_of(alloc, g)?)?;
    let objects = list_of(alloc, g.fixed.objects.as_slice())?;
    let opens = list_of(alloc, g.fixed.opens.as_slice())?;
    frame_of_lists(alloc, procs, objects, opens, g)
}

/// The group's frame, as a copy.
pub fn frame_of(alloc: Global, g: &EngineGroup) -> Result<Frame, NoMemory>
    ensures { IfOk result (λ frame. frame ≡ (group_in g.now).frame) }
{
    if g.running {
        running_frame(alloc, g)
    } else {
        frame_of_lists(alloc, Seq::new(alloc), Seq::new(alloc), Seq::new(alloc), g)
    }
}

fn is_zero(page: &[u8]) -> bool
    ensures { result ≡ all_zero page.now }
{
    page.iter().all(|b| *b == 0)
}

fn frozen_page(alloc: Global, object: u64, page: u64, bytes: &[u8]) -> Result<Page, NoMemory>
    ensures { IfOk result (λ p. p ≡ record { object = object; page = page; bytes = bytes.now }) }
{
    Ok(Page {
        object,
        page,
        bytes: list_of(alloc, bytes)?,
    })
}

// Adds the pages of an object that aren't all zero.
fn add_object(
    alloc: Global,
    pages: &mut Vec<Page>,
    object: u64,
    bytes: &[u8],
) -> Result<(), NoMemory>
    ensures { OnOk result (pages.new.items ≡ pages.old.items ++ all_pages_of (object, bytes.now)) }
{
    for page in 0..bytes.len() / PAGE {
        let bytes = &bytes[PAGE * page..PAGE * page + PAGE];
        if !is_zero(bytes) {
            pages.push(frozen_page(alloc, object, page as u64, bytes)?)?;
        }
    }
    Ok(())
}

/// The pages that aren't all zero, by object and then page, as copies.
fn pages_in_objects(alloc: Global, objects: &[(u64, Vec<u8>)]) -> Result<Vec<Page>, NoMemory>
    ensures { IfOk result (λ pages. pages.items
        ≡ memory_pages (map (λ o. (o.0, o.1.items)) objects.now)) }
{
    let mut pages = Vec::new(alloc);
    for (object, bytes) in objects {
        add_object(alloc, &mut pages, *object, bytes)?;
    }
    Ok(pages)
}

/// The group's pages that aren't all zero, by object and then page, as copies.
pub fn pages_of(alloc: Global, g: &EngineGroup) -> Result<Vec<Page>, NoMemory>
    requires { GroupIsValid (group_in g.now) }
    ensures pages { IfOk result (λ pages. ArePagesOf (group_in g.now) pages.items) }
    ensures whole { IfOk result (λ pages. AllByRecursion (λ p. length p.bytes ≡ 4096) pages.items) }
{
    if g.running {
        pages_in_objects(alloc, &g.memory.objects)
    } else {
        Ok(Vec::new(alloc))
    }
}
