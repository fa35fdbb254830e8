//! The group that parts stand for.
ghost use Rattle.std.specs.Prelude.{◌≡◌, ◌≤◌, ◌++◌, [], ◌∷◌, All, IfOk, OnOk, map};
ghost use Rattle.ckpt_records.specs.Holds.{IsCheckpointed};
ghost use Rattle.group_defs.specs.declared.frame.ProcState.TheVariants.{Running};
ghost use Rattle.ckpt_records.specs.Parts.{HasLayers, group_of, memory_of, object_bytes, page_in};
ghost use Rattle.flat_kernel.specs.Engine.{ended_group, frame_with, group_in};
ghost use Rattle.flat_kernel.specs.Memory.{TableFits, memory_in};

use crate::engine_group::{EngineGroup, Fixed};
use crate::process_memory::ProcessMemory;
use ckpt_records::Parts;
use group_defs::{Frame, Next, ObjectRec, Open, Out, Proc};
use lists::{NoMemory, Seq};
use mem_objects::Layer;
use rv64_core::{DecodeCache, Regs};
use std::alloc::Global;

const PAGE_SIZE: usize = 4_096;

// Adds a page's bytes: zeros where the layer doesn't have it.
fn add_page(bytes: &mut Vec<u8>, layer: &Layer, page: u64) -> Result<(), NoMemory>
    ensures { OnOk result (bytes.new.items ≡ bytes.old.items ++ page_in layer.now page) }
{
    match layer.get(page) {
        Some(there) => bytes.extend_from_slice(there.as_array())?,
        None => bytes.extend_from_slice(&[0; PAGE_SIZE])?,
    }
    Ok(())
}

// The bytes of an object of so many pages.
fn bytes_of(alloc: Global, pages: u64, layer: &Layer) -> Result<Vec<u8>, NoMemory>
    requires { pages ≤ 16384 }
    ensures { IfOk result (λ bytes. bytes.items ≡ object_bytes pages layer.now) }
{
    let mut bytes = Vec::with_capacity(alloc, PAGE_SIZE * pages as usize)?;
    for page in 0..pages {
        add_page(&mut bytes, layer, page)?;
    }
    Ok(bytes)
}

// Each object's number and bytes.
fn objects_of(
    alloc: Global,
    objects: &[ObjectRec],
    layers: &[(u64, Layer)],
) -> Result<Vec<(u64, Vec<u8>)>, NoMemory>
    requires layers { map (λ l. l.0) layers.now ≡ map (λ o. o.number) objects.now }
    requires small { All (λ o. o.pages ≤ 16384) objects.now }
    ensures { IfOk result (λ whole. memory_in whole.items ≡ memory_of objects.now layers.now) }
{
    let mut whole = Vec::new(alloc);
    for (i, object) in objects.iter().enumerate() {
        let bytes = bytes_of(alloc, object.pages, &layers[i].1)?;
        whole.push((object.number, bytes))?;
    }
    Ok(whole)
}

// The group of a process that runs.
fn with_process(
    alloc: Global,
    process: Proc,
    objects: Seq<ObjectRec>,
    opens: Seq<Open>,
    next: Next,
    out: Out,
    memory: Vec<(u64, Vec<u8>)>,
) -> Result<EngineGroup, NoMemory>
    requires { TableFits (memory_in memory.items) process.maps }
    ensures group { IfOk result (λ g. group_in g
        ≡ record {
          frame = frame_with (record process { parent = 0; state = Running } ∷ []) objects
              opens next out;
          memory = memory_in memory.items;
        }) }
    ensures out { IfOk result (λ g. g.out ≡ out) }
{
    let Proc {
        pid,
        parent: _,
        state: _,
        pc,
        regs,
        brk_base,
        brk,
        maps,
        fds,
    } = process;
    Ok(EngineGroup {
        running: true,
        regs: Regs { pc, x: regs },
        memory: ProcessMemory::of(alloc, maps, memory)?,
        fixed: Fixed {
            pid,
            brk_base,
            brk,
            fds,
            objects,
            opens,
            next,
        },
        out,
        decoded: DecodeCache::new(alloc)?,
    })
}

// The group in which no process is left.
fn without_process(alloc: Global, next: Next, out: Out) -> Result<EngineGroup, NoMemory>
    ensures group { IfOk result (λ g. group_in g ≡ ended_group next out) }
    ensures out { IfOk result (λ g. g.out ≡ out) }
{
    Ok(EngineGroup {
        running: false,
        regs: Regs { pc: 0, x: [0; 31] },
        memory: ProcessMemory::of(alloc, Seq::new(alloc), Vec::new(alloc))?,
        fixed: Fixed {
            pid: 0,
            brk_base: 0,
            brk: 0,
            fds: Seq::new(alloc),
            objects: Seq::new(alloc),
            opens: Seq::new(alloc),
            next,
        },
        out,
        decoded: DecodeCache::new(alloc)?,
    })
}

/// The group that the parts stand for. Every object's bytes stand whole in memory: 4,096 for each page, zeros where its layer
/// doesn't have it. NoMemory where there is no room for them.
pub fn engine_group(alloc: Global, parts: Parts) -> Result<EngineGroup, NoMemory>
    requires layers { HasLayers parts }
    requires group { IsCheckpointed (group_of parts) }
    ensures group { IfOk result (λ g. group_in g ≡ group_of parts) }
    ensures out { IfOk result (λ g. g.out ≡ parts.frame.out) }
{
    let Parts { frame, layers } = parts;
    let memory = objects_of(alloc, frame.objects.as_slice(), layers.as_slice())?;
    let Frame {
        procs,
        objects,
        opens,
        pipes: _,
        pairs: _,
        files: _,
        next,
        out,
    } = frame;
    let mut procs = procs.into_vec();
    match procs.pop() {
        Some(process) => with_process(alloc, process, objects, opens, next, out, memory),
        None => without_process(alloc, next, out),
    }
}
