ghost use Rattle.std.specs.Prelude.{◌≡◌, [], ◌∷◌, IfOk, length};
ghost use Rattle.std.specs.List.{AllZip};
ghost use Rattle.lists.specs.Bytes.{AreBytes};
ghost use Rattle.group_defs.specs.Output.{last_position};
ghost use Rattle.group_defs.specs.Valid.{IsObject};
ghost use Rattle.ckpt_records.specs.Parts.{HasLayers, memory_of};

use ckpt_records::Parts;
use flat_kernel::group_from;
use group_defs::{Frame, Mapping, Next, ObjectRec, Open, OpenKind, Out, Proc, ProcState};
use group_valid::frame_valid;
use lists::{NoMemory, Seq};
use mem_objects::{Layer, PageBuf};
use std::alloc::Global;
use std::test::Fail;

const OBJECT: ObjectRec = ObjectRec {
    number: 5,
    pages: 2,
};

// A process that maps two pages of the object, with its output.
fn process(alloc: Global) -> Result<Proc, NoMemory> {
    let map = Mapping {
        start: 0x10000,
        pages: 2,
        prot: 7,
        shared: false,
        object: 5,
        first: 0,
    };
    Ok(Proc {
        pid: 3,
        parent: 0,
        state: ProcState::Running,
        pc: 0x10004,
        regs: [9; 31],
        brk_base: 0x20000,
        brk: 0x20008,
        maps: Seq::of(Vec::from_slice(alloc, &[map])?),
        fds: Seq::of(Vec::from_slice(alloc, &[(1, 4)])?),
    })
}

fn frame(alloc: Global) -> Result<Frame, NoMemory>
    ensures objects { IfOk result (λ f. f.objects ≡ record { number = 5; pages = 2 } ∷ []) }
    ensures marked { IfOk result (λ f. f.out.mark ≡ last_position f.out) }
{
    let mut procs = Seq::new(alloc);
    procs.push(process(alloc)?)?;
    let output = Open {
        number: 4,
        kind: OpenKind::Outside,
        offset: 0,
        flags: 0,
    };
    Ok(Frame {
        procs,
        objects: Seq::of(Vec::from_slice(alloc, &[OBJECT])?),
        opens: Seq::of(Vec::from_slice(alloc, &[output])?),
        pipes: Seq::new(alloc),
        pairs: Seq::new(alloc),
        files: Seq::new(alloc),
        next: Next {
            pid: 8,
            object: 7,
            descr: 6,
            pipe: 0,
            pair: 0,
        },
        out: Out {
            from: 10,
            mark: 12,
            bytes: Seq::of(Vec::from_slice(alloc, b"ab")?),
        },
    })
}

fn sevens(alloc: Global) -> Result<PageBuf, NoMemory>
    ensures { IfOk result (λ p. (length p ≡ 4096) × AreBytes p) }
{
    PageBuf::of(alloc, &[7; 4096])
}

// The object's second page is all 7, its first one isn't there.
fn sample(alloc: Global) -> Result<Parts, NoMemory>
    ensures layers { IfOk result HasLayers }
    ensures memory { IfOk result (λ p. AllZip IsObject p.frame.objects
        (memory_of p.frame.objects p.layers)) }
    ensures marked { IfOk result (λ p. p.frame.out.mark ≡ last_position p.frame.out) }
{
    let mut slots = Vec::new(alloc);
    slots.push((1, sevens(alloc)?))?;
    let mut layers = Seq::new(alloc);
    layers.push((5, Layer::of(slots)))?;
    Ok(Parts {
        frame: frame(alloc)?,
        layers,
    })
}

#[test]
fn parts_of_a_process_become_its_group(rt: HostRuntime) -> Result<(), Fail> {
    let alloc = rt.alloc();
    let parts = sample(alloc)?;
    if !frame_valid(&parts.frame) {
        return Err(Fail::new("the frame isn't valid"));
    }
    let group = group_from(alloc, parts)?;
    assert!(rt; group.running);
    assert_eq!(rt;
        (group.fixed.pid, group.regs.pc, group.fixed.brk),
        (3, 0x10004, 0x20008)
    );
    match group.memory.objects.as_slice() {
        [(number, bytes)] => {
            assert_eq!(rt; (*number, bytes.len()), (5, 8192));
            assert_eq!(rt; bytes.get(4095).copied(), Some(0));
            assert_eq!(rt; bytes.get(4096).copied(), Some(7));
        }
        _ => return Err(Fail::new("there isn't one object")),
    }
    Ok(())
}

// A group whose process has ended.
#[tactic(auto, unfolding(ckpt_records::specs::Parts::memory_of))]
fn nothing_left(alloc: Global) -> Parts
    ensures layers { HasLayers result }
    ensures memory { AllZip IsObject result.frame.objects
        (memory_of result.frame.objects result.layers) }
    ensures marked { result.frame.out.mark ≡ last_position result.frame.out }
{
    let next = Next {
        pid: 8,
        object: 7,
        descr: 6,
        pipe: 0,
        pair: 0,
    };
    Parts {
        frame: Frame {
            procs: Seq::new(alloc),
            objects: Seq::new(alloc),
            opens: Seq::new(alloc),
            pipes: Seq::new(alloc),
            pairs: Seq::new(alloc),
            files: Seq::new(alloc),
            next,
            out: Out {
                from: 10,
                mark: 10,
                bytes: Seq::new(alloc),
            },
        },
        layers: Seq::new(alloc),
    }
}

#[test]
fn parts_without_a_process_become_an_ended_group(rt: HostRuntime) -> Result<(), Fail> {
    let alloc = rt.alloc();
    let parts = nothing_left(alloc);
    if !frame_valid(&parts.frame) {
        return Err(Fail::new("the frame isn't valid"));
    }
    let group = group_from(alloc, parts)?;
    assert!(rt; !group.running);
    assert_eq!(rt; (group.fixed.next.pid, group.out.mark), (8, 10));
    Ok(())
}
