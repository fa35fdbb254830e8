ghost use Rattle.std.specs.Prelude.{◌≡◌, IfOk, IsTrue, List, [], ◌∷◌, false, length, ℕ};
ghost use Rattle.lists.specs.Bytes.{AreBytes};
ghost use Rattle.group_defs.specs.Output.{last_position};
ghost use Rattle.flat_kernel.specs.Engine.{group_in, IsRunnable};
ghost use Rattle.flat_kernel.specs.Memory.{memory_in};

use flat_kernel::{EngineGroup, Fixed, ProcessMemory, is_ready, turn};
use group_defs::{Mapping, Next, ObjectRec, Open, OpenKind, Out};
use lists::{NoMemory, Seq};
use rv64_core::{DecodeCache, Regs};
use std::alloc::Global;
use std::test::Fail;

// Writes three bytes of the program to descriptor 1, and ends with code 7.
const WRITES_AND_ENDS: [u32; 8] = [
    0x0010_0513, // addi x10, x0, 1
    0x0001_05b7, // lui x11, 0x10
    0x0030_0613, // addi x12, x0, 3
    0x0400_0893, // addi x17, x0, 64
    0x0000_0073, // ecall
    0x0070_0513, // addi x10, x0, 7
    0x05d0_0893, // addi x17, x0, 93
    0x0000_0073, // ecall
];

// Writes to descriptor 0, which is at nothing, and then jumps to itself for ever.
const WRITES_TO_NOTHING: [u32; 4] = [
    0x0030_0613, // addi x12, x0, 3
    0x0400_0893, // addi x17, x0, 64
    0x0000_0073, // ecall
    0x0000_006f, // jal x0, 0
];

// What its type says of a list of bytes, for contracts alone.
fn bytes_fit(_bytes: &[u8])
    ensures { AreBytes _bytes.now }
{}

fn page(alloc: Global, program: &[u32]) -> Result<Vec<u8>, NoMemory>
    ensures size { IfOk result (λ bytes. length bytes.items ≡ 4096) }
    ensures bytes { IfOk result (λ bytes. AreBytes bytes.items) }
{
    let mut bytes = Vec::new(alloc);
    for word in program {
        bytes.extend_from_slice(&word.to_le_bytes())?;
    }
    bytes.resize(4096, 0)?;
    bytes_fit(&bytes);
    Ok(bytes)
}

fn memory(alloc: Global, program: &[u32]) -> Result<ProcessMemory, NoMemory>
    ensures maps { IfOk result (λ memory. memory.maps
        ≡ record { start = 65536; pages = 1; prot = 7; shared = false; object = 0; first = 0 }
        ∷ []) }
    ensures objects { IfOk result (λ memory. (page : List ℕ)
        × (memory_in memory.objects.items ≡ (0, page) ∷ []) × (length page ≡ 4096)
        × AreBytes page) }
{
    let map = Mapping {
        start: 0x10000,
        pages: 1,
        prot: 7,
        shared: false,
        object: 0,
        first: 0,
    };
    let mut objects = Vec::new(alloc);
    objects.push((0, page(alloc, program)?))?;
    ProcessMemory::of(alloc, Seq::of(Vec::from_slice(alloc, &[map])?), objects)
}

fn opened(number: u64, kind: OpenKind) -> Open
    ensures { result ≡ record { number = number; kind = kind; offset = 0; flags = 0 } }
{
    Open {
        number,
        kind,
        offset: 0,
        flags: 0,
    }
}

fn fixed(alloc: Global) -> Result<Fixed, NoMemory>
    ensures { IfOk result (λ f. f ≡ record {
      pid = 1;
      brk_base = 69632;
      brk = 69632;
      fds = (0, 0) ∷ (1, 1)
          ∷ [];
      objects = record { number = 0; pages = 1 }
          ∷ [];
      opens = record { number = 0; kind = OpenKind.Nothing; offset = 0; flags = 0 }
          ∷ record { number = 1; kind = OpenKind.Outside; offset = 0; flags = 0 }
          ∷ [];
      next = record { pid = 2; object = 1; descr = 2; pipe = 0; pair = 0 };
    }) }
{
    let objects = [ObjectRec {
        number: 0,
        pages: 1,
    }];
    let opens = [opened(0, OpenKind::Nothing), opened(1, OpenKind::Outside)];
    Ok(Fixed {
        pid: 1,
        brk_base: 0x11000,
        brk: 0x11000,
        fds: Seq::of(Vec::from_slice(alloc, &[(0, 0), (1, 1)])?),
        objects: Seq::of(Vec::from_slice(alloc, &objects)?),
        opens: Seq::of(Vec::from_slice(alloc, &opens)?),
        next: Next {
            pid: 2,
            object: 1,
            descr: 2,
            pipe: 0,
            pair: 0,
        },
    })
}

// A process that begins with a program at 0x10000.
fn process(alloc: Global, program: &[u32]) -> Result<EngineGroup, NoMemory>
    ensures running { IfOk result (λ g. IsTrue g.running) }
    ensures runnable { IfOk result (λ g. IsRunnable (group_in g)) }
    ensures output { IfOk result (λ g. last_position g.out ≡ 0) }
{
    Ok(EngineGroup {
        running: true,
        regs: Regs {
            pc: 0x10000,
            x: [0; 31],
        },
        memory: memory(alloc, program)?,
        fixed: fixed(alloc)?,
        out: Out {
            from: 0,
            mark: 0,
            bytes: Seq::new(alloc),
        },
        decoded: DecodeCache::new(alloc)?,
    })
}

#[test]
fn a_process_writes_and_ends(rt: HostRuntime) -> Result<(), Fail> {
    let mut g = process(rt.alloc(), &WRITES_AND_ENDS)?;
    assert_eq!(rt; g.room(), 1_048_576);
    assert_eq!(rt; turn(&mut g, 1000)?, 4);
    assert_eq!(rt; g.out.bytes.as_slice(), [0x13, 0x05, 0x10].as_slice());
    assert_eq!(rt; g.regs.get(10), 3);
    assert_eq!(rt; g.regs.pc, 0x10014);
    assert_eq!(rt; g.room(), 1_048_573);
    if !is_ready(&g) {
        assert_eq!(rt; 0, 1);
        return Ok(());
    }
    assert_eq!(rt; turn(&mut g, 1000)?, 2);
    assert_eq!(rt; g.running, false);
    assert_eq!(rt; is_ready(&g), false);
    Ok(())
}

#[test]
fn a_write_to_nothing_is_refused(rt: HostRuntime) -> Result<(), Fail> {
    let mut g = process(rt.alloc(), &WRITES_TO_NOTHING)?;
    assert_eq!(rt; turn(&mut g, 1000)?, 2);
    assert_eq!(rt; g.regs.get(10), 0u64.wrapping_sub(9));
    assert_eq!(rt; g.out.bytes.len(), 0);
    if !is_ready(&g) {
        assert_eq!(rt; 0, 1);
        return Ok(());
    }
    assert_eq!(rt; turn(&mut g, 1000)?, 1000);
    assert_eq!(rt; g.running, true);
    Ok(())
}
