use crate::tests::samples::{
    DATA, OWN, PROGRAM, faces_left, frozen_face, lease_of, number_at, own_lease, pages_written,
};
use lists::NoMemory;
use proc_lease::Halt;
use rv64_core::DecodeCache;
use shadow_chains::Frozen;
use std::alloc::Global;
use std::test::Fail;

/// It adds 7 to each of the first three words of the data: 20 steps, and a call.
const ADDS: [u32; 9] = [
    0x0000_30b7, //  0: lui x1, 3
    0x0030_0113, //  4: addi x2, x0, 3
    0x0000_a183, //  8: lw x3, 0(x1)
    0x0071_8193, // 12: addi x3, x3, 7
    0x0030_a023, // 16: sw x3, 0(x1)
    0x0040_8093, // 20: addi x1, x1, 4
    0xfff1_0113, // 24: addi x2, x2, -1
    0xfe01_16e3, // 28: bne x2, x0, -20
    0x0000_0073, // 32: ecall
];

#[test]
fn stores_change_the_bytes_and_enter_their_page(rt: HostRuntime) -> Result<(), Fail> {
    let mut lease = own_lease(rt.alloc(), &ADDS, &[1, 2, 3, 4])?;
    let mut cache = DecodeCache::new(rt.alloc())?;
    assert_eq!(rt; lease.run(&mut cache, 100), Halt::Shared);
    assert_eq!(rt; (lease.done, lease.process.regs.pc), (20, 0x1020));
    let mut faces = faces_left(lease);
    assert_eq!(rt; number_at(&faces, DATA, 0), 0x0000_0009_0000_0008);
    assert_eq!(rt; number_at(&faces, DATA, 8), 0x0000_0004_0000_000a);
    assert_eq!(rt; number_at(&faces, PROGRAM, 0), 0x0030_0113_0000_30b7);
    assert_eq!(rt; pages_written(&mut faces, DATA)?, (true, false));
    assert_eq!(rt; pages_written(&mut faces, PROGRAM)?, (false, false));
    Ok(())
}

#[test]
fn a_second_run_goes_on_where_the_first_stopped(rt: HostRuntime) -> Result<(), Fail> {
    let mut lease = own_lease(rt.alloc(), &ADDS, &[1, 2, 3, 4])?;
    let mut cache = DecodeCache::new(rt.alloc())?;
    // the first word is loaded and not stored
    assert_eq!(rt; lease.run(&mut cache, 4), Halt::Quantum);
    assert_eq!(rt; (lease.done, lease.process.regs.pc), (4, 0x1010));
    assert_eq!(rt;
        number_at(&lease.process.faces, DATA, 0),
        0x0000_0002_0000_0001
    );
    // the second is stored
    assert_eq!(rt; lease.run(&mut cache, 11), Halt::Quantum);
    assert_eq!(rt;
        number_at(&lease.process.faces, DATA, 0),
        0x0000_0009_0000_0008
    );
    assert_eq!(rt; lease.run(&mut cache, 100), Halt::Shared);
    assert_eq!(rt; lease.done, 20);
    assert_eq!(rt;
        number_at(&lease.process.faces, DATA, 8),
        0x0000_0004_0000_000a
    );
    Ok(())
}

/// The first byte of a page in what a freeze gave; 0 where the page isn't in it.
fn first_in(frozen: &Frozen, page: u64) -> u8 {
    let mut first = [0; 1];
    if let Some(buf) = frozen.layers.find(page) {
        buf.read(0, &mut first);
    }
    first[0]
}

#[test]
fn what_was_frozen_keeps_its_bytes(rt: HostRuntime) -> Result<(), Fail> {
    let (program, _) = frozen_face(rt.alloc(), &ADDS)?;
    let (mut data, frozen) = frozen_face(rt.alloc(), &[1, 2, 3])?;
    let fork = data.fork()?;
    let mut lease = lease_of(rt.alloc(), program, data, OWN)?;
    let mut cache = DecodeCache::new(rt.alloc())?;
    assert_eq!(rt; lease.run(&mut cache, 100), Halt::Shared);
    assert_eq!(rt;
        number_at(&lease.process.faces, DATA, 0),
        0x0000_0009_0000_0008
    );
    assert_eq!(rt; first_in(&frozen, 0), 1);
    let mut first = [0; 1];
    if fork.pages() == 2 {
        fork.read(0, &mut first);
    }
    assert_eq!(rt; first[0], 1);
    Ok(())
}

/// What a store over a page's end leaves.
#[derive(Clone, Copy, Debug, PartialEq, Eq)]
struct Across {
    halt: Halt,
    done: u32,
    /// The last eight bytes of the page, and the first eight of the next.
    bytes: (u64, u64),
    /// Which pages of the program, and which of the data, were written.
    program: (bool, bool),
    data: (bool, bool),
}

/// Stores 0x8877665544332211 at an address; the pages that it lies in end and begin at these places of objects.
fn stored_at(
    alloc: Global,
    address: u64,
    end: (u64, u64),
    next: (u64, u64),
) -> Result<Across, NoMemory> {
    // sd x2, 0(x1), then ecall
    let mut lease = own_lease(alloc, &[0x0020_b023, 0x0000_0073], &[0])?;
    let mut cache = DecodeCache::new(alloc)?;
    lease.process.regs.put(1, address);
    lease.process.regs.put(2, 0x8877_6655_4433_2211);
    let halt = lease.run(&mut cache, 10);
    let done = lease.done;
    let mut faces = faces_left(lease);
    let bytes = (
        number_at(&faces, end.0, end.1),
        number_at(&faces, next.0, next.1),
    );
    Ok(Across {
        halt,
        done,
        bytes,
        program: pages_written(&mut faces, PROGRAM)?,
        data: pages_written(&mut faces, DATA)?,
    })
}

#[test]
fn a_store_over_the_end_of_a_page_lands_in_both_pages(rt: HostRuntime) -> Result<(), Fail> {
    for (address, end, next, bytes, program, data) in [
        (
            0x1ffc,
            (PROGRAM, 4088),
            (PROGRAM, 4096),
            (0x4433_2211_0000_0000, 0x8877_6655),
            (true, true),
            (false, false),
        ),
        (
            0x2ffd,
            (PROGRAM, 8184),
            (DATA, 0),
            (0x3322_1100_0000_0000, 0x0088_7766_5544),
            (false, true),
            (true, false),
        ),
        (
            0x3fff,
            (DATA, 4088),
            (DATA, 4096),
            (0x1100_0000_0000_0000, 0x0088_7766_5544_3322),
            (false, false),
            (true, true),
        ),
    ] {
        let wanted = Across {
            halt: Halt::Shared,
            done: 1,
            bytes,
            program,
            data,
        };
        assert_eq!(rt; stored_at(rt.alloc(), address, end, next)?, wanted);
    }
    Ok(())
}
