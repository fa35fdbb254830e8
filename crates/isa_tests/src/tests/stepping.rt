ghost use Rattle.rv64_core.specs.Flat.{flat_cells, flat_private};

use lists::NoMemory;
use rv64_core::{DecodeCache, Flat, Local, Regs, Space, local_step, local_steps};
use std::alloc::{AllocError, Global};
use std::test::Fail;

/// Three pages with these rights, and these words from address 0 on.
fn memory(alloc: Global, rights: [u8; 3], words: &[u32]) -> Result<Flat, AllocError> {
    let mut bytes = Vec::new(alloc);
    for word in words {
        for byte in word.to_le_bytes() {
            bytes.push(byte)?;
        }
    }
    bytes.resize(3 * 4096, 0)?;
    Ok(Flat {
        rights: Vec::from_array(alloc, rights)?,
        bytes,
    })
}

const PROGRAM: [u32; 20] = [
    0x0050_0093, //  0: addi x1, x0, 5
    0x0000_0113, //  4: addi x2, x0, 0
    0x0011_0133, //  8: add x2, x2, x1
    0xfff0_8093, // 12: addi x1, x1, -1
    0xfe00_9ce3, // 16: bne x1, x0, -8
    0x0000_11b7, // 20: lui x3, 1
    0xf801_0113, // 24: addi x2, x2, -128
    0xfe21_be23, // 28: sd x2, -4(x3), over two pages
    0xffc1_8203, // 32: lb x4, -4(x3)
    0xffe1_e283, // 36: lwu x5, -2(x3), over two pages
    0x0080_036f, // 40: jal x6, 8
    0x0000_0073, // 44: ecall, jumped over
    0x0070_0013, // 48: addi x0, x0, 7
    0x0390_03e7, // 52: jalr x7, 57(x0), to 56
    0x0130_0413, // 56: addi x8, x0, 19
    0x0070_04b7, // 60: lui x9, 0x700
    0x5134_8493, // 64: addi x9, x9, 0x513
    0x0490_2423, // 68: sw x9, 72(x0)
    0x0000_0073, // 72: ecall, by then addi x10, x0, 7
    0x0010_0073, // 76: ebreak
];

#[test]
fn a_program_runs_to_its_first_step_that_is_not_local(rt: HostRuntime) -> Result<(), Fail> {
    let mut space = memory(rt.alloc(), [7, 3, 0], &PROGRAM)?;
    let mut cache = DecodeCache::new(rt.alloc())?;
    let mut regs = Regs { pc: 0, x: [0; 31] };
    let (made, why) = local_steps(&mut regs, &mut space, &mut cache, 100);
    assert_eq!(rt; made, 30);
    assert_eq!(rt; why, Local::Shared);
    let mut wanted = Regs { pc: 76, x: [0; 31] };
    wanted.put(2, 0xffff_ffff_ffff_ff8f);
    wanted.put(3, 4096);
    wanted.put(4, 0xffff_ffff_ffff_ff8f);
    wanted.put(5, 0xffff_ffff);
    wanted.put(6, 44);
    wanted.put(7, 56);
    wanted.put(8, 19);
    wanted.put(9, 0x0070_0513);
    wanted.put(10, 7);
    assert!(rt; regs == wanted);
    assert_eq!(rt; space.load(4092, 8), Some(0xffff_ffff_ffff_ff8f));
    Ok(())
}

#[test]
fn what_is_not_local_changes_nothing(rt: HostRuntime) -> Result<(), Fail> {
    let mut cache = DecodeCache::new(rt.alloc())?;
    for (word, rights, what) in [
        (0x0000_0073, [7, 3, 3], "ecall"),
        (0x0010_0073, [7, 3, 3], "ebreak"),
        (0x0000_0000, [7, 3, 3], "no instruction"),
        (0x0020_00e7, [7, 3, 3], "jalr x1, 2(x0)"),
        (0x0030_00e7, [7, 3, 3], "jalr x1, 3(x0)"),
        (0x0000_0363, [7, 3, 3], "beq x0, x0, 6"),
        (0x0000_0013, [3, 3, 3], "a nop without EXEC"),
        (
            0xffe1_a083,
            [7, 3, 6],
            "lw x1, -2(x3), half of it without READ",
        ),
        (0x0001_8083, [7, 3, 6], "lb x1, 0(x3) without READ"),
        (
            0xfe11_bca3,
            [7, 3, 5],
            "sd x1, -7(x3), a byte without WRITE",
        ),
        (0xfe10_0fa3, [7, 3, 3], "sb x1, -1(x0), past the bytes"),
    ] {
        let mut space = memory(rt.alloc(), rights, &[word])?;
        let mut regs = Regs { pc: 0, x: [0; 31] };
        regs.put(1, u64::MAX);
        regs.put(3, 8192);
        let before = regs;
        let answer = local_step(&mut regs, &mut space, &mut cache);
        assert_eq!(rt; answer, Local::Shared, "{what}");
        assert!(rt; regs == before, "{what}");
        assert!(rt; space.bytes.iter().skip(4).all(|b| *b == 0), "{what}");
    }
    Ok(())
}

/// Memory whose stores find no memory to make.
#[derive(Drop)]
struct Exhausted {
    flat: Flat,
}

impl Space for Exhausted {
    ghost cells = { λ s. flat_cells s.flat.rights.items s.flat.bytes.items };

    ghost table = { λ _. tt };

    ghost landed = { λ _ _ _. tt };

    ghost all_private = { λ s address. flat_private s.flat.rights.items s.flat.bytes.items
        address };

    fn fetch(&mut self, pc: u64) -> Option<u32> {
        self.flat.fetch(pc)
    }

    fn load(&mut self, address: u64, n: u8) -> Option<u64> {
        self.flat.load(address, n)
    }

    fn store(&mut self, address: u64, n: u8, _value: u64) -> Result<bool, NoMemory> {
        if self.flat.can_store(address, n) {
            Err(NoMemory)
        } else {
            Ok(false)
        }
    }
}

#[test]
fn a_store_without_memory_changes_nothing(rt: HostRuntime) -> Result<(), Fail> {
    // sd x1, -7(x3)
    let mut space = Exhausted {
        flat: memory(rt.alloc(), [7, 3, 3], &[0xfe11_bca3])?,
    };
    let mut regs = Regs { pc: 0, x: [0; 31] };
    regs.put(1, u64::MAX);
    regs.put(3, 8192);
    let before = regs;
    let mut cache = DecodeCache::new(rt.alloc())?;
    assert_eq!(rt;
        local_step(&mut regs, &mut space, &mut cache),
        Local::NoMemory
    );
    assert!(rt; regs == before);
    let (made, why) = local_steps(&mut regs, &mut space, &mut cache, 10);
    assert_eq!(rt; made, 0);
    assert_eq!(rt; why, Local::NoMemory);
    assert_eq!(rt; space.load(8185, 8), Some(0));
    Ok(())
}

#[test]
fn steps_end_at_their_number_or_before_a_step_that_is_not_local(
    rt: HostRuntime,
) -> Result<(), Fail> {
    // jal x0, 0: it jumps to itself for ever
    let mut space = memory(rt.alloc(), [7, 3, 3], &[0x0000_006f])?;
    let mut cache = DecodeCache::new(rt.alloc())?;
    let mut regs = Regs { pc: 0, x: [0; 31] };
    let (made, why) = local_steps(&mut regs, &mut space, &mut cache, 10);
    assert_eq!(rt; made, 10);
    assert_eq!(rt; why, Local::Stepped);
    let (made, why) = local_steps(&mut regs, &mut space, &mut cache, 0);
    assert_eq!(rt; made, 0);
    assert_eq!(rt; why, Local::Stepped);
    // the same pc with another word: addi x1, x0, 5, and then what is no instruction
    assert_eq!(rt; space.store(0, 4, 0x0050_0093).is_ok(), true);
    let (made, why) = local_steps(&mut regs, &mut space, &mut cache, 10);
    assert_eq!(rt; made, 1);
    assert_eq!(rt; why, Local::Shared);
    assert_eq!(rt; regs.get(1), 5);
    Ok(())
}
