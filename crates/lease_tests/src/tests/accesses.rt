use crate::tests::samples::{DATA, PROGRAM, caller_of, frozen_face, number_at, pages_written};
use group_defs::{OutRefused, UserMem};
use lists::NoMemory;
use proc_lease::{CallerMemory, is_at_call};
use rv64_core::Regs;
use std::alloc::Global;
use std::test::Fail;
use syscalls_proc::{Access, shared_access};

// sd x2, 0(x1)
const STORE: u32 = 0x0020_b023;

// ld x3, 0(x1)
const LOAD: u32 = 0x0000_b183;

/// The memory of a process whose program is this word, with the rights of its program and of the shared data, which begins with
/// 0x11; x1 is the address, x2 all ones.
fn caller(
    alloc: Global,
    word: u32,
    address: u64,
    of_program: u8,
    of_data: u8,
) -> Result<CallerMemory, NoMemory> {
    let (program, _) = frozen_face(alloc, &[word])?;
    let (data, _) = frozen_face(alloc, &[0x11])?;
    let mut regs = Regs {
        pc: 0x1000,
        x: [0; 31],
    };
    regs.put(1, address);
    regs.put(2, u64::MAX);
    caller_of(alloc, regs, program, data, of_program, of_data)
}

/// The access at pc; none where it is a system call.
fn access(memory: &mut CallerMemory) -> Option<Result<Access, NoMemory>> {
    if is_at_call(&memory.process, &memory.shared) {
        return None;
    }
    let mut regs = memory.process.regs;
    let answer = shared_access(&mut regs, memory);
    memory.process.regs = regs;
    Some(answer)
}

/// What an access leaves: the numbers at a place of the program and of the data, and which pages of either were written.
#[derive(Clone, Copy, Debug, PartialEq, Eq)]
struct Left {
    of_program: u64,
    of_data: u64,
    program_written: (bool, bool),
    data_written: (bool, bool),
}

fn what_is_left(memory: CallerMemory, in_program: u64, in_data: u64) -> Result<Left, NoMemory> {
    let CallerMemory { process, shared } = memory;
    let mut own = process.faces;
    let mut shared = shared;
    Ok(Left {
        of_program: number_at(&own, PROGRAM, in_program),
        of_data: number_at(&shared, DATA, in_data),
        program_written: pages_written(&mut own, PROGRAM)?,
        data_written: pages_written(&mut shared, DATA)?,
    })
}

#[test]
fn a_store_to_a_shared_page_comes_into_its_face(rt: HostRuntime) -> Result<(), Fail> {
    let mut memory = caller(rt.alloc(), STORE, 0x4100, 7, 7)?;
    assert_eq!(rt; access(&mut memory), Some(Ok(Access::Stepped)));
    assert_eq!(rt; memory.process.regs.pc, 0x1004);
    let left = what_is_left(memory, 0x100, 0x1100)?;
    assert_eq!(rt; (left.of_program, left.of_data), (0, u64::MAX));
    assert_eq!(rt; left.program_written, (false, false));
    assert_eq!(rt; left.data_written, (false, true));
    Ok(())
}

#[test]
fn a_store_over_a_private_and_a_shared_page_is_one(rt: HostRuntime) -> Result<(), Fail> {
    let mut memory = caller(rt.alloc(), STORE, 0x2ffc, 7, 7)?;
    assert_eq!(rt; access(&mut memory), Some(Ok(Access::Stepped)));
    let left = what_is_left(memory, 0x1ff8, 0)?;
    assert_eq!(rt; left.of_program, 0xffff_ffff_0000_0000);
    assert_eq!(rt; left.of_data, 0x0000_0000_ffff_ffff);
    assert_eq!(rt; left.program_written, (false, true));
    assert_eq!(rt; left.data_written, (true, false));
    Ok(())
}

#[test]
fn a_load_reads_private_and_shared_pages(rt: HostRuntime) -> Result<(), Fail> {
    for (address, number) in [
        (0x3000, 0x11),
        (0x2ffc, 0x11_0000_0000),
        (0x1000, u64::from(LOAD)),
    ] {
        let mut memory = caller(rt.alloc(), LOAD, address, 5, 5)?;
        assert_eq!(rt; access(&mut memory), Some(Ok(Access::Stepped)));
        assert_eq!(rt; memory.process.regs.get(3), number);
    }
    Ok(())
}

/// An access that traps: the instruction, its address, and the rights of the program and of the data.
#[derive(Clone, Copy)]
struct Attempt {
    what: &'static str,
    word: u32,
    address: u64,
    of_program: u8,
    of_data: u8,
    status: u32,
}

const fn trapped(
    what: &'static str,
    word: u32,
    address: u64,
    of_program: u8,
    of_data: u8,
    status: u32,
) -> Attempt {
    Attempt {
        what,
        word,
        address,
        of_program,
        of_data,
        status,
    }
}

/// Whether an access traps with its status, and registers, bytes and sets are as they were.
fn traps_alone(alloc: Global, tried: &Attempt) -> Result<bool, NoMemory> {
    let mut memory = caller(
        alloc,
        tried.word,
        tried.address,
        tried.of_program,
        tried.of_data,
    )?;
    let before = memory.process.regs;
    let answer = access(&mut memory);
    let same = memory.process.regs == before;
    let left = what_is_left(memory, 0, 0)?;
    let as_before = Left {
        of_program: u64::from(tried.word),
        of_data: 0x11,
        program_written: (false, false),
        data_written: (false, false),
    };
    let code = tried.status;
    Ok(answer == Some(Ok(Access::Trap { code })) && same && left == as_before)
}

#[test]
fn a_trap_tells_its_status_and_changes_nothing(rt: HostRuntime) -> Result<(), Fail> {
    for tried in [
        trapped("no instruction", 0, 0x3000, 7, 7, 4),
        trapped("ebreak", 0x0010_0073, 0x3000, 7, 7, 5),
        trapped("jalr x1, 2(x0)", 0x0020_00e7, 0x3000, 7, 7, 7),
        trapped("a nop without EXEC", 0x0000_0013, 0x3000, 3, 7, 11),
        trapped("a load without READ", LOAD, 0x3000, 7, 2, 11),
        trapped("half a load without READ", LOAD, 0x2ffc, 7, 2, 11),
        trapped("a store without WRITE", STORE, 0x3000, 7, 5, 11),
        trapped("half a store without WRITE", STORE, 0x2ffc, 7, 5, 11),
        trapped("half a store past the last page", STORE, 0x4ffc, 7, 7, 11),
    ] {
        assert!(rt; traps_alone(rt.alloc(), &tried)?, "{}", tried.what);
    }
    Ok(())
}

#[test]
fn bytes_of_a_call_are_copied_over_all_pages(rt: HostRuntime) -> Result<(), Fail> {
    let mut memory = caller(rt.alloc(), LOAD, 0, 7, 7)?;
    assert!(rt; memory.copy_out(0x2ffe, &[1, 2, 3, 4]).is_ok());
    let mut seen = [0; 6];
    assert!(rt; memory.copy_in(0x2ffd, &mut seen).is_ok());
    assert_eq!(rt; seen, [0, 1, 2, 3, 4, 0]);
    let left = what_is_left(memory, 0x1ff8, 0)?;
    assert_eq!(rt; left.of_program, 0x0201_0000_0000_0000);
    assert_eq!(rt; left.of_data, 0x0403);
    Ok(())
}

#[test]
fn bytes_of_a_call_are_copied_whole_or_not_at_all(rt: HostRuntime) -> Result<(), Fail> {
    let mut memory = caller(rt.alloc(), LOAD, 0, 7, 4)?;
    assert!(rt;
        matches!(
            memory.copy_out(0x2ffe, &[1, 2, 3, 4]),
            Err(OutRefused::Fault)
        )
    );
    assert!(rt; matches!(memory.reserve(0x2ffe, 4), Err(OutRefused::Fault)));
    let mut seen = [9; 4];
    assert!(rt; memory.copy_in(0x2ffe, &mut seen).is_err());
    assert_eq!(rt; seen, [9; 4]);
    let left = what_is_left(memory, 0x1ff8, 0)?;
    assert_eq!(rt; (left.of_program, left.of_data), (0, 0x11));
    assert_eq!(rt; left.program_written, (false, false));
    Ok(())
}
