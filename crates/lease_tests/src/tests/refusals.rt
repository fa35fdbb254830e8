use crate::tests::samples::{
    DATA, PROGRAM, Rights, faces_left, frozen_face, lease_of, pages_written,
};
use lists::NoMemory;
use proc_lease::Halt;
use rv64_core::DecodeCache;
use shadow_chains::FaceTable;
use std::alloc::Global;
use std::test::Fail;

/// Whether an object begins with a word and is zero after it.
fn is_word_alone(
    alloc: Global,
    faces: &FaceTable,
    object: u64,
    word: u32,
) -> Result<bool, NoMemory> {
    let mut bytes = Vec::new(alloc);
    bytes.resize(8192, 1)?;
    if let Some(face) = faces.face(object) {
        if face.pages() == 2 && bytes.len() == 8192 {
            face.read(0, &mut bytes);
        }
    }
    let first = word.to_le_bytes();
    Ok(bytes.starts_with(&first) && bytes.iter().skip(4).all(|byte| *byte == 0))
}

/// What was to be done by a process that can't.
#[derive(Clone, Copy)]
struct Attempt {
    what: &'static str,
    word: u32,
    pc: u64,
    /// The address that it loads from or stores to.
    address: u64,
    rights: Rights,
}

/// Whether a run stops before its first step, and neither registers nor bytes have changed. Both objects begin with the word.
fn changes_nothing(alloc: Global, attempt: &Attempt) -> Result<bool, NoMemory> {
    let (program, _) = frozen_face(alloc, &[attempt.word])?;
    let (data, _) = frozen_face(alloc, &[attempt.word])?;
    let mut lease = lease_of(alloc, program, data, attempt.rights)?;
    lease.process.regs.pc = attempt.pc;
    lease.process.regs.put(1, attempt.address);
    lease.process.regs.put(2, u64::MAX);
    let before = lease.process.regs;
    let mut cache = DecodeCache::new(alloc)?;
    let halt = lease.run(&mut cache, 10);
    let stopped = halt == Halt::Shared && lease.done == 0 && lease.process.regs == before;
    let mut faces = faces_left(lease);
    let same = is_word_alone(alloc, &faces, PROGRAM, attempt.word)?
        && is_word_alone(alloc, &faces, DATA, attempt.word)?;
    let program_written = pages_written(&mut faces, PROGRAM)?;
    let data_written = pages_written(&mut faces, DATA)?;
    Ok(stopped && same && program_written == (false, false) && data_written == (false, false))
}

// sd x2, 0(x1)
const STORE: u32 = 0x0020_b023;

// ld x3, 0(x1)
const LOAD: u32 = 0x0000_b183;

/// A load or a store at an address, and how the data is mapped.
const fn accessed(
    what: &'static str,
    word: u32,
    address: u64,
    of_data: u8,
    shared: bool,
) -> Attempt {
    Attempt {
        what,
        word,
        pc: 0x1000,
        address,
        rights: Rights {
            of_program: 7,
            of_data,
            shared,
        },
    }
}

#[test]
fn a_store_that_is_not_local_changes_nothing(rt: HostRuntime) -> Result<(), Fail> {
    for tried in [
        accessed("to a shared page", STORE, 0x3100, 7, true),
        accessed("half of it to a shared page", STORE, 0x2ffc, 7, true),
        accessed("to a page without WRITE", STORE, 0x3100, 5, false),
        accessed("half of it without WRITE", STORE, 0x2ffc, 5, false),
        accessed("where nothing is mapped", STORE, 0x5000, 7, false),
        accessed("half of it past the last page", STORE, 0x4ffc, 7, false),
        accessed("half of it before the first page", STORE, 0xffc, 7, false),
    ] {
        assert!(rt; changes_nothing(rt.alloc(), &tried)?, "{}", tried.what);
    }
    Ok(())
}

#[test]
fn a_load_that_is_not_local_changes_nothing(rt: HostRuntime) -> Result<(), Fail> {
    for tried in [
        accessed("from a shared page", LOAD, 0x3100, 7, true),
        accessed("half of it from a shared page", LOAD, 0x2ffc, 7, true),
        accessed("from a page without READ", LOAD, 0x3100, 6, false),
        accessed("half of it without READ", LOAD, 0x2ffc, 6, false),
        accessed("where nothing is mapped", LOAD, 0x5000, 7, false),
    ] {
        assert!(rt; changes_nothing(rt.alloc(), &tried)?, "{}", tried.what);
    }
    Ok(())
}

/// What is fetched at a pc of the data or of the program.
const fn fetched(
    what: &'static str,
    pc: u64,
    of_program: u8,
    of_data: u8,
    shared: bool,
) -> Attempt {
    Attempt {
        what,
        word: 0x0012_8293, // addi x5, x5, 1
        pc,
        address: 0,
        rights: Rights {
            of_program,
            of_data,
            shared,
        },
    }
}

#[test]
fn a_fetch_that_is_not_local_changes_nothing(rt: HostRuntime) -> Result<(), Fail> {
    for tried in [
        fetched("from a page without EXEC", 0x1000, 3, 7, false),
        fetched("from data without EXEC", 0x3000, 7, 3, false),
        fetched("from a shared page", 0x3000, 7, 7, true),
        fetched("where nothing is mapped", 0x5000, 7, 7, false),
    ] {
        assert!(rt; changes_nothing(rt.alloc(), &tried)?, "{}", tried.what);
    }
    Ok(())
}
