ghost use Rattle.std.specs.Prelude.{◌≡◌, ◌∷◌, [], IfOk};
ghost use Rattle.shadow_chains.specs.Entries.{entry_with};
ghost use Rattle.lease_tests.specs.Samples.{both_faces, both_maps, two_pages_of};

use address_maps::{Map, Mapping};
use lists::NoMemory;
use proc_lease::{CallerMemory, Lease, Process};
use rv64_core::Regs;
use shadow_chains::{Face, FaceTable, Frozen};
use std::alloc::Global;

/// The object of the program, whose two pages stand from 0x1000 on.
pub const PROGRAM: u64 = 3;

/// The object of the data, whose two pages stand from 0x3000 on.
pub const DATA: u64 = 7;

/// How the two objects are mapped.
#[derive(Clone, Copy, Debug)]
pub struct Rights {
    pub of_program: u8,
    pub of_data: u8,
    /// Whether the data is shared.
    pub shared: bool,
}

/// Both are private, with all rights.
pub const OWN: Rights = Rights {
    of_program: 7,
    of_data: 7,
    shared: false,
};

const fn two_pages(start: u64, prot: u8, shared: bool, object: u64) -> Mapping
    ensures { result ≡ two_pages_of start prot shared object }
{
    Mapping {
        start,
        pages: 2,
        prot,
        shared,
        object,
        first: 0,
    }
}

fn map_of(alloc: Global, rights: Rights) -> Result<Map, NoMemory>
    ensures { IfOk result (λ map. map.entries
        ≡ both_maps rights.of_program rights.of_data rights.shared) }
{
    let maps = [
        two_pages(0x1000, rights.of_program, false, PROGRAM),
        two_pages(0x3000, rights.of_data, rights.shared, DATA),
    ];
    Map::of(alloc, &maps)
}

fn faces_of(alloc: Global, low: Face, high: Face) -> Result<FaceTable, NoMemory>
    ensures { IfOk result (λ faces. faces.entries ≡ both_faces low high) }
{
    let mut faces = FaceTable::new(alloc);
    faces.insert(PROGRAM, low)?;
    faces.insert(DATA, high)?;
    Ok(faces)
}

fn process_of(alloc: Global, low: Face, high: Face, rights: Rights) -> Result<Process, NoMemory>
    requires low { low.pages ≡ 2 }
    requires high { high.pages ≡ 2 }
{
    let _low_pages = low.pages();
    let _high_pages = high.pages();
    let faces = faces_of(alloc, low, high)?;
    let map = map_of(alloc, rights)?;
    let regs = Regs {
        pc: 0x1000,
        x: [0; 31],
    };
    Ok(Process { regs, map, faces })
}

/// A lease of a process of these two faces, the program's and the data's. It begins with the program's first word.
pub fn lease_of(alloc: Global, low: Face, high: Face, rights: Rights) -> Result<Lease, NoMemory>
    requires low { low.pages ≡ 2 }
    requires high { high.pages ≡ 2 }
    ensures { IfOk result (λ lease. lease.done ≡ 0) }
{
    let process = process_of(alloc, low, high, rights)?;
    Ok(Lease {
        pid: 1,
        done: 0,
        process,
    })
}

fn one_face(alloc: Global, number: u64, face: Face) -> Result<FaceTable, NoMemory>
    ensures { IfOk result (λ faces. faces.entries ≡ entry_with number face ∷ []) }
{
    let mut faces = FaceTable::new(alloc);
    faces.insert(number, face)?;
    Ok(faces)
}

/// The memory of a process with these registers, whose program is private and whose data is shared.
pub fn caller_of(
    alloc: Global,
    regs: Regs,
    program: Face,
    of_shared: Face,
    of_program: u8,
    of_data: u8,
) -> Result<CallerMemory, NoMemory>
    requires program { program.pages ≡ 2 }
    requires of_shared { of_shared.pages ≡ 2 }
{
    let _program_pages = program.pages();
    let _shared_pages = of_shared.pages();
    let rights = Rights {
        of_program,
        of_data,
        shared: true,
    };
    let map = map_of(alloc, rights)?;
    let faces = one_face(alloc, PROGRAM, program)?;
    let shared = one_face(alloc, DATA, of_shared)?;
    let process = Process { regs, map, faces };
    Ok(CallerMemory { process, shared })
}

fn bytes_of(alloc: Global, words: &[u32]) -> Result<Vec<u8>, NoMemory> {
    let mut bytes = Vec::new(alloc);
    for word in words {
        for byte in word.to_le_bytes() {
            bytes.push(byte)?;
        }
    }
    Ok(bytes)
}

/// A face of two pages that begins with these words, and what its freeze has given: no page was written since.
pub fn frozen_face(alloc: Global, words: &[u32]) -> Result<(Face, Frozen), NoMemory>
    ensures { IfOk result (λ made. made.0.pages ≡ 2) }
{
    let bytes = bytes_of(alloc, words)?;
    let mut face = Face::zeroed(alloc, 2)?;
    if bytes.len() <= 8192 {
        face.write(0, &bytes)?;
    }
    face.prepare()?;
    let frozen = face.freeze(1);
    if face.pages() != 2 {
        return Err(NoMemory);
    }
    Ok((face, frozen))
}

/// A lease of a process of this program and this data, both private and with all rights.
pub fn own_lease(alloc: Global, program: &[u32], data: &[u32]) -> Result<Lease, NoMemory>
    ensures { IfOk result (λ lease. lease.done ≡ 0) }
{
    let (program, _) = frozen_face(alloc, program)?;
    let (data, _) = frozen_face(alloc, data)?;
    lease_of(alloc, program, data, OWN)
}

/// The faces that a lease leaves.
pub fn faces_left(lease: Lease) -> FaceTable {
    let process = lease.process;
    process.faces
}

/// The eight bytes at a place of an object, as a number.
pub fn number_at(faces: &FaceTable, object: u64, place: u64) -> u64 {
    let mut bytes = [0; 8];
    if let Some(face) = faces.face(object) {
        if face.pages() == 2 && place <= 8184 {
            face.read(place, &mut bytes);
        }
    }
    u64::from_le_bytes(bytes)
}

/// Which of the two pages of an object were written since its freeze. Its face goes.
pub fn pages_written(faces: &mut FaceTable, object: u64) -> Result<(bool, bool), NoMemory> {
    match faces.remove(object) {
        Some(mut face) => {
            face.prepare()?;
            let frozen = face.freeze(2);
            Ok((
                frozen.layers.find(0).is_some(),
                frozen.layers.find(1).is_some(),
            ))
        }
        None => Ok((false, false)),
    }
}
