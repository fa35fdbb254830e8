use shadow_chains::{Face, Frozen};
use std::alloc::Global;
use std::mem;
use std::test::Fail;

/// How many pages a face has here, and how many bytes.
const PAGES: u64 = 4;

const BYTES: usize = 16384;

/// Numbers without an order, the same in each run.
#[derive(Drop)]
struct Numbers {
    state: u64,
}

impl Numbers {
    fn below(&mut self, end: u64) -> u64 {
        self.state ^= self.state << 13;
        self.state ^= self.state >> 7;
        self.state ^= self.state << 17;
        if end == 0 { 0 } else { self.state % end }
    }
}

/// A face beside a flat copy of what it is to show, and its last freeze beside copies of its moment and of
/// the one before.
#[derive(Drop)]
struct Watched {
    face: Face,
    flat: Vec<u8>,
    base: Vec<u8>,
    frozen: Option<Frozen>,
    before: Vec<u8>,
    then: Vec<u8>,
}

/// So many bytes of one value.
fn filled(alloc: Global, byte: u8, count: usize) -> Result<Vec<u8>, Fail> {
    Ok(vec![in alloc; byte; count]?)
}

fn copy(alloc: Global, bytes: &[u8]) -> Result<Vec<u8>, Fail> {
    Ok(Vec::from_slice(alloc, bytes)?)
}

fn watched_face(alloc: Global) -> Result<Watched, Fail> {
    Ok(Watched {
        face: Face::zeroed(alloc, PAGES)?,
        flat: filled(alloc, 0, BYTES)?,
        base: filled(alloc, 0, BYTES)?,
        frozen: None,
        before: filled(alloc, 0, BYTES)?,
        then: filled(alloc, 0, BYTES)?,
    })
}

/// Puts bytes into the face and into the copy.
fn write(face: &mut Face, flat: &mut [u8], place: usize, bytes: &[u8]) -> Result<(), Fail> {
    if face.pages() == PAGES
        && flat.len() == BYTES
        && place < BYTES
        && bytes.len() <= BYTES - place
    {
        face.write(place as u64, bytes)?;
        flat[place..place + bytes.len()].copy_from_slice(bytes);
    }
    Ok(())
}

fn fork(watched: &mut Watched, alloc: Global) -> Result<Watched, Fail> {
    Ok(Watched {
        face: watched.face.fork()?,
        flat: copy(alloc, &watched.flat)?,
        base: copy(alloc, &watched.base)?,
        frozen: None,
        before: filled(alloc, 0, BYTES)?,
        then: filled(alloc, 0, BYTES)?,
    })
}

fn freeze(watched: &mut Watched, alloc: Global, number: u64) -> Result<(), Fail> {
    let base = copy(alloc, &watched.flat)?;
    watched.then = copy(alloc, &watched.flat)?;
    watched.face.prepare()?;
    watched.frozen = Some(watched.face.freeze(number));
    watched.before = mem::replace(&mut watched.base, base);
    Ok(())
}

/// Whether the face shows the copy.
fn shows(face: &Face, flat: &[u8], alloc: Global) -> Result<bool, Fail> {
    let mut seen = filled(alloc, 0, BYTES)?;
    if face.pages() == PAGES && seen.len() == BYTES {
        face.read(0, &mut seen);
    }
    Ok(seen.as_slice() == flat)
}

/// Whether a page of the layers of a freeze, or else of the one before, is what stood then.
fn keeps_page(frozen: &Frozen, page: u64, before: &[u8], then: &[u8]) -> bool {
    match frozen.layers.find(page) {
        Some(buf) => buf.as_array().as_slice() == then,
        None => before == then,
    }
}

fn keeps(frozen: &Frozen, before: &[u8], then: &[u8]) -> bool {
    for page in 0..PAGES {
        let from = page as usize * 4096;
        if before.len() != BYTES || then.len() != BYTES {
            return false;
        }
        let end = from + 4096;
        if !keeps_page(frozen, page, &before[from..end], &then[from..end]) {
            return false;
        }
    }
    true
}

fn is_right(watched: &Watched, alloc: Global) -> Result<bool, Fail> {
    let kept = match &watched.frozen {
        Some(frozen) => keeps(frozen, &watched.before, &watched.then),
        None => true,
    };
    Ok(kept && shows(&watched.face, &watched.flat, alloc)?)
}

/// A write of up to 5,000 bytes.
fn write_some(one: &mut Watched, numbers: &mut Numbers, alloc: Global) -> Result<(), Fail> {
    let byte = (numbers.below(256) % 256) as u8;
    let count = numbers.below(5000) as usize;
    let place = numbers.below(BYTES as u64) as usize;
    let bytes = filled(alloc, byte, count)?;
    write(&mut one.face, &mut one.flat, place, &bytes)
}

/// One write, freeze, flattening or fork of a face. A fork comes to the others.
fn step(
    one: &mut Watched,
    forks: &mut Vec<Watched>,
    numbers: &mut Numbers,
    alloc: Global,
) -> Result<(), Fail> {
    match numbers.below(8) {
        0 => freeze(one, alloc, 5),
        1 => Ok(one.face.flatten()?),
        2 => Ok(forks.push(fork(one, alloc)?)?),
        _ => write_some(one, numbers, alloc),
    }
}

fn all_right(group: &[Watched], alloc: Global) -> Result<bool, Fail> {
    for one in group {
        if !is_right(one, alloc)? {
            return Ok(false);
        }
    }
    Ok(true)
}

/// Faces after so many steps, each a step of one of them.
fn after_steps(alloc: Global, steps: u64, seed: u64) -> Result<Vec<Watched>, Fail> {
    let mut numbers = Numbers { state: seed };
    let mut group = Vec::new(alloc);
    group.push(watched_face(alloc)?)?;
    for _ in 0..steps {
        let at = numbers.below(group.len() as u64) as usize;
        if at < group.len() {
            let mut one = group.swap_remove(at);
            step(&mut one, &mut group, &mut numbers, alloc)?;
            group.push(one)?;
        }
    }
    Ok(group)
}

#[test]
fn faces_do_what_flat_copies_do(rt: HostRuntime) -> Result<(), Fail> {
    for seed in [1, 88_172_645_463_325_252, 4_101_842_887_655_102_017] {
        let group = after_steps(rt.alloc(), 300, seed)?;
        assert!(rt; group.len() > 10);
        assert!(rt; all_right(&group, rt.alloc())?);
    }
    Ok(())
}
