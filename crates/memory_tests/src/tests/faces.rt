use mem_objects::{Layer, PageBuf};
use shadow_chains::{Face, Layers};
use std::alloc::Global;
use std::test::Fail;

/// The first byte of a page as layers have it; 0 where none of them has the page.
fn first_in(layers: &Layers, page: u64) -> u8 {
    let mut first = [0; 1];
    if let Some(buf) = layers.find(page) {
        buf.read(0, &mut first);
    }
    first[0]
}

/// The first byte of a page as a face sees it.
fn first_of(face: &Face, page: u64) -> u8 {
    let mut first = [0; 1];
    if page < 16384 && page < face.pages() {
        face.read(page * 4096, &mut first);
    }
    first[0]
}

/// Makes this the first byte of a page.
fn put_first(face: &mut Face, page: u64, first: u8) -> Result<(), Fail> {
    if page < 16384 && page < face.pages() {
        face.write(page * 4096, &[first])?;
    }
    Ok(())
}

/// A layer with one page.
fn one_page(alloc: Global, page: u64, first: u8) -> Result<Layer, Fail> {
    let mut buf = PageBuf::zeroed(alloc)?;
    buf.write(0, &[first]);
    let mut layer = Layer::new(alloc);
    layer.put(alloc, page, &buf)?;
    Ok(layer)
}

#[test]
fn a_frozen_layer_keeps_its_bytes(rt: HostRuntime) -> Result<(), Fail> {
    let mut face = Face::zeroed(rt.alloc(), 8)?;
    put_first(&mut face, 5, 1)?;
    face.prepare()?;
    let frozen = face.freeze(7);
    put_first(&mut face, 5, 9)?;
    assert_eq!(rt; (frozen.number, frozen.base), (7, None));
    assert_eq!(rt; first_in(&frozen.layers, 5), 1);
    assert_eq!(rt; first_of(&face, 5), 9);
    face.flatten()?;
    assert_eq!(rt; first_in(&frozen.layers, 5), 1);
    assert_eq!(rt; first_of(&face, 5), 9);
    assert_eq!(rt; face.depth(), 2);
    Ok(())
}

#[test]
fn a_layer_has_what_was_written_since_the_freeze(rt: HostRuntime) -> Result<(), Fail> {
    let layer = one_page(rt.alloc(), 2, 3)?;
    let mut face = Face::of(rt.alloc(), 4, 6, layer)?;
    put_first(&mut face, 1, 8)?;
    assert_eq!(rt;
        (first_of(&face, 1), first_of(&face, 2), first_of(&face, 3)),
        (8, 3, 0)
    );
    face.prepare()?;
    let frozen = face.freeze(9);
    assert_eq!(rt; frozen.base, Some(6));
    assert_eq!(rt; frozen.layers.len(), 1);
    assert_eq!(rt;
        (first_in(&frozen.layers, 1), first_in(&frozen.layers, 2)),
        (8, 0)
    );
    let again = Layers::of(frozen.layers.into_vec());
    assert_eq!(rt; again.as_slice().len(), 1);
    face.prepare()?;
    assert_eq!(rt; face.freeze(9).layers.len(), 0);
    Ok(())
}

#[test]
fn a_fork_has_its_own_writes(rt: HostRuntime) -> Result<(), Fail> {
    let mut face = Face::zeroed(rt.alloc(), 4)?;
    put_first(&mut face, 1, 1)?;
    let mut fork = face.fork()?;
    put_first(&mut face, 1, 2)?;
    put_first(&mut fork, 2, 3)?;
    assert_eq!(rt; (first_of(&face, 1), first_of(&face, 2)), (2, 0));
    assert_eq!(rt; (first_of(&fork, 1), first_of(&fork, 2)), (1, 3));
    fork.prepare()?;
    let frozen = fork.freeze(5);
    assert_eq!(rt;
        (first_in(&frozen.layers, 1), first_in(&frozen.layers, 2)),
        (1, 3)
    );
    Ok(())
}

/// So many bytes of one value.
fn filled_bytes(alloc: Global, byte: u8, count: usize) -> Result<Vec<u8>, Fail> {
    Ok(vec![in alloc; byte; count]?)
}

/// Reserves the place of these bytes in a face of 3 pages, and puts them there.
fn write_long(face: &mut Face, place: u64, bytes: &[u8]) -> Result<(), Fail> {
    if face.pages() == 3 && place <= 4096 && bytes.len() <= 8192 {
        face.reserve(place, bytes.len() as u64)?;
        face.write(place, bytes)?;
    }
    Ok(())
}

/// One byte of a face of 3 pages.
fn byte_of(face: &Face, place: u64) -> u8 {
    let mut byte = [0; 1];
    if face.pages() == 3 && place < 12288 {
        face.read(place, &mut byte);
    }
    byte[0]
}

#[test]
fn a_write_may_cross_pages(rt: HostRuntime) -> Result<(), Fail> {
    let mut face = Face::zeroed(rt.alloc(), 3)?;
    write_long(&mut face, 4000, &filled_bytes(rt.alloc(), 7, 5000)?)?;
    assert_eq!(rt; byte_of(&face, 3999), 0);
    assert_eq!(rt; (byte_of(&face, 4000), byte_of(&face, 8999)), (7, 7));
    assert_eq!(rt; byte_of(&face, 9000), 0);
    face.prepare()?;
    let frozen = face.freeze(1);
    assert_eq!(rt;
        (first_in(&frozen.layers, 1), first_in(&frozen.layers, 2)),
        (7, 7)
    );
    assert!(rt; frozen.layers.find(0).is_some());
    Ok(())
}

/// A face whose pages each begin with byte 1.
fn filled(alloc: Global, pages: u64) -> Result<Face, Fail> {
    let mut face = Face::zeroed(alloc, pages)?;
    for page in 0..pages {
        put_first(&mut face, page, 1)?;
    }
    Ok(face)
}

/// The first byte of the last page of the last of so many forks, all of which are kept and prepared.
fn last_of_forks(alloc: Global, face: &mut Face, forks: u64) -> Result<u8, Fail> {
    let mut kept = Vec::new(alloc);
    for _ in 0..forks {
        let mut fork = face.fork()?;
        fork.prepare()?;
        kept.push(fork)?;
    }
    match kept.last() {
        Some(last) => Ok(first_of(last, 16383)),
        None => Ok(0),
    }
}

#[test]
fn a_fork_copies_no_page(rt: HostRuntime) -> Result<(), Fail> {
    let mut face = filled(rt.alloc(), 16384)?;
    assert_eq!(rt; last_of_forks(rt.alloc(), &mut face, 1024)?, 1);
    Ok(())
}

/// A face may go to another thread.
fn goes_to_threads<T: Send + Sync>(_: &T) {}

#[test]
fn a_face_goes_to_other_threads(rt: HostRuntime) -> Result<(), Fail> {
    let mut face = Face::zeroed(rt.alloc(), 1)?;
    goes_to_threads(&face);
    face.prepare()?;
    goes_to_threads(&face.freeze(1));
    Ok(())
}
