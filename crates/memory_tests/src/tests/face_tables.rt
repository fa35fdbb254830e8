use shadow_chains::{Face, FaceTable};
use std::alloc::Global;
use std::test::Fail;

/// The pages of the face of a number.
fn pages_of(table: &FaceTable, number: u64) -> Option<u64> {
    match table.face(number) {
        Some(face) => Some(face.pages()),
        None => None,
    }
}

/// A table of two faces, one of which took the place of another.
fn two_faces(alloc: Global) -> Result<FaceTable, Fail> {
    let mut table = FaceTable::new(alloc);
    table.reserve(2)?;
    table.insert(7, Face::zeroed(alloc, 1)?)?;
    table.insert(3, Face::zeroed(alloc, 2)?)?;
    table.insert(7, Face::zeroed(alloc, 3)?)?;
    Ok(table)
}

/// Makes this the first byte of the face of a number.
fn put_first(table: &mut FaceTable, number: u64, first: u8) -> Result<(), Fail> {
    if let Some(face) = table.face_mut(number) {
        if face.pages() > 0 {
            face.write(0, &[first])?;
        }
    }
    Ok(())
}

fn first_of(table: &FaceTable, number: u64) -> u8 {
    let mut first = [0; 1];
    if let Some(face) = table.face(number) {
        if face.pages() > 0 {
            face.read(0, &mut first);
        }
    }
    first[0]
}

#[test]
fn faces_are_found_by_number(rt: HostRuntime) -> Result<(), Fail> {
    let mut table = two_faces(rt.alloc())?;
    assert_eq!(rt; table.len(), 2);
    assert_eq!(rt; pages_of(&table, 3), Some(2));
    assert_eq!(rt; pages_of(&table, 7), Some(3));
    assert_eq!(rt; pages_of(&table, 5), None);
    put_first(&mut table, 3, 9)?;
    assert_eq!(rt; (first_of(&table, 3), first_of(&table, 7)), (9, 0));
    assert!(rt; table.remove(5).is_none());
    assert!(rt; table.remove(7).is_some());
    assert_eq!(rt; (table.len(), first_of(&table, 3)), (1, 9));
    Ok(())
}
