use group_files::{CreateRefused, FileRef, FileTable, TooBig};
use std::test::Fail;

// An empty file.
fn empty(object: u64) -> FileRef {
    FileRef { object, length: 0 }
}

#[test]
#[tactic(auto, unfolding(group_files::specs::Names::IsName))]
fn names_are_looked_up(rt: HostRuntime) -> Result<(), Fail> {
    let mut table = FileTable::new(rt.alloc());
    table.reserve(1)?;
    if table.length_of(8).is_none() {
        table.create(b"log", 8)?;
    }
    assert_eq!(rt; table.lookup(b"log"), Some(empty(8)));
    assert_eq!(rt; table.lookup(b"logs"), None);
    assert_eq!(rt; table.lookup(b""), None);
    assert_eq!(rt; table.length_of(9), None);
    Ok(())
}

#[test]
#[tactic(auto, unfolding(group_files::specs::Names::IsName))]
fn files_stand_in_the_order_of_their_names(rt: HostRuntime) -> Result<(), Fail> {
    let mut table = FileTable::new(rt.alloc());
    if table.length_of(1).is_none() {
        table.create(b"b", 1)?;
    }
    if table.length_of(2).is_none() {
        table.create(b"aa", 2)?;
    }
    if table.length_of(3).is_none() {
        table.create(b"a", 3)?;
    }
    let list = table.list(rt.alloc())?;
    let objects = list.as_slice().iter().map(|file| file.object);
    assert_eq!(rt;
        objects.collect::<Vec<u64>>(rt.alloc())?.as_slice(),
        [3, 2, 1].as_slice()
    );
    let again = FileTable::of(rt.alloc(), list.as_slice())?;
    assert_eq!(rt; again.lookup(b"aa"), Some(empty(2)));
    assert_eq!(rt; again.len(), 3);
    Ok(())
}

#[test]
#[tactic(auto, unfolding(group_files::specs::Names::IsName))]
fn at_most_64_files(rt: HostRuntime) -> Result<(), Fail> {
    let mut table = FileTable::new(rt.alloc());
    for digit in 0..64u8 {
        if table.length_of(u64::from(digit)).is_none() {
            table.create(&[b'0' + digit], u64::from(digit))?;
        }
    }
    assert_eq!(rt; table.len(), 64);
    if table.length_of(64).is_none() {
        assert_eq!(rt; table.create(b"0", 64), Err(CreateRefused::Exists));
        assert_eq!(rt; table.create(b"10", 64), Err(CreateRefused::TableFull));
    }
    assert_eq!(rt; table.lookup(b"9"), Some(empty(9)));
    Ok(())
}

#[test]
#[tactic(auto, unfolding(group_files::specs::Names::IsName))]
fn a_length_of_at_most_1_048_576_bytes(rt: HostRuntime) -> Result<(), Fail> {
    let mut table = FileTable::new(rt.alloc());
    if table.length_of(8).is_none() {
        table.create(b"log", 8)?;
    }
    if table.length_of(8).is_some() {
        assert_eq!(rt; table.set_length(8, 1_048_577), Err(TooBig));
        assert_eq!(rt; table.set_length(8, 1_048_576), Ok(()));
    }
    assert_eq!(rt; table.length_of(8), Some(1_048_576));
    Ok(())
}
