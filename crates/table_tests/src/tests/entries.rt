use std::test::Fail;
use tables::{Table, rises};

#[test]
fn entries_are_found_by_number(rt: HostRuntime) -> Result<(), Fail> {
    let mut table: Table<(u32, u64)> = Table::new(rt.alloc());
    table.reserve(2)?;
    if !table.contains(7) {
        table.insert((7, 70))?;
    }
    if !table.contains(3) {
        table.insert((3, 30))?;
    }
    table.replace((7, 71));
    assert_eq!(rt; table.as_slice(), [(3, 30), (7, 71)].as_slice());
    assert!(rt; rises(table.as_slice()));
    assert_eq!(rt; table.get(7).copied(), Some((7, 71)));
    assert_eq!(rt; table.get(4).copied(), None);
    assert_eq!(rt; table.len(), 2);
    Ok(())
}

#[test]
fn a_copy_makes_the_table_again(rt: HostRuntime) -> Result<(), Fail> {
    let mut table: Table<(u32, u64)> = Table::new(rt.alloc());
    if !table.contains(3) {
        table.insert((3, 30))?;
    }
    let list = table.list(rt.alloc())?;
    let mut again: Table<(u32, u64)> = Table::of(rt.alloc(), list.as_slice())?;
    assert_eq!(rt; again.remove(4), None);
    assert_eq!(rt; again.remove(3), Some((3, 30)));
    assert_eq!(rt; again.len(), 0);
    let none = again.list(rt.alloc())?;
    assert_eq!(rt; Table::from_vec(none.into_vec()).len(), 0);
    Ok(())
}
