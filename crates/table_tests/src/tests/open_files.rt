use descriptors::{BadFd, Closed, DescRefused, DescTable, OpenKind, Opens, OpensRefused};
use std::alloc::Global;
use std::test::Fail;

// Calls whose conditions are tested first.

fn make(opens: &mut Opens, number: u64, kind: OpenKind) -> Option<OpensRefused> {
    match opens.get(number) {
        Some(_) => None,
        None => opens.make(number, kind, 0).err(),
    }
}

fn install(fds: &mut DescTable, fd: u32, number: u64, opens: &mut Opens) -> bool {
    fd < 64 && fds.get(fd).is_none() && fds.install(fd, number, opens).is_ok()
}

fn dup3(
    fds: &mut DescTable,
    old: u32,
    new: u32,
    opens: &mut Opens,
) -> Option<Result<Closed, DescRefused>> {
    if old == new || new > 63 {
        return None;
    }
    Some(fds.dup3(old, new, opens))
}

fn set_offset(opens: &mut Opens, number: u64, offset: u64) {
    if opens.get(number).is_some() {
        opens.set_offset(number, offset);
    }
}

fn hold(opens: &mut Opens, number: u64) {
    if opens.owners(number) < u64::MAX {
        opens.hold(number);
    }
}

const FILE: OpenKind = OpenKind::File { object: 7 };

// A file at descriptor 3 of a process, as description 5.
fn one_file(alloc: Global) -> Result<(DescTable, Opens), Fail> {
    let mut opens = Opens::new(alloc);
    let mut fds = DescTable::new(alloc);
    opens.reserve(1)?;
    fds.reserve(1)?;
    if make(&mut opens, 5, FILE).is_some() || !install(&mut fds, 3, 5, &mut opens) {
        return Err(Fail::new("no file"));
    }
    Ok((fds, opens))
}

#[test]
fn the_last_of_two_descriptors_takes_the_description_away(rt: HostRuntime) -> Result<(), Fail> {
    let (mut fds, mut opens) = one_file(rt.alloc())?;
    assert_eq!(rt; fds.dup(3, &mut opens), Ok(0));
    assert_eq!(rt; fds.dup(9, &mut opens), Err(DescRefused::BadFd));
    assert_eq!(rt;
        (fds.get(0), fds.get(9), fds.lowest()),
        (Some(5), None, Some(1))
    );
    assert_eq!(rt; fds.close(3, &mut opens), Ok(Closed::Kept));
    assert_eq!(rt; fds.close(3, &mut opens), Err(BadFd));
    assert_eq!(rt; fds.close(0, &mut opens), Ok(Closed::Last { kind: FILE }));
    assert_eq!(rt; (fds.len(), opens.len()), (0, 0));
    Ok(())
}

#[test]
fn dup3_closes_what_was_open_there(rt: HostRuntime) -> Result<(), Fail> {
    let (mut fds, mut opens) = one_file(rt.alloc())?;
    assert_eq!(rt; make(&mut opens, 6, OpenKind::Nothing), None);
    assert!(rt; install(&mut fds, 4, 6, &mut opens));
    assert_eq!(rt; dup3(&mut fds, 3, 63, &mut opens), Some(Ok(Closed::Kept)));
    assert_eq!(rt;
        dup3(&mut fds, 3, 4, &mut opens),
        Some(Ok(Closed::Last {
            kind: OpenKind::Nothing
        }))
    );
    assert_eq!(rt; dup3(&mut fds, 3, 4, &mut opens), Some(Ok(Closed::Kept)));
    assert_eq!(rt;
        dup3(&mut fds, 5, 4, &mut opens),
        Some(Err(DescRefused::BadFd))
    );
    assert_eq!(rt; (fds.get(4), fds.len(), opens.len()), (Some(5), 3, 1));
    Ok(())
}

#[test]
fn there_are_64_descriptors(rt: HostRuntime) -> Result<(), Fail> {
    let (mut fds, mut opens) = one_file(rt.alloc())?;
    for _ in 0..63 {
        assert!(rt; fds.dup(3, &mut opens).is_ok());
    }
    assert_eq!(rt; (fds.get(63), fds.len(), fds.lowest()), (Some(5), 64, None));
    assert_eq!(rt; fds.dup(3, &mut opens), Err(DescRefused::TooMany));
    assert_eq!(rt; fds.dup(64, &mut opens), Err(DescRefused::BadFd));
    Ok(())
}

#[test]
fn a_child_owns_what_its_parent_does(rt: HostRuntime) -> Result<(), Fail> {
    let (mut fds, mut opens) = one_file(rt.alloc())?;
    let mut child = fds.fork(rt.alloc(), &mut opens)?;
    assert_eq!(rt;
        fds.list(rt.alloc())?.as_slice(),
        child.list(rt.alloc())?.as_slice()
    );
    assert_eq!(rt; fds.close(3, &mut opens), Ok(Closed::Kept));
    assert_eq!(rt; child.close(3, &mut opens), Ok(Closed::Last { kind: FILE }));
    Ok(())
}

#[test]
fn a_hold_alone_keeps_a_description(rt: HostRuntime) -> Result<(), Fail> {
    let (mut fds, mut opens) = one_file(rt.alloc())?;
    hold(&mut opens, 5);
    hold(&mut opens, 5);
    assert_eq!(rt; opens.owners(5), 3);
    assert_eq!(rt; fds.close(3, &mut opens), Ok(Closed::Kept));
    assert_eq!(rt; opens.release(5), Closed::Kept);
    assert_eq!(rt; opens.get(5).map(|open| open.kind), Some(FILE));
    assert!(rt; install(&mut fds, 0, 5, &mut opens));
    assert_eq!(rt; fds.close(0, &mut opens), Ok(Closed::Kept));
    assert_eq!(rt; opens.release(5), Closed::Last { kind: FILE });
    assert_eq!(rt; (opens.owners(5), opens.len()), (0, 0));
    Ok(())
}

#[test]
fn a_hold_that_ends_leaves_the_descriptors(rt: HostRuntime) -> Result<(), Fail> {
    let (mut fds, mut opens) = one_file(rt.alloc())?;
    hold(&mut opens, 6);
    assert_eq!(rt; (opens.owners(6), opens.release(6)), (0, Closed::Kept));
    hold(&mut opens, 5);
    assert_eq!(rt; (opens.release(5), opens.owners(5)), (Closed::Kept, 1));
    assert_eq!(rt; fds.close(3, &mut opens), Ok(Closed::Last { kind: FILE }));
    Ok(())
}

#[test]
fn there_are_at_most_1_024_descriptions(rt: HostRuntime) -> Result<(), Fail> {
    let mut opens = Opens::new(rt.alloc());
    for number in 0..1024 {
        assert_eq!(rt;
            make(&mut opens, number, OpenKind::PipeRead { pipe: number }),
            None
        );
    }
    assert_eq!(rt;
        make(&mut opens, 1024, OpenKind::Nothing),
        Some(OpensRefused::Full)
    );
    assert_eq!(rt; opens.len(), 1024);
    Ok(())
}

#[test]
fn a_copy_of_the_descriptions_makes_them_again(rt: HostRuntime) -> Result<(), Fail> {
    let (_fds, mut opens) = one_file(rt.alloc())?;
    set_offset(&mut opens, 5, 30);
    let list = opens.list(rt.alloc())?;
    let again = Opens::of(rt.alloc(), list.as_slice())?;
    assert_eq!(rt; again.get(5).map(|open| open.offset), Some(30));
    assert!(rt; again.has_kind(FILE));
    assert!(rt; !again.has_kind(OpenKind::File { object: 8 }));
    Ok(())
}
