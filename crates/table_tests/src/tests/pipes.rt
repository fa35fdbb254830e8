use pipes_socks::{PipeTable, Pull, Push, TableRefused};
use std::alloc::Global;
use std::test::Fail;

// Calls on a pipe that is there or not.

fn make_pipe(alloc: Global, pipes: &mut PipeTable, number: u64) -> Option<TableRefused> {
    match pipes.held(number) {
        Some(_) => None,
        None => pipes.make(alloc, number).err(),
    }
}

fn push(pipes: &mut PipeTable, number: u64, bytes: &[u8], reader: bool) -> Option<Push> {
    match pipes.held(number) {
        Some(_) => Some(pipes.push(number, bytes, reader)),
        None => None,
    }
}

fn pull(pipes: &mut PipeTable, number: u64, into: &mut [u8], writer: bool) -> Option<Pull> {
    match pipes.held(number) {
        Some(_) => Some(pipes.pull(number, into, writer)),
        None => None,
    }
}

fn empty_pipe(pipes: &mut PipeTable, number: u64) {
    if pipes.held(number).is_some() {
        pipes.empty(number);
    }
}

fn drop_pipe(pipes: &mut PipeTable, number: u64) {
    if pipes.held(number).is_some() {
        pipes.drop_pipe(number);
    }
}

#[test]
fn bytes_come_out_in_their_order(rt: HostRuntime) -> Result<(), Fail> {
    let mut pipes = PipeTable::new(rt.alloc());
    pipes.reserve(rt.alloc(), 1)?;
    assert_eq!(rt; make_pipe(rt.alloc(), &mut pipes, 3), None);
    assert_eq!(rt; push(&mut pipes, 3, b"abc", true), Some(Push::Taken(3)));
    let mut into = [0; 2];
    assert_eq!(rt; pull(&mut pipes, 3, &mut into, true), Some(Pull::Taken(2)));
    assert_eq!(rt; into, *b"ab");
    assert_eq!(rt; pipes.held(3), Some(1));
    assert_eq!(rt; pull(&mut pipes, 3, &mut into, true), Some(Pull::Taken(1)));
    assert_eq!(rt; into, *b"cb");
    assert_eq!(rt; pull(&mut pipes, 3, &mut into, true), Some(Pull::Waits));
    assert_eq!(rt; pull(&mut pipes, 3, &mut into, false), Some(Pull::Taken(0)));
    Ok(())
}

#[test]
fn a_pipe_holds_65_536_bytes(rt: HostRuntime) -> Result<(), Fail> {
    let mut pipes = PipeTable::new(rt.alloc());
    assert_eq!(rt; make_pipe(rt.alloc(), &mut pipes, 3), None);
    let mut bytes = Vec::new(rt.alloc());
    bytes.resize(65_546, 7)?;
    assert_eq!(rt;
        push(&mut pipes, 3, &bytes, true),
        Some(Push::Taken(65_536))
    );
    assert_eq!(rt; push(&mut pipes, 3, b"a", true), Some(Push::Waits));
    assert_eq!(rt; push(&mut pipes, 3, b"", true), Some(Push::Taken(0)));
    let mut into = [0; 10];
    assert_eq!(rt; pull(&mut pipes, 3, &mut into, true), Some(Pull::Taken(10)));
    assert_eq!(rt;
        push(&mut pipes, 3, b"eleven long", true),
        Some(Push::Waits)
    );
    assert_eq!(rt; push(&mut pipes, 3, &bytes, true), Some(Push::Taken(10)));
    Ok(())
}

#[test]
fn a_pipe_without_a_reader_is_broken(rt: HostRuntime) -> Result<(), Fail> {
    let mut pipes = PipeTable::new(rt.alloc());
    assert_eq!(rt; make_pipe(rt.alloc(), &mut pipes, 3), None);
    assert_eq!(rt; push(&mut pipes, 3, b"abc", false), Some(Push::Broken));
    assert_eq!(rt; push(&mut pipes, 3, b"abc", true), Some(Push::Taken(3)));
    empty_pipe(&mut pipes, 3);
    assert_eq!(rt; pipes.held(3), Some(0));
    drop_pipe(&mut pipes, 3);
    assert_eq!(rt; pipes.held(3), None);
    assert_eq!(rt; pipes.len(), 0);
    Ok(())
}

#[test]
fn there_are_at_most_256_pipes(rt: HostRuntime) -> Result<(), Fail> {
    let mut pipes = PipeTable::new(rt.alloc());
    for number in 0..256 {
        assert_eq!(rt; make_pipe(rt.alloc(), &mut pipes, number), None);
    }
    assert_eq!(rt;
        make_pipe(rt.alloc(), &mut pipes, 256),
        Some(TableRefused::Full)
    );
    assert_eq!(rt; pipes.len(), 256);
    Ok(())
}

#[test]
fn a_copy_of_the_pipes_makes_them_again(rt: HostRuntime) -> Result<(), Fail> {
    let mut pipes = PipeTable::new(rt.alloc());
    assert_eq!(rt; make_pipe(rt.alloc(), &mut pipes, 9), None);
    assert_eq!(rt; make_pipe(rt.alloc(), &mut pipes, 3), None);
    assert_eq!(rt; push(&mut pipes, 9, b"abc", true), Some(Push::Taken(3)));
    let list = pipes.list(rt.alloc())?;
    match list.as_slice() {
        [first, second] => assert_eq!(rt; (first.number, second.number), (3, 9)),
        _ => return Err(Fail::new("there are two pipes")),
    }
    let again = PipeTable::of(rt.alloc(), list.as_slice())?;
    assert_eq!(rt; again.held(9), Some(3));
    Ok(())
}
