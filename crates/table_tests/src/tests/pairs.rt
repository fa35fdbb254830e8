use pipes_socks::{Got, OpenList, PairTable, Sending, TableRefused};
use std::alloc::Global;
use std::test::Fail;

// Calls on a pair that is there or not.

fn make_pair(pairs: &mut PairTable, alloc: Global, number: u64) -> Option<TableRefused> {
    match pairs.waiting(number, 0) {
        Some(_) => None,
        None => pairs.make(alloc, number).err(),
    }
}

fn send(
    pairs: &mut PairTable,
    alloc: Global,
    from: u8,
    bytes: &[u8],
    opens: &[u64],
    peer: bool,
) -> Option<Sending> {
    if from > 1 || bytes.is_empty() || opens.len() > 8 {
        return None;
    }
    match pairs.waiting(5, 0) {
        Some(_) => Some(pairs.send(alloc, 5, from, bytes, opens, peer)),
        None => None,
    }
}

// The first three numbers of a list.
type Numbers = (Option<u64>, Option<u64>, Option<u64>);

const NONE: Numbers = (None, None, None);

fn numbers(mut opens: OpenList) -> Numbers {
    let first = opens.next();
    let second = opens.next();
    (first, second, opens.next())
}

// What a buffer got: how many bytes, whether more were lost, and what came with them.
#[derive(Clone, Copy, Debug, PartialEq, Eq)]
enum Seen {
    Message(u64, bool, Numbers),
    End,
    Waits,
}

fn taken_apart(got: Got) -> Seen {
    match got {
        Got::Message { taken, cut, opens } => Seen::Message(taken, cut, numbers(opens)),
        Got::End => Seen::End,
        Got::Waits => Seen::Waits,
    }
}

fn recv(pairs: &mut PairTable, end: u8, into: &mut [u8], peer: bool) -> Option<Seen> {
    if end > 1 {
        return None;
    }
    match pairs.waiting(5, 0) {
        Some(_) => Some(taken_apart(pairs.recv(5, end, into, peer))),
        None => None,
    }
}

fn empty(pairs: &mut PairTable, end: u8) -> Option<Numbers> {
    if end > 1 {
        return None;
    }
    match pairs.waiting(5, 0) {
        Some(_) => Some(numbers(pairs.empty(5, end))),
        None => None,
    }
}

fn drop_pair(pairs: &mut PairTable) {
    if pairs.waiting(5, 1).is_some() {
        pairs.drop_pair(5);
    }
}

#[test]
fn what_a_buffer_does_not_hold_of_a_message_is_lost(rt: HostRuntime) -> Result<(), Fail> {
    let mut pairs = PairTable::new(rt.alloc());
    pairs.reserve(1)?;
    assert_eq!(rt; make_pair(&mut pairs, rt.alloc(), 5), None);
    assert_eq!(rt;
        send(&mut pairs, rt.alloc(), 0, b"0123456789", &[], true),
        Some(Sending::Sent)
    );
    assert_eq!(rt;
        send(&mut pairs, rt.alloc(), 0, b"ab", &[], true),
        Some(Sending::Sent)
    );
    assert_eq!(rt;
        (pairs.ready(5, 1), pairs.waiting(5, 1)),
        (Some(10), Some(2))
    );
    assert_eq!(rt; (pairs.ready(5, 0), pairs.waiting(6, 0)), (None, None));
    let mut into = [0; 4];
    assert_eq!(rt;
        recv(&mut pairs, 1, &mut into, true),
        Some(Seen::Message(4, true, NONE))
    );
    assert_eq!(rt; into, *b"0123");
    assert_eq!(rt;
        recv(&mut pairs, 1, &mut into, true),
        Some(Seen::Message(2, false, NONE))
    );
    assert_eq!(rt; into, *b"ab23");
    assert_eq!(rt; recv(&mut pairs, 1, &mut into, true), Some(Seen::Waits));
    assert_eq!(rt; recv(&mut pairs, 1, &mut into, false), Some(Seen::End));
    Ok(())
}

#[test]
fn what_a_message_carries_comes_with_it(rt: HostRuntime) -> Result<(), Fail> {
    let mut pairs = PairTable::new(rt.alloc());
    assert_eq!(rt; make_pair(&mut pairs, rt.alloc(), 5), None);
    assert_eq!(rt;
        send(&mut pairs, rt.alloc(), 1, b"ab", &[7, 3], true),
        Some(Sending::Sent)
    );
    assert_eq!(rt;
        send(&mut pairs, rt.alloc(), 1, b"c", &[9], true),
        Some(Sending::Sent)
    );
    assert_eq!(rt;
        (
            pairs.carried(5, 0),
            pairs.carried(5, 1),
            pairs.carried(6, 0)
        ),
        (Some(2), None, None)
    );
    assert_eq!(rt;
        recv(&mut pairs, 0, &mut [], true),
        Some(Seen::Message(0, true, (Some(7), Some(3), None)))
    );
    let mut into = [0; 1];
    assert_eq!(rt;
        recv(&mut pairs, 0, &mut into, false),
        Some(Seen::Message(1, false, (Some(9), None, None)))
    );
    assert_eq!(rt; (into, pairs.waiting(5, 0)), (*b"c", Some(0)));
    Ok(())
}

#[test]
fn an_end_that_closes_tells_what_its_messages_carried(rt: HostRuntime) -> Result<(), Fail> {
    let mut pairs = PairTable::new(rt.alloc());
    assert_eq!(rt; make_pair(&mut pairs, rt.alloc(), 5), None);
    for opens in [[7].as_slice(), &[], &[3, 7]] {
        assert_eq!(rt;
            send(&mut pairs, rt.alloc(), 0, b"a", opens, true),
            Some(Sending::Sent)
        );
    }
    assert_eq!(rt;
        send(&mut pairs, rt.alloc(), 1, b"a", &[4], true),
        Some(Sending::Sent)
    );
    assert_eq!(rt; empty(&mut pairs, 1), Some((Some(7), Some(3), Some(7))));
    assert_eq!(rt; empty(&mut pairs, 1), Some(NONE));
    assert_eq!(rt; (pairs.carried(5, 0), pairs.carried(5, 1)), (Some(1), None));
    drop_pair(&mut pairs);
    assert_eq!(rt; pairs.len(), 0);
    Ok(())
}

#[test]
fn sixteen_messages_wait(rt: HostRuntime) -> Result<(), Fail> {
    let mut pairs = PairTable::new(rt.alloc());
    assert_eq!(rt; make_pair(&mut pairs, rt.alloc(), 5), None);
    for _ in 0..16 {
        assert_eq!(rt;
            send(&mut pairs, rt.alloc(), 1, b"a", &[], true),
            Some(Sending::Sent)
        );
    }
    assert_eq!(rt;
        send(&mut pairs, rt.alloc(), 1, b"a", &[], true),
        Some(Sending::Waits)
    );
    assert_eq!(rt;
        send(&mut pairs, rt.alloc(), 1, b"a", &[], false),
        Some(Sending::Broken)
    );
    assert_eq!(rt;
        send(&mut pairs, rt.alloc(), 0, b"a", &[], true),
        Some(Sending::Sent)
    );
    Ok(())
}

#[test]
fn a_message_has_at_most_4_096_bytes(rt: HostRuntime) -> Result<(), Fail> {
    let mut pairs = PairTable::new(rt.alloc());
    assert_eq!(rt; make_pair(&mut pairs, rt.alloc(), 5), None);
    let mut bytes = Vec::new(rt.alloc());
    bytes.resize(4096, 7)?;
    assert_eq!(rt;
        send(&mut pairs, rt.alloc(), 0, &bytes, &[], true),
        Some(Sending::Sent)
    );
    bytes.push(7)?;
    assert_eq!(rt;
        send(&mut pairs, rt.alloc(), 0, &bytes, &[], false),
        Some(Sending::TooLong)
    );
    Ok(())
}

#[test]
fn there_are_at_most_256_pairs(rt: HostRuntime) -> Result<(), Fail> {
    let mut pairs = PairTable::new(rt.alloc());
    for number in 0..256 {
        assert_eq!(rt; make_pair(&mut pairs, rt.alloc(), number), None);
    }
    assert_eq!(rt;
        make_pair(&mut pairs, rt.alloc(), 256),
        Some(TableRefused::Full)
    );
    assert_eq!(rt; pairs.len(), 256);
    Ok(())
}

#[test]
fn a_copy_of_the_pairs_makes_them_again(rt: HostRuntime) -> Result<(), Fail> {
    let mut pairs = PairTable::new(rt.alloc());
    assert_eq!(rt; make_pair(&mut pairs, rt.alloc(), 9), None);
    assert_eq!(rt; make_pair(&mut pairs, rt.alloc(), 5), None);
    assert_eq!(rt;
        send(&mut pairs, rt.alloc(), 0, b"abc", &[], true),
        Some(Sending::Sent)
    );
    let list = pairs.list(rt.alloc())?;
    let again = PairTable::of(rt.alloc(), list.as_slice())?;
    assert_eq!(rt;
        (again.ready(5, 1), again.waiting(9, 0), again.len()),
        (Some(3), Some(0), 2)
    );
    Ok(())
}
