use group_defs::{
    FileRec, Frame, Mapping, Message, Next, ObjectRec, Open, OpenKind, Out, Pair, Pipe, Proc,
    ProcState,
};
use group_valid::{frame_valid, rules_hold};
use lists::Seq;
use std::alloc::{AllocError, Global};
use std::test::Fail;

fn list<T: Drop, const N: usize>(alloc: Global, items: [T; N]) -> Result<Seq<T>, AllocError> {
    Ok(Seq::of(Vec::from_array(alloc, items)?))
}

fn mapping(start: u64, pages: u64, shared: bool, object: u64) -> Mapping {
    Mapping {
        start,
        pages,
        prot: 3,
        shared,
        object,
        first: 0,
    }
}

fn process(pid: u32, parent: u32, maps: Seq<Mapping>, fds: Seq<(u32, u64)>) -> Proc {
    Proc {
        pid,
        parent,
        state: ProcState::Running,
        pc: 0x1_0000,
        regs: [1; 31],
        brk_base: 0x5000,
        brk: 0x5001,
        maps,
        fds,
    }
}

// Process 1 has a private object of two pages, and one page shared with its child.
fn parent(alloc: Global) -> Result<Proc, AllocError> {
    let maps = list(
        alloc,
        [
            mapping(0x1_0000, 2, false, 0),
            mapping(0x2_0000, 1, true, 1),
        ],
    )?;
    let fds = list(alloc, [(0, 0), (1, 1), (2, 2), (3, 3), (4, 5)])?;
    Ok(process(1, 0, maps, fds))
}

fn child(alloc: Global) -> Result<Proc, AllocError> {
    let maps = list(
        alloc,
        [
            mapping(0x1_0000, 1, false, 3),
            mapping(0x3_0000, 1, true, 1),
        ],
    )?;
    let fds = list(alloc, [(1, 1), (4, 4), (63, 6)])?;
    Ok(process(2, 1, maps, fds))
}

fn ended(alloc: Global) -> Proc {
    Proc {
        pid: 3,
        parent: 1,
        state: ProcState::Ended { status: 768 },
        pc: 0,
        regs: [0; 31],
        brk_base: 0,
        brk: 0,
        maps: Seq::new(alloc),
        fds: Seq::new(alloc),
    }
}

fn open(number: u64, kind: OpenKind) -> Open {
    Open {
        number,
        kind,
        offset: 0,
        flags: 0,
    }
}

fn opens() -> [Open; 7] {
    let file = Open {
        number: 2,
        kind: OpenKind::File { object: 2 },
        offset: (1 << 63) - 1,
        flags: 1_026,
    };
    [
        open(0, OpenKind::Nothing),
        open(1, OpenKind::Outside),
        file,
        open(3, OpenKind::PipeRead { pipe: 0 }),
        open(4, OpenKind::PipeWrite { pipe: 0 }),
        open(5, OpenKind::PairEnd { pair: 0, end: 0 }),
        open(6, OpenKind::PairEnd { pair: 0, end: 1 }),
    ]
}

fn objects() -> [ObjectRec; 4] {
    [
        ObjectRec {
            number: 0,
            pages: 2,
        },
        ObjectRec {
            number: 1,
            pages: 1,
        },
        ObjectRec {
            number: 2,
            pages: 256,
        },
        ObjectRec {
            number: 3,
            pages: 1,
        },
    ]
}

fn file(alloc: Global, name: &[u8], object: u64) -> Result<FileRec, AllocError> {
    Ok(FileRec {
        name: Seq::of(Vec::from_slice(alloc, name)?),
        object,
        length: 1_048_576,
    })
}

// A message of n zeros that carries these descriptions.
fn message<const N: usize>(
    alloc: Global,
    n: usize,
    opens: [u64; N],
) -> Result<Message, AllocError> {
    Ok(Message {
        bytes: zeros(alloc, n)?,
        opens: list(alloc, opens)?,
    })
}

fn pair(alloc: Global) -> Result<Pair, AllocError> {
    Ok(Pair {
        number: 0,
        to0: list(alloc, [message(alloc, 1, [1])?])?,
        to1: Seq::new(alloc),
    })
}

fn out(alloc: Global) -> Result<Out, AllocError> {
    Ok(Out {
        from: 10,
        mark: 12,
        bytes: list(alloc, [b'a', b'b', b'c'])?,
    })
}

/// A valid frame with something of each kind.
fn frame(alloc: Global) -> Result<Frame, AllocError> {
    let pipe = Pipe {
        number: 0,
        bytes: list(alloc, [0u8])?,
    };
    Ok(Frame {
        procs: list(alloc, [parent(alloc)?, child(alloc)?, ended(alloc)])?,
        objects: list(alloc, objects())?,
        opens: list(alloc, opens())?,
        pipes: list(alloc, [pipe])?,
        pairs: list(alloc, [pair(alloc)?])?,
        files: list(alloc, [file(alloc, b"/a", 2)?])?,
        next: Next {
            pid: 4,
            object: 4,
            descr: 7,
            pipe: 1,
            pair: 1,
        },
        out: out(alloc)?,
    })
}

fn with_procs(alloc: Global, procs: [Proc; 3]) -> Result<Frame, AllocError> {
    let mut f = frame(alloc)?;
    f.procs = list(alloc, procs)?;
    Ok(f)
}

fn with_maps<const N: usize>(alloc: Global, maps: [Mapping; N]) -> Result<Frame, AllocError> {
    let mut p = parent(alloc)?;
    p.maps = list(alloc, maps)?;
    with_procs(alloc, [p, child(alloc)?, ended(alloc)])
}

fn with_fds<const N: usize>(alloc: Global, fds: [(u32, u64); N]) -> Result<Frame, AllocError> {
    let mut p = parent(alloc)?;
    p.fds = list(alloc, fds)?;
    with_procs(alloc, [p, child(alloc)?, ended(alloc)])
}

fn with_open(alloc: Global, place: usize, changed: Open) -> Result<Frame, AllocError> {
    let mut all = opens();
    if place < 7 {
        all[place] = changed;
    }
    let mut f = frame(alloc)?;
    f.opens = list(alloc, all)?;
    Ok(f)
}

fn with_object(alloc: Global, place: usize, changed: ObjectRec) -> Result<Frame, AllocError> {
    let mut all = objects();
    if place < 4 {
        all[place] = changed;
    }
    let mut f = frame(alloc)?;
    f.objects = list(alloc, all)?;
    Ok(f)
}

fn with_queues(alloc: Global, to0: Seq<Message>, to1: Seq<Message>) -> Result<Frame, AllocError> {
    let mut f = frame(alloc)?;
    f.pairs = list(
        alloc,
        [Pair {
            number: 0,
            to0,
            to1,
        }],
    )?;
    Ok(f)
}

fn zeros(alloc: Global, n: usize) -> Result<Seq<u8>, AllocError> {
    Ok(Seq::of(vec![in alloc; 0u8; n]?))
}

fn with_name(alloc: Global, name: &[u8]) -> Result<Frame, AllocError> {
    let mut f = frame(alloc)?;
    f.files = list(alloc, [file(alloc, name, 2)?])?;
    Ok(f)
}

// One rule broken for each case; the rest of the frame is as it was.
fn with_wrong_numbers(alloc: Global, case: u32) -> Result<Frame, AllocError> {
    let mut f = frame(alloc)?;
    match case {
        0 => f.next.pid = 3,
        1 => f.next.pid = 32_769,
        2 => f.next.object = 3,
        3 => f.next.descr = 6,
        4 => f.next.pipe = 0,
        5 => f.next.pair = 0,
        6 => f.out.mark = 9,
        7 => f.out.mark = 14,
        _ => {
            f.out.from = u64::MAX - 1;
            f.out.mark = u64::MAX;
        }
    }
    Ok(f)
}

fn with_wrong_runner(alloc: Global, case: u32) -> Result<Frame, AllocError> {
    let mut p = parent(alloc)?;
    let mut q = child(alloc)?;
    match case {
        0 => p.pc = 2,
        1 => p.brk_base = 1,
        2 => p.brk = 0x4fff,
        3 => p.brk = (1 << 37) + 1,
        4 => p.parent = 2,
        5 => q.parent = 3,
        6 => q.parent = 9,
        7 => q.pid = 1,
        _ => p.pid = 0,
    }
    with_procs(alloc, [p, q, ended(alloc)])
}

fn with_wrong_ended(alloc: Global, case: u32) -> Result<Frame, AllocError> {
    let mut e = ended(alloc);
    match case {
        0 => e.state = ProcState::Ended { status: 3 },
        1 => e.state = ProcState::Ended { status: 65_536 },
        2 => e.pc = 4,
        3 => e.regs[30] = 1,
        4 => e.brk = 1,
        5 => e.parent = 0,
        6 => e.fds = list(alloc, [(0, 0)])?,
        _ => e.parent = 3,
    }
    with_procs(alloc, [parent(alloc)?, child(alloc)?, e])
}

fn with_wrong_maps(alloc: Global, case: u32) -> Result<Frame, AllocError> {
    let own = mapping(0x1_0000, 2, false, 0);
    let shared = mapping(0x2_0000, 1, true, 1);
    match case {
        0 => with_maps(alloc, [mapping(0x1_0001, 2, false, 0), shared]),
        1 => with_maps(alloc, [own, mapping(0x2_0000, 0, true, 1)]),
        2 => with_maps(alloc, [mapping(0, 2, false, 0), shared]),
        3 => with_maps(alloc, [shared, mapping((1 << 38) - 4_096, 2, false, 0)]),
        4 => with_maps(alloc, [Mapping { prot: 8, ..own }, shared]),
        5 => with_maps(alloc, [Mapping { first: 1, ..own }, shared]),
        6 => with_maps(alloc, [own, shared, mapping(0x3_0000, 1, false, 9)]),
        7 => with_maps(alloc, [own, mapping(0x1_1000, 1, true, 1)]),
        8 => with_maps(alloc, [shared, own]),
        _ => with_wrong_sharing(alloc, own, shared, case),
    }
}

fn with_wrong_sharing(
    alloc: Global,
    own: Mapping,
    shared: Mapping,
    case: u32,
) -> Result<Frame, AllocError> {
    match case {
        9 => with_maps(alloc, [own, mapping(0x2_0000, 1, false, 1)]),
        10 => with_maps(alloc, [own, shared, mapping(0x3_0000, 1, false, 3)]),
        11 => with_maps(alloc, [own, shared, mapping(0x3_0000, 1, false, 2)]),
        12 => with_maps(alloc, [own, shared, mapping(0x3_0000, 1, true, 0)]),
        _ => with_maps(alloc, [shared]),
    }
}

fn with_wrong_fds(alloc: Global, case: u32) -> Result<Frame, AllocError> {
    match case {
        0 => with_fds(alloc, [(0, 0), (1, 1), (2, 2), (3, 3), (64, 5)]),
        1 => with_fds(alloc, [(0, 0), (1, 1), (2, 2), (2, 3), (4, 5)]),
        2 => with_fds(alloc, [(0, 0), (1, 1), (2, 2), (3, 3), (4, 5), (5, 9)]),
        _ => with_fds(alloc, [(0, 0), (1, 1), (2, 2), (4, 5)]),
    }
}

fn with_wrong_open(alloc: Global, case: u32) -> Result<Frame, AllocError> {
    let all = opens();
    match case {
        0 => with_open(
            alloc,
            0,
            Open {
                offset: 1,
                ..all[0]
            },
        ),
        1 => with_open(alloc, 1, Open { flags: 1, ..all[1] }),
        2 => with_open(
            alloc,
            2,
            Open {
                offset: 1 << 63,
                ..all[2]
            },
        ),
        3 => with_open(alloc, 2, Open { flags: 3, ..all[2] }),
        4 => with_open(alloc, 2, open(2, OpenKind::File { object: 0 })),
        5 => with_open(alloc, 3, open(3, OpenKind::PipeRead { pipe: 1 })),
        6 => with_open(alloc, 3, open(3, OpenKind::PipeWrite { pipe: 0 })),
        7 => with_open(alloc, 5, open(5, OpenKind::PairEnd { pair: 1, end: 0 })),
        8 => with_open(alloc, 5, open(5, OpenKind::PairEnd { pair: 0, end: 2 })),
        9 => with_open(alloc, 6, open(6, OpenKind::PairEnd { pair: 0, end: 0 })),
        10 => with_open(alloc, 3, open(3, OpenKind::Nothing)),
        11 => with_open(alloc, 5, open(5, OpenKind::Nothing)),
        _ => with_open(alloc, 6, open(5, OpenKind::PairEnd { pair: 0, end: 1 })),
    }
}

fn with_wrong_queues(alloc: Global, case: u32) -> Result<Frame, AllocError> {
    let none = Seq::new(alloc);
    match case {
        0 => with_queues(alloc, list(alloc, [message(alloc, 0, [])?])?, none),
        1 => with_queues(alloc, none, list(alloc, [message(alloc, 4_097, [])?])?),
        2 => with_queues(alloc, none, list(alloc, [message(alloc, 1, [1; 9])?])?),
        3 => with_queues(alloc, none, list(alloc, [message(alloc, 1, [1, 77])?])?),
        4 => with_queues(alloc, list(alloc, [message(alloc, 1, [5])?])?, none),
        _ => {
            let mut many = Vec::new(alloc);
            for _ in 0..17 {
                many.push(message(alloc, 1, [])?)?;
            }
            with_queues(alloc, Seq::of(many), none)
        }
    }
}

fn with_wrong_file(alloc: Global, case: u32) -> Result<Frame, AllocError> {
    let a = file(alloc, b"/a", 2)?;
    let mut f = frame(alloc)?;
    match case {
        0 => return with_name(alloc, b""),
        1 => return with_name(alloc, &[b'a'; 65]),
        2 => return with_name(alloc, b"/a b"),
        3 => f.files = list(
            alloc,
            [FileRec {
                length: 1_048_577,
                ..a
            }],
        )?,
        4 => f.files = list(alloc, [a, file(alloc, b"/b", 2)?])?,
        5 => f.files = list(alloc, [a, file(alloc, b"/b", 9)?])?,
        _ => f.pipes = list(
            alloc,
            [Pipe {
                number: 0,
                bytes: zeros(alloc, 65_537)?,
            }],
        )?,
    }
    Ok(f)
}

fn with_wrong_object(alloc: Global, case: u32) -> Result<Frame, AllocError> {
    match case {
        0 => with_object(
            alloc,
            2,
            ObjectRec {
                number: 2,
                pages: 255,
            },
        ),
        1 => with_object(
            alloc,
            0,
            ObjectRec {
                number: 0,
                pages: 16_385,
            },
        ),
        2 => with_object(
            alloc,
            0,
            ObjectRec {
                number: 0,
                pages: 1,
            },
        ),
        _ => with_object(
            alloc,
            3,
            ObjectRec {
                number: 1,
                pages: 1,
            },
        ),
    }
}

#[test]
fn a_frame_with_all_kinds_holds_the_rules(rt: HostRuntime) -> Result<(), Fail> {
    let alloc = rt.alloc();
    let f = frame(alloc)?;
    assert!(rt; rules_hold(&f));
    assert!(rt; !frame_valid(&f));
    let one_end = with_open(alloc, 6, open(6, OpenKind::Nothing))?;
    assert!(rt; rules_hold(&one_end));
    Ok(())
}

#[test]
fn lists_that_break_a_rule_are_refused(rt: HostRuntime) -> Result<(), Fail> {
    let alloc = rt.alloc();
    for case in 0..4 {
        assert!(rt;
            !rules_hold(&with_wrong_fds(alloc, case)?),
            "descriptors {case}"
        );
        assert!(rt;
            !rules_hold(&with_wrong_object(alloc, case)?),
            "objects {case}"
        );
    }
    for case in 0..13 {
        assert!(rt;
            !rules_hold(&with_wrong_open(alloc, case)?),
            "descriptions {case}"
        );
    }
    for case in 0..6 {
        assert!(rt;
            !rules_hold(&with_wrong_queues(alloc, case)?),
            "messages {case}"
        );
    }
    for case in 0..7 {
        assert!(rt; !rules_hold(&with_wrong_file(alloc, case)?), "files {case}");
    }
    Ok(())
}

#[test]
fn processes_that_break_a_rule_are_refused(rt: HostRuntime) -> Result<(), Fail> {
    let alloc = rt.alloc();
    for case in 0..9 {
        assert!(rt;
            !rules_hold(&with_wrong_numbers(alloc, case)?),
            "numbers {case}"
        );
        assert!(rt;
            !rules_hold(&with_wrong_runner(alloc, case)?),
            "running {case}"
        );
    }
    for case in 0..8 {
        assert!(rt;
            !rules_hold(&with_wrong_ended(alloc, case)?),
            "ended {case}"
        );
    }
    for case in 0..14 {
        assert!(rt;
            !rules_hold(&with_wrong_maps(alloc, case)?),
            "mappings {case}"
        );
    }
    Ok(())
}

// One process with private memory, which reads nothing and writes to the outside.
fn alone(alloc: Global) -> Result<Frame, AllocError> {
    let maps = list(alloc, [mapping(0x1_0000, 2, false, 0)])?;
    let fds = list(alloc, [(0, 0), (1, 1), (2, 1)])?;
    Ok(Frame {
        procs: list(alloc, [process(1, 0, maps, fds)])?,
        objects: list(
            alloc,
            [ObjectRec {
                number: 0,
                pages: 2,
            }],
        )?,
        opens: list(
            alloc,
            [open(0, OpenKind::Nothing), open(1, OpenKind::Outside)],
        )?,
        pipes: Seq::new(alloc),
        pairs: Seq::new(alloc),
        files: Seq::new(alloc),
        next: Next {
            pid: 2,
            object: 1,
            descr: 2,
            pipe: 0,
            pair: 0,
        },
        out: out(alloc)?,
    })
}

#[test]
fn a_frame_of_what_is_built_is_valid(rt: HostRuntime) -> Result<(), Fail> {
    let alloc = rt.alloc();
    let mut f = alone(alloc)?;
    assert!(rt; frame_valid(&f));
    f.next.pipe = 5;
    f.out.mark = 14;
    assert!(rt; !frame_valid(&f));
    f.out.mark = 13;
    assert!(rt; frame_valid(&f));
    let maps = list(alloc, [mapping(0x1_0000, 2, true, 0)])?;
    let fds = list(alloc, [(0, 0), (1, 1)])?;
    f.procs = list(alloc, [process(1, 0, maps, fds)])?;
    assert!(rt; rules_hold(&f));
    assert!(rt; !frame_valid(&f));
    Ok(())
}
