//! Frames from a fixed seed, with all of their parts, written and read again in both formats.
use crate::tests::first_format::in_first_format;
use crate::tests::samples::BLOCKS;
use ckpt_records::{PagePlace, is_in_form, read_meta, write_meta};
use group_defs::{
    FileRec, Frame, Mapping, Message, Next, ObjectRec, Open, OpenKind, Out, Pair, Pipe, Proc,
    ProcState,
};
use lists::Seq;
use std::alloc::Global;
use std::test::Fail;

/// Numbers by a linear congruential generator.
#[derive(Drop)]
struct Numbers {
    state: u64,
    /// Whether messages carry descriptions.
    carries: bool,
}

impl Numbers {
    /// Any number, its high bytes from the generator's high bits.
    fn wide(&mut self) -> u64 {
        self.state = self
            .state
            .wrapping_mul(6_364_136_223_846_793_005)
            .wrapping_add(1_442_695_040_888_963_407);
        self.state
    }

    fn half(&mut self) -> u32 {
        (self.wide() >> 32) as u32
    }

    fn byte(&mut self) -> u8 {
        (self.wide() >> 56) as u8
    }

    /// A count below 4.
    fn few(&mut self) -> u8 {
        self.byte() % 4
    }

    fn coin(&mut self) -> bool {
        self.byte() < 128
    }

    /// A number that is greater the greater the place is.
    fn rising(&mut self, place: u8) -> u64 {
        256 * u64::from(place) + u64::from(self.byte())
    }
}

fn text(alloc: Global, numbers: &mut Numbers) -> Result<Seq<u8>, Fail> {
    let mut bytes = Vec::new(alloc);
    for _ in 0..numbers.byte() {
        bytes.push(numbers.byte())?;
    }
    Ok(Seq::of(bytes))
}

fn objects(alloc: Global, numbers: &mut Numbers) -> Result<Seq<ObjectRec>, Fail> {
    let mut list = Vec::new(alloc);
    for place in 0..numbers.few() {
        list.push(ObjectRec {
            number: numbers.rising(place),
            pages: 1 + u64::from(numbers.byte()),
        })?;
    }
    Ok(Seq::of(list))
}

/// Files whose names rise by their first letters.
fn files(alloc: Global, numbers: &mut Numbers) -> Result<Seq<FileRec>, Fail> {
    let mut list = Vec::new(alloc);
    for letter in [b"a", b"b", b"c"] {
        if numbers.coin() {
            let mut name = Seq::of(letter.to_vec(alloc)?);
            name.append(text(alloc, numbers)?.as_slice())?;
            list.push(FileRec {
                name,
                object: numbers.wide(),
                length: numbers.wide(),
            })?;
        }
    }
    Ok(Seq::of(list))
}

fn pipes(alloc: Global, numbers: &mut Numbers) -> Result<Seq<Pipe>, Fail> {
    let mut list = Vec::new(alloc);
    for place in 0..numbers.few() {
        let number = numbers.rising(place);
        let bytes = text(alloc, numbers)?;
        list.push(Pipe { number, bytes })?;
    }
    Ok(Seq::of(list))
}

fn carried(alloc: Global, numbers: &mut Numbers) -> Result<Seq<u64>, Fail> {
    let mut list = Vec::new(alloc);
    if numbers.carries {
        for _ in 0..numbers.few() {
            list.push(numbers.wide())?;
        }
    }
    Ok(Seq::of(list))
}

fn messages(alloc: Global, numbers: &mut Numbers) -> Result<Seq<Message>, Fail> {
    let mut list = Vec::new(alloc);
    for _ in 0..numbers.few() {
        let bytes = text(alloc, numbers)?;
        let opens = carried(alloc, numbers)?;
        list.push(Message { bytes, opens })?;
    }
    Ok(Seq::of(list))
}

fn pairs(alloc: Global, numbers: &mut Numbers) -> Result<Seq<Pair>, Fail> {
    let mut list = Vec::new(alloc);
    for place in 0..numbers.few() {
        let number = numbers.rising(place);
        let to0 = messages(alloc, numbers)?;
        let to1 = messages(alloc, numbers)?;
        list.push(Pair { number, to0, to1 })?;
    }
    Ok(Seq::of(list))
}

fn kind(numbers: &mut Numbers) -> OpenKind {
    let target = numbers.wide();
    match numbers.byte() % 7 {
        0 => OpenKind::Nothing,
        1 => OpenKind::Outside,
        2 => OpenKind::File { object: target },
        3 => OpenKind::PipeRead { pipe: target },
        4 => OpenKind::PipeWrite { pipe: target },
        5 => OpenKind::PairEnd {
            pair: target,
            end: 0,
        },
        _ => OpenKind::PairEnd {
            pair: target,
            end: 1,
        },
    }
}

fn opens(alloc: Global, numbers: &mut Numbers) -> Result<Seq<Open>, Fail> {
    let mut list = Vec::new(alloc);
    for place in 0..numbers.few() {
        list.push(Open {
            number: numbers.rising(place),
            kind: kind(numbers),
            offset: numbers.wide(),
            flags: numbers.half(),
        })?;
    }
    Ok(Seq::of(list))
}

fn maps(alloc: Global, numbers: &mut Numbers) -> Result<Seq<Mapping>, Fail> {
    let mut list = Vec::new(alloc);
    for place in 0..numbers.few() {
        list.push(Mapping {
            start: numbers.rising(place),
            pages: numbers.wide(),
            prot: numbers.byte(),
            shared: numbers.coin(),
            object: numbers.wide(),
            first: numbers.wide(),
        })?;
    }
    Ok(Seq::of(list))
}

fn fds(alloc: Global, numbers: &mut Numbers) -> Result<Seq<(u32, u64)>, Fail> {
    let mut list = Vec::new(alloc);
    for fd in 0..64u32 {
        if numbers.byte() < 16 {
            list.push((fd, numbers.wide()))?;
        }
    }
    Ok(Seq::of(list))
}

fn state(numbers: &mut Numbers) -> ProcState {
    if numbers.coin() {
        ProcState::Running
    } else {
        ProcState::Ended {
            status: numbers.half(),
        }
    }
}

fn regs(numbers: &mut Numbers) -> [u64; 31] {
    let mut regs = [0; 31];
    for reg in regs.iter_mut() {
        *reg = numbers.wide();
    }
    regs
}

fn process(alloc: Global, numbers: &mut Numbers, pid: u32) -> Result<Proc, Fail> {
    Ok(Proc {
        pid,
        parent: numbers.half(),
        state: state(numbers),
        pc: numbers.wide(),
        regs: regs(numbers),
        brk_base: numbers.wide(),
        brk: numbers.wide(),
        maps: maps(alloc, numbers)?,
        fds: fds(alloc, numbers)?,
    })
}

fn processes(alloc: Global, numbers: &mut Numbers) -> Result<Seq<Proc>, Fail> {
    let mut list = Vec::new(alloc);
    for pid in [1u32, 7, 32_767] {
        if numbers.coin() {
            list.push(process(alloc, numbers, pid)?)?;
        }
    }
    Ok(Seq::of(list))
}

fn next(numbers: &mut Numbers) -> Next {
    Next {
        pid: numbers.half(),
        object: numbers.wide(),
        descr: numbers.wide(),
        pipe: numbers.wide(),
        pair: numbers.wide(),
    }
}

fn output(alloc: Global, numbers: &mut Numbers) -> Result<Out, Fail> {
    let bytes = text(alloc, numbers)?;
    let from = numbers.wide() / 2;
    let mark = from + bytes.as_slice().len() as u64;
    Ok(Out { from, mark, bytes })
}

fn frame(alloc: Global, numbers: &mut Numbers) -> Result<Frame, Fail> {
    Ok(Frame {
        procs: processes(alloc, numbers)?,
        objects: objects(alloc, numbers)?,
        opens: opens(alloc, numbers)?,
        pipes: pipes(alloc, numbers)?,
        pairs: pairs(alloc, numbers)?,
        files: files(alloc, numbers)?,
        next: next(numbers),
        out: output(alloc, numbers)?,
    })
}

fn some_block(numbers: &mut Numbers) -> u64 {
    2 + u64::from(numbers.byte() % 14)
}

/// Pages of an object, in runs and alone.
fn put_pages(
    list: &mut Vec<PagePlace>,
    numbers: &mut Numbers,
    object: &ObjectRec,
) -> Result<(), Fail> {
    let mut page = u64::from(numbers.few());
    let mut block = some_block(numbers);
    for _ in 0..numbers.byte() % 16 {
        if page >= object.pages || page >= 256 || block >= BLOCKS {
            return Ok(());
        }
        list.push(PagePlace {
            object: object.number,
            page,
            block,
        })?;
        if numbers.coin() {
            page += 1;
            block += 1;
        } else {
            page += 1 + u64::from(numbers.few());
            block = some_block(numbers);
        }
    }
    Ok(())
}

fn pages(
    alloc: Global,
    numbers: &mut Numbers,
    objects: &[ObjectRec],
) -> Result<Vec<PagePlace>, Fail> {
    let mut list = Vec::new(alloc);
    for object in objects {
        put_pages(&mut list, numbers, object)?;
    }
    Ok(list)
}

fn written(alloc: Global, frame: &Frame, pages: &[PagePlace]) -> Result<Vec<u8>, Fail> {
    if !is_in_form(frame) {
        return Err(Fail::new("a record can't say all of the frame"));
    }
    Ok(write_meta(alloc, frame, pages)?)
}

/// Whether bytes are read in a format as this frame and these pages.
fn is_read(
    alloc: Global,
    format: u8,
    bytes: &[u8],
    frame: &Frame,
    pages: &[PagePlace],
) -> Result<bool, Fail> {
    let Some(again) = read_meta(alloc, format, bytes, BLOCKS)? else {
        return Ok(false);
    };
    let before = format!(in alloc; "{frame:?} {pages:?}")?;
    let after = format!(in alloc; "{:?} {:?}", &again.frame, again.pages.as_slice())?;
    Ok(before == after)
}

#[test]
fn frames_from_a_seed_are_read_again(rt: HostRuntime) -> Result<(), Fail> {
    let alloc = rt.alloc();
    let mut numbers = Numbers {
        state: 2026,
        carries: true,
    };
    for round in 0..48 {
        let frame = frame(alloc, &mut numbers)?;
        let pages = pages(alloc, &mut numbers, frame.objects.as_slice())?;
        let bytes = written(alloc, &frame, &pages)?;
        assert!(rt;
            is_read(alloc, 2, &bytes, &frame, &pages)?,
            "in round {round}"
        );
    }
    Ok(())
}

/// Messages as format 1 has them: how many, and of each its length and its bytes.
fn put_messages(record: &mut Vec<u8>, messages: &[Message]) -> Result<(), Fail> {
    record.extend_from_slice(&(messages.len() as u64).to_le_bytes())?;
    for message in messages {
        let bytes = message.bytes.as_slice();
        record.extend_from_slice(&(bytes.len() as u64).to_le_bytes())?;
        record.extend_from_slice(bytes)?;
    }
    Ok(())
}

fn put_pairs(record: &mut Vec<u8>, pairs: &[Pair]) -> Result<(), Fail> {
    record.extend_from_slice(&(pairs.len() as u64).to_le_bytes())?;
    for pair in pairs {
        record.extend_from_slice(&pair.number.to_le_bytes())?;
        put_messages(record, pair.to0.as_slice())?;
        put_messages(record, pair.to1.as_slice())?;
    }
    Ok(())
}

/// A record without pairs, with these in their place, which begins after so many bytes.
fn with_pairs(alloc: Global, bare: &[u8], place: usize, pairs: &[Pair]) -> Result<Vec<u8>, Fail> {
    if place > bare.len() || bare.len() - place < 8 {
        return Err(Fail::new("the record is shorter"));
    }
    let mut record = bare[..place].to_vec(alloc)?;
    put_pairs(&mut record, pairs)?;
    record.extend_from_slice(&bare[place + 8..])?;
    Ok(record)
}

/// The record of a frame without pages in format 2, as if it had no pairs; and where they would begin.
fn bare_record(alloc: Global, state: u64) -> Result<(Vec<u8>, usize), Fail> {
    let mut numbers = Numbers {
        state,
        carries: false,
    };
    let mut frame = frame(alloc, &mut numbers)?;
    frame.pairs = Seq::new(alloc);
    let bare = written(alloc, &frame, &[])?;
    frame.opens = Seq::new(alloc);
    frame.procs = Seq::new(alloc);
    let front = written(alloc, &frame, &[])?;
    if front.len() < 32 {
        return Err(Fail::new("the record is shorter"));
    }
    Ok((bare, front.len() - 32))
}

#[test]
fn frames_from_a_seed_are_read_in_the_first_format(rt: HostRuntime) -> Result<(), Fail> {
    let alloc = rt.alloc();
    for state in 1..33u64 {
        let (bare, place) = bare_record(alloc, state)?;
        let mut numbers = Numbers {
            state,
            carries: false,
        };
        let frame = frame(alloc, &mut numbers)?;
        let pages = pages(alloc, &mut numbers, frame.objects.as_slice())?;
        let bare = with_pairs(alloc, &bare, place, frame.pairs.as_slice())?;
        let bytes = in_first_format(alloc, &bare, &pages)?;
        assert!(rt;
            is_read(alloc, 1, &bytes, &frame, &pages)?,
            "from seed {state}"
        );
    }
    Ok(())
}
