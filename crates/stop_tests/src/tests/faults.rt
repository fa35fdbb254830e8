//! Devices that fail, and stops in the write of a gate: how the command ends, and what is restored afterwards.
use crate::tests::samples::{
    EXIT, LOOP, Left, RESTORE, RUN, Stop, WRITE_HI, Wanted, disk_failing, done, ends_as, program,
    restored, run, run_failing, run_saying, run_stopped, sink, spent, words,
};
use command_words::End;
use dev_traits::mem::Fill;
use run_defs::AckMark;
use std::alloc::Global;
use std::test::Fail;

const DISK_FAULT: Wanted = (End::DiskFault, 9, "disk fault\n");

const SINK_FAULT: Wanted = (End::SinkFault, 10, "sink fault\n");

const NO_CHECKPOINT: Wanted = (End::NoCheckpoint, 6, "no checkpoint\n");

/// The number of the first call.
fn first(alloc: Global) -> Result<Vec<u64>, Fail> {
    Ok(vec![in alloc; 1u64; 1]?)
}

#[test]
fn the_first_call_of_the_disk_fails(rt: HostRuntime) -> Result<(), Fail> {
    let alloc = rt.alloc();
    let left = run_failing(alloc, RUN, program(alloc, LOOP, b"")?, 1)?;
    assert!(rt; ends_as(&left, DISK_FAULT));
    Ok(())
}

#[test]
fn the_first_call_of_the_output_fails(rt: HostRuntime) -> Result<(), Fail> {
    let alloc = rt.alloc();
    let out = sink(alloc, b"")?.failing(first(alloc)?);
    let files = program(alloc, WRITE_HI, b"hi\n")?;
    let left = run(alloc, RUN, files, disk_failing(alloc, 0)?, out)?;
    assert!(rt; ends_as(&left, SINK_FAULT));
    Ok(())
}

/// What a run that exits at once leaves, where the first put of its line fails.
fn run_unsaid(alloc: Global) -> Result<Left, Fail> {
    let words = words(alloc, RUN)?;
    let files = program(alloc, EXIT, b"")?;
    let devices = (disk_failing(alloc, 0)?, sink(alloc, b"")?);
    run_saying(
        alloc,
        &words,
        files,
        devices,
        sink(alloc, b"")?.failing(first(alloc)?),
    )
}

#[test]
fn a_line_that_can_t_be_said_changes_the_status_alone(rt: HostRuntime) -> Result<(), Fail> {
    let alloc = rt.alloc();
    let left = run_unsaid(alloc)?;
    let (end, _, line) = done(1, 1, 0, "");
    assert!(rt; ends_as(&left, (end, 16, line)));
    let next = restored(alloc, RESTORE, left.disk, b"")?;
    assert!(rt; ends_as(&next, done(1, 0, 0, "done epoch 1 turns 0 output 0\n")));
    Ok(())
}

/// Whether a restore of the disk that a stop left ends as wanted and then has this output, where the disk has the stop's
/// byte at a place.
fn restores(
    alloc: Global,
    (stop, before): (&Stop, &[u8]),
    place: usize,
    texts: &[&str],
    wanted: Wanted,
    output: &[u8],
) -> Result<bool, Fail> {
    let image = stop.image.clone()?;
    let is_there = match stop.fill {
        Fill::Byte(byte) => image.get(place) == Some(&byte),
        _ => false,
    };
    let next = restored(alloc, texts, image, before)?;
    Ok(is_there && ends_as(&next, wanted) && next.out.as_slice() == output)
}

/// The stop within a call that leaves this byte in all that is pending.
fn stop_at(stops: &[Stop], call: u64, byte: u8) -> Result<&Stop, Fail> {
    match stops
        .iter()
        .find(|stop| stop.call == call && stop.fill == Fill::Byte(byte))
    {
        Some(stop) => Ok(stop),
        None => Err(Fail::new("there is no such stop")),
    }
}

/// The number of the last call of the second commit, a sync: the write of its gate stands before it, and the first call of
/// a third commit behind it.
fn second_sync(acks: &[AckMark]) -> u64 {
    match acks {
        [_, second, ..] => second.at,
        _ => 0,
    }
}

/// A barrier after each turn.
const EVERY: &[&str] = &["run", "d", "o", "m", "--every", "1"];

#[test]
fn a_stop_in_the_second_gate_write_leaves_one_of_two_barriers(rt: HostRuntime) -> Result<(), Fail> {
    let alloc = rt.alloc();
    let (left, stops) = run_stopped(alloc, EVERY, program(alloc, WRITE_HI, b"hi\n")?, 0)?;
    assert!(rt; ends_as(&left, done(2, 2, 3, "done epoch 2 turns 2 output 3\n")));
    let gate = second_sync(&left.acks).saturating_sub(1);
    let second = done(2, 0, 3, "done epoch 2 turns 0 output 3\n");
    let again = done(2, 1, 3, "done epoch 2 turns 1 output 3\n");
    for (byte, wanted) in [(1u8, second), (0, again), (255, again)] {
        let stop = (stop_at(&stops, gate, byte)?, left.out.as_slice());
        assert!(rt;
            restores(alloc, stop, 4096, RESTORE, wanted, b"hi\n")?,
            "byte {byte}"
        );
    }
    Ok(())
}

/// Three turns of one step, with a barrier after each.
const THREE_STEPS: &[&str] = &[
    "run",
    "--turns=3",
    "--quantum=1",
    "--every=1",
    "d",
    "o",
    "m",
];

const STEP: &[&str] = &["restore", "d", "o", "--turns", "1", "--quantum", "1"];

#[test]
fn a_stop_in_a_closing_write_keeps_the_other_slot(rt: HostRuntime) -> Result<(), Fail> {
    let alloc = rt.alloc();
    let (left, stops) = run_stopped(alloc, THREE_STEPS, program(alloc, LOOP, b"")?, 0)?;
    assert!(rt; ends_as(&left, spent(3, 3, 0, "spent epoch 3 turns 3 output 0\n")));
    let closing = second_sync(&left.acks).saturating_add(1);
    let wanted = spent(3, 1, 0, "spent epoch 3 turns 1 output 0\n");
    for byte in [1u8, 0, 255] {
        let stop = (stop_at(&stops, closing, byte)?, left.out.as_slice());
        assert!(rt; restores(alloc, stop, 0, STEP, wanted, b"")?, "byte {byte}");
    }
    Ok(())
}

/// The last call of a run with one barrier at the end of the program: its fourth sync.
const FOURTH_SYNC: u64 = 9;

#[test]
fn a_failed_last_sync_releases_nothing(rt: HostRuntime) -> Result<(), Fail> {
    let alloc = rt.alloc();
    let files = program(alloc, WRITE_HI, b"hi\n")?;
    let (left, stops) = run_stopped(alloc, RUN, files, FOURTH_SYNC)?;
    assert!(rt; ends_as(&left, DISK_FAULT));
    assert_eq!(rt; left.calls, FOURTH_SYNC);
    assert_eq!(rt; left.out.as_slice(), b"".as_slice());
    let held = done(1, 0, 3, "done epoch 1 turns 0 output 3\n");
    let open = (stop_at(&stops, FOURTH_SYNC, 1)?, b"".as_slice());
    assert!(rt; restores(alloc, open, 0, RESTORE, held, b"hi\n")?);
    let closed = (stop_at(&stops, FOURTH_SYNC, 0)?, b"".as_slice());
    assert!(rt; restores(alloc, closed, 0, RESTORE, NO_CHECKPOINT, b"")?);
    Ok(())
}
