use command_words::{Beginning, Command, command_of};
use dev_traits::Word;
use run_defs::Limits;
use std::alloc::Global;
use std::test::Fail;

fn words(alloc: Global, texts: &[&str]) -> Result<Vec<Word>, Fail> {
    let mut list = Vec::new(alloc);
    for text in texts {
        list.push(Word::new(alloc, text)?)?;
    }
    Ok(list)
}

fn limits(turns: u32, quantum: u32, every: u32) -> Limits {
    Limits {
        turns,
        quantum,
        every,
        workers: 0,
        flushers: 1,
    }
}

#[test]
fn names_stand_in_their_order(rt: HostRuntime) -> Result<(), Fail> {
    let run = words(rt.alloc(), &["run", "d", "o", "m"])?;
    let command = Command {
        beginning: Beginning::Manifest("m"),
        disk: "d",
        out: "o",
        limits: limits(1_000_000, 1_000, 100),
    };
    assert_eq!(rt; command_of(&run), Some(command));
    let restore = words(rt.alloc(), &["restore", "run", "--every", "7", "o"])?;
    let command = Command {
        beginning: Beginning::Checkpoint,
        disk: "run",
        out: "o",
        limits: limits(1_000_000, 1_000, 7),
    };
    assert_eq!(rt; command_of(&restore), Some(command));
    Ok(())
}

/// Words, and the turns, the quantum and the turns between two barriers that they ask for.
const SPELLED: [(&[&str], u32, u32, u32); 22] = [
    (&["run", "--turns=5", "d", "o", "m"], 5, 1_000, 100),
    (&["run", "d", "--turns=5", "o", "m"], 5, 1_000, 100),
    (&["run", "d", "o", "--turns=5", "m"], 5, 1_000, 100),
    (&["run", "d", "o", "m", "--turns=5"], 5, 1_000, 100),
    (&["run", "--turns", "5", "d", "o", "m"], 5, 1_000, 100),
    (&["run", "d", "--turns", "5", "o", "m"], 5, 1_000, 100),
    (&["run", "d", "o", "--turns", "5", "m"], 5, 1_000, 100),
    (&["run", "d", "o", "m", "--turns", "5"], 5, 1_000, 100),
    (&["restore", "--quantum=5", "d", "o"], 1_000_000, 5, 100),
    (&["restore", "d", "--quantum=5", "o"], 1_000_000, 5, 100),
    (&["restore", "d", "o", "--quantum=5"], 1_000_000, 5, 100),
    (&["restore", "--quantum", "5", "d", "o"], 1_000_000, 5, 100),
    (&["restore", "d", "--quantum", "5", "o"], 1_000_000, 5, 100),
    (&["restore", "d", "o", "--quantum", "5"], 1_000_000, 5, 100),
    (&["restore", "--every=5", "d", "o"], 1_000_000, 1_000, 5),
    (&["restore", "d", "--every=5", "o"], 1_000_000, 1_000, 5),
    (&["restore", "d", "o", "--every=5"], 1_000_000, 1_000, 5),
    (&["restore", "--every", "5", "d", "o"], 1_000_000, 1_000, 5),
    (&["restore", "d", "--every", "5", "o"], 1_000_000, 1_000, 5),
    (&["restore", "d", "o", "--every", "5"], 1_000_000, 1_000, 5),
    (
        &[
            "run",
            "--turns",
            "1",
            "d",
            "--quantum=0000001",
            "--every=1",
            "o",
            "m",
        ],
        1,
        1,
        1,
    ),
    (
        &[
            "run",
            "--every",
            "10000",
            "d",
            "o",
            "m",
            "--turns=1000000",
            "--quantum",
            "100000",
        ],
        1_000_000,
        100_000,
        10_000,
    ),
];

#[test]
fn options_stand_anywhere(rt: HostRuntime) -> Result<(), Fail> {
    for (texts, turns, quantum, every) in SPELLED {
        let words = words(rt.alloc(), texts)?;
        let asked = command_of(&words).map(|command| command.limits);
        assert_eq!(rt; asked, Some(limits(turns, quantum, every)));
    }
    Ok(())
}

/// Numbers past their edges, options that stand twice, and other words of no command.
const REFUSED: [&[&str]; 30] = [
    &["run", "d", "o", "m", "--turns", "0"],
    &["run", "d", "o", "m", "--turns=1000001"],
    &["run", "d", "o", "m", "--quantum=0"],
    &["run", "d", "o", "m", "--quantum", "100001"],
    &["run", "d", "o", "m", "--every", "0"],
    &["run", "d", "o", "m", "--every=10001"],
    &["run", "d", "o", "m", "--turns=00000001"],
    &["run", "d", "o", "m", "--turns="],
    &["run", "d", "o", "m", "--turns", "-1"],
    &["run", "d", "o", "m", "--turns", "+1"],
    &["run", "d", "o", "m", "--turns", "1x"],
    &["run", "d", "o", "m", "--turns=5", "--turns=6"],
    &["run", "--turns", "5", "d", "o", "m", "--turns=5"],
    &["restore", "--quantum", "5", "--quantum", "5", "d", "o"],
    &["restore", "d", "--every=5", "o", "--every", "6"],
    &["restore", "d", "--turns", "--turns", "o"],
    &[],
    &["run"],
    &["run", "d", "o"],
    &["run", "d", "o", "m", "n"],
    &["run", "d", "", "m"],
    &["run", "d", "-o", "m"],
    &["run", "d", "o", "m", "--help"],
    &["run", "d", "o", "m", "--workers", "1"],
    &["run", "d", "o", "--turns"],
    &["--turns=5", "run", "d", "o", "m"],
    &["restore", "d"],
    &["restore", "d", "o", "m"],
    &["show", "d", "--workers", "1"],
    &["demo", "d", "o", "8"],
];

#[test]
fn other_words_are_refused(rt: HostRuntime) -> Result<(), Fail> {
    for texts in REFUSED {
        let words = words(rt.alloc(), texts)?;
        assert_eq!(rt; command_of(&words), None);
    }
    Ok(())
}
