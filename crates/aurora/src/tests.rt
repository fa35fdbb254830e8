mod odd_files;

use crate::run_on_files;
use dev_traits::Word;
use std::alloc::Global;
use std::test::Fail;
use std::{env, fs};

/// Exits with 0 at once.
const EXIT: &[u32] = &[0x05d0_0893, 0x0000_0513, 0x0000_0073];

/// Writes three bytes that stand behind it, and exits with 7.
const WRITE_HI: &[u32] = &[
    0x0001_05b7,
    0x0245_8593,
    0x0010_0513,
    0x0030_0613,
    0x0400_0893,
    0x0000_0073,
    0x0070_0513,
    0x05d0_0893,
    0x0000_0073,
];

/// The names of the files of one run.
#[derive(Drop)]
struct Names {
    disk: String,
    out: String,
    manifest: String,
    program: String,
}

/// A file of this process's own, in the folder for files that don't last.
fn path(rt: &HostRuntime, run: &str, kind: &str) -> Result<String, Fail> {
    let process = std::process::id(rt.process());
    let folder = env::temp_dir(rt)?;
    match folder.to_str() {
        Some(folder) => Ok(format!(in rt.alloc(); "{folder}/aurora-{process}-{run}-{kind}")?),
        None => Err(Fail::new("the folder's name is no text")),
    }
}

fn own_names(rt: &HostRuntime, run: &str) -> Result<Names, Fail> {
    Ok(Names {
        disk: path(rt, run, "d")?,
        out: path(rt, run, "o")?,
        manifest: path(rt, run, "m")?,
        program: path(rt, run, "p")?,
    })
}

fn image(alloc: Global, words: &[u32]) -> Result<Vec<u8>, Fail> {
    let mut image = Vec::new(alloc);
    for word in words {
        image.extend_from_slice(&word.to_le_bytes())?;
    }
    image.extend_from_slice(b"hi\n")?;
    Ok(image)
}

/// A new disk, the program of these words with a text behind them, and its manifest.
fn lay_files(rt: &HostRuntime, names: &Names, words: &[u32]) -> Result<(), Fail> {
    let alloc = rt.alloc();
    let program = names.program.as_str();
    let manifest = format!(in alloc; "aurora 1\nflat {program}\n")?;
    fs::write(rt, names.disk.as_str(), vec![in alloc; 0u8; 65_536]?)?;
    fs::write(rt, program, image(alloc, words)?)?;
    fs::write(rt, names.manifest.as_str(), manifest)?;
    Ok(())
}

fn run(rt: &HostRuntime, names: &Names) -> Result<u8, Fail> {
    let alloc = rt.alloc();
    let (disk, out) = (names.disk.as_str(), names.out.as_str());
    let mut words = Vec::new(alloc);
    for text in ["run", disk, out, names.manifest.as_str()] {
        words.push(Word::new(alloc, text)?)?;
    }
    Ok(run_on_files(rt, &words, disk, out)?)
}

fn remove_files(rt: &HostRuntime, names: &Names) -> Result<(), Fail> {
    for name in [&names.disk, &names.out, &names.manifest, &names.program] {
        fs::remove_file(rt, name.as_str())?;
    }
    Ok(())
}

/// Runs a program from real files twice: its output is in the file, and the disk has its checkpoint.
#[test]
fn runs_from_files(rt: HostRuntime) -> Result<(), Fail> {
    let names = own_names(&rt, "twice")?;
    lay_files(&rt, &names, WRITE_HI)?;
    assert_eq!(rt; run(&rt, &names)?, 0);
    let output = fs::read(&rt, names.out.as_str())?;
    assert_eq!(rt; output.as_slice(), b"hi\n".as_slice());
    assert_eq!(rt; run(&rt, &names)?, 7);
    remove_files(&rt, &names)
}

/// A program that writes nothing ends with an empty output.
#[test]
fn ends_without_output(rt: HostRuntime) -> Result<(), Fail> {
    let names = own_names(&rt, "once")?;
    lay_files(&rt, &names, EXIT)?;
    assert_eq!(rt; run(&rt, &names)?, 0);
    assert_eq!(rt; fs::read(&rt, names.out.as_str())?.len(), 0);
    remove_files(&rt, &names)
}

/// Writes the letters from `a` to `z`, one at a time, and exits with 0.
const LETTERS: &[u32] = &[
    // AUIPC x11, 0; ADDI x11, x11, 64; ADDI x5, x0, 97; ADDI x6, x0, 123
    0x0000_0597,
    0x0405_8593,
    0x0610_0293,
    0x07b0_0313,
    // SB x5, 0(x11); ADDI x10, x0, 1; ADDI x12, x0, 1; ADDI x17, x0, 64; ECALL
    0x0055_8023,
    0x0010_0513,
    0x0010_0613,
    0x0400_0893,
    0x0000_0073,
    // ADDI x5, x5, 1; BNE x5, x6, -24
    0x0012_8293,
    0xfe62_94e3,
    // ADDI x10, x0, 0; ADDI x17, x0, 93; ECALL
    0x0000_0513,
    0x05d0_0893,
    0x0000_0073,
];

const ALPHABET: &[u8] = b"abcdefghijklmnopqrstuvwxyz";

/// Whether the output so far is the beginning of the alphabet.
fn is_begun(rt: &HostRuntime, names: &Names) -> Result<bool, Fail> {
    let output = fs::read(rt, names.out.as_str())?;
    Ok(ALPHABET.starts_with(&output))
}

/// Makes the call of these words, with so many turns of so many steps: its status.
fn call(rt: &HostRuntime, names: &Names, texts: &[&str], limits: [&str; 2]) -> Result<u8, Fail> {
    let alloc = rt.alloc();
    let mut words = Vec::new(alloc);
    for text in texts {
        words.push(Word::new(alloc, text)?)?;
    }
    let [turns, quantum] = limits;
    for text in ["--turns", turns, "--quantum", quantum] {
        words.push(Word::new(alloc, text)?)?;
    }
    Ok(run_on_files(rt, &words, names.disk.as_str(), names.out.as_str())?)
}

/// How a run in parts ended: its last status, and how many commands went on from a checkpoint.
#[derive(Clone, Copy, Debug, PartialEq, Eq)]
struct Parts {
    status: u8,
    restores: u32,
}

/// Runs the program with so many turns, and goes on with as many while they are spent.
fn run_in_parts(rt: &HostRuntime, names: &Names, limits: [&str; 2]) -> Result<Parts, Fail> {
    let (disk, out) = (names.disk.as_str(), names.out.as_str());
    let run = ["run", disk, out, names.manifest.as_str()];
    let mut status = call(rt, names, &run, limits)?;
    for restores in 0..100 {
        if status != 2 || !is_begun(rt, names)? {
            return Ok(Parts { status, restores });
        }
        status = call(rt, names, &["restore", disk, out], limits)?;
    }
    Err(Fail::new("the program doesn't end"))
}

/// What a run in parts comes to, and what it leaves as output.
fn parts_and_output(
    rt: &HostRuntime,
    run: &str,
    limits: [&str; 2],
) -> Result<(Parts, Vec<u8>), Fail> {
    let names = own_names(rt, run)?;
    lay_files(rt, &names, LETTERS)?;
    let parts = run_in_parts(rt, &names, limits)?;
    let output = fs::read(rt, names.out.as_str())?;
    remove_files(rt, &names)?;
    Ok((parts, output))
}

/// A program of 27 turns, one for each letter and the exit, has the same output with any number of them in a command.
#[test]
fn parts_of_a_run_have_its_output(rt: HostRuntime) -> Result<(), Fail> {
    let cases = [
        ("1000", 0),
        ("1", 26),
        ("2", 13),
        ("3", 8),
        ("13", 2),
        ("26", 1),
        ("27", 0),
    ];
    for (turns, restores) in cases {
        let (parts, output) = parts_and_output(&rt, "letters", [turns, "10"])?;
        assert_eq!(rt;
            parts,
            Parts {
                status: 0,
                restores
            },
            "turns {turns}"
        );
        assert_eq!(rt; output.as_slice(), ALPHABET, "turns {turns}");
    }
    Ok(())
}

/// Turns that end between two letters leave the same output too.
#[test]
fn parts_that_end_within_a_letter_have_its_output(rt: HostRuntime) -> Result<(), Fail> {
    for limits in [["3", "3"], ["2", "5"], ["7", "1"]] {
        let (parts, output) = parts_and_output(&rt, "steps", limits)?;
        assert_eq!(rt; parts.status, 0);
        assert!(rt; parts.restores > 8);
        assert_eq!(rt; output.as_slice(), ALPHABET);
    }
    Ok(())
}
