//! Files that another opening holds, and output files that can't be written.
use super::{Names, WRITE_HI, call, lay_files, own_names, remove_files, run};
use crate::run_on_files;
use dev_traits::Word;
use std::fs;
use std::fs::OpenOptions;
use std::test::Fail;

/// Runs the program while another opening of the file of this name holds its lock.
fn run_while_held(rt: &HostRuntime, names: &Names, held: &str) -> Result<u8, Fail> {
    let file = OpenOptions::new().append(true).create(true).open(rt, held)?;
    file.try_lock()?;
    run(rt, names)
}

/// Runs the program with this output file.
fn run_onto(rt: &HostRuntime, names: &Names, out: &str) -> Result<u8, Fail> {
    let disk = names.disk.as_str();
    let mut words = Vec::new(rt.alloc());
    for text in ["run", disk, out, names.manifest.as_str()] {
        words.push(Word::new(rt.alloc(), text)?)?;
    }
    Ok(run_on_files(rt, &words, disk, out)?)
}

/// Goes on with the output file of these names: the status, and the file's bytes.
fn restore(rt: &HostRuntime, names: &Names) -> Result<(u8, Vec<u8>), Fail> {
    let words = ["restore", names.disk.as_str(), names.out.as_str()];
    let status = call(rt, names, &words, ["10", "100"])?;
    Ok((status, fs::read(rt, names.out.as_str())?))
}

/// A disk file that is locked already can't be opened: it stays as it is, and so does the output.
#[test]
fn disk_that_is_held_stays(rt: HostRuntime) -> Result<(), Fail> {
    let names = own_names(&rt, "held-disk")?;
    lay_files(&rt, &names, WRITE_HI)?;
    assert_eq!(rt; run_while_held(&rt, &names, names.disk.as_str())?, 9);
    assert_eq!(rt; fs::read(&rt, names.out.as_str())?.len(), 0);
    assert_eq!(rt; run(&rt, &names)?, 0);
    remove_files(&rt, &names)
}

/// An output file that is locked already gets nothing; the checkpoint goes on once it is free.
#[test]
fn output_that_is_held_stays(rt: HostRuntime) -> Result<(), Fail> {
    let names = own_names(&rt, "held-output")?;
    lay_files(&rt, &names, WRITE_HI)?;
    assert_eq!(rt; run_while_held(&rt, &names, names.out.as_str())?, 10);
    assert_eq!(rt; fs::read(&rt, names.out.as_str())?.len(), 0);
    let (status, output) = restore(&rt, &names)?;
    assert_eq!(rt; status, 0);
    assert_eq!(rt; output.as_slice(), b"hi\n".as_slice());
    remove_files(&rt, &names)
}

/// The statuses of a run with this output file and of a restore with another one, and the bytes of that.
fn run_onto_and_restore(rt: &HostRuntime, out: Option<&str>) -> Result<(u8, u8, Vec<u8>), Fail> {
    let names = own_names(rt, "onto")?;
    lay_files(rt, &names, WRITE_HI)?;
    let run = run_onto(rt, &names, out.unwrap_or(names.disk.as_str()))?;
    let (restored, output) = restore(rt, &names)?;
    remove_files(rt, &names)?;
    Ok((run, restored, output))
}

/// Where nothing can be put into the output file, as into the disk itself, the run ends with a fault, and goes on with
/// another output file.
#[test]
fn output_that_takes_nothing_can_be_replaced(rt: HostRuntime) -> Result<(), Fail> {
    for out in [None, Some("/dev/full"), Some("/"), Some("/none/output")] {
        let (run, restored, output) = run_onto_and_restore(&rt, out)?;
        assert_eq!(rt; (run, restored), (10, 0));
        assert_eq!(rt; output.as_slice(), b"hi\n".as_slice());
    }
    Ok(())
}
