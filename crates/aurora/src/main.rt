//! The program: it opens the disk file, the output file and the files of the manifest, makes the call that the
//! command line names, and ends with that call's status.
//!
//! The devices over files and over standard output are the edge that is trusted: they are proved against their traits, and
//! tell no content. `aurora_top` has the calls, and stands below with the traits; nothing stands above.
#![tactic(auto)]

mod again;
mod command_line;
mod count;
mod dir_files;
mod faults;
mod file_disk;
mod file_sink;
mod line_sink;
mod real_files;
mod streams;
#[cfg(test)]
mod tests;

use crate::command_line::command_words;
use crate::dir_files::DirFiles;
use crate::faults::tell;
use crate::file_disk::FileDisk;
use crate::file_sink::FileSink;
use crate::line_sink::LineSink;
use crate::streams::{NOTHING, is_standard_output, take_closed};
use aurora_top::aurora_solo;
use command_words::{End, command_of, say_line};
use dev_traits::Word;
use dev_traits::mem::{MemDisk, MemSink};
use lists::NoMemory;
use std::io;
use std::process::ExitCode;

/// The status where the line of the end could not be said.
const SAY_FAULT: u8 = 16;

/// Makes the call on the files of these names.
fn run_on_files(rt: &HostRuntime, words: &[Word], disk: &str, out: &str) -> Result<u8, NoMemory> {
    let files = DirFiles::new(rt);
    let disk = FileDisk::open(rt, disk)?;
    let out = FileSink::open(rt, out)?;
    let say = LineSink::new(rt);
    Ok(aurora_solo(rt.alloc(), words, files, disk, out, say).status)
}

/// Makes the call with words that spell no command, and so name no files.
fn refuse(rt: &HostRuntime, words: &[Word]) -> Result<u8, NoMemory> {
    let files = DirFiles::new(rt);
    let disk = MemDisk::of(rt.alloc(), Vec::new(rt.alloc()), 0)?;
    let out = MemSink::of(rt.alloc(), Vec::new(rt.alloc()), 0)?;
    let say = LineSink::new(rt);
    Ok(aurora_solo(rt.alloc(), words, files, disk, out, say).status)
}

/// Makes the call that the words name. Where its line would go into a file of the command, none is opened.
fn call(rt: &HostRuntime) -> Result<u8, NoMemory> {
    let words = command_words(rt)?;
    let Some(command) = command_of(&words) else {
        return refuse(rt, &words);
    };
    for name in [command.disk, command.out] {
        if is_standard_output(rt, name) {
            tell(rt, name, io::Error::other("standard output goes there"));
            return Ok(SAY_FAULT);
        }
    }
    run_on_files(rt, &words, command.disk, command.out)
}

/// The status of the command line's call; no file of it is opened under a standard stream's descriptor.
fn status_of_call(rt: &HostRuntime) -> u8 {
    let _streams = match take_closed(rt) {
        Ok(streams) => streams,
        Err(error) => {
            tell(rt, NOTHING, error);
            return SAY_FAULT;
        }
    };
    match call(rt) {
        Ok(status) => status,
        Err(NoMemory) => say_line(&End::NoMemory, &mut LineSink::new(rt)),
    }
}

fn main(rt: HostRuntime) -> ExitCode {
    ExitCode::from(status_of_call(&rt))
}
