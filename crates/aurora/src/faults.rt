//! The count of an adapter's faults, and the line that tells the first.
ghost use Rattle.std.specs.Prelude.{◌≡◌, ◌≤◌};
ghost use Rattle.dev_traits.specs.Counts.{Rose};

use crate::count::raised;
use std::io;

/// What stands behind the words of an error of the system.
const NUMBER_OF_ERROR: &str = " (os error ";

/// The words of an error, without the number that the system gives it.
fn without_number(text: &str) -> &str {
    match text.split_once(NUMBER_OF_ERROR) {
        Some((words, _)) => words,
        None => text,
    }
}

fn say_cause(rt: &HostRuntime, name: &str, cause: &str) -> io::Result<()> {
    eprintln!(rt; "aurora: {name}: {cause}")
}

/// Says on standard error which file failed, and the system's error, in one line.
pub fn tell(rt: &HostRuntime, name: &str, error: io::Error) {
    let said = match format!(in rt.alloc(); "{error}") {
        Ok(text) => say_cause(rt, name, without_number(text.as_str())),
        Err(_) => say_cause(rt, name, "no memory for the cause"),
    };
    // Where standard error is closed nobody is left to be told.
    let _ = said;
}

/// How many calls on a file failed. Its first failure is told on standard error.
#[derive(Drop)]
pub struct Faults<'a> {
    rt: &'a HostRuntime,
    pub count: u64,
    is_told: bool,
}

impl<'a> Faults<'a> {
    pub fn new(rt: &'a HostRuntime) -> Faults<'a> {
        Faults {
            rt,
            count: 0,
            is_told: false,
        }
    }

    /// Tells why the file of this name failed, where no failure was told before.
    pub fn tell(&mut self, name: &str, error: io::Error)
        ensures { self.new.count ≡ self.old.count }
    {
        if !self.is_told {
            tell(self.rt, name, error);
            self.is_told = true;
        }
    }

    /// Counts a failure, and tells it as `tell` does.
    pub fn add(&mut self, name: &str, error: io::Error)
        ensures later { self.old.count ≤ self.new.count }
        ensures cause { Rose self.old.count self.new.count }
    {
        self.count = raised(self.count);
        self.tell(name, error);
    }
}
