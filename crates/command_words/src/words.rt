//! The words of a command.
ghost use Rattle.std.specs.Prelude.{◌≡◌};
ghost use Rattle.std.specs.Option.{option_map};
ghost use Rattle.command_words.specs.Words.{command_of_words, named_command, command_with, mode_of_words};
ghost use Rattle.command_words.specs.Said.{names_in, limits_said};

use crate::said::{Names, Said, limits_of, said_by};
use dev_traits::Word;
use run_defs::Limits;

/// Which call a command is for.
#[derive(Clone, Copy, Debug, PartialEq, Eq)]
pub enum Mode {
    /// A run on one thread.
    Solo,
    /// A run with threads.
    Crew,
    /// A call that runs nothing.
    Look,
    /// No call's words.
    Bad,
}

/// What a run begins with.
#[derive(Clone, Copy, Debug, PartialEq, Eq)]
pub enum Beginning<N> {
    /// The first group of the manifest of this name.
    Manifest(N),
    /// The disk's newest checkpoint.
    Checkpoint,
}

/// What a command asks for: a run on one thread. Names are words, or in contracts their bytes.
#[derive(Clone, Copy, Debug, PartialEq, Eq)]
pub struct Command<N> {
    pub beginning: Beginning<N>,
    /// The disk's name.
    pub disk: N,
    /// The output's name.
    pub out: N,
    /// Those of the options, and the usual ones where an option is absent.
    pub limits: Limits,
}

// The command of this first word, where as many names stand behind it as it has.
fn command_for<'a>(first: &str, said: Said<'a>) -> Option<Command<&'a str>>
    ensures { option_map named_command result
        ≡ command_with first.now (names_in said.entry.names) (limits_said said.entry) }
{
    let limits = limits_of(said);
    match said.names {
        Names::All(disk, out, manifest) if first == "run" => Some(Command {
            beginning: Beginning::Manifest(manifest),
            disk,
            out,
            limits,
        }),
        Names::DiskOut(disk, out) if first == "restore" => Some(Command {
            beginning: Beginning::Checkpoint,
            disk,
            out,
            limits,
        }),
        _ => None,
    }
}

/// The command that the words spell.
///
/// The first word is `run`, with the names of a disk, an output and a manifest, or `restore`, with the names of a disk and
/// an output. The options `--turns` (1 to 1,000,000, and 1,000,000 where it is absent), `--quantum` (1 to 100,000; 1,000) and
/// `--every` (1 to 10,000; 100) stand anywhere behind it, each at most once, as two words or as `--turns=5`. A number has 1
/// to 7 decimal digits. Any other word that begins with `-`, and an empty word, spells nothing.
pub fn command_of(words: &[Word]) -> Option<Command<&str>>
    ensures { option_map named_command result ≡ command_of_words words.now }
{
    match words {
        [] => None,
        [first, after @ ..] => match said_by(after) {
            Some(said) => command_for(first.as_str(), said),
            None => None,
        },
    }
}

/// The call that the words are for.
pub fn mode_of(words: &[Word]) -> Mode
    ensures { result ≡ mode_of_words words.now }
{
    match command_of(words) {
        Some(_) => Mode::Solo,
        None => Mode::Bad,
    }
}
