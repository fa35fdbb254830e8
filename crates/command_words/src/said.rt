//! What the words after a command's first one say: names, and options with their values.
ghost use Rattle.std.specs.Prelude.{◌≡◌, ◌≤◌, ◌∷◌, ℕ, List, Some, None, length};
ghost use Rattle.std.specs.Option.{MatchOption};
ghost use Rattle.command_words.specs.Words.{is_name as names, Piece, followed_by, pieces_of, command_of_words};
ghost use Rattle.command_words.specs.Said.{named_with, set_with, said_with, limits_said, piece_of, SumsUp};

use crate::options::{Setting, joined, setting_of, value_of};
use dev_traits::Word;
use run_defs::Limits;

/// The names so far, in their order.
#[derive(Clone, Copy)]
pub enum Names<'a> {
    Empty,
    Disk(&'a str),
    DiskOut(&'a str, &'a str),
    All(&'a str, &'a str, &'a str),
}

/// The names and the options so far.
#[derive(Clone, Copy)]
pub struct Said<'a> {
    pub names: Names<'a>,
    pub turns: Option<u32>,
    pub quantum: Option<u32>,
    pub every: Option<u32>,
}

/// A name, or an option with its value.
#[derive(Clone, Copy)]
enum Part<'a> {
    Name(&'a str),
    Value(Setting, u32),
}

/// Whether a word names a file.
pub fn is_name(word: &Word) -> bool
    ensures { result ≡ names word.now }
{
    match word.as_str().as_bytes() {
        [] => false,
        [first, ..] => *first != b'-',
    }
}

// One more name, where there are fewer than three.
fn with_name<'a>(names: Names<'a>, name: &'a str) -> Option<Names<'a>>
    ensures { result ≡ named_with names.entry name.entry }
{
    match names {
        Names::Empty => Some(Names::Disk(name)),
        Names::Disk(disk) => Some(Names::DiskOut(disk, name)),
        Names::DiskOut(disk, out) => Some(Names::All(disk, out, name)),
        Names::All(_, _, _) => None,
    }
}

// One more option's value, where that option has none yet.
fn with_value<'a>(said: Said<'a>, setting: Setting, value: u32) -> Option<Said<'a>>
    ensures { result ≡ set_with said.entry setting value }
{
    match (setting, said.turns, said.quantum, said.every) {
        (Setting::Turns, None, _, _) => Some(Said {
            turns: Some(value),
            ..said
        }),
        (Setting::Quantum, _, None, _) => Some(Said {
            quantum: Some(value),
            ..said
        }),
        (Setting::Every, _, _, None) => Some(Said {
            every: Some(value),
            ..said
        }),
        _ => None,
    }
}

fn with_part<'a>(said: Said<'a>, part: Part<'a>) -> Option<Said<'a>>
    ensures { result ≡ said_with said.entry part.entry }
{
    match part {
        Part::Name(name) => match with_name(said.names, name) {
            Some(names) => Some(Said { names, ..said }),
            None => None,
        },
        Part::Value(setting, value) => with_value(said, setting, value),
    }
}

// What the words begin with, and the words behind that.
fn first_part<'a>(word: &'a Word, after: &'a [Word]) -> Option<(Part<'a>, &'a [Word])>
    ensures reads { MatchOption result (pieces_of (word.now ∷ after.now) ≡ None)
        (λ r. pieces_of (word.now ∷ after.now)
        ≡ followed_by (Some (piece_of r.0)) (pieces_of r.1.now)) }
    ensures fewer { MatchOption result (Unit {0}) (λ r. length r.1.now ≤ length after.now) }
{
    if is_name(word) {
        return Some((Part::Name(word.as_str()), after));
    }
    match (setting_of(word.as_str()), after) {
        (Some(setting), [text, behind @ ..]) => {
            let value = value_of(setting, text.as_str())?;
            Some((Part::Value(setting, value), behind))
        }
        _ => {
            let (setting, value) = joined(word.as_str())?;
            Some((Part::Value(setting, value), after))
        }
    }
}

/// What the words say, each option at most once and at most three names.
pub fn said_by(words: &[Word]) -> Option<Said<'_>>
    ensures { MatchOption result ((first : List ℕ) → command_of_words (first ∷ words.now) ≡ None)
        (λ said. (pieces : List Piece) × (pieces_of words.now ≡ Some pieces) × SumsUp said pieces) }
{
    let mut said = Said {
        names: Names::Empty,
        turns: None,
        quantum: None,
        every: None,
    };
    let mut rest = words;
    while let [word, after @ ..] = rest {
        let (part, behind) = first_part(word, after)?;
        said = with_part(said, part)?;
        rest = behind;
    }
    Some(said)
}

/// The limits of a run on one thread.
pub fn limits_of(said: Said<'_>) -> Limits
    ensures { result ≡ limits_said said.entry }
{
    Limits {
        turns: said.turns.unwrap_or(1_000_000),
        quantum: said.quantum.unwrap_or(1_000),
        every: said.every.unwrap_or(100),
        workers: 0,
        flushers: 1,
    }
}
