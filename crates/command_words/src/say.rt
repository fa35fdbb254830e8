//! Status lines.
ghost use Rattle.command_words.specs.End.{line_of, run_line};
ghost use Rattle.command_words.specs.Put.{HasPut, line_with};
ghost use Rattle.command_words.specs.Say.{HasSaid};

use crate::end::{End, status_of};
use dev_traits::{Failed, Sink, put_all};
use itoa::Buffer;

/// The status where a line couldn't be said.
const SAY_FAULT: u8 = 16;

/// Puts texts, each with its number in decimal behind it, and then the line's last text.
fn put_line<S: Sink>(say: &mut S, fields: &[(&str, u64)], last: &str) -> Result<(), Failed>
    ensures { HasPut (line_with fields.now last.now) result (S.view say.old) (S.view say.new) }
{
    for &(text, number) in fields {
        put_all(say, text.as_bytes())?;
        put_all(say, Buffer::new().format(number).as_bytes())?;
    }
    put_all(say, last.as_bytes())
}

/// Puts the line of a run that ended by itself.
fn put_run<S: Sink>(
    say: &mut S,
    text: &str,
    epoch: u64,
    turns: u64,
    output: u64,
) -> Result<(), Failed>
    ensures { HasPut (run_line text.now epoch turns output) result (S.view say.old)
        (S.view say.new) }
{
    put_line(
        say,
        &[(text, epoch), (" turns ", turns), (" output ", output)],
        "\n",
    )
}

/// Puts the line of an end.
fn put_end<S: Sink>(say: &mut S, end: &End) -> Result<(), Failed>
    ensures { HasPut (line_of end.now) result (S.view say.old) (S.view say.new) }
{
    match *end {
        End::Done {
            epoch,
            turns,
            output,
        } => put_run(say, "done epoch ", epoch, turns, output),
        End::Stuck {
            epoch,
            turns,
            output,
        } => put_run(say, "stuck epoch ", epoch, turns, output),
        End::Spent {
            epoch,
            turns,
            output,
        } => put_run(say, "spent epoch ", epoch, turns, output),
        End::Usage => put_line(say, &[], "usage\n"),
        End::NotBuilt => put_line(say, &[], "not built\n"),
        End::NoCheckpoint => put_line(say, &[], "no checkpoint\n"),
        End::Occupied { epoch } => put_line(say, &[("occupied epoch ", epoch)], "\n"),
        End::Damaged { epoch } => put_line(say, &[("damaged epoch ", epoch)], "\n"),
        End::DiskFault => put_line(say, &[], "disk fault\n"),
        End::SinkFault => put_line(say, &[], "sink fault\n"),
        End::FilesFault => put_line(say, &[], "files fault\n"),
        End::DiskFull { need, free } => {
            put_line(say, &[("disk full need ", need), (" free ", free)], "\n")
        }
        End::NoMemory => put_line(say, &[], "no memory\n"),
        End::DiskShape { blocks } => put_line(say, &[("disk shape ", blocks)], "\n"),
        End::SinkStrange { count, from, last } => put_line(
            say,
            &[("sink strange ", count), (" from ", from), (" to ", last)],
            "\n",
        ),
        End::Worn { epoch } => put_line(say, &[("worn epoch ", epoch)], "\n"),
    }
}

/// Says the line of an end, and answers its number; 16 where the line couldn't be said whole.
pub fn say_line<S: Sink>(end: &End, say: &mut S) -> u8
    ensures { HasSaid end.now result (S.view say.old) (S.view say.new) }
{
    match put_end(say, end) {
        Ok(()) => status_of(end),
        Err(Failed) => SAY_FAULT,
    }
}
