//! A run on one thread.
ghost use Rattle.std.specs.Prelude.{◌≡◌, ◌≤◌, ◌⊎◌, ◌↔◌, [], None};
ghost use Rattle.run_defs.specs.Marks.{turns_in};
ghost use Rattle.aurora_top.specs.Answers.{IsRefusal, IsRunEnding};
ghost use Rattle.aurora_top.specs.Complete.{IsOfRun, IsUnhindered};
ghost use Rattle.aurora_top.specs.Ending.{end_for as end_named, last_epoch};
ghost use Rattle.command_words.specs.Say.{HasSaid};
ghost use Rattle.command_words.specs.Words.{command_of_words};

use crate::ending::{Ending, end_for};
use crate::opening::open;
use crate::starting::begin;
use ckpt_records::one_held;
use command_words::{End, say_line};
use dev_traits::{Disk, Files, Sink, Word};
use lists::Seq;
use run_defs::{AckMark, Mark};
use sls_core::Run;
use solo_engine::run_solo;
use std::alloc::Global;

fn count_turns(trace: &[Mark]) -> u64
    ensures { result ≡ turns_in trace.now }
{
    let turns = trace
        .iter()
        .filter(|mark| matches!(mark, Mark::Turn { .. }))
        .count();
    turns as u64
}

/// The epoch of the last acknowledgement, or the origin's where there is none.
fn last_acked(origin_epoch: u64, acks: &[AckMark]) -> u64
    ensures { result ≡ last_epoch origin_epoch acks.now }
{
    match acks {
        [.., last] => last.epoch,
        [] => origin_epoch,
    }
}

/// The end of a run from an origin of this epoch.
fn end_of<D, O: Sink>(origin_epoch: u64, run: &Run<D, O>) -> End
    ensures { result ≡ end_named run.now.answer (last_epoch origin_epoch run.now.acks)
        (turns_in run.now.trace) (O.view run.now.out).count }
{
    let epoch = last_acked(origin_epoch, run.acks.as_slice());
    let turns = count_turns(run.trace.as_slice());
    end_for(run.answer, epoch, turns, run.out.taken())
}

/// Says the end of a command that was refused.
fn refuse<F: Files, D: Disk, O: Sink, S: Sink>(
    alloc: Global,
    end: End,
    opened_at: u64,
    files: F,
    disk: D,
    out: O,
    say: S,
) -> Ending<F, D, O, S>
    ensures say { HasSaid result.end result.status (S.view say) (S.view result.say) }
    ensures told { result ≡ record {
      status = result.status;
      end = end;
      origin_epoch = 0;
      opened_at
          = opened_at;
      trace = [];
      acks = [];
      files = files;
      disk = disk;
      out = out;
      say =
          result.say;
    } }
{
    let mut say = say;
    let status = say_line(&end, &mut say);
    Ending {
        status,
        end,
        origin_epoch: 0,
        opened_at,
        trace: Seq::new(alloc),
        acks: Seq::new(alloc),
        files,
        disk,
        out,
        say,
    }
}

/// Says the end of a run from an origin of this epoch.
fn finish<F: Files, D: Disk, O: Sink, S: Sink>(
    origin_epoch: u64,
    opened_at: u64,
    run: Run<D, O>,
    files: F,
    say: S,
) -> Ending<F, D, O, S>
    ensures say { HasSaid result.end result.status (S.view say) (S.view result.say) }
    ensures told { result ≡ record {
      status = result.status;
      end = end_named run.answer
          (last_epoch origin_epoch run.acks) (turns_in run.trace) (O.view run.out).count;
      origin_epoch
          = origin_epoch;
      opened_at = opened_at;
      trace = run.trace;
      acks = run.acks;
      files = files;
      disk = run.disk;
      out = run.out;
      say = result.say;
    } }
{
    let mut say = say;
    let end = end_of(origin_epoch, &run);
    let status = say_line(&end, &mut say);
    let Run {
        answer: _,
        trace,
        acks,
        disk,
        out,
    } = run;
    Ending {
        status,
        end,
        origin_epoch,
        opened_at,
        trace,
        acks,
        files,
        disk,
        out,
        say,
    }
}

/// Runs the command that the words spell, or refuses it.
fn run_command<F: Files, D: Disk, O: Sink, S: Sink>(
    alloc: Global,
    words: &[Word],
    files: F,
    disk: D,
    out: O,
    say: S,
) -> Ending<F, D, O, S>
    ensures say { HasSaid result.end result.status (S.view say) (S.view result.say) }
    ensures answer { IsRefusal words.now (D.view disk) (D.view result.disk) (F.view files)
        (F.view result.files) (O.view out) (O.view result.out) result.opened_at result.origin_epoch
        result.trace result.acks result.end
        ⊎ IsRunEnding words.now (D.view disk) (D.view result.disk) (F.view files) (O.view out)
        (O.view result.out) result.opened_at result.origin_epoch result.trace result.acks result.end }
    ensures files { ((F.view result.files).contents ≡ (F.view files).contents)
        × ((F.view files).faults ≤ (F.view result.files).faults) }
    ensures opened { ((D.view disk).moment ≤ result.opened_at)
        × (result.opened_at ≤ (D.view result.disk).moment) }
{
    let mut files = files;
    let mut disk = disk;
    let (command, opened_at) = match open(words, &mut disk) {
        Ok(opened) => opened,
        Err(end) => {
            let opened_at = disk.moment();
            return refuse(alloc, end, opened_at, files, disk, out, say);
        }
    };
    let origin = match begin(alloc, command.beginning, &mut files, &mut disk, &out) {
        Ok(origin) => origin,
        Err(end) => return refuse(alloc, end, opened_at, files, disk, out, say),
    };
    let origin_epoch = origin.epoch;
    let run = run_solo(alloc, origin, command.limits, disk, out);
    finish(origin_epoch, opened_at, run, files, say)
}

/// Runs a group on one thread, by the words of a command (`command_of`): from a manifest's first group on a disk without
/// an open slot, or from the checkpoint that the disk holds.
///
/// `say` gets the line of the end. A command that is refused writes nothing to the disk and puts nothing into `out`.
pub fn aurora_solo<F: Files, D: Disk, O: Sink, S: Sink>(
    alloc: Global,
    words: &[Word],
    files: F,
    disk: D,
    out: O,
    say: S,
) -> Ending<F, D, O, S>
    ensures say { HasSaid result.end result.status (S.view say) (S.view result.say) }
    ensures usage { (result.end ≡ End.Usage) ↔ (command_of_words words.now ≡ None) }
    // Either the command was refused, and nothing was logged, written or put; or it was run.
    ensures answer { IsRefusal words.now (D.view disk) (D.view result.disk) (F.view files)
        (F.view result.files) (O.view out) (O.view result.out) result.opened_at result.origin_epoch
        result.trace result.acks result.end
        ⊎ IsRunEnding words.now (D.view disk) (D.view result.disk) (F.view files) (O.view out)
        (O.view result.out) result.opened_at result.origin_epoch result.trace result.acks result.end }
    // The files hold what they held.
    ensures files { ((F.view result.files).contents ≡ (F.view files).contents)
        × ((F.view files).faults ≤ (F.view result.files).faults) }
    // The moment of the opening, for a refused command too, lies between the call's and the answer's.
    ensures opened { ((D.view disk).moment ≤ result.opened_at)
        × (result.opened_at ≤ (D.view result.disk).moment) }
    // Where the command has what it needs and no device fails, the run ends by itself, or for want of blocks or memory.
    ensures complete { IsUnhindered words.now (D.view disk) (D.view result.disk) (F.view files)
        (F.view result.files) (O.view out) (O.view result.out) → IsOfRun result.end }
{
    // an image holds one group
    one_held();
    run_command(alloc, words, files, disk, out, say)
}
