//! What a call hands back.
ghost use Rattle.std.specs.Prelude.{◌≡◌};
ghost use Rattle.aurora_top.specs.Ending.{end_for as end_named};

use command_words::End;
use lists::Seq;
use run_defs::{AckMark, Mark};
use sls_core::RunAnswer;

/// What a call hands back.
#[derive(Drop)]
pub struct Ending<F, D, O, S> {
    /// The number of `end`, or 16 where its line couldn't be said, for the process's exit status.
    pub status: u8,
    pub end: End,
    /// The epoch that the run began with; 0 on a new disk, and where the command was refused.
    pub origin_epoch: u64,
    /// The disk's moment when the opening sync answered Ok, else its moment at the end.
    pub opened_at: u64,
    pub trace: Seq<Mark>,
    pub acks: Seq<AckMark>,
    pub files: F,
    pub disk: D,
    pub out: O,
    pub say: S,
}

/// The end of a run that answered so, with the numbers that are told where it ended by itself.
pub fn end_for(answer: RunAnswer, epoch: u64, turns: u64, output: u64) -> End
    ensures { result ≡ end_named answer epoch turns output }
{
    match answer {
        RunAnswer::Done => End::Done {
            epoch,
            turns,
            output,
        },
        RunAnswer::Stuck => End::Stuck {
            epoch,
            turns,
            output,
        },
        RunAnswer::Spent => End::Spent {
            epoch,
            turns,
            output,
        },
        RunAnswer::DiskFault => End::DiskFault,
        RunAnswer::SinkFault => End::SinkFault,
        RunAnswer::DiskFull { need, free } => End::DiskFull { need, free },
        RunAnswer::NoMemory => End::NoMemory,
    }
}
