ghost use Rattle.std.specs.Prelude.{◌≡◌, ◌↔◌, ◌<◌, ◌≤◌, IsTrue, All, length};
ghost use Rattle.tables.specs.Rising.{Rise};
ghost use Rattle.pipes_socks.specs.Pairs.{PairFits};
ghost use Rattle.group_defs.specs.Numbers.{MessagesAreBytes};
ghost use Rattle.lists.specs.Bytes.{AreBytes};
ghost use Rattle.group_defs.specs.Streams as of_streams;
ghost use Rattle.group_defs.specs.Streams.{PipeEndsOnce, PairEndsOnce};
ghost use Rattle.group_defs.specs.Valid.{PipesSound, PairsSound};

use crate::numbers::{are_bytes, messages_are_bytes};
use crate::sizes::pair_fits;
use descriptors::{Open, OpenKind};
use pipes_socks::{Pair, Pipe};
use tables::rises;

pub fn reads_pipe(number: u64, kind: OpenKind) -> bool
    ensures { result ≡ of_streams.reads_pipe number kind }
{
    match kind {
        OpenKind::PipeRead { pipe } => pipe == number,
        _ => false,
    }
}

pub fn writes_pipe(number: u64, kind: OpenKind) -> bool
    ensures { result ≡ of_streams.writes_pipe number kind }
{
    match kind {
        OpenKind::PipeWrite { pipe } => pipe == number,
        _ => false,
    }
}

pub fn is_pair_end(number: u64, side: u8, kind: OpenKind) -> bool
    ensures { result ≡ of_streams.is_pair_end number side kind }
{
    match kind {
        OpenKind::PairEnd { pair, end } => pair == number && end == side,
        _ => false,
    }
}

#[tactic(auto, unfolding(group_defs::specs::Streams::readers))]
fn readers(opens: &[Open], number: u64) -> usize
    ensures { result ≡ of_streams.readers opens.now number }
{
    opens.iter().filter(|o| reads_pipe(number, o.kind)).count()
}

#[tactic(auto, unfolding(group_defs::specs::Streams::writers))]
fn writers(opens: &[Open], number: u64) -> usize
    ensures { result ≡ of_streams.writers opens.now number }
{
    opens.iter().filter(|o| writes_pipe(number, o.kind)).count()
}

#[tactic(auto, unfolding(group_defs::specs::Streams::pair_ends))]
fn pair_ends(opens: &[Open], number: u64, side: u8) -> usize
    ensures { result ≡ of_streams.pair_ends opens.now number side }
{
    opens
        .iter()
        .filter(|o| is_pair_end(number, side, o.kind))
        .count()
}

#[tactic(auto, unfolding(group_defs::specs::Streams::PipeEndsOnce))]
fn pipe_valid(opens: &[Open], p: &Pipe) -> bool
    ensures { IsTrue result ↔ PipeEndsOnce opens.now p.now }
{
    readers(opens, p.number) <= 1 && writers(opens, p.number) <= 1
}

#[tactic(auto, unfolding(group_defs::specs::Streams::PairEndsOnce))]
fn pair_valid(opens: &[Open], p: &Pair) -> bool
    ensures { IsTrue result ↔ PairEndsOnce opens.now p.now }
{
    pair_ends(opens, p.number, 0) <= 1 && pair_ends(opens, p.number, 1) <= 1
}

fn pipes_rise(next: u64, pipes: &[Pipe]) -> bool
    ensures { IsTrue result ↔ ((length pipes.now ≤ 256) × Rise (λ p. p.number) pipes.now
        × All (λ p. p.number < next) pipes.now) }
{
    pipes.len() <= 256 && rises(pipes) && pipes.iter().all(|p| p.number < next)
}

/// Whether the pipes are few enough, rise, hold few enough bytes, and have each end at most once.
pub fn pipes_sound(next: u64, opens: &[Open], pipes: &[Pipe]) -> bool
    ensures { IsTrue result ↔ PipesSound next opens.now pipes.now }
{
    pipes_rise(next, pipes)
        && pipes.iter().all(|p| pipe_valid(opens, p))
        && pipes.iter().all(|p| p.bytes.len() <= 65_536)
        && pipes.iter().all(|p| are_bytes(p.bytes.as_slice()))
}

fn pairs_rise(next: u64, pairs: &[Pair]) -> bool
    ensures { IsTrue result ↔ ((length pairs.now ≤ 256) × Rise (λ p. p.number) pairs.now
        × All (λ p. p.number < next) pairs.now) }
{
    pairs.len() <= 256 && rises(pairs) && pairs.iter().all(|p| p.number < next)
}

/// Whether the pairs are few enough, rise, hold few enough messages, and have each end at most
/// once.
pub fn pairs_sound(next: u64, opens: &[Open], pairs: &[Pair]) -> bool
    ensures { IsTrue result ↔ PairsSound next opens.now pairs.now }
{
    pairs_rise(next, pairs)
        && pairs.iter().all(|p| pair_valid(opens, p))
        && pairs.iter().all(|p| pair_fits(p))
        && pairs.iter().all(|p| messages_are_bytes(p))
}
