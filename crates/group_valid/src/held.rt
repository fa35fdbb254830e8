ghost use Rattle.std.specs.Prelude.{◌≡◌, ◌↔◌, IsTrue, All};
ghost use Rattle.std.specs.List.{list_any};
ghost use Rattle.group_defs.specs.Held as of_held;
ghost use Rattle.group_defs.specs.Held.{is_at as at};
ghost use Rattle.group_defs.specs.Objects.{maps_object as maps};
ghost use Rattle.group_defs.specs.Valid.{PipeHeld, PairHeld, AllHeld};

use crate::objects::{is_of_file, maps_object};
use crate::stream_ends::{is_pair_end, reads_pipe, writes_pipe};
use descriptors::Open;
use group_defs::{Frame, Proc};
use group_files::FileRec;
use pipes_socks::{Message, Pair, Pipe};

fn is_at(number: u64, p: &Proc) -> bool
    ensures { result ≡ of_held.is_at number p.now }
{
    p.fds.as_slice().iter().any(|d| d.1 == number)
}

fn has_descriptor(procs: &[Proc], number: u64) -> bool
    ensures { result ≡ list_any (at number) procs.now }
{
    procs.iter().any(|p| is_at(number, p))
}

fn carries(number: u64, m: &Message) -> bool
    ensures { result ≡ of_held.carries number m.now }
{
    m.opens.as_slice().iter().any(|n| *n == number)
}

fn queue_carries(number: u64, messages: &[Message]) -> bool
    ensures { result ≡ list_any (of_held.carries number) messages.now }
{
    messages.iter().any(|m| carries(number, m))
}

fn pair_carries(number: u64, p: &Pair) -> bool
    ensures { result ≡ of_held.pair_carries number p.now }
{
    queue_carries(number, p.to0.as_slice()) || queue_carries(number, p.to1.as_slice())
}

fn is_carried(pairs: &[Pair], number: u64) -> bool
    ensures { result ≡ list_any (of_held.pair_carries number) pairs.now }
{
    pairs.iter().any(|p| pair_carries(number, p))
}

#[tactic(auto, unfolding(group_defs::specs::Held::is_held))]
fn is_held(procs: &[Proc], pairs: &[Pair], number: u64) -> bool
    ensures { result ≡ of_held.is_held procs.now pairs.now number }
{
    has_descriptor(procs, number) || is_carried(pairs, number)
}

#[tactic(auto, unfolding(group_defs::specs::Held::is_end_held))]
fn is_end_held(procs: &[Proc], opens: &[Open], number: u64, side: u8) -> bool
    ensures { result ≡ of_held.is_end_held procs.now opens.now number side }
{
    opens.iter().any(|o| is_pair_end(number, side, o.kind) && has_descriptor(procs, o.number))
}

#[tactic(auto, unfolding(group_defs::specs::Held::has_reader))]
fn has_reader(opens: &[Open], number: u64) -> bool
    ensures { result ≡ of_held.has_reader opens.now number }
{
    opens.iter().any(|o| reads_pipe(number, o.kind))
}

#[tactic(auto, unfolding(group_defs::specs::Held::has_writer))]
fn has_writer(opens: &[Open], number: u64) -> bool
    ensures { result ≡ of_held.has_writer opens.now number }
{
    opens.iter().any(|o| writes_pipe(number, o.kind))
}

fn is_mapped(procs: &[Proc], number: u64) -> bool
    ensures { result ≡ list_any (maps number) procs.now }
{
    procs.iter().any(|p| maps_object(number, p))
}

#[tactic(auto, unfolding(group_defs::specs::Held::is_kept))]
fn is_kept(files: &[FileRec], procs: &[Proc], number: u64) -> bool
    ensures { result ≡ of_held.is_kept files.now procs.now number }
{
    is_of_file(files, number) || is_mapped(procs, number)
}

#[tactic(auto, unfolding(group_defs::specs::Valid::PipeHeld))]
fn pipe_held(opens: &[Open], p: &Pipe) -> bool
    ensures { IsTrue result ↔ PipeHeld opens.now p.now }
{
    let reader = has_reader(opens, p.number);
    (reader || has_writer(opens, p.number)) && (reader || p.bytes.as_slice().is_empty())
}

#[tactic(auto, unfolding(group_defs::specs::Valid::PairHeld))]
fn pair_held(procs: &[Proc], opens: &[Open], p: &Pair) -> bool
    ensures { IsTrue result ↔ PairHeld procs.now opens.now p.now }
{
    let end0 = is_end_held(procs, opens, p.number, 0);
    let end1 = is_end_held(procs, opens, p.number, 1);
    (end0 || end1) && (end0 || p.to0.as_slice().is_empty()) && (end1 || p.to1.as_slice().is_empty())
}

fn opens_held(f: &Frame) -> bool
    ensures { IsTrue result ↔
        All (λ o. IsTrue (of_held.is_held f.now.procs f.now.pairs o.number)) f.now.opens }
{
    let procs = f.procs.as_slice();
    let pairs = f.pairs.as_slice();
    f.opens
        .as_slice()
        .iter()
        .all(|o| is_held(procs, pairs, o.number))
}

/// Whether nothing is left that nobody holds.
pub fn all_held(f: &Frame) -> bool
    ensures { IsTrue result ↔ AllHeld f.now }
{
    let procs = f.procs.as_slice();
    let opens = f.opens.as_slice();
    let files = f.files.as_slice();
    opens_held(f)
        && f.objects
            .as_slice()
            .iter()
            .all(|o| is_kept(files, procs, o.number))
        && f.pipes.as_slice().iter().all(|p| pipe_held(opens, p))
        && f.pairs
            .as_slice()
            .iter()
            .all(|p| pair_held(procs, opens, p))
}
