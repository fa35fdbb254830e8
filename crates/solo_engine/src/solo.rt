//! A run on one thread.
ghost use Rattle.std.specs.Prelude.{◌≡◌, ◌⊎◌, ◌≤◌, ◌<◌, ◌^◌, ℕ, false, [], IfOk, OnOk, OnErr, IsTrue};
ghost use Rattle.std.specs.Option.{ForSome};
ghost use Rattle.dev_traits.specs.Disk.{OnlyReading};
ghost use Rattle.group_defs.specs.Group.{Group};
ghost use Rattle.group_defs.specs.Output.{last_position};
ghost use Rattle.ckpt_records.specs.Holds.{IsCheckpointed};
ghost use Rattle.ckpt_records.specs.Parts.{group_of, HasLayers};
ghost use Rattle.sls_core.specs.Answers.{IsSoloRun};
ghost use Rattle.flat_kernel.specs.Engine.{group_in};
ghost use Rattle.solo_engine.specs.Interval.{EndsIn, IsNewestAtStart, IsNoneReady, IsOneReady, IsStart, ReleasesPart, ReleasesRest};
ghost use Rattle.ckpt_records.specs.Newest.{HasNewest, NewestCheckpoint};
ghost use Rattle.page_flusher.specs.KeptBlocks.{DescribesOrigin, Describes, DescribesGates};
ghost use Rattle.ckpt_records.specs.Origin.{HasSize, IsOrigin, IsOriginOf, IsUnworn, IsWithin};
ghost use Rattle.sls_core.specs.Safe.{run_of};
ghost use Rattle.run_defs.specs.Limits.{LimitsFit};

use crate::interval::{Engine, planned_commit, turn_to_fetch};
use crate::log::Log;
use crate::persisting::persist;
use ckpt_records::Origin;
use commit_gate::BadDisk;
use dev_traits::{Disk, Failed, Sink, put_all};
use flat_kernel::laws::output_is_the_groups;
use flat_kernel::{EngineGroup, group_from, is_ready};
use group_defs::Out;
use lists::{NoMemory, Seq};
use page_flusher::KeptBlocks;
use run_defs::Limits;
use run_laws::laws::{marks_follow_marks, one_trace_on_one_thread, output_only_grows};
use sls_core::{Run, RunAnswer};
use std::alloc::Global;

/// Whether no turn is left: no process runs that doesn't wait, or all turns are made.
fn is_over(engine: &Engine, limits: Limits) -> bool
    requires { IsCheckpointed (group_in engine.now.group) }
    ensures over { IsTrue result → IsNoneReady (group_in engine.now.group)
        ⊎ (limits.turns ≤ engine.now.made) }
    ensures ready { result ≡ false → IsOneReady (group_in engine.now.group)
        engine.now.group.fixed.pid }
    ensures made { result ≡ false → engine.now.made < limits.turns }
{
    engine.made >= limits.turns || !is_ready(&engine.group)
}

/// How a run ends that has no turn left.
fn end_of(group: &EngineGroup) -> RunAnswer
    requires { IsCheckpointed (group_in group.now) }
    ensures { EndsIn (group_in group.now) result }
{
    if !group.running {
        RunAnswer::Done
    } else if !is_ready(group) {
        RunAnswer::Stuck
    } else {
        RunAnswer::Spent
    }
}

/// Releases what the sink hasn't got of an output.
fn release<O: Sink>(out: &mut O, from: &Out) -> Result<(), Failed>
    requires first { from.now.from ≤ (O.view out.old).count }
    requires last { (O.view out.old).count ≤ last_position from.now }
    ensures ok { OnOk result (ReleasesRest from.now (O.view out.old) (O.view out.new)) }
    ensures err { OnErr result (ReleasesPart from.now (O.view out.old) (O.view out.new)) }
{
    let released = (out.taken() - from.from) as usize;
    put_all(out, &from.bytes.as_slice()[released..])
}

/// The same of a group's output.
fn release_rest<O: Sink>(out: &mut O, group: &EngineGroup) -> Result<(), Failed>
    requires first { (group_in group.now).frame.out.from ≤ (O.view out.old).count }
    requires last { (O.view out.old).count ≤ last_position (group_in group.now).frame.out }
    ensures ok { OnOk result (ReleasesRest (group_in group.now).frame.out (O.view out.old)
        (O.view out.new)) }
    ensures err { OnErr result (ReleasesPart (group_in group.now).frame.out (O.view out.old)
        (O.view out.new)) }
{
    output_is_the_groups();
    release(out, &group.out)
}

// What is known of each run with such limits, for contracts alone.
fn start_laws(_limits: Limits)
    requires { LimitsFit _limits }
    ensures { (start : Group) (origin : ℕ) → IsCheckpointed start → origin ≤ 2 ^ 62
        → last_position start.frame.out ≤ 2 ^ 62 → IsStart _limits start origin }
{
    marks_follow_marks();
    output_only_grows();
    one_trace_on_one_thread();
}

/// Intervals until the run is over, each with its barrier, its commit and its release.
fn run_to_end<D: Disk, O: Sink>(
    alloc: Global,
    limits: Limits,
    engine: Engine,
    disk: D,
    out: &mut O,
    log: &mut Log,
) -> (D, RunAnswer)
    requires sized { HasSize (D.view disk).blocks }
    requires limits { LimitsFit limits }
    requires only { OnlyReading (D.view disk) }
    requires checkpointed { IsCheckpointed (group_in engine.group) }
    requires first { engine.made ≡ 0 }
    requires kept { (kept : NewestCheckpoint) × Describes engine.kept kept
        × IsNewestAtStart (group_in engine.group) kept
        × ForSome (D.view disk).reading (λ r. HasNewest r kept) }
    requires gates { ForSome (D.view disk).reading (λ r. DescribesGates engine.kept r) }
    requires epoch { engine.kept.epoch ≤ 2 ^ 62 }
    requires position { last_position (group_in engine.group).frame.out ≤ 2 ^ 62 }
    requires least { (group_in engine.group).frame.out.from ≤ (O.view out.old).count }
    requires most { (O.view out.old).count ≤ last_position (group_in engine.group).frame.out }
    requires unlogged { (log.old.trace.items ≡ []) × (log.old.acks.items ≡ []) }
    ensures { IsSoloRun (run_of limits (group_in engine.group) engine.kept.epoch
        log.new.trace.items) (D.view disk).moment log.new.acks.items (D.view disk) (D.view result.0)
        (O.view out.old) (O.view out.new) result.1 }
{
    start_laws(limits);
    let mut engine = engine;
    let mut disk = disk;
    if release_rest(out, &engine.group).is_err() {
        return (disk, RunAnswer::SinkFault);
    }
    while !is_over(&engine, limits) {
        if turn_to_fetch(alloc, limits, &mut engine, log).is_err() {
            return (disk, RunAnswer::NoMemory);
        }
        let ready = match planned_commit(alloc, disk.blocks(), &engine) {
            Ok(ready) => ready,
            Err(answer) => return (disk, answer),
        };
        disk = match persist(disk, &engine.kept, &ready, log) {
            Ok(disk) => disk,
            Err(BadDisk { disk }) => return (disk, RunAnswer::DiskFault),
        };
        engine.kept = ready.next;
        if release_rest(out, &engine.group).is_err() {
            return (disk, RunAnswer::SinkFault);
        }
    }
    (disk, end_of(&engine.group))
}

/// The group of an origin, and what its disk keeps.
fn engine_of(alloc: Global, origin: Origin) -> Result<Engine, NoMemory>
    requires layers { HasLayers origin.parts }
    requires group { IsCheckpointed (group_of origin.parts) }
    ensures group { IfOk result (λ e. group_in e.group ≡ group_of origin.parts) }
    ensures made { IfOk result (λ e. e.made ≡ 0) }
    ensures kept { IfOk result (λ e. DescribesOrigin origin e.kept) }
{
    let Origin {
        epoch,
        parts,
        placement,
        gates,
    } = origin;
    let kept = KeptBlocks::of(alloc, epoch, &placement, gates)?;
    let group = group_from(alloc, parts)?;
    Ok(Engine {
        group,
        made: 0,
        kept,
    })
}

fn ended<D, O>(answer: RunAnswer, log: Log, disk: D, out: O) -> Run<D, O>
    ensures { result ≡ record {
      answer = answer;
      trace = log.trace.items;
      acks = log.acks.items;
      disk = disk;
      out = out;
    } }
{
    let Log { trace, acks } = log;
    Run {
        answer,
        trace: Seq::of(trace),
        acks: Seq::of(acks),
        disk,
        out,
    }
}

/// Runs a group on one thread, with as many barriers as are due: each is committed to the disk, acknowledged, and then
/// followed by the release of its output. A run from a checkpoint begins with the release of what that covers.
///
/// All memory of a commit is taken before the commit begins. After a fault or want of memory the trace says how far the
/// run came; what was acknowledged stands. Where no device's count of faults rises, the run ends by itself, or for want of
/// blocks or memory.
pub fn run_solo<D: Disk, O: Sink>(
    alloc: Global,
    origin: Origin,
    limits: Limits,
    disk: D,
    out: O,
) -> Run<D, O>
    requires size { HasSize (D.view disk).blocks }
    requires limits { LimitsFit limits }
    requires only { OnlyReading (D.view disk) }
    requires origin { IsOrigin (D.view disk).blocks origin }
    requires held { ForSome (D.view disk).reading (λ r. IsOriginOf r origin) }
    requires unworn { IsUnworn origin.epoch origin.parts.frame }
    requires count { IsWithin (O.view out) origin.parts.frame.out }
    ensures run { IsSoloRun (run_of limits (group_of origin.parts) origin.epoch result.trace)
        (D.view disk).moment result.acks (D.view disk) (D.view result.disk) (O.view out)
        (O.view result.out) result.answer }
{
    start_laws(limits);
    let mut out = out;
    let mut log = Log::new(alloc);
    let engine = match engine_of(alloc, origin) {
        Ok(engine) => engine,
        Err(NoMemory) => return ended(RunAnswer::NoMemory, log, disk, out),
    };
    let (disk, answer) = run_to_end(alloc, limits, engine, disk, &mut out, &mut log);
    ended(answer, log, disk, out)
}
