//! The turns up to a barrier, the barrier, and the plan of its commit.
ghost use Rattle.std.specs.Prelude.{◌≡◌, ◌≤◌, ◌<◌, ◌+◌, ◌*◌, ◌^◌, length, IfOk, IfErr, OnOk, OnErr};
ghost use Rattle.std.specs.Vec.{vec_capacity, vec_len};
ghost use Rattle.group_defs.specs.Output.{last_position};
ghost use Rattle.ckpt_records.specs.Holds.{IsCheckpointed};
ghost use Rattle.std.specs.List.{AllByRecursion};
ghost use Rattle.group_defs.specs.Valid.{GroupIsValid};
ghost use Rattle.flat_kernel.specs.Engine.{group_in, IsRunnable};
ghost use Rattle.ckpt_records.specs.Pages.{ArePagesOf};
ghost use Rattle.page_flusher.specs.Plans.{IsPlanRefused};
ghost use Rattle.solo_engine.specs.Interval.{ComesToBarrier, IsFetched, IsOneReady, IsPlanned, IsUnplanned, StopsTurning};

use crate::log::Log;
use ckpt_records::Page;
use flat_kernel::laws::output_is_the_groups;
use flat_kernel::{EngineGroup, frame_of, is_ready, mark_output, pages_of, turn};
use group_defs::Frame;
use lists::NoMemory;
use page_flusher::{KeptBlocks, Plan, PlanRefused, plan_commit};
use run_defs::{Limits, Mark};
use run_laws::laws::one_trace_on_one_thread;
use sls_core::RunAnswer;
use std::alloc::Global;

/// Turns until a barrier is due: how many were made in the run.
fn turns_to_barrier(
    g: &mut EngineGroup,
    limits: Limits,
    made: u32,
    trace: &mut Vec<Mark>,
) -> Result<u32, NoMemory>
    requires runnable { IsRunnable (group_in g.old) }
    requires ready { IsOneReady (group_in g.old) g.old.fixed.pid }
    requires made { made < limits.turns }
    requires every { (1 ≤ limits.every) × (limits.every ≤ 10000) }
    requires room { last_position g.old.out ≤ 2 ^ 62 + 1048576 * made }
    requires turns { limits.turns ≤ 1000000 }
    ensures comes { IfOk result (λ n. ComesToBarrier limits trace.old.items trace.new.items
        (group_in g.old) (group_in g.new) made n) }
    ensures runnable { OnOk result (IsRunnable (group_in g.new)) }
    ensures err { OnErr result (StopsTurning limits trace.old.items trace.new.items (group_in g.old)
        made) }
{
    one_trace_on_one_thread();
    output_is_the_groups();
    for since in 0..limits.every {
        if made + since >= limits.turns || !is_ready(g) {
            return Ok(made + since);
        }
        let pid = g.fixed.pid;
        trace.push(Mark::Take { worker: 0, pid })?;
        let n = turn(g, limits.quantum)?;
        trace.push(Mark::Turn { worker: 0, pid, n })?;
    }
    Ok(made + limits.every)
}

/// The group of a run, how many turns it has made, and what its disk keeps.
#[derive(Drop)]
pub struct Engine {
    pub group: EngineGroup,
    pub made: u32,
    pub kept: KeptBlocks,
}

/// Turns up to the next barrier, the barrier, and its fetch, with all memory that the log needs for its commit.
pub fn turn_to_fetch(
    alloc: Global,
    limits: Limits,
    engine: &mut Engine,
    log: &mut Log,
) -> Result<(), NoMemory>
    requires checkpointed { IsCheckpointed (group_in engine.old.group) }
    requires ready { IsOneReady (group_in engine.old.group) engine.old.group.fixed.pid }
    requires made { engine.old.made < limits.turns }
    requires every { (1 ≤ limits.every) × (limits.every ≤ 10000) }
    requires room { last_position engine.old.group.out ≤ 2 ^ 62 + 1048576 * engine.old.made }
    requires turns { limits.turns ≤ 1000000 }
    requires epoch { engine.old.kept.epoch < 2 ^ 63 }
    ensures fetched { OnOk result (IsFetched limits engine.old.kept.epoch log.old.trace.items
        log.new.trace.items (group_in engine.old.group) (group_in engine.new.group) engine.old.made
        engine.new.made) }
    ensures kept { engine.new.kept ≡ engine.old.kept }
    ensures acks { log.new.acks.items ≡ log.old.acks.items }
    ensures left { OnOk result (vec_len log.new.trace < vec_capacity log.new.trace) }
    ensures ack_left { OnOk result (vec_len log.new.acks < vec_capacity log.new.acks) }
    ensures err { OnErr result (StopsTurning limits log.old.trace.items log.new.trace.items
        (group_in engine.old.group) engine.old.made) }
{
    let made = turns_to_barrier(&mut engine.group, limits, engine.made, &mut log.trace)?;
    engine.made = made;
    mark_output(alloc, &mut engine.group);
    log.reserve()?;
    log.fetch(engine.kept.epoch + 1);
    Ok(())
}

/// What a commit writes, and what is known after it.
#[derive(Drop)]
pub struct PlannedCommit {
    pub plan: Plan,
    pub next: KeptBlocks,
}

/// The group at its barrier as a commit takes it: its frame, and its pages that aren't all zero.
fn freeze(alloc: Global, g: &EngineGroup) -> Result<(Frame, Vec<Page>), NoMemory>
    requires { GroupIsValid (group_in g.now) }
    ensures frame { IfOk result (λ f. f.0 ≡ (group_in g.now).frame) }
    ensures pages { IfOk result (λ f. ArePagesOf (group_in g.now) f.1.items) }
    ensures whole { IfOk result (λ f. AllByRecursion (λ p. length p.bytes ≡ 4096) f.1.items) }
{
    let frame = frame_of(alloc, g)?;
    let pages = pages_of(alloc, g)?;
    Ok((frame, pages))
}

fn plan_of(
    alloc: Global,
    count: u64,
    engine: &Engine,
    frame: &Frame,
    pages: Vec<Page>,
) -> Result<PlannedCommit, PlanRefused>
    requires least { 16 ≤ count }
    requires most { count ≤ 2 ^ 20 }
    requires checkpointed { IsCheckpointed (group_in engine.now.group) }
    requires epoch { engine.now.kept.epoch < 2 ^ 63 }
    requires frame { frame.now ≡ (group_in engine.now.group).frame }
    requires pages { ArePagesOf (group_in engine.now.group) pages.items }
    requires whole { AllByRecursion (λ p. length p.bytes ≡ 4096) pages.items }
    ensures ready { IfOk result (λ ready. IsPlanned count (group_in engine.now.group)
        engine.now.kept ready) }
    ensures refused { IfErr result (λ refused. IsPlanRefused count engine.now.kept.used
        frame.now pages.items refused) }
{
    let epoch = engine.kept.epoch + 1;
    let used = engine.kept.used.as_slice();
    let plan = match plan_commit(alloc, count, used, epoch, frame, pages) {
        Ok(plan) => plan,
        Err(refused) => return Err(refused),
    };
    match engine.kept.after(alloc, plan.blocks.as_slice()) {
        Ok(next) => Ok(PlannedCommit { plan, next }),
        Err(NoMemory) => Err(PlanRefused::NoMemory),
    }
}

/// Plans the commit of the group at its barrier to a disk of so many blocks.
pub fn planned_commit(
    alloc: Global,
    count: u64,
    engine: &Engine,
) -> Result<PlannedCommit, RunAnswer>
    requires least { 16 ≤ count }
    requires most { count ≤ 2 ^ 20 }
    requires checkpointed { IsCheckpointed (group_in engine.now.group) }
    requires epoch { engine.now.kept.epoch < 2 ^ 63 }
    ensures ready { IfOk result (λ ready. IsPlanned count (group_in engine.now.group)
        engine.now.kept ready) }
    ensures refused { IfErr result (λ answer. IsUnplanned count (group_in engine.now.group)
        engine.now.kept answer) }
{
    let (frame, pages) = match freeze(alloc, &engine.group) {
        Ok(frozen) => frozen,
        Err(NoMemory) => return Err(RunAnswer::NoMemory),
    };
    match plan_of(alloc, count, engine, &frame, pages) {
        Ok(ready) => Ok(ready),
        Err(PlanRefused::Full { need, free }) => Err(RunAnswer::DiskFull { need, free }),
        Err(PlanRefused::NoMemory) => Err(RunAnswer::NoMemory),
    }
}
