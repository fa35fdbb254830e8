//! Local steps, one or many.

ghost use Rattle.std.specs.Prelude.{◌≡◌, ℕ, ◌<◌, ◌≤◌};
ghost use Rattle.rv64_isa.specs.Instruction.{instruction};
ghost use Rattle.rv64_core.specs.Step.{Lands, Leaves};
ghost use Rattle.rv64_core.specs.Steps.{AreAfterSteps, EndSteps};

use crate::decode_cache::DecodeCache;
use crate::executing::execute;
use crate::local::Local;
use crate::space::Space;
use rv64_isa::Regs;

/// One step of a process on its private memory, where the step is local. What is in the cache changes nothing of it.
#[inline(always)]
pub fn local_step<S: Space>(regs: &mut Regs, space: &mut S, cache: &mut DecodeCache) -> Local
    ensures leaves { Leaves result (instruction (S.cells space.old) regs.old) regs.old
        (S.cells space.old) regs.new (S.cells space.new) }
    ensures lands { Lands S.landed result (instruction (S.cells space.old) regs.old)
        (S.table space.old) (S.table space.new) }
{
    match space.fetch(regs.pc) {
        None => Local::Shared,
        Some(word) => match cache.instruction(regs.pc, word) {
            None => Local::Shared,
            Some(i) => execute(regs, space, i),
        },
    }
}

/// Up to n local steps: how many were made, and why there were no more. `Stepped` says that all n were made; else the
/// answer is that of the next step, which changed nothing. It takes no memory but what a store may.
pub fn local_steps<S: Space>(
    regs: &mut Regs,
    space: &mut S,
    cache: &mut DecodeCache,
    n: u32,
) -> (u32, Local)
    ensures within { result.0 ≤ n }
    ensures after { AreAfterSteps S.landed result.0 regs.old (S.cells space.old)
        (S.table space.old) regs.new (S.cells space.new) (S.table space.new) }
    ensures ends { EndSteps result.1 result.0 n (instruction (S.cells space.new) regs.new) }
{
    for made in 0..n {
        match local_step(regs, space, cache) {
            Local::Stepped => {}
            Local::Shared => return (made, Local::Shared),
            Local::NoMemory => return (made, Local::NoMemory),
        }
    }
    (n, Local::Stepped)
}
