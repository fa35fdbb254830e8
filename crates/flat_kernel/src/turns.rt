//! Turns of the process.
ghost use Rattle.std.specs.Prelude.{◌≡◌, ◌≤◌, ◌<◌, ◌+◌, ◌^◌, false, if◌then◌else◌, [], ◌∷◌, IfOk, OnOk, IsTrue};
ghost use Rattle.run_defs.specs.Legal.{ready};
ghost use Rattle.group_defs.specs.Output.{last_position};
ghost use Rattle.group_defs.specs.Standing.{Standing};
ghost use Rattle.group_defs.specs.Step.{is_local, is_waiting};
ghost use Rattle.run_defs.specs.Turns.{IsTurn, turned};
ghost use Rattle.flat_kernel.specs.Engine.{group_in, state_in, IsRunnable};
ghost use Rattle.flat_kernel.specs.Turning.{HasStepped};

use crate::calls::{is_waiting, other_step};
use crate::engine_group::EngineGroup;
use lists::NoMemory;
use rv64_core::Local;

/// Up to `quantum` local steps: how many were made.
fn local_steps(g: &mut EngineGroup, quantum: u32) -> Result<u32, NoMemory>
    requires running { IsTrue g.old.running }
    requires runnable { IsRunnable (group_in g.old) }
    ensures within { IfOk result (λ n. n ≤ quantum) }
    ensures stepped { IfOk result (HasStepped g.old g.new) }
    ensures stops { IfOk result (λ n. n < quantum
        → is_local (group_in g.new) g.new.fixed.pid ≡ false) }
{
    let (made, why) = rv64_core::local_steps(&mut g.regs, &mut g.memory, &mut g.decoded, quantum);
    match why {
        Local::Stepped => Ok(made),
        Local::Shared => Ok(made),
        Local::NoMemory => Err(NoMemory),
    }
}

/// A turn of the process: up to `quantum` local steps, and one more step where there were fewer.
pub fn turn(g: &mut EngineGroup, quantum: u32) -> Result<u32, NoMemory>
    requires running { IsTrue g.old.running }
    requires runnable { IsRunnable (group_in g.old) }
    requires room { last_position g.old.out + 1048576 < 2 ^ 63 }
    ensures turn { IfOk result (λ n. (standing : Standing)
        → IsTurn quantum (state_in g.old standing) g.old.fixed.pid n) }
    ensures group { IfOk result (λ n. (standing : Standing) → group_in g.new
        ≡ (turned quantum (state_in g.old standing) g.old.fixed.pid n).group) }
    ensures runnable { OnOk result (IsRunnable (group_in g.new)) }
    ensures grown { OnOk result (last_position g.new.out ≤ last_position g.old.out + 1048576) }
    ensures same_marks { OnOk result ((g.new.out.from ≡ g.old.out.from)
        × (g.new.out.mark ≡ g.old.out.mark)) }
    ensures fixed { OnOk result (g.new.fixed ≡ g.old.fixed) }
{
    let n = local_steps(g, quantum)?;
    if n < quantum {
        other_step(g)?;
    }
    Ok(n)
}

/// Whether the process runs and doesn't wait.
pub fn is_ready(g: &EngineGroup) -> bool
    requires { IsRunnable (group_in g.now) }
    ensures ready { (standing : Standing) → ready (state_in g.now standing)
        ≡ (if result then g.now.fixed.pid ∷ [] else []) }
    ensures running { IsTrue result → IsTrue g.now.running }
    ensures acts { IsTrue result → (standing : Standing)
        → is_waiting (state_in g.now standing) g.now.fixed.pid ≡ false }
{
    g.running && !is_waiting(g)
}
