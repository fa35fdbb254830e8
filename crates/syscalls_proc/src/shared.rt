//! One instruction on all that a process sees.

ghost use Rattle.std.specs.Prelude.{◌≡◌, ℕ, ◌<◌, IfOk, OnErr, OnOk};
ghost use Rattle.rv64_isa.specs.Instruction.{effect, instruction, ActFits, IsSize};
ghost use Rattle.rv64_isa.specs.Memory.{Cells, fetched};
ghost use Rattle.rv64_core.specs.Step.{after_landing, StoresNothing};
ghost use Rattle.syscalls_proc.specs.Accessing.{ActMayWantMemory, IsNoCall, Leaves, MayWantMemory};

use crate::access::Access;
use crate::loading::number_at;
use group_defs::{Fault, OutRefused, UserMem};
use lists::NoMemory;
use rv64_isa::{Act, Regs, act_at, loaded_value};

/// The wait status of a jump to an address that isn't a multiple of 4.
const MISALIGNED: u32 = 7;

/// The wait status of an access at a byte that lacks its mapping or its right.
const NO_RIGHT: u32 = 11;

/// The instruction at pc, on private and shared memory alike: one step, or a trap. A store of several bytes is one step:
/// all of it comes to stand in memory, or nothing.
pub fn shared_access<M: UserMem>(regs: &mut Regs, mem: &mut M) -> Result<Access, NoMemory>
    requires { IsNoCall (instruction (M.cells mem.old) regs.old) }
    ensures leaves { IfOk result (λ access. Leaves access
        (instruction (M.cells mem.old) regs.old) regs.old (M.cells mem.old) regs.new
        (M.cells mem.new)) }
    ensures lands { OnOk result (M.table mem.new
        ≡ after_landing M.landed (instruction (M.cells mem.old) regs.old) (M.table mem.old)) }

    // Memory is wanted by a store alone, where its bytes aren't reserved, and then nothing changes.
    ensures wants { OnErr result (MayWantMemory (M.is_reserved mem.old) regs.old
        (fetched (M.cells mem.old) regs.old.pc)) }
    ensures regs_err { OnErr result (regs.new ≡ regs.old) }
    ensures cells_err { OnErr result (M.cells mem.new ≡ M.cells mem.old) }
    ensures table_err { OnErr result (M.table mem.new ≡ M.table mem.old) }
{
    match mem.fetch(regs.pc) {
        Ok(word) => carry_out(regs, mem, act_at(regs, word)),
        Err(Fault) => Ok(Access::Trap { code: NO_RIGHT }),
    }
}

/// What an instruction asks for.
fn carry_out<M: UserMem>(regs: &mut Regs, mem: &mut M, act: Act) -> Result<Access, NoMemory>
    requires fits { ActFits act }
    requires no_call { IsNoCall (effect (M.cells mem.old) regs.old act) }
    ensures leaves { IfOk result (λ access. Leaves access (effect (M.cells mem.old) regs.old act)
        regs.old (M.cells mem.old) regs.new (M.cells mem.new)) }
    ensures lands { OnOk result (M.table mem.new
        ≡ after_landing M.landed (effect (M.cells mem.old) regs.old act) (M.table mem.old)) }
    ensures wants { OnErr result (ActMayWantMemory (M.is_reserved mem.old) act) }
    ensures regs_err { OnErr result (regs.new ≡ regs.old) }
    ensures cells_err { OnErr result (M.cells mem.new ≡ M.cells mem.old) }
    ensures table_err { OnErr result (M.table mem.new ≡ M.table mem.old) }
{
    match act {
        Act::Sets { rd, value } => Ok(set(regs, rd, value)),
        Act::Jumps { rd, target } => Ok(jump(regs, rd, target)),
        Act::Loads {
            rd,
            address,
            n,
            signed,
        } => Ok(load(regs, mem, rd, address, n, signed)),
        Act::Stores { address, n, value } => store(regs, mem, address, n, value),
        Act::Calls => unreachable!(),
        Act::Traps { code } => Ok(Access::Trap { code }),
    }
}

fn set(regs: &mut Regs, rd: u8, value: u64) -> Access
    requires { rd < 32 }
    ensures leaves { (cells : Cells) → Leaves result (effect cells regs.old (Act.Sets rd value))
        regs.old cells regs.new cells }
    ensures stores { (cells : Cells) → StoresNothing (effect cells regs.old (Act.Sets rd value)) }
{
    regs.put(rd, value);
    regs.advance();
    Access::Stepped
}

fn jump(regs: &mut Regs, rd: u8, target: u64) -> Access
    requires { rd < 32 }
    ensures leaves { (cells : Cells) → Leaves result (effect cells regs.old (Act.Jumps rd target))
        regs.old cells regs.new cells }
    ensures stores { (cells : Cells) → StoresNothing (effect cells regs.old (Act.Jumps rd target)) }
{
    if !target.is_multiple_of(4) {
        return Access::Trap { code: MISALIGNED };
    }
    regs.jump(rd, target);
    Access::Stepped
}

fn load<M: UserMem>(regs: &mut Regs, mem: &M, rd: u8, address: u64, n: u8, signed: bool) -> Access
    requires to { rd < 32 }
    requires size { IsSize n }
    ensures leaves { Leaves result (effect (M.cells mem.now) regs.old (Act.Loads rd address n
        signed)) regs.old (M.cells mem.now) regs.new (M.cells mem.now) }
    ensures stores { StoresNothing (effect (M.cells mem.now) regs.old (Act.Loads rd address n
        signed)) }
{
    match number_at(mem, address, n) {
        Some(loaded) => set(regs, rd, loaded_value(n, signed, loaded)),
        None => Access::Trap { code: NO_RIGHT },
    }
}

fn store<M: UserMem>(
    regs: &mut Regs,
    mem: &mut M,
    address: u64,
    n: u8,
    value: u64,
) -> Result<Access, NoMemory>
    requires { IsSize n }
    ensures leaves { IfOk result (λ access. Leaves access (effect (M.cells mem.old) regs.old
        (Act.Stores address n value)) regs.old (M.cells mem.old) regs.new (M.cells mem.new)) }
    ensures lands { OnOk result (M.table mem.new ≡ after_landing M.landed (effect (M.cells mem.old)
        regs.old (Act.Stores address n value)) (M.table mem.old)) }
    ensures wants { OnErr result (ActMayWantMemory (M.is_reserved mem.old)
        (Act.Stores address n value)) }
    ensures regs_err { OnErr result (regs.new ≡ regs.old) }
    ensures cells_err { OnErr result (M.cells mem.new ≡ M.cells mem.old) }
    ensures table_err { OnErr result (M.table mem.new ≡ M.table mem.old) }
{
    let low_first = value.to_le_bytes();
    match mem.copy_out(address, &low_first[..usize::from(n)]) {
        Ok(()) => {
            regs.advance();
            Ok(Access::Stepped)
        }
        Err(OutRefused::Fault) => Ok(Access::Trap { code: NO_RIGHT }),
        Err(OutRefused::NoMemory) => Err(NoMemory),
    }
}
