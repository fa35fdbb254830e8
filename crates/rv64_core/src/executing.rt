//! An instruction, straight from its fields to what it leaves of registers and memory.

ghost use Rattle.std.specs.Prelude.{◌≡◌, ℕ, ◌+◌, ◌-◌, ◌%◌, ◌<◌, ◌==◌, nat_lt, not};
ghost use Rattle.rv64_isa.specs.Memory.{Cells};
ghost use Rattle.rv64_isa.specs.Registers.{advanced, reg};
ghost use Rattle.rv64_isa.specs.Table.{Fits};
ghost use Rattle.rv64_isa.specs.Instruction.{address, is_less, branched, combines, combines_with, act_of, effect, IsSize};
ghost use Rattle.rv64_core.specs.Step.{Lands, Leaves, StoresNothing};

use crate::local::Local;
use crate::space::Space;
use lists::NoMemory;
use rv64_isa::{Act, AluOp, Instr, Regs, alu, loaded_value};

/// Does an instruction where that is local: the effect of what it asks for, with nothing built between. Each arm is one
/// call of a small function that is put in its place, so that a number of bytes is known where memory is reached.
#[inline(always)]
#[tactic(auto, unfolding(rv64_isa::specs::Instruction::act_of))]
pub fn execute<S: Space>(regs: &mut Regs, space: &mut S, i: Instr) -> Local
    requires { Fits i }
    ensures leaves { Leaves result (effect (S.cells space.old) regs.old (act_of regs.old i))
        regs.old (S.cells space.old) regs.new (S.cells space.new) }
    ensures lands { Lands S.landed result (effect (S.cells space.old) regs.old (act_of regs.old i))
        (S.table space.old) (S.table space.new) }
{
    match i {
        Instr::Lui { rd, imm } => set(regs, rd, imm),
        Instr::Auipc { rd, imm } => set(regs, rd, regs.pc.wrapping_add(imm)),
        Instr::Jal { rd, imm } => jump(regs, rd, regs.pc.wrapping_add(imm)),
        Instr::Jalr { rd, rs1, imm } => jump(regs, rd, even(address_of(regs, rs1, imm))),
        Instr::Beq { rs1, rs2, imm } => branch(regs, equal(regs, rs1, rs2), imm),
        Instr::Bne { rs1, rs2, imm } => branch(regs, !equal(regs, rs1, rs2), imm),
        Instr::Blt { rs1, rs2, imm } => branch(regs, less(regs, rs1, rs2), imm),
        Instr::Bge { rs1, rs2, imm } => branch(regs, !less(regs, rs1, rs2), imm),
        Instr::Bltu { rs1, rs2, imm } => branch(regs, below(regs, rs1, rs2), imm),
        Instr::Bgeu { rs1, rs2, imm } => branch(regs, !below(regs, rs1, rs2), imm),
        Instr::Lb { rd, rs1, imm } => load(regs, space, rd, rs1, imm, 1, true),
        Instr::Lh { rd, rs1, imm } => load(regs, space, rd, rs1, imm, 2, true),
        Instr::Lw { rd, rs1, imm } => load(regs, space, rd, rs1, imm, 4, true),
        Instr::Lbu { rd, rs1, imm } => load(regs, space, rd, rs1, imm, 1, false),
        Instr::Lhu { rd, rs1, imm } => load(regs, space, rd, rs1, imm, 2, false),
        Instr::Sb { rs1, rs2, imm } => store(regs, space, rs1, rs2, imm, 1),
        Instr::Sh { rs1, rs2, imm } => store(regs, space, rs1, rs2, imm, 2),
        Instr::Sw { rs1, rs2, imm } => store(regs, space, rs1, rs2, imm, 4),
        Instr::Addi { rd, rs1, imm } => with_number(regs, AluOp::Add, rd, rs1, imm),
        Instr::Slti { rd, rs1, imm } => with_number(regs, AluOp::Slt, rd, rs1, imm),
        Instr::Sltiu { rd, rs1, imm } => with_number(regs, AluOp::Sltu, rd, rs1, imm),
        Instr::Xori { rd, rs1, imm } => with_number(regs, AluOp::Xor, rd, rs1, imm),
        Instr::Ori { rd, rs1, imm } => with_number(regs, AluOp::Or, rd, rs1, imm),
        Instr::Andi { rd, rs1, imm } => with_number(regs, AluOp::And, rd, rs1, imm),
        Instr::Add { rd, rs1, rs2 } => with_register(regs, AluOp::Add, rd, rs1, rs2),
        Instr::Sub { rd, rs1, rs2 } => with_register(regs, AluOp::Sub, rd, rs1, rs2),
        Instr::Sll { rd, rs1, rs2 } => with_register(regs, AluOp::Sll, rd, rs1, rs2),
        Instr::Slt { rd, rs1, rs2 } => with_register(regs, AluOp::Slt, rd, rs1, rs2),
        Instr::Sltu { rd, rs1, rs2 } => with_register(regs, AluOp::Sltu, rd, rs1, rs2),
        Instr::Xor { rd, rs1, rs2 } => with_register(regs, AluOp::Xor, rd, rs1, rs2),
        Instr::Srl { rd, rs1, rs2 } => with_register(regs, AluOp::Srl, rd, rs1, rs2),
        Instr::Sra { rd, rs1, rs2 } => with_register(regs, AluOp::Sra, rd, rs1, rs2),
        Instr::Or { rd, rs1, rs2 } => with_register(regs, AluOp::Or, rd, rs1, rs2),
        Instr::And { rd, rs1, rs2 } => with_register(regs, AluOp::And, rd, rs1, rs2),
        Instr::Fence { .. } => set(regs, 0, 0),
        Instr::Ecall => Local::Shared,
        Instr::Ebreak => Local::Shared,
        Instr::Lwu { rd, rs1, imm } => load(regs, space, rd, rs1, imm, 4, false),
        Instr::Ld { rd, rs1, imm } => load(regs, space, rd, rs1, imm, 8, false),
        Instr::Sd { rs1, rs2, imm } => store(regs, space, rs1, rs2, imm, 8),
        Instr::Slli { rd, rs1, shift } => with_shift(regs, AluOp::Sll, rd, rs1, shift),
        Instr::Srli { rd, rs1, shift } => with_shift(regs, AluOp::Srl, rd, rs1, shift),
        Instr::Srai { rd, rs1, shift } => with_shift(regs, AluOp::Sra, rd, rs1, shift),
        Instr::Addiw { rd, rs1, imm } => with_number(regs, AluOp::Addw, rd, rs1, imm),
        Instr::Slliw { rd, rs1, shift } => with_shift(regs, AluOp::Sllw, rd, rs1, shift),
        Instr::Srliw { rd, rs1, shift } => with_shift(regs, AluOp::Srlw, rd, rs1, shift),
        Instr::Sraiw { rd, rs1, shift } => with_shift(regs, AluOp::Sraw, rd, rs1, shift),
        Instr::Addw { rd, rs1, rs2 } => with_register(regs, AluOp::Addw, rd, rs1, rs2),
        Instr::Subw { rd, rs1, rs2 } => with_register(regs, AluOp::Subw, rd, rs1, rs2),
        Instr::Sllw { rd, rs1, rs2 } => with_register(regs, AluOp::Sllw, rd, rs1, rs2),
        Instr::Srlw { rd, rs1, rs2 } => with_register(regs, AluOp::Srlw, rd, rs1, rs2),
        Instr::Sraw { rd, rs1, rs2 } => with_register(regs, AluOp::Sraw, rd, rs1, rs2),
        Instr::Mul { rd, rs1, rs2 } => with_register(regs, AluOp::Mul, rd, rs1, rs2),
        Instr::Mulh { rd, rs1, rs2 } => with_register(regs, AluOp::Mulh, rd, rs1, rs2),
        Instr::Mulhsu { rd, rs1, rs2 } => with_register(regs, AluOp::Mulhsu, rd, rs1, rs2),
        Instr::Mulhu { rd, rs1, rs2 } => with_register(regs, AluOp::Mulhu, rd, rs1, rs2),
        Instr::Div { rd, rs1, rs2 } => with_register(regs, AluOp::Div, rd, rs1, rs2),
        Instr::Divu { rd, rs1, rs2 } => with_register(regs, AluOp::Divu, rd, rs1, rs2),
        Instr::Rem { rd, rs1, rs2 } => with_register(regs, AluOp::Rem, rd, rs1, rs2),
        Instr::Remu { rd, rs1, rs2 } => with_register(regs, AluOp::Remu, rd, rs1, rs2),
        Instr::Mulw { rd, rs1, rs2 } => with_register(regs, AluOp::Mulw, rd, rs1, rs2),
        Instr::Divw { rd, rs1, rs2 } => with_register(regs, AluOp::Divw, rd, rs1, rs2),
        Instr::Divuw { rd, rs1, rs2 } => with_register(regs, AluOp::Divuw, rd, rs1, rs2),
        Instr::Remw { rd, rs1, rs2 } => with_register(regs, AluOp::Remw, rd, rs1, rs2),
        Instr::Remuw { rd, rs1, rs2 } => with_register(regs, AluOp::Remuw, rd, rs1, rs2),
    }
}

/// The step is done: pc is moved to the next instruction.
#[inline(always)]
fn next(regs: &mut Regs) -> Local
    ensures done { result ≡ Local.Stepped }
    ensures advanced { regs.new ≡ advanced regs.old }
{
    regs.advance();
    Local::Stepped
}

#[inline(always)]
fn set(regs: &mut Regs, rd: u8, value: u64) -> Local
    requires { rd < 32 }
    ensures leaves { (cells : Cells) → Leaves result (effect cells regs.old (Act.Sets rd value))
        regs.old cells regs.new cells }
    ensures stores { (cells : Cells) → StoresNothing (effect cells regs.old (Act.Sets rd value)) }
{
    regs.put(rd, value);
    next(regs)
}

#[inline(always)]
fn jump(regs: &mut Regs, rd: u8, target: u64) -> Local
    requires { rd < 32 }
    ensures leaves { (cells : Cells) → Leaves result (effect cells regs.old (Act.Jumps rd target))
        regs.old cells regs.new cells }
    ensures stores { (cells : Cells) → StoresNothing (effect cells regs.old (Act.Jumps rd target)) }
{
    if !target.is_multiple_of(4) {
        return Local::Shared;
    }
    regs.jump(rd, target);
    Local::Stepped
}

#[inline(always)]
fn branch(regs: &mut Regs, taken: bool, imm: u64) -> Local
    ensures leaves { (cells : Cells) → Leaves result (effect cells regs.old (branched regs.old taken
        imm)) regs.old cells regs.new cells }
    ensures stores { (cells : Cells) → StoresNothing (effect cells regs.old (branched regs.old taken
        imm)) }
{
    if taken {
        jump(regs, 0, regs.pc.wrapping_add(imm))
    } else {
        set(regs, 0, 0)
    }
}

#[inline(always)]
fn with_number(regs: &mut Regs, op: AluOp, rd: u8, rs1: u8, number: u64) -> Local
    requires to { rd < 32 }
    requires first { rs1 < 32 }
    ensures leaves { (cells : Cells) → Leaves result (effect cells regs.old (combines_with regs.old
        op rd rs1 number)) regs.old cells regs.new cells }
    ensures stores { (cells : Cells) → StoresNothing (effect cells regs.old (combines_with regs.old
        op rd rs1 number)) }
{
    set(regs, rd, alu(op, regs.get(rs1), number))
}

#[inline(always)]
fn with_shift(regs: &mut Regs, op: AluOp, rd: u8, rs1: u8, shift: u8) -> Local
    requires to { rd < 32 }
    requires first { rs1 < 32 }
    ensures leaves { (cells : Cells) → Leaves result (effect cells regs.old (combines_with regs.old
        op rd rs1 shift)) regs.old cells regs.new cells }
    ensures stores { (cells : Cells) → StoresNothing (effect cells regs.old (combines_with regs.old
        op rd rs1 shift)) }
{
    with_number(regs, op, rd, rs1, u64::from(shift))
}

#[inline(always)]
fn with_register(regs: &mut Regs, op: AluOp, rd: u8, rs1: u8, rs2: u8) -> Local
    requires to { rd < 32 }
    requires first { rs1 < 32 }
    requires second { rs2 < 32 }
    ensures leaves { (cells : Cells) → Leaves result (effect cells regs.old (combines regs.old op rd
        rs1 rs2)) regs.old cells regs.new cells }
    ensures stores { (cells : Cells) → StoresNothing (effect cells regs.old (combines regs.old op rd
        rs1 rs2)) }
{
    set(regs, rd, alu(op, regs.get(rs1), regs.get(rs2)))
}

/// rs1 plus the immediate.
#[inline(always)]
fn address_of(regs: &Regs, rs1: u8, imm: u64) -> u64
    requires { rs1 < 32 }
    ensures { result ≡ address regs.now rs1 imm }
{
    regs.get(rs1).wrapping_add(imm)
}

/// The number with bit 0 cleared.
#[inline(always)]
fn even(n: u64) -> u64
    ensures { result ≡ n - n % 2 }
{
    n - n % 2
}

#[inline(always)]
fn equal(regs: &Regs, rs1: u8, rs2: u8) -> bool
    requires first { rs1 < 32 }
    requires second { rs2 < 32 }
    ensures { result ≡ (reg regs.now rs1 == reg regs.now rs2) }
{
    regs.get(rs1) == regs.get(rs2)
}

#[inline(always)]
fn less(regs: &Regs, rs1: u8, rs2: u8) -> bool
    requires first { rs1 < 32 }
    requires second { rs2 < 32 }
    ensures { result ≡ is_less (reg regs.now rs1) (reg regs.now rs2) }
{
    regs.get(rs1).cast_signed() < regs.get(rs2).cast_signed()
}

#[inline(always)]
fn below(regs: &Regs, rs1: u8, rs2: u8) -> bool
    requires first { rs1 < 32 }
    requires second { rs2 < 32 }
    ensures { result ≡ nat_lt (reg regs.now rs1) (reg regs.now rs2) }
{
    regs.get(rs1) < regs.get(rs2)
}

#[inline(always)]
fn load<S: Space>(
    regs: &mut Regs,
    space: &mut S,
    rd: u8,
    rs1: u8,
    imm: u64,
    n: u8,
    signed: bool,
) -> Local
    requires to { rd < 32 }
    requires first { rs1 < 32 }
    requires size { IsSize n }
    ensures leaves { Leaves result (effect (S.cells space.old) regs.old (Act.Loads rd (address
        regs.old rs1 imm) n signed)) regs.old (S.cells space.old) regs.new (S.cells space.new) }
    ensures lands { Lands S.landed result (effect (S.cells space.old) regs.old (Act.Loads rd
        (address regs.old rs1 imm) n signed)) (S.table space.old) (S.table space.new) }
{
    match space.load(address_of(regs, rs1, imm), n) {
        Some(loaded) => {
            regs.put(rd, loaded_value(n, signed, loaded));
            next(regs)
        }
        None => Local::Shared,
    }
}

#[inline(always)]
fn store<S: Space>(regs: &mut Regs, space: &mut S, rs1: u8, rs2: u8, imm: u64, n: u8) -> Local
    requires first { rs1 < 32 }
    requires second { rs2 < 32 }
    requires size { IsSize n }
    ensures leaves { Leaves result (effect (S.cells space.old) regs.old (Act.Stores (address
        regs.old rs1 imm) n (reg regs.old rs2))) regs.old (S.cells space.old) regs.new (S.cells
        space.new) }
    ensures lands { Lands S.landed result (effect (S.cells space.old) regs.old (Act.Stores (address
        regs.old rs1 imm) n (reg regs.old rs2))) (S.table space.old) (S.table space.new) }
{
    match space.store(address_of(regs, rs1, imm), n, regs.get(rs2)) {
        Ok(true) => next(regs),
        Ok(false) => Local::Shared,
        Err(NoMemory) => Local::NoMemory,
    }
}
