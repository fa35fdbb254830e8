ghost use Rattle.std.specs.Prelude.{◌+◌, ◌*◌, ◌^◌, ◌<◌};

use rv64_isa::{decode, encode};
use std::alloc::Global;
use std::process::Abort;
use std::test::Fail;

/// Each word is decoded to the instruction with this text, and that instruction is encoded to the word.
fn check(rt: &impl Abort, alloc: Global, rows: &[(u32, &str)]) -> Result<(), Fail> {
    for (word, text) in rows {
        match decode(*word) {
            Some(i) => {
                let shown = format!(in alloc; "{i:?}")?;
                assert_eq!(rt; shown.as_str(), *text, "at {word:x}");
                assert_eq!(rt; encode(i), *word);
            }
            None => panic!(rt; "no instruction at {word:x}"),
        }
    }
    Ok(())
}

// The words below are those of another assembler (LLVM's) for the fields in each row's text.

#[test]
fn constants_and_jumps(rt: HostRuntime) -> Result<(), Fail> {
    check(
        &rt,
        rt.alloc(),
        &[
            (0xffff_f0b7, "Lui { rd: 1, imm: 18446744073709547520 }"),
            (0x8000_0fb7, "Lui { rd: 31, imm: 18446744071562067968 }"),
            (0x0000_1037, "Lui { rd: 0, imm: 4096 }"),
            (0x7fff_f537, "Lui { rd: 10, imm: 2147479552 }"),
            (0xffff_f097, "Auipc { rd: 1, imm: 18446744073709547520 }"),
            (0x8000_0f97, "Auipc { rd: 31, imm: 18446744071562067968 }"),
            (0x0000_1017, "Auipc { rd: 0, imm: 4096 }"),
            (0x7fff_f517, "Auipc { rd: 10, imm: 2147479552 }"),
            (0xffdf_f0ef, "Jal { rd: 1, imm: 18446744073709551612 }"),
            (0x7fff_f06f, "Jal { rd: 0, imm: 1048574 }"),
            (0x8000_0fef, "Jal { rd: 31, imm: 18446744073708503040 }"),
            (0x0010_02ef, "Jal { rd: 5, imm: 2048 }"),
            (0x0020_056f, "Jal { rd: 10, imm: 2 }"),
            (0x5545_53ef, "Jal { rd: 7, imm: 349524 }"),
            (0x0000_8067, "Jalr { rd: 0, rs1: 1, imm: 0 }"),
            (
                0x800f_80e7,
                "Jalr { rd: 1, rs1: 31, imm: 18446744073709549568 }",
            ),
            (0x7ff1_0fe7, "Jalr { rd: 31, rs1: 2, imm: 2047 }"),
        ],
    )
}

#[test]
fn branches(rt: HostRuntime) -> Result<(), Fail> {
    check(
        &rt,
        rt.alloc(),
        &[
            (
                0x8020_8063,
                "Beq { rs1: 1, rs2: 2, imm: 18446744073709547520 }",
            ),
            (
                0xfff0_0fe3,
                "Beq { rs1: 0, rs2: 31, imm: 18446744073709551614 }",
            ),
            (0x5441_8a63, "Beq { rs1: 3, rs2: 4, imm: 1364 }"),
            (0x7e0f_9fe3, "Bne { rs1: 31, rs2: 0, imm: 4094 }"),
            (0x0093_90e3, "Bne { rs1: 7, rs2: 9, imm: 2048 }"),
            (
                0x8020_9063,
                "Bne { rs1: 1, rs2: 2, imm: 18446744073709547520 }",
            ),
            (
                0xfff0_4fe3,
                "Blt { rs1: 0, rs2: 31, imm: 18446744073709551614 }",
            ),
            (0x00f8_4f63, "Blt { rs1: 16, rs2: 15, imm: 30 }"),
            (0x7e0f_cfe3, "Blt { rs1: 31, rs2: 0, imm: 4094 }"),
            (0x0093_d0e3, "Bge { rs1: 7, rs2: 9, imm: 2048 }"),
            (0x5441_da63, "Bge { rs1: 3, rs2: 4, imm: 1364 }"),
            (
                0xfff0_5fe3,
                "Bge { rs1: 0, rs2: 31, imm: 18446744073709551614 }",
            ),
            (0x00f8_6f63, "Bltu { rs1: 16, rs2: 15, imm: 30 }"),
            (
                0x8020_e063,
                "Bltu { rs1: 1, rs2: 2, imm: 18446744073709547520 }",
            ),
            (0x0093_e0e3, "Bltu { rs1: 7, rs2: 9, imm: 2048 }"),
            (0x5441_fa63, "Bgeu { rs1: 3, rs2: 4, imm: 1364 }"),
            (0x7e0f_ffe3, "Bgeu { rs1: 31, rs2: 0, imm: 4094 }"),
            (0x00f8_7f63, "Bgeu { rs1: 16, rs2: 15, imm: 30 }"),
        ],
    )
}

#[test]
fn loads(rt: HostRuntime) -> Result<(), Fail> {
    check(
        &rt,
        rt.alloc(),
        &[
            (
                0x8000_8f83,
                "Lb { rd: 31, rs1: 1, imm: 18446744073709549568 }",
            ),
            (
                0xffff_0083,
                "Lb { rd: 1, rs1: 30, imm: 18446744073709551615 }",
            ),
            (0x7ff0_9f83, "Lh { rd: 31, rs1: 1, imm: 2047 }"),
            (0x008f_1103, "Lh { rd: 2, rs1: 30, imm: 8 }"),
            (
                0x8000_af83,
                "Lw { rd: 31, rs1: 1, imm: 18446744073709549568 }",
            ),
            (0x064f_2183, "Lw { rd: 3, rs1: 30, imm: 100 }"),
            (0x7ff0_bf83, "Ld { rd: 31, rs1: 1, imm: 2047 }"),
            (0x555f_3203, "Ld { rd: 4, rs1: 30, imm: 1365 }"),
            (
                0x8000_cf83,
                "Lbu { rd: 31, rs1: 1, imm: 18446744073709549568 }",
            ),
            (
                0xaaaf_4283,
                "Lbu { rd: 5, rs1: 30, imm: 18446744073709550250 }",
            ),
            (0x7ff0_df83, "Lhu { rd: 31, rs1: 1, imm: 2047 }"),
            (0x004f_5303, "Lhu { rd: 6, rs1: 30, imm: 4 }"),
            (
                0x8000_ef83,
                "Lwu { rd: 31, rs1: 1, imm: 18446744073709549568 }",
            ),
            (
                0xff8f_6383,
                "Lwu { rd: 7, rs1: 30, imm: 18446744073709551608 }",
            ),
        ],
    )
}

#[test]
fn stores(rt: HostRuntime) -> Result<(), Fail> {
    check(
        &rt,
        rt.alloc(),
        &[
            (
                0x801f_8023,
                "Sb { rs1: 31, rs2: 1, imm: 18446744073709549568 }",
            ),
            (0x7fe1_8fa3, "Sb { rs1: 3, rs2: 30, imm: 2047 }"),
            (
                0xfff0_0fa3,
                "Sb { rs1: 0, rs2: 31, imm: 18446744073709551615 }",
            ),
            (
                0x801f_9023,
                "Sh { rs1: 31, rs2: 1, imm: 18446744073709549568 }",
            ),
            (0x7fe2_1fa3, "Sh { rs1: 4, rs2: 30, imm: 2047 }"),
            (0x01f0_1fa3, "Sh { rs1: 0, rs2: 31, imm: 31 }"),
            (
                0x801f_a023,
                "Sw { rs1: 31, rs2: 1, imm: 18446744073709549568 }",
            ),
            (0x7fe2_afa3, "Sw { rs1: 5, rs2: 30, imm: 2047 }"),
            (0x03f0_2023, "Sw { rs1: 0, rs2: 31, imm: 32 }"),
            (
                0x801f_b023,
                "Sd { rs1: 31, rs2: 1, imm: 18446744073709549568 }",
            ),
            (0x7fe3_3fa3, "Sd { rs1: 6, rs2: 30, imm: 2047 }"),
            (
                0xfff0_3023,
                "Sd { rs1: 0, rs2: 31, imm: 18446744073709551584 }",
            ),
        ],
    )
}

#[test]
fn immediates_and_shifts(rt: HostRuntime) -> Result<(), Fail> {
    check(
        &rt,
        rt.alloc(),
        &[
            (
                0x8000_8f93,
                "Addi { rd: 31, rs1: 1, imm: 18446744073709549568 }",
            ),
            (
                0xffff_8113,
                "Addi { rd: 2, rs1: 31, imm: 18446744073709551615 }",
            ),
            (0x7ff0_af93, "Slti { rd: 31, rs1: 1, imm: 2047 }"),
            (0x001f_a193, "Slti { rd: 3, rs1: 31, imm: 1 }"),
            (
                0x8000_bf93,
                "Sltiu { rd: 31, rs1: 1, imm: 18446744073709549568 }",
            ),
            (
                0xaabf_b213,
                "Sltiu { rd: 4, rs1: 31, imm: 18446744073709550251 }",
            ),
            (0x7ff0_cf93, "Xori { rd: 31, rs1: 1, imm: 2047 }"),
            (0x555f_c293, "Xori { rd: 5, rs1: 31, imm: 1365 }"),
            (
                0x8000_ef93,
                "Ori { rd: 31, rs1: 1, imm: 18446744073709549568 }",
            ),
            (0x020f_e313, "Ori { rd: 6, rs1: 31, imm: 32 }"),
            (0x7ff0_ff93, "Andi { rd: 31, rs1: 1, imm: 2047 }"),
            (0x040f_f393, "Andi { rd: 7, rs1: 31, imm: 64 }"),
            (
                0x8000_8f9b,
                "Addiw { rd: 31, rs1: 1, imm: 18446744073709549568 }",
            ),
            (
                0xff9f_841b,
                "Addiw { rd: 8, rs1: 31, imm: 18446744073709551609 }",
            ),
            (0x03f0_9f93, "Slli { rd: 31, rs1: 1, shift: 63 }"),
            (0x020f_9093, "Slli { rd: 1, rs1: 31, shift: 32 }"),
            (0x0013_9293, "Slli { rd: 5, rs1: 7, shift: 1 }"),
            (0x03f0_df93, "Srli { rd: 31, rs1: 1, shift: 63 }"),
            (0x020f_d093, "Srli { rd: 1, rs1: 31, shift: 32 }"),
            (0x01f4_5313, "Srli { rd: 6, rs1: 8, shift: 31 }"),
            (0x43f0_df93, "Srai { rd: 31, rs1: 1, shift: 63 }"),
            (0x420f_d093, "Srai { rd: 1, rs1: 31, shift: 32 }"),
            (0x4004_d393, "Srai { rd: 7, rs1: 9, shift: 0 }"),
            (0x01f0_9f9b, "Slliw { rd: 31, rs1: 1, shift: 31 }"),
            (0x010f_909b, "Slliw { rd: 1, rs1: 31, shift: 16 }"),
            (0x0013_929b, "Slliw { rd: 5, rs1: 7, shift: 1 }"),
            (0x01f0_df9b, "Srliw { rd: 31, rs1: 1, shift: 31 }"),
            (0x010f_d09b, "Srliw { rd: 1, rs1: 31, shift: 16 }"),
            (0x00f4_531b, "Srliw { rd: 6, rs1: 8, shift: 15 }"),
            (0x41f0_df9b, "Sraiw { rd: 31, rs1: 1, shift: 31 }"),
            (0x410f_d09b, "Sraiw { rd: 1, rs1: 31, shift: 16 }"),
            (0x4004_d39b, "Sraiw { rd: 7, rs1: 9, shift: 0 }"),
        ],
    )
}

#[test]
fn registers(rt: HostRuntime) -> Result<(), Fail> {
    check(
        &rt,
        rt.alloc(),
        &[
            (0x01f1_00b3, "Add { rd: 1, rs1: 2, rs2: 31 }"),
            (0x0018_01b3, "Add { rd: 3, rs1: 16, rs2: 1 }"),
            (0x01f1_10b3, "Sll { rd: 1, rs1: 2, rs2: 31 }"),
            (0x006d_9533, "Sll { rd: 10, rs1: 27, rs2: 6 }"),
            (0x01f1_20b3, "Slt { rd: 1, rs1: 2, rs2: 31 }"),
            (0x00b3_28b3, "Slt { rd: 17, rs1: 6, rs2: 11 }"),
            (0x01f1_30b3, "Sltu { rd: 1, rs1: 2, rs2: 31 }"),
            (0x0108_bc33, "Sltu { rd: 24, rs1: 17, rs2: 16 }"),
            (0x01f1_40b3, "Xor { rd: 1, rs1: 2, rs2: 31 }"),
            (0x015e_4fb3, "Xor { rd: 31, rs1: 28, rs2: 21 }"),
            (0x01f1_50b3, "Srl { rd: 1, rs1: 2, rs2: 31 }"),
            (0x01a3_d333, "Srl { rd: 6, rs1: 7, rs2: 26 }"),
            (0x01f1_60b3, "Or { rd: 1, rs1: 2, rs2: 31 }"),
            (0x01f9_66b3, "Or { rd: 13, rs1: 18, rs2: 31 }"),
            (0x01f1_70b3, "And { rd: 1, rs1: 2, rs2: 31 }"),
            (0x004e_fa33, "And { rd: 20, rs1: 29, rs2: 4 }"),
            (0x41f1_00b3, "Sub { rd: 1, rs1: 2, rs2: 31 }"),
            (0x4094_0db3, "Sub { rd: 27, rs1: 8, rs2: 9 }"),
            (0x41f1_50b3, "Sra { rd: 1, rs1: 2, rs2: 31 }"),
            (0x40e9_d133, "Sra { rd: 2, rs1: 19, rs2: 14 }"),
        ],
    )
}

#[test]
fn products_and_quotients(rt: HostRuntime) -> Result<(), Fail> {
    check(
        &rt,
        rt.alloc(),
        &[
            (0x03f1_00b3, "Mul { rd: 1, rs1: 2, rs2: 31 }"),
            (0x0218_01b3, "Mul { rd: 3, rs1: 16, rs2: 1 }"),
            (0x03f1_10b3, "Mulh { rd: 1, rs1: 2, rs2: 31 }"),
            (0x026d_9533, "Mulh { rd: 10, rs1: 27, rs2: 6 }"),
            (0x03f1_20b3, "Mulhsu { rd: 1, rs1: 2, rs2: 31 }"),
            (0x02b3_28b3, "Mulhsu { rd: 17, rs1: 6, rs2: 11 }"),
            (0x03f1_30b3, "Mulhu { rd: 1, rs1: 2, rs2: 31 }"),
            (0x0308_bc33, "Mulhu { rd: 24, rs1: 17, rs2: 16 }"),
            (0x03f1_40b3, "Div { rd: 1, rs1: 2, rs2: 31 }"),
            (0x035e_4fb3, "Div { rd: 31, rs1: 28, rs2: 21 }"),
            (0x03f1_50b3, "Divu { rd: 1, rs1: 2, rs2: 31 }"),
            (0x03a3_d333, "Divu { rd: 6, rs1: 7, rs2: 26 }"),
            (0x03f1_60b3, "Rem { rd: 1, rs1: 2, rs2: 31 }"),
            (0x03f9_66b3, "Rem { rd: 13, rs1: 18, rs2: 31 }"),
            (0x03f1_70b3, "Remu { rd: 1, rs1: 2, rs2: 31 }"),
            (0x024e_fa33, "Remu { rd: 20, rs1: 29, rs2: 4 }"),
        ],
    )
}

#[test]
fn registers_of_32_bits(rt: HostRuntime) -> Result<(), Fail> {
    check(
        &rt,
        rt.alloc(),
        &[
            (0x01f1_00bb, "Addw { rd: 1, rs1: 2, rs2: 31 }"),
            (0x0018_01bb, "Addw { rd: 3, rs1: 16, rs2: 1 }"),
            (0x01f1_10bb, "Sllw { rd: 1, rs1: 2, rs2: 31 }"),
            (0x006d_953b, "Sllw { rd: 10, rs1: 27, rs2: 6 }"),
            (0x01f1_50bb, "Srlw { rd: 1, rs1: 2, rs2: 31 }"),
            (0x00b3_58bb, "Srlw { rd: 17, rs1: 6, rs2: 11 }"),
            (0x41f1_00bb, "Subw { rd: 1, rs1: 2, rs2: 31 }"),
            (0x4108_8c3b, "Subw { rd: 24, rs1: 17, rs2: 16 }"),
            (0x41f1_50bb, "Sraw { rd: 1, rs1: 2, rs2: 31 }"),
            (0x415e_5fbb, "Sraw { rd: 31, rs1: 28, rs2: 21 }"),
            (0x03f1_00bb, "Mulw { rd: 1, rs1: 2, rs2: 31 }"),
            (0x03a3_833b, "Mulw { rd: 6, rs1: 7, rs2: 26 }"),
            (0x03f1_40bb, "Divw { rd: 1, rs1: 2, rs2: 31 }"),
            (0x03f9_46bb, "Divw { rd: 13, rs1: 18, rs2: 31 }"),
            (0x03f1_50bb, "Divuw { rd: 1, rs1: 2, rs2: 31 }"),
            (0x024e_da3b, "Divuw { rd: 20, rs1: 29, rs2: 4 }"),
            (0x03f1_60bb, "Remw { rd: 1, rs1: 2, rs2: 31 }"),
            (0x0294_6dbb, "Remw { rd: 27, rs1: 8, rs2: 9 }"),
            (0x03f1_70bb, "Remuw { rd: 1, rs1: 2, rs2: 31 }"),
            (0x02e9_f13b, "Remuw { rd: 2, rs1: 19, rs2: 14 }"),
        ],
    )
}

#[test]
fn fences_and_calls(rt: HostRuntime) -> Result<(), Fail> {
    check(
        &rt,
        rt.alloc(),
        &[
            (0x0ff0_000f, "Fence { rd: 0, rs1: 0, order: 255 }"),
            (0x0310_000f, "Fence { rd: 0, rs1: 0, order: 49 }"),
            (0x8330_000f, "Fence { rd: 0, rs1: 0, order: 2099 }"),
            (0x0000_0073, "Ecall"),
            (0x0010_0073, "Ebreak"),
            (0xfff0_8f8f, "Fence { rd: 31, rs1: 1, order: 4095 }"),
        ],
    )
}

#[test]
fn words_of_no_row(rt: HostRuntime) {
    for (word, what) in [
        (0x0000_0000_u32, "all zeros"),
        (0xffff_ffff_u32, "all ones"),
        (0x0000_0011_u32, "a compressed word"),
        (0x0000_1067_u32, "JALR with f3 1"),
        (0x0000_2063_u32, "a branch with f3 2"),
        (0x0000_3063_u32, "a branch with f3 3"),
        (0x0000_7003_u32, "a load with f3 7"),
        (0x0000_4023_u32, "a store with f3 4"),
        (0x0000_7023_u32, "a store with f3 7"),
        (0x0400_1013_u32, "SLLI with bit 26"),
        (0x4000_1013_u32, "SLLI with bit 30"),
        (0x0400_5013_u32, "SRLI with bit 26"),
        (0x4400_5013_u32, "SRAI with bit 26"),
        (0xc000_5013_u32, "SRAI with bit 31"),
        (0x4000_1033_u32, "SLL with f7 0x20"),
        (0x4000_7033_u32, "AND with f7 0x20"),
        (0x0400_0033_u32, "f7 2"),
        (0x4200_0033_u32, "f7 0x21"),
        (0x0000_201b_u32, "f3 2 of 0x1b"),
        (0x0200_101b_u32, "SLLIW with bit 25"),
        (0x0200_501b_u32, "SRLIW with bit 25"),
        (0x4200_501b_u32, "SRAIW with bit 25"),
        (0x4000_101b_u32, "SLLIW with bit 30"),
        (0x0000_203b_u32, "f3 2 of 0x3b"),
        (0x4000_103b_u32, "SLLW with f7 0x20"),
        (0x0200_103b_u32, "a 32-bit product with f3 1"),
        (0x0400_003b_u32, "f7 2 of 0x3b"),
        (0x0000_100f_u32, "FENCE.I"),
        (0x0020_0073_u32, "URET"),
        (0x3020_0073_u32, "MRET"),
        (0x1050_0073_u32, "WFI"),
        (0x0000_00f3_u32, "ECALL with rd 1"),
        (0x0000_1073_u32, "CSRRW"),
        (0x1000_202f_u32, "LR.W"),
        (0x0000_0007_u32, "a load of floats"),
        (0x0000_0053_u32, "FADD.S"),
    ] {
        assert!(rt; decode(word).is_none(), "{what}");
    }
}

/// How many of the words first, first + step and so on are instructions, each encoded to its word.
fn count_encoded(first: u32, step: u32, words: u32) -> u64
    requires { first + step * words < 2 ^ 32 + step }
{
    let mut count: u64 = 0;
    for k in 0..words {
        let word = first + k * step;
        if let Some(i) = decode(word)
            && encode(i) == word
        {
            count = count.wrapping_add(1);
        }
    }
    count
}

#[test]
fn all_words_of_an_opcode(rt: HostRuntime) {
    // Six rows leave 22 bits free, and the three shifts 16.
    assert_eq!(rt;
        count_encoded(0x13, 128, 1 << 25),
        6 * (1 << 22) + 3 * (1 << 16)
    );
}

#[test]
fn a_stride_of_all_words(rt: HostRuntime) {
    // Counted apart, by the masks of the manual's listing.
    assert_eq!(rt; count_encoded(0, 251, 17_111_424), 840_358);
}
