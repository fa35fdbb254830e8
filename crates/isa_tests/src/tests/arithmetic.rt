use rv64_isa::{AluOp, alu};
use std::process::Abort;

/// Each operation on these two numbers gives the last one.
fn check(rt: &impl Abort, rows: &[(AluOp, u64, u64, u64)]) {
    for (op, a, b, wanted) in rows {
        assert_eq!(rt; alu(*op, *a, *b), *wanted, "{op:?} of {a:x} and {b:x}");
    }
}

#[test]
fn sums_and_bits(rt: HostRuntime) {
    check(
        &rt,
        &[
            (AluOp::Add, u64::MAX, 1, 0),
            (AluOp::Add, 0x7fff_ffff_ffff_ffff, 1, 0x8000_0000_0000_0000),
            (AluOp::Sub, 0, 1, u64::MAX),
            (AluOp::Sub, 5, 7, 0xffff_ffff_ffff_fffe),
            (AluOp::Slt, u64::MAX, 0, 1),
            (AluOp::Slt, 0, u64::MAX, 0),
            (AluOp::Slt, 0x8000_0000_0000_0000, 0x7fff_ffff_ffff_ffff, 1),
            (AluOp::Slt, 7, 7, 0),
            (AluOp::Sltu, 0, u64::MAX, 1),
            (AluOp::Sltu, u64::MAX, 0, 0),
            (AluOp::Sltu, 7, 7, 0),
            (AluOp::Xor, 0xff00, 4080, 0xf0f0),
            (AluOp::Or, 0xff00, 4080, 0xfff0),
            (AluOp::And, 0xff00, 4080, 3840),
            (AluOp::Addw, 0x7fff_ffff, 1, 0xffff_ffff_8000_0000),
            (AluOp::Addw, 0xffff_ffff, 1, 0),
            (AluOp::Addw, 0x1_2345_6789, 0x1_0000_0000, 0x2345_6789),
            (AluOp::Subw, 0, 1, u64::MAX),
            (AluOp::Subw, 0x8000_0000, 1, 0x7fff_ffff),
        ],
    );
}

#[test]
fn shifts(rt: HostRuntime) {
    check(
        &rt,
        &[
            (AluOp::Sll, 1, 63, 0x8000_0000_0000_0000),
            (AluOp::Sll, 1, 64, 1),
            (AluOp::Sll, 3, 63, 0x8000_0000_0000_0000),
            (AluOp::Sll, 1, u64::MAX, 0x8000_0000_0000_0000),
            (AluOp::Srl, 0x8000_0000_0000_0000, 63, 1),
            (AluOp::Srl, u64::MAX, 64, u64::MAX),
            (AluOp::Srl, u64::MAX, 1, 0x7fff_ffff_ffff_ffff),
            (AluOp::Sra, 0x8000_0000_0000_0000, 63, u64::MAX),
            (AluOp::Sra, 0x8000_0000_0000_0000, 64, 0x8000_0000_0000_0000),
            (AluOp::Sra, 0x7fff_ffff_ffff_ffff, 62, 1),
            (AluOp::Sra, 0xffff_ffff_ffff_fffb, 1, 0xffff_ffff_ffff_fffd),
            (AluOp::Sllw, 1, 31, 0xffff_ffff_8000_0000),
            (AluOp::Sllw, 1, 32, 1),
            (AluOp::Sllw, 3, 31, 0xffff_ffff_8000_0000),
            (AluOp::Sllw, 0xffff_ffff_0000_0001, 4, 16),
            (AluOp::Srlw, 0x8000_0000, 31, 1),
            (AluOp::Srlw, 0x8000_0000, 32, 0xffff_ffff_8000_0000),
            (AluOp::Srlw, 0xffff_ffff_0000_0000, 1, 0),
            (AluOp::Srlw, u64::MAX, 1, 0x7fff_ffff),
            (AluOp::Sraw, 0x8000_0000, 31, u64::MAX),
            (AluOp::Sraw, 0x8000_0000, 32, 0xffff_ffff_8000_0000),
            (AluOp::Sraw, 0xffff_ffff_7fff_ffff, 30, 1),
            (AluOp::Sraw, 0xffff_fff0, 4, u64::MAX),
        ],
    );
}

#[test]
fn products(rt: HostRuntime) {
    check(
        &rt,
        &[
            (AluOp::Mul, u64::MAX, u64::MAX, 1),
            (AluOp::Mul, 0x8000_0000_0000_0000, 2, 0),
            (AluOp::Mul, 0x1_0000_0000, 0x1_0000_0000, 0),
            (AluOp::Mulh, u64::MAX, u64::MAX, 0),
            (
                AluOp::Mulh,
                0x8000_0000_0000_0000,
                0x8000_0000_0000_0000,
                0x4000_0000_0000_0000,
            ),
            (
                AluOp::Mulh,
                0x8000_0000_0000_0000,
                0x7fff_ffff_ffff_ffff,
                0xc000_0000_0000_0000,
            ),
            (AluOp::Mulh, 0x8000_0000_0000_0000, u64::MAX, 0),
            (AluOp::Mulh, u64::MAX, 1, u64::MAX),
            (
                AluOp::Mulh,
                0x7fff_ffff_ffff_ffff,
                0x7fff_ffff_ffff_ffff,
                0x3fff_ffff_ffff_ffff,
            ),
            (AluOp::Mulhsu, u64::MAX, u64::MAX, u64::MAX),
            (
                AluOp::Mulhsu,
                0x8000_0000_0000_0000,
                u64::MAX,
                0x8000_0000_0000_0000,
            ),
            (
                AluOp::Mulhsu,
                0x7fff_ffff_ffff_ffff,
                u64::MAX,
                0x7fff_ffff_ffff_fffe,
            ),
            (AluOp::Mulhsu, u64::MAX, 1, u64::MAX),
            (AluOp::Mulhsu, 1, u64::MAX, 0),
            (AluOp::Mulhu, u64::MAX, u64::MAX, 0xffff_ffff_ffff_fffe),
            (AluOp::Mulhu, 0x8000_0000_0000_0000, 2, 1),
            (
                AluOp::Mulhu,
                0x8000_0000_0000_0000,
                0x8000_0000_0000_0000,
                0x4000_0000_0000_0000,
            ),
            (AluOp::Mulhu, 1, u64::MAX, 0),
            (AluOp::Mulw, 0xffff_ffff, 0xffff_ffff, 1),
            (AluOp::Mulw, 0x8000_0000, 2, 0),
            (AluOp::Mulw, 0x7fff_ffff, 2, 0xffff_ffff_ffff_fffe),
            (AluOp::Mulw, 0x1_0000_0003, 5, 15),
        ],
    );
}

#[test]
fn quotients(rt: HostRuntime) {
    check(
        &rt,
        &[
            (AluOp::Div, 7, 0, u64::MAX),
            (AluOp::Div, 0, 0, u64::MAX),
            (
                AluOp::Div,
                0x8000_0000_0000_0000,
                u64::MAX,
                0x8000_0000_0000_0000,
            ),
            (AluOp::Div, 0xffff_ffff_ffff_fff9, 2, 0xffff_ffff_ffff_fffd),
            (AluOp::Div, 7, 0xffff_ffff_ffff_fffe, 0xffff_ffff_ffff_fffd),
            (AluOp::Div, 0xffff_ffff_ffff_fff9, 0xffff_ffff_ffff_fffe, 3),
            (AluOp::Div, 0x8000_0000_0000_0000, 1, 0x8000_0000_0000_0000),
            (AluOp::Divu, 7, 0, u64::MAX),
            (AluOp::Divu, 0x8000_0000_0000_0000, u64::MAX, 0),
            (AluOp::Divu, u64::MAX, 2, 0x7fff_ffff_ffff_ffff),
            (AluOp::Divu, u64::MAX, u64::MAX, 1),
            (AluOp::Divw, 7, 0, u64::MAX),
            (AluOp::Divw, 7, 0x1_0000_0000, u64::MAX),
            (AluOp::Divw, 0x8000_0000, 0xffff_ffff, 0xffff_ffff_8000_0000),
            (AluOp::Divw, 0x1_0000_0007, 2, 3),
            (AluOp::Divw, 0xffff_ffff_ffff_fff9, 2, 0xffff_ffff_ffff_fffd),
            (AluOp::Divw, 0x8000_0000, 1, 0xffff_ffff_8000_0000),
            (AluOp::Divuw, 7, 0, u64::MAX),
            (AluOp::Divuw, 0x8000_0000, 0xffff_ffff, 0),
            (AluOp::Divuw, 0xffff_ffff, 1, u64::MAX),
            (AluOp::Divuw, 0x1_0000_0009, 0x2_0000_0002, 4),
        ],
    );
}

#[test]
fn remainders(rt: HostRuntime) {
    check(
        &rt,
        &[
            (AluOp::Rem, 7, 0, 7),
            (AluOp::Rem, 0xffff_ffff_ffff_fff9, 0, 0xffff_ffff_ffff_fff9),
            (AluOp::Rem, 0x8000_0000_0000_0000, u64::MAX, 0),
            (AluOp::Rem, 0xffff_ffff_ffff_fff9, 2, u64::MAX),
            (AluOp::Rem, 7, 0xffff_ffff_ffff_fffe, 1),
            (
                AluOp::Rem,
                0xffff_ffff_ffff_fff9,
                0xffff_ffff_ffff_fffe,
                u64::MAX,
            ),
            (AluOp::Remu, 7, 0, 7),
            (AluOp::Remu, u64::MAX, 0, u64::MAX),
            (
                AluOp::Remu,
                0x8000_0000_0000_0000,
                u64::MAX,
                0x8000_0000_0000_0000,
            ),
            (AluOp::Remu, u64::MAX, 10, 5),
            (AluOp::Remw, 7, 0, 7),
            (AluOp::Remw, 0x8000_0000, 0, 0xffff_ffff_8000_0000),
            (AluOp::Remw, 0x8000_0000, 0xffff_ffff, 0),
            (AluOp::Remw, 0xffff_ffff_ffff_fff9, 2, u64::MAX),
            (AluOp::Remw, 7, 0xffff_ffff_ffff_fffe, 1),
            (AluOp::Remw, 0x1_0000_0007, 4, 3),
            (AluOp::Remuw, 0x8000_0000, 0, 0xffff_ffff_8000_0000),
            (AluOp::Remuw, 7, 0x1_0000_0000, 7),
            (AluOp::Remuw, 0xffff_ffff, 16, 15),
            (
                AluOp::Remuw,
                0xffff_fffe,
                0xffff_ffff,
                0xffff_ffff_ffff_fffe,
            ),
        ],
    );
}
