// Words of the manual's formats and its table of division, worked by hand.
use crate::alu::AluOp;
use crate::branch::Condition;
use crate::decode::decode;
use crate::instruction::Instruction;
use crate::kind::Store;
use std::mem::size_of;

#[test]
fn format_r(rt: HostRuntime) {
    // DIVU x11, x11, x10
    let divu = Instruction::Op {
        op: AluOp::Divu,
        rd: 11,
        rs1: 11,
        rs2: 10,
    };
    assert_eq!(rt; decode(0x02a5_d5b3), divu);
}

#[test]
fn format_i(rt: HostRuntime) {
    // ADDI x1, x0, -1
    let addi = Instruction::Immediate {
        op: AluOp::Add,
        rd: 1,
        rs1: 0,
        imm: 0xffff_ffff,
    };
    assert_eq!(rt; decode(0xfff0_0093), addi);
}

#[test]
fn format_s(rt: HostRuntime) {
    // SW x1, -4(x2)
    let sw = Instruction::Store {
        op: Store::Word,
        rs1: 2,
        rs2: 1,
        imm: 0xffff_fffc,
    };
    assert_eq!(rt; decode(0xfe11_2e23), sw);
}

#[test]
fn format_b(rt: HostRuntime) {
    // BNE x1, x2, -4
    let bne = Instruction::Branch {
        op: Condition::Ne,
        rs1: 1,
        rs2: 2,
        imm: 0xffff_fffc,
    };
    assert_eq!(rt; decode(0xfe20_9ee3), bne);
}

#[test]
fn format_u(rt: HostRuntime) {
    // LUI x1, 0x80000
    let lui = Instruction::Lui {
        rd: 1,
        imm: 0x8000_0000,
    };
    assert_eq!(rt; decode(0x8000_00b7), lui);
}

#[test]
fn format_j(rt: HostRuntime) {
    // JAL x0, -4
    let jal = Instruction::Jal {
        rd: 0,
        imm: 0xffff_fffc,
    };
    assert_eq!(rt; decode(0xffdf_f06f), jal);
}

#[test]
fn whole_words(rt: HostRuntime) {
    assert_eq!(rt; decode(0x0000_0073), Instruction::Ecall);
    assert_eq!(rt; decode(0x0010_0073), Instruction::Ebreak);
    // SLLI with f7 1
    assert_eq!(rt; decode(0x0200_9093), Instruction::Unknown);
}

#[test]
fn table_of_division(rt: HostRuntime) {
    assert_eq!(rt; AluOp::Div.apply(7, 0), 0xffff_ffff);
    assert_eq!(rt; AluOp::Divu.apply(7, 0), 0xffff_ffff);
    assert_eq!(rt; AluOp::Rem.apply(7, 0), 7);
    assert_eq!(rt; AluOp::Remu.apply(7, 0), 7);
    assert_eq!(rt; AluOp::Div.apply(0x8000_0000, 0xffff_ffff), 0x8000_0000);
    assert_eq!(rt; AluOp::Rem.apply(0x8000_0000, 0xffff_ffff), 0);
}

#[test]
fn eight_bytes(rt: HostRuntime) {
    assert_eq!(rt; size_of::<Instruction>(), 8);
}
