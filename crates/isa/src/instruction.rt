// Decoded instructions: registers by number, immediates as words. A control register is a number and no enum: a word with any number
// decodes, and which of them exist is for the hart to say.
// A word that is none is `Unknown`, and no `None`: a hart executes it like the others, by a trap, so an Option would be no plainer.
use crate::alu::AluOp;
use crate::branch::Condition;
use crate::kind::{CsrOp, Load, Store};

#[derive(Clone, Copy, PartialEq, Debug)]
pub enum Instruction {
    Lui {
        rd: u8,
        imm: u32,
    },
    Auipc {
        rd: u8,
        imm: u32,
    },
    Jal {
        rd: u8,
        imm: u32,
    },
    Jalr {
        rd: u8,
        rs1: u8,
        imm: u32,
    },
    Branch {
        op: Condition,
        rs1: u8,
        rs2: u8,
        imm: u32,
    },
    Load {
        op: Load,
        rd: u8,
        rs1: u8,
        imm: u32,
    },
    Store {
        op: Store,
        rs1: u8,
        rs2: u8,
        imm: u32,
    },
    Immediate {
        op: AluOp,
        rd: u8,
        rs1: u8,
        imm: u32,
    },
    Op {
        op: AluOp,
        rd: u8,
        rs1: u8,
        rs2: u8,
    },
    Csr {
        op: CsrOp,
        rd: u8,
        rs1: u8,
        csr: u16,
    },
    CsrImmediate {
        op: CsrOp,
        rd: u8,
        imm: u8,
        csr: u16,
    },
    Fence,
    FenceI,
    Ecall,
    Ebreak,
    Mret,
    Wfi,
    Unknown,
}
