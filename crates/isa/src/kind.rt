// The kinds of instruction words: which instruction a word is, without its operands.
use crate::alu::AluOp;
use crate::branch::Condition;

// What a load brings, and how it fills the register.
// As a width and a flag for the sign it would be no plainer: a word has no sign to choose, so one of the six pairs would mean nothing.
#[derive(Clone, Copy, PartialEq, Debug)]
pub enum Load {
    Byte,
    Half,
    Word,
    ByteUnsigned,
    HalfUnsigned,
}

// It has the cases of the bus's `Width`; one type for both would make one of the two crates depend on the other.
#[derive(Clone, Copy, PartialEq, Debug)]
pub enum Store {
    Byte,
    Half,
    Word,
}

// What becomes of a control register.
#[derive(Clone, Copy, PartialEq, Debug)]
pub enum CsrOp {
    Write,
    Set,
    Clear,
}

#[derive(Clone, Copy)]
pub enum Kind {
    Lui,
    Auipc,
    Jal,
    Jalr,
    Branch(Condition),
    Load(Load),
    Store(Store),
    // An operation on a register and a sign-extended immediate.
    Immediate(AluOp),
    // A shift by an immediate amount.
    Shift(AluOp),
    // An operation on two registers.
    Op(AluOp),
    Csr(CsrOp),
    CsrImmediate(CsrOp),
    Fence,
    FenceI,
    // ECALL, EBREAK, MRET, WFI or none: the whole word tells.
    System,
    // A word on no line of the listing: a case and no `None`, as in `Instruction`.
    Unknown,
}
