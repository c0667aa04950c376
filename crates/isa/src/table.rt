// The kind of each instruction word whose low two bits are 11, by bits 6 to 2, f3 (bits 14 to 12) and the class of f7 (bits 31 to 25),
// which is 0 for 0, 1 for 1, 2 for 0x20 and 3 for any other.
use crate::alu::AluOp;
use crate::branch::Condition;
use crate::kind::Kind::{self, Branch, Csr, CsrImmediate, Immediate, Op, Shift, Unknown};
use crate::kind::{CsrOp, Load, Store};

// The kinds of one opcode, by f3 and class.
type Group = [[Kind; 4]; 8];

// No instruction at this f3.
const NONE: [Kind; 4] = [Unknown; 4];

const LOAD: Group = [
    [Kind::Load(Load::Byte); 4],
    [Kind::Load(Load::Half); 4],
    [Kind::Load(Load::Word); 4],
    NONE,
    [Kind::Load(Load::ByteUnsigned); 4],
    [Kind::Load(Load::HalfUnsigned); 4],
    NONE,
    NONE,
];

const MISC_MEM: Group = [
    [Kind::Fence; 4],
    [Kind::FenceI; 4],
    NONE,
    NONE,
    NONE,
    NONE,
    NONE,
    NONE,
];

const OP_IMM: Group = [
    [Immediate(AluOp::Add); 4],
    [Shift(AluOp::Sll), Unknown, Unknown, Unknown],
    [Immediate(AluOp::Slt); 4],
    [Immediate(AluOp::Sltu); 4],
    [Immediate(AluOp::Xor); 4],
    [Shift(AluOp::Srl), Unknown, Shift(AluOp::Sra), Unknown],
    [Immediate(AluOp::Or); 4],
    [Immediate(AluOp::And); 4],
];

const STORE: Group = [
    [Kind::Store(Store::Byte); 4],
    [Kind::Store(Store::Half); 4],
    [Kind::Store(Store::Word); 4],
    NONE,
    NONE,
    NONE,
    NONE,
    NONE,
];

const OP: Group = [
    [Op(AluOp::Add), Op(AluOp::Mul), Op(AluOp::Sub), Unknown],
    [Op(AluOp::Sll), Op(AluOp::Mulh), Unknown, Unknown],
    [Op(AluOp::Slt), Op(AluOp::Mulhsu), Unknown, Unknown],
    [Op(AluOp::Sltu), Op(AluOp::Mulhu), Unknown, Unknown],
    [Op(AluOp::Xor), Op(AluOp::Div), Unknown, Unknown],
    [Op(AluOp::Srl), Op(AluOp::Divu), Op(AluOp::Sra), Unknown],
    [Op(AluOp::Or), Op(AluOp::Rem), Unknown, Unknown],
    [Op(AluOp::And), Op(AluOp::Remu), Unknown, Unknown],
];

const BRANCH: Group = [
    [Branch(Condition::Eq); 4],
    [Branch(Condition::Ne); 4],
    NONE,
    NONE,
    [Branch(Condition::Lt); 4],
    [Branch(Condition::Ge); 4],
    [Branch(Condition::Ltu); 4],
    [Branch(Condition::Geu); 4],
];

const JALR: Group = [[Kind::Jalr; 4], NONE, NONE, NONE, NONE, NONE, NONE, NONE];

const SYSTEM: Group = [
    [Kind::System; 4],
    [Csr(CsrOp::Write); 4],
    [Csr(CsrOp::Set); 4],
    [Csr(CsrOp::Clear); 4],
    NONE,
    [CsrImmediate(CsrOp::Write); 4],
    [CsrImmediate(CsrOp::Set); 4],
    [CsrImmediate(CsrOp::Clear); 4],
];

pub static KINDS: [Group; 32] = [
    LOAD, // 0x03
    [NONE; 8], // 0x07
    [NONE; 8], // 0x0b
    MISC_MEM, // 0x0f
    OP_IMM, // 0x13
    [[Kind::Auipc; 4]; 8], // 0x17
    [NONE; 8], // 0x1b
    [NONE; 8], // 0x1f
    STORE, // 0x23
    [NONE; 8], // 0x27
    [NONE; 8], // 0x2b
    [NONE; 8], // 0x2f
    OP, // 0x33
    [[Kind::Lui; 4]; 8], // 0x37
    [NONE; 8], // 0x3b
    [NONE; 8], // 0x3f
    [NONE; 8], // 0x43
    [NONE; 8], // 0x47
    [NONE; 8], // 0x4b
    [NONE; 8], // 0x4f
    [NONE; 8], // 0x53
    [NONE; 8], // 0x57
    [NONE; 8], // 0x5b
    [NONE; 8], // 0x5f
    BRANCH, // 0x63
    JALR, // 0x67
    [NONE; 8], // 0x6b
    [[Kind::Jal; 4]; 8], // 0x6f
    SYSTEM, // 0x73
    [NONE; 8], // 0x77
    [NONE; 8], // 0x7b
    [NONE; 8], // 0x7f
];
