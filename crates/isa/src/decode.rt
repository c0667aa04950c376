// From a word to the instruction that it encodes.
ghost use Rattle.std.specs.Prelude.{◌≡◌, ◌<◌};
ghost use Rattle.isa.specs.Listing.{kind_at, class_of};
ghost use Rattle.isa.specs.Decode.{word_kind, system_of, imm_of, decoded};

use crate::fields::{self, RD, RS1, RS2, bits};
use crate::instruction::Instruction;
use crate::kind::Kind;
use crate::table::KINDS;

// The instruction that the word encodes, `Unknown` where it encodes none.
pub fn decode(word: u32) -> Instruction
    ensures { result ≡ decoded word }
{
    let kind = kind_of(word);
    let rd = fields::register(word, RD);
    let rs1 = fields::register(word, RS1);
    let rs2 = fields::register(word, RS2);
    let imm = immediate(kind, word);
    let csr = fields::csr(word);
    match kind {
        Kind::Lui => Instruction::Lui { rd, imm },
        Kind::Auipc => Instruction::Auipc { rd, imm },
        Kind::Jal => Instruction::Jal { rd, imm },
        Kind::Jalr => Instruction::Jalr { rd, rs1, imm },
        Kind::Branch(op) => Instruction::Branch { op, rs1, rs2, imm },
        Kind::Load(op) => Instruction::Load { op, rd, rs1, imm },
        Kind::Store(op) => Instruction::Store { op, rs1, rs2, imm },
        Kind::Immediate(op) | Kind::Shift(op) => Instruction::Immediate { op, rd, rs1, imm },
        Kind::Op(op) => Instruction::Op { op, rd, rs1, rs2 },
        Kind::Csr(op) => Instruction::Csr { op, rd, rs1, csr },
        Kind::CsrImmediate(op) => Instruction::CsrImmediate {
            op,
            rd,
            imm: rs1,
            csr,
        },
        Kind::Fence => Instruction::Fence,
        Kind::FenceI => Instruction::FenceI,
        Kind::System => system(word),
        Kind::Unknown => Instruction::Unknown,
    }
}

// The immediate of a word, by the format of its kind; a shift's amount stands in the place of rs2.
fn immediate(kind: Kind, word: u32) -> u32
    ensures { result ≡ imm_of kind word }
{
    match kind {
        Kind::Lui | Kind::Auipc => fields::immediate_u(word),
        Kind::Jal => fields::immediate_j(word),
        Kind::Jalr | Kind::Load(_) | Kind::Immediate(_) => fields::immediate_i(word),
        Kind::Branch(_) => fields::immediate_b(word),
        Kind::Store(_) => fields::immediate_s(word),
        Kind::Shift(_) => u32::from(fields::register(word, RS2)),
        _ => 0,
    }
}

// The kind of a word: the table's, where the low two bits are 11.
#[tactic(auto, using(crate::proofs::Places::unknown, crate::proofs::Places::class_below))]
pub fn kind_of(word: u32) -> Kind
    ensures { result ≡ word_kind word }
{
    if bits(word, 0, 2) != 3 {
        return Kind::Unknown;
    }
    entry(
        bits(word, 2, 5) as usize,
        bits(word, 12, 3) as usize,
        class(bits(word, 25, 7)),
    )
}

// An entry of the table. Its contract is the table's rule, at every place.
fn entry(opcode: usize, f3: usize, class: usize) -> Kind
    requires opcode { opcode < 32 }
    requires f3 { f3 < 8 }
    requires class { class < 4 }
    ensures { result ≡ kind_at opcode f3 class }
{
    KINDS[opcode][f3][class]
}

// The class of f7.
#[tactic(auto, unfolding(crate::specs::Listing::class_of))]
fn class(f7: u32) -> usize
    ensures { result ≡ class_of f7 }
{
    match f7 {
        0 => 0,
        1 => 1,
        0x20 => 2,
        _ => 3,
    }
}

// An instruction without operands, told by the whole word.
fn system(word: u32) -> Instruction
    ensures { result ≡ system_of word }
{
    match word {
        0x0000_0073 => Instruction::Ecall,
        0x0010_0073 => Instruction::Ebreak,
        0x3020_0073 => Instruction::Mret,
        0x1050_0073 => Instruction::Wfi,
        _ => Instruction::Unknown,
    }
}
