// What the register and immediate instructions compute from two words.
ghost use Rattle.std.specs.Prelude.{◌≡◌};
ghost use Rattle.isa.specs.Alu.{alu_result, upper};

#[derive(Clone, Copy, PartialEq, Debug)]
pub enum AluOp {
    Add,
    Sub,
    Sll,
    Slt,
    Sltu,
    Xor,
    Srl,
    Sra,
    Or,
    And,
    Mul,
    Mulh,
    Mulhsu,
    Mulhu,
    Div,
    Divu,
    Rem,
    Remu,
}

impl AluOp {
    // The result of the operation on the words a and b.
    pub fn apply(self, a: u32, b: u32) -> u32
        ensures { result ≡ alu_result self a b }
    {
        match self {
            AluOp::Add => a.wrapping_add(b),
            AluOp::Sub => a.wrapping_sub(b),
            AluOp::Sll => a << (b % 32),
            AluOp::Slt => u32::from(a.cast_signed() < b.cast_signed()),
            AluOp::Sltu => u32::from(a < b),
            AluOp::Xor => a ^ b,
            AluOp::Srl => a >> (b % 32),
            AluOp::Sra => (a.cast_signed() >> (b % 32)).cast_unsigned(),
            AluOp::Or => a | b,
            AluOp::And => a & b,
            AluOp::Mul => a.wrapping_mul(b),
            AluOp::Mulh => mulh(a, b),
            AluOp::Mulhsu => mulhsu(a, b),
            AluOp::Mulhu => mulhu(a, b),
            AluOp::Div => div(a, b),
            AluOp::Divu => divu(a, b),
            AluOp::Rem => rem(a, b),
            AluOp::Remu => remu(a, b),
        }
    }
}

// The upper word of a product.
fn upper_word(product: i64) -> u32
    ensures { result ≡ upper product }
{
    (product.cast_unsigned() >> 32) as u32
}

// One function for each instruction of the manual: `mulhsu` differs in how it reads b, and a flag for that would say less than its name.
fn mulh(a: u32, b: u32) -> u32
    ensures { result ≡ alu_result AluOp.Mulh a b }
{
    upper_word(i64::from(a.cast_signed()) * i64::from(b.cast_signed()))
}

fn mulhsu(a: u32, b: u32) -> u32
    ensures { result ≡ alu_result AluOp.Mulhsu a b }
{
    upper_word(i64::from(a.cast_signed()) * i64::from(b))
}

fn mulhu(a: u32, b: u32) -> u32
    ensures { result ≡ alu_result AluOp.Mulhu a b }
{
    ((u64::from(a) * u64::from(b)) >> 32) as u32
}

// Division by zero answers all ones; the quotient that does not fit wraps to the dividend.
// `checked_div` would be no plainer: it answers `None` to a divisor of zero and to that quotient, and the two answers differ.
fn div(a: u32, b: u32) -> u32
    ensures { result ≡ alu_result AluOp.Div a b }
{
    if b == 0 {
        u32::MAX
    } else {
        a.cast_signed()
            .wrapping_div(b.cast_signed())
            .cast_unsigned()
    }
}

fn divu(a: u32, b: u32) -> u32
    ensures { result ≡ alu_result AluOp.Divu a b }
{
    a.checked_div(b).unwrap_or(u32::MAX)
}

// The remainder by zero is the dividend; it has the dividend's sign. `checked_rem` would be no plainer, as `checked_div`.
fn rem(a: u32, b: u32) -> u32
    ensures { result ≡ alu_result AluOp.Rem a b }
{
    if b == 0 {
        a
    } else {
        a.cast_signed()
            .wrapping_rem(b.cast_signed())
            .cast_unsigned()
    }
}

fn remu(a: u32, b: u32) -> u32
    ensures { result ≡ alu_result AluOp.Remu a b }
{
    a.checked_rem(b).unwrap_or(a)
}
