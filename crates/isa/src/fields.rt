// The fields of an instruction word, and its immediates by format, sign-extended to words.
ghost use Rattle.std.specs.Prelude.{◌≡◌, ◌*◌, ◌^◌, ◌<◌, ◌≤◌};
ghost use Rattle.isa.specs.Fields as spec;

// The lowest bit of each register's number.
pub(crate) const RD: u32 = 7;

pub(crate) const RS1: u32 = 15;

pub(crate) const RS2: u32 = 20;

// n bits of a word, from bit i up.
#[tactic(auto, using(std::proofs::lemmas::Nat::one_shl, std::proofs::lemmas::Nat::pow_pos))]
pub(crate) fn bits(word: u32, i: u32, n: u32) -> u32
    requires from { i < 32 }
    requires width { n < 32 }
    ensures { result ≡ spec.bits word i n }
{
    (word >> i) % (1 << n)
}

// The number of the register that stands in five bits from bit i up.
pub(crate) fn register(word: u32, i: u32) -> u8
    requires { i < 32 }
    ensures { result ≡ spec.bits word i 5 }
{
    bits(word, i, 5) as u8
}

pub(crate) fn csr(word: u32) -> u16
    ensures { result ≡ spec.csr word }
{
    bits(word, 20, 12) as u16
}

// The number n as a word, where `sign` is the value of n's top bit and tells its sign.
fn extend(sign: u32, n: u32) -> u32
    requires narrow { sign ≤ 2 ^ 30 }
    requires within { n < 2 * sign }
    ensures { result ≡ spec.sign_extended sign n }
{
    if n < sign {
        n
    } else {
        n.wrapping_sub(2 * sign)
    }
}

// One function for each format of the manual: each puts other bits together, and a table of the pieces would be no plainer.
pub(crate) fn immediate_i(word: u32) -> u32
    ensures { result ≡ spec.imm_i word }
{
    extend(1 << 11, bits(word, 20, 12))
}

pub(crate) fn immediate_s(word: u32) -> u32
    ensures { result ≡ spec.imm_s word }
{
    extend(1 << 11, bits(word, 25, 7) * 32 + bits(word, 7, 5))
}

pub(crate) fn immediate_b(word: u32) -> u32
    ensures { result ≡ spec.imm_b word }
{
    let n = bits(word, 31, 1) * 0x1000
        + bits(word, 7, 1) * 0x800
        + bits(word, 25, 6) * 32
        + bits(word, 8, 4) * 2;
    extend(1 << 12, n)
}

pub(crate) fn immediate_u(word: u32) -> u32
    ensures { result ≡ spec.imm_u word }
{
    bits(word, 12, 20) * 0x1000
}

pub(crate) fn immediate_j(word: u32) -> u32
    ensures { result ≡ spec.imm_j word }
{
    let n = bits(word, 31, 1) * 0x10_0000
        + bits(word, 12, 8) * 0x1000
        + bits(word, 20, 1) * 0x800
        + bits(word, 21, 10) * 2;
    extend(1 << 20, n)
}
