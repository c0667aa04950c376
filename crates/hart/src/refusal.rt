ghost use Rattle.hart.specs.Refusals.{register_refusal_number, register_refusal_text};
ghost use Rattle.std.specs.Prelude.{◌≡◌, Some};

use std::error::Error;
use std::fmt;

// Why a question for a register is refused.
#[derive(Clone, Copy, Debug)]
pub enum RegisterRefusal {
    // The registers are x0 to x31.
    NoSuchRegister = 18,
}

impl RegisterRefusal {
    pub fn number(self) -> u8
        ensures { result ≡ register_refusal_number self }
    {
        self as u8
    }
}

// The same in hart, image, loader and machine: only a type's own crate can give it `Display`, so a shared trait would still need an impl in each.
impl fmt::Display for RegisterRefusal {
    ghost output = { λ refusal. Some (register_refusal_text refusal) };

    fn fmt<W: fmt::Write>(&self, f: &mut fmt::Formatter<W>) -> fmt::Result {
        write!(f, "refused {}", self.number())
    }
}

impl Error for RegisterRefusal {}
