// When a branch is taken.
ghost use Rattle.std.specs.Prelude.{◌≡◌};
ghost use Rattle.isa.specs.Branch.{holds};

#[derive(Clone, Copy, PartialEq, Debug)]
pub enum Condition {
    Eq,
    Ne,
    Lt,
    Ge,
    Ltu,
    Geu,
}

impl Condition {
    // Whether the condition holds of the words a and b.
    pub fn holds(self, a: u32, b: u32) -> bool
        ensures { result ≡ holds self a b }
    {
        match self {
            Condition::Eq => a == b,
            Condition::Ne => a != b,
            Condition::Lt => a.cast_signed() < b.cast_signed(),
            Condition::Ge => a.cast_signed() >= b.cast_signed(),
            Condition::Ltu => a < b,
            Condition::Geu => a >= b,
        }
    }
}
