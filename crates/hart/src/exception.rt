ghost use Rattle.hart.specs.Exceptions.{cause_of, value_of};
ghost use Rattle.std.specs.Prelude.{◌≡◌};

// Why an instruction is not carried out.
#[derive(Clone, Copy)]
pub enum Exception {
    // A jump or a taken branch to this address, which is no multiple of 4.
    MisalignedTarget(u32),
    // The bus refused the fetch.
    FetchFault,
    // The word is no instruction, or asks for what the hart does not have.
    Illegal(u32),
    Breakpoint,
    MisalignedLoad(u32),
    // The bus refused the load at this address.
    LoadFault(u32),
    MisalignedStore(u32),
    // The bus refused the store at this address.
    StoreFault(u32),
    Ecall,
}

impl Exception {
    // The number that mcause takes.
    pub fn cause(self) -> u32
        ensures { result ≡ cause_of self }
    {
        // a match: `as` takes no enum whose variants hold values
        match self {
            Exception::MisalignedTarget(_) => 0,
            Exception::FetchFault => 1,
            Exception::Illegal(_) => 2,
            Exception::Breakpoint => 3,
            Exception::MisalignedLoad(_) => 4,
            Exception::LoadFault(_) => 5,
            Exception::MisalignedStore(_) => 6,
            Exception::StoreFault(_) => 7,
            Exception::Ecall => 11,
        }
    }

    // What mtval takes, for an instruction at `pc`.
    pub fn value(self, pc: u32) -> u32
        ensures { result ≡ value_of self pc }
    {
        match self {
            Exception::MisalignedTarget(address)
            | Exception::MisalignedLoad(address)
            | Exception::LoadFault(address)
            | Exception::MisalignedStore(address)
            | Exception::StoreFault(address) => address,
            Exception::Illegal(word) => word,
            Exception::FetchFault | Exception::Breakpoint => pc,
            Exception::Ecall => 0,
        }
    }
}
