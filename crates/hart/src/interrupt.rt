ghost use Rattle.hart.specs.Interrupts.{interrupt_number};
ghost use Rattle.std.specs.Prelude.{◌≡◌, ◌+◌, ◌^◌};

// The interrupts, by their bits in mie and mip.
#[derive(Clone, Copy)]
pub(crate) enum Interrupt {
    Software = 3,
    Timer = 7,
    External = 11,
}

impl Interrupt {
    // What mcause takes: bit 31 tells interrupts from exceptions.
    pub(crate) fn cause(self) -> u32
        ensures { result ≡ 2 ^ 31 + interrupt_number self }
    {
        0x8000_0000 + self as u32
    }
}
