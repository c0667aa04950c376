ghost use Rattle.devices.specs.Uart.{register_at};
ghost use Rattle.std.specs.Prelude.{◌≡◌};

// What an access can reach.
#[derive(Clone, Copy)]
pub(crate) enum Register {
    // RBR when loaded, THR when stored to.
    Data,
    // IER
    InterruptEnable,
    // DLL and DLM
    DivisorLow,
    DivisorHigh,
    // IIR when loaded, FCR when stored to.
    Identification,
    // LCR
    LineControl,
    // MCR
    ModemControl,
    // LSR
    LineStatus,
    // MSR
    ModemStatus,
    // SCR
    Scratch,
}

// The register at an address; with the divisor latch open, the first two are the divisor's.
pub(crate) fn register_at(latch: bool, address: u32) -> Option<Register>
    ensures { result ≡ register_at latch address }
{
    match address {
        0x1000_0000 if latch => Some(Register::DivisorLow),
        0x1000_0000 => Some(Register::Data),
        0x1000_0001 if latch => Some(Register::DivisorHigh),
        0x1000_0001 => Some(Register::InterruptEnable),
        0x1000_0002 => Some(Register::Identification),
        0x1000_0003 => Some(Register::LineControl),
        0x1000_0004 => Some(Register::ModemControl),
        0x1000_0005 => Some(Register::LineStatus),
        0x1000_0006 => Some(Register::ModemStatus),
        0x1000_0007 => Some(Register::Scratch),
        _ => None,
    }
}
