// The names of the control registers.
ghost use Rattle.hart.specs.Control.{Names};

#[derive(Clone, Copy)]
pub(crate) enum ControlRegister {
    Mstatus,
    Misa,
    Mie,
    Mtvec,
    Mscratch,
    Mepc,
    Mcause,
    Mtval,
    Mip,
    Mvendorid,
    Marchid,
    Mimpid,
    Mhartid,
}

// Why a control register cannot be used.
#[derive(Clone, Copy)]
pub(crate) enum ControlRefusal {
    // No register has that number.
    NoSuchRegister,
    // The register can only be read.
    ReadOnly,
}

impl TryFrom<u16> for ControlRegister {
    type Error = ControlRefusal;

    ghost try_from_gives = { Names };

    fn try_from(number: u16) -> Result<Self, ControlRefusal> {
        match number {
            0x300 => Ok(ControlRegister::Mstatus),
            0x301 => Ok(ControlRegister::Misa),
            0x304 => Ok(ControlRegister::Mie),
            0x305 => Ok(ControlRegister::Mtvec),
            0x340 => Ok(ControlRegister::Mscratch),
            0x341 => Ok(ControlRegister::Mepc),
            0x342 => Ok(ControlRegister::Mcause),
            0x343 => Ok(ControlRegister::Mtval),
            0x344 => Ok(ControlRegister::Mip),
            0xf11 => Ok(ControlRegister::Mvendorid),
            0xf12 => Ok(ControlRegister::Marchid),
            0xf13 => Ok(ControlRegister::Mimpid),
            0xf14 => Ok(ControlRegister::Mhartid),
            _ => Err(ControlRefusal::NoSuchRegister),
        }
    }
}
