// The control registers, with their fixed bits and those that drop what is written.
ghost use Rattle.hart.specs.Control.{control_number, reading, written};
ghost use Rattle.std.specs.Prelude.{◌≡◌, is_ok};

use crate::control_register::{ControlRefusal, ControlRegister};

// The bits of mstatus that can be written: interrupts are on, and were on before the last trap.
#[derive(Clone, Copy, Default)]
pub struct Status {
    pub(crate) mie: bool,
    pub(crate) mpie: bool,
}

// What a trap saves.
#[derive(Clone, Copy, Default)]
pub struct Saved {
    pub(crate) mepc: u32,
    pub(crate) mcause: u32,
    pub(crate) mtval: u32,
}

#[derive(Clone, Copy, Default)]
pub struct Control {
    pub(crate) status: Status,
    // The registers mie and mip.
    pub(crate) enabled: u32,
    pub(crate) pending: u32,
    pub(crate) mtvec: u32,
    pub(crate) mscratch: u32,
    pub(crate) saved: Saved,
}

impl Control {
    pub(crate) fn read(&self, register: ControlRegister) -> u32
        ensures { reading self.now (control_number register) ≡ Some result }
    {
        match register {
            ControlRegister::Mstatus => {
                0x1800 + u32::from(self.status.mie) * 8 + u32::from(self.status.mpie) * 128
            }
            ControlRegister::Misa => 0x4000_1100,
            ControlRegister::Mie => self.enabled,
            ControlRegister::Mtvec => self.mtvec,
            ControlRegister::Mscratch => self.mscratch,
            ControlRegister::Mepc => self.saved.mepc,
            ControlRegister::Mcause => self.saved.mcause,
            ControlRegister::Mtval => self.saved.mtval,
            ControlRegister::Mip => self.pending,
            ControlRegister::Mvendorid
            | ControlRegister::Marchid
            | ControlRegister::Mimpid
            | ControlRegister::Mhartid => 0,
        }
    }

    pub(crate) fn write(
        &mut self,
        register: ControlRegister,
        value: u32,
    ) -> Result<(), ControlRefusal>
        ensures { written self.old (control_number register) value ≡ (is_ok result, self.new) }
    {
        match register {
            ControlRegister::Mstatus => {
                self.status.mie = value / 8 % 2 == 1;
                self.status.mpie = value / 128 % 2 == 1;
            }
            ControlRegister::Misa | ControlRegister::Mip => {}
            ControlRegister::Mie => self.enabled = value & 0x888,
            ControlRegister::Mtvec => self.mtvec = value / 4 * 4,
            ControlRegister::Mscratch => self.mscratch = value,
            ControlRegister::Mepc => self.saved.mepc = value / 4 * 4,
            ControlRegister::Mcause => self.saved.mcause = value,
            ControlRegister::Mtval => self.saved.mtval = value,
            ControlRegister::Mvendorid
            | ControlRegister::Marchid
            | ControlRegister::Mimpid
            | ControlRegister::Mhartid => return Err(ControlRefusal::ReadOnly),
        }
        Ok(())
    }
}
