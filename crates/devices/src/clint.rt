ghost use Rattle.std.specs.Prelude.{◌≡◌};
ghost use Rattle.bus.specs.Numbers.{numbered};
ghost use Rattle.bus.specs.declared.access.Device.TheVariants.{Clint as ClintDevice};
ghost use Rattle.devices.specs.Clint.{clint, fresh, half_of, read_of, register_at, register_for, with_half, written};
ghost use Rattle.devices.specs.Device.{faulted};
ghost use Rattle.std.proofs.Common.{rules};

use crate::refusal::fault;
use bus::{Bus, Cause, Device, Fault, FeedRefusal, Lines, Width};

// The core-local interruptor: a software interrupt bit, and a clock with a time to compare it with.
#[derive(Drop)]
pub struct Clint {
    msip: bool,
    mtimecmp: u64,
    mtime: u64,
}

// The word registers: msip, and the halves of mtimecmp and mtime.
#[derive(Clone, Copy)]
pub(crate) enum Register {
    Software,
    Compare(Half),
    Time(Half),
}

// A half of a number of 64 bits.
#[derive(Clone, Copy)]
pub(crate) enum Half {
    Low,
    High,
}

impl Half {
    fn of(self, x: u64) -> u32
        ensures { result ≡ half_of self x }
    {
        match self {
            Half::Low => (x % 0x1_0000_0000) as u32,
            Half::High => (x / 0x1_0000_0000) as u32,
        }
    }

    // The number with this half replaced.
    fn put(self, x: u64, half: u32) -> u64
        ensures { result ≡ with_half self x half }
    {
        match self {
            Half::Low => x / 0x1_0000_0000 * 0x1_0000_0000 + u64::from(half),
            Half::High => u64::from(half) * 0x1_0000_0000 + x % 0x1_0000_0000,
        }
    }
}

fn register_at(address: u32) -> Option<Register>
    ensures { result ≡ register_at address }
{
    match address {
        0x0200_0000 => Some(Register::Software),
        0x0200_4000 => Some(Register::Compare(Half::Low)),
        0x0200_4004 => Some(Register::Compare(Half::High)),
        0x0200_bff8 => Some(Register::Time(Half::Low)),
        0x0200_bffc => Some(Register::Time(Half::High)),
        _ => None,
    }
}

fn register_for(address: u32, width: Width) -> Result<Register, Fault>
    ensures { numbered result ≡ faulted ClintDevice address (register_for address width) }
{
    let register = match width {
        Width::Word if address % 4 == 0 => register_at(address).ok_or(Cause::Unmapped),
        _ => Err(Cause::Malformed),
    };
    register.map_err(|cause| fault(Device::Clint, address, cause))
}

impl Clint {
    // No interrupt is asked for, and the clock at 0 is as far from the time to compare with as can be.
    pub fn new() -> Self
        ensures { result ≡ fresh }
    {
        Clint {
            msip: false,
            mtimecmp: u64::MAX,
            mtime: 0,
        }
    }

    fn read(&self, register: Register) -> u32
        ensures { result ≡ read_of self.now register }
    {
        match register {
            Register::Software => u32::from(self.msip),
            Register::Compare(half) => half.of(self.mtimecmp),
            Register::Time(half) => half.of(self.mtime),
        }
    }

    fn write(&mut self, register: Register, value: u32)
        ensures { self.new ≡ written self.old register value }
    {
        match register {
            Register::Software => self.msip = value % 2 == 1,
            Register::Compare(half) => self.mtimecmp = half.put(self.mtimecmp, value),
            Register::Time(half) => self.mtime = half.put(self.mtime, value),
        }
    }
}

impl Bus for Clint {
    ghost kind = { clint };

    ghost meaning = { λ c. c };

    ghost rules = { Prim.search rules };

    fn fetch(&self, address: u32) -> Result<u32, Fault> {
        register_for(address, Width::Word)?;
        Err(fault(Device::Clint, address, Cause::NoCode))
    }

    fn load(&mut self, address: u32, width: Width) -> Result<u32, Fault> {
        let register = register_for(address, width)?;
        Ok(self.read(register))
    }

    fn store(&mut self, address: u32, width: Width, value: u32) -> Result<(), Fault> {
        let register = register_for(address, width)?;
        self.write(register, value);
        Ok(())
    }

    fn tick(&mut self) {
        self.mtime = self.mtime.wrapping_add(1);
    }

    fn lines(&self) -> Lines {
        Lines {
            software: self.msip,
            timer: self.mtime >= self.mtimecmp,
            external: false,
        }
    }

    fn steady(&self, _address: u32) -> bool {
        false
    }

    fn feed(&mut self, _byte: u8) -> Result<(), FeedRefusal> {
        Err(FeedRefusal::NoReceiver)
    }

    fn sent(&self, _index: usize) -> Option<u8> {
        None
    }
}
