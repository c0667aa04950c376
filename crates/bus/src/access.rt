ghost use Rattle.std.specs.Prelude.{◌≡◌, ◌%◌, ◌==◌, Some};
ghost use Rattle.bus.specs.Numbers.{cause_number, device_number, fault_numbers, feed_number, feed_refusal_number, size};
ghost use Rattle.bus.specs.Split.{deeper};
ghost use Rattle.bus.specs.Text.{fault_text};

use std::fmt;

// How many bytes a load or a store moves.
#[derive(Clone, Copy, Debug, PartialEq, Eq)]
pub enum Width {
    Byte,
    Half,
    Word,
}

// Why an access was refused.
#[derive(Clone, Copy, Debug, PartialEq, Eq)]
pub enum Cause {
    // Nothing lies at the address.
    Unmapped = 1,
    // The device takes no store there.
    ReadOnly = 2,
    // The device does not serve the width, or the address is no multiple of it.
    Malformed = 3,
    // The device answers loads there, and no fetch.
    NoCode = 4,
}

// The devices, as faults name them.
#[derive(Clone, Copy, Debug, PartialEq, Eq)]
pub enum Device {
    Ram = 1,
    Rom = 2,
    Uart = 3,
    Clint = 4,
}

// A refused access: why, at which address, by which device, and how many splits lie above it.
#[derive(Clone, Copy, Debug, PartialEq, Eq)]
pub struct Fault {
    pub cause: Cause,
    pub address: u32,
    pub device: Device,
    pub depth: u8,
}

// The interrupt lines, each up or down.
#[derive(Clone, Copy, Debug, PartialEq, Eq)]
pub struct Lines {
    pub software: bool,
    pub timer: bool,
    pub external: bool,
}

// Why a fed byte was not taken.
#[derive(Clone, Copy, Debug, PartialEq, Eq)]
pub enum FeedRefusal {
    // The bus has no receiver.
    NoReceiver = 16,
    // The receiver was full: the byte is lost, and that is marked.
    Overrun = 17,
}

impl Width {
    pub fn bytes(self) -> u32
        ensures { result ≡ size self }
    {
        match self {
            Width::Byte => 1,
            Width::Half => 2,
            Width::Word => 4,
        }
    }

    // Whether the address is a multiple of the width, by a constant in each case.
    pub fn divides(self, address: u32) -> bool
        ensures { result ≡ (address % size self == 0) }
    {
        match self {
            Width::Byte => true,
            Width::Half => address % 2 == 0,
            Width::Word => address % 4 == 0,
        }
    }
}

impl Cause {
    pub fn number(self) -> u8
        ensures { result ≡ cause_number self }
    {
        self as u8
    }
}

impl Device {
    pub fn number(self) -> u8
        ensures { result ≡ device_number self }
    {
        self as u8
    }
}

impl Fault {
    // The fault as it is seen from above one more split.
    pub(crate) fn deeper(self) -> Self
        ensures { fault_numbers result ≡ deeper (fault_numbers self) }
    {
        Fault {
            depth: self.depth.saturating_add(1),
            ..self
        }
    }
}

// The fault in numbers: the cause, the address in hexadecimal, the device and the depth.
impl fmt::Display for Fault {
    ghost output = { λ f. Some (fault_text (fault_numbers f)) };

    #[tactic(auto, using(crate::proofs::Printed::zeros_first))]
    fn fmt<W: fmt::Write>(&self, f: &mut fmt::Formatter<W>) -> fmt::Result {
        write!(
            f,
            "{} address {:08x} device {} depth {}",
            self.cause.number(),
            self.address,
            self.device.number(),
            self.depth
        )
    }
}

impl FeedRefusal {
    pub fn number(self) -> u8
        ensures { result ≡ feed_refusal_number self }
    {
        self as u8
    }
}

// What became of a fed byte: 0 where it was taken, else the number of the refusal.
pub fn feed_number(answer: Result<(), FeedRefusal>) -> u8
    ensures { result ≡ feed_number answer }
{
    match answer {
        Ok(()) => 0,
        Err(refusal) => refusal.number(),
    }
}

impl Lines {
    pub const DOWN: Lines = Lines {
        software: false,
        timer: false,
        external: false,
    };
}
