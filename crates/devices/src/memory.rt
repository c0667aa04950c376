mod port;
mod storage;

ghost use Rattle.std.specs.Prelude.{◌≡◌, ◌-◌, ◌*◌, ◌/◌, ◌^◌, min, Bool, false, true, vec_len};
ghost use Rattle.bus.specs.declared.access.Device.{Device};
ghost use Rattle.bus.specs.declared.access.Device.TheVariants.{Ram as RamDevice, Rom as RomDevice};
ghost use Rattle.devices.specs.Memory.{Holding, holding};

use bus::Device;
use std::marker::{Model, PhantomData};

// What tells one memory from another.
pub trait Access {
    ghost DEVICE: { Device };

    ghost WRITABLE: { Bool };

    // The device that its faults name.
    const DEVICE: Device;

    // Whether it takes stores.
    const WRITABLE: bool;
}

// The access of RAM.
pub struct Writable;

// The access of ROM, which refuses every store.
pub struct ReadOnly;

impl Access for Writable {
    ghost DEVICE = { RamDevice };

    ghost WRITABLE = { true };

    const DEVICE: Device = Device::Ram;

    const WRITABLE: bool = true;
}

impl Access for ReadOnly {
    ghost DEVICE = { RomDevice };

    ghost WRITABLE = { false };

    const DEVICE: Device = Device::Rom;

    const WRITABLE: bool = false;
}

// Bytes from a base address on. The first `len` are served: whole words, none past the end of the address space. It is kept and not
// worked out, since each access asks for it.
#[derive(Drop)]
pub struct Memory<A: Access> {
    base: u32,
    bytes: Vec<u8>,
    len: usize,
    access: PhantomData<A>,
}

// Random-access memory.
pub type Ram = Memory<Writable>;

// Read-only memory.
pub type Rom = Memory<ReadOnly>;

impl<A: Access> Model for Memory<A> {
    ghost Value = { Holding };

    ghost view = { λ m. holding m.base m.bytes.items };

    ghost invariant = { λ m. m.len ≡ min (vec_len m.bytes / 4 * 4) (2 ^ 32 - m.base) };
}
