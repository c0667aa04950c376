ghost use Rattle.bus.specs.Kind.{word_of};
ghost use Rattle.bus.specs.Numbers.{numbered};
ghost use Rattle.devices.specs.Device.{faulted};
ghost use Rattle.devices.specs.Memory.{has_word, holding, place, read_at, store_at};
ghost use Rattle.std.specs.Prelude.{◌≡◌};

use super::{Access, Memory};
use crate::refusal::fault;
use bus::{Cause, Fault, Width};
use std::marker::PhantomData;

impl<A: Access> Memory<A> {
    // The base is rounded down to a multiple of 4, and all bytes are kept.
    pub fn new(base: u32, bytes: Vec<u8>) -> Self
        ensures { result ≡ holding (word_of base) bytes.items }
    {
        let base = base / 4 * 4;
        let len = (bytes.len() / 4 * 4).min(0x1_0000_0000 - base as usize);
        Memory {
            base,
            bytes,
            len,
            access: PhantomData,
        }
    }

    // The caller's bytes, as stores have left them.
    pub fn into_bytes(self) -> Vec<u8>
        ensures { result.items ≡ self.bytes }
    {
        let Memory {
            base: _,
            bytes,
            len: _,
            access: _,
        } = self;
        bytes
    }

    // The index of an access's first byte. An address below the base wraps to one past the served bytes.
    fn place(&self, address: u32, width: Width) -> Result<usize, Fault>
        ensures { numbered result ≡ faulted A.DEVICE address (place self.now address width) }
    {
        if !width.divides(address) {
            return Err(fault(A::DEVICE, address, Cause::Malformed));
        }
        let at = address.wrapping_sub(self.base) as usize;
        if at + width.bytes() as usize > self.len {
            return Err(fault(A::DEVICE, address, Cause::Unmapped));
        }
        Ok(at)
    }

    pub(crate) fn has_word(&self, address: u32) -> bool
        ensures { result ≡ has_word self.now address }
    {
        self.place(address, Width::Word).is_ok()
    }

    pub(crate) fn read(&self, address: u32, width: Width) -> Result<u32, Fault>
        ensures { numbered result ≡ faulted A.DEVICE address (read_at self.now address width) }
    {
        let at = self.place(address, width)?;
        let bytes = &self.bytes;
        match width {
            Width::Byte => Ok(u32::from(bytes[at])),
            Width::Half => Ok(u32::from(u16::from_le_bytes([bytes[at], bytes[at + 1]]))),
            Width::Word => Ok(u32::from_le_bytes([
                bytes[at],
                bytes[at + 1],
                bytes[at + 2],
                bytes[at + 3],
            ])),
        }
    }

    pub(crate) fn write(&mut self, address: u32, width: Width, value: u32) -> Result<(), Fault>
        ensures value { numbered result ≡ faulted A.DEVICE address (store_at A.WRITABLE self.old address width value).value }
        ensures next { self.new ≡ (store_at A.WRITABLE self.old address width value).next }
    {
        let at = self.place(address, width)?;
        if !A::WRITABLE {
            return Err(fault(A::DEVICE, address, Cause::ReadOnly));
        }
        // byte by byte: with copy_from_slice the goal that a spliced list is the definition's list, set byte by byte, stayed open
        let [a, b, c, d] = value.to_le_bytes();
        self.bytes[at] = a;
        match width {
            Width::Byte => {}
            Width::Half => self.bytes[at + 1] = b,
            Width::Word => {
                self.bytes[at + 1] = b;
                self.bytes[at + 2] = c;
                self.bytes[at + 3] = d;
            }
        }
        Ok(())
    }
}
