ghost use Rattle.std.specs.Prelude.{◌≡◌, ◌+◌, ◌^◌, ◌<◌, ◌≤◌, true, is_ok};
ghost use Rattle.bus.specs.Numbers.{numbered};
ghost use Rattle.image.specs.Headers.{table_count};
ghost use Rattle.loader.specs.Loading.{fill, load_segment, load_all};
ghost use Rattle.loader.specs.Numbers.{load_told, ends_with};
ghost use Rattle.loader.specs.Placed.{Placed};

use crate::refusal::LoadRefusal;
use bus::{Bus, Fault, Width};
use image::{Image, Segment};

// Stores `size` bytes from an address on: those given, and then zeros. By count: a range of addresses could not end at 2^32.
#[tactic(auto, using(crate::proofs::Steps::ran_none))]
fn fill<B: Bus>(bus: &mut B, address: u32, bytes: &[u8], size: u32) -> Result<(), Fault>
    requires { address + size ≤ 2 ^ 32 }
    ensures value { numbered result ≡ (fill B.Bus.kind bytes.now address size (B.Bus.meaning bus.old)).value }
    ensures next { B.Bus.meaning bus.new ≡ (fill B.Bus.kind bytes.now address size (B.Bus.meaning bus.old)).next }
{
    for i in 0..size {
        let byte = bytes.get(i as usize).copied().unwrap_or(0);
        bus.store(address + i, Width::Byte, u32::from(byte))?;
    }
    Ok(())
}

// Stores segment `i`, if it is a load.
fn load_segment<B: Bus>(bus: &mut B, image: &Image, i: usize) -> Result<(), Fault>
    requires { i < table_count image.now.bytes.now }
    ensures value { numbered result ≡ (load_segment B.Bus.kind image.now.bytes.now i (B.Bus.meaning bus.old)).value }
    ensures next { B.Bus.meaning bus.new ≡ (load_segment B.Bus.kind image.now.bytes.now i (B.Bus.meaning bus.old)).next }
{
    match image.segment(i) {
        Ok(
            Segment::Load {
                bytes,
                address,
                size,
                ..
            },
        ) => fill(bus, address, bytes, size),
        _ => Ok(()),
    }
}

// Stores the load segments, in the order of the program headers. By index: an iterator of segments would be a type more, with laws
// of its own, for this one loop.
#[tactic(auto, using(crate::proofs::Steps::ran_none))]
fn load_all<B: Bus>(bus: &mut B, image: &Image) -> Result<(), Fault>
    ensures value { numbered result ≡ (load_all B.Bus.kind image.now.bytes.now (B.Bus.meaning bus.old)).value }
    ensures next { B.Bus.meaning bus.new ≡ (load_all B.Bus.kind image.now.bytes.now (B.Bus.meaning bus.old)).next }
{
    for i in 0..image.segment_count() {
        load_segment(bus, image, i)?;
    }
    Ok(())
}

// Loads an image. At the first byte that the bus refuses it ends with the fault, and earlier bytes stay.
pub fn load<B: Bus>(bus: &mut B, image: &Image) -> Result<(), LoadRefusal>
    ensures told { load_told result ≡ ends_with (load_all B.Bus.kind image.now.bytes.now (B.Bus.meaning bus.old)).value }
    ensures next { B.Bus.meaning bus.new ≡ (load_all B.Bus.kind image.now.bytes.now (B.Bus.meaning bus.old)).next }
    ensures placed { is_ok result ≡ true → Placed B.Bus.kind image.now.bytes.now (B.Bus.meaning bus.old) (B.Bus.meaning bus.new) }
{
    load_all(bus, image)?;
    Ok(())
}
