// The widths of loads and stores, and what a load leaves in its register.
ghost use Rattle.hart.specs.Widths.{load_value, load_width, store_width};
ghost use Rattle.std.specs.Prelude.{◌≡◌};

use bus::Width;
use isa::kind::{Load, Store};

// No `From<Load> for Width`: a crate cannot give a trait of std to two types of other crates.
pub fn load_width(op: Load) -> Width
    ensures { result ≡ load_width op }
{
    match op {
        Load::Byte | Load::ByteUnsigned => Width::Byte,
        Load::Half | Load::HalfUnsigned => Width::Half,
        Load::Word => Width::Word,
    }
}

// The same of a store.
pub(crate) fn store_width(op: Store) -> Width
    ensures { result ≡ store_width op }
{
    match op {
        Store::Byte => Width::Byte,
        Store::Half => Width::Half,
        Store::Word => Width::Word,
    }
}

// The word that a load makes of what came, with its sign extended or with zeros.
pub(crate) fn load_value(op: Load, came: u32) -> u32
    ensures { result ≡ load_value op came }
{
    let byte = (came % 0x100) as u8;
    let half = (came % 0x1_0000) as u16;
    match op {
        Load::Byte => i32::from(byte.cast_signed()).cast_unsigned(),
        Load::Half => i32::from(half.cast_signed()).cast_unsigned(),
        Load::Word => came,
        Load::ByteUnsigned => u32::from(byte),
        Load::HalfUnsigned => u32::from(half),
    }
}
