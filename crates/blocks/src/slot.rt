ghost use Rattle.isa.specs.Decode.{decoded};
ghost use Rattle.std.specs.Prelude.{◌≡◌};

use isa::decode::decode;
use isa::instruction::Instruction;

// A word and what it decodes to.
#[derive(Clone, Copy)]
pub struct Slot {
    pub word: u32,
    pub form: Instruction,
}

// A slot as a row keeps it, marked or not: its form is the decoding of its word.
#[derive(Clone, Copy)]
pub(crate) struct Decoded {
    pub(crate) word: u32,
    pub(crate) form: Instruction,
    ghost decodes: { form ≡ decoded word },
}

impl Decoded {
    ghost use Rattle.blocks.specs.Slots.{decoded_of, slot_of};

    pub(crate) fn of(word: u32) -> Decoded
        ensures { result ≡ decoded_of word }
    {
        Decoded {
            word,
            form: decode(word),
        }
    }

    // The slot for a caller, who may change it.
    pub(crate) fn slot(&self) -> Slot
        ensures { result ≡ slot_of self.now.word }
    {
        Slot {
            word: self.word,
            form: self.form,
        }
    }
}
