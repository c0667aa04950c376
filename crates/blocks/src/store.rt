// The store of kept blocks, by address.
ghost use Rattle.blocks.specs.Blocks.{filled, flushed, forgotten, fresh, held_of, kept_at};
ghost use Rattle.blocks.specs.Seen.{blocks_of};
ghost use Rattle.blocks.specs.Slots.{slot_of};
ghost use Rattle.isa.specs.Decode.{decoded};
ghost use Rattle.std.specs.Option.{option_map};
ghost use Rattle.std.specs.Prelude.{◌≡◌};

use crate::place::Place;
use crate::row::Row;
use crate::slot::{Decoded, Slot};
use isa::instruction::Instruction;

// No `Model`, and none of a row: its value would be a function of the slot, and a model's value needs a code, which functions lack.
#[derive(Drop)]
pub struct BlockStore {
    rows: [Row; 128],
}

impl BlockStore {
    pub fn new() -> Self
        ensures { blocks_of result ≡ fresh }
    {
        BlockStore {
            rows: [Row::new(); 128],
        }
    }

    // The slot that keeps the word at an address, if one does.
    #[tactic(auto, using(crate::proofs::Rows::row_at, crate::proofs::Rows::looks_up))]
    pub fn lookup(&self, address: u32) -> Option<Slot>
        ensures { result ≡ option_map slot_of (kept_at (blocks_of self.now) address) }
    {
        let place = Place::of(address);
        self.rows[place.row].slot_at(place)
    }

    // Decodes the word at an address, and keeps it.
    #[tactic(auto, using(crate::proofs::Rows::row_at, crate::proofs::Rows::puts, crate::proofs::Rows::fills_row))]
    pub fn keep(&mut self, address: u32, word: u32) -> Instruction
        ensures form { result ≡ decoded word }
        ensures blocks { blocks_of self.new ≡ filled (blocks_of self.old) address word }
    {
        let place = Place::of(address);
        let slot = Decoded::of(word);
        self.rows[place.row].fill(place, slot);
        slot.form
    }

    // Clears the mark of the word that an address lies in.
    #[tactic(auto, using(crate::proofs::Rows::row_at, crate::proofs::Rows::puts, crate::proofs::Rows::forgets_row))]
    pub fn forget(&mut self, address: u32)
        ensures { blocks_of self.new ≡ forgotten (blocks_of self.old) address }
    {
        let place = Place::of(address);
        self.rows[place.row].forget(place);
    }

    // Clears all marks.
    pub fn flush(&mut self)
        ensures { blocks_of self.new ≡ flushed (blocks_of self.old) }
    {
        for row in &mut self.rows {
            row.empty();
        }
    }

    // How many words are kept.
    pub fn held(&self) -> u32
        ensures { result ≡ held_of (blocks_of self.now) }
    {
        self.rows.iter().map(|row| row.held()).sum()
    }
}
