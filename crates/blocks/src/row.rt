// Eight slots that share a tag, and the changes of them.
ghost use Rattle.blocks.specs.Blocks.{bare, emptied, filled_block, forgotten_block, marks_of, word_in};
ghost use Rattle.blocks.specs.Seen.{block_of};
ghost use Rattle.blocks.specs.Slots.{slot_of};
ghost use Rattle.std.specs.Option.{option_map};
ghost use Rattle.std.specs.Prelude.{◌≡◌, ◌≤◌};

use crate::place::Place;
use crate::slot::{Decoded, Slot};

// Bit j of the map marks slot j. A rule of the project asks for a map of eight bits beside eight slots, so the slots are no Options.
#[derive(Clone, Copy)]
pub(crate) struct Row {
    tag: u32,
    map: u8,
    slots: [Decoded; 8],
}

impl Row {
    #[tactic(auto, using(crate::proofs::Rows::nothing))]
    pub(crate) fn new() -> Self
        ensures { block_of result ≡ bare }
    {
        Row {
            tag: 0,
            map: 0,
            slots: [Decoded::of(0); 8],
        }
    }

    // The slot at a place, if it is marked and the row has the place's tag.
    #[tactic(auto, using(crate::proofs::Rows::finds_word, crate::proofs::Rows::misses, crate::proofs::Rows::misses_other))]
    pub(crate) fn slot_at(&self, place: Place) -> Option<Slot>
        ensures { result ≡ option_map slot_of (word_in (block_of self.now) place.tag place.slot) }
    {
        if self.tag == place.tag && (self.map >> place.slot) & 1 == 1 {
            Some(self.slots[place.slot].slot())
        } else {
            None
        }
    }

    // Fills and marks the slot at a place; a row of another tag is emptied first.
    #[tactic(auto, using(crate::proofs::Rows::fills, crate::proofs::Rows::fills_other))]
    pub(crate) fn fill(&mut self, place: Place, slot: Decoded)
        ensures { block_of self.new ≡ filled_block (block_of self.old) place.tag place.slot slot.word }
    {
        if self.tag != place.tag {
            self.tag = place.tag;
            self.map = 0;
        }
        self.slots[place.slot] = slot;
        self.map |= 1 << place.slot;
    }

    // Clears the mark of the slot at a place, if the row has the place's tag.
    #[tactic(auto, using(crate::proofs::Rows::clears, crate::proofs::Rows::clears_other))]
    pub(crate) fn forget(&mut self, place: Place)
        ensures { block_of self.new ≡ forgotten_block (block_of self.old) place.tag place.slot }
    {
        if self.tag == place.tag {
            // the copy tells the proof that the map is a byte
            let map = self.map;
            self.map = map & !(1 << place.slot);
        }
    }

    #[tactic(auto, using(crate::proofs::Rows::empties))]
    pub(crate) fn empty(&mut self)
        ensures { block_of self.new ≡ emptied (block_of self.old) }
    {
        self.map = 0;
    }

    // How many words the row keeps.
    #[tactic(auto, using(crate::proofs::Rows::counts, crate::proofs::Rows::few))]
    pub(crate) fn held(&self) -> u32
        ensures marks { result ≡ marks_of (block_of self.now) }
        ensures most { result ≤ 8 }
    {
        self.map.count_ones()
    }
}
