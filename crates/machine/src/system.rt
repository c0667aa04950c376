// A hart on its bus: what every machine does, however the words come.
ghost use Rattle.bus.specs.Numbers.{numbered};
ghost use Rattle.hart.specs.Execute.{begun};
ghost use Rattle.hart.specs.State.{Invariant, fresh};
ghost use Rattle.hart.specs.Traps.{latched};
ghost use Rattle.machine.specs.Acts.{act, acted, effect_of, fed, poked};
ghost use Rattle.machine.specs.Numbers.{told};
ghost use Rattle.std.specs.Prelude.{◌≡◌};

use crate::answer::Refusal;
use bus::{Bus, Fault, Width};
use hart::{Hart, Request, load_width};
use isa::instruction::Instruction;

#[derive(Drop)]
pub struct System<B: Bus> {
    pub(crate) hart: Hart,
    pub(crate) bus: B,
}

// What an instruction did that bears on words fetched earlier. `Nothing` is a case and no `None`, as in `Request`.
#[derive(Clone, Copy)]
pub enum Effect {
    Nothing,
    // A store that the bus took, at this address.
    Stored(u32),
    // FENCE.I.
    Cleared,
}

fn effect_of(address: u32, answer: Result<(), Fault>) -> Effect
    ensures { result ≡ effect_of address (numbered answer) }
{
    match answer {
        Ok(()) => Effect::Stored(address),
        Err(_) => Effect::Nothing,
    }
}

impl<B: Bus> System<B> {
    pub(crate) fn new(entry: u32, bus: B) -> Self
        ensures hart { result.hart ≡ fresh entry }
        ensures bus { result.bus ≡ bus }
    {
        System {
            hart: Hart::new(entry),
            bus,
        }
    }

    // Reads the lines into mip; whether an interrupt was taken.
    pub(crate) fn interrupted(&mut self) -> bool
        ensures hart { latched (B.kind.lines (B.meaning self.old.bus)) self.old.hart ≡ (result, self.new.hart) }
        ensures bus { B.meaning self.new.bus ≡ B.meaning self.old.bus }
        ensures invariant { Invariant self.new.hart }
    {
        self.hart.latch(self.bus.lines())
    }

    // Executes an instruction, its access of the bus included. The word stands beside it as in `Hart::begin`.
    pub(crate) fn perform(&mut self, word: u32, i: Instruction) -> Effect
        ensures state { act B.kind (begun word i self.old.hart) (B.meaning self.old.bus) ≡ acted self.new.hart (B.meaning self.new.bus) result }
        ensures invariant { Invariant self.new.hart }
    {
        match self.hart.begin(word, i) {
            Request::Nothing => Effect::Nothing,
            Request::Fence => Effect::Cleared,
            Request::Load { op, rd, address } => {
                let answer = self.bus.load(address, load_width(op));
                self.hart.end_load(op, rd, address, answer);
                Effect::Nothing
            }
            Request::Store {
                width,
                address,
                value,
            } => {
                let answer = self.bus.store(address, width, value);
                self.hart.end_store(address, answer);
                effect_of(address, answer)
            }
        }
    }

    // Stores a word.
    pub(crate) fn poke(&mut self, address: u32, value: u32) -> Result<(), Refusal>
        ensures value { told result ≡ (poked B.kind (B.meaning self.old.bus) address value).value }
        ensures next { B.meaning self.new.bus ≡ (poked B.kind (B.meaning self.old.bus) address value).next }
        ensures hart { self.new.hart ≡ self.old.hart }
    {
        if address % 4 != 0 {
            return Err(Refusal::Misaligned);
        }
        self.bus.store(address, Width::Word, value)?;
        Ok(())
    }

    // Passes a byte to the bus.
    pub(crate) fn feed(&mut self, byte: u8) -> Result<(), Refusal>
        ensures value { told result ≡ (fed B.kind (B.meaning self.old.bus) byte).value }
        ensures next { B.meaning self.new.bus ≡ (fed B.kind (B.meaning self.old.bus) byte).next }
        ensures hart { self.new.hart ≡ self.old.hart }
    {
        self.bus.feed(byte)?;
        Ok(())
    }
}
