ghost use Rattle.std.specs.Prelude.{◌≡◌, ◌%◌, nat_lt};
ghost use Rattle.bus.specs.Kind.{word_of};
ghost use Rattle.bus.specs.Numbers.{numbered};
ghost use Rattle.bus.specs.Split.{halves, passed, split};
ghost use Rattle.bus.specs.SplitRules.{split-rules};

use crate::access::{Fault, FeedRefusal, Lines, Width};
use crate::bus::Bus;

// Two buses side by side: the addresses below `at` are the low one's, the rest the high one's.
#[derive(Drop)]
pub struct Split<L: Bus, H: Bus> {
    low: L,
    high: H,
    at: u32,
    ghost aligned: { at % 4 ≡ 0 },
}

impl<L: Bus, H: Bus> Split<L, H> {
    // The address is rounded down to a multiple of 4.
    pub fn new(low: L, high: H, at: u32) -> Self
        ensures { (result.low ≡ low) × (result.high ≡ high) × (result.at ≡ word_of at) }
    {
        Split {
            low,
            high,
            at: at / 4 * 4,
        }
    }

    pub fn into_parts(self) -> (L, H)
        ensures { (result.0 ≡ self.low) × (result.1 ≡ self.high) }
    {
        let Split { low, high, at: _ } = self;
        (low, high)
    }

    fn is_low(&self, address: u32) -> bool
        ensures { result ≡ nat_lt address self.now.at }
    {
        address < self.at
    }
}

// A side's answer, its fault one deeper. Which side is chosen in each call: the two are of different types.
fn pass_on<R>(answer: Result<R, Fault>) -> Result<R, Fault>
    ensures { numbered result ≡ passed (numbered answer) }
{
    answer.map_err(|fault| fault.deeper())
}

impl<L: Bus, H: Bus> Bus for Split<L, H> {
    ghost kind = { split L.Bus.kind H.Bus.kind };

    ghost meaning = { λ s. halves (L.Bus.meaning s.low) (H.Bus.meaning s.high) s.at };

    ghost rules = { split-rules L.Bus.kind H.Bus.kind L.Bus.rules H.Bus.rules };

    fn fetch(&self, address: u32) -> Result<u32, Fault> {
        if self.is_low(address) {
            pass_on(self.low.fetch(address))
        } else {
            pass_on(self.high.fetch(address))
        }
    }

    fn load(&mut self, address: u32, width: Width) -> Result<u32, Fault> {
        if self.is_low(address) {
            pass_on(self.low.load(address, width))
        } else {
            pass_on(self.high.load(address, width))
        }
    }

    fn store(&mut self, address: u32, width: Width, value: u32) -> Result<(), Fault> {
        if self.is_low(address) {
            pass_on(self.low.store(address, width, value))
        } else {
            pass_on(self.high.store(address, width, value))
        }
    }

    fn tick(&mut self) {
        self.low.tick();
        self.high.tick();
    }

    fn lines(&self) -> Lines {
        let low = self.low.lines();
        let high = self.high.lines();
        Lines {
            software: low.software || high.software,
            timer: low.timer || high.timer,
            external: low.external || high.external,
        }
    }

    fn steady(&self, address: u32) -> bool {
        if self.is_low(address) {
            self.low.steady(address)
        } else {
            self.high.steady(address)
        }
    }

    // The high bus is fed only where the low one has no receiver.
    fn feed(&mut self, byte: u8) -> Result<(), FeedRefusal> {
        match self.low.feed(byte) {
            Err(FeedRefusal::NoReceiver) => self.high.feed(byte),
            answer => answer,
        }
    }

    // The high bus is asked only where the low one sent no such byte.
    fn sent(&self, index: usize) -> Option<u8> {
        self.low.sent(index).or_else(|| self.high.sent(index))
    }
}
