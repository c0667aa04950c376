ghost use Rattle.bus.specs.Kind.{Kind, Rules};
ghost use Rattle.bus.specs.Numbers.{numbered};
ghost use Rattle.std.specs.Prelude.{◌≡◌};

use crate::access::{Fault, FeedRefusal, Lines, Width};

// What a bus holds is its meaning. Each call's answer, and the meaning after it, are those of its kind. No call has a default body:
// it could not meet a clause that cites the implementation's kind.
pub trait Bus {
    ghost kind: { Kind };

    ghost meaning: { Self → kind.Meaning };

    // The word at an address, as code.
    fn fetch(&self, address: u32) -> Result<u32, Fault>
        ensures { numbered result ≡ kind.fetch (meaning self.now) address };

    // The bytes from an address on, the first one lowest. An address and a width stay two parameters: a struct of both would be
    // built at each call and taken apart in it.
    fn load(&mut self, address: u32, width: Width) -> Result<u32, Fault>
        ensures value { numbered result ≡ (kind.load (meaning self.old) address width).value }
        ensures next { meaning self.new ≡ (kind.load (meaning self.old) address width).next };

    // Stores the low bytes of `value`, as many as the width says.
    fn store(&mut self, address: u32, width: Width, value: u32) -> Result<(), Fault>
        ensures value { numbered result ≡ (kind.store (meaning self.old) address width value).value }
        ensures next { meaning self.new ≡ (kind.store (meaning self.old) address width value).next };

    // One step of time.
    fn tick(&mut self)
        ensures { meaning self.new ≡ kind.tick (meaning self.old) };

    // The interrupt lines as they stand.
    fn lines(&self) -> Lines
        ensures { result ≡ kind.lines (meaning self.now) };

    // Whether the word at an address changes by stores alone.
    fn steady(&self, address: u32) -> bool
        ensures { result ≡ kind.steady (meaning self.now) address };

    // Hands a byte to the receiver.
    fn feed(&mut self, byte: u8) -> Result<(), FeedRefusal>
        ensures value { result ≡ (kind.feed (meaning self.old) byte).value }
        ensures next { meaning self.new ≡ (kind.feed (meaning self.old) byte).next };

    // The byte sent out as number `index`, from 0.
    fn sent(&self, index: usize) -> Option<u8>
        ensures { result ≡ kind.sent (meaning self.now) index };

    ghost rules: { Rules kind };
}
