ghost use Rattle.devices.specs.Memory.{memory};
ghost use Rattle.devices.specs.MemoryRules.{memory-rules};

use super::{Access, Memory};
use bus::{Bus, Fault, FeedRefusal, Lines, Width};

impl<A: Access> Bus for Memory<A> {
    ghost kind = { memory A.DEVICE A.WRITABLE };

    ghost meaning = { λ m. m };

    ghost rules = { memory-rules A.DEVICE A.WRITABLE };

    fn fetch(&self, address: u32) -> Result<u32, Fault> {
        self.read(address, Width::Word)
    }

    fn load(&mut self, address: u32, width: Width) -> Result<u32, Fault> {
        self.read(address, width)
    }

    fn store(&mut self, address: u32, width: Width, value: u32) -> Result<(), Fault> {
        self.write(address, width, value)
    }

    fn tick(&mut self) {}

    fn lines(&self) -> Lines {
        Lines::DOWN
    }

    // Every served word is steady.
    fn steady(&self, address: u32) -> bool {
        self.has_word(address)
    }

    fn feed(&mut self, _byte: u8) -> Result<(), FeedRefusal> {
        Err(FeedRefusal::NoReceiver)
    }

    fn sent(&self, _index: usize) -> Option<u8> {
        None
    }
}
