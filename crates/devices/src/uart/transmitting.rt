ghost use Rattle.devices.specs.Transmitter.{has_room, sending, sent_at, sent_on};
ghost use Rattle.std.specs.Prelude.{◌≡◌, [], IfOk};

use super::Transmitter;
use std::alloc::{AllocError, Global};

impl Transmitter {
    pub(crate) fn new(heap: Global, room: usize) -> Result<Self, AllocError>
        ensures { IfOk result (λ x. x ≡ sending [] room) }
    {
        let console = Vec::with_capacity(heap, room)?;
        Ok(Transmitter { console })
    }

    pub(crate) fn has_room(&self) -> bool
        ensures { result ≡ has_room self.now }
    {
        self.console.len() < self.console.capacity()
    }

    // Sends a byte to the console, or loses it where that is full.
    pub(crate) fn send(&mut self, byte: u8)
        ensures { self.new ≡ sent_on self.old byte }
    {
        if self.has_room() {
            self.console.push_reserved(byte);
        }
    }

    pub(crate) fn sent(&self, index: usize) -> Option<u8>
        ensures { result ≡ sent_at self.now index }
    {
        self.console.get(index).copied()
    }

    pub(crate) fn into_console(self) -> Vec<u8>
        ensures { result.items ≡ self.console }
    {
        let Transmitter { console } = self;
        console
    }
}
