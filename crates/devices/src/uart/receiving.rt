ghost use Rattle.devices.specs.Receiver.{fed, idle, oldest, oldest_taken, seen, switched, waits};
ghost use Rattle.std.specs.Prelude.{◌≡◌, IfOk};

use super::Receiver;
use bus::FeedRefusal;
use std::alloc::{AllocError, Global};
use std::collections::VecDeque;
use std::mem;

const QUEUE: usize = 16;

impl Receiver {
    pub(crate) fn new(heap: Global) -> Result<Self, AllocError>
        ensures { IfOk result (λ x. x ≡ idle) }
    {
        let queue = VecDeque::with_capacity(heap, QUEUE)?;
        Ok(Receiver {
            queue,
            fifo: false,
            overrun: false,
        })
    }

    pub(crate) fn waits(&self) -> bool
        ensures { result ≡ waits self.now }
    {
        !self.queue.is_empty()
    }

    pub(crate) fn has_fifo(&self) -> bool
        ensures { result ≡ self.now.fifo }
    {
        self.fifo
    }

    // Queues a byte, or loses it where the queue is full, and marks that.
    pub(crate) fn receive(&mut self, byte: u8) -> Result<(), FeedRefusal>
        ensures value { result ≡ (fed self.old byte).value }
        ensures next { self.new ≡ (fed self.old byte).next }
    {
        let depth = if self.fifo { QUEUE } else { 1 };
        if self.queue.len() >= depth {
            self.overrun = true;
            return Err(FeedRefusal::Overrun);
        }
        self.queue.push_back_reserved(byte);
        Ok(())
    }

    // The oldest byte that waits, or 0.
    pub(crate) fn take(&mut self) -> u8
        ensures value { result ≡ oldest self.old }
        ensures next { self.new ≡ oldest_taken self.old }
    {
        self.queue.pop_front().unwrap_or(0)
    }

    // Whether a byte was lost since this was last asked.
    pub(crate) fn take_overrun(&mut self) -> bool
        ensures value { result ≡ self.old.overrun }
        ensures next { self.new ≡ seen self.old }
    {
        mem::take(&mut self.overrun)
    }

    // Bit 0 is the queue's switch: a change of it empties the queue, and so does bit 1 together with it.
    pub(crate) fn control(&mut self, byte: u8)
        ensures { self.new ≡ switched self.old byte }
    {
        let on = byte % 2 == 1;
        let clear = byte / 2 % 2 == 1;
        if on != self.fifo || (on && clear) {
            self.queue.clear();
        }
        self.fifo = on;
    }
}
