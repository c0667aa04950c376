mod port;
mod receiving;
mod register;
mod transmitting;

ghost use Rattle.std.specs.Prelude.{◌≤◌, vec_capacity};
ghost use Rattle.std.specs.VecDeque.{deque_capacity};
ghost use Rattle.devices.specs.Receiver.{Receiving, receiving};
ghost use Rattle.devices.specs.Transmitter.{Sending, sending};

use std::collections::VecDeque;
use std::marker::Model;

// A serial port in the manner of the 16550: bytes come in by a queue and go out to a console.
#[derive(Drop)]
pub struct Uart {
    receiver: Receiver,
    transmitter: Transmitter,
    registers: Registers,
}

// The bytes that wait, the switch that makes room for 16 of them in place of 1, and the mark of a lost byte.
#[derive(Drop)]
pub(crate) struct Receiver {
    queue: VecDeque<u8>,
    fifo: bool,
    overrun: bool,
}

impl Model for Receiver {
    ghost Value = { Receiving };

    ghost view = { λ r. receiving r.queue.items r.fifo r.overrun };

    ghost invariant = { λ r. 16 ≤ deque_capacity r.queue };
}

// The bytes sent, in memory that was reserved for as many as there is room for.
#[derive(Drop)]
pub(crate) struct Transmitter {
    console: Vec<u8>,
}

impl Model for Transmitter {
    ghost Value = { Sending };

    ghost view = { λ t. sending t.console.items (vec_capacity t.console) };
}

// The registers that only keep what is stored in them.
#[derive(Default, Drop)]
pub(crate) struct Registers {
    interrupt_enable: u8,
    divisor_low: u8,
    divisor_high: u8,
    line_control: u8,
    modem_control: u8,
    scratch: u8,
}
