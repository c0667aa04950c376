// The devices of a board: RAM, ROM, a serial port and a timer. Each is a bus.
#![tactic(auto)]

mod clint;
mod memory;
mod refusal;
mod uart;

pub use clint::Clint;
pub use memory::{Access, Memory, Ram, ReadOnly, Rom, Writable};
pub use uart::Uart;
