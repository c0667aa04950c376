ghost use Rattle.bus.specs.Numbers.{numbered};
ghost use Rattle.bus.specs.declared.access.Device.TheVariants.{Uart as UartDevice};
ghost use Rattle.devices.specs.Device.{faulted};
ghost use Rattle.devices.specs.Receiver.{seen};
ghost use Rattle.devices.specs.Uart.{fresh, identification, line_status, loaded, raised, register_for, register_of, stored, uart};
ghost use Rattle.std.specs.Prelude.{◌≡◌, IfOk};
ghost use Rattle.std.proofs.Common.{rules};

use super::register::{Register, register_at};
use super::{Receiver, Registers, Transmitter, Uart};
use crate::refusal::fault;
use bus::{Bus, Cause, Device, Fault, FeedRefusal, Lines, Width};
use std::alloc::{AllocError, Global};

impl Uart {
    // A port that keeps the first `room` bytes sent. Its memory is allocated here, and none later.
    pub fn new(heap: Global, room: usize) -> Result<Self, AllocError>
        ensures { IfOk result (λ u. u ≡ fresh room) }
    {
        let receiver = Receiver::new(heap)?;
        let transmitter = Transmitter::new(heap, room)?;
        Ok(Uart {
            receiver,
            transmitter,
            registers: Registers::default(),
        })
    }

    // The bytes sent, in their order.
    pub fn into_console(self) -> Vec<u8>
        ensures { result.items ≡ self.transmitter.console }
    {
        let Uart {
            receiver: _,
            transmitter,
            registers: _,
        } = self;
        transmitter.into_console()
    }

    // Whether the external line is up: a byte waits, and its interrupt is enabled.
    fn raised(&self) -> bool
        ensures { result ≡ raised self.now }
    {
        self.receiver.waits() && self.registers.interrupt_enable % 2 == 1
    }

    fn identification(&self) -> u8
        ensures { result ≡ identification self.now }
    {
        let id = if self.raised() { 4 } else { 1 };
        id + 0xc0 * u8::from(self.receiver.has_fifo())
    }

    fn line_status(&mut self) -> u8
        ensures value { result ≡ line_status self.old }
        ensures next { self.new ≡ record self.old { receiver = seen self.old.receiver } }
    {
        let waits = u8::from(self.receiver.waits());
        let overrun = u8::from(self.receiver.take_overrun());
        let has_room = u8::from(self.transmitter.has_room());
        waits + 2 * overrun + 0x60 * has_room
    }

    fn read(&mut self, register: Register) -> u8
        ensures value { result ≡ (loaded self.old register).value }
        ensures next { self.new ≡ (loaded self.old register).next }
    {
        match register {
            Register::Data => self.receiver.take(),
            Register::InterruptEnable => self.registers.interrupt_enable,
            Register::DivisorLow => self.registers.divisor_low,
            Register::DivisorHigh => self.registers.divisor_high,
            Register::Identification => self.identification(),
            Register::LineControl => self.registers.line_control,
            Register::ModemControl => self.registers.modem_control,
            Register::LineStatus => self.line_status(),
            Register::ModemStatus => 0,
            Register::Scratch => self.registers.scratch,
        }
    }

    fn write(&mut self, register: Register, byte: u8)
        ensures { self.new ≡ stored self.old register byte }
    {
        match register {
            Register::Data => self.transmitter.send(byte),
            Register::InterruptEnable => self.registers.interrupt_enable = byte % 16,
            Register::DivisorLow => self.registers.divisor_low = byte,
            Register::DivisorHigh => self.registers.divisor_high = byte,
            Register::Identification => self.receiver.control(byte),
            Register::LineControl => self.registers.line_control = byte,
            Register::ModemControl => self.registers.modem_control = byte,
            Register::LineStatus | Register::ModemStatus => {}
            Register::Scratch => self.registers.scratch = byte,
        }
    }

    // Bit 7 of the line control register opens the divisor latch.
    fn register_of(&self, address: u32) -> Result<Register, Fault>
        ensures { numbered result ≡ faulted UartDevice address (register_of self.now address) }
    {
        register_at(self.registers.line_control >= 128, address).ok_or(fault(
            Device::Uart,
            address,
            Cause::Unmapped,
        ))
    }

    fn register_for(&self, address: u32, width: Width) -> Result<Register, Fault>
        ensures { numbered result ≡ faulted UartDevice address (register_for self.now address width) }
    {
        match width {
            Width::Byte => self.register_of(address),
            Width::Half | Width::Word => Err(fault(Device::Uart, address, Cause::Malformed)),
        }
    }
}

impl Bus for Uart {
    ghost kind = { uart };

    ghost meaning = { λ u. u };

    ghost rules = { Prim.search rules };

    fn fetch(&self, address: u32) -> Result<u32, Fault> {
        if address % 4 != 0 {
            return Err(fault(Device::Uart, address, Cause::Malformed));
        }
        self.register_of(address)?;
        Err(fault(Device::Uart, address, Cause::NoCode))
    }

    fn load(&mut self, address: u32, width: Width) -> Result<u32, Fault> {
        let register = self.register_for(address, width)?;
        Ok(u32::from(self.read(register)))
    }

    fn store(&mut self, address: u32, width: Width, value: u32) -> Result<(), Fault> {
        let register = self.register_for(address, width)?;
        self.write(register, (value % 256) as u8);
        Ok(())
    }

    fn tick(&mut self) {}

    fn lines(&self) -> Lines {
        Lines {
            software: false,
            timer: false,
            external: self.raised(),
        }
    }

    fn steady(&self, _address: u32) -> bool {
        false
    }

    fn feed(&mut self, byte: u8) -> Result<(), FeedRefusal> {
        self.receiver.receive(byte)
    }

    fn sent(&self, index: usize) -> Option<u8> {
        self.transmitter.sent(index)
    }
}
