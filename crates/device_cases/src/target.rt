use crate::script::{Call, Make};
use bus::{Bus, Fault, FeedRefusal, Lines, Split, feed_number};
use devices::{Clint, Ram, Rom, Uart};
use std::alloc::{AllocError, Global};
use std::io;

// CLINT below 0x10000000, UART below 0x80000000, RAM above. A board of its own, so small that a script meets every bound.
pub type Board = Split<Clint, Split<Uart, Ram>>;

// The bus that calls are made on: an enum, since a boxed `Bus` could not be made here and handed on.
#[derive(Drop)]
pub enum Target {
    Ram(Ram),
    Rom(Rom),
    Uart(Uart),
    Clint(Clint),
    Board(Board),
}

// Bytes 1, 2, 3 and on.
fn counted(heap: Global, len: u32) -> Result<Vec<u8>, AllocError> {
    (1..=len).map(|i| (i % 256) as u8).collect(heap)
}

fn new_board(heap: Global) -> Result<Board, AllocError> {
    let uart = Uart::new(heap, 4)?;
    let ram = Ram::new(0x8000_0000, counted(heap, 16)?);
    Ok(Split::new(
        Clint::new(),
        Split::new(uart, ram, 0x8000_0000),
        0x1000_0000,
    ))
}

impl Target {
    pub(crate) fn new(heap: Global, make: Make) -> Result<Target, AllocError> {
        match make {
            Make::Ram(base, len) => Ok(Target::Ram(Ram::new(base, counted(heap, len)?))),
            Make::Rom(base, len) => Ok(Target::Rom(Rom::new(base, counted(heap, len)?))),
            Make::Uart(room) => Ok(Target::Uart(Uart::new(heap, room as usize)?)),
            Make::Clint => Ok(Target::Clint(Clint::new())),
            Make::Board => Ok(Target::Board(new_board(heap)?)),
        }
    }

    // The bytes that the bus hands back at its end.
    pub(crate) fn into_bytes(self, heap: Global) -> Vec<u8> {
        match self {
            Target::Ram(ram) => ram.into_bytes(),
            Target::Rom(rom) => rom.into_bytes(),
            Target::Uart(uart) => uart.into_console(),
            Target::Board(board) => {
                let (_, rest) = board.into_parts();
                let (_, ram) = rest.into_parts();
                ram.into_bytes()
            }
            Target::Clint(_) => Vec::new(heap),
        }
    }

    pub(crate) fn call(&mut self, rt: &impl Print, call: Call) -> io::Result<()> {
        match self {
            Target::Ram(ram) => make_call(rt, ram, call),
            Target::Rom(rom) => make_call(rt, rom, call),
            Target::Uart(uart) => make_call(rt, uart, call),
            Target::Clint(clint) => make_call(rt, clint, call),
            Target::Board(board) => make_call(rt, board, call),
        }
    }
}

// Functions and no `Display`: the types are of other crates, and the text is this script's.
fn show_word(rt: &impl Print, answer: Result<u32, Fault>) -> io::Result<()> {
    match answer {
        Ok(word) => println!(rt; "word {word:08x}"),
        Err(fault) => println!(rt; "fault cause {fault}"),
    }
}

fn show_lines(rt: &impl Print, lines: Lines) -> io::Result<()> {
    let software = u8::from(lines.software);
    let timer = u8::from(lines.timer);
    let external = u8::from(lines.external);
    println!(rt; "lines software {software} timer {timer} external {external}")
}

fn show_feed(rt: &impl Print, answer: Result<(), FeedRefusal>) -> io::Result<()> {
    let number = feed_number(answer);
    match answer {
        Ok(()) => println!(rt; "taken {number}"),
        Err(FeedRefusal::Overrun) => println!(rt; "overrun {number}"),
        Err(FeedRefusal::NoReceiver) => println!(rt; "no receiver {number}"),
    }
}

// Makes a call, and prints its answer.
fn make_call<B: Bus>(rt: &impl Print, bus: &mut B, call: Call) -> io::Result<()> {
    match call {
        Call::Fetch(address) => show_word(rt, bus.fetch(address)),
        Call::Load(address, width) => show_word(rt, bus.load(address, width)),
        Call::Store(address, width, value) => match bus.store(address, width, value) {
            Ok(()) => println!(rt; "done"),
            Err(fault) => println!(rt; "fault cause {fault}"),
        },
        Call::Tick(count) => {
            for _ in 0..count {
                bus.tick();
            }
            println!(rt; "done")
        }
        Call::Lines => show_lines(rt, bus.lines()),
        Call::Steady(address) => {
            let answer = if bus.steady(address) { "yes" } else { "no" };
            println!(rt; "{answer}")
        }
        Call::Feed(byte) => show_feed(rt, bus.feed(byte)),
        Call::Sent(index) => match bus.sent(index as usize) {
            Some(byte) => println!(rt; "byte {byte:02x}"),
            None => println!(rt; "none"),
        },
    }
}
