// Laws of the buses and devices. Nothing happens at run time: the contract of each function is the law that it names.
#![tactic(auto)]

ghost use Rattle.std.specs.Prelude.{ℕ};
ghost use Rattle.device_laws.specs.Memories.{LastStored, MemoriesServe, NothingElseMoves, RomNeverChanges};
ghost use Rattle.device_laws.specs.SerialPort.{FirstInFirstOut, FreshPort, OverrunMarks, PortRegisters, RoomTakes, Sent, SentInOrder, UartRefuses};
ghost use Rattle.device_laws.specs.Splits.{Both, PassesOn, Shares};
ghost use Rattle.device_laws.specs.Timers.{ClintRefuses, FreshClock, LinesFollow, RegistersKeep, TicksCount};
ghost use Rattle.devices.specs.declared.clint.Clint.{Clint};
ghost use Rattle.devices.specs.declared.uart.Uart.{Uart};

use bus::Bus;

// RAM answers what was last stored, and a store moves nothing else.
#[tactic(auto, using(crate::proofs::Memories::last_stored, crate::proofs::Memories::nothing_else_moves))]
pub fn ram_keeps_what_was_stored()
    ensures stored { LastStored }
    ensures elsewhere { NothingElseMoves }
{}

// No list of calls changes a ROM.
#[tactic(auto, using(crate::proofs::Memories::rom_stays))]
pub fn rom_never_changes()
    ensures { RomNeverChanges }
{}

// Which accesses RAM and ROM serve, and how they refuse the others.
pub fn memories_serve_whole_words()
    ensures { MemoriesServe }
{}

// Bytes are loaded in the order in which they were taken, 16 or 1 of them at a time, and the next is lost and marked.
#[tactic(auto, using(crate::proofs::SerialPort::first_in_first_out, crate::proofs::SerialPort::room_takes, crate::proofs::SerialPort::overrun_marks))]
pub fn uart_receives_in_order()
    ensures order { FirstInFirstOut }
    ensures room { RoomTakes }
    ensures overrun { OverrunMarks }
{}

// Sent bytes stand in the order sent, up to the console's room.
#[tactic(auto, using(crate::proofs::SerialPort::sent_in_order))]
pub fn uart_sends_in_order()
    ensures order { SentInOrder }
    ensures numbers { (m : Uart) (i : ℕ) → Sent m i }
{}

// What each register of the UART reads and does, and what a fresh one reads.
pub fn uart_registers()
    ensures registers { PortRegisters }
    ensures fresh { (n : ℕ) → FreshPort n }
    ensures refuses { UartRefuses }
{}

// n ticks move the clock by n modulo 2^64.
#[tactic(auto, using(crate::proofs::Timers::ticks_count))]
pub fn clint_counts_ticks()
    ensures { TicksCount }
{}

// What each register of the CLINT reads and keeps, and how its lines follow.
pub fn clint_registers()
    ensures lines { (t : Clint) → LinesFollow t }
    ensures registers { RegistersKeep }
    ensures fresh { FreshClock }
    ensures refuses { ClintRefuses }
{}

// A split passes each access to one side, its fault one deeper, and leaves the other side.
pub fn splits_pass_on<L: Bus, H: Bus>()
    ensures accesses { PassesOn L.Bus.kind H.Bus.kind }
    ensures shares { (m : Both L.Bus.kind H.Bus.kind) → Shares L.Bus.kind H.Bus.kind m }
{}
