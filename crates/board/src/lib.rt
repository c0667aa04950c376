// The board that the bench runs firmware on.
#![tactic(auto)]

ghost use Rattle.board.specs.Board.{fresh_board, zeros};
ghost use Rattle.std.specs.Prelude.{◌≡◌, IfOk};

use bus::{Bus, Split};
use devices::{Clint, Ram, Uart};
use std::alloc::{AllocError, Global};

// The CLINT below 0x10000000; from there the UART, and from 0x80000000 the RAM.
pub type Board = Split<Clint, Split<Uart, Ram>>;

const UART_FROM: u32 = 0x1000_0000;

const RAM_FROM: u32 = 0x8000_0000;

const RAM_BYTES: usize = 65_536;

const CONSOLE_BYTES: usize = 4_096;

#[tactic(auto, unfolding(crate::specs::Board::zeros))]
fn zeroed(heap: Global, n: usize) -> Result<Vec<u8>, AllocError>
    ensures { IfOk result (λ v. v.items ≡ zeros n) }
{
    vec![in heap; 0u8; n]
}

// A board as it is when switched on: 64 KiB of RAM, all zeros, and room for 4,096 sent bytes.
pub fn fresh_board(heap: Global) -> Result<Board, AllocError>
    ensures { IfOk result (λ b. ⟦<Board as Bus>⟧.meaning b ≡ fresh_board) }
{
    let memory = zeroed(heap, RAM_BYTES)?;
    let uart = Uart::new(heap, CONSOLE_BYTES)?;
    let high = Split::new(uart, Ram::new(RAM_FROM, memory), RAM_FROM);
    Ok(Split::new(Clint::new(), high, UART_FROM))
}
