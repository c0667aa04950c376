// A hart: what an instruction changes.
use crate::control::Control;
use bus::Fault;
use std::marker::Model;

mod execute;
mod registers;
mod trapping;

// The record of a trap: what it saved, and the fault of the bus if one caused it. It holds no `Saved`: whoever asks for a trap
// reads `trap.mcause`.
#[derive(Clone, Copy)]
pub struct Trap {
    pub mcause: u32,
    pub mepc: u32,
    pub mtval: u32,
    pub fault: Option<Fault>,
}

#[derive(Drop)]
pub struct Hart {
    pc: u32,
    x: [u32; 32],
    control: Control,
    trap: Option<Trap>,
}

// A contract sees what a hart holds. x0 is 0, and pc is a multiple of 4.
impl Model for Hart {
    ghost use Rattle.hart.specs.State.{State, trap_numbers};
    ghost use Rattle.std.specs.Prelude.{◌≡◌, ◌%◌, slice_index};

    ghost Value = { State };

    ghost view = { λ h. record { pc = h.pc; x = h.x; control = h.control; trap = trap_numbers h.trap } };

    ghost invariant = { λ h. (slice_index h.x 0 ≡ 0) × (h.pc % 4 ≡ 0) };
}
