// Making a hart, its registers, and the questions for them.
ghost use Rattle.std.specs.Prelude.{◌≡◌, ◌%◌, Ok, slice_index};
ghost use Rattle.hart.specs.Refusals.{register_told};
ghost use Rattle.hart.specs.State.{Invariant, fresh, go_to, next, put, read, register_answer, trap_numbers};

use crate::control::Control;
use crate::hart::{Hart, Trap};
use crate::refusal::RegisterRefusal;

impl Hart {
    // A hart that starts at `entry`, whose low two bits are dropped.
    pub fn new(entry: u32) -> Self
        ensures state { result ≡ fresh entry }
        ensures invariant { Invariant result }
    {
        Hart {
            pc: entry / 4 * 4,
            x: [0; 32],
            control: Control::default(),
            trap: None,
        }
    }

    pub fn pc(&self) -> u32
        ensures value { result ≡ self.now.pc }
        ensures aligned { result % 4 ≡ 0 }
        ensures invariant { Invariant self.now }
    {
        self.pc
    }

    pub fn register(&self, i: u32) -> Result<u32, RegisterRefusal>
        ensures answer { register_told result ≡ register_answer i self.now }
        ensures zero { i ≡ 0 → register_told result ≡ Ok 0 }
        ensures invariant { Invariant self.now }
    {
        self.x
            .get(i as usize)
            .copied()
            .ok_or(RegisterRefusal::NoSuchRegister)
    }

    // All 32 registers, x0 first.
    pub fn registers(&self) -> [u32; 32]
        ensures value { result ≡ self.now.x }
        ensures zero { slice_index result 0 ≡ 0 }
        ensures invariant { Invariant self.now }
    {
        self.x
    }

    // The record of the last trap, if there was one.
    pub fn trap(&self) -> Option<Trap>
        ensures value { trap_numbers result ≡ self.now.trap }
        ensures invariant { Invariant self.now }
    {
        self.trap
    }

    // The register that five bits of an instruction name.
    pub(crate) fn get(&self, i: u8) -> u32
        ensures { result ≡ read self.now i }
    {
        self.x[usize::from(i % 32)]
    }

    // Writes that register, unless it is x0.
    pub(crate) fn set(&mut self, i: u8, value: u32)
        ensures { self.new ≡ put i value self.old }
    {
        let i = i % 32;
        if i != 0 {
            self.x[usize::from(i)] = value;
        }
    }

    pub(crate) fn advance(&mut self)
        ensures { self.new ≡ next self.old }
    {
        self.pc = self.pc.wrapping_add(4);
    }

    pub(crate) fn jump(&mut self, target: u32)
        requires { target % 4 ≡ 0 }
        ensures { self.new ≡ go_to target self.old }
    {
        self.pc = target;
    }
}
