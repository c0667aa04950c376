// The plain machine: every word is fetched.
ghost use Rattle.std.specs.Prelude.{◌≡◌, ◌%◌, ◌≤◌, Ok, slice_index};
ghost use Rattle.hart.specs.Refusals.{register_told};
ghost use Rattle.hart.specs.State.{Invariant, register_answer, trap_numbers};
ghost use Rattle.isa.specs.Alu.{flag};
ghost use Rattle.machine.specs.Events.{fetches};
ghost use Rattle.machine.specs.Numbers.{run_numbers, run_told, told};
ghost use Rattle.machine.specs.Runs.{run, run_of};

use crate::answer::{End, Fetched, Refusal, Run};
use crate::system::System;
use bus::Bus;
use hart::{RegisterRefusal, Trap};
use isa::decode::decode;

// No `Model`: its value would be made from `B.kind`, and a model's value cannot use a bound's members.
#[derive(Drop)]
pub struct Plain<B: Bus> {
    system: System<B>,
    ghost invariant: { Invariant system.hart },
}

impl<B: Bus> Plain<B> {
    ghost use Rattle.machine.specs.PlainSteps.{fetched_in, pc_of, plain_feed, plain_flush, plain_fresh, plain_instruction, plain_of, plain_poke, plain_run, plain_step};

    // A machine whose hart starts at `entry`, low two bits dropped.
    pub fn new(entry: u32, bus: B) -> Self
        ensures fresh { plain_of B.meaning result ≡ plain_fresh entry (B.meaning bus) }
        ensures holds { result.system.bus ≡ bus }
    {
        Plain {
            system: System::new(entry, bus),
        }
    }

    // Fetches the word at pc, decodes and executes it; whether it came.
    #[tactic(auto, unfolding(crate::specs::PlainSteps::plain_instruction))]
    fn instruction(&mut self) -> bool
        ensures next { plain_of B.meaning self.new ≡ (plain_instruction B.kind (plain_of B.meaning self.old)).next }
        ensures count { fetches (plain_instruction B.kind (plain_of B.meaning self.old)).events ≡ flag result }
    {
        match self.system.bus.fetch(self.system.hart.pc()) {
            Ok(word) => {
                self.system.perform(word, decode(word));
                true
            }
            Err(fault) => {
                self.system.hart.fail_fetch(fault);
                false
            }
        }
    }

    // One step; whether a word was fetched in it.
    #[tactic(auto, unfolding(crate::specs::PlainSteps::plain_step))]
    fn step(&mut self) -> bool
        ensures next { plain_of B.meaning self.new ≡ (plain_step B.kind (plain_of B.meaning self.old)).next }
        ensures count { fetches (plain_step B.kind (plain_of B.meaning self.old)).events ≡ flag result }
    {
        let fetched = !self.system.interrupted() && self.instruction();
        self.system.bus.tick();
        fetched
    }

    // Steps until the budget is used or pc is the stop address. The loop counts, since `steps` is the answer.
    fn go(&mut self, budget: u32, stop: u32) -> Run<Fetched>
        requires { budget ≤ 1000000 }
        ensures answer { run_numbers result ≡ run_of fetched_in (run pc_of (plain_step B.kind) budget stop (plain_of B.meaning self.old)) }
        ensures next { plain_of B.meaning self.new ≡ (run pc_of (plain_step B.kind) budget stop (plain_of B.meaning self.old)).next }
    {
        let mut fetched = 0;
        for steps in 0..budget {
            let stopped = self.system.hart.pc() == stop;
            if stopped {
                return Run {
                    end: End::Stopped,
                    steps,
                    words: Fetched { fetched },
                };
            }
            fetched += u32::from(self.step());
        }
        Run {
            end: End::BudgetUsed,
            steps: budget,
            words: Fetched { fetched },
        }
    }

    // The stop is an address and no `Option`: one off a multiple of 4 is never met.
    pub fn run(&mut self, budget: u32, stop: u32) -> Result<Run<Fetched>, Refusal>
        ensures answer { run_told result ≡ (plain_run B.kind (plain_of B.meaning self.old) budget stop).answer }
        ensures next { plain_of B.meaning self.new ≡ (plain_run B.kind (plain_of B.meaning self.old) budget stop).state }
    {
        if budget > 1_000_000 {
            return Err(Refusal::Budget);
        }
        Ok(self.go(budget, stop))
    }

    // Passes a byte to the bus.
    pub fn feed(&mut self, byte: u8) -> Result<(), Refusal>
        ensures answer { told result ≡ (plain_feed B.kind (plain_of B.meaning self.old) byte).answer }
        ensures next { plain_of B.meaning self.new ≡ (plain_feed B.kind (plain_of B.meaning self.old) byte).state }
    {
        self.system.feed(byte)
    }

    // Stores a word.
    pub fn poke(&mut self, address: u32, value: u32) -> Result<(), Refusal>
        ensures answer { told result ≡ (plain_poke B.kind (plain_of B.meaning self.old) address value).answer }
        ensures next { plain_of B.meaning self.new ≡ (plain_poke B.kind (plain_of B.meaning self.old) address value).state }
    {
        self.system.poke(address, value)
    }

    // Does nothing: this machine keeps no word.
    pub fn flush(&mut self)
        ensures { plain_of B.meaning self.new ≡ (plain_flush (plain_of B.meaning self.old)).state }
    {}

    pub fn register(&self, i: u32) -> Result<u32, RegisterRefusal>
        ensures answer { register_told result ≡ register_answer i (plain_of B.meaning self.now).hart }
        ensures zero { i ≡ 0 → register_told result ≡ Ok 0 }
    {
        self.system.hart.register(i)
    }

    // All 32 registers, x0 first.
    pub fn registers(&self) -> [u32; 32]
        ensures value { result ≡ (plain_of B.meaning self.now).hart.x }
        ensures zero { slice_index result 0 ≡ 0 }
    {
        self.system.hart.registers()
    }

    pub fn pc(&self) -> u32
        ensures value { result ≡ (plain_of B.meaning self.now).hart.pc }
        ensures aligned { result % 4 ≡ 0 }
    {
        self.system.hart.pc()
    }

    // The record of the last trap, if there was one.
    pub fn trap(&self) -> Option<Trap>
        ensures { trap_numbers result ≡ (plain_of B.meaning self.now).hart.trap }
    {
        self.system.hart.trap()
    }

    // The byte that the bus sent out as number `index`, from 0.
    pub fn sent(&self, index: usize) -> Option<u8>
        ensures { result ≡ B.kind.sent (plain_of B.meaning self.now).meaning index }
    {
        self.system.bus.sent(index)
    }

    // Hands the bus back.
    pub fn end(self) -> B
        ensures { result ≡ self.system.bus }
    {
        let Plain { system } = self;
        let System { hart: _, bus } = system;
        bus
    }
}
