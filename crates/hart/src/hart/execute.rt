// What each instruction does to a hart.
ghost use Rattle.bus.specs.Numbers.{fault_numbers, numbered};
ghost use Rattle.hart.specs.Execute.{asked, asked_load, asked_store, asks, begun, branched, combined, csr_done, executed, goes, legal_if, linked, loaded, stored, unfetched, writes_always};
ghost use Rattle.hart.specs.State.{Invariant, next, plus, put, read};
ghost use Rattle.hart.specs.Traps.{returned};
ghost use Rattle.std.specs.Prelude.{◌≡◌, is_ok};

use crate::control_register::{ControlRefusal, ControlRegister};
use crate::exception::Exception;
use crate::hart::Hart;
use crate::request::Request;
use crate::width::{load_value, load_width, store_width};
use bus::{Fault, Width};
use isa::instruction::Instruction;
use isa::kind::{CsrOp, Load};

// What an instruction asks of the bus, or the exception that stops it.
type Outcome = Result<Request, Exception>;

// An access, unless its address is no multiple of its width.
fn aligned(width: Width, address: u32, request: Request, exception: Exception) -> Outcome
    ensures { result ≡ asked width address request exception }
{
    if width.divides(address) {
        Ok(request)
    } else {
        Err(exception)
    }
}

fn ask_load(op: Load, rd: u8, address: u32) -> Outcome
    ensures { result ≡ asked_load op rd address }
{
    let request = Request::Load { op, rd, address };
    aligned(
        load_width(op),
        address,
        request,
        Exception::MisalignedLoad(address),
    )
}

fn ask_store(width: Width, address: u32, value: u32) -> Outcome
    ensures { result ≡ asked_store width address value }
{
    let request = Request::Store {
        width,
        address,
        value,
    };
    aligned(width, address, request, Exception::MisalignedStore(address))
}

// CSRRW writes whatever its source is; CSRRS and CSRRC write only from a source other than x0 or 0.
fn always_writes(op: CsrOp) -> bool
    ensures { result ≡ writes_always op }
{
    match op {
        CsrOp::Write => true,
        CsrOp::Set | CsrOp::Clear => false,
    }
}

fn combine(op: CsrOp, old: u32, source: u32) -> u32
    ensures { result ≡ combined op old source }
{
    match op {
        CsrOp::Write => source,
        CsrOp::Set => old | source,
        CsrOp::Clear => old & !source,
    }
}

// Nothing is asked, or the word is illegal.
fn legal(word: u32, done: Result<(), ControlRefusal>) -> Outcome
    ensures { result ≡ legal_if word (is_ok done) }
{
    done.map_err(|_| Exception::Illegal(word))?;
    Ok(Request::Nothing)
}

impl Hart {
    // Writes a result, and goes on to the next instruction.
    fn finish(&mut self, rd: u8, value: u32) -> Outcome
        ensures { goes (next (put rd value self.old)) ≡ (result, self.new) }
    {
        self.set(rd, value);
        self.advance();
        Ok(Request::Nothing)
    }

    // Goes on to the next instruction, and does nothing else itself.
    fn pass(&mut self, request: Request) -> Outcome
        ensures { asks request (next self.old) ≡ (result, self.new) }
    {
        self.advance();
        Ok(request)
    }

    fn mret(&mut self) -> Outcome
        ensures { goes (returned self.old) ≡ (result, self.new) }
    {
        self.leave_trap();
        Ok(Request::Nothing)
    }

    // The address of a load, a store or JALR.
    fn address(&self, rs1: u8, imm: u32) -> u32
        ensures { result ≡ plus (read self.now rs1) imm }
    {
        self.get(rs1).wrapping_add(imm)
    }

    // A branch, taken or not.
    fn branch(&mut self, taken: bool, target: u32) -> Outcome
        ensures { branched taken target self.old ≡ (result, self.new) }
    {
        if !taken {
            return self.pass(Request::Nothing);
        }
        if target % 4 != 0 {
            return Err(Exception::MisalignedTarget(target));
        }
        self.jump(target);
        Ok(Request::Nothing)
    }

    // Jumps, with the address of the next instruction in rd.
    fn link(&mut self, rd: u8, target: u32) -> Outcome
        ensures { linked rd target self.old ≡ (result, self.new) }
    {
        let next = self.pc.wrapping_add(4);
        if target % 4 != 0 {
            return Err(Exception::MisalignedTarget(target));
        }
        self.set(rd, next);
        self.jump(target);
        Ok(Request::Nothing)
    }

    // Reads a control register into rd, and writes it from the source, if there is one.
    fn csr(
        &mut self,
        op: CsrOp,
        rd: u8,
        source: Option<u32>,
        number: u16,
    ) -> Result<(), ControlRefusal>
        ensures { csr_done op rd source number self.old ≡ (is_ok result, self.new) }
    {
        let register = ControlRegister::try_from(number)?;
        let old = self.control.read(register);
        if let Some(source) = source {
            self.control.write(register, combine(op, old, source))?;
        }
        self.set(rd, old);
        self.advance();
        Ok(())
    }

    fn execute(&mut self, word: u32, i: Instruction) -> Outcome
        ensures { executed word i self.old ≡ (result, self.new) }
    {
        match i {
            Instruction::Lui { rd, imm } => self.finish(rd, imm),
            Instruction::Auipc { rd, imm } => self.finish(rd, self.pc.wrapping_add(imm)),
            Instruction::Jal { rd, imm } => self.link(rd, self.pc.wrapping_add(imm)),
            Instruction::Jalr { rd, rs1, imm } => self.link(rd, self.address(rs1, imm) / 2 * 2),
            Instruction::Branch { op, rs1, rs2, imm } => {
                let taken = op.holds(self.get(rs1), self.get(rs2));
                self.branch(taken, self.pc.wrapping_add(imm))
            }
            Instruction::Load { op, rd, rs1, imm } => ask_load(op, rd, self.address(rs1, imm)),
            Instruction::Store { op, rs1, rs2, imm } => {
                ask_store(store_width(op), self.address(rs1, imm), self.get(rs2))
            }
            Instruction::Immediate { op, rd, rs1, imm } => {
                self.finish(rd, op.apply(self.get(rs1), imm))
            }
            Instruction::Op { op, rd, rs1, rs2 } => {
                self.finish(rd, op.apply(self.get(rs1), self.get(rs2)))
            }
            Instruction::Csr { op, rd, rs1, csr } => {
                let source = (rs1 != 0 || always_writes(op)).then(|| self.get(rs1));
                legal(word, self.csr(op, rd, source, csr))
            }
            Instruction::CsrImmediate { op, rd, imm, csr } => {
                let source = (imm != 0 || always_writes(op)).then(|| u32::from(imm));
                legal(word, self.csr(op, rd, source, csr))
            }
            Instruction::Fence | Instruction::Wfi => self.pass(Request::Nothing),
            Instruction::FenceI => self.pass(Request::Fence),
            Instruction::Ecall => Err(Exception::Ecall),
            Instruction::Ebreak => Err(Exception::Breakpoint),
            Instruction::Mret => self.mret(),
            Instruction::Unknown => Err(Exception::Illegal(word)),
        }
    }

    // Carries out an instruction up to its access of the bus; an exception is taken as a trap.
    // The word stands beside its instruction: a pair would say no more, or ask of callers that the one is decoded from the other.
    #[tactic(auto, unfolding(crate::specs::Execute::begun))]
    pub fn begin(&mut self, word: u32, i: Instruction) -> Request
        ensures state { begun word i self.old ≡ (result, self.new) }
        ensures invariant { Invariant self.new }
    {
        let request = match self.execute(word, i) {
            Ok(request) => request,
            Err(e) => {
                self.raise(e, None);
                Request::Nothing
            }
        };
        // does nothing, here and below: a proof knows a hart's invariant only where a field is used
        let _ = &self.pc;
        request
    }

    // Ends a load with what the bus answered. It takes the parts of `Request::Load`: a struct of them would add a name and no fact.
    #[tactic(auto, unfolding(crate::specs::Execute::loaded))]
    pub fn end_load(&mut self, op: Load, rd: u8, address: u32, answer: Result<u32, Fault>)
        ensures state { self.new ≡ loaded op rd address (numbered answer) self.old }
        ensures invariant { Invariant self.new }
    {
        match answer {
            Ok(came) => {
                self.set(rd, load_value(op, came));
                self.advance();
            }
            Err(fault) => self.raise(Exception::LoadFault(address), Some(fault)),
        }
        let _ = &self.pc;
    }

    // Ends a store with what the bus answered.
    #[tactic(auto, unfolding(crate::specs::Execute::stored))]
    pub fn end_store(&mut self, address: u32, answer: Result<(), Fault>)
        ensures state { self.new ≡ stored address (numbered answer) self.old }
        ensures invariant { Invariant self.new }
    {
        match answer {
            Ok(()) => self.advance(),
            Err(fault) => self.raise(Exception::StoreFault(address), Some(fault)),
        }
        let _ = &self.pc;
    }

    // Takes the trap of a fetch that the bus refused.
    #[tactic(auto, unfolding(crate::specs::Execute::unfetched))]
    pub fn fail_fetch(&mut self, fault: Fault)
        ensures state { self.new ≡ unfetched (fault_numbers fault) self.old }
        ensures invariant { Invariant self.new }
    {
        self.raise(Exception::FetchFault, Some(fault));
        let _ = &self.pc;
    }
}
