// Traps, interrupts and the return from them.
ghost use Rattle.hart.specs.Interrupts.{interrupt_number};
ghost use Rattle.hart.specs.Traps.{interrupt, interrupted, latched, mip_of, raised, returned, trapped};
ghost use Rattle.hart.specs.State.{Invariant, faults_of};
ghost use Rattle.std.specs.Option.{option_map};
ghost use Rattle.std.specs.Prelude.{◌≡◌};

use crate::control::{Saved, Status};
use crate::exception::Exception;
use crate::hart::{Hart, Trap};
use crate::interrupt::Interrupt;
use bus::{Fault, Lines};

// The lines as the bits of mip, whose places are the hart's, not the bus's. No `From<Lines> for u32`: a crate cannot give a trait of
// std to two types of other crates.
fn mip(lines: Lines) -> u32
    ensures { result ≡ mip_of lines }
{
    u32::from(lines.software) * 8 + u32::from(lines.timer) * 128 + u32::from(lines.external) * 2048
}

impl Hart {
    // Takes a trap: saves what stands, switches interrupts off, and goes to mtvec.
    fn trap_to(&mut self, mcause: u32, mtval: u32, fault: Option<Fault>)
        ensures { self.new ≡ trapped mcause mtval (faults_of fault) self.old }
    {
        let mepc = self.pc;
        self.control.saved = Saved {
            mepc,
            mcause,
            mtval,
        };
        self.control.status = Status {
            mie: false,
            mpie: self.control.status.mie,
        };
        self.trap = Some(Trap {
            mcause,
            mepc,
            mtval,
            fault,
        });
        self.pc = self.control.mtvec / 4 * 4;
    }

    pub(crate) fn raise(&mut self, e: Exception, fault: Option<Fault>)
        ensures { self.new ≡ raised e (faults_of fault) self.old }
    {
        self.trap_to(e.cause(), e.value(self.pc), fault);
    }

    // The interrupt to take, if any: the external one before the software's before the timer's.
    fn due(&self) -> Option<Interrupt>
        ensures { option_map interrupt_number result ≡ interrupt self.now }
    {
        if !self.control.status.mie {
            return None;
        }
        let ready = self.control.pending & self.control.enabled;
        if ready / 2048 % 2 == 1 {
            Some(Interrupt::External)
        } else if ready / 8 % 2 == 1 {
            Some(Interrupt::Software)
        } else if ready / 128 % 2 == 1 {
            Some(Interrupt::Timer)
        } else {
            None
        }
    }

    fn take_due(&mut self) -> bool
        ensures { interrupted self.old ≡ (result, self.new) }
    {
        match self.due() {
            Some(interrupt) => {
                self.trap_to(interrupt.cause(), 0, None);
                true
            }
            None => false,
        }
    }

    // The start of a step: reads the lines into mip, and takes an interrupt if one is due.
    #[tactic(auto, unfolding(crate::specs::Traps::latched))]
    pub fn latch(&mut self, lines: Lines) -> bool
        ensures state { latched lines self.old ≡ (result, self.new) }
        ensures invariant { Invariant self.new }
    {
        let pending = mip(lines);
        self.control.pending = pending;
        if pending == 0 {
            return false;
        }
        self.take_due()
    }

    // MRET.
    pub(crate) fn leave_trap(&mut self)
        ensures { self.new ≡ returned self.old }
    {
        self.control.status = Status {
            mie: self.control.status.mpie,
            mpie: true,
        };
        self.pc = self.control.saved.mepc / 4 * 4;
    }
}
