// Laws of the hart and of the plain machine, over a bus of any kind. Nothing at run time: each contract is the law.
#![tactic(auto)]

ghost use Rattle.machine_laws.specs.ControlLaws.{WritesReadBack, ZeroSourcesOnlyRead};
ghost use Rattle.machine_laws.specs.InterruptLaws.{InterruptsAreOrdered};
ghost use Rattle.machine_laws.specs.RunLaws.{RunsCanBeCut, RunsStopFirst};
ghost use Rattle.machine_laws.specs.SoundLaws.{StepsStaySound};
ghost use Rattle.machine_laws.specs.TrapLaws.{ReturnUndoesTrap, TrapsChangeNothing};

use bus::Bus;

// x0 stays 0, and pc a multiple of 4.
#[tactic(auto, using(crate::proofs::Sound::steps_stay_sound))]
pub fn steps_stay_sound<B: Bus>()
    ensures { StepsStaySound B.Bus.kind }
{}

// A step that traps changes no register and makes no store.
pub fn traps_change_nothing<B: Bus>()
    ensures { TrapsChangeNothing B.Bus.kind }
{}

// MRET after a trap goes on where the trap was taken, with interrupts as they were.
#[tactic(auto, using(crate::proofs::Traps::return_undoes_trap))]
pub fn return_undoes_trap()
    ensures { ReturnUndoesTrap }
{}

// An interrupt is taken exactly when interrupts are on, it is enabled and its line is up; 11 before 3 before 7.
#[tactic(auto, using(crate::proofs::Interrupts::in_order))]
pub fn interrupts_are_ordered()
    ensures { InterruptsAreOrdered }
{}

// What each control register reads after a write, and that no other changes.
#[tactic(auto, using(crate::proofs::Control::writes_read_back))]
pub fn writes_read_back()
    ensures { WritesReadBack }
{}

// CSRRS and CSRRC from x0, or from the immediate 0, write no control register.
#[tactic(auto, using(crate::proofs::Control::zero_sources_only_read))]
pub fn zero_sources_only_read()
    ensures { ZeroSourcesOnlyRead }
{}

// A run cut in two is the run with the summed budget.
#[tactic(auto, using(crate::proofs::Runs::cut))]
pub fn runs_can_be_cut<B: Bus>()
    ensures { RunsCanBeCut B.Bus.kind }
{}

// A run stops at the first step at which it must.
#[tactic(auto, using(crate::proofs::Runs::stops_first))]
pub fn runs_stop_first<B: Bus>()
    ensures { RunsStopFirst B.Bus.kind }
{}
