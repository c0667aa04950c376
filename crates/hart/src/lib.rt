// A hart of RV32IM in machine mode: its registers, its traps, and what each instruction does to it.
#![tactic(auto)]

mod control;
mod control_register;
mod exception;
mod hart;
mod interrupt;
mod refusal;
mod request;
mod width;

pub use exception::Exception;
pub use hart::{Hart, Trap};
pub use refusal::RegisterRefusal;
pub use request::Request;
pub use width::load_width;
