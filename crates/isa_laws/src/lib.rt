// Laws of the instruction set. Nothing runs: each function's contract is a law, stated in specs/.
#![tactic(auto)]

pub mod arithmetic;
pub mod encoding;
