// The instruction set of RV32IM with Zicsr and Zifencei: decoding, and what the operations compute.
#![tactic(auto)]

pub mod alu;
pub mod branch;
pub mod decode;
mod fields;
pub mod instruction;
pub mod kind;
pub mod table;
#[cfg(test)]
mod tests;
