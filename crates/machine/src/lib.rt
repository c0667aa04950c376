// A machine: a hart on a bus that it holds, with the calls by which it is run, fed, changed and asked.
#![tactic(auto)]

mod answer;
mod plain;
mod system;

pub use answer::{End, Fetched, Refusal, Run};
pub use plain::Plain;
