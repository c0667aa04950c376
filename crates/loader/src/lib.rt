// Loading an image over any bus.
#![tactic(auto)]

mod loading;
mod refusal;

pub use loading::load;
pub use refusal::LoadRefusal;
