// ELF32 images of RISC-V firmware: which files are let in, and what stands in them.
#![tactic(auto)]

mod check;
mod fields;
mod file;
mod header;
mod holder;
mod image;
mod records;
mod refusal;
mod section;
mod segment;
mod symbol;
mod symbols;

pub use holder::ImageHolder;
pub use image::Image;
pub use records::{Record, RecordTable, find};
pub use refusal::Refusal;
pub use segment::Segment;
pub use symbol::Symbol;
pub use symbols::Symbols;
