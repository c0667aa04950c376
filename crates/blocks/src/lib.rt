// The kept blocks: 128 rows of eight slots, each with a word and its decoded form.
#![tactic(auto)]

mod laws;
mod place;
mod row;
mod slot;
mod store;

pub use laws::kept_words_follow_changes;
pub use slot::Slot;
pub use store::BlockStore;
