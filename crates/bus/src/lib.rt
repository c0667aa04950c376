// What a hart and a loader call: the access types, the trait `Bus`, and the split that joins two buses.
#![tactic(auto)]

mod access;
mod bus;
mod split;

pub use access::{Cause, Device, Fault, FeedRefusal, Lines, Width, feed_number};
pub use bus::Bus;
pub use split::Split;
