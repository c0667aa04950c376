// What an instruction asks of the bus: at most one access. `Nothing` is a case and no `None`: the machine goes through all four
// alike, and with an Option three would be wrapped in `Some`.
use bus::Width;
use isa::kind::Load;

#[derive(Clone, Copy)]
pub enum Request {
    Nothing,
    // FENCE.I: what was fetched earlier is not to be relied on.
    Fence,
    Load {
        op: Load,
        rd: u8,
        address: u32,
    },
    Store {
        width: Width,
        address: u32,
        value: u32,
    },
}
