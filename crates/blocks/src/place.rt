// Where the word at an address is kept.
ghost use Rattle.blocks.specs.Blocks.{place_of, row_of, tag_of};
ghost use Rattle.std.specs.Prelude.{◌≡◌, ◌<◌};

#[derive(Clone, Copy)]
pub(crate) struct Place {
    pub(crate) row: usize,
    pub(crate) tag: u32,
    pub(crate) slot: usize,
    ghost row_exists: { row < 128 },
    ghost slot_exists: { slot < 8 },
}

impl Place {
    pub(crate) fn of(address: u32) -> Place
        ensures row { result.row ≡ row_of address }
        ensures tag { result.tag ≡ tag_of address }
        ensures slot { result.slot ≡ place_of address }
    {
        Place {
            row: (address / 32 % 128) as usize,
            tag: address / 4096,
            slot: (address / 4 % 8) as usize,
        }
    }
}
