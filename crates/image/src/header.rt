ghost use Rattle.std.specs.Prelude.{◌≡◌};
ghost use Rattle.image.specs.Headers.{header_from};
ghost use Rattle.image.specs.Verdict.{segment_fits, covers};

use crate::fields::word;

// The length of a program header, and the types that matter here.
pub(crate) const PHENTSIZE: usize = 32;

pub(crate) const PT_LOAD: u32 = 1;

pub(crate) const PT_NOTE: u32 = 4;

// What is used of a program header.
#[derive(Clone, Copy)]
pub struct ProgramHeader {
    // p_type as it stands in the file: what is said of a file speaks of the number
    pub kind: u32,
    pub offset: u32,
    pub vaddr: u32,
    pub filesz: u32,
    pub memsz: u32,
}

impl From<&[u8; PHENTSIZE]> for ProgramHeader {
    ghost from_gives = { λ row h. h ≡ header_from row.now 0 };

    fn from(row: &[u8; PHENTSIZE]) -> Self {
        ProgramHeader {
            kind: word(row, 0),
            offset: word(row, 4),
            vaddr: word(row, 8),
            filesz: word(row, 16),
            memsz: word(row, 20),
        }
    }
}

impl ProgramHeader {
    // Whether the bytes of a load or note lie in a file of `len` bytes, and a load's memory holds them and ends by 2^32.
    pub(crate) fn fits(&self, len: usize) -> bool
        ensures { result ≡ segment_fits len self.now }
    {
        let inside = self.offset as usize + self.filesz as usize <= len;
        match self.kind {
            PT_LOAD => inside
                && self.filesz <= self.memsz
                && u64::from(self.vaddr) + u64::from(self.memsz) <= 1 << 32,
            PT_NOTE => inside,
            _ => true,
        }
    }

    // Whether an address lies in the memory of a load.
    pub(crate) fn covers(&self, a: u32) -> bool
        ensures { result ≡ covers a self.now }
    {
        self.kind == PT_LOAD
            && self.vaddr <= a
            && u64::from(a) < u64::from(self.vaddr) + u64::from(self.memsz)
    }
}
