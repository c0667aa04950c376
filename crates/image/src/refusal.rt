ghost use Rattle.image.specs.Numbers.{refusal_number};
ghost use Rattle.std.specs.Fmt.{decimal};
ghost use Rattle.std.specs.Prelude.{◌≡◌, ◌++◌, Some, codes};

use std::error::Error;
use std::fmt;

// Why a file, or an index into one of its tables, is refused.
#[derive(Clone, Copy, PartialEq, Eq, Debug)]
pub enum Refusal {
    // shorter than a file header, or longer than 64 KiB
    Size = 1,
    // not a 32-bit little-endian ELF file
    Identification = 2,
    // not an executable for RISC-V with no flags
    FileKind = 3,
    // the program header table
    ProgramTable = 4,
    // the file range or the memory range of a segment
    SegmentBounds = 5,
    // the entry is not aligned, or in no load segment
    EntryPoint = 6,
    // an index past a table
    Index = 19,
}

impl Refusal {
    // The number by which a report names the refusal.
    pub fn number(self) -> u8
        ensures { result ≡ refusal_number self }
    {
        self as u8
    }
}

// The same in hart, image, loader and machine: only a type's own crate can give it `Display`, so a shared trait would need an impl in each.
impl fmt::Display for Refusal {
    ghost output = { λ r. Some (codes "refused " ++ decimal (refusal_number r)) };

    fn fmt<W: fmt::Write>(&self, f: &mut fmt::Formatter<W>) -> fmt::Result {
        write!(f, "refused {}", self.number())
    }
}

impl Error for Refusal {}
